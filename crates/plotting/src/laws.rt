// Names that the run of a plot is the one line of a log, so that it is proved; the function does nothing.
ghost use Rattle.plotting.specs.Plotting.{OfTheLog};

pub fn of_the_log()
    ensures { OfTheLog }
{}
