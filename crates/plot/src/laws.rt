// Names a worked listing, so that it is proved; the function does nothing.
ghost use Rattle.plot.specs.Worked.{WorkedListing};

pub fn worked_listing()
    ensures { WorkedListing }
{}
