// Names a law of the definition, so that it is proved; the function does nothing.
ghost use Rattle.script.specs.Fitting.{PutsFit};

pub fn puts_fit()
    ensures { PutsFit }
{}
