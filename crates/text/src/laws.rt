// Names the laws of what is read, so that they are proved; the function does nothing.
ghost use Rattle.text.specs.Laws.{ReadBack};

pub fn read_back()
    ensures { ReadBack }
{}
