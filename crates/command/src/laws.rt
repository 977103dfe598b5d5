// Name laws of lines, so that they are proved; the functions do nothing.
ghost use Rattle.command.specs.Worked.{WorkedCommands, WorkedWrongs};
ghost use Rattle.command.specs.Written.{ReadAsWritten};

pub fn worked_commands()
    ensures { WorkedCommands }
{}

pub fn worked_wrongs()
    ensures { WorkedWrongs }
{}

pub fn read_as_written()
    ensures { ReadAsWritten }
{}
