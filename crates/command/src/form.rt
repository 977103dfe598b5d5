// The forms of a command, by its name.
ghost use Rattle.command.specs.Forms.{form_line, form_of, form_of_call, form_of_memory, form_of_panel};
ghost use Rattle.std.specs.Prelude.{◌≡◌, Some};

use std::fmt;

#[derive(Clone, Copy, Debug, PartialEq, Eq)]
pub enum Form {
    Rom,
    Ram,
    Bytes,
    Fill,
    Image,
    Protect,
    Patch,
    Chain,
    Script,
    Key,
    Latch,
    Second,
    Make,
    Step,
    Run,
    Reset,
    Look,
    Show,
}

impl fmt::Display for Form {
    ghost output = { λ f. Some (form_line f) };

    fn fmt<W: fmt::Write>(&self, f: &mut fmt::Formatter<W>) -> fmt::Result {
        f.write_str(match self {
            Form::Rom => "rom LENGTH",
            Form::Ram => "ram LENGTH",
            Form::Bytes => "bytes ADDRESS HH ..",
            Form::Fill => "fill ADDRESS LENGTH HH",
            Form::Image => "image ADDRESS FILE",
            Form::Protect => "protect PAGE ..",
            Form::Patch => "patch ADDRESS=HH ..",
            Form::Chain => "chain RECORDS",
            Form::Script => "script BYTE STATES HH ..",
            Form::Key => "key HH",
            Form::Latch => "latch",
            Form::Second => "second",
            Form::Make => "make",
            Form::Step => "step [TIMES]",
            Form::Run => "run BUDGET [TIMES]",
            Form::Reset => "reset",
            Form::Look => "look CBAR CBR BBR ADDRESS LENGTH",
            Form::Show => "show",
        })
    }
}

// A form of a line that says what memory is.
fn of_memory(name: &[u8]) -> Option<Form>
    ensures { result ≡ form_of_memory name.now }
{
    match name {
        b"rom" => Some(Form::Rom),
        b"ram" => Some(Form::Ram),
        b"bytes" => Some(Form::Bytes),
        b"fill" => Some(Form::Fill),
        b"image" => Some(Form::Image),
        b"protect" => Some(Form::Protect),
        b"patch" => Some(Form::Patch),
        _ => None,
    }
}

// Of one about the panel.
fn of_panel(name: &[u8]) -> Option<Form>
    ensures { result ≡ form_of_panel name.now }
{
    match name {
        b"chain" => Some(Form::Chain),
        b"script" => Some(Form::Script),
        b"key" => Some(Form::Key),
        b"latch" => Some(Form::Latch),
        _ => None,
    }
}

// Of one about the cards and their calls.
fn of_call(name: &[u8]) -> Option<Form>
    ensures { result ≡ form_of_call name.now }
{
    match name {
        b"second" => Some(Form::Second),
        b"make" => Some(Form::Make),
        b"step" => Some(Form::Step),
        b"run" => Some(Form::Run),
        b"reset" => Some(Form::Reset),
        b"look" => Some(Form::Look),
        b"show" => Some(Form::Show),
        _ => None,
    }
}

impl Form {
    // The form of a command's name.
    pub(crate) fn of(name: &[u8]) -> Option<Form>
        ensures { result ≡ form_of name.now }
    {
        of_memory(name)
            .or_else(|| of_panel(name))
            .or_else(|| of_call(name))
    }
}
