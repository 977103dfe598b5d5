// What each command says, by the words behind its name.
ghost use Rattle.command.specs.Commands.{given, said_by, times};
ghost use Rattle.command.specs.Counts.{no_word};
ghost use Rattle.command.specs.Reads.{Reads};
ghost use Rattle.command.specs.Said.{said_of};
ghost use Rattle.command.specs.declared.form.Form.TheVariants as form;
ghost use Rattle.std.specs.Option.{option_map};
ghost use Rattle.std.specs.Prelude.{◌≡◌, map, Ok};

use crate::command::Command;
use crate::counts::{first, five, none, one, optional, some, three, two};
use crate::form::Form;
use crate::lists::all;
use crate::places::{address, byte, decimal, logical, text, window};
use crate::unread::Unread;
use crate::wrong::{Place, Wrong};
use std::alloc::Global;

fn rom(words: &[&[u8]]) -> Result<Command, Unread>
    ensures { Reads said_of result (said_by form.Rom (map (λ w. w.now) words.now)) }
{
    let length = one(Form::Rom, words)?;
    Ok(Command::Rom(decimal(Place::Length, length)?))
}

fn ram(words: &[&[u8]]) -> Result<Command, Unread>
    ensures { Reads said_of result (said_by form.Ram (map (λ w. w.now) words.now)) }
{
    let length = one(Form::Ram, words)?;
    Ok(Command::Ram(decimal(Place::Length, length)?))
}

fn bytes(heap: Global, words: &[&[u8]]) -> Result<Command, Unread>
    ensures { Reads said_of result (said_by form.Bytes (map (λ w. w.now) words.now)) }
{
    let (at, words) = first(Form::Bytes, words)?;
    let bytes = some(Form::Bytes, words)?;
    Ok(Command::Bytes(address(at)?, all(heap, bytes)?))
}

fn fill(words: &[&[u8]]) -> Result<Command, Unread>
    ensures { Reads said_of result (said_by form.Fill (map (λ w. w.now) words.now)) }
{
    let (at, length, hh) = three(Form::Fill, words)?;
    Ok(Command::Fill {
        at: address(at)?,
        length: decimal(Place::Length, length)?,
        byte: byte(Place::Hh, hh)?,
    })
}

fn image(heap: Global, words: &[&[u8]]) -> Result<Command, Unread>
    ensures { Reads said_of result (said_by form.Image (map (λ w. w.now) words.now)) }
{
    let (at, file) = two(Form::Image, words)?;
    Ok(Command::Image(address(at)?, String::from_str(heap, text(file)?)?))
}

fn protect(heap: Global, words: &[&[u8]]) -> Result<Command, Unread>
    ensures { Reads said_of result (said_by form.Protect (map (λ w. w.now) words.now)) }
{
    let pages = some(Form::Protect, words)?;
    Ok(Command::Protect(all(heap, pages)?))
}

fn patch(heap: Global, words: &[&[u8]]) -> Result<Command, Unread>
    ensures { Reads said_of result (said_by form.Patch (map (λ w. w.now) words.now)) }
{
    let entries = some(Form::Patch, words)?;
    Ok(Command::Patch(all(heap, entries)?))
}

fn chain(words: &[&[u8]]) -> Result<Command, Unread>
    ensures { Reads said_of result (said_by form.Chain (map (λ w. w.now) words.now)) }
{
    let records = one(Form::Chain, words)?;
    Ok(Command::Chain(decimal(Place::Records, records)?))
}

fn script(heap: Global, words: &[&[u8]]) -> Result<Command, Unread>
    ensures { Reads said_of result (said_by form.Script (map (λ w. w.now) words.now)) }
{
    let (int0_byte, words) = first(Form::Script, words)?;
    let (states, reads) = first(Form::Script, words)?;
    Ok(Command::Script {
        int0_byte: byte(Place::Byte, int0_byte)?,
        threshold: decimal(Place::States, states)?,
        reads: all(heap, reads)?,
    })
}

fn key(words: &[&[u8]]) -> Result<Command, Unread>
    ensures { Reads said_of result (said_by form.Key (map (λ w. w.now) words.now)) }
{
    let hh = one(Form::Key, words)?;
    Ok(Command::Key(byte(Place::Hh, hh)?))
}

// How often a call is made.
fn times(word: Option<&[u8]>) -> Result<u32, Wrong>
    ensures { result ≡ times (option_map (λ w. w.now) word.entry) }
{
    match word {
        Some(word) => decimal(Place::Times, word),
        None => Ok(1),
    }
}

fn step(words: &[&[u8]]) -> Result<Command, Unread>
    ensures { Reads said_of result (said_by form.Step (map (λ w. w.now) words.now)) }
{
    let word = optional(Form::Step, words)?;
    Ok(Command::Step(times(word)?))
}

fn run(words: &[&[u8]]) -> Result<Command, Unread>
    ensures { Reads said_of result (said_by form.Run (map (λ w. w.now) words.now)) }
{
    let (budget, words) = first(Form::Run, words)?;
    let word = optional(Form::Run, words)?;
    Ok(Command::Run {
        budget: decimal(Place::Budget, budget)?,
        times: times(word)?,
    })
}

fn look(words: &[&[u8]]) -> Result<Command, Unread>
    ensures { Reads said_of result (said_by form.Look (map (λ w. w.now) words.now)) }
{
    let (cbar, cbr, bbr, at, length) = five(Form::Look, words)?;
    Ok(Command::Look {
        window: window(cbar, cbr, bbr)?,
        at: logical(at)?,
        length: decimal(Place::Length, length)?,
    })
}

// A command of its name alone.
fn alone(form: Form, words: &[&[u8]], command: Command) -> Result<Command, Unread>
    ensures { Reads said_of result (given (no_word form (map (λ w. w.now) words.now)) (λ _. Ok (said_of command))) }
{
    none(form, words)?;
    Ok(command)
}

// What the command of a form says.
pub(crate) fn said_by(heap: Global, form: Form, words: &[&[u8]]) -> Result<Command, Unread>
    ensures { Reads said_of result (said_by form (map (λ w. w.now) words.now)) }
{
    match form {
        Form::Rom => rom(words),
        Form::Ram => ram(words),
        Form::Bytes => bytes(heap, words),
        Form::Fill => fill(words),
        Form::Image => image(heap, words),
        Form::Protect => protect(heap, words),
        Form::Patch => patch(heap, words),
        Form::Chain => chain(words),
        Form::Script => script(heap, words),
        Form::Key => key(words),
        Form::Latch => alone(form, words, Command::Latch),
        Form::Second => alone(form, words, Command::Second),
        Form::Make => alone(form, words, Command::Make),
        Form::Step => step(words),
        Form::Run => run(words),
        Form::Reset => alone(form, words, Command::Reset),
        Form::Look => look(words),
        Form::Show => alone(form, words, Command::Show),
    }
}
