// The registers of a card, as four lines.
ghost use Rattle.plot.specs.Lines.{line};
ghost use Rattle.std.specs.Prelude.{◌≡◌, ◌++◌, string_bytes, OnOk, Some};
ghost use Rattle.text.specs.Hexadecimal.{hex_word};
ghost use Rattle.transcript.specs.Registers.{alternate_text, bit_text, interrupt_mode_text, main_text, mode_name, pair_text, pairs_text, ports_text, processor_text, status_text};

use registers::registers::{InterruptMode, Mode, RegisterSet, Registers};
use registers::window::Window;
use std::alloc::AllocError;
use std::fmt;

// A pair: its high byte, its low byte.
#[derive(Clone, Copy)]
struct Pair(u8, u8);

impl fmt::Display for Pair {
    ghost output = { λ p. Some (pair_text p.0 p.1) };

    #[tactic(auto, using(text::proofs::Written::printed))]
    fn fmt<W: fmt::Write>(&self, f: &mut fmt::Formatter<W>) -> fmt::Result {
        let high = self.0;
        let low = self.1;
        write!(f, "{high:02X}{low:02X}")
    }
}

#[derive(Clone, Copy)]
struct Word(u16);

impl fmt::Display for Word {
    ghost output = { λ w. Some (hex_word w.0) };

    #[tactic(auto, using(text::proofs::Written::printed))]
    fn fmt<W: fmt::Write>(&self, f: &mut fmt::Formatter<W>) -> fmt::Result {
        let word = self.0;
        write!(f, "{word:04X}")
    }
}

// A flag, as a digit.
#[derive(Clone, Copy)]
pub(crate) struct Bit(pub(crate) bool);

impl fmt::Display for Bit {
    ghost output = { λ b. Some (bit_text b.0) };

    fn fmt<W: fmt::Write>(&self, f: &mut fmt::Formatter<W>) -> fmt::Result {
        f.write_str(if self.0 { "1" } else { "0" })
    }
}

#[derive(Clone, Copy)]
struct InterruptModeDigit(InterruptMode);

impl fmt::Display for InterruptModeDigit {
    ghost output = { λ m. Some (interrupt_mode_text m.0) };

    fn fmt<W: fmt::Write>(&self, f: &mut fmt::Formatter<W>) -> fmt::Result {
        f.write_str(match self.0 {
            InterruptMode::Zero => "0",
            InterruptMode::One => "1",
            InterruptMode::Two => "2",
        })
    }
}

#[derive(Clone, Copy)]
struct ModeName(Mode);

impl fmt::Display for ModeName {
    ghost output = { λ m. Some (mode_name m.0) };

    fn fmt<W: fmt::Write>(&self, f: &mut fmt::Formatter<W>) -> fmt::Result {
        f.write_str(match self.0 {
            Mode::Running => "running",
            Mode::Halted => "halted",
            Mode::Asleep => "asleep",
        })
    }
}

#[derive(Clone, Copy)]
struct MainPairs(RegisterSet);

impl fmt::Display for MainPairs {
    ghost output = { λ p. Some (pairs_text p.0) };

    #[tactic(auto, unfolding(crate::specs::Registers::pairs_text))]
    fn fmt<W: fmt::Write>(&self, f: &mut fmt::Formatter<W>) -> fmt::Result {
        let set = self.0;
        let af = Pair(set.a, u8::from(set.f));
        let bc = Pair(set.b, set.c);
        let de = Pair(set.d, set.e);
        let hl = Pair(set.h, set.l);
        write!(f, "af={af} bc={bc} de={de} hl={hl}")
    }
}

// The pairs in use, and the words.
#[derive(Clone, Copy)]
struct MainLine(Registers);

impl fmt::Display for MainLine {
    ghost output = { λ l. Some (main_text l.0) };

    #[tactic(auto, unfolding(crate::specs::Registers::main_text))]
    fn fmt<W: fmt::Write>(&self, f: &mut fmt::Formatter<W>) -> fmt::Result {
        let pairs = MainPairs(self.0.main);
        let ix = Word(self.0.ix);
        let iy = Word(self.0.iy);
        let sp = Word(self.0.sp);
        let pc = Word(self.0.pc);
        write!(f, "{pairs} ix={ix} iy={iy} sp={sp} pc={pc}")
    }
}

#[derive(Clone, Copy)]
struct AlternateLine(RegisterSet);

impl fmt::Display for AlternateLine {
    ghost output = { λ l. Some (alternate_text l.0) };

    #[tactic(auto, unfolding(crate::specs::Registers::alternate_text))]
    fn fmt<W: fmt::Write>(&self, f: &mut fmt::Formatter<W>) -> fmt::Result {
        let set = self.0;
        let af = Pair(set.a, u8::from(set.f));
        let bc = Pair(set.b, set.c);
        let de = Pair(set.d, set.e);
        let hl = Pair(set.h, set.l);
        write!(f, "af'={af} bc'={bc} de'={de} hl'={hl}")
    }
}

#[derive(Clone, Copy)]
struct StatusLine(Registers);

impl fmt::Display for StatusLine {
    ghost output = { λ l. Some (status_text l.0) };

    #[tactic(auto, using(text::proofs::Written::printed), unfolding(crate::specs::Registers::status_text))]
    fn fmt<W: fmt::Write>(&self, f: &mut fmt::Formatter<W>) -> fmt::Result {
        let i = self.0.i;
        let r = self.0.r;
        let ief1 = Bit(self.0.ief1);
        let ief2 = Bit(self.0.ief2);
        let im = InterruptModeDigit(self.0.im);
        let mode = ModeName(self.0.mode);
        let ei = Bit(self.0.ei);
        write!(
            f,
            "i={i:02X} r={r:02X} ief1={ief1} ief2={ief2} im={im} mode={mode} ei={ei}"
        )
    }
}

// The internal ports.
#[derive(Clone, Copy)]
struct PortsLine {
    cpu: Registers,
    window: Window,
}

impl fmt::Display for PortsLine {
    ghost output = { λ l. Some (ports_text (record { cpu = l.cpu; window = l.window })) };

    #[tactic(auto, using(text::proofs::Written::printed), unfolding(crate::specs::Registers::ports_text))]
    fn fmt<W: fmt::Write>(&self, f: &mut fmt::Formatter<W>) -> fmt::Result {
        let il = self.cpu.il;
        let itc = self.cpu.itc;
        let cbr = self.window.cbr;
        let bbr = self.window.bbr;
        let cbar = self.window.cbar;
        let icr = self.cpu.icr;
        write!(
            f,
            "il={il:02X} itc={itc:02X} cbr={cbr:02X} bbr={bbr:02X} cbar={cbar:02X} icr={icr:02X}"
        )
    }
}

pub(crate) fn processor_lines(
    text: &mut String,
    cpu: Registers,
    window: Window,
) -> Result<(), AllocError>
    ensures { OnOk result (string_bytes text.new ≡ string_bytes text.old ++ processor_text (record { cpu = cpu; window = window })) }
{
    let main = MainLine(cpu);
    let alternate = AlternateLine(cpu.alternate);
    let status = StatusLine(cpu);
    let ports = PortsLine { cpu, window };
    writeln!(
        text,
        "{main}
{alternate}
{status}
{ports}"
    )
}
