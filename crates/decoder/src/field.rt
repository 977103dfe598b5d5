// The fields of an opcode byte, and what the operand fields name. These are functions and no impl of From: a field is a bare
// number, so that From would need a type round it, and pair(fields.p()) would become Pair::from(PairField(fields.p())).
ghost use Rattle.decoder.specs.Field as of;
ghost use Rattle.std.specs.Prelude.{◌≡◌, ◌<◌};

use arithmetic::operation::Operation;
use arithmetic::rotate::Rotate;
use instructions::group::calculation::Addend;
use registers::operand::{Condition, Direction, Pair, Register, StackPair};

// Bits 7 and 6 (x), 5 to 3 (y) and 2 to 0 (z) of an opcode byte.
#[derive(Clone, Copy)]
pub(crate) struct Fields {
    pub(crate) x: u8,
    pub(crate) y: u8,
    pub(crate) z: u8,
    ghost y_below: { y < 8 },
    ghost z_below: { z < 8 },
}

impl From<u8> for Fields {
    ghost from_gives = { λ byte fields. (fields.x ≡ of.x byte) × (fields.y ≡ of.y byte) × (fields.z ≡ of.z byte) };

    fn from(byte: u8) -> Fields {
        Fields {
            x: byte / 64,
            y: byte / 8 % 8,
            z: byte % 8,
        }
    }
}

impl Fields {
    // Bits 5 and 4.
    pub(crate) fn p(self) -> u8
        ensures { result ≡ of.p self.y }
    {
        self.y / 2
    }

    // Bit 3. Where it chooses one of two forms, the page has a match of two arms: one function handed both forms would be no shorter.
    pub(crate) fn q(self) -> u8
        ensures { result ≡ of.q self.y }
    {
        self.y % 2
    }
}

// The register of a field; 6 names none: it is (HL), or (IX+d) behind DDH.
pub(crate) fn register(field: u8) -> Option<Register>
    ensures { result ≡ of.register field }
{
    match field {
        0 => Some(Register::B),
        1 => Some(Register::C),
        2 => Some(Register::D),
        3 => Some(Register::E),
        4 => Some(Register::H),
        5 => Some(Register::L),
        6 => None,
        _ => Some(Register::A),
    }
}

pub(crate) fn pair(field: u8) -> Pair
    ensures { result ≡ of.pair field }
{
    match field {
        0 => Pair::Bc,
        1 => Pair::De,
        2 => Pair::Hl,
        _ => Pair::Sp,
    }
}

pub(crate) fn stack_pair(field: u8) -> StackPair
    ensures { result ≡ of.stack_pair field }
{
    match field {
        0 => StackPair::Bc,
        1 => StackPair::De,
        2 => StackPair::Hl,
        _ => StackPair::Af,
    }
}

pub(crate) fn addend(field: u8) -> Addend
    ensures { result ≡ of.addend field }
{
    match field {
        0 => Addend::Bc,
        1 => Addend::De,
        2 => Addend::Itself,
        _ => Addend::Sp,
    }
}

pub(crate) fn condition(field: u8) -> Condition
    ensures { result ≡ of.condition field }
{
    match field {
        0 => Condition::Nz,
        1 => Condition::Z,
        2 => Condition::Nc,
        3 => Condition::C,
        4 => Condition::Po,
        5 => Condition::Pe,
        6 => Condition::P,
        _ => Condition::M,
    }
}

pub(crate) fn operation(field: u8) -> Operation
    ensures { result ≡ of.operation field }
{
    match field {
        0 => Operation::Add,
        1 => Operation::AddWithCarry,
        2 => Operation::Subtract,
        3 => Operation::SubtractWithCarry,
        4 => Operation::And,
        5 => Operation::Xor,
        6 => Operation::Or,
        _ => Operation::Compare,
    }
}

// The rotate or shift of a field; 6 names none.
pub(crate) fn rotate(field: u8) -> Option<Rotate>
    ensures { result ≡ of.rotate field }
{
    match field {
        0 => Some(Rotate::Rlc),
        1 => Some(Rotate::Rrc),
        2 => Some(Rotate::Rl),
        3 => Some(Rotate::Rr),
        4 => Some(Rotate::Sla),
        5 => Some(Rotate::Sra),
        6 => None,
        _ => Some(Rotate::Srl),
    }
}

// The direction of a block instruction, by bit 3.
pub(crate) fn direction(field: u8) -> Direction
    ensures { result ≡ of.direction field }
{
    match field {
        0 => Direction::Up,
        _ => Direction::Down,
    }
}
