// The page behind EDH.
ghost use Rattle.decoder.specs.Ed as of;
ghost use Rattle.decoder.specs.Field as field;
ghost use Rattle.std.specs.Prelude.{◌≡◌};

use crate::field::{Fields, direction, pair, register};
use instructions::group::block::Block;
use instructions::group::calculation::Arithmetic;
use instructions::group::call::Call;
use instructions::group::control::Control;
use instructions::group::load::Load;
use instructions::group::port::Port;
use instructions::group::rotation::Rotation;
use instructions::instruction::Instruction;
use registers::operand::Direction;
use registers::registers::InterruptMode;

fn low(fields: Fields) -> Option<Instruction>
    ensures { result ≡ of.low fields.y fields.z }
{
    match fields.z {
        0 => Some(Instruction::Port(Port::InputZero(register(fields.y)?))),
        1 => Some(Instruction::Port(Port::OutputZero(register(fields.y)?))),
        4 => Some(Instruction::Arithmetic(register(fields.y).map_or(
            Arithmetic::TestMemory,
            Arithmetic::TestRegister,
        ))),
        _ => None,
    }
}

fn with_carry(fields: Fields) -> Instruction
    ensures { result ≡ of.with_carry fields.y }
{
    Instruction::Arithmetic(match fields.q() {
        0 => Arithmetic::SubtractWithCarryPair(pair(fields.p())),
        _ => Arithmetic::AddWithCarryPair(pair(fields.p())),
    })
}

fn words(fields: Fields) -> Instruction
    ensures { result ≡ of.words fields.y }
{
    Instruction::Load(match fields.q() {
        0 => Load::AddressPair(pair(fields.p())),
        _ => Load::PairAddress(pair(fields.p())),
    })
}

fn tests(fields: Fields) -> Option<Instruction>
    ensures { result ≡ of.tests fields.y }
{
    if fields.q() == 1 {
        return Some(Instruction::Arithmetic(Arithmetic::Multiply(pair(fields.p()))));
    }
    match fields.p() {
        0 => Some(Instruction::Arithmetic(Arithmetic::Negate)),
        1 => None,
        2 => Some(Instruction::Arithmetic(Arithmetic::TestByte)),
        _ => Some(Instruction::Port(Port::Test)),
    }
}

fn returns(y: u8) -> Option<Instruction>
    ensures { result ≡ of.returns y }
{
    match y {
        0 => Some(Instruction::Call(Call::ReturnFromNmi)),
        1 => Some(Instruction::Call(Call::ReturnFromInterrupt)),
        _ => None,
    }
}

fn modes(y: u8) -> Option<Instruction>
    ensures { result ≡ of.modes y }
{
    match y {
        0 => Some(Instruction::Control(Control::Mode(InterruptMode::Zero))),
        2 => Some(Instruction::Control(Control::Mode(InterruptMode::One))),
        3 => Some(Instruction::Control(Control::Mode(InterruptMode::Two))),
        6 => Some(Instruction::Control(Control::Sleep)),
        _ => None,
    }
}

fn accumulator(y: u8) -> Option<Instruction>
    ensures { result ≡ of.accumulator y }
{
    match y {
        0 => Some(Instruction::Load(Load::IAccumulator)),
        1 => Some(Instruction::Load(Load::RAccumulator)),
        2 => Some(Instruction::Load(Load::AccumulatorI)),
        3 => Some(Instruction::Load(Load::AccumulatorR)),
        4 => Some(Instruction::Rotate(Rotation::DigitsRight)),
        5 => Some(Instruction::Rotate(Rotation::DigitsLeft)),
        _ => None,
    }
}

fn middle(fields: Fields) -> Option<Instruction>
    ensures { result ≡ of.middle fields.y fields.z }
{
    match fields.z {
        0 => Some(Instruction::Port(Port::Input(register(fields.y)?))),
        1 => Some(Instruction::Port(Port::Output(register(fields.y)?))),
        2 => Some(with_carry(fields)),
        3 => Some(words(fields)),
        4 => tests(fields),
        5 => returns(fields.y),
        6 => modes(fields.y),
        _ => accumulator(fields.y),
    }
}

fn repeatable(p: u8, once: Instruction, repeated: Instruction) -> Option<Instruction>
    ensures { result ≡ of.repeatable p once repeated }
{
    match p {
        0 | 1 => None,
        2 => Some(once),
        _ => Some(repeated),
    }
}

fn outputs(p: u8, way: Direction) -> Instruction
    ensures { result ≡ of.outputs p way }
{
    Instruction::Port(match p {
        0 => Port::OutputZeroBlock(way),
        1 => Port::OutputZeroRepeated(way),
        2 => Port::OutputBlock(way),
        _ => Port::OutputRepeated(way),
    })
}

fn blocks(p: u8, way: Direction, z: u8) -> Option<Instruction>
    ensures { result ≡ of.blocks p way z }
{
    match z {
        0 => repeatable(
            p,
            Instruction::Block(Block::Transfer(way)),
            Instruction::Block(Block::TransferRepeated(way)),
        ),
        1 => repeatable(
            p,
            Instruction::Block(Block::Compare(way)),
            Instruction::Block(Block::CompareRepeated(way)),
        ),
        2 => repeatable(
            p,
            Instruction::Port(Port::InputBlock(way)),
            Instruction::Port(Port::InputRepeated(way)),
        ),
        3 => Some(outputs(p, way)),
        _ => None,
    }
}

// What a byte behind EDH is; none if it is undefined.
pub fn decode(byte: u8) -> Option<Instruction>
    ensures { result ≡ of.decoded byte }
{
    let fields = Fields::from(byte);
    match fields.x {
        0 => low(fields),
        1 => middle(fields),
        2 => blocks(fields.p(), direction(fields.q()), fields.z),
        _ => None,
    }
}
