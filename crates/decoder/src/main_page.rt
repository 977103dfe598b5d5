// The main page: what a first byte is.
ghost use Rattle.std.specs.Prelude.{◌≡◌};
ghost use Rattle.decoder.specs.Field as field;
ghost use Rattle.decoder.specs.Main as of;

use crate::field::{Fields, condition, operation, pair, register, stack_pair};
use crate::page::{First, Page};
use arithmetic::rotate::Rotate;
use instructions::group::calculation::Arithmetic;
use instructions::group::call::Call;
use instructions::group::control::Control;
use instructions::group::exchange::Exchange;
use instructions::group::jump::Jump;
use instructions::group::load::Load;
use instructions::group::port::Port;
use instructions::group::rotation::Rotation;
use instructions::instruction::Instruction;
use registers::operand::{Condition, Index, Pointer};

fn relative(y: u8) -> Instruction
    ensures { result ≡ of.relative y }
{
    match y {
        0 => Instruction::Control(Control::Nothing),
        1 => Instruction::Exchange(Exchange::AfAlternate),
        2 => Instruction::Jump(Jump::Count),
        3 => Instruction::Jump(Jump::Relative),
        4 => Instruction::Jump(Jump::RelativeIf(Condition::Nz)),
        5 => Instruction::Jump(Jump::RelativeIf(Condition::Z)),
        6 => Instruction::Jump(Jump::RelativeIf(Condition::Nc)),
        _ => Instruction::Jump(Jump::RelativeIf(Condition::C)),
    }
}

fn words(fields: Fields) -> Instruction
    ensures { result ≡ of.words fields.y }
{
    match fields.q() {
        0 => Instruction::Load(Load::PairWord(pair(fields.p()))),
        _ => Instruction::Arithmetic(Arithmetic::AddPair(pair(fields.p()))),
    }
}

fn indirect(y: u8) -> Instruction
    ensures { result ≡ of.indirect y }
{
    match y {
        0 => Instruction::Load(Load::PointerAccumulator(Pointer::Bc)),
        1 => Instruction::Load(Load::AccumulatorPointer(Pointer::Bc)),
        2 => Instruction::Load(Load::PointerAccumulator(Pointer::De)),
        3 => Instruction::Load(Load::AccumulatorPointer(Pointer::De)),
        4 => Instruction::Load(Load::AddressHl),
        5 => Instruction::Load(Load::HlAddress),
        6 => Instruction::Load(Load::AddressAccumulator),
        _ => Instruction::Load(Load::AccumulatorAddress),
    }
}

fn counted_words(fields: Fields) -> Instruction
    ensures { result ≡ of.counted_words fields.y }
{
    match fields.q() {
        0 => Instruction::Arithmetic(Arithmetic::IncrementPair(pair(fields.p()))),
        _ => Instruction::Arithmetic(Arithmetic::DecrementPair(pair(fields.p()))),
    }
}

fn accumulator(y: u8) -> Instruction
    ensures { result ≡ of.accumulator y }
{
    match y {
        0 => Instruction::Rotate(Rotation::Accumulator(Rotate::Rlc)),
        1 => Instruction::Rotate(Rotation::Accumulator(Rotate::Rrc)),
        2 => Instruction::Rotate(Rotation::Accumulator(Rotate::Rl)),
        3 => Instruction::Rotate(Rotation::Accumulator(Rotate::Rr)),
        4 => Instruction::Control(Control::DecimalAdjust),
        5 => Instruction::Arithmetic(Arithmetic::Complement),
        6 => Instruction::Control(Control::SetCarry),
        _ => Instruction::Control(Control::ComplementCarry),
    }
}

fn low(fields: Fields) -> Instruction
    ensures { result ≡ of.low fields.y fields.z }
{
    match fields.z {
        0 => relative(fields.y),
        1 => words(fields),
        2 => indirect(fields.y),
        3 => counted_words(fields),
        4 => Instruction::Arithmetic(register(fields.y).map_or(
            Arithmetic::IncrementMemory,
            Arithmetic::IncrementRegister,
        )),
        5 => Instruction::Arithmetic(register(fields.y).map_or(
            Arithmetic::DecrementMemory,
            Arithmetic::DecrementRegister,
        )),
        6 => Instruction::Load(register(fields.y).map_or(Load::MemoryByte, Load::RegisterByte)),
        _ => accumulator(fields.y),
    }
}

fn moved(fields: Fields) -> Instruction
    ensures { result ≡ of.moved (field.register fields.y) (field.register fields.z) }
{
    match (register(fields.y), register(fields.z)) {
        (Some(to), Some(from)) => Instruction::Load(Load::RegisterRegister(to, from)),
        (Some(to), None) => Instruction::Load(Load::RegisterMemory(to)),
        (None, Some(from)) => Instruction::Load(Load::MemoryRegister(from)),
        (None, None) => Instruction::Control(Control::Halt),
    }
}

fn operated(fields: Fields) -> Instruction
    ensures { result ≡ of.operated (field.operation fields.y) (field.register fields.z) }
{
    let operation = operation(fields.y);
    Instruction::Arithmetic(register(fields.z).map_or(
        Arithmetic::Memory(operation),
        |register| Arithmetic::Register(operation, register),
    ))
}

fn popped(fields: Fields) -> Instruction
    ensures { result ≡ of.popped fields.y }
{
    if fields.q() == 0 {
        return Instruction::Exchange(Exchange::Pop(stack_pair(fields.p())));
    }
    match fields.p() {
        0 => Instruction::Call(Call::Return),
        1 => Instruction::Exchange(Exchange::Alternates),
        2 => Instruction::Jump(Jump::Hl),
        _ => Instruction::Load(Load::SpHl),
    }
}

fn others(y: u8) -> First
    ensures { result ≡ of.others y }
{
    match y {
        0 => First::Instruction(Instruction::Jump(Jump::Always)),
        1 => First::Prefix(Page::Bits),
        2 => First::Instruction(Instruction::Port(Port::OutputAccumulator)),
        3 => First::Instruction(Instruction::Port(Port::InputAccumulator)),
        4 => First::Instruction(Instruction::Exchange(Exchange::StackHl)),
        5 => First::Instruction(Instruction::Exchange(Exchange::DeHl)),
        6 => First::Instruction(Instruction::Control(Control::DisableInterrupts)),
        _ => First::Instruction(Instruction::Control(Control::EnableInterrupts)),
    }
}

fn pushed(fields: Fields) -> First
    ensures { result ≡ of.pushed fields.y }
{
    if fields.q() == 0 {
        return First::Instruction(Instruction::Exchange(Exchange::Push(stack_pair(fields.p()))));
    }
    match fields.p() {
        0 => First::Instruction(Instruction::Call(Call::Always)),
        1 => First::Prefix(Page::Indexed(Index::Ix)),
        2 => First::Prefix(Page::Extended),
        _ => First::Prefix(Page::Indexed(Index::Iy)),
    }
}

fn high(fields: Fields) -> First
    ensures { result ≡ of.high fields.y fields.z }
{
    match fields.z {
        0 => First::Instruction(Instruction::Call(Call::ReturnIf(condition(fields.y)))),
        1 => First::Instruction(popped(fields)),
        2 => First::Instruction(Instruction::Jump(Jump::If(condition(fields.y)))),
        3 => others(fields.y),
        4 => First::Instruction(Instruction::Call(Call::If(condition(fields.y)))),
        5 => pushed(fields),
        6 => First::Instruction(Instruction::Arithmetic(Arithmetic::Byte(operation(fields.y)))),
        _ => First::Instruction(Instruction::Call(Call::Restart(fields.y * 8))),
    }
}

// What a first byte is.
pub fn decode(byte: u8) -> First
    ensures { result ≡ of.decoded byte }
{
    let fields = Fields::from(byte);
    match fields.x {
        0 => First::Instruction(low(fields)),
        1 => First::Instruction(moved(fields)),
        2 => First::Instruction(operated(fields)),
        _ => high(fields),
    }
}
