// The page behind DDH or FDH, which names the index register.
ghost use Rattle.decoder.specs.Field as field;
ghost use Rattle.decoder.specs.Indexed as of;
ghost use Rattle.std.specs.Prelude.{◌≡◌};

use crate::field::{Fields, addend, operation, register};
use crate::page::Second;
use instructions::group::calculation::Arithmetic;
use instructions::group::exchange::Exchange;
use instructions::group::jump::Jump;
use instructions::group::load::Load;
use instructions::instruction::Instruction;
use registers::operand::Index;

fn words(index: Index, fields: Fields) -> Second
    ensures { result ≡ of.words index fields.y }
{
    if fields.q() == 1 {
        return Second::Instruction(Instruction::Arithmetic(Arithmetic::AddIndex(
            index,
            addend(fields.p()),
        )));
    }
    match fields.y {
        4 => Second::Instruction(Instruction::Load(Load::IndexWord(index))),
        _ => Second::Undefined,
    }
}

fn addressed(index: Index, y: u8) -> Second
    ensures { result ≡ of.addressed index y }
{
    match y {
        4 => Second::Instruction(Instruction::Load(Load::AddressIndex(index))),
        5 => Second::Instruction(Instruction::Load(Load::IndexAddress(index))),
        _ => Second::Undefined,
    }
}

fn counted_words(index: Index, y: u8) -> Second
    ensures { result ≡ of.counted_words index y }
{
    match y {
        4 => Second::Instruction(Instruction::Arithmetic(Arithmetic::IncrementIndex(index))),
        5 => Second::Instruction(Instruction::Arithmetic(Arithmetic::DecrementIndex(index))),
        _ => Second::Undefined,
    }
}

fn low(index: Index, fields: Fields) -> Second
    ensures { result ≡ of.low index fields.y fields.z }
{
    match (fields.y, fields.z) {
        (_, 1) => words(index, fields),
        (_, 2) => addressed(index, fields.y),
        (_, 3) => counted_words(index, fields.y),
        (6, 4) => Second::Instruction(Instruction::Arithmetic(Arithmetic::IncrementIndexed(index))),
        (6, 5) => Second::Instruction(Instruction::Arithmetic(Arithmetic::DecrementIndexed(index))),
        (6, 6) => Second::Instruction(Instruction::Load(Load::IndexedByte(index))),
        _ => Second::Undefined,
    }
}

fn moved(index: Index, fields: Fields) -> Second
    ensures { result ≡ of.moved index (field.register fields.y) (field.register fields.z) }
{
    match (register(fields.y), register(fields.z)) {
        (Some(to), None) => Second::Instruction(Instruction::Load(Load::RegisterIndexed(
            to, index,
        ))),
        (None, Some(from)) => Second::Instruction(Instruction::Load(Load::IndexedRegister(
            index, from,
        ))),
        _ => Second::Undefined,
    }
}

fn operated(index: Index, fields: Fields) -> Second
    ensures { result ≡ of.operated index (field.operation fields.y) fields.z }
{
    match fields.z {
        6 => Second::Instruction(Instruction::Arithmetic(Arithmetic::Indexed(
            operation(fields.y),
            index,
        ))),
        _ => Second::Undefined,
    }
}

fn popped(index: Index, y: u8) -> Second
    ensures { result ≡ of.popped index y }
{
    match y {
        4 => Second::Instruction(Instruction::Exchange(Exchange::PopIndex(index))),
        5 => Second::Instruction(Instruction::Jump(Jump::Index(index))),
        7 => Second::Instruction(Instruction::Load(Load::SpIndex(index))),
        _ => Second::Undefined,
    }
}

fn others(index: Index, y: u8) -> Second
    ensures { result ≡ of.others index y }
{
    match y {
        1 => Second::BitsPrefix,
        4 => Second::Instruction(Instruction::Exchange(Exchange::StackIndex(index))),
        _ => Second::Undefined,
    }
}

fn high(index: Index, fields: Fields) -> Second
    ensures { result ≡ of.high index fields.y fields.z }
{
    match (fields.y, fields.z) {
        (_, 1) => popped(index, fields.y),
        (_, 3) => others(index, fields.y),
        (4, 5) => Second::Instruction(Instruction::Exchange(Exchange::PushIndex(index))),
        _ => Second::Undefined,
    }
}

// What a byte behind DDH or FDH is.
pub fn decode(index: Index, byte: u8) -> Second
    ensures { result ≡ of.decoded index byte }
{
    let fields = Fields::from(byte);
    match fields.x {
        0 => low(index, fields),
        1 => moved(index, fields),
        2 => operated(index, fields),
        _ => high(index, fields),
    }
}
