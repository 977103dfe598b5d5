// The page behind CBH: rotates, shifts and single bits, of a register or (HL).
ghost use Rattle.decoder.specs.Cb as of;
ghost use Rattle.decoder.specs.Field as field;
ghost use Rattle.std.specs.Prelude.{MatchOption, ◌≡◌};

use crate::field::{Fields, register, rotate};
use instructions::group::bit::Bit;
use instructions::group::rotation::Rotation;
use instructions::instruction::Instruction;
use registers::operand::Register;

fn rotated(fields: Fields) -> Option<Instruction>
    ensures { result ≡ of.rotated (field.rotate fields.y) (field.register fields.z) }
{
    let kind = rotate(fields.y)?;
    Some(Instruction::Rotate(register(fields.z).map_or(
        Rotation::Memory(kind),
        |register| Rotation::Register(kind, register),
    )))
}

// A single bit, by its number, of a register or of (HL).
fn bit<R: FnOnce(u8, Register) -> Bit, M: FnOnce(u8) -> Bit>(
    fields: Fields,
    of_register: R,
    of_memory: M,
) -> Bit
    requires of_register { R.IsAlwaysCallable of_register }
    requires of_memory { M.IsAlwaysCallable of_memory }
    ensures { MatchOption (field.register fields.z) (M.post of_memory fields.y result) (λ register. R.post of_register fields.y register result) }
{
    match register(fields.z) {
        Some(register) => of_register(fields.y, register),
        None => of_memory(fields.y),
    }
}

// What a byte behind CBH is; none if it is undefined.
pub fn decode(byte: u8) -> Option<Instruction>
    ensures { result ≡ of.decoded byte }
{
    let fields = Fields::from(byte);
    match fields.x {
        0 => rotated(fields),
        1 => Some(Instruction::Bit(bit(fields, Bit::TestRegister, Bit::TestMemory))),
        2 => Some(Instruction::Bit(bit(fields, Bit::ResetRegister, Bit::ResetMemory))),
        _ => Some(Instruction::Bit(bit(fields, Bit::SetRegister, Bit::SetMemory))),
    }
}
