// The page behind DDH CBH d or FDH CBH d: rotates, shifts and single bits of (IX+d).
ghost use Rattle.decoder.specs.Field as field;
ghost use Rattle.decoder.specs.IndexedCb as of;
ghost use Rattle.std.specs.Prelude.{◌≡◌};

use crate::field::{Fields, rotate};
use instructions::group::bit::Bit;
use instructions::group::rotation::Rotation;
use instructions::instruction::Instruction;
use registers::operand::Index;

fn rotated(index: Index, y: u8) -> Option<Instruction>
    ensures { result ≡ of.rotated index (field.rotate y) }
{
    Some(Instruction::Rotate(Rotation::Indexed(rotate(y)?, index)))
}

fn operated(index: Index, fields: Fields) -> Option<Instruction>
    ensures { result ≡ of.operated index fields.x fields.y }
{
    match fields.x {
        0 => rotated(index, fields.y),
        1 => Some(Instruction::Bit(Bit::TestIndexed(fields.y, index))),
        2 => Some(Instruction::Bit(Bit::ResetIndexed(fields.y, index))),
        _ => Some(Instruction::Bit(Bit::SetIndexed(fields.y, index))),
    }
}

// What the opcode byte behind the displacement is; none if it is undefined.
pub fn decode(index: Index, byte: u8) -> Option<Instruction>
    ensures { result ≡ of.decoded index byte }
{
    let fields = Fields::from(byte);
    match fields.z {
        6 => operated(index, fields),
        _ => None,
    }
}
