// Sums of addresses, which wrap at 65,536.
ghost use Rattle.registers.specs.Operands as of;
ghost use Rattle.registers.specs.Registers as sum;
ghost use Rattle.std.specs.Prelude.{◌≡◌};

use registers::operand::Direction;

// An address and a displacement, which is a signed byte.
pub fn displaced(at: u16, displacement: u8) -> u16
    ensures { result ≡ sum.displaced at displacement }
{
    let far = u16::from(displacement);
    if displacement < 128 {
        at.wrapping_add(far)
    } else {
        at.wrapping_add(far + 0xFF00)
    }
}

// One place on through memory.
pub fn along(way: Direction, at: u16) -> u16
    ensures { result ≡ of.along way at }
{
    match way {
        Direction::Up => at.wrapping_add(1),
        Direction::Down => at.wrapping_sub(1),
    }
}

// R after one more opcode byte: its low seven bits count, bit 7 stays.
pub fn counted(r: u8) -> u8
    ensures { result ≡ sum.counted r }
{
    r / 128 * 128 + r.wrapping_add(1) % 128
}
