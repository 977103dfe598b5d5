// What an operation is tried on: its operands, which are a byte, two bytes or two words, and F.
use arithmetic::flags::Flags;

pub trait Case: Sized {
    const COUNT: u32;

    // The cases in their order. F changes last, and the second operand first.
    fn nth(n: u32) -> (Self, Flags);
}

// Every F and every byte.
impl Case for u8 {
    const COUNT: u32 = 0x1_0000;

    fn nth(n: u32) -> (u8, Flags) {
        let [_, _, f, value] = n.to_be_bytes();
        (value, Flags::from(f))
    }
}

// Every F and every two bytes.
impl Case for (u8, u8) {
    const COUNT: u32 = 0x100_0000;

    fn nth(n: u32) -> ((u8, u8), Flags) {
        let [_, f, a, b] = n.to_be_bytes();
        ((a, b), Flags::from(f))
    }
}

// Six values of F, three of them with C, and 512 words each way.
impl Case for (u16, u16) {
    const COUNT: u32 = 6 * 512 * 512;

    fn nth(n: u32) -> ((u16, u16), Flags) {
        let f = n / (512 * 512) % 6 * 51;
        ((word(n / 512), word(n)), Flags::from(f as u8))
    }
}

fn word(n: u32) -> u16 {
    ((n % 512) as u16).wrapping_mul(521)
}
