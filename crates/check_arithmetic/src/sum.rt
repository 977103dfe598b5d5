// A checksum over bytes, and what goes into it: an answer, and the flags that are left.
use crate::case::Case;
use arithmetic::flags::Flags;

#[derive(Clone, Copy)]
pub struct Sum {
    value: u32,
}

impl Sum {
    // Each program stands alone, as its C counterpart in bench/ does: the same step stands in busy/src/sum.rt.
    fn with(self, byte: u8) -> Sum {
        let mixed = self.value.rotate_left(5) ^ u32::from(byte);
        Sum {
            value: mixed.wrapping_mul(0x9E37_79B1),
        }
    }
}

// What an operation answers beside its flags, byte by byte.
pub trait Answer {
    fn add_to(self, sum: Sum) -> Sum;
}

impl Answer for u8 {
    fn add_to(self, sum: Sum) -> Sum {
        sum.with(self)
    }
}

impl Answer for (u8, u8) {
    fn add_to(self, sum: Sum) -> Sum {
        sum.with(self.0).with(self.1)
    }
}

// The high byte first.
impl Answer for u16 {
    fn add_to(self, sum: Sum) -> Sum {
        let [high, low] = self.to_be_bytes();
        (high, low).add_to(sum)
    }
}

// The checksum of an operation over its cases; of its flags it has those that the mask names.
pub fn checksum<C: Case, A: Answer, F: Fn(C, Flags) -> (A, Flags)>(operation: F, mask: u8) -> u32
    requires { F.IsAlwaysCallable operation }
{
    let mut sum = Sum { value: 0 };
    for n in 0..C::COUNT {
        let (operands, flags) = C::nth(n);
        let (answer, new) = operation(operands, flags);
        sum = answer.add_to(sum).with(u8::from(new) & mask);
    }
    sum.value
}
