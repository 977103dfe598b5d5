// Sums and differences of numbers below M, which is 256 for bytes and 65,536 for words, with the flags alike at each width:
// S, Z, P/V, N and C. H is left to the caller.
ghost use Rattle.arithmetic.specs.Add as of;
ghost use Rattle.std.specs.Prelude.{◌≡◌, ◌<◌, ◌≤◌};

use crate::flags::Flags;

// a + b, and one more with a carry.
pub(crate) fn sum<const M: u32>(a: u32, b: u32, carry: bool, flags: Flags) -> (u32, Flags)
    requires width { M ≤ 65536 }
    requires first { a < M }
    requires second { b < M }
    ensures value { result.0 ≡ of.sum M a b carry }
    ensures flags { result.1 ≡ of.sum_flags M a b carry result.0 flags }
    ensures bound { result.0 < M }
{
    let total = a + b + u32::from(carry);
    let value = total % M;
    let flags = Flags {
        s: value >= M / 2,
        z: value == 0,
        pv: ((a >= M / 2) == (b >= M / 2)) & ((a >= M / 2) != (value >= M / 2)),
        n: false,
        c: total >= M,
        ..flags
    };
    (value, flags)
}

// a - b, and one less with a borrow. Apart from the sum, since value, P/V, N and C each come about another way: one of both would ask
// four times which it is.
pub(crate) fn difference<const M: u32>(a: u32, b: u32, borrow: bool, flags: Flags) -> (u32, Flags)
    requires width { M ≤ 65536 }
    requires first { a < M }
    requires second { b < M }
    ensures value { result.0 ≡ of.difference M a b borrow }
    ensures flags { result.1 ≡ of.difference_flags M a b borrow result.0 flags }
    ensures bound { result.0 < M }
{
    let taken = b + u32::from(borrow);
    let value = (a + M - taken) % M;
    let flags = Flags {
        s: value >= M / 2,
        z: value == 0,
        pv: ((a >= M / 2) != (b >= M / 2)) & ((a >= M / 2) != (value >= M / 2)),
        n: true,
        c: a < taken,
        ..flags
    };
    (value, flags)
}
