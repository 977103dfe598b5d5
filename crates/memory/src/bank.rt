// A bank: a lent run of bytes from address 0, which all take writes. Behind it addresses hold FFH and take no writes. The struct
// stands alone, so that definitions can cite it; its calls are in the module below.
ghost use Rattle.std.specs.Prelude.{◌≤◌, length as length_of};

mod calls;

#[derive(Drop)]
pub struct Bank<'a> {
    bytes: &'a mut [u8],
    // beside the bytes, since the bank may end before they do, and all of them go back to the lender
    length: usize,
    // so that an access tests one bound
    ghost lent: { length ≤ length_of bytes.now },
}
