// A byte that was written to a port.
#[derive(Clone, Copy, Debug, PartialEq, Eq)]
pub struct Sent {
    pub port: u16,
    pub byte: u8,
}
