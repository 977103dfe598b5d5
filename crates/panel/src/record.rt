// A record of the chain panel's table: a byte written to a port, and the number of the next record of its chain.
#[derive(Clone, Copy, Debug, Default, PartialEq, Eq)]
pub struct Record {
    pub port: u16,
    pub byte: u8,
    // 0 ends the chain: it is no Option, since a table is handed over and printed in this form
    pub next: u16,
}
