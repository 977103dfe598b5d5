// A cell of memory that a vector speaks of.
use crate::reader::Reader;

#[derive(Clone, Copy)]
pub struct Cell {
    // physical
    pub at: u32,
    pub before: u8,
    pub after: u8,
}

impl Cell {
    // A space, five digits of the address, and the two bytes.
    pub fn read(reader: &mut Reader<'_>) -> Option<Cell> {
        reader.space()?;
        let high = reader.digit()?;
        let middle = reader.byte()?;
        let low = reader.byte()?;
        let before = reader.byte()?;
        let after = reader.byte()?;
        Some(Cell {
            at: u32::from_be_bytes([0, high, middle, low]),
            before,
            after,
        })
    }
}
