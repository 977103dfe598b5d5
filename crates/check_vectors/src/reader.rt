// Reads a line of a vector from left to right. Each read answers nothing where the line is not as it should be.
use text::hex;

#[derive(Drop)]
pub struct Reader<'a> {
    rest: &'a [u8],
}

impl<'a> Reader<'a> {
    pub fn new(line: &'a [u8]) -> Reader<'a> {
        Reader { rest: line }
    }

    fn next(&mut self) -> Option<u8> {
        let (character, rest) = self.rest.split_first()?;
        self.rest = rest;
        Some(*character)
    }

    pub fn space(&mut self) -> Option<()> {
        (self.next()? == b' ').then_some(())
    }

    // One hexadecimal digit.
    pub fn digit(&mut self) -> Option<u8> {
        hex::byte(&[self.next()?])
    }

    // Two digits.
    pub fn byte(&mut self) -> Option<u8> {
        let high = self.next()?;
        let low = self.next()?;
        hex::byte(&[high, low])
    }

    // A digit that is 0 or 1.
    pub fn flag(&mut self) -> Option<bool> {
        match self.digit()? {
            0 => Some(false),
            1 => Some(true),
            _ => None,
        }
    }

    // A space and two bytes.
    pub fn pair(&mut self) -> Option<(u8, u8)> {
        self.space()?;
        let first = self.byte()?;
        let second = self.byte()?;
        Some((first, second))
    }

    // A space and four digits.
    pub fn word(&mut self) -> Option<u16> {
        let (high, low) = self.pair()?;
        Some(u16::from_be_bytes([high, low]))
    }

    // A space and two digits.
    pub fn number(&mut self) -> Option<u8> {
        self.space()?;
        self.byte()
    }

    // Nothing more.
    pub fn end(&self) -> Option<()> {
        self.rest.is_empty().then_some(())
    }
}
