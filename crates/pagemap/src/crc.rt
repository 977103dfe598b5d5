// CRC-32 (IEEE), bit by bit.
ghost use Rattle.pagemap.specs.Crc.{CheckValue, crc_32, crc_begun, crc_bit, crc_byte, crc_ended};
ghost use Rattle.std.specs.Prelude.{◌≡◌};

fn after_bit(crc: u32) -> u32
    ensures { result ≡ crc_bit crc }
{
    if crc % 2 == 1 {
        crc / 2 ^ 0xEDB8_8320
    } else {
        crc / 2
    }
}

fn after_byte(crc: u32, byte: u8) -> u32
    ensures { result ≡ crc_byte crc byte }
{
    let mut after = crc ^ u32::from(byte);
    for _bit in 0..8u8 {
        after = after_bit(after);
    }
    after
}

// The CRC of bytes that come one at a time, as it stands after those so far.
#[derive(Clone, Copy, Debug)]
pub struct Checksum(u32);

impl Checksum {
    // Of no bytes yet.
    pub fn new() -> Checksum
        ensures { result.0 ≡ crc_begun }
    {
        Checksum(0xFFFF_FFFF)
    }

    // With one byte more.
    pub fn with(self, byte: u8) -> Checksum
        ensures { result.0 ≡ crc_byte self.0 byte }
    {
        Checksum(after_byte(self.0, byte))
    }

    // Of all of them.
    pub fn value(self) -> u32
        ensures { result ≡ crc_ended self.0 }
    {
        self.0 ^ 0xFFFF_FFFF
    }
}

pub fn crc32(bytes: &[u8]) -> u32
    ensures { result ≡ crc_32 bytes.now }
{
    let mut sum = Checksum::new();
    for byte in bytes {
        sum = sum.with(*byte);
    }
    sum.value()
}

// Names the published check value, so that it is proved of the definition; it does nothing.
pub fn check_value()
    ensures { CheckValue }
{}
