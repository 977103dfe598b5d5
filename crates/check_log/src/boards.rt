// Cards to test with, and what is asked of the pages that were opened.
use card::card::Card;
use memory::bank::Bank;
use memory::length::BoardLength;
use opened::pages::Pages;
use panel::Panel;
use panel::chain::Chain;
use panel::record::Record;
use panel::script::Script;
use std::alloc::Global;
use std::process::Abort;
use std::test::Fail;

// LD A,84H; OUT0 (3AH),A: the bank area is of the pages 4 to 7. LD A,20H; OUT0 (39H),A: it shows those from 24H on. HALT.
pub(crate) const MOVES: [u8; 11] = [
    0x3E, 0x84, 0xED, 0x39, 0x3A, 0x3E, 0x20, 0xED, 0x39, 0x39, 0x76,
];

// The states of all that stands before its HALT, 6, 13, 6 and 13.
pub(crate) const MOVED: u32 = 38;

pub(crate) const AFTER_RESET: [u8; 16] = [0, 1, 2, 3, 4, 5, 6, 7, 8, 9, 10, 11, 12, 13, 14, 15];

// What MOVES comes to show.
pub(crate) const SHOWN_THEN: [u8; 16] = [
    0, 1, 2, 3, 0x24, 0x25, 0x26, 0x27, 8, 9, 10, 11, 12, 13, 14, 15,
];

// 192 KiB of zeros, but for these bytes from an address on. Two handles, here and below, since one that ends the process gives no
// memory.
pub(crate) fn image(
    rt: &impl Abort,
    heap: Global,
    address: usize,
    bytes: &[u8],
) -> Result<Vec<u8>, Fail> {
    let mut image = vec![in heap; 0u8; 196_608]?;
    for (at, byte) in (address..196_608).zip(bytes) {
        assert!(rt; at < image.len());
        image[at] = *byte;
    }
    Ok(image)
}

// A script panel that in these tests asks for nothing.
pub(crate) fn quiet(heap: Global) -> Script {
    Script::new(Vec::new(heap), 0xFFFF_FFFF, 0xFF)
}

// A chain panel with one record that can be used.
pub(crate) fn one_record(heap: Global) -> Result<Chain, Fail> {
    let table = vec![in heap; Record::default(); 2]?;
    Ok(Chain::new(table)?)
}

pub(crate) fn over<P: Panel + Drop>(bytes: &mut [u8], panel: P) -> Result<Card<Bank<'_>, P>, Fail> {
    let size = BoardLength::of_bank(bytes)?;
    Ok(Card::new(Bank::new(bytes, size), panel))
}

// These pages and no others.
pub(crate) fn pages_are(rt: &impl Abort, pages: &Pages, expected: &[u8]) {
    for page in 0..=255u8 {
        assert_eq!(rt; pages.holds(page), expected.contains(&page));
    }
}
