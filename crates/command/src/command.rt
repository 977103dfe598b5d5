// A command of a script, with raw values, so that one that the card denies can stand in a script too.
use plugs::entry::{Page, PatchEntry};
use registers::window::Window;

#[derive(Debug, Drop)]
pub enum Command {
    // the memory below the plugs: its length, ROM before RAM
    Rom(u32),
    Ram(u32),
    // what memory holds: from an address, these bytes, one byte many times, or a file's
    Bytes(u32, Vec<u8>),
    Fill {
        at: u32,
        length: u32,
        byte: u8,
    },
    Image(u32, String),
    Protect(Vec<Page>),
    Patch(Vec<PatchEntry>),
    // the panel: a chain panel by its records, or a script panel
    Chain(u32),
    Script {
        int0_byte: u8,
        threshold: u32,
        reads: Vec<u8>,
    },
    Key(u8),
    Latch,
    Second,
    Make,
    // how many times
    Step(u32),
    Run {
        budget: u32,
        times: u32,
    },
    Reset,
    Look {
        window: Window,
        at: u16,
        length: u32,
    },
    Show,
}
