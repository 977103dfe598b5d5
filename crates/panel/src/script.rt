// The script panel: it answers reads from a list, keeps the last write, and asks for INT0 once, after so many states.
ghost use Rattle.panel.specs.Script.{new_script, script_state};
ghost use Rattle.std.specs.Prelude.{◌≡◌, length};

use crate::sent::Sent;

pub mod panel;

#[derive(Drop)]
pub struct Script {
    bytes: Vec<u8>,
    // how many of the bytes have been read; an iterator over the Vec would hold no more, and hide the list
    place: usize,
    last_write: Option<Sent>,
    told: u32,
    threshold: u32,
    acknowledged: bool,
    int0_byte: u8,
}

impl Script {
    // A panel that answers reads with these bytes, then FFH, and asks for INT0 with this byte once it is told as many
    // states as the threshold says.
    pub fn new(bytes: Vec<u8>, threshold: u32, int0_byte: u8) -> Script
        ensures { script_state result ≡ new_script bytes.items threshold int0_byte }
    {
        Script {
            bytes,
            place: 0,
            last_write: None,
            told: 0,
            threshold,
            acknowledged: false,
            int0_byte,
        }
    }

    // The last write with its port, if there was one.
    pub fn last_write(&self) -> Option<Sent>
        ensures { result ≡ (script_state self.now).last_write }
    {
        self.last_write
    }

    // How many of the list's bytes have been read so far.
    pub fn place(&self) -> usize
        ensures { result ≡ (script_state self.now).place }
    {
        self.place
    }

    // How many bytes the list has.
    pub fn length(&self) -> usize
        ensures { result ≡ length (script_state self.now).bytes }
    {
        self.bytes.len()
    }

    // How many states it has been told, at most 4,294,967,295.
    pub fn told(&self) -> u32
        ensures { result ≡ (script_state self.now).told }
    {
        self.told
    }

    // Whether INT0 has been acknowledged.
    pub fn acknowledged(&self) -> bool
        ensures { result ≡ (script_state self.now).acknowledged }
    {
        self.acknowledged
    }
}
