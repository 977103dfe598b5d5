// Why a call is denied: the causes, each with its number and the layer that denies.
#![tactic(auto)]

ghost use Rattle.denial.specs.Denials.{told};
ghost use Rattle.std.specs.Prelude.{◌≡◌};

pub mod unmade;

// A cause of denial. A denied call changes nothing.
#[derive(Clone, Copy, Debug, PartialEq, Eq)]
pub enum Denial {
    // a memory of more than 524,288 bytes
    MemoryTooLong = 1,
    // a plug entry that names a page above 127 or an address above 524,287
    EntryOutOfRange = 2,
    // a 33rd different page or address in one plug
    TooManyEntries = 3,
    // a chain table outside 2 to 4,096 records
    TableLength = 4,
    // a direct memory access above 524,287
    AddressBeyondMemory = 5,
    // a budget outside 1 to 1,000,000 states
    BudgetOutOfRange = 6,
    // a look with a base above 127 or a buffer of more than 4,096 bytes
    LookOutOfRange = 7,
    // a write, or a step, while the panel is full
    PanelFull = 8,
    // INT0 accepted in mode 0 with a byte that is none of the eight RST codes
    NoRestartByte = 9,
}

// Who denies: whoever makes a part, the memory, the card, or the panel.
#[derive(Clone, Copy, Debug, PartialEq, Eq)]
pub enum Layer {
    Making,
    Memory,
    Card,
    Panel,
}

// A denied step: why, and where PC stood.
#[derive(Clone, Copy, Debug, PartialEq, Eq)]
pub struct Fault {
    pub denial: Denial,
    pub pc: u16,
}

impl Denial {
    pub fn number(self) -> u8
        ensures { result ≡ (told self).number }
    {
        self as u8
    }

    pub fn layer(self) -> Layer
        ensures { result ≡ (told self).layer }
    {
        match self {
            Denial::MemoryTooLong
            | Denial::EntryOutOfRange
            | Denial::TooManyEntries
            | Denial::TableLength => Layer::Making,
            Denial::AddressBeyondMemory => Layer::Memory,
            Denial::BudgetOutOfRange | Denial::LookOutOfRange => Layer::Card,
            Denial::PanelFull | Denial::NoRestartByte => Layer::Panel,
        }
    }
}
