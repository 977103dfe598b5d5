// What a run of bytes begins with: an instruction, a prefix with an undefined byte behind it, or the start of one.
#![tactic(auto)]

ghost use Rattle.beginning.specs.Beginning as of;
ghost use Rattle.std.specs.Prelude.{◌≡◌};

use decoder::page::{First, Page, Second};
use decoder::{cb_page, ed_page, indexed_cb_page, indexed_page, main_page};
use instructions::instruction::Instruction;
use registers::operand::Index;

// No Result of an instruction: an undefined byte is an answer too, with a length as an instruction has one. Nor an Option of the other
// three: that bytes end too early says something of them, and an instruction may still begin so.
#[derive(Clone, Copy)]
pub enum Beginning {
    Instruction(Instruction),
    // a prefix and an undefined opcode byte
    UndefinedSecond,
    // DDH or FDH, CBH, a displacement and an undefined opcode byte
    UndefinedThird,
    // the bytes end before the instruction does
    CutEnd,
}

fn whole(bytes: &[u8], instruction: Instruction) -> Beginning
    ensures { result ≡ of.whole bytes.now instruction }
{
    if instruction.length() <= bytes.len() {
        Beginning::Instruction(instruction)
    } else {
        Beginning::CutEnd
    }
}

fn whole_or(undefined: Beginning, bytes: &[u8], instruction: Option<Instruction>) -> Beginning
    ensures { result ≡ of.whole_or undefined bytes.now instruction }
{
    instruction.map_or(undefined, |instruction| whole(bytes, instruction))
}

fn displaced(index: Index, bytes: &[u8]) -> Beginning
    ensures { result ≡ of.displaced index bytes.now }
{
    match bytes.get(3) {
        Some(byte) => whole_or(
            Beginning::UndefinedThird,
            bytes,
            indexed_cb_page::decode(index, *byte),
        ),
        None => Beginning::CutEnd,
    }
}

fn behind_index(index: Index, bytes: &[u8], second: Second) -> Beginning
    ensures { result ≡ of.behind_index index bytes.now second }
{
    match second {
        Second::Instruction(instruction) => whole(bytes, instruction),
        Second::BitsPrefix => displaced(index, bytes),
        Second::Undefined => Beginning::UndefinedSecond,
    }
}

fn behind(page: Page, bytes: &[u8], byte: u8) -> Beginning
    ensures { result ≡ of.behind page bytes.now byte }
{
    match page {
        Page::Bits => whole_or(Beginning::UndefinedSecond, bytes, cb_page::decode(byte)),
        Page::Extended => whole_or(Beginning::UndefinedSecond, bytes, ed_page::decode(byte)),
        Page::Indexed(index) => behind_index(index, bytes, indexed_page::decode(index, byte)),
    }
}

fn from_first(bytes: &[u8], first: First) -> Beginning
    ensures { result ≡ of.from_first bytes.now first }
{
    match first {
        First::Instruction(instruction) => whole(bytes, instruction),
        First::Prefix(page) => match bytes.get(1) {
            Some(byte) => behind(page, bytes, *byte),
            None => Beginning::CutEnd,
        },
    }
}

impl Beginning {
    // What the bytes begin with.
    pub fn of(bytes: &[u8]) -> Beginning
        ensures { result ≡ of.beginning bytes.now }
    {
        match bytes.first() {
            Some(byte) => from_first(bytes, main_page::decode(*byte)),
            None => Beginning::CutEnd,
        }
    }

    // How many bytes it has; none for a cut end.
    pub fn length(self) -> Option<usize>
        ensures { result ≡ of.bytes_of self }
    {
        match self {
            Beginning::Instruction(instruction) => Some(instruction.length()),
            Beginning::UndefinedSecond => Some(2),
            Beginning::UndefinedThird => Some(4),
            Beginning::CutEnd => None,
        }
    }
}
