// Cards to test with, and what is asked of them more than once.
use card::card::Card;
use card::ran::{Ran, Stop};
use denial::{Denial, Layer};
use memory::Memory;
use memory::bank::Bank;
use memory::length::BoardLength;
use panel::Panel;
use panel::chain::Chain;
use panel::line::Line;
use panel::record::Record;
use panel::script::Script;
use registers::registers::Registers;
use registers::window::Window;
use std::alloc::Global;
use std::process::Abort;
use std::test::Fail;

// A script panel that asks for INT0 with a byte once it is told this many states.
pub(crate) fn asking(heap: Global, threshold: u32, byte: u8) -> Script {
    Script::new(Vec::new(heap), threshold, byte)
}

// One that in these tests is never told enough.
pub(crate) fn quiet(heap: Global) -> Script {
    asking(heap, 0xFFFF_FFFF, 0xC7)
}

// A chain panel with room for so many writes.
pub(crate) fn with_room_for(heap: Global, writes: u16) -> Result<Chain, Fail> {
    let table = vec![in heap; Record::default(); usize::from(writes) + 1]?;
    Ok(Chain::new(table)?)
}

// A card over a bank of these bytes.
pub(crate) fn over<P: Panel + Drop>(bytes: &mut [u8], panel: P) -> Result<Card<Bank<'_>, P>, Fail> {
    let size = BoardLength::of_bank(bytes)?;
    Ok(Card::new(Bank::new(bytes, size), panel))
}

// The bytes of memory from address 0 on.
pub(crate) fn holds<M: Memory, P>(rt: &impl Abort, card: &Card<M, P>, bytes: &[u8]) {
    for (at, byte) in bytes.iter().enumerate() {
        let at = u32::try_from(at).expect(rt, "an address has 32 bits");
        assert_eq!(rt; card.read(at), Ok(*byte));
    }
}

// Every register is as it was.
pub(crate) fn registers_are<M: Memory, P>(
    rt: &impl Abort,
    card: &Card<M, P>,
    was: (Registers, Window),
) {
    assert_eq!(rt; card.registers(), was);
}

pub(crate) fn pc_is<M: Memory, P>(rt: &impl Abort, card: &Card<M, P>, pc: u16) {
    let (cpu, _) = card.registers();
    assert_eq!(rt; cpu.pc, pc);
}

// What a run answers.
pub(crate) fn ran(stop: Stop, steps: u32, cycles: u64, states: u64) -> Ran {
    Ran {
        stop,
        steps,
        cycles,
        states,
    }
}

pub(crate) fn runs<M: Memory, P: Panel>(
    rt: &impl Abort,
    card: &mut Card<M, P>,
    budget: u32,
    expected: Ran,
) {
    assert_eq!(rt; card.run(budget), Ok(expected));
}

pub(crate) fn denied_as(rt: &impl Abort, denial: Denial, number: u8, layer: Layer) {
    assert_eq!(rt; denial.number(), number);
    assert_eq!(rt; denial.layer(), layer);
}

pub(crate) fn asks_int0<M: Memory>(rt: &impl Abort, card: &Card<M, Script>, asked: bool) {
    assert_eq!(rt; card.panel().asks(Line::Int0), asked);
}

// A call that was denied changed nothing: neither registers nor memory, which begins with these bytes, nor the panel.
pub(crate) fn unchanged<M: Memory>(
    rt: &impl Abort,
    card: &Card<M, Script>,
    was: (Registers, Window),
    bytes: &[u8],
    asked: bool,
) {
    registers_are(rt, card, was);
    holds(rt, card, bytes);
    assert_eq!(rt; card.panel().last_write(), None);
    asks_int0(rt, card, asked);
}
