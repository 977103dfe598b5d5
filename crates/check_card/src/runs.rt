// Runs: their budgets, and how they stop.
use crate::cards::{asking, asks_int0, denied_as, over, pc_is, quiet, ran, runs, unchanged};
use card::card::Card;
use card::ran::Stop;
use denial::{Denial, Layer};
use memory::Memory;
use panel::script::Script;
use registers::registers::Mode;
use std::process::Abort;
use std::test::Fail;

// The panel is told 3 states by a NOP; one more state would make it ask.
fn denies<M: Memory>(rt: &impl Abort, card: &mut Card<M, Script>, budget: u32) {
    let was = card.registers();
    assert_eq!(rt; card.run(budget), Err(Denial::BudgetOutOfRange));
    unchanged(rt, card, was, &[0, 0, 1, 2], false);
}

#[test]
fn budgets_out_of_range(rt: HostRuntime) -> Result<(), Fail> {
    let mut bytes = [0, 0, 1, 2];
    let mut card = over(&mut bytes, asking(rt.alloc(), 4, 0xC7))?;
    runs(&rt, &mut card, 1, ran(Stop::Spent, 1, 1, 3));
    denies(&rt, &mut card, 0);
    denies(&rt, &mut card, 1_000_001);
    denies(&rt, &mut card, 0xFFFF_FFFF);
    denied_as(&rt, Denial::BudgetOutOfRange, 6, Layer::Card);
    pc_is(&rt, &card, 1);
    runs(&rt, &mut card, 1, ran(Stop::Spent, 1, 1, 3));
    asks_int0(&rt, &card, true);
    Ok(())
}

// A NOP takes 3 states, so 333,334 of them spend a million; PC has then gone round five times.
#[test]
fn the_largest_budget(rt: HostRuntime) -> Result<(), Fail> {
    let mut bytes = vec![in rt.alloc(); 0u8; 65_536]?;
    let mut card = over(&mut bytes, quiet(rt.alloc()))?;
    runs(
        &rt,
        &mut card,
        1_000_000,
        ran(Stop::Spent, 333_334, 333_334, 1_000_002),
    );
    pc_is(&rt, &card, 5654);
    Ok(())
}

#[test]
fn a_budget_of_one_makes_one_step(rt: HostRuntime) -> Result<(), Fail> {
    // LD A,5 and NOP
    let mut bytes = [0x3E, 5, 0];
    let mut card = over(&mut bytes, quiet(rt.alloc()))?;
    runs(&rt, &mut card, 1, ran(Stop::Spent, 1, 2, 6));
    pc_is(&rt, &card, 2);
    runs(&rt, &mut card, 1, ran(Stop::Spent, 1, 1, 3));
    pc_is(&rt, &card, 3);
    Ok(())
}

// NOP is 1 cycle of 3 states, JP 3 cycles of 9: eight rounds take 96 states, NOP makes 99, and JP 108.
#[test]
fn a_budget_is_spent(rt: HostRuntime) -> Result<(), Fail> {
    let mut bytes = [0, 0xC3, 0, 0];
    let mut card = over(&mut bytes, quiet(rt.alloc()))?;
    runs(&rt, &mut card, 100, ran(Stop::Spent, 18, 36, 108));
    pc_is(&rt, &card, 0);
    // a budget that is met and not passed is spent too
    runs(&rt, &mut card, 12, ran(Stop::Spent, 2, 4, 12));
    runs(&rt, &mut card, 13, ran(Stop::Spent, 3, 5, 15));
    pc_is(&rt, &card, 1);
    Ok(())
}

#[test]
fn halted_goes_before_spent(rt: HostRuntime) -> Result<(), Fail> {
    let mut bytes = [0, 0x76];
    let mut card = over(&mut bytes, quiet(rt.alloc()))?;
    runs(&rt, &mut card, 6, ran(Stop::Halted, 2, 2, 6));
    pc_is(&rt, &card, 2);
    // a card that is halted makes one idle step
    runs(&rt, &mut card, 1_000_000, ran(Stop::Halted, 1, 1, 3));
    runs(&rt, &mut card, 1, ran(Stop::Halted, 1, 1, 3));
    pc_is(&rt, &card, 2);
    Ok(())
}

// SLP takes 3 cycles of 8 states together; asleep counts as halted, also where the budget is met.
#[test]
fn asleep_counts_as_halted(rt: HostRuntime) -> Result<(), Fail> {
    let mut bytes = [0xED, 0x76];
    let mut card = over(&mut bytes, quiet(rt.alloc()))?;
    runs(&rt, &mut card, 8, ran(Stop::Halted, 1, 3, 8));
    let (cpu, _) = card.registers();
    assert_eq!(rt; cpu.mode, Mode::Asleep);
    // a card that is asleep makes one idle step
    runs(&rt, &mut card, 1_000_000, ran(Stop::Halted, 1, 1, 3));
    pc_is(&rt, &card, 2);
    Ok(())
}
