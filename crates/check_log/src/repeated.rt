// A call that is made many times, in pieces of at most 4,096.
use crate::boards::{AFTER_RESET, over, pages_are, quiet};
use answers::call::Call;
use card_log::progress::Progress;
use log_listing::listed::list;
use log_listing::pieces::Pieces;
use std::alloc::Global;
use std::process::Abort;
use std::test::Fail;

// How long the pieces are, and that none is left behind them.
fn are_of(rt: &impl Abort, heap: Global, times: u32, lengths: &[usize]) -> Result<(), Fail> {
    let mut pieces = Pieces::new(Call::Run(77), times);
    for length in lengths {
        assert!(rt; !pieces.is_empty());
        let calls = pieces.next(heap)?;
        assert_eq!(rt; calls.len(), *length);
        for call in &calls {
            assert!(rt; matches!(call, Call::Run(77)));
        }
    }
    assert!(rt; pieces.is_empty());
    assert_eq!(rt; pieces.next(heap)?.len(), 0);
    Ok(())
}

#[test]
fn how_long_the_pieces_are(rt: HostRuntime) -> Result<(), Fail> {
    let (rt, heap) = (&rt, rt.alloc());
    are_of(rt, heap, 0, &[])?;
    are_of(rt, heap, 1, &[1])?;
    are_of(rt, heap, 4096, &[4096])?;
    are_of(rt, heap, 4097, &[4096, 1])?;
    are_of(rt, heap, 10_000, &[4096, 4096, 1808])
}

// Ten thousand times NOP, which is one cycle and three states.
#[test]
fn ten_thousand_steps(rt: HostRuntime) -> Result<(), Fail> {
    let (rt, heap) = (&rt, rt.alloc());
    let mut bytes = vec![in heap; 0u8; 65_536]?;
    let mut card = over(&mut bytes, quiet(heap))?;
    let mut progress = Progress::new();
    let mut pieces = Pieces::new(Call::Step, 10_000);
    let mut text = String::new(heap);
    for _piece in 0..3 {
        let calls = pieces.next(heap)?;
        list(heap, &mut card, &calls, &mut progress, &mut text)?;
    }
    assert!(rt; pieces.is_empty());
    assert_eq!(rt; progress.lines, 10_000);
    pages_are(rt, &progress.opened, &AFTER_RESET);
    for line in text.as_str().lines() {
        assert_eq!(rt; line, "step cycles=1 states=3");
    }
    assert_eq!(rt; text.as_str().lines().count(), 10_000);
    let (cpu, _) = card.registers();
    assert_eq!(rt; cpu.pc, 10_000);
    Ok(())
}
