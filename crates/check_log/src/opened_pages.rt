// Which pages one card opens.
use crate::boards::{
    AFTER_RESET, MOVED, MOVES, SHOWN_THEN, image, one_record, over, pages_are, quiet,
};
use answers::call::Call;
use card::card::Card;
use card_log::serve::serve;
use memory::Memory;
use panel::Panel;
use registers::window::Window;
use std::alloc::Global;
use std::process::Abort;
use std::test::Fail;

// A log of one line opens these pages.
fn opens<M: Memory, P: Panel>(
    rt: &impl Abort,
    heap: Global,
    card: &mut Card<M, P>,
    call: Call,
    expected: &[u8],
) {
    let served = serve(heap, card, &[call]);
    assert!(rt; served.complete);
    pages_are(rt, &served.opened, expected);
}

#[test]
fn by_a_step_those_mapped_as_it_begins(rt: HostRuntime) -> Result<(), Fail> {
    let (rt, heap) = (&rt, rt.alloc());
    let mut bytes = image(rt, heap, 0, &MOVES)?;
    let mut card = over(&mut bytes, quiet(heap))?;
    opens(rt, heap, &mut card, Call::Step, &AFTER_RESET);
    opens(rt, heap, &mut card, Call::Step, &AFTER_RESET);
    opens(rt, heap, &mut card, Call::Step, &AFTER_RESET);
    // this one moves the window
    opens(rt, heap, &mut card, Call::Step, &AFTER_RESET);
    opens(rt, heap, &mut card, Call::Step, &SHOWN_THEN);
    // the card is halted
    opens(rt, heap, &mut card, Call::Step, &SHOWN_THEN);
    opens(rt, heap, &mut card, Call::Run(1000), &SHOWN_THEN);
    Ok(())
}

#[test]
fn by_a_run_that_moves_the_window(rt: HostRuntime) -> Result<(), Fail> {
    let (rt, heap) = (&rt, rt.alloc());
    let both = [
        0, 1, 2, 3, 4, 5, 6, 7, 8, 9, 10, 11, 12, 13, 14, 15, 0x24, 0x25, 0x26, 0x27,
    ];
    let mut bytes = image(rt, heap, 0, &MOVES)?;
    let mut card = over(&mut bytes, quiet(heap))?;
    opens(rt, heap, &mut card, Call::Run(1000), &both);
    // no step begins with the window that the last one sets
    let mut bytes = image(rt, heap, 0, &MOVES)?;
    let mut card = over(&mut bytes, quiet(heap))?;
    opens(rt, heap, &mut card, Call::Run(MOVED), &AFTER_RESET);
    opens(rt, heap, &mut card, Call::Run(1), &SHOWN_THEN);
    Ok(())
}

#[test]
fn by_denied_calls_none(rt: HostRuntime) -> Result<(), Fail> {
    let (rt, heap) = (&rt, rt.alloc());
    // two times OUT (80H),A; the panel takes one
    let mut bytes = [0xD3, 0x80, 0xD3, 0x80];
    let mut card = over(&mut bytes, one_record(heap)?)?;
    opens(rt, heap, &mut card, Call::Run(0), &[]);
    opens(rt, heap, &mut card, Call::Run(1_000_001), &[]);
    opens(rt, heap, &mut card, Call::Step, &AFTER_RESET);
    opens(rt, heap, &mut card, Call::Step, &[]);
    opens(rt, heap, &mut card, Call::Run(1000), &[]);
    opens(rt, heap, &mut card, Call::Reset, &[]);
    Ok(())
}

// A run whose last step is denied has opened what the others did.
#[test]
fn by_a_run_that_is_stopped_those_of_its_steps(rt: HostRuntime) -> Result<(), Fail> {
    let (rt, heap) = (&rt, rt.alloc());
    // OUT (80H),A; LD A,84H; OUT0 (3AH),A; LD A,20H; OUT0 (39H),A; OUT (80H),A, which the panel denies
    let mut bytes = [
        0xD3, 0x80, 0x3E, 0x84, 0xED, 0x39, 0x3A, 0x3E, 0x20, 0xED, 0x39, 0x39, 0xD3, 0x80,
    ];
    let mut card = over(&mut bytes, one_record(heap)?)?;
    opens(rt, heap, &mut card, Call::Run(1000), &AFTER_RESET);
    opens(rt, heap, &mut card, Call::Step, &[]);
    Ok(())
}

const WORKED: Window = Window {
    cbar: 0x84,
    cbr: 0x7C,
    bbr: 0x20,
};

// The common area 1 begins at page 7CH + 8, which is 4 of the 128.
const SHOWN_BY_IT: [u8; 16] = [0, 1, 2, 3, 4, 5, 6, 7, 8, 9, 10, 11, 0x24, 0x25, 0x26, 0x27];

const CBR_OUT_OF_RANGE: Window = Window {
    cbr: 0x80,
    ..WORKED
};

const BBR_OUT_OF_RANGE: Window = Window {
    bbr: 0x80,
    ..WORKED
};

#[test]
fn by_a_look_those_of_its_window(rt: HostRuntime) -> Result<(), Fail> {
    let (rt, heap) = (&rt, rt.alloc());
    let mut bytes = [0];
    let mut card = over(&mut bytes, quiet(heap))?;
    let most = Call::Look(WORKED, 0xFFFF, 4096);
    opens(rt, heap, &mut card, most, &SHOWN_BY_IT);
    // of a look of no bytes too
    opens(rt, heap, &mut card, Call::Look(WORKED, 0, 0), &SHOWN_BY_IT);
    opens(rt, heap, &mut card, Call::Look(WORKED, 0, 4097), &[]);
    opens(rt, heap, &mut card, Call::Look(CBR_OUT_OF_RANGE, 0, 1), &[]);
    opens(rt, heap, &mut card, Call::Look(BBR_OUT_OF_RANGE, 0, 0), &[]);
    // the card's own window stands as before
    opens(rt, heap, &mut card, Call::Step, &AFTER_RESET);
    Ok(())
}
