// Two boards that differ outside the pages that are opened, or on one of them.
use crate::boards::{MOVES, image, quiet};
use answers::call::Call;
use card_log::pair::replay_pair;
use memory::bank::Bank;
use memory::length::BoardLength;
use registers::window::Window;
use std::alloc::Global;
use std::process::Abort;
use std::test::Fail;

const MOVED: Window = Window {
    cbar: 0x84,
    cbr: 0,
    bbr: 0x20,
};

// They open the first sixteen pages and 24H to 27H.
const CALLS: [Call; 4] = [
    Call::Run(1000),
    Call::Step,
    Call::Look(Window::RESET, 0xFFFF, 1),
    Call::Look(MOVED, 0x7FFF, 1),
];

fn opened(page: usize) -> bool {
    page < 16 || (0x24..0x28).contains(&page)
}

fn difference(
    rt: &impl Abort,
    heap: Global,
    bytes: &mut [u8],
    others: &mut [u8],
) -> Result<Option<usize>, Fail> {
    let size = BoardLength::of_bank(bytes)?;
    let first = Bank::new(bytes, size);
    let size = BoardLength::of_bank(others)?;
    let second = Bank::new(others, size);
    let pair = replay_pair(heap, first, second, quiet(heap), quiet(heap), &CALLS);
    assert!(rt; pair.log.complete);
    assert_eq!(rt; pair.log.answers.len(), 4);
    assert_eq!(rt; pair.log.others.len(), 4);
    for page in 0..=255u8 {
        assert_eq!(rt; pair.log.opened.holds(page), opened(usize::from(page)));
    }
    Ok(pair.log.difference)
}

// Every byte of the other pages is another.
#[test]
fn outside_the_pages_opened(rt: HostRuntime) -> Result<(), Fail> {
    let (rt, heap) = (&rt, rt.alloc());
    let mut bytes = image(rt, heap, 0, &MOVES)?;
    let mut others = image(rt, heap, 0, &MOVES)?;
    for (at, byte) in others.iter_mut().enumerate() {
        if !opened(at / 4096) {
            *byte = 0xFF;
        }
    }
    assert_eq!(rt; difference(rt, heap, &mut bytes, &mut others)?, None);
    Ok(())
}

fn differing_at(
    rt: &impl Abort,
    heap: Global,
    address: usize,
    line: Option<usize>,
) -> Result<(), Fail> {
    let mut bytes = image(rt, heap, 0, &MOVES)?;
    let mut others = image(rt, heap, 0, &MOVES)?;
    assert!(rt; address < others.len());
    others[address] = 0x5A;
    assert_eq!(rt; difference(rt, heap, &mut bytes, &mut others)?, line);
    Ok(())
}

#[test]
fn in_one_byte(rt: HostRuntime) -> Result<(), Fail> {
    let (rt, heap) = (&rt, rt.alloc());
    // LD E,D in place of HALT
    differing_at(rt, heap, 10, Some(0))?;
    differing_at(rt, heap, 0xFFFF, Some(2))?;
    differing_at(rt, heap, 0x1_0000, None)?;
    differing_at(rt, heap, 0x2_3FFF, None)?;
    differing_at(rt, heap, 0x2_7FFE, None)?;
    differing_at(rt, heap, 0x2_7FFF, Some(3))?;
    differing_at(rt, heap, 0x2_8000, None)
}
