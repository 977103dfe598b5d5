// A log that is served in pieces, against the same log served whole.
use crate::boards::{MOVES, image, over, pages_are, quiet};
use answers::answer::Answer;
use answers::call::Call;
use answers::same::same;
use card_log::pair::serve_pair;
use card_log::progress::Progress;
use card_log::serve::serve;
use opened::pages::Pages;
use registers::window::Window;
use std::alloc::Global;
use std::process::Abort;
use std::test::Fail;

// It opens on the pages 1CH to 2BH.
const FAR: Window = Window {
    cbar: 0,
    cbr: 0x1C,
    bbr: 0,
};

const LINES: [Call; 11] = [
    Call::Step,
    Call::Run(20),
    Call::Run(0),
    Call::Look(Window::RESET, 1, 3),
    Call::Step,
    Call::Step,
    Call::Look(Window::RESET, 0, 4097),
    Call::Reset,
    Call::Look(FAR, 0xF000, 2),
    Call::Run(1000),
    Call::Step,
];

// What LINES opens: by steps the first sixteen and 24H to 27H, the others by the look of line 8 alone.
const OPENED: [u8; 32] = [
    0, 1, 2, 3, 4, 5, 6, 7, 8, 9, 10, 11, 12, 13, 14, 15, 0x1C, 0x1D, 0x1E, 0x1F, 0x20, 0x21, 0x22,
    0x23, 0x24, 0x25, 0x26, 0x27, 0x28, 0x29, 0x2A, 0x2B,
];

// The answers of the pieces, one behind the other, are those of the whole.
fn same_answers(rt: &impl Abort, whole: &[Answer], piece: &[Answer], rest: &[Answer]) {
    assert_eq!(rt; whole.len(), piece.len().saturating_add(rest.len()));
    for (answer, other) in whole.iter().zip(piece.iter().chain(rest)) {
        assert!(rt; same(answer, other));
    }
}

fn same_pages(rt: &impl Abort, one: &Pages, other: &Pages) {
    for page in 0..=255u8 {
        assert_eq!(rt; one.holds(page), other.holds(page));
    }
}

#[test]
fn one_card(rt: HostRuntime) -> Result<(), Fail> {
    let (rt, heap) = (&rt, rt.alloc());
    let mut bytes = image(rt, heap, 0, &MOVES)?;
    let whole = serve(heap, &mut over(&mut bytes, quiet(heap))?, &LINES);
    assert!(rt; whole.complete);
    pages_are(rt, &whole.opened, &OPENED);
    for cut in 0..=LINES.len() {
        let (piece, rest) = LINES.split_at(cut);
        let mut bytes = image(rt, heap, 0, &MOVES)?;
        let mut card = over(&mut bytes, quiet(heap))?;
        let piece = serve(heap, &mut card, piece);
        let rest = serve(heap, &mut card, rest);
        same_answers(rt, &whole.answers, &piece.answers, &rest.answers);
        let mut progress = Progress::new();
        progress.add(piece.served, &piece.opened, None);
        assert_eq!(rt; progress.lines, cut);
        progress.add(rest.served, &rest.opened, None);
        assert_eq!(rt; progress.lines, 11);
        same_pages(rt, &progress.opened, &whole.opened);
        assert_eq!(rt; progress.difference, None);
    }
    Ok(())
}

// It differs on page 2BH, which line 8 sees, and no other does.
fn other_board(rt: &impl Abort, heap: Global) -> Result<Vec<u8>, Fail> {
    let mut bytes = image(rt, heap, 0, &MOVES)?;
    assert!(rt; bytes.len() > 0x2_B001);
    bytes[0x2_B001] = 1;
    Ok(bytes)
}

#[test]
fn two_cards(rt: HostRuntime) -> Result<(), Fail> {
    let (rt, heap) = (&rt, rt.alloc());
    for cut in 0..=LINES.len() {
        let (piece, rest) = LINES.split_at(cut);
        let mut bytes = image(rt, heap, 0, &MOVES)?;
        let mut others = other_board(rt, heap)?;
        let mut first = over(&mut bytes, quiet(heap))?;
        let mut second = over(&mut others, quiet(heap))?;
        let piece = serve_pair(heap, &mut first, &mut second, piece);
        let rest = serve_pair(heap, &mut first, &mut second, rest);
        assert!(rt; piece.complete && rest.complete);
        let mut progress = Progress::new();
        progress.add(piece.served, &piece.opened, piece.difference);
        progress.add(rest.served, &rest.opened, rest.difference);
        assert_eq!(rt; progress.lines, 11);
        pages_are(rt, &progress.opened, &OPENED);
        assert_eq!(rt; progress.difference, Some(8));
    }
    Ok(())
}

#[test]
fn the_count_stays_at_its_end(rt: HostRuntime) {
    let rt = &rt;
    let mut progress = Progress::new();
    progress.add(0xFFFF_FFFF_FFFF_FFFE, &Pages::none(), None);
    assert_eq!(rt; progress.lines, 0xFFFF_FFFF_FFFF_FFFE);
    progress.add(1, &Pages::none(), Some(0));
    assert_eq!(rt; progress.lines, 0xFFFF_FFFF_FFFF_FFFF);
    progress.add(4096, &Pages::none(), Some(7));
    assert_eq!(rt; progress.lines, 0xFFFF_FFFF_FFFF_FFFF);
    assert_eq!(rt; progress.difference, Some(0xFFFF_FFFF_FFFF_FFFE));
}
