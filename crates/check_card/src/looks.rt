// Looks: their lengths, bases and windows, and that the card is as it was.
use crate::cards::{denied_as, over, pc_is, quiet, registers_are, unchanged};
use card::card::Card;
use card::look_window::LookWindow;
use denial::{Denial, Layer};
use memory::Memory;
use panel::Panel;
use panel::script::Script;
use registers::window::Window;
use std::alloc::Global;
use std::process::Abort;
use std::test::Fail;

// 80 KiB of zeros but for some bytes, each at its address. Two handles, since one that ends the process gives no memory.
fn image(rt: &impl Abort, heap: Global, marks: &[(usize, u8)]) -> Result<Vec<u8>, Fail> {
    let mut bytes = vec![in heap; 0u8; 81_920]?;
    for (at, byte) in marks {
        assert!(rt; *at < bytes.len());
        bytes[*at] = *byte;
    }
    Ok(bytes)
}

const MARKS: [(usize, u8); 6] = [
    (0, 0x10),
    (1, 0x11),
    (0x1000, 0x20),
    (0xFFFE, 0x30),
    (0xFFFF, 0x31),
    (0x1_0000, 0x40),
];

// All of the logical space, shifted up by this many pages.
fn shifted(pages: u8) -> Window {
    Window {
        cbar: 0,
        cbr: pages,
        bbr: 0,
    }
}

fn sees<M: Memory, P>(
    rt: &impl Abort,
    card: &mut Card<M, P>,
    window: Window,
    at: u16,
    expected: [u8; 4],
) {
    let was = card.registers();
    let mut buffer = [0xAA; 4];
    assert_eq!(rt; card.look(window, at, &mut buffer), Ok(()));
    assert_eq!(rt; buffer, expected);
    registers_are(rt, card, was);
}

#[test]
fn addresses_wrap(rt: HostRuntime) -> Result<(), Fail> {
    let mut bytes = image(&rt, rt.alloc(), &MARKS)?;
    let mut card = over(&mut bytes, quiet(rt.alloc()))?;
    sees(
        &rt,
        &mut card,
        Window::RESET,
        0xFFFE,
        [0x30, 0x31, 0x10, 0x11],
    );
    Ok(())
}

#[test]
fn another_window(rt: HostRuntime) -> Result<(), Fail> {
    let mut bytes = image(&rt, rt.alloc(), &MARKS)?;
    let mut card = over(&mut bytes, quiet(rt.alloc()))?;
    sees(&rt, &mut card, shifted(1), 0, [0x20, 0, 0, 0]);
    sees(&rt, &mut card, shifted(1), 0xF000, [0x40, 0, 0, 0]);
    // each byte is mapped by itself: behind page FH stands page 0, which shows physical page 1
    sees(&rt, &mut card, shifted(1), 0xEFFE, [0x30, 0x31, 0x40, 0]);
    sees(&rt, &mut card, shifted(1), 0xFFFF, [0, 0x20, 0, 0]);
    sees(&rt, &mut card, Window::RESET, 0, [0x10, 0x11, 0, 0]);
    pc_is(&rt, &card, 0);
    Ok(())
}

#[test]
fn the_largest_base(rt: HostRuntime) -> Result<(), Fail> {
    let mut bytes = image(&rt, rt.alloc(), &MARKS)?;
    let mut card = over(&mut bytes, quiet(rt.alloc()))?;
    sees(
        &rt,
        &mut card,
        shifted(127),
        0x0FFE,
        [0xFF, 0xFF, 0x10, 0x11],
    );
    let bank = Window {
        cbar: 0xF0,
        cbr: 0,
        bbr: 127,
    };
    sees(&rt, &mut card, bank, 0x0FFE, [0xFF, 0xFF, 0x10, 0x11]);
    Ok(())
}

fn base_denied<M: Memory>(rt: &impl Abort, card: &mut Card<M, Script>, cbr: u8, bbr: u8) {
    let was = card.registers();
    let window = Window {
        cbar: 0x84,
        cbr,
        bbr,
    };
    let mut buffer = [0xAA, 0xBB];
    assert_eq!(rt;
        card.look(window, 0, &mut buffer),
        Err(Denial::LookOutOfRange)
    );
    assert_eq!(rt; buffer, [0xAA, 0xBB]);
    unchanged(rt, card, was, &[1, 2, 3], false);
    assert_eq!(rt;
        LookWindow::try_from(window).err(),
        Some(Denial::LookOutOfRange)
    );
}

#[test]
fn a_base_too_large(rt: HostRuntime) -> Result<(), Fail> {
    let mut bytes = [1, 2, 3];
    let mut card = over(&mut bytes, quiet(rt.alloc()))?;
    base_denied(&rt, &mut card, 128, 0);
    base_denied(&rt, &mut card, 0, 128);
    base_denied(&rt, &mut card, 255, 255);
    denied_as(&rt, Denial::LookOutOfRange, 7, Layer::Card);
    Ok(())
}

fn all_are(rt: &impl Abort, buffer: &[u8], expected: u8) {
    for byte in buffer {
        assert_eq!(rt; *byte, expected);
    }
}

#[test]
fn lengths(rt: HostRuntime) -> Result<(), Fail> {
    let mut bytes = vec![in rt.alloc(); 6u8; 8192]?;
    let mut card = over(&mut bytes, quiet(rt.alloc()))?;
    assert_eq!(rt; card.look(Window::RESET, 5, &mut []), Ok(()));
    let mut buffer = vec![in rt.alloc(); 0xAAu8; 4096]?;
    assert_eq!(rt; card.look(Window::RESET, 5, &mut buffer), Ok(()));
    all_are(&rt, &buffer, 6);
    let was = card.registers();
    let mut buffer = vec![in rt.alloc(); 0xAAu8; 4097]?;
    assert_eq!(rt;
        card.look(Window::RESET, 5, &mut buffer),
        Err(Denial::LookOutOfRange)
    );
    all_are(&rt, &buffer, 0xAA);
    unchanged(&rt, &card, was, &[6; 4], false);
    Ok(())
}

// Two buffers are filled by one look, and one that is too long in between is not.
fn stands<M: Memory, P>(
    rt: &impl Abort,
    card: &mut Card<M, P>,
    long: &mut [u8],
) -> Result<(), Fail> {
    let look = card.open(LookWindow::try_from(shifted(1))?);
    let mut buffer = [0xAA; 2];
    assert_eq!(rt; look.fill(0, &mut buffer), Ok(()));
    assert_eq!(rt; buffer, [0x20, 0]);
    assert_eq!(rt; look.fill(0, long), Err(Denial::LookOutOfRange));
    assert_eq!(rt; look.fill(0xEFFF, &mut buffer), Ok(()));
    assert_eq!(rt; buffer, [0x31, 0x40]);
    look.end();
    Ok(())
}

#[test]
fn a_look_that_stands(rt: HostRuntime) -> Result<(), Fail> {
    let mut bytes = image(&rt, rt.alloc(), &MARKS)?;
    let mut card = over(&mut bytes, quiet(rt.alloc()))?;
    let was = card.registers();
    let mut long = vec![in rt.alloc(); 0xAAu8; 4097]?;
    stands(&rt, &mut card, &mut long)?;
    all_are(&rt, &long, 0xAA);
    registers_are(&rt, &card, was);
    // let go, not ended
    {
        let look = card.open(LookWindow::try_from(shifted(16))?);
        let mut buffer = [0xAA];
        assert_eq!(rt; look.fill(0, &mut buffer), Ok(()));
        assert_eq!(rt; buffer, [0x40]);
    }
    registers_are(&rt, &card, was);
    Ok(())
}
