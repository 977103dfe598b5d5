// What the host reaches by itself: memory by physical addresses, the panel, and the parts of a card.
use crate::cards::{denied_as, over, quiet, registers_are, with_room_for};
use denial::{Denial, Layer};
use memory::Memory;
use panel::Panel;
use registers::registers::Registers;
use registers::window::Window;
use std::test::Fail;

#[test]
fn the_last_byte_of_memory(rt: HostRuntime) -> Result<(), Fail> {
    let mut bytes = vec![in rt.alloc(); 7u8; 524_288]?;
    let mut card = over(&mut bytes, quiet(rt.alloc()))?;
    assert_eq!(rt; card.read(524_287), Ok(7));
    assert_eq!(rt; card.write(524_287, 9), Ok(()));
    assert_eq!(rt; card.read(524_287), Ok(9));
    assert_eq!(rt; card.read(524_286), Ok(7));
    assert_eq!(rt; card.read(524_288), Err(Denial::AddressBeyondMemory));
    assert_eq!(rt; card.write(524_288, 3), Err(Denial::AddressBeyondMemory));
    assert_eq!(rt;
        card.write(0xFFFF_FFFF, 3),
        Err(Denial::AddressBeyondMemory)
    );
    denied_as(&rt, Denial::AddressBeyondMemory, 5, Layer::Memory);
    assert_eq!(rt; card.read(524_287), Ok(9));
    assert_eq!(rt; card.read(0), Ok(7));
    registers_are(&rt, &card, (Registers::new(), Window::RESET));
    Ok(())
}

#[test]
fn the_panel_and_the_parts(rt: HostRuntime) -> Result<(), Fail> {
    let mut bytes = [1, 2];
    let mut card = over(&mut bytes, with_room_for(rt.alloc(), 3)?)?;
    card.panel_mut().set_key(0x41);
    assert_eq!(rt; card.panel().key(), 0x41);
    registers_are(&rt, &card, (Registers::new(), Window::RESET));
    assert_eq!(rt; card.write(1, 9), Ok(()));
    let (memory, panel) = card.into_parts();
    assert_eq!(rt; memory.read(0), Ok(1));
    assert_eq!(rt; memory.read(1), Ok(9));
    assert_eq!(rt; panel.key(), 0x41);
    Ok(())
}
