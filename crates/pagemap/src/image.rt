// A memory image that a window is laid over.
ghost use Rattle.std.specs.Prelude.{◌≡◌, ◌*◌, ◌<◌};
ghost use Rattle.pagemap.specs.Pages.{bytes_through};

use memory::Memory;
use registers::window::Window;
use view::fill_through;

// The memory, how many of its bytes are the image's, and the window.
#[derive(Drop)]
pub struct Image<'a, M> {
    pub memory: &'a M,
    pub bytes: usize,
    pub window: Window,
}

impl<M: Memory> Image<'_, M> {
    // The bytes of a logical page.
    pub fn page(&self, page: u8) -> [u8; 4096]
        requires { page < 16 }
        ensures { result ≡ bytes_through (M.memory self.now.memory.now) self.now.window (page * 4096) 4096 }
    {
        let mut bytes = [0; 4096];
        fill_through(self.memory, self.window, u16::from(page) * 4096, &mut bytes);
        bytes
    }
}
