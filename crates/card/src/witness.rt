// Who is told of a run, step by step.
ghost use Rattle.registers.specs.declared.window.Window.{Window};
ghost use Rattle.std.specs.Prelude.{◌≡◌};

use registers::window::Window;

// A witness of a run is told the window as a step began, of each step that is not denied. What it makes of that is its own.
pub trait Witness {
    ghost State: { Type 0 };

    // its state after it is told of a window
    ghost noted: { State → Window → State };

    ghost state: { Self → State };

    fn note(&mut self, window: Window)
        ensures { state self.new ≡ noted (state self.old) window };
}

// Nobody is told, and a run without a witness costs nothing more.
#[derive(Clone, Copy, Debug)]
pub struct Nobody;

impl Witness for Nobody {
    ghost State = { Unit {0} };

    ghost noted = { λ s w. s };

    ghost state = { λ n. tt };

    fn note(&mut self, _window: Window) {}
}
