// A call of a log, with raw values, so that a denied call can stand in a log too.
use registers::window::Window;

#[derive(Clone, Copy)]
pub enum Call {
    Step,
    // with its budget
    Run(u32),
    Reset,
    // with its window, logical address and length
    Look(Window, u16, usize),
}
