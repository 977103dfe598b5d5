// All that a step works on.
use crate::cost::Cost;
use registers::registers::Registers;
use registers::window::Window;

#[derive(Drop)]
pub struct Machine<M, P> {
    pub cpu: Registers,
    pub window: Window,
    pub memory: M,
    pub panel: P,
    // Of the step under way. Each `requires` bounds it by Below n; cycles add to it, so that n rises along the calls: no one invariant
    // holds it.
    pub spent: Cost,
}
