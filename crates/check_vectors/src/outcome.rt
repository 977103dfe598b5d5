// What stands after a step, as numbers with names.
use crate::access::Access;
use machine::cost::Cost;
use registers::registers::{RegisterSet, Registers};
use registers::window::Window;

#[derive(Clone, Copy, PartialEq, Eq)]
pub struct Outcome {
    pub cpu: Registers,
    pub window: Window,
    pub access: Access,
    pub cost: Cost,
    pub cells: [u8; 3],
    // the bytes at PC before the step
    pub code: [u8; 4],
    // whether any other byte of memory changed
    pub astray: bool,
}

// One list of names serves both outcomes, so the names stand beside the numbers.
pub const MAIN: [&str; 8] = ["A", "F", "B", "C", "D", "E", "H", "L"];

pub const ALTERNATE: [&str; 8] = ["A'", "F'", "B'", "C'", "D'", "E'", "H'", "L'"];

pub const SINGLE: [&str; 14] = [
    "IX", "IY", "SP", "PC", "I", "R", "IEF1", "IEF2", "IM", "mode", "EI", "IL", "ITC", "ICR",
];

pub const OUTSIDE: [&str; 16] = [
    "CBAR", "CBR", "BBR", "access", "port", "byte", "cycles", "states", "cell 1", "cell 2",
    "cell 3", "code 1", "code 2", "code 3", "code 4", "astray",
];

// In the order of MAIN and ALTERNATE.
pub fn set(set: &RegisterSet) -> [u32; 8] {
    let f = u8::from(set.f);
    [
        u32::from(set.a),
        u32::from(f),
        u32::from(set.b),
        u32::from(set.c),
        u32::from(set.d),
        u32::from(set.e),
        u32::from(set.h),
        u32::from(set.l),
    ]
}

impl Outcome {
    // In the order of SINGLE.
    pub fn single(&self) -> [u32; 14] {
        let cpu = &self.cpu;
        [
            u32::from(cpu.ix),
            u32::from(cpu.iy),
            u32::from(cpu.sp),
            u32::from(cpu.pc),
            u32::from(cpu.i),
            u32::from(cpu.r),
            u32::from(cpu.ief1),
            u32::from(cpu.ief2),
            // as a vector has them: 0, 1 and 2 in order
            cpu.im as u32,
            cpu.mode as u32,
            u32::from(cpu.ei),
            u32::from(cpu.il),
            u32::from(cpu.itc),
            u32::from(cpu.icr),
        ]
    }

    // In the order of OUTSIDE.
    pub fn outside(&self) -> [u32; 16] {
        let (kind, port, byte) = self.access.numbers();
        let [cell1, cell2, cell3] = self.cells;
        let [code1, code2, code3, code4] = self.code;
        [
            u32::from(self.window.cbar),
            u32::from(self.window.cbr),
            u32::from(self.window.bbr),
            kind,
            port,
            byte,
            self.cost.cycles,
            self.cost.states,
            u32::from(cell1),
            u32::from(cell2),
            u32::from(cell3),
            u32::from(code1),
            u32::from(code2),
            u32::from(code3),
            u32::from(code4),
            u32::from(self.astray),
        ]
    }
}
