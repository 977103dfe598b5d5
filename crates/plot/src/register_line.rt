// The second line: where the program counter and the stack pointer stand, AF, and the window's CBAR.
ghost use Rattle.plot.specs.Lines.{register_line};
ghost use Rattle.std.specs.Prelude.{Some};

use registers::registers::Registers;
use registers::window::Window;
use std::fmt;

#[derive(Clone, Copy)]
pub struct RegisterLine {
    pub cpu: Registers,
    pub window: Window,
}

impl fmt::Display for RegisterLine {
    ghost output = { λ l. Some (register_line l.cpu l.window) };

    #[tactic(auto, using(text::proofs::Written::printed), unfolding(crate::specs::Lines::register_line))]
    fn fmt<W: fmt::Write>(&self, f: &mut fmt::Formatter<W>) -> fmt::Result {
        let pc = self.cpu.pc;
        let sp = self.cpu.sp;
        let a = self.cpu.main.a;
        let flags = u8::from(self.cpu.main.f);
        let cbar = self.window.cbar;
        write!(
            f,
            "pc={pc:04X} sp={sp:04X} af={a:02X}{flags:02X} cbar={cbar:02X}"
        )
    }
}
