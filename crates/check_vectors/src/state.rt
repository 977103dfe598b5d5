// The registers and the window of a vector.
use crate::reader::Reader;
use arithmetic::flags::Flags;
use registers::registers::{InterruptMode, Mode, RegisterSet, Registers};
use registers::window::Window;

// Two flip-flops, the interrupt mode, the mode, and whether the last step was EI.
#[derive(Clone, Copy)]
struct Modes {
    ief1: bool,
    ief2: bool,
    im: InterruptMode,
    mode: Mode,
    ei: bool,
}

impl Reader<'_> {
    fn register_set(&mut self) -> Option<RegisterSet> {
        let (a, f) = self.pair()?;
        let (b, c) = self.pair()?;
        let (d, e) = self.pair()?;
        let (h, l) = self.pair()?;
        let f = Flags::from(f);
        Some(RegisterSet {
            a,
            f,
            b,
            c,
            d,
            e,
            h,
            l,
        })
    }

    // This and the next are matched by digit, as the source is: why stands there, in vector.rt.
    fn interrupt_mode(&mut self) -> Option<InterruptMode> {
        match self.digit()? {
            0 => Some(InterruptMode::Zero),
            1 => Some(InterruptMode::One),
            2 => Some(InterruptMode::Two),
            _ => None,
        }
    }

    fn mode(&mut self) -> Option<Mode> {
        match self.digit()? {
            0 => Some(Mode::Running),
            1 => Some(Mode::Halted),
            2 => Some(Mode::Asleep),
            _ => None,
        }
    }

    fn modes(&mut self) -> Option<Modes> {
        self.space()?;
        let ief1 = self.flag()?;
        let ief2 = self.flag()?;
        let im = self.interrupt_mode()?;
        let mode = self.mode()?;
        let ei = self.flag()?;
        Some(Modes {
            ief1,
            ief2,
            im,
            mode,
            ei,
        })
    }

    // IX, IY, SP and PC.
    fn words(&mut self) -> Option<[u16; 4]> {
        let ix = self.word()?;
        let iy = self.word()?;
        let sp = self.word()?;
        let pc = self.word()?;
        Some([ix, iy, sp, pc])
    }

    // CBAR, CBR and BBR; IL, ITC and ICR.
    fn internal(&mut self) -> Option<(Window, [u8; 3])> {
        let (cbar, cbr) = self.pair()?;
        let (bbr, il) = self.pair()?;
        let (itc, icr) = self.pair()?;
        Some((Window { cbar, cbr, bbr }, [il, itc, icr]))
    }

    // The registers and the window.
    pub fn state(&mut self) -> Option<(Registers, Window)> {
        let main = self.register_set()?;
        let alternate = self.register_set()?;
        let [ix, iy, sp, pc] = self.words()?;
        let (i, r) = self.pair()?;
        let modes = self.modes()?;
        let (window, [il, itc, icr]) = self.internal()?;
        let cpu = Registers {
            main,
            alternate,
            ix,
            iy,
            sp,
            pc,
            i,
            r,
            ief1: modes.ief1,
            ief2: modes.ief2,
            im: modes.im,
            mode: modes.mode,
            ei: modes.ei,
            il,
            itc,
            icr,
        };
        Some((cpu, window))
    }
}
