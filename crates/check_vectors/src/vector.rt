// A vector: what stands before a step, and what must stand after it.
use crate::access::Access;
use crate::cell::Cell;
use crate::outcome::Outcome;
use crate::reader::Reader;
use machine::cost::Cost;
use registers::registers::Registers;
use registers::window::Window;

// Who says so: one of two other emulators, or a hand.
#[derive(Clone, Copy)]
pub enum Source {
    Z80ex,
    Ucsim,
    Hand,
}

#[derive(Clone, Copy)]
pub struct Vector {
    pub source: Source,
    // the bytes at PC
    pub code: [u8; 4],
    pub cpu: Registers,
    pub window: Window,
    // what the panel answers to a read
    pub answer: u8,
    pub cells: [Cell; 3],
    pub after: Outcome,
}

impl Reader<'_> {
    // Matched where it is read, as the digits of state.rt are. Their enums are other crates', so no TryFrom can be written
    // for them here, and of a TryFrom the Option would drop the error.
    fn source(&mut self) -> Option<Source> {
        match self.digit()? {
            1 => Some(Source::Z80ex),
            2 => Some(Source::Ucsim),
            3 => Some(Source::Hand),
            _ => None,
        }
    }

    fn code(&mut self) -> Option<[u8; 4]> {
        let (first, second) = self.pair()?;
        let third = self.byte()?;
        let fourth = self.byte()?;
        Some([first, second, third, fourth])
    }

    // The panel's part, and the byte that it answers or is written.
    fn access(&mut self) -> Option<(Access, u8)> {
        self.space()?;
        let kind = self.digit()?;
        let port = self.word()?;
        let byte = self.number()?;
        match kind {
            0 => Some((Access::Nothing, byte)),
            1 => Some((Access::Read(port), byte)),
            2 => Some((Access::Written(port, byte), byte)),
            _ => None,
        }
    }

    fn cost(&mut self) -> Option<Cost> {
        let cycles = u32::from(self.number()?);
        let states = u32::from(self.number()?);
        Some(Cost { cycles, states })
    }

    fn cells(&mut self) -> Option<[Cell; 3]> {
        let first = Cell::read(self)?;
        let second = Cell::read(self)?;
        let third = Cell::read(self)?;
        Some([first, second, third])
    }

    // What stands behind the registers, which are those after the step.
    fn rest(
        &mut self,
        cpu: Registers,
        window: Window,
        code: [u8; 4],
    ) -> Option<(u8, [Cell; 3], Outcome)> {
        // which bits of F come from where
        self.number()?;
        let (access, answer) = self.access()?;
        let cost = self.cost()?;
        let cells = self.cells()?;
        self.end()?;
        let after = Outcome {
            cpu,
            window,
            access,
            cost,
            cells: cells.map(|cell| cell.after),
            code,
            astray: false,
        };
        Some((answer, cells, after))
    }
}

impl Vector {
    // The vector of a line, if it is one.
    pub fn read(line: &[u8]) -> Option<Vector> {
        let mut reader = Reader::new(line);
        let source = reader.source()?;
        let code = reader.code()?;
        let (cpu, window) = reader.state()?;
        let (cpu_after, window_after) = reader.state()?;
        let (answer, cells, after) = reader.rest(cpu_after, window_after, code)?;
        Some(Vector {
            source,
            code,
            cpu,
            window,
            answer,
            cells,
            after,
        })
    }
}
