// One step from a vector's state, over a memory that is 00 but for the vector's bytes.
use crate::access::Access;
use crate::outcome::Outcome;
use crate::recorder::Recorder;
use crate::vector::Vector;
use execution::step::step;
use machine::cost::Cost;
use machine::state::Machine;
use memory::Memory;
use panel::Panel;

// Where the bytes at PC stand: the window shows their addresses as they are.
fn places(pc: u16) -> [u32; 4] {
    [0, 1, 2, 3].map(|behind| u32::from(pc.wrapping_add(behind)))
}

// Five digits can name a cell beyond all memory: it takes no byte, and holds FFH.
fn write<const N: usize, M: Memory>(memory: &mut M, places: [u32; N], bytes: [u8; N]) {
    for (at, byte) in places.iter().zip(bytes.iter()) {
        let _ = memory.write(*at, *byte);
    }
}

fn read<const N: usize, M: Memory>(memory: &M, places: [u32; N]) -> [u8; N] {
    let mut bytes = [0; N];
    for (byte, at) in bytes.iter_mut().zip(places.iter()) {
        *byte = memory.read(*at).unwrap_or(0xFF);
    }
    bytes
}

// Puts bytes into the vector's cells, and others at its PC.
fn put<M: Memory>(memory: &mut M, vector: &Vector, cells: [u8; 3], code: [u8; 4]) {
    write(memory, vector.cells.map(|cell| cell.at), cells);
    write(memory, places(vector.cpu.pc), code);
}

// The step, and all but whether another byte changed; the vector's bytes are 00 again.
pub fn stepped<M: Memory + Drop>(memory: M, vector: &Vector) -> Outcome {
    let panel = Recorder {
        answer: vector.answer,
        access: Access::Nothing,
    };
    let mut card = Machine {
        cpu: vector.cpu,
        window: vector.window,
        memory,
        panel,
        spent: Cost::default(),
    };
    put(
        &mut card.memory,
        vector,
        vector.cells.map(|cell| cell.before),
        vector.code,
    );
    // this panel has no step denied
    let cost = step(&mut card).unwrap_or_default();
    let cells = read(&card.memory, vector.cells.map(|cell| cell.at));
    let code = read(&card.memory, places(vector.cpu.pc));
    put(&mut card.memory, vector, [0; 3], [0; 4]);
    Outcome {
        cpu: card.cpu,
        window: card.window,
        access: card.panel.access,
        cost,
        cells,
        code,
        astray: false,
    }
}
