// The names by which instructions speak of registers, pairs and conditions, in the order of the opcode's fields.

// A byte register. The field's value 6 names none of these: it is (HL) or (IX+d).
#[derive(Clone, Copy, Debug)]
pub enum Register {
    B,
    C,
    D,
    E,
    H,
    L,
    A,
}

// A pair in arithmetic and loads.
#[derive(Clone, Copy, Debug)]
pub enum Pair {
    Bc,
    De,
    Hl,
    Sp,
}

// A pair on the stack.
#[derive(Clone, Copy, Debug)]
pub enum StackPair {
    Bc,
    De,
    Hl,
    Af,
}

// A pair that points at a byte for A.
#[derive(Clone, Copy, Debug)]
pub enum Pointer {
    Bc,
    De,
}

#[derive(Clone, Copy, Debug)]
pub enum Index {
    Ix,
    Iy,
}

#[derive(Clone, Copy, Debug)]
pub enum Condition {
    Nz,
    Z,
    Nc,
    C,
    Po,
    Pe,
    P,
    M,
}

// Which way a block instruction goes through memory.
#[derive(Clone, Copy, Debug)]
pub enum Direction {
    Up,
    Down,
}
