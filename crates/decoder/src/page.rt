// What an opcode byte answers on a page whose bytes may lead to another page.
use instructions::instruction::Instruction;
use registers::operand::Index;

// The pages that a first byte leads to: CBH, EDH, and DDH or FDH.
#[derive(Clone, Copy)]
pub enum Page {
    Bits,
    Extended,
    Indexed(Index),
}

// A first byte is never undefined. A prefix is neither nothing nor a failure, so that this is no Option and no Result.
#[derive(Clone, Copy)]
pub enum First {
    Instruction(Instruction),
    Prefix(Page),
}

// A byte behind DDH or FDH. CBH leads on: a displacement and one more opcode byte follow. Undefined stands among the three and is
// no Option's None, since whoever asks goes on differently with each of the three, so that no `?` would serve.
#[derive(Clone, Copy)]
pub enum Second {
    Instruction(Instruction),
    BitsPrefix,
    Undefined,
}
