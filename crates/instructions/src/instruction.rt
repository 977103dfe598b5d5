// An instruction: a form of one of the ten groups.
ghost use Rattle.instructions.specs.Length as bytes;
ghost use Rattle.std.specs.Prelude.{◌≡◌};

use crate::group::bit::Bit;
use crate::group::block::Block;
use crate::group::calculation::Arithmetic;
use crate::group::call::Call;
use crate::group::control::Control;
use crate::group::exchange::Exchange;
use crate::group::jump::Jump;
use crate::group::load::Load;
use crate::group::port::Port;
use crate::group::rotation::Rotation;

#[derive(Clone, Copy)]
pub enum Instruction {
    Load(Load),
    Exchange(Exchange),
    Arithmetic(Arithmetic),
    Rotate(Rotation),
    Bit(Bit),
    Jump(Jump),
    Call(Call),
    Block(Block),
    Port(Port),
    Control(Control),
}

impl Instruction {
    // How many bytes the instruction has, prefixes, displacement and operands counted.
    pub fn length(self) -> usize
        ensures { result ≡ bytes.length self }
    {
        match self {
            Instruction::Load(form) => form.length(),
            Instruction::Exchange(form) => form.length(),
            Instruction::Arithmetic(form) => form.length(),
            Instruction::Rotate(form) => form.length(),
            Instruction::Bit(form) => form.length(),
            Instruction::Jump(form) => form.length(),
            Instruction::Call(form) => form.length(),
            Instruction::Block(form) => form.length(),
            Instruction::Port(form) => form.length(),
            Instruction::Control(form) => form.length(),
        }
    }
}
