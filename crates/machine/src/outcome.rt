// What a calculation gives: a byte for a register, and new flags.
ghost use Rattle.arithmetic.specs.declared.flags.Flags.{Flags};
ghost use Rattle.processor.specs.Parts.{taking};
ghost use Rattle.registers.specs.declared.operand.Register.TheVariants as register;
ghost use Rattle.std.specs.Prelude.{◌≡◌, ℕ};

use arithmetic::flags::Flags;
use operands::register::set_byte;
use registers::operand::Register;
use registers::registers::Registers;

pub fn take(cpu: &mut Registers, to: Register, outcome: (u8, Flags))
    ensures { cpu.new ≡ taking to outcome cpu.old }
{
    let (byte, flags) = outcome;
    cpu.main.f = flags;
    set_byte(cpu, to, byte);
}

// A and F after an operation on them.
pub fn accumulate<O: FnOnce(u8, Flags) -> (u8, Flags)>(cpu: &mut Registers, operation: O)
    requires { O.IsAlwaysCallable operation }
    ensures { (outcome : ℕ × Flags)
        × O.post operation cpu.old.main.a cpu.old.main.f outcome
        × (cpu.new ≡ taking register.A outcome cpu.old) }
{
    let outcome = operation(cpu.main.a, cpu.main.f);
    take(cpu, Register::A, outcome);
}
