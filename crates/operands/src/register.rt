// A byte register, by its name. Functions, since no other type names one: a trait as Word would have one impl.
ghost use Rattle.registers.specs.Operands.{value_of, with_register};
ghost use Rattle.std.specs.Prelude.{◌≡◌};

use registers::operand::Register;
use registers::registers::Registers;

pub fn byte(cpu: &Registers, register: Register) -> u8
    ensures { result ≡ value_of register cpu.now }
{
    match register {
        Register::B => cpu.main.b,
        Register::C => cpu.main.c,
        Register::D => cpu.main.d,
        Register::E => cpu.main.e,
        Register::H => cpu.main.h,
        Register::L => cpu.main.l,
        Register::A => cpu.main.a,
    }
}

pub fn set_byte(cpu: &mut Registers, register: Register, value: u8)
    ensures { cpu.new ≡ with_register register value cpu.old }
{
    match register {
        Register::B => cpu.main.b = value,
        Register::C => cpu.main.c = value,
        Register::D => cpu.main.d = value,
        Register::E => cpu.main.e = value,
        Register::H => cpu.main.h = value,
        Register::L => cpu.main.l = value,
        Register::A => cpu.main.a = value,
    }
}
