// Conditions on the flags.
ghost use Rattle.registers.specs.Operands as of;
ghost use Rattle.std.specs.Prelude.{◌≡◌};

use arithmetic::flags::Flags;
use registers::operand::Condition;

pub fn holds(condition: Condition, flags: Flags) -> bool
    ensures { result ≡ of.holds condition flags }
{
    match condition {
        Condition::Nz => !flags.z,
        Condition::Z => flags.z,
        Condition::Nc => !flags.c,
        Condition::C => flags.c,
        Condition::Po => !flags.pv,
        Condition::Pe => flags.pv,
        Condition::P => !flags.s,
        Condition::M => flags.s,
    }
}
