// A word of the processor's registers, by the name that an instruction gives it.
ghost use Rattle.registers.specs.declared.registers.Registers.{Registers};
ghost use Rattle.std.specs.Prelude.{◌≡◌, ℕ};

use registers::registers::Registers;

pub trait Word: Copy {
    // The word that stands in the registers, and the registers with another in its place.
    ghost value: { Self → Registers → ℕ };

    ghost with_word: { Self → ℕ → Registers → Registers };

    fn get(self, cpu: &Registers) -> u16
        ensures { result ≡ value self cpu.now };

    fn set(self, cpu: &mut Registers, word: u16)
        ensures { cpu.new ≡ with_word self word cpu.old };
}
