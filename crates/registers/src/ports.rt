// The internal ports, by which programs reach IL, ITC, ICR and the window's three bytes.
ghost use Rattle.std.specs.Prelude.{◌≡◌, ◌%◌};
ghost use Rattle.registers.specs.Ports.{is_internal, itc_stored, port_byte, port_written};

use crate::registers::Registers;
use crate::window::Window;

// Ports stay numbers: the data book numbers them, and an enum of the six would be one list more than the two matches.
impl Registers {
    // Whether a port is the processor's own: its upper half is 0, and ICR has its bits 7 and 6.
    pub fn owns(&self, port: u16) -> bool
        ensures { result ≡ is_internal self.now port }
    {
        port / 64 == u16::from(self.icr / 64)
    }

    // What an internal port reads as, by the low six bits of its number.
    pub fn port_byte(&self, window: Window, port: u8) -> u8
        ensures { result ≡ port_byte (record { cpu = self.now; window = window }) (port % 64) }
    {
        match port % 64 {
            0x33 => self.il,
            0x34 => self.itc,
            0x38 => window.cbr,
            0x39 => window.bbr,
            0x3A => window.cbar,
            0x3F => self.icr,
            _ => 0xFF,
        }
    }

    // Writes to an internal port.
    pub fn write_port(&mut self, window: &mut Window, port: u8, byte: u8)
        ensures { record { cpu = self.new; window = window.new } ≡ port_written (record { cpu = self.old; window = window.old }) (port % 64) byte }
    {
        match port % 64 {
            0x33 => self.il = byte / 32 * 32,
            0x34 => self.itc = after_itc_write(self.itc, byte),
            0x38 => window.cbr = byte % 128,
            0x39 => window.bbr = byte % 128,
            0x3A => window.cbar = byte,
            0x3F => self.icr = byte / 32 * 32 + 31,
            _ => {}
        }
    }
}

// ITC keeps TRAP unless 0 is written to it, and UFO; its middle bits read 1.
fn after_itc_write(itc: u8, byte: u8) -> u8
    ensures { result ≡ itc_stored itc byte }
{
    let trap = if byte >= 128 { itc / 128 * 128 } else { 0 };
    trap + itc / 64 % 2 * 64 + 56 + byte % 8
}
