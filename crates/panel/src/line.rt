// The four lines by which a panel asks for an interrupt.
ghost use Rattle.panel.specs.Panel.{line_number};
ghost use Rattle.std.specs.Prelude.{◌≡◌};

#[derive(Clone, Copy, Debug, PartialEq, Eq)]
pub enum Line {
    Nmi = 0,
    Int0 = 1,
    Int1 = 2,
    Int2 = 3,
}

impl Line {
    // Its place in the order of acceptance.
    pub fn number(self) -> u8
        ensures { result ≡ line_number self }
    {
        self as u8
    }
}
