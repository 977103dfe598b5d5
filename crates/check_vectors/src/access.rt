// What a step asked of the panel. Nothing is a case of its own and no Option's None: a vector has a number for it as for
// the others, and what stands behind it, and its numbers, are told case by case.
ghost use Rattle.check_vectors.specs.Accesses.{behind};
ghost use Rattle.std.specs.Prelude.{◌≡◌};

#[derive(Clone, Copy, PartialEq, Eq)]
pub enum Access {
    Nothing,
    Read(u16),
    Written(u16, u8),
    // a second access; no instruction makes one
    More,
}

impl Access {
    // This access, where it is the first.
    pub fn behind(self, before: Access) -> Access
        ensures { result ≡ behind before self }
    {
        match before {
            Access::Nothing => self,
            _ => Access::More,
        }
    }

    // 0 nothing, 1 a read, 2 a write; the port; the byte. Numbers, since a vector is a line of them, and a difference is told as one.
    pub fn numbers(self) -> (u32, u32, u32) {
        match self {
            Access::Nothing => (0, 0, 0),
            Access::Read(port) => (1, u32::from(port), 0),
            Access::Written(port, byte) => (2, u32::from(port), u32::from(byte)),
            Access::More => (3, 0, 0),
        }
    }
}
