// What the lines before `make` set up.
ghost use Rattle.command.specs.Said.{said_of};
ghost use Rattle.script.specs.Shown.{Takes, setup_of};
ghost use Rattle.script.specs.Setup.{nothing_set_up, set_up};
ghost use Rattle.std.specs.Prelude.{◌≡◌};

use crate::boards::Boards;
use crate::plan::{PanelKind, Plan};
use crate::put::{Put, What};
use crate::wrong::{Untaken, Wrong};
use command::command::Command;
use plugs::entry::{Page, PatchEntry};
use std::alloc::Global;

#[derive(Drop)]
pub(crate) struct Setup {
    pub boards: Boards,
    pub protect: Vec<Page>,
    pub patch: Vec<PatchEntry>,
    pub plan: Plan,
}

impl Setup {
    pub fn new(heap: Global) -> Setup
        ensures { setup_of result ≡ nothing_set_up }
    {
        Setup {
            boards: Boards::new(heap),
            protect: Vec::new(heap),
            patch: Vec::new(heap),
            plan: Plan::new(),
        }
    }

    // All but setup lines come behind `make`.
    pub fn take(&mut self, heap: Global, line: usize, command: Command) -> Result<(), Untaken>
        ensures { Takes result (set_up line (setup_of self.old) (said_of command)) (setup_of self.new) }
    {
        match command {
            Command::Rom(length) => self.boards.rom(length),
            Command::Ram(length) => self.boards.ram(length),
            Command::Bytes(at, bytes) => self.boards.put(Put {
                line,
                at,
                what: What::Bytes(bytes),
            }),
            Command::Fill { at, length, byte } => {
                self.boards.put(Put {
                    line,
                    at,
                    what: What::Fill { length, byte },
                })
            }
            Command::Image(at, name) => self.boards.put(Put {
                line,
                at,
                what: What::Image(name),
            }),
            Command::Second => self.boards.second(heap),
            Command::Protect(mut pages) => Ok(self.protect.append(&mut pages)?),
            Command::Patch(mut entries) => Ok(self.patch.append(&mut entries)?),
            Command::Chain(records) => self.plan.panel(PanelKind::chain(records)),
            Command::Script {
                int0_byte,
                threshold,
                reads,
            } => {
                self.plan.panel(PanelKind::Script {
                    int0_byte,
                    threshold,
                    reads,
                })
            }
            Command::Key(byte) => self.plan.key(byte),
            Command::Latch => self.plan.latch(),
            Command::Make
            | Command::Step(_)
            | Command::Run { .. }
            | Command::Reset
            | Command::Look { .. }
            | Command::Show => Err(Untaken::Wrong(Wrong::BeforeMake)),
        }
    }
}
