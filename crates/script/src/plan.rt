// What a script says of the panel.
ghost use Rattle.script.specs.Panels.{chain, key_said, latch_said, no_plan, panel_said};
ghost use Rattle.script.specs.Shown.{Takes, panel_of, plan_of};
ghost use Rattle.std.specs.Prelude.{◌≡◌, false};

use crate::wrong::{Untaken, Wrong};

#[derive(Debug, Drop)]
pub enum PanelKind {
    Chain {
        records: u32,
        key: u8,
        latch: bool,
    },
    Script {
        int0_byte: u8,
        threshold: u32,
        reads: Vec<u8>,
    },
}

#[derive(Drop)]
pub(crate) struct Plan {
    pub panel: PanelKind,
    // whether a line has said something of it
    pub settled: bool,
}

impl PanelKind {
    pub(crate) fn chain(records: u32) -> PanelKind
        ensures { panel_of result ≡ chain records 0 false }
    {
        PanelKind::Chain {
            records,
            key: 0,
            latch: false,
        }
    }
}

impl Plan {
    // Without a line, a chain panel of as many records as a table may have.
    pub fn new() -> Plan
        ensures { plan_of result ≡ no_plan }
    {
        Plan {
            panel: PanelKind::chain(4096),
            settled: false,
        }
    }

    pub fn panel(&mut self, panel: PanelKind) -> Result<(), Untaken>
        ensures { Takes result (panel_said (plan_of self.old) (panel_of panel)) (plan_of self.new) }
    {
        if self.settled {
            return Err(Untaken::Wrong(Wrong::PanelLate));
        }
        self.panel = panel;
        self.settled = true;
        Ok(())
    }

    // Of several keys the last counts.
    pub fn key(&mut self, byte: u8) -> Result<(), Untaken>
        ensures { Takes result (key_said (plan_of self.old) byte) (plan_of self.new) }
    {
        let PanelKind::Chain { key, .. } = &mut self.panel else {
            return Err(Untaken::Wrong(Wrong::NotAChain));
        };
        *key = byte;
        self.settled = true;
        Ok(())
    }

    pub fn latch(&mut self) -> Result<(), Untaken>
        ensures { Takes result (latch_said (plan_of self.old)) (plan_of self.new) }
    {
        let PanelKind::Chain { latch, .. } = &mut self.panel else {
            return Err(Untaken::Wrong(Wrong::NotAChain));
        };
        *latch = true;
        self.settled = true;
        Ok(())
    }
}
