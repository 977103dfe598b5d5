// The making of a script's card or cards, and what is printed where there is none.
use crate::cards::{One, Two};
use crate::input::boards;
use crate::log::log_all;
use anyhow::anyhow;
use card_log::pair::replay_pair;
use card_log::replay::replay;
use card_log::served::{Replayed, ReplayedPair};
use denial::Denial;
use making::memories::memory;
use making::panels::{chains, scripts};
use making::unmade::Unmade;
use memory::length::BoardLength;
use script::assembled::Script;
use script::filled::Filled;
use script::plan::PanelKind;
use script::wrong::Refused;
use std::process::ExitCode;
use transcript::denied::denial_line;
use transcript::shown::Shown;

// A script that is refused: nothing is made.
pub(crate) fn refuse(rt: &HostRuntime, refused: Refused) -> anyhow::Result<ExitCode> {
    rt.println(refused)?;
    Ok(ExitCode::FAILURE)
}

// A denied making: nothing is served.
fn denied(rt: &HostRuntime, denial: Denial) -> anyhow::Result<ExitCode> {
    let mut text = String::new(rt.alloc());
    denial_line(&mut text, denial)?;
    rt.print(text)?;
    Ok(ExitCode::FAILURE)
}

fn unmade(rt: &HostRuntime, why: Unmade) -> anyhow::Result<ExitCode> {
    match why {
        Unmade::Denied(denial) => denied(rt, denial),
        Unmade::NoMemory => Err(anyhow!("no memory for the panel")),
    }
}

// The panels may be denied too, but the memories come first.
fn log_over<P: Shown + Drop>(
    rt: &HostRuntime,
    script: &Script,
    boards: Filled,
    panels: Result<(P, P), Unmade>,
) -> anyhow::Result<ExitCode> {
    let Filled { mut first, second } = boards;
    let length = first.len();
    let rom = (script.rom as usize).min(length);
    let (read, written) = first.split_at_mut(rom);
    let under_first = match memory(read, written, &script.protect, &script.patch) {
        Ok(memory) => memory,
        Err(unmade) => return denied(rt, unmade.denial),
    };
    let (panel, other) = match panels {
        Ok(panels) => panels,
        Err(why) => return unmade(rt, why),
    };
    let Some(mut second) = second else {
        let Replayed { card, log: _ } = replay(rt.alloc(), under_first, panel, &[]);
        return log_all(rt, &mut One(card), &script.log, length);
    };
    let rom = rom.min(second.len());
    let (read, written) = second.split_at_mut(rom);
    let under_second = match memory(read, written, &script.protect, &script.patch) {
        Ok(memory) => memory,
        Err(unmade) => return denied(rt, unmade.denial),
    };
    let ReplayedPair {
        first,
        second,
        log: _,
    } = replay_pair(rt.alloc(), under_first, under_second, panel, other, &[]);
    log_all(rt, &mut Two { first, second }, &script.log, length)
}

fn log_script(rt: &HostRuntime, script: &Script, boards: Filled) -> anyhow::Result<ExitCode> {
    match &script.panel {
        PanelKind::Chain {
            records,
            key,
            latch,
        } => {
            let panels = chains(rt.alloc(), *records, *key, *latch);
            log_over(rt, script, boards, panels)
        }
        PanelKind::Script {
            int0_byte,
            threshold,
            reads,
        } => {
            let panels = scripts(rt.alloc(), reads, *threshold, *int0_byte)?;
            log_over(rt, script, boards, Ok(panels))
        }
    }
}

// A board that is too long is denied before its bytes are got, and before a file is read.
pub(crate) fn start(rt: &HostRuntime, script: &Script) -> anyhow::Result<ExitCode> {
    if u64::from(script.rom) + u64::from(script.ram) > BoardLength::LONGEST as u64 {
        return denied(rt, Denial::MemoryTooLong);
    }
    match boards(rt, script) {
        Ok(boards) => log_script(rt, script, boards),
        Err(refused) => refuse(rt, refused),
    }
}
