// The log of a script, served and listed.
use crate::cards::Cards;
use card_log::progress::Progress;
use log_listing::pieces::Pieces;
use script::entry::Entry;
use std::process::ExitCode;
use transcript::pages_line::opened_line;

// A call as many times as it is to be made, piece by piece.
fn log_calls<C: Cards>(
    rt: &HostRuntime,
    cards: &mut C,
    progress: &mut Progress,
    mut pieces: Pieces,
    times: u32,
) -> anyhow::Result<()> {
    for _piece in 0..times {
        if pieces.is_empty() {
            break;
        }
        let calls = pieces.next(rt.alloc())?;
        let mut text = String::new(rt.alloc());
        cards.list(rt.alloc(), &calls, progress, &mut text)?;
        rt.print(text)?;
    }
    Ok(())
}

fn log_entry<C: Cards>(
    rt: &HostRuntime,
    cards: &mut C,
    progress: &mut Progress,
    entry: Entry,
    length: usize,
) -> anyhow::Result<()> {
    match entry {
        Entry::Calls(call, times) => {
            log_calls(rt, cards, progress, Pieces::new(call, times), times)
        }
        Entry::Show => {
            let mut text = String::new(rt.alloc());
            cards.show(&mut text, length)?;
            rt.print(text)?;
            Ok(())
        }
    }
}

// Serves the log, and lists the pages that it opened and where two cards differ. Each board has so many bytes.
pub(crate) fn log_all<C: Cards>(
    rt: &HostRuntime,
    cards: &mut C,
    log: &[Entry],
    length: usize,
) -> anyhow::Result<ExitCode> {
    let mut progress = Progress::new();
    for entry in log {
        log_entry(rt, cards, &mut progress, *entry, length)?;
    }
    let mut text = String::new(rt.alloc());
    opened_line(&mut text, &progress.opened)?;
    cards.compare(&mut text, &progress)?;
    rt.print(text)?;
    Ok(ExitCode::SUCCESS)
}
