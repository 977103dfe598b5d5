// The chains of a panel as text: a line for each record, the chains of pen, x and y one after another.
ghost use Rattle.panel.specs.Shown.{chain_state};
ghost use Rattle.plot.specs.Listing.{chains_text, track_text};
ghost use Rattle.std.specs.Prelude.{◌≡◌, ◌++◌, string_bytes, OnOk};

use crate::record_line::RecordLine;
use panel::chain::Chain;
use panel::track::Track;
use std::alloc::AllocError;

// A line for each record of a chain, the first one first.
fn records(text: &mut String, panel: &Chain, track: Track) -> Result<(), AllocError>
    ensures { OnOk result (string_bytes text.new ≡ string_bytes text.old ++ track_text (chain_state panel.now) track) }
{
    for (number, record) in panel.walk(track) {
        let line = RecordLine {
            track,
            number,
            record,
        };
        writeln!(text, "{line}")?;
    }
    Ok(())
}

// The chains of all three tracks.
pub fn chains(text: &mut String, panel: &Chain) -> Result<(), AllocError>
    ensures { OnOk result (string_bytes text.new ≡ string_bytes text.old ++ chains_text (chain_state panel.now)) }
{
    for track in [Track::Pen, Track::X, Track::Y] {
        records(text, panel, track)?;
    }
    Ok(())
}
