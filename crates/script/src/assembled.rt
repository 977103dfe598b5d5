// A script, once it is read.
ghost use Rattle.script.specs.Shown.{Reads, draft_of, shown};
ghost use Rattle.script.specs.Script.{finished, lines_of, script_of};
ghost use Rattle.std.specs.Prelude.{◌≡◌, ◌≢◌, ◌∷◌, []};

use crate::draft::Draft;
use crate::entry::Entry;
use crate::lines::first_line;
use crate::plan::PanelKind;
use crate::put::Put;
use crate::setup::Setup;
use crate::wrong::{BadLine, Refused, Untaken, Wrong};
use plugs::entry::{Page, PatchEntry};
use std::alloc::Global;

#[derive(Drop)]
pub struct Script {
    pub rom: u32,
    pub ram: u32,
    // into the first board, as which the second begins
    pub puts: Vec<Put>,
    // into the second board alone, if there is one
    pub second: Option<Vec<Put>>,
    pub protect: Vec<Page>,
    pub patch: Vec<PatchEntry>,
    pub panel: PanelKind,
    pub log: Vec<Entry>,
}

// What the lines say, at the text's end; the number is that of the line behind the last.
fn finish(draft: Draft, line: usize) -> Result<Script, Refused>
    ensures { Reads shown result (finished line (draft_of draft)) }
{
    let Draft { setup, log } = draft;
    let Some(log) = log else {
        return Err(Refused::BadLine(BadLine {
            line,
            wrong: Wrong::NoMake,
        }));
    };
    let rom = setup.boards.rom_bytes();
    let ram = setup.boards.ram_bytes();
    let Setup {
        boards,
        protect,
        patch,
        plan,
    } = setup;
    Ok(Script {
        rom,
        ram,
        puts: boards.puts,
        second: boards.second,
        protect,
        patch,
        panel: plan.panel,
        log,
    })
}

// The script of a text, or the first line that is wrong.
pub fn parse(heap: Global, text: &[u8]) -> Result<Script, Refused>
    ensures { Reads shown result (script_of text.now) }
{
    let mut draft = Draft::new(heap);
    let mut rest = text;
    let mut line = 0;
    while !rest.is_empty() {
        let (first, behind) = first_line(rest);
        line += 1;
        match draft.take_line(heap, line, first) {
            Ok(()) => {}
            Err(Untaken::Wrong(wrong)) => return Err(Refused::BadLine(BadLine { line, wrong })),
            Err(Untaken::NoMemory) => return Err(Refused::NoMemory),
        }
        rest = behind;
    }
    finish(draft, line + 1)
}
