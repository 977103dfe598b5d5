// The line of a record: its chain, its number, what was written, and the number of the next record.
ghost use Rattle.plot.specs.Lines.{record_line};
ghost use Rattle.std.specs.Prelude.{Some};

use panel::record::Record;
use panel::track::Track;
use std::fmt;

#[derive(Clone, Copy)]
pub struct RecordLine {
    pub track: Track,
    pub number: u16,
    pub record: Record,
}

impl fmt::Display for RecordLine {
    ghost output = { λ l. Some (record_line l.track l.number l.record) };

    #[tactic(auto, using(text::proofs::Written::printed), unfolding(crate::specs::Lines::record_line))]
    fn fmt<W: fmt::Write>(&self, f: &mut fmt::Formatter<W>) -> fmt::Result {
        let track = self.track;
        let number = self.number;
        let port = self.record.port;
        let byte = self.record.byte;
        let next = self.record.next;
        write!(f, "{track} {number} {port:04X} {byte:02X} {next}")
    }
}
