// The three chains of a plot by name, and the ports that are recorded on them.
ghost use Rattle.std.specs.Prelude.{◌≡◌, ◌<◌, Some};
ghost use Rattle.panel.specs.Tracks.{track_name, track_number, track_of};

use std::fmt;

#[derive(Clone, Copy, Debug, PartialEq, Eq)]
pub enum Track {
    Pen = 0,
    X = 1,
    Y = 2,
}

impl Track {
    // The track that a port is recorded on, if it is on one.
    pub fn of_port(port: u16) -> Option<Track>
        ensures { result ≡ track_of port }
    {
        match port % 256 {
            0x80 => Some(Track::Pen),
            0x81 => Some(Track::X),
            0x82 => Some(Track::Y),
            _ => None,
        }
    }

    // Its place among the three.
    pub fn number(self) -> usize
        ensures value { result ≡ track_number self }
        ensures bound { result < 3 }
    {
        self as usize
    }
}

impl fmt::Display for Track {
    ghost output = { λ t. Some (track_name t) };

    fn fmt<W: fmt::Write>(&self, f: &mut fmt::Formatter<W>) -> fmt::Result {
        f.write_str(match self {
            Track::Pen => "pen",
            Track::X => "x",
            Track::Y => "y",
        })
    }
}
