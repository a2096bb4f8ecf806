// What moved a line, and for whom.
ghost use Rattle.std.specs.Prelude.{◌≡◌, ◌<◌};
ghost use Rattle.traffic_trace.specs.Notes.{place_of};

use conda_base::Line;

/// What happened to a line.
#[derive(Clone, Copy, Debug, PartialEq, Eq)]
pub enum Kind {
    /// A hart's cache took the line from memory.
    Fill,
    /// A hart's cache wrote the line back to memory.
    Back,
    /// A hart's cache kept the line for reads alone.
    Down,
    /// A hart's cache lost the line to another's store or to a commit.
    Drop,
    /// A hart's cache lost the line to another line of its set.
    Evict,
    /// A core's cache took memory's copy of the line.
    CoreFill,
    /// A core's commit put its bytes of the line into memory.
    Merge,
}

/// A note of traffic. `who` is a hart, or a core for a `CoreFill` and a `Merge`.
#[derive(Clone, Copy, Debug, PartialEq, Eq)]
pub struct Note {
    pub kind: Kind,
    pub who: u8,
    pub line: Line,
}

impl Kind {
    // The kind's place among the totals.
    pub(crate) fn place(self) -> usize
        ensures place { result ≡ place_of self }
        ensures within { result < 7 }
    {
        match self {
            Kind::Fill => 0,
            Kind::Back => 1,
            Kind::Down => 2,
            Kind::Drop => 3,
            Kind::Evict => 4,
            Kind::CoreFill => 5,
            Kind::Merge => 6,
        }
    }
}
