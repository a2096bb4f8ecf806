// What a reader of an order answers.
use schedule_log::Entry;

/// Why a line is bad: it isn't the text of an entry that a chip can have, has more than 32 bytes, or has no line feed.
pub const NO_ENTRY: u8 = 1;

/// What a piece of an order brings. `used` is the number of the piece's bytes that were looked at.
#[derive(Clone, Copy, Debug, PartialEq, Eq)]
pub enum Fed {
    /// A line is this entry's text, whether or not the chip has the hart or core that it names.
    Entry { entry: Entry, used: usize },
    /// The piece is used up.
    More { used: usize },
    /// The order's first bad line, counted from 1. `why` is `NO_ENTRY`.
    Bad { line: u64, why: u8 },
}

/// What an order's end brings.
#[derive(Clone, Copy, Debug, PartialEq, Eq)]
pub enum Last {
    /// Nothing is left.
    Nothing,
    /// The order's first bad line, as `Fed::Bad` gives it. A line with no line feed is one.
    Bad { line: u64, why: u8 },
}
