// What a reader of a schedule answers.
use conda_base::Actor;

/// What a piece of a schedule brings. `used` is the number of the piece's bytes that were looked at.
#[derive(Clone, Copy, Debug, PartialEq, Eq)]
pub enum Fed {
    /// A line asks for this many events of an actor.
    Events {
        actor: Actor,
        count: u32,
        used: usize,
    },
    /// The piece is used up.
    More {
        used: usize,
    },
    /// The schedule's first bad line, counted from 1. `why` is 1 for another form, 2 for a bad count, 3 for an actor
    /// that the chip hasn't and 4 for a line of more than 32 bytes.
    Bad {
        line: u64,
        why: u8,
    },
}

/// What a schedule's last line, with no line feed, brings.
#[derive(Clone, Copy, Debug, PartialEq, Eq)]
pub enum Last {
    /// There is no such line, or nothing in it.
    Nothing,
    /// It asks for this many events of an actor.
    Events { actor: Actor, count: u32 },
    /// The schedule's first bad line, as `Fed::Bad` gives it.
    Bad { line: u64, why: u8 },
}
