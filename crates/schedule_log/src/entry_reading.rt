// Lines of an order, read back.
ghost use Rattle.std.specs.Prelude.{◌≡◌, ◌≤◌, Some, IfSome, length};
ghost use Rattle.schedule_log.specs.declared.entry.Entry.{Entry};
ghost use Rattle.schedule_log.specs.Texts.{text_of, IsEntry};
ghost use Rattle.schedule_log.specs.EntryReading.{acts_in, actor_in, cause_in, commit_entry, digit_in, end_after, end_in, entry_in, entry_by, taken_back};

use crate::count::read_count;
use crate::entry::Entry;
use conda_base::Actor;

/// The most harts and cores, and acts of a try, that an order may name.
const HARTS: u8 = 8;

const CORES: u8 = 4;

const MAX_ACTS: u32 = 65_536;

/// The causes of a try's end are the digits below this, without 0.
const CAUSES: u8 = 8;

/// The end of a try: the core, its number of acts, and the cause.
#[derive(Clone, Copy)]
pub struct TryEnd {
    pub core: u8,
    pub acts: u32,
    pub cause: u8,
}

// One digit below a limit, and nothing else.
fn read_digit(text: &[u8], limit: u8) -> Option<u8>
    ensures { result ≡ digit_in limit text.now }
{
    if text.len() == 1 && text[0] >= b'0' && text[0] - b'0' < limit {
        Some(text[0] - b'0')
    } else {
        None
    }
}

fn read_actor(text: &[u8]) -> Option<Actor>
    ensures { result ≡ actor_in text.now }
{
    if text.is_empty() {
        return None;
    }
    match text[0] {
        b'h' => Some(Actor::Hart(read_digit(&text[1..], HARTS)?)),
        b'n' => Some(Actor::Core(read_digit(&text[1..], CORES)?)),
        _ => None,
    }
}

fn read_acts(text: &[u8]) -> Option<u32>
    ensures { result ≡ acts_in text.now }
{
    let acts = read_count(text)?;
    if acts <= MAX_ACTS { Some(acts) } else { None }
}

fn read_cause(text: &[u8]) -> Option<u8>
    ensures { result ≡ cause_in text.now }
{
    let cause = read_digit(text, CAUSES)?;
    if cause >= 1 { Some(cause) } else { None }
}

// Acts, a space and a cause.
fn read_acts_and_cause(core: u8, text: &[u8]) -> Option<TryEnd>
    ensures { result ≡ end_after core text.now }
{
    if text.len() < 2 {
        return None;
    }
    let cut = text.len() - 2;
    if text[cut] != b' ' {
        return None;
    }
    let acts = read_acts(&text[..cut])?;
    let cause = read_cause(&text[cut + 1..])?;
    Some(TryEnd { core, acts, cause })
}

// A core, a space, acts, a space and a cause.
fn read_end(text: &[u8]) -> Option<TryEnd>
    ensures { result ≡ end_in text.now }
{
    if text.len() < 2 || text[1] != b' ' {
        return None;
    }
    let core = read_digit(&text[..1], CORES)?;
    read_acts_and_cause(core, &text[2..])
}

// The entry of a letter and what follows it and a space.
fn read_by(letter: u8, rest: &[u8]) -> Option<Entry>
    ensures { result ≡ entry_by letter rest.now }
{
    match letter {
        b's' => read_digit(rest, HARTS).map(Entry::Step),
        b'w' => read_digit(rest, HARTS).map(Entry::Waits),
        b'-' => read_actor(rest).map(Entry::Idle),
        b'x' => read_actor(rest).map(Entry::Held),
        b'o' => read_digit(rest, CORES).map(Entry::Open),
        b'l' => read_digit(rest, CORES).map(Entry::Lock),
        b'p' => read_digit(rest, CORES).map(Entry::Spec),
        b'c' => read_end(rest).map(|end| Entry::Commit(end.core, end.acts, end.cause)),
        b'r' => read_end(rest).map(|end| Entry::Back(end.core, end.acts, end.cause)),
        b'f' => read_digit(rest, CORES).map(Entry::Flush),
        b'k' => read_digit(rest, CORES).map(Entry::Kern),
        _ => None,
    }
}

/// The entry of a line without its line feed, where its numbers are those of a chip. None where the line is no such
/// entry's text.
pub fn read_entry(line: &[u8]) -> Option<Entry>
    ensures text { IfSome result (λ entry. text_of entry ≡ line.now) }
    ensures in_range { IfSome result IsEntry }
    ensures every { (entry : Entry) → IsEntry entry → text_of entry ≡ line.now
        → result ≡ Some entry }
{
    if line.len() < 2 || line[1] != b' ' {
        return None;
    }
    read_by(line[0], &line[2..])
}
