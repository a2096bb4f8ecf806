// One line of a schedule.
ghost use Rattle.std.specs.Prelude.{◌≡◌, ◌≤◌, IsTrue, length};
ghost use Rattle.schedule_log.specs.Grammar.{actor_of, has_form, is_actor_letter, is_on_chip, reading, without_return, worded};

use crate::count::read_count;
use conda_base::{Actor, are_digits, is_decimal};

/// The most bytes of a line that may still be a good one.
const MAX_LINE: usize = 32;

/// Why a line is bad.
const SYNTAX: u8 = 1;

const COUNT: u8 = 2;

const NO_SUCH_ACTOR: u8 = 3;

pub(crate) const TOO_LONG: u8 = 4;

/// What a line says.
#[derive(Clone, Copy, Debug, PartialEq, Eq)]
pub enum Reading {
    Blank,
    Events { actor: Actor, count: u32 },
    Bad { why: u8 },
}

/// A bad line's number, counted from 1, and why it is bad.
#[derive(Clone, Copy, Debug, PartialEq, Eq)]
pub struct BadLine {
    pub line: u64,
    pub why: u8,
}

// A line without the one carriage return at its end.
fn trim_return(line: &[u8]) -> &[u8]
    ensures { result.now ≡ without_return line.now }
{
    let len = line.len();
    if len > 0 && line[len - 1] == b'\r' {
        &line[..len - 1]
    } else {
        line
    }
}

fn is_letter(byte: u8) -> bool
    ensures { result ≡ is_actor_letter byte }
{
    byte == b'h' || byte == b'n'
}

fn is_worded(text: &[u8]) -> bool
    ensures form { result ≡ has_form text.now }
    ensures long { IsTrue result → 4 ≤ length text.now }
{
    text.len() >= 4
        && is_letter(text[0])
        && is_decimal(text[1])
        && text[2] == b' '
        && are_digits(&text[3..])
}

fn name_actor(letter: u8, digit: u8) -> Actor
    ensures { result ≡ actor_of letter digit }
{
    let number = digit.saturating_sub(b'0');
    if letter == b'h' {
        Actor::Hart(number)
    } else {
        Actor::Core(number)
    }
}

fn has_actor(harts: u8, cores: u8, actor: Actor) -> bool
    ensures { result ≡ is_on_chip harts cores actor }
{
    match actor {
        Actor::Hart(hart) => hart < harts,
        Actor::Core(core) => core < cores,
    }
}

// What a text with something in it says.
fn read_words(harts: u8, cores: u8, text: &[u8]) -> Reading
    ensures { result ≡ worded harts cores text.now }
{
    if !is_worded(text) {
        return Reading::Bad { why: SYNTAX };
    }
    let actor = name_actor(text[0], text[1]);
    match read_count(&text[3..]) {
        None => Reading::Bad { why: COUNT },
        Some(_) if !has_actor(harts, cores, actor) => Reading::Bad { why: NO_SUCH_ACTOR },
        Some(count) => Reading::Events { actor, count },
    }
}

/// What a line, without its line feed, says to a chip with so many harts and cores.
pub(crate) fn read_whole(harts: u8, cores: u8, line: &[u8]) -> Reading
    ensures { result ≡ reading harts cores line.now }
{
    if line.len() > MAX_LINE {
        return Reading::Bad { why: TOO_LONG };
    }
    let text = trim_return(line);
    if text.is_empty() {
        return Reading::Blank;
    }
    read_words(harts, cores, text)
}
