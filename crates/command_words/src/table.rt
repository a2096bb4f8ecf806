// The options that a command takes.
ghost use Rattle.std.specs.Prelude.{◌≡◌, map, string_bytes};
ghost use Rattle.std.specs.List.{list_all, list_any};
ghost use Rattle.command_words.specs.Options.{are_different, differs, file_values, fits, given, is_file_kind, is_option, is_value, known, names_file, options_of, takes};

use crate::number::number_in;
use crate::options::{FrontOption, front_option};

/// What the value of an option is.
#[derive(Clone, Copy)]
pub enum Kind {
    /// The name of a file.
    File,
    /// A number in this range.
    Number { from: u64, to: u64 },
}

/// An option that a command takes.
#[derive(Clone, Copy)]
pub struct KnownOption {
    pub name: &'static str,
    pub is_needed: bool,
    pub kind: Kind,
}

fn is_value(word: &str) -> bool
    ensures { result ≡ is_value word.now }
{
    match word.as_bytes() {
        [] => false,
        [first, ..] => *first != b'-',
    }
}

fn fits(kind: Kind, value: &str) -> bool
    ensures { result ≡ fits kind value.now }
{
    match kind {
        Kind::File => is_value(value),
        Kind::Number { from, to } => number_in(from, to, value).is_some(),
    }
}

fn takes(candidate: &KnownOption, option: &FrontOption) -> bool
    ensures { result ≡ takes (given option.now) (known candidate.now) }
{
    option.name == candidate.name && fits(candidate.kind, option.value)
}

fn is_option(table: &[KnownOption], option: &FrontOption) -> bool
    ensures { result ≡ is_option (map known table.now) (given option.now) }
{
    for known in table {
        if takes(known, option) {
            return true;
        }
    }
    false
}

/// Each option that the words give is one of the table's.
pub fn are_known(table: &[KnownOption], words: &[String]) -> bool
    ensures { result ≡ list_all (is_option (map known table.now))
        (options_of (map string_bytes words.now)) }
{
    let mut rest = words;
    'options: while let Some(option) = front_option(rest) {
        if !is_option(table, &option) {
            return false;
        }
        rest = option.rest;
    }
    true
}

fn is_file(kind: Kind) -> bool
    ensures { result ≡ is_file_kind kind }
{
    match kind {
        Kind::File => true,
        Kind::Number { .. } => false,
    }
}

// An option with this name names a file.
fn names_file(table: &[KnownOption], name: &str) -> bool
    ensures { result ≡ list_any (names_file name.now) (map known table.now) }
{
    for known in table {
        if name == known.name && is_file(known.kind) {
            return true;
        }
    }
    false
}

// The name differs from all names of files that the words give.
fn differs_from_all(table: &[KnownOption], name: &str, words: &[String]) -> bool
    ensures { result ≡ list_all (differs name.now)
        (file_values (map known table.now) (options_of (map string_bytes words.now))) }
{
    let mut rest = words;
    'options: while let Some(option) = front_option(rest) {
        if names_file(table, option.name) && name == option.value {
            return false;
        }
        rest = option.rest;
    }
    true
}

/// No two options that the words give name one file.
pub fn name_different_files(table: &[KnownOption], words: &[String]) -> bool
    ensures { result ≡ are_different
        (file_values (map known table.now) (options_of (map string_bytes words.now))) }
{
    let mut rest = words;
    'options: while let Some(option) = front_option(rest) {
        if names_file(table, option.name) && !differs_from_all(table, option.value, option.rest) {
            return false;
        }
        rest = option.rest;
    }
    true
}
