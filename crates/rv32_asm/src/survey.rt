// The first pass: where labels stand, and the address of the first word.
ghost use Rattle.std.specs.Prelude.{◌≡◌, ◌+◌, ◌^◌, ◌<◌, ◌≤◌, ℕ, IfOk, OnOk, option_map};
ghost use Rattle.conda_base.specs.Digits.{number_after};
ghost use Rattle.rv32_asm.specs.Assembled.{label_of, said_of, words_by, next_place};
ghost use Rattle.rv32_asm.specs.Assembled.{address_by, address_of, is_address};
ghost use Rattle.rv32_asm.specs.Reading.{when};
ghost use Rattle.rv32_asm.specs.Views.{said_view, line_view, name_view};
ghost use Rattle.rv32_asm.specs.Labels.{AreLabelsOf, HasAdded};
ghost use Rattle.rv32_asm.specs.Sources.{source_in, address_or, word_in_digits};

use crate::labels::{Labels, add};
use crate::limits::DEFAULT_ADDRESS;
use crate::lines::take_line;
use crate::place::Place;
use crate::reading::read_line;
use crate::statement::{SourceLine, Statement};
use std::alloc::{AllocError, Global};
use std::collections::BTreeMap;

/// Where labels stand in a source, and its first word's address.
#[derive(Drop)]
pub(crate) struct Survey<'a> {
    pub labels: Labels<'a>,
    pub address: u32,
}

pub(crate) fn label_of<'a>(said: Option<SourceLine<'a>>) -> Option<&'a [u8]>
    ensures { option_map name_view result ≡ label_of (option_map line_view said.entry) }
{
    match said {
        None => None,
        Some(line) => line.label,
    }
}

pub(crate) fn statement_of<'a>(said: Option<SourceLine<'a>>) -> Option<Statement<'a>>
    ensures { option_map said_view result ≡ said_of (option_map line_view said.entry) }
{
    match said {
        None => None,
        Some(line) => line.statement,
    }
}

pub(crate) fn words_by(statement: Option<Statement<'_>>) -> u64
    ensures words { result ≡ words_by (option_map said_view statement.entry) }
    ensures few { result ≤ 1 }
{
    match statement {
        Some(Statement::Word(_)) | Some(Statement::Does(_, _)) => 1,
        _ => 0,
    }
}

pub(crate) fn next_place(place: Place, said: Option<SourceLine<'_>>) -> Place
    requires line { place.line + 1 < 2 ^ 64 }
    requires words { place.words + 1 < 2 ^ 64 }
    ensures { result ≡ next_place place (option_map line_view said.entry) }
{
    let statement = statement_of(said);
    Place {
        line: place.line + 1,
        words: place.words + words_by(statement),
        begun: place.begun || statement.is_some(),
    }
}

// The number that digits write, where it is below 2^32.
pub(crate) fn read_word(digits: &[u8]) -> Option<u32>
    ensures { result ≡ word_in_digits digits.now }
{
    let mut number = 0u64;
    for digit in digits {
        number = number * 10 + u64::from(digit.saturating_sub(b'0'));
        if number > 0xffff_ffff {
            return None;
        }
    }
    Some(number as u32)
}

pub(crate) fn read_address(digits: &[u8]) -> Option<u32>
    ensures { result ≡ when (is_address digits.now) (number_after 0 digits.now) }
{
    let address = read_word(digits)?;
    if address % 4 == 0 {
        Some(address)
    } else {
        None
    }
}

// The address that a first statement gives.
fn address_by(statement: Option<Statement<'_>>) -> Option<u32>
    ensures { (later : ℕ)
        → address_or result later ≡ address_by (option_map said_view statement.entry) later }
{
    match statement {
        None => None,
        Some(Statement::At(digits)) => Some(read_address(digits).unwrap_or(DEFAULT_ADDRESS)),
        Some(Statement::Word(_)) | Some(Statement::Does(_, _)) => Some(DEFAULT_ADDRESS),
    }
}

// An address that is known, or that of a first statement.
fn address_after(address: Option<u32>, statement: Option<Statement<'_>>) -> Option<u32>
    ensures { (later : ℕ) → address_or result later
        ≡ address_or address (address_by (option_map said_view statement.entry) later) }
{
    match address {
        None => address_by(statement),
        Some(_) => address,
    }
}

fn add_label<'a>(
    labels: &mut Labels<'a>,
    label: Option<&'a [u8]>,
    place: Place,
) -> Result<(), AllocError>
    ensures { OnOk result (HasAdded (option_map name_view label.entry) place labels.old
        labels.new) }
{
    match label {
        None => Ok(()),
        Some(name) => add(labels, name, place),
    }
}

/// The first pass over a source.
pub(crate) fn survey_of<'a>(alloc: Global, text: &'a [u8]) -> Result<Survey<'a>, AllocError>
    ensures labels { IfOk result (λ s. AreLabelsOf s.labels (source_in text.entry.now)) }
    ensures address { IfOk result (λ s. s.address ≡ address_of (source_in text.entry.now)) }
{
    let mut labels = BTreeMap::new(alloc);
    let mut address = None;
    let mut place = Place {
        line: 1,
        words: 0,
        begun: false,
    };
    let mut rest = text;
    'pass: while !rest.is_empty() {
        let (line, after) = take_line(rest);
        let said = read_line(line);
        add_label(&mut labels, label_of(said), place)?;
        address = address_after(address, statement_of(said));
        place = next_place(place, said);
        rest = after;
    }
    Ok(Survey {
        labels,
        address: address.unwrap_or(DEFAULT_ADDRESS),
    })
}
