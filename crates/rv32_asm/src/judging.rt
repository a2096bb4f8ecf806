// The second pass: what is wrong with a line, or its word.
ghost use Rattle.std.specs.Prelude.{◌≡◌, ◌<◌, ◌^◌, ◌∷◌, [], ◌||◌, false, ℤ, Option, List};
ghost use Rattle.std.specs.Prelude.{option_map, option_to_list, IfSome};
ghost use Rattle.std.specs.Option.{is_none};
ghost use Rattle.rv32_decode.specs.Ranges.{FieldsFit};
ghost use Rattle.rv32_asm.specs.Grammar.{IsSaid};
ghost use Rattle.rv32_asm.specs.Views.{line_view, said_view, name_view};
ghost use Rattle.rv32_asm.specs.Assembled.{
  Source,
  amount,
  why_of,
  first_of,
  label_of,
  said_of,
  line_words,
  hex_value,
  hex_after,
  misses,
  instr_word,
  is_out_of_range,
  uses_unknown,
  address_of,
  is_past_the_end,
  has_bad_address,
  is_repeated,
};
ghost use Rattle.rv32_asm.specs.Labels.{AreLabelsOf};
ghost use Rattle.rv32_asm.specs.Integers.{IsAmount, IsAmountOf};

use crate::integer::{Amount, Integer, is_in_range, offset, read_number, with_number};
use crate::labels::{Labels, find};
use crate::limits::MOST_WORDS;
use crate::place::Place;
use crate::reading::is_name;
use crate::statement::{SourceLine, Statement};
use crate::survey::{label_of, read_address, statement_of, words_by};
use rv32_decode::{Instr, encode};

// What is written for an immediate, as a number.
fn read_amount(labels: &Labels<'_>, place: Place, text: &[u8]) -> Amount
    ensures { (source : Source) → AreLabelsOf labels.now source
        → IsAmount result (amount source place text.now) }
{
    if !is_name(text) {
        return read_number(text);
    }
    match find(labels, text) {
        None => Amount::Unknown,
        Some(to) => Amount::Is(offset(place.words, to.words)),
    }
}

/// What a statement's immediate is; of a statement that isn't an instruction nothing is said.
pub(crate) fn amount_of(
    labels: &Labels<'_>,
    place: Place,
    statement: Option<Statement<'_>>,
) -> Amount
    ensures { (source : Source) → AreLabelsOf labels.now source
        → IsAmountOf result source place (option_map said_view statement.entry) }
{
    match statement {
        Some(Statement::Does(_, text)) => read_amount(labels, place, text),
        _ => Amount::Is(Integer::AtLeast0(0)),
    }
}

// A label that stands on an earlier line too.
fn is_repeated(labels: &Labels<'_>, place: Place, label: Option<&[u8]>) -> bool
    ensures { (source : Source) → AreLabelsOf labels.now source
        → result ≡ is_repeated source place (option_map name_view label.entry) }
{
    match label {
        None => false,
        Some(name) => match find(labels, name) {
            None => false,
            Some(first) => first.line != place.line,
        },
    }
}

fn misses(i: Instr, amount: Amount) -> bool
    ensures { (o : Option ℤ) → IsAmount amount o → result ≡ misses i o }
{
    match amount {
        Amount::Unknown => false,
        Amount::Huge => true,
        Amount::Is(n) => !is_in_range(i, n),
    }
}

fn is_out_of_range(statement: Option<Statement<'_>>, amount: Amount) -> bool
    ensures { (source : Source) (p : Place)
        → IsAmountOf amount source p (option_map said_view statement.entry)
        → result ≡ is_out_of_range source p (option_map said_view statement.entry) }
{
    match statement {
        Some(Statement::Does(i, _)) => misses(i, amount),
        _ => false,
    }
}

fn is_unknown(amount: Amount) -> bool
    ensures { (o : Option ℤ) → IsAmount amount o → result ≡ is_none o }
{
    match amount {
        Amount::Unknown => true,
        Amount::Huge | Amount::Is(_) => false,
    }
}

fn uses_unknown(statement: Option<Statement<'_>>, amount: Amount) -> bool
    ensures { (source : Source) (p : Place)
        → IsAmountOf amount source p (option_map said_view statement.entry)
        → result ≡ uses_unknown source p (option_map said_view statement.entry) }
{
    match statement {
        Some(Statement::Does(_, _)) => is_unknown(amount),
        _ => false,
    }
}

fn has_bad_address(place: Place, statement: Option<Statement<'_>>) -> bool
    ensures { result ≡ has_bad_address place (option_map said_view statement.entry) }
{
    match statement {
        Some(Statement::At(digits)) => place.begun || read_address(digits).is_none(),
        _ => false,
    }
}

// A word too many, or one that would end past the last address.
fn is_past_the_end(address: u32, place: Place, statement: Option<Statement<'_>>) -> bool
    ensures { (source : Source) → address ≡ address_of source
        → result ≡ is_past_the_end source place (option_map said_view statement.entry) }
{
    words_by(statement) == 1
        && (place.words >= MOST_WORDS || u64::from(address) + 4 * place.words + 4 > 0x1_0000_0000)
}

// The number of the first cause that stands.
fn first_of(formless: bool, out: bool, label: bool, address: bool, past: bool) -> Option<u8>
    ensures { result ≡ first_of 1 (formless ∷ out ∷ label ∷ address ∷ past ∷ []) }
{
    if formless {
        Some(1)
    } else if out {
        Some(2)
    } else if label {
        Some(3)
    } else if address {
        Some(4)
    } else if past {
        Some(5)
    } else {
        None
    }
}

/// Why a line is bad, if it is.
pub(crate) fn why_of(
    labels: &Labels<'_>,
    address: u32,
    place: Place,
    said: Option<SourceLine<'_>>,
    amount: Amount,
) -> Option<u8>
    ensures { (source : Source) → AreLabelsOf labels.now source → address ≡ address_of source
        → IsAmountOf amount source place (said_of (option_map line_view said.entry))
        → result ≡ why_of source place (option_map line_view said.entry) }
{
    let statement = statement_of(said);
    let out = is_out_of_range(statement, amount);
    let label = is_repeated(labels, place, label_of(said)) || uses_unknown(statement, amount);
    let past = is_past_the_end(address, place, statement);
    first_of(
        said.is_none(),
        out,
        label,
        has_bad_address(place, statement),
        past,
    )
}

fn hex_value(byte: u8) -> u8
    ensures { result ≡ hex_value byte }
{
    if byte <= b'9' {
        byte.saturating_sub(48)
    } else if byte <= b'F' {
        byte.saturating_sub(55)
    } else {
        byte.saturating_sub(87)
    }
}

// The word of hexadecimal digits, where it is below 2^32.
fn read_hex(digits: &[u8]) -> u32
    ensures { hex_after 0 digits.now < 2 ^ 32 → result ≡ hex_after 0 digits.now }
{
    let mut word = 0u64;
    for digit in digits {
        word = word * 16 + u64::from(hex_value(*digit));
        if word > 0xffff_ffff {
            return 0;
        }
    }
    word as u32
}

// The word of an instruction whose number is in range.
#[tactic(auto, using(crate::proofs::FieldLemmas::fields_fit))]
fn instr_word(i: Instr, amount: Amount) -> Option<u32>
    requires { FieldsFit i }
    ensures { (o : Option ℤ) → IsAmount amount o → misses i o ≡ false
        → option_to_list result ≡ instr_word i o }
{
    match amount {
        Amount::Is(n) if is_in_range(i, n) => Some(encode(with_number(i, n))),
        _ => None,
    }
}

/// The word that a good line makes, if any.
#[tactic(auto, using(crate::proofs::HexLemmas::hex_word_small))]
pub(crate) fn line_word(statement: Option<Statement<'_>>, amount: Amount) -> Option<u32>
    requires { IfSome (option_map said_view statement) IsSaid }
    ensures { (source : Source) (p : Place)
        → IsAmountOf amount source p (option_map said_view statement.entry)
        → is_out_of_range source p (option_map said_view statement.entry) ≡ false
        → option_to_list result ≡ line_words source p (option_map said_view statement.entry) }
{
    match statement {
        Some(Statement::Word(digits)) => Some(read_hex(digits)),
        Some(Statement::Does(i, _)) => instr_word(i, amount),
        _ => None,
    }
}
