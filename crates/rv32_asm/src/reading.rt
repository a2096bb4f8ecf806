// Statements, read from the words and marks of a line.
ghost use Rattle.std.specs.Prelude.{◌≡◌, ◌∷◌, [], length, ◌==◌, nat_lt, option_map, IfSome};
ghost use Rattle.std.specs.List.{list_all};
ghost use Rattle.std.specs.Str.{bytes_eq};
ghost use Rattle.rv32_asm.specs.Pieces.{pieces};
ghost use Rattle.rv32_asm.specs.Grammar.{
  is_letter,
  is_name_byte,
  is_name,
  is_number,
  is_hex_digit,
  is_hex_word,
  is_amount,
  IsSaid,
};
ghost use Rattle.rv32_asm.specs.Assembled.{said_of as statement_of};
ghost use Rattle.rv32_asm.specs.Views.{said_view, line_view, name_view};
ghost use Rattle.rv32_asm.specs.Reading.{
  instr_in,
  at_in,
  word_in,
  statement_by,
  statement_in,
  labeled,
  is_label,
  label_name,
  pieces_in,
  line_in,
  register_in,
  take_register,
  take_mark,
  only_piece,
  take_first,
  base_in,
  pair_in,
  triple_in,
  addressed_in,
  atomic_in,
  registers_in,
  operands_in,
  Returns,
};
ghost use Rattle.rv32_dis.specs.declared.mnemonic.Mnemonic.TheVariants as Is;

use crate::cutting::{take_piece, without_comment};
use crate::limits::LONGEST_NAME;
use crate::statement::{SourceLine, Statement};
use conda_base::{is_decimal, is_numeral};
use rv32_decode::{AmoOp, BranchOp, ImmOp, Instr, LoadOp, RegOp, StoreOp};
use rv32_dis::{Mnemonic, named};

fn is_name_byte(byte: u8) -> bool
    ensures { result ≡ is_name_byte byte }
{
    (byte >= b'A' && byte <= b'Z')
        || (byte >= b'a' && byte <= b'z')
        || is_decimal(byte)
        || byte == b'_'
}

fn are_name_bytes(text: &[u8]) -> bool
    ensures { result ≡ list_all is_name_byte text.now }
{
    text.iter().all(|byte| is_name_byte(*byte))
}

fn are_hex_digits(text: &[u8]) -> bool
    ensures { result ≡ list_all is_hex_digit text.now }
{
    text.iter().all(|byte| is_hex_digit(*byte))
}

pub(crate) fn is_name(text: &[u8]) -> bool
    ensures { result ≡ is_name text.now }
{
    !text.is_empty() && text.len() <= LONGEST_NAME && are_name_bytes(text) && !is_decimal(text[0])
}

fn is_number(text: &[u8]) -> bool
    ensures { result ≡ is_number text.now }
{
    if text.is_empty() {
        return false;
    }
    if text[0] == b'-' {
        let digits = &text[1..];
        is_numeral(digits) && digits[0] != b'0'
    } else {
        is_numeral(text)
    }
}

fn is_hex_digit(byte: u8) -> bool
    ensures { result ≡ is_hex_digit byte }
{
    is_decimal(byte) || (byte >= b'A' && byte <= b'F') || (byte >= b'a' && byte <= b'f')
}

fn is_hex_word(text: &[u8]) -> bool
    ensures { result ≡ is_hex_word text.now }
{
    text.len() == 8 && are_hex_digits(text)
}

fn is_amount(i: Instr, text: &[u8]) -> bool
    ensures { result ≡ is_amount i text.now }
{
    match i {
        Instr::Jal { .. } | Instr::Branch { .. } => is_number(text) || is_name(text),
        Instr::Lui { .. }
        | Instr::Auipc { .. }
        | Instr::Jalr { .. }
        | Instr::Load { .. }
        | Instr::Store { .. }
        | Instr::Imm { .. } => is_number(text),
        Instr::Reg { .. } | Instr::Amo { .. } | Instr::Fence | Instr::Ecall | Instr::Ebreak => {
            text.is_empty()
        }
    }
}

fn read_register(text: &[u8]) -> Option<u8>
    ensures { result ≡ register_in text.now }
{
    if text.len() == 2 && text[0] == b'x' && is_decimal(text[1]) {
        return Some(text[1] - b'0');
    }
    if text.len() == 3
        && text[0] == b'x'
        && (text[1] >= b'1' && is_decimal(text[1]))
        && is_decimal(text[2])
    {
        let number = 10 * (text[1] - b'0') + (text[2] - b'0');
        if number < 32 {
            return Some(number);
        }
    }
    None
}

#[tactic(auto, unfolding(crate::specs::Reading::take_register))]
fn take_register(text: &[u8]) -> Option<(u8, &[u8])>
    ensures { Returns (λ x. (x.0, pieces x.1.now)) result (take_register (pieces text.now)) }
{
    let (piece, rest) = take_piece(text)?;
    let register = read_register(piece)?;
    Some((register, rest))
}

#[tactic(auto, unfolding(crate::specs::Reading::take_mark))]
fn take_mark(mark: u8, text: &[u8]) -> Option<&[u8]>
    ensures { Returns (λ x. pieces x.now) result (take_mark mark (pieces text.now)) }
{
    let (piece, rest) = take_piece(text)?;
    if piece == [mark].as_slice() {
        Some(rest)
    } else {
        None
    }
}

fn is_end(text: &[u8]) -> bool
    ensures { result ≡ (length (pieces text.now) == 0) }
{
    take_piece(text).is_none()
}

#[tactic(auto, unfolding(crate::specs::Reading::only_piece))]
fn only_piece(text: &[u8]) -> Option<&[u8]>
    ensures { Returns (λ x. x.now) result (only_piece (pieces text.now)) }
{
    let (piece, rest) = take_piece(text)?;
    if is_end(rest) { Some(piece) } else { None }
}

#[tactic(auto, unfolding(crate::specs::Reading::take_first))]
fn take_first(text: &[u8]) -> Option<(u8, &[u8])>
    ensures { Returns (λ x. (x.0, pieces x.1.now)) result (take_first (pieces text.now)) }
{
    let (register, rest) = take_register(text)?;
    let rest = take_mark(b',', rest)?;
    Some((register, rest))
}

#[tactic(auto, unfolding(crate::specs::Reading::base_in))]
fn read_base(text: &[u8]) -> Option<u8>
    ensures { result ≡ base_in (pieces text.now) }
{
    let rest = take_mark(b'(', text)?;
    let (register, rest) = take_register(rest)?;
    let rest = take_mark(b')', rest)?;
    if is_end(rest) { Some(register) } else { None }
}

#[tactic(auto, unfolding(crate::specs::Reading::pair_in))]
fn read_pair(text: &[u8]) -> Option<(u8, &[u8])>
    ensures { Returns (λ x. (x.0, x.1.now)) result (pair_in (pieces text.now)) }
{
    let (r, rest) = take_first(text)?;
    let number = only_piece(rest)?;
    Some((r, number))
}

#[tactic(auto, unfolding(crate::specs::Reading::triple_in))]
fn read_triple(text: &[u8]) -> Option<(u8, u8, &[u8])>
    ensures { Returns (λ x. (x.0, x.1, x.2.now)) result (triple_in (pieces text.now)) }
{
    let (r, rest) = take_first(text)?;
    let (s, rest) = take_first(rest)?;
    let last = only_piece(rest)?;
    Some((r, s, last))
}

#[tactic(auto, unfolding(crate::specs::Reading::addressed_in))]
fn read_addressed(text: &[u8]) -> Option<(u8, &[u8], u8)>
    ensures { Returns (λ x. (x.0, x.1.now, x.2)) result (addressed_in (pieces text.now)) }
{
    let (r, rest) = take_first(text)?;
    let (number, rest) = take_piece(rest)?;
    let base = read_base(rest)?;
    Some((r, number, base))
}

#[tactic(auto, unfolding(crate::specs::Reading::atomic_in))]
fn read_atomic(text: &[u8]) -> Option<(u8, u8, u8)>
    ensures { result ≡ atomic_in (pieces text.now) }
{
    let (r, rest) = take_first(text)?;
    let (s, rest) = take_first(rest)?;
    let base = read_base(rest)?;
    Some((r, s, base))
}

#[tactic(auto, unfolding(crate::specs::Reading::registers_in))]
fn read_registers(text: &[u8]) -> Option<(u8, u8, u8)>
    ensures { result ≡ registers_in (pieces text.now) }
{
    let (r, s, last) = read_triple(text)?;
    let t = read_register(last)?;
    Some((r, s, t))
}

#[tactic(auto, unfolding(crate::specs::Reading::operands_in))]
fn read_branch(op: BranchOp, text: &[u8]) -> Option<(Instr, &[u8])>
    ensures { Returns (λ x. (x.0, x.1.now)) result (operands_in (Is.Branch op) (pieces text.now)) }
{
    let (rs1, rs2, number) = read_triple(text)?;
    Some((
        Instr::Branch {
            op,
            rs1,
            rs2,
            imm: 0,
        },
        number,
    ))
}

#[tactic(auto, unfolding(crate::specs::Reading::operands_in))]
fn read_load(op: LoadOp, text: &[u8]) -> Option<(Instr, &[u8])>
    ensures { Returns (λ x. (x.0, x.1.now)) result (operands_in (Is.Load op) (pieces text.now)) }
{
    let (rd, number, rs1) = read_addressed(text)?;
    Some((
        Instr::Load {
            op,
            rd,
            rs1,
            imm: 0,
        },
        number,
    ))
}

#[tactic(auto, unfolding(crate::specs::Reading::operands_in))]
fn read_store(op: StoreOp, text: &[u8]) -> Option<(Instr, &[u8])>
    ensures { Returns (λ x. (x.0, x.1.now)) result (operands_in (Is.Store op) (pieces text.now)) }
{
    let (rs2, number, rs1) = read_addressed(text)?;
    Some((
        Instr::Store {
            op,
            rs1,
            rs2,
            imm: 0,
        },
        number,
    ))
}

#[tactic(auto, unfolding(crate::specs::Reading::operands_in))]
fn read_imm(op: ImmOp, text: &[u8]) -> Option<(Instr, &[u8])>
    ensures { Returns (λ x. (x.0, x.1.now)) result (operands_in (Is.Imm op) (pieces text.now)) }
{
    let (rd, rs1, number) = read_triple(text)?;
    Some((
        Instr::Imm {
            op,
            rd,
            rs1,
            imm: 0,
        },
        number,
    ))
}

#[tactic(auto, unfolding(crate::specs::Reading::operands_in))]
fn read_reg(op: RegOp, text: &[u8]) -> Option<(Instr, &[u8])>
    ensures { Returns (λ x. (x.0, x.1.now)) result (operands_in (Is.Reg op) (pieces text.now)) }
{
    let (rd, rs1, rs2) = read_registers(text)?;
    Some((Instr::Reg { op, rd, rs1, rs2 }, b""))
}

#[tactic(auto, unfolding(crate::specs::Reading::operands_in))]
fn read_amo(op: AmoOp, aq: bool, rl: bool, text: &[u8]) -> Option<(Instr, &[u8])>
    ensures { Returns (λ x. (x.0, x.1.now)) result
        (operands_in (Is.Amo op aq rl) (pieces text.now)) }
{
    let (rd, rs2, rs1) = read_atomic(text)?;
    Some((
        Instr::Amo {
            op,
            aq,
            rl,
            rd,
            rs1,
            rs2,
        },
        b"",
    ))
}

#[tactic(auto, unfolding(crate::specs::Reading::operands_in))]
fn read_operands(m: Mnemonic, text: &[u8]) -> Option<(Instr, &[u8])>
    ensures { Returns (λ x. (x.0, x.1.now)) result (operands_in m (pieces text.now)) }
{
    match m {
        Mnemonic::Lui => {
            let (rd, number) = read_pair(text)?;
            Some((Instr::Lui { rd, imm: 0 }, number))
        }
        Mnemonic::Auipc => {
            let (rd, number) = read_pair(text)?;
            Some((Instr::Auipc { rd, imm: 0 }, number))
        }
        Mnemonic::Jal => {
            let (rd, number) = read_pair(text)?;
            Some((Instr::Jal { rd, imm: 0 }, number))
        }
        Mnemonic::Jalr => {
            let (rd, number, rs1) = read_addressed(text)?;
            Some((Instr::Jalr { rd, rs1, imm: 0 }, number))
        }
        Mnemonic::Branch(op) => read_branch(op, text),
        Mnemonic::Load(op) => read_load(op, text),
        Mnemonic::Store(op) => read_store(op, text),
        Mnemonic::Imm(op) => read_imm(op, text),
        Mnemonic::Reg(op) => read_reg(op, text),
        Mnemonic::Amo { op, aq, rl } => read_amo(op, aq, rl, text),
        Mnemonic::Fence if is_end(text) => Some((Instr::Fence, b"")),
        Mnemonic::Ecall if is_end(text) => Some((Instr::Ecall, b"")),
        Mnemonic::Ebreak if is_end(text) => Some((Instr::Ebreak, b"")),
        _ => None,
    }
}

#[tactic(auto, unfolding(crate::specs::Reading::instr_in))]
fn read_instr(m: Mnemonic, text: &[u8]) -> Option<Statement<'_>>
    ensures { Returns said_view result (instr_in m (pieces text.now)) }
{
    let (i, number) = read_operands(m, text)?;
    if is_amount(i, number) {
        Some(Statement::Does(i, number))
    } else {
        None
    }
}

#[tactic(auto, unfolding(crate::specs::Reading::at_in))]
fn read_at(text: &[u8]) -> Option<Statement<'_>>
    ensures { Returns said_view result (at_in (pieces text.now)) }
{
    let number = only_piece(text)?;
    if is_numeral(number) {
        Some(Statement::At(number))
    } else {
        None
    }
}

#[tactic(auto, unfolding(crate::specs::Reading::word_in))]
fn read_word(text: &[u8]) -> Option<Statement<'_>>
    ensures { Returns said_view result (word_in (pieces text.now)) }
{
    let word = only_piece(text)?;
    if word.len() < 2 {
        return None;
    }
    let (front, digits) = word.split_at(2);
    if front == b"0x".as_slice() && is_hex_word(digits) {
        Some(Statement::Word(digits))
    } else {
        None
    }
}

#[tactic(auto, unfolding(crate::specs::Reading::statement_by))]
fn read_said<'a>(first: &[u8], rest: &'a [u8]) -> Option<Statement<'a>>
    ensures { Returns said_view result (statement_by first.now (pieces rest.now)) }
{
    if first == b".at".as_slice() {
        return read_at(rest);
    }
    if first == b".word".as_slice() {
        return read_word(rest);
    }
    let mnemonic = named(first)?;
    read_instr(mnemonic, rest)
}

// A word that ends in a colon.
fn is_label(piece: &[u8]) -> bool
    ensures { result ≡ is_label piece.now }
{
    !piece.is_empty() && piece[piece.len() - 1] == b':'
}

// Nothing, or a statement.
#[tactic(auto, unfolding(crate::specs::Reading::statement_in))]
fn read_statement(text: &[u8]) -> Option<Option<Statement<'_>>>
    ensures { Returns (λ x. option_map said_view x) result (statement_in (pieces text.now)) }
{
    match take_piece(text) {
        None => Some(None),
        Some((first, rest)) => {
            let said = read_said(first, rest)?;
            Some(Some(said))
        }
    }
}

fn read_labeled<'a>(label: Option<&'a [u8]>, text: &'a [u8]) -> Option<SourceLine<'a>>
    ensures { Returns line_view result
        (labeled (option_map name_view label.entry) (pieces text.now)) }
{
    let statement = read_statement(text)?;
    Some(SourceLine { label, statement })
}

#[tactic(auto, unfolding(crate::specs::Reading::pieces_in))]
fn read_pieces(text: &[u8]) -> Option<SourceLine<'_>>
    ensures { Returns line_view result (pieces_in (pieces text.now)) }
{
    match take_piece(text) {
        None => Some(SourceLine {
            label: None,
            statement: None,
        }),
        Some((first, rest)) if is_label(first) => {
            let name = &first[..first.len() - 1];
            if is_name(name) {
                read_labeled(Some(name), rest)
            } else {
                None
            }
        }
        Some(_) => read_labeled(None, text),
    }
}

fn is_ascii(line: &[u8]) -> bool
    ensures { result ≡ list_all (λ byte. nat_lt byte 128) line.now }
{
    line.iter().all(|byte| *byte < 128)
}

/// What a line says, and none where it isn't of the form.
pub(crate) fn read_line(line: &[u8]) -> Option<SourceLine<'_>>
    ensures value { option_map line_view result ≡ line_in line.now }
    ensures fits { IfSome (statement_of (line_in line.now)) IsSaid }
{
    if is_ascii(line) {
        read_pieces(without_comment(line))
    } else {
        None
    }
}
