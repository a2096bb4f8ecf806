// Numbers and offsets.
ghost use Rattle.std.specs.Prelude.{◌≡◌, ◌+◌, ◌*◌, ◌<◌, ◌^◌, ℕ, IsTrue, Some, not};
ghost use Rattle.rv32_decode.specs.Ranges.{FieldsFit};
ghost use Rattle.rv32_asm.specs.Grammar.{with_imm};
ghost use Rattle.rv32_asm.specs.Assembled.{written_number, offset, in_signed, in_unsigned, is_even, is_in_range, imm_by, complement};
ghost use Rattle.rv32_asm.specs.Integers.{integer_view, IsAmount};

use crate::survey::read_word;
use rv32_decode::{ImmOp, Instr};

/// A number: n, or -n - 1.
#[derive(Clone, Copy)]
pub enum Integer {
    AtLeast0(u128),
    Below0(u128),
}

/// What is written for an immediate: a label that no line has, a number that no field takes, or this number.
#[derive(Clone, Copy)]
pub enum Amount {
    Unknown,
    Huge,
    Is(Integer),
}

/// How far it is from one word to another, by the words before them.
pub(crate) fn offset(from: u64, to: u64) -> Integer
    ensures { (at : ℕ) → integer_view result ≡ offset (at + 4 * from) (at + 4 * to) }
{
    if from <= to {
        Integer::AtLeast0(4 * u128::from(to - from))
    } else {
        Integer::Below0(4 * u128::from(from - to) - 1)
    }
}

/// A number as it is written.
pub(crate) fn read_number(text: &[u8]) -> Amount
    ensures { IsAmount result (Some (written_number text.now)) }
{
    if text.is_empty() {
        return Amount::Is(Integer::AtLeast0(0));
    }
    if text[0] == b'-' {
        match read_word(&text[1..]) {
            None => Amount::Huge,
            Some(n) => Amount::Is(Integer::Below0(u128::from(n.saturating_sub(1)))),
        }
    } else {
        match read_word(text) {
            None => Amount::Huge,
            Some(n) => Amount::Is(Integer::AtLeast0(u128::from(n))),
        }
    }
}

fn in_signed(sign: u32, n: Integer) -> bool
    ensures { result ≡ in_signed sign (integer_view n) }
{
    match n {
        Integer::AtLeast0(n) | Integer::Below0(n) => n < u128::from(sign),
    }
}

fn in_unsigned(limit: u32, n: Integer) -> bool
    ensures { result ≡ in_unsigned limit (integer_view n) }
{
    match n {
        Integer::AtLeast0(n) => n < u128::from(limit),
        Integer::Below0(_) => false,
    }
}

fn is_even(n: Integer) -> bool
    ensures { result ≡ is_even (integer_view n) }
{
    match n {
        Integer::AtLeast0(n) => n % 2 == 0,
        Integer::Below0(n) => n % 2 == 1,
    }
}

/// The number is in the range of the instruction's field.
pub(crate) fn is_in_range(i: Instr, n: Integer) -> bool
    ensures { result ≡ is_in_range i (integer_view n) }
{
    match i {
        Instr::Lui { .. } | Instr::Auipc { .. } => in_unsigned(1_048_576, n),
        Instr::Jal { .. } => in_signed(1_048_576, n) && is_even(n),
        Instr::Branch { .. } => in_signed(4096, n) && is_even(n),
        Instr::Jalr { .. } | Instr::Load { .. } | Instr::Store { .. } => in_signed(2048, n),
        Instr::Imm { op, .. } => match op {
            ImmOp::Slli | ImmOp::Srli | ImmOp::Srai => in_unsigned(32, n),
            _ => in_signed(2048, n),
        },
        Instr::Reg { .. } | Instr::Amo { .. } | Instr::Fence | Instr::Ecall | Instr::Ebreak => {
            in_unsigned(1, n)
        }
    }
}

fn complement(n: Integer) -> u32
    requires { IsTrue (in_signed (2 ^ 31) (integer_view n)) }
    ensures { result ≡ complement (integer_view n) }
{
    match n {
        Integer::AtLeast0(n) => n as u32,
        Integer::Below0(n) => 0xffff_ffff - n as u32,
    }
}

/// An instruction with its immediate.
pub(crate) fn with_number(i: Instr, n: Integer) -> Instr
    requires { IsTrue (is_in_range i (integer_view n)) }
    ensures { result ≡ with_imm i (imm_by i (integer_view n)) }
{
    let imm = complement(n);
    match i {
        Instr::Lui { rd, .. } => Instr::Lui {
            rd,
            imm: imm * 4096,
        },
        Instr::Auipc { rd, .. } => Instr::Auipc {
            rd,
            imm: imm * 4096,
        },
        Instr::Jal { rd, .. } => Instr::Jal { rd, imm },
        Instr::Jalr { rd, rs1, .. } => Instr::Jalr { rd, rs1, imm },
        Instr::Branch { op, rs1, rs2, .. } => Instr::Branch { op, rs1, rs2, imm },
        Instr::Load { op, rd, rs1, .. } => Instr::Load { op, rd, rs1, imm },
        Instr::Store { op, rs1, rs2, .. } => Instr::Store { op, rs1, rs2, imm },
        Instr::Imm { op, rd, rs1, .. } => Instr::Imm { op, rd, rs1, imm },
        Instr::Reg { .. } | Instr::Amo { .. } | Instr::Fence | Instr::Ecall | Instr::Ebreak => i,
    }
}
