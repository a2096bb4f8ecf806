// Instructions and words as text.
ghost use Rattle.std.specs.Prelude.{◌≡◌, ◌+◌, ◌/◌, ◌≤◌, ◌<◌, [], ◌∷◌, ◌++◌, length, codes};
ghost use Rattle.std.specs.List.{concat};
ghost use Rattle.std.specs.Fmt.{decimal};
ghost use Rattle.arrayvec.specs.ArrayVec.{array_vec_len};
ghost use Rattle.rv32_decode.specs.Ranges.{FieldsFit};
ghost use Rattle.rv32_dis.specs.Mnemonics.{mnemonic_of, name_of};
ghost use Rattle.rv32_dis.specs.Texts.{register, signed_text, pair, triple, addressed, atomic, instr_text, raw_text, word_line};

use crate::mnemonic::Mnemonic;
use arrayvec::ArrayVec;
use conda_base::{push_bytes, push_decimal, word_digits};
use rv32_decode::{Instr, decode, encode};

/// A line of a disassembled program.
pub type Line = ArrayVec<u8, 48>;

#[tactic(auto, using(conda_base::proofs::DecimalLemmas::length_decimal_byte))]
fn push_register(out: &mut Line, r: u8)
    requires { array_vec_len out.old + 4 ≤ 48 }
    ensures text { out.new.items ≡ out.old.items ++ register r }
    ensures fits { array_vec_len out.new ≤ array_vec_len out.old + 4 }
{
    out.push(b'x');
    push_decimal(out, u64::from(r));
}

// A word of two's complement as a number.
#[tactic(auto, using(conda_base::proofs::DecimalLemmas::length_decimal_word))]
fn push_signed(out: &mut Line, word: u32)
    requires { array_vec_len out.old + 11 ≤ 48 }
    ensures text { out.new.items ≡ out.old.items ++ signed_text word }
    ensures fits { array_vec_len out.new ≤ array_vec_len out.old + 11 }
{
    if word < 0x8000_0000 {
        push_decimal(out, u64::from(word));
    } else {
        out.push(b'-');
        push_decimal(out, 0x1_0000_0000 - u64::from(word));
    }
}

#[tactic(auto, using(conda_base::proofs::DecimalLemmas::length_decimal_word))]
fn push_upper(out: &mut Line, word: u32)
    requires { array_vec_len out.old + 11 ≤ 48 }
    ensures text { out.new.items ≡ out.old.items ++ decimal (word / 4096) }
    ensures fits { array_vec_len out.new ≤ array_vec_len out.old + 11 }
{
    push_decimal(out, u64::from(word / 4096));
}

// A register and a comma.
fn push_first(out: &mut Line, r: u8)
    requires { array_vec_len out.old + 5 ≤ 48 }
    ensures text { out.new.items ≡ out.old.items ++ (register r ++ codes ",") }
    ensures fits { array_vec_len out.new ≤ array_vec_len out.old + 5 }
{
    push_register(out, r);
    out.push(b',');
}

// A register in parentheses.
fn push_base(out: &mut Line, r: u8)
    requires { array_vec_len out.old + 6 ≤ 48 }
    ensures text { out.new.items ≡ out.old.items ++ (codes "(" ++ register r ++ codes ")") }
    ensures fits { array_vec_len out.new ≤ array_vec_len out.old + 6 }
{
    out.push(b'(');
    push_register(out, r);
    out.push(b')');
}

fn push_addressed(out: &mut Line, r: u8, imm: u32, base: u8)
    requires { array_vec_len out.old + 22 ≤ 48 }
    ensures text { out.new.items ≡ out.old.items ++ concat (addressed r (signed_text imm) base) }
    ensures fits { array_vec_len out.new ≤ array_vec_len out.old + 22 }
{
    push_first(out, r);
    push_signed(out, imm);
    push_base(out, base);
}

fn push_triple(out: &mut Line, r: u8, s: u8, imm: u32)
    requires { array_vec_len out.old + 21 ≤ 48 }
    ensures text { out.new.items ≡ out.old.items ++ concat (triple r s (signed_text imm)) }
    ensures fits { array_vec_len out.new ≤ array_vec_len out.old + 21 }
{
    push_first(out, r);
    push_first(out, s);
    push_signed(out, imm);
}

fn push_registers(out: &mut Line, r: u8, s: u8, t: u8)
    requires { array_vec_len out.old + 14 ≤ 48 }
    ensures text { out.new.items ≡ out.old.items ++ concat (triple r s (register t)) }
    ensures fits { array_vec_len out.new ≤ array_vec_len out.old + 14 }
{
    push_first(out, r);
    push_first(out, s);
    push_register(out, t);
}

fn push_atomic(out: &mut Line, r: u8, s: u8, base: u8)
    requires { array_vec_len out.old + 16 ≤ 48 }
    ensures text { out.new.items ≡ out.old.items ++ concat (atomic r s base) }
    ensures fits { array_vec_len out.new ≤ array_vec_len out.old + 16 }
{
    push_first(out, r);
    push_first(out, s);
    push_base(out, base);
}

fn push_jump(out: &mut Line, r: u8, imm: u32)
    requires { array_vec_len out.old + 16 ≤ 48 }
    ensures text { out.new.items ≡ out.old.items ++ concat (pair r (signed_text imm)) }
    ensures fits { array_vec_len out.new ≤ array_vec_len out.old + 16 }
{
    push_first(out, r);
    push_signed(out, imm);
}

fn push_page(out: &mut Line, r: u8, imm: u32)
    requires { array_vec_len out.old + 16 ≤ 48 }
    ensures text { out.new.items ≡ out.old.items ++ concat (pair r (decimal (imm / 4096))) }
    ensures fits { array_vec_len out.new ≤ array_vec_len out.old + 16 }
{
    push_first(out, r);
    push_upper(out, imm);
}

// The name.
fn push_name(out: &mut Line, i: Instr)
    requires { out.old.items ≡ [] }
    ensures text { out.new.items ≡ name_of (mnemonic_of i) }
    ensures fits { array_vec_len out.new ≤ 14 }
{
    let mnemonic = Mnemonic::of(i);
    push_bytes(out, mnemonic.stem());
    push_bytes(out, mnemonic.ending());
}

/// An instruction's text, in an empty buffer.
#[tactic(auto, unfolding(crate::specs::Texts::instr_text))]
pub fn instr_text(i: Instr, out: &mut Line)
    requires { out.old.items ≡ [] }
    ensures text { out.new.items ≡ instr_text i }
    ensures fits { array_vec_len out.new ≤ 40 }
{
    push_name(out, i);
    match i {
        Instr::Fence | Instr::Ecall | Instr::Ebreak => return,
        _ => out.push(b' '),
    }
    match i {
        Instr::Lui { rd, imm } | Instr::Auipc { rd, imm } => push_page(out, rd, imm),
        Instr::Jal { rd, imm } => push_jump(out, rd, imm),
        Instr::Jalr { rd, rs1, imm } => push_addressed(out, rd, imm, rs1),
        Instr::Branch { rs1, rs2, imm, .. } => push_triple(out, rs1, rs2, imm),
        Instr::Load { rd, rs1, imm, .. } => push_addressed(out, rd, imm, rs1),
        Instr::Store { rs1, rs2, imm, .. } => push_addressed(out, rs2, imm, rs1),
        Instr::Imm { rd, rs1, imm, .. } => push_triple(out, rd, rs1, imm),
        Instr::Reg { rd, rs1, rs2, .. } => push_registers(out, rd, rs1, rs2),
        Instr::Amo { rd, rs1, rs2, .. } => push_atomic(out, rd, rs2, rs1),
        Instr::Fence | Instr::Ecall | Instr::Ebreak => {}
    }
}

fn raw_text(word: u32, out: &mut Line)
    requires { out.old.items ≡ [] }
    ensures { out.new.items ≡ raw_text word }
{
    push_bytes(out, b".word 0x");
    push_bytes(out, &word_digits(word));
}

/// A word as a line of a disassembled program, without its line feed, in an empty buffer.
pub fn word_text(word: u32, out: &mut ArrayVec<u8, 48>)
    requires { out.old.items ≡ [] }
    ensures { out.new.items ≡ word_line word }
{
    match decode(word) {
        Some(i) if encode(i) == word => instr_text(i, out),
        _ => raw_text(word, out),
    }
}
