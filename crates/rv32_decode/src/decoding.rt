// Words as instructions.
ghost use Rattle.std.specs.Prelude.{◌≡◌, ◌≢◌, IfSome};
ghost use Rattle.rv32_decode.specs.Ranges.{FieldsFit};
ghost use Rattle.rv32_decode.specs.Encoding.{encoded};
ghost use Rattle.rv32_decode.specs.Decoding.{decoded, branch_of, load_of, store_of, imm_of, reg_of, amo_of, system_of};

use crate::fields::{
    aq, funct3, funct7, imm_b, imm_i, imm_j, imm_s, imm_u, opcode, rd, rl, rs1, rs2,
};
use crate::instr::Instr;
use crate::tables::{amo_op, branch_op, imm_op, load_op, reg_op, shift_op, store_op};

/// The instruction that a word holds, or none where no row of the instruction tables matches it.
///
/// Of a FENCE only the opcode and funct3 are looked at. Every other instruction gives its word back
/// by `encode`.
pub fn decode(word: u32) -> Option<Instr>
    ensures value { result ≡ decoded word }
    ensures fields { IfSome result FieldsFit }
    ensures back { IfSome result (λ i. i ≢ Instr.Fence → encoded i ≡ word) }
{
    by_opcode(word)
}

#[tactic(auto, unfolding(crate::specs::Decoding::decoded))]
fn by_opcode(word: u32) -> Option<Instr>
    ensures { result ≡ decoded word }
{
    match opcode(word) {
        0b0110111 => Some(Instr::Lui {
            rd: rd(word),
            imm: imm_u(word),
        }),
        0b0010111 => Some(Instr::Auipc {
            rd: rd(word),
            imm: imm_u(word),
        }),
        0b1101111 => Some(Instr::Jal {
            rd: rd(word),
            imm: imm_j(word),
        }),
        0b1100111 if funct3(word) == 0 => Some(Instr::Jalr {
            rd: rd(word),
            rs1: rs1(word),
            imm: imm_i(word),
        }),
        0b1100011 => decode_branch(word),
        0b0000011 => decode_load(word),
        0b0100011 => decode_store(word),
        0b0010011 => decode_imm(word),
        0b0110011 => decode_reg(word),
        0b0001111 if funct3(word) == 0 => Some(Instr::Fence),
        0b0101111 => decode_amo(word),
        0b1110011 => decode_system(word),
        _ => None,
    }
}

fn decode_branch(word: u32) -> Option<Instr>
    ensures { result ≡ branch_of word }
{
    Some(Instr::Branch {
        op: branch_op(funct3(word))?,
        rs1: rs1(word),
        rs2: rs2(word),
        imm: imm_b(word),
    })
}

fn decode_load(word: u32) -> Option<Instr>
    ensures { result ≡ load_of word }
{
    Some(Instr::Load {
        op: load_op(funct3(word))?,
        rd: rd(word),
        rs1: rs1(word),
        imm: imm_i(word),
    })
}

fn decode_store(word: u32) -> Option<Instr>
    ensures { result ≡ store_of word }
{
    Some(Instr::Store {
        op: store_op(funct3(word))?,
        rs1: rs1(word),
        rs2: rs2(word),
        imm: imm_s(word),
    })
}

fn decode_imm(word: u32) -> Option<Instr>
    ensures { result ≡ imm_of word }
{
    let rd = rd(word);
    let rs1 = rs1(word);
    let funct3 = funct3(word);
    if funct3 == 0b001 || funct3 == 0b101 {
        Some(Instr::Imm {
            op: shift_op(funct7(word) * 8 + funct3)?,
            rd,
            rs1,
            imm: u32::from(rs2(word)),
        })
    } else {
        Some(Instr::Imm {
            op: imm_op(funct3)?,
            rd,
            rs1,
            imm: imm_i(word),
        })
    }
}

fn decode_reg(word: u32) -> Option<Instr>
    ensures { result ≡ reg_of word }
{
    Some(Instr::Reg {
        op: reg_op(funct7(word) * 8 + funct3(word))?,
        rd: rd(word),
        rs1: rs1(word),
        rs2: rs2(word),
    })
}

// Bits 31 to 27 tell the atomics apart; LR and SC have others.
fn decode_amo(word: u32) -> Option<Instr>
    ensures { result ≡ amo_of word }
{
    if funct3(word) != 0b010 {
        return None;
    }
    Some(Instr::Amo {
        op: amo_op(word >> 27)?,
        aq: aq(word),
        rl: rl(word),
        rd: rd(word),
        rs1: rs1(word),
        rs2: rs2(word),
    })
}

fn decode_system(word: u32) -> Option<Instr>
    ensures { result ≡ system_of word }
{
    match word {
        0x0000_0073 => Some(Instr::Ecall),
        0x0010_0073 => Some(Instr::Ebreak),
        _ => None,
    }
}
