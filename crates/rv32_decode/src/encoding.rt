// Instructions as words.
ghost use Rattle.std.specs.Prelude.{◌≡◌, ◌+◌, ◌*◌, ◌^◌, ◌<◌, ◌≤◌};
ghost use Rattle.rv32_decode.specs.Ranges.{FieldsFit};
ghost use Rattle.rv32_decode.specs.Decoding.{decoded};
ghost use Rattle.rv32_decode.specs.Encoding.{joined_bits, word_of, word_i, word_s, word_b, word_u, word_j, encoded, bit_of};

use crate::instr::Instr;
use crate::tables::{amo_code, branch_code, imm_code, is_shift, load_code, reg_code, store_code};

/// The word of an instruction. A FENCE gives the fence of all accesses.
pub fn encode(i: Instr) -> u32
    requires { FieldsFit i }
    ensures value { result ≡ encoded i }
    ensures decodes { decoded result ≡ Some i }
    ensures fence { i ≡ Instr.Fence → result ≡ 0x0ff0000f }
{
    by_format(i)
}

#[tactic(auto, unfolding(crate::specs::Encoding::encoded))]
fn by_format(i: Instr) -> u32
    requires { FieldsFit i }
    ensures { result ≡ encoded i }
{
    match i {
        Instr::Lui { rd, imm } => word_u(imm, rd, 0b0110111),
        Instr::Auipc { rd, imm } => word_u(imm, rd, 0b0010111),
        Instr::Jal { rd, imm } => word_j(imm, rd, 0b1101111),
        Instr::Jalr { rd, rs1, imm } => word_i(imm, rs1, 0, rd, 0b1100111),
        Instr::Branch { op, rs1, rs2, imm } => word_b(imm, rs2, rs1, branch_code(op)),
        Instr::Load { op, rd, rs1, imm } => word_i(imm, rs1, load_code(op), rd, 0b0000011),
        Instr::Store { op, rs1, rs2, imm } => word_s(imm, rs2, rs1, store_code(op)),
        Instr::Imm { op, rd, rs1, imm } => {
            let code = imm_code(op);
            if is_shift(op) {
                word(code >> 3, imm as u8, rs1, code & 7, rd, 0b0010011)
            } else {
                word_i(imm, rs1, code & 7, rd, 0b0010011)
            }
        }
        Instr::Reg { op, rd, rs1, rs2 } => {
            let code = reg_code(op);
            word(code >> 3, rs2, rs1, code & 7, rd, 0b0110011)
        }
        Instr::Amo {
            op,
            aq,
            rl,
            rd,
            rs1,
            rs2,
        } => {
            let funct7 = amo_code(op) * 4 + u32::from(aq) * 2 + u32::from(rl);
            word(funct7, rs2, rs1, 0b010, rd, 0b0101111)
        }
        Instr::Fence => 0x0ff0_000f,
        Instr::Ecall => 0x0000_0073,
        Instr::Ebreak => 0x0010_0073,
    }
}

// `low` has this many bits.
fn join(high: u32, bits: u32, low: u32) -> u32
    requires low { low < 2 ^ bits }
    requires room { high * 2 ^ bits + low < 2 ^ 32 }
    requires bits { bits ≤ 7 }
    ensures { result ≡ joined_bits high bits low }
{
    high << bits | low
}

#[tactic(auto, unfolding(crate::specs::Encoding::word_of))]
fn word(funct7: u32, rs2: u8, rs1: u8, funct3: u32, rd: u8, opcode: u32) -> u32
    requires funct7 { funct7 < 128 }
    requires rs2 { rs2 < 32 }
    requires rs1 { rs1 < 32 }
    requires funct3 { funct3 < 8 }
    requires rd { rd < 32 }
    requires opcode { opcode < 128 }
    ensures { result ≡ word_of funct7 rs2 rs1 funct3 rd opcode }
{
    let registers = join(join(funct7, 5, u32::from(rs2)), 5, u32::from(rs1));
    join(
        join(join(registers, 3, funct3), 5, u32::from(rd)),
        7,
        opcode,
    )
}

fn word_i(imm: u32, rs1: u8, funct3: u32, rd: u8, opcode: u32) -> u32
    requires rs1 { rs1 < 32 }
    requires funct3 { funct3 < 8 }
    requires rd { rd < 32 }
    requires opcode { opcode < 128 }
    ensures { result ≡ word_i imm rs1 funct3 rd opcode }
{
    word(imm >> 5 & 0x7f, (imm & 0x1f) as u8, rs1, funct3, rd, opcode)
}

fn word_s(imm: u32, rs2: u8, rs1: u8, funct3: u32) -> u32
    requires rs2 { rs2 < 32 }
    requires rs1 { rs1 < 32 }
    requires funct3 { funct3 < 8 }
    ensures { result ≡ word_s imm rs2 rs1 funct3 0x23 }
{
    word(
        imm >> 5 & 0x7f,
        rs2,
        rs1,
        funct3,
        (imm & 0x1f) as u8,
        0b0100011,
    )
}

fn word_b(imm: u32, rs2: u8, rs1: u8, funct3: u32) -> u32
    requires rs2 { rs2 < 32 }
    requires rs1 { rs1 < 32 }
    requires funct3 { funct3 < 8 }
    ensures { result ≡ word_b imm rs2 rs1 funct3 0x63 }
{
    let high = (imm >> 12 & 1) * 64 + (imm >> 5 & 0x3f);
    let low = (imm >> 1 & 0xf) * 2 + (imm >> 11 & 1);
    word(high, rs2, rs1, funct3, low as u8, 0b1100011)
}

fn word_u(imm: u32, rd: u8, opcode: u32) -> u32
    requires rd { rd < 32 }
    requires opcode { opcode < 128 }
    ensures { result ≡ word_u imm rd opcode }
{
    let rs2 = (imm >> 20 & 0x1f) as u8;
    let rs1 = (imm >> 15 & 0x1f) as u8;
    word(imm >> 25, rs2, rs1, imm >> 12 & 7, rd, opcode)
}

fn word_j(imm: u32, rd: u8, opcode: u32) -> u32
    requires rd { rd < 32 }
    requires opcode { opcode < 128 }
    ensures { result ≡ word_j imm rd opcode }
{
    let high = (imm >> 20 & 1) * 64 + (imm >> 5 & 0x3f);
    let rs2 = ((imm >> 1 & 0xf) * 2 + (imm >> 11 & 1)) as u8;
    let rs1 = (imm >> 15 & 0x1f) as u8;
    word(high, rs2, rs1, imm >> 12 & 7, rd, opcode)
}
