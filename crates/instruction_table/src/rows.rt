// The instructions that are shown: each operation with operands at the ends of their ranges, and
// each format of immediates with some of its bits.
ghost use Rattle.std.specs.Prelude.{◌<◌};
ghost use Rattle.rv32_decode.specs.Ranges.{FieldsFit, ImmFits, IsOffset, IsSigned, IsUpper};

use crate::text::Text;
use rv32_decode::{AmoOp, BranchOp, ImmOp, Instr, LoadOp, RegOp, StoreOp, decode, encode};
use rv32_dis::{Line, instr_text};
use std::io;

const BRANCHES: [BranchOp; 6] = [
    BranchOp::Beq,
    BranchOp::Bne,
    BranchOp::Blt,
    BranchOp::Bge,
    BranchOp::Bltu,
    BranchOp::Bgeu,
];

const LOADS: [LoadOp; 5] = [LoadOp::Lb, LoadOp::Lh, LoadOp::Lw, LoadOp::Lbu, LoadOp::Lhu];

const STORES: [StoreOp; 3] = [StoreOp::Sb, StoreOp::Sh, StoreOp::Sw];

const OPERATIONS: [RegOp; 18] = [
    RegOp::Add,
    RegOp::Sub,
    RegOp::Sll,
    RegOp::Slt,
    RegOp::Sltu,
    RegOp::Xor,
    RegOp::Srl,
    RegOp::Sra,
    RegOp::Or,
    RegOp::And,
    RegOp::Mul,
    RegOp::Mulh,
    RegOp::Mulhsu,
    RegOp::Mulhu,
    RegOp::Div,
    RegOp::Divu,
    RegOp::Rem,
    RegOp::Remu,
];

const ATOMICS: [AmoOp; 9] = [
    AmoOp::Amoadd,
    AmoOp::Amoswap,
    AmoOp::Amoxor,
    AmoOp::Amoor,
    AmoOp::Amoand,
    AmoOp::Amomin,
    AmoOp::Amomax,
    AmoOp::Amominu,
    AmoOp::Amomaxu,
];

// A line: the word, the text, and whether the word is read as another instruction.
fn show(rt: &impl Print, instr: Instr) -> io::Result<()>
    requires { FieldsFit instr }
{
    let word = encode(instr);
    let mut line = Line::new();
    instr_text(instr, &mut line);
    let text = Text(line);
    if decode(word) == Some(instr) {
        println!(rt; "{word:08x} {text}")
    } else {
        println!(rt; "{word:08x} {text} differs")
    }
}

/// Every instruction.
pub fn show_all(rt: &impl Print) -> io::Result<()> {
    show_upper(rt, 0, 0)?;
    show_upper(rt, 5, 0x7fff_f000)?;
    show_upper(rt, 31, 0xffff_f000)?;
    show_upper(rt, 5, 0x1234_5000)?;
    show_jumps(rt, 0, 31, 0, 0)?;
    show_jumps(rt, 5, 0, 0xf_fffe, 0x7ff)?;
    show_jumps(rt, 31, 5, 0xfff0_0000, 0xffff_f800)?;
    show_jumps(rt, 5, 31, 0x5_8d26, 0x4d2)?;
    show_branches(rt, 0, 31, 0)?;
    show_branches(rt, 5, 0, 0xffe)?;
    show_branches(rt, 31, 5, 0xffff_f000)?;
    show_branches(rt, 5, 31, 0x8d2)?;
    show_accesses(rt, 0, 31, 0)?;
    show_accesses(rt, 5, 0, 0x7ff)?;
    show_accesses(rt, 31, 5, 0xffff_f800)?;
    show_accesses(rt, 5, 31, 0x4d2)?;
    show_immediates(rt)?;
    show_registers(rt, 0, 31, 5)?;
    show_registers(rt, 5, 0, 31)?;
    show_registers(rt, 31, 5, 0)?;
    show(rt, Instr::Fence)?;
    show(rt, Instr::Ecall)?;
    show(rt, Instr::Ebreak)
}

fn show_upper(rt: &impl Print, rd: u8, imm: u32) -> io::Result<()>
    requires rd { rd < 32 }
    requires imm { IsUpper imm }
{
    show(rt, Instr::Lui { rd, imm })?;
    show(rt, Instr::Auipc { rd, imm })
}

fn show_jumps(rt: &impl Print, rd: u8, rs1: u8, offset: u32, imm: u32) -> io::Result<()>
    requires rd { rd < 32 }
    requires rs1 { rs1 < 32 }
    requires offset { IsOffset 1048576 offset }
    requires imm { IsSigned 2048 imm }
{
    show(rt, Instr::Jal { rd, imm: offset })?;
    show(rt, Instr::Jalr { rd, rs1, imm })
}

fn show_branches(rt: &impl Print, rs1: u8, rs2: u8, imm: u32) -> io::Result<()>
    requires rs1 { rs1 < 32 }
    requires rs2 { rs2 < 32 }
    requires imm { IsOffset 4096 imm }
{
    for op in BRANCHES {
        show(rt, Instr::Branch { op, rs1, rs2, imm })?;
    }
    Ok(())
}

fn show_accesses(rt: &impl Print, value: u8, rs1: u8, imm: u32) -> io::Result<()>
    requires value { value < 32 }
    requires rs1 { rs1 < 32 }
    requires imm { IsSigned 2048 imm }
{
    for op in LOADS {
        show(
            rt,
            Instr::Load {
                op,
                rd: value,
                rs1,
                imm,
            },
        )?;
    }
    for op in STORES {
        show(
            rt,
            Instr::Store {
                op,
                rs1,
                rs2: value,
                imm,
            },
        )?;
    }
    Ok(())
}

fn show_immediates(rt: &impl Print) -> io::Result<()> {
    show_signed(rt, ImmOp::Addi)?;
    show_signed(rt, ImmOp::Slti)?;
    show_signed(rt, ImmOp::Sltiu)?;
    show_signed(rt, ImmOp::Xori)?;
    show_signed(rt, ImmOp::Ori)?;
    show_signed(rt, ImmOp::Andi)?;
    show_shift(rt, ImmOp::Slli)?;
    show_shift(rt, ImmOp::Srli)?;
    show_shift(rt, ImmOp::Srai)
}

// An operation that takes a signed immediate.
fn show_signed(rt: &impl Print, op: ImmOp) -> io::Result<()>
    requires least { ImmFits op 0xfffff800 }
    requires zero { ImmFits op 0 }
    requires greatest { ImmFits op 0x7ff }
{
    show_imm(rt, op, 0, 31, 0)?;
    show_imm(rt, op, 5, 0, 0x7ff)?;
    show_imm(rt, op, 31, 5, 0xffff_f800)
}

// An operation that takes a distance.
fn show_shift(rt: &impl Print, op: ImmOp) -> io::Result<()>
    requires least { ImmFits op 0 }
    requires middle { ImmFits op 16 }
    requires greatest { ImmFits op 31 }
{
    show_imm(rt, op, 0, 31, 0)?;
    show_imm(rt, op, 5, 0, 16)?;
    show_imm(rt, op, 31, 5, 31)
}

fn show_imm(rt: &impl Print, op: ImmOp, rd: u8, rs1: u8, imm: u32) -> io::Result<()>
    requires rd { rd < 32 }
    requires rs1 { rs1 < 32 }
    requires imm { ImmFits op imm }
{
    show(rt, Instr::Imm { op, rd, rs1, imm })
}

fn show_registers(rt: &impl Print, rd: u8, rs1: u8, rs2: u8) -> io::Result<()>
    requires rd { rd < 32 }
    requires rs1 { rs1 < 32 }
    requires rs2 { rs2 < 32 }
{
    for op in OPERATIONS {
        show(rt, Instr::Reg { op, rd, rs1, rs2 })?;
    }
    for op in ATOMICS {
        show_atomic(rt, op, rd, rs1, rs2)?;
    }
    Ok(())
}

fn show_atomic(rt: &impl Print, op: AmoOp, rd: u8, rs1: u8, rs2: u8) -> io::Result<()>
    requires rd { rd < 32 }
    requires rs1 { rs1 < 32 }
    requires rs2 { rs2 < 32 }
{
    for (aq, rl) in [(false, false), (true, false), (false, true), (true, true)] {
        show(
            rt,
            Instr::Amo {
                op,
                aq,
                rl,
                rd,
                rs1,
                rs2,
            },
        )?;
    }
    Ok(())
}
