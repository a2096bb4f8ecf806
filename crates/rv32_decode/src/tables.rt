// The codes that tell the instructions of one opcode apart, and their operations.
//
// A code of ten bits is that of the field funct7 and then funct3.
ghost use Rattle.std.specs.Prelude.{◌≡◌, ◌<◌};
ghost use Rattle.rv32_decode.specs.Tables.{look_up, branch_rows, load_rows, store_rows, imm_rows, shift_rows, reg_rows, amo_rows};
ghost use Rattle.rv32_decode.specs.Encoding.{branch_code, load_code, store_code, imm_code, reg_code, amo_code, is_shift};

use crate::instr::{AmoOp, BranchOp, ImmOp, LoadOp, RegOp, StoreOp};

pub fn branch_op(funct3: u32) -> Option<BranchOp>
    ensures { result ≡ look_up branch_rows funct3 }
{
    match funct3 {
        0b000 => Some(BranchOp::Beq),
        0b001 => Some(BranchOp::Bne),
        0b100 => Some(BranchOp::Blt),
        0b101 => Some(BranchOp::Bge),
        0b110 => Some(BranchOp::Bltu),
        0b111 => Some(BranchOp::Bgeu),
        _ => None,
    }
}

pub fn load_op(funct3: u32) -> Option<LoadOp>
    ensures { result ≡ look_up load_rows funct3 }
{
    match funct3 {
        0b000 => Some(LoadOp::Lb),
        0b001 => Some(LoadOp::Lh),
        0b010 => Some(LoadOp::Lw),
        0b100 => Some(LoadOp::Lbu),
        0b101 => Some(LoadOp::Lhu),
        _ => None,
    }
}

pub fn store_op(funct3: u32) -> Option<StoreOp>
    ensures { result ≡ look_up store_rows funct3 }
{
    match funct3 {
        0b000 => Some(StoreOp::Sb),
        0b001 => Some(StoreOp::Sh),
        0b010 => Some(StoreOp::Sw),
        _ => None,
    }
}

pub fn imm_op(funct3: u32) -> Option<ImmOp>
    ensures { result ≡ look_up imm_rows funct3 }
{
    match funct3 {
        0b000 => Some(ImmOp::Addi),
        0b010 => Some(ImmOp::Slti),
        0b011 => Some(ImmOp::Sltiu),
        0b100 => Some(ImmOp::Xori),
        0b110 => Some(ImmOp::Ori),
        0b111 => Some(ImmOp::Andi),
        _ => None,
    }
}

pub fn shift_op(funct10: u32) -> Option<ImmOp>
    ensures { result ≡ look_up shift_rows funct10 }
{
    match funct10 {
        0b0000000_001 => Some(ImmOp::Slli),
        0b0000000_101 => Some(ImmOp::Srli),
        0b0100000_101 => Some(ImmOp::Srai),
        _ => None,
    }
}

pub fn reg_op(funct10: u32) -> Option<RegOp>
    ensures { result ≡ look_up reg_rows funct10 }
{
    match funct10 {
        0b0000000_000 => Some(RegOp::Add),
        0b0100000_000 => Some(RegOp::Sub),
        0b0000000_001 => Some(RegOp::Sll),
        0b0000000_010 => Some(RegOp::Slt),
        0b0000000_011 => Some(RegOp::Sltu),
        0b0000000_100 => Some(RegOp::Xor),
        0b0000000_101 => Some(RegOp::Srl),
        0b0100000_101 => Some(RegOp::Sra),
        0b0000000_110 => Some(RegOp::Or),
        0b0000000_111 => Some(RegOp::And),
        0b0000001_000 => Some(RegOp::Mul),
        0b0000001_001 => Some(RegOp::Mulh),
        0b0000001_010 => Some(RegOp::Mulhsu),
        0b0000001_011 => Some(RegOp::Mulhu),
        0b0000001_100 => Some(RegOp::Div),
        0b0000001_101 => Some(RegOp::Divu),
        0b0000001_110 => Some(RegOp::Rem),
        0b0000001_111 => Some(RegOp::Remu),
        _ => None,
    }
}

pub fn amo_op(funct5: u32) -> Option<AmoOp>
    ensures { result ≡ look_up amo_rows funct5 }
{
    match funct5 {
        0b00000 => Some(AmoOp::Amoadd),
        0b00001 => Some(AmoOp::Amoswap),
        0b00100 => Some(AmoOp::Amoxor),
        0b01000 => Some(AmoOp::Amoor),
        0b01100 => Some(AmoOp::Amoand),
        0b10000 => Some(AmoOp::Amomin),
        0b10100 => Some(AmoOp::Amomax),
        0b11000 => Some(AmoOp::Amominu),
        0b11100 => Some(AmoOp::Amomaxu),
        _ => None,
    }
}

pub fn branch_code(op: BranchOp) -> u32
    ensures code { result ≡ branch_code op }
    ensures small { result < 8 }
{
    match op {
        BranchOp::Beq => 0b000,
        BranchOp::Bne => 0b001,
        BranchOp::Blt => 0b100,
        BranchOp::Bge => 0b101,
        BranchOp::Bltu => 0b110,
        BranchOp::Bgeu => 0b111,
    }
}

pub fn load_code(op: LoadOp) -> u32
    ensures code { result ≡ load_code op }
    ensures small { result < 8 }
{
    match op {
        LoadOp::Lb => 0b000,
        LoadOp::Lh => 0b001,
        LoadOp::Lw => 0b010,
        LoadOp::Lbu => 0b100,
        LoadOp::Lhu => 0b101,
    }
}

pub fn store_code(op: StoreOp) -> u32
    ensures code { result ≡ store_code op }
    ensures small { result < 8 }
{
    match op {
        StoreOp::Sb => 0b000,
        StoreOp::Sh => 0b001,
        StoreOp::Sw => 0b010,
    }
}

pub fn imm_code(op: ImmOp) -> u32
    ensures code { result ≡ imm_code op }
    ensures small { result < 1024 }
{
    match op {
        ImmOp::Addi => 0b000,
        ImmOp::Slti => 0b010,
        ImmOp::Sltiu => 0b011,
        ImmOp::Xori => 0b100,
        ImmOp::Ori => 0b110,
        ImmOp::Andi => 0b111,
        ImmOp::Slli => 0b0000000_001,
        ImmOp::Srli => 0b0000000_101,
        ImmOp::Srai => 0b0100000_101,
    }
}

pub fn reg_code(op: RegOp) -> u32
    ensures code { result ≡ reg_code op }
    ensures small { result < 1024 }
{
    match op {
        RegOp::Add => 0b0000000_000,
        RegOp::Sub => 0b0100000_000,
        RegOp::Sll => 0b0000000_001,
        RegOp::Slt => 0b0000000_010,
        RegOp::Sltu => 0b0000000_011,
        RegOp::Xor => 0b0000000_100,
        RegOp::Srl => 0b0000000_101,
        RegOp::Sra => 0b0100000_101,
        RegOp::Or => 0b0000000_110,
        RegOp::And => 0b0000000_111,
        RegOp::Mul => 0b0000001_000,
        RegOp::Mulh => 0b0000001_001,
        RegOp::Mulhsu => 0b0000001_010,
        RegOp::Mulhu => 0b0000001_011,
        RegOp::Div => 0b0000001_100,
        RegOp::Divu => 0b0000001_101,
        RegOp::Rem => 0b0000001_110,
        RegOp::Remu => 0b0000001_111,
    }
}

pub fn amo_code(op: AmoOp) -> u32
    ensures code { result ≡ amo_code op }
    ensures small { result < 32 }
{
    match op {
        AmoOp::Amoadd => 0b00000,
        AmoOp::Amoswap => 0b00001,
        AmoOp::Amoxor => 0b00100,
        AmoOp::Amoor => 0b01000,
        AmoOp::Amoand => 0b01100,
        AmoOp::Amomin => 0b10000,
        AmoOp::Amomax => 0b10100,
        AmoOp::Amominu => 0b11000,
        AmoOp::Amomaxu => 0b11100,
    }
}

pub fn is_shift(op: ImmOp) -> bool
    ensures { result ≡ is_shift op }
{
    matches!(op, ImmOp::Slli | ImmOp::Srli | ImmOp::Srai)
}
