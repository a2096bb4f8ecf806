// What operations make of 32-bit words.
ghost use Rattle.std.specs.Prelude.{◌≡◌, ◌+◌, ◌-◌, ◌*◌, ◌*ℤ◌, ◌/◌, ◌%◌, ◌^◌, ◌<◌, ◌≤◌, pos, unsigned_abs, if◌then◌else◌};
ghost use Rattle.conda_base.specs.Lines.{IsAccessSize};
ghost use Rattle.rv32_decode.specs.Ranges.{ImmFits};
ghost use Rattle.rv32_hart.specs.Arithmetic.{signed, word_of_signed, less_signed, high_word, quotient_signed, quotient, remainder_signed, remainder, shifted_right_signed, is_taken, imm_result, reg_result, amo_result, extended, load_size, is_signed, store_size};

use rv32_decode::{AmoOp, BranchOp, ImmOp, LoadOp, RegOp, StoreOp};

/// The word that memory takes for an atomic, `old` being the word there and `value` the register's.
pub fn amo_result(op: AmoOp, old: u32, value: u32) -> u32
    ensures { result ≡ amo_result op old value }
{
    match op {
        AmoOp::Amoadd => old.wrapping_add(value),
        AmoOp::Amoswap => value,
        AmoOp::Amoxor => old ^ value,
        AmoOp::Amoor => old | value,
        AmoOp::Amoand => old & value,
        AmoOp::Amomin => choose(is_less(value, old), value, old),
        AmoOp::Amomax => choose(is_less(old, value), value, old),
        AmoOp::Amominu => choose(value < old, value, old),
        AmoOp::Amomaxu => choose(old < value, value, old),
    }
}

pub fn is_taken(op: BranchOp, a: u32, b: u32) -> bool
    ensures { result ≡ is_taken op a b }
{
    match op {
        BranchOp::Beq => a == b,
        BranchOp::Bne => a != b,
        BranchOp::Blt => is_less(a, b),
        BranchOp::Bge => a.cast_signed() >= b.cast_signed(),
        BranchOp::Bltu => a < b,
        BranchOp::Bgeu => a >= b,
    }
}

pub fn imm_result(op: ImmOp, a: u32, imm: u32) -> u32
    requires { ImmFits op imm }
    ensures { result ≡ imm_result op a imm }
{
    match op {
        ImmOp::Addi => a.wrapping_add(imm),
        ImmOp::Slti => u32::from(is_less(a, imm)),
        ImmOp::Sltiu => u32::from(a < imm),
        ImmOp::Xori => a ^ imm,
        ImmOp::Ori => a | imm,
        ImmOp::Andi => a & imm,
        ImmOp::Slli => a << imm,
        ImmOp::Srli => a >> imm,
        ImmOp::Srai => shift_right_signed(a, imm),
    }
}

pub fn reg_result(op: RegOp, a: u32, b: u32) -> u32
    ensures { result ≡ reg_result op a b }
{
    match op {
        RegOp::Add => a.wrapping_add(b),
        RegOp::Sub => a.wrapping_sub(b),
        RegOp::Sll => a << (b % 32),
        RegOp::Slt => u32::from(is_less(a, b)),
        RegOp::Sltu => u32::from(a < b),
        RegOp::Xor => a ^ b,
        RegOp::Srl => a >> (b % 32),
        RegOp::Sra => shift_right_signed(a, b % 32),
        RegOp::Or => a | b,
        RegOp::And => a & b,
        RegOp::Mul => a.wrapping_mul(b),
        RegOp::Mulh => multiply_high(i64::from(a.cast_signed()), i64::from(b.cast_signed())),
        RegOp::Mulhsu => multiply_high(i64::from(a.cast_signed()), i64::from(b)),
        RegOp::Mulhu => (u64::from(a) * u64::from(b) >> 32) as u32,
        RegOp::Div => divide_signed(a, b),
        RegOp::Divu => a.checked_div(b).unwrap_or(u32::MAX),
        RegOp::Rem => remainder_signed(a, b),
        RegOp::Remu => a.checked_rem(b).unwrap_or(a),
    }
}

pub fn extend(op: LoadOp, loaded: u32) -> u32
    ensures { result ≡ extended op loaded }
{
    match op {
        LoadOp::Lb => i32::from(((loaded % 256) as u8).cast_signed()).cast_unsigned(),
        LoadOp::Lh => i32::from(((loaded % 65536) as u16).cast_signed()).cast_unsigned(),
        LoadOp::Lw => loaded,
        LoadOp::Lbu => loaded % 256,
        LoadOp::Lhu => loaded % 65536,
    }
}

pub fn load_size(op: LoadOp) -> u8
    ensures value { result ≡ load_size op }
    ensures size { IsAccessSize result }
{
    match op {
        LoadOp::Lb | LoadOp::Lbu => 1,
        LoadOp::Lh | LoadOp::Lhu => 2,
        LoadOp::Lw => 4,
    }
}

pub fn is_signed(op: LoadOp) -> bool
    ensures { result ≡ is_signed op }
{
    matches!(op, LoadOp::Lb | LoadOp::Lh)
}

pub fn store_size(op: StoreOp) -> u8
    ensures value { result ≡ store_size op }
    ensures size { IsAccessSize result }
{
    match op {
        StoreOp::Sb => 1,
        StoreOp::Sh => 2,
        StoreOp::Sw => 4,
    }
}

fn choose(first: bool, a: u32, b: u32) -> u32
    ensures { result ≡ (if first then a else b) }
{
    if first { a } else { b }
}

fn is_less(a: u32, b: u32) -> bool
    ensures { result ≡ less_signed a b }
{
    a.cast_signed() < b.cast_signed()
}

fn shift_right_signed(a: u32, by: u32) -> u32
    requires { by < 32 }
    ensures { result ≡ shifted_right_signed a by }
{
    (a.cast_signed() >> by).cast_unsigned()
}

// The high word of the product of two numbers of at most 32 bits and a sign.
fn multiply_high(a: i64, b: i64) -> u32
    requires left { unsigned_abs a ≤ 2 ^ 31 }
    requires right { unsigned_abs b < 2 ^ 32 }
    ensures { result ≡ high_word (a *ℤ b) }
{
    ((a * b).cast_unsigned() >> 32) as u32
}

fn divide_signed(a: u32, b: u32) -> u32
    ensures { result ≡ quotient_signed a b }
{
    if b == 0 {
        u32::MAX
    } else {
        a.cast_signed()
            .wrapping_div(b.cast_signed())
            .cast_unsigned()
    }
}

fn remainder_signed(a: u32, b: u32) -> u32
    ensures { result ≡ remainder_signed a b }
{
    if b == 0 {
        a
    } else {
        a.cast_signed()
            .wrapping_rem(b.cast_signed())
            .cast_unsigned()
    }
}
