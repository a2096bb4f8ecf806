// The fields of words.
ghost use Rattle.std.specs.Prelude.{◌≡◌, ◌==◌, ◌*◌, ◌%◌, ◌<◌, ◌≤◌};
ghost use Rattle.rv32_decode.specs.Fields.{bit, opcode, funct3, funct7, rd, rs1, rs2, imm_i, imm_s, imm_b, imm_u, imm_j, sign_extended};

pub fn opcode(word: u32) -> u32
    ensures { result ≡ opcode word }
{
    word & 0x7f
}

pub fn rd(word: u32) -> u8
    ensures { result ≡ rd word }
{
    (word >> 7 & 0x1f) as u8
}

pub fn funct3(word: u32) -> u32
    ensures { result ≡ funct3 word }
{
    word >> 12 & 7
}

pub fn rs1(word: u32) -> u8
    ensures { result ≡ rs1 word }
{
    (word >> 15 & 0x1f) as u8
}

pub fn rs2(word: u32) -> u8
    ensures { result ≡ rs2 word }
{
    (word >> 20 & 0x1f) as u8
}

pub fn funct7(word: u32) -> u32
    ensures { result ≡ funct7 word }
{
    word >> 25
}

// An atomic's order bits.
pub fn aq(word: u32) -> bool
    ensures { result ≡ (bit 26 word == 1) }
{
    word >> 26 & 1 == 1
}

pub fn rl(word: u32) -> bool
    ensures { result ≡ (bit 25 word == 1) }
{
    word >> 25 & 1 == 1
}

pub fn imm_i(word: u32) -> u32
    ensures { result ≡ imm_i word }
{
    sign_extend(word >> 20, 0x800)
}

pub fn imm_s(word: u32) -> u32
    ensures { result ≡ imm_s word }
{
    sign_extend((word >> 25) * 32 + (word >> 7 & 0x1f), 0x800)
}

pub fn imm_b(word: u32) -> u32
    ensures { result ≡ imm_b word }
{
    let high = (word >> 31) * 2 + (word >> 7 & 1);
    let low = (word >> 25 & 0x3f) * 16 + (word >> 8 & 0xf);
    sign_extend(high * 2048 + low * 2, 0x1000)
}

pub fn imm_u(word: u32) -> u32
    ensures { result ≡ imm_u word }
{
    word & 0xffff_f000
}

pub fn imm_j(word: u32) -> u32
    ensures { result ≡ imm_j word }
{
    let high = (word >> 31) * 256 + (word >> 12 & 0xff);
    let low = (word >> 20 & 1) * 1024 + (word >> 21 & 0x3ff);
    sign_extend(high * 4096 + low * 2, 0x10_0000)
}

// The bit of weight `sign` is the value's sign.
fn sign_extend(value: u32, sign: u32) -> u32
    requires value { value < 2 * sign }
    requires sign { sign ≤ 1048576 }
    ensures { result ≡ sign_extended sign value }
{
    if value < sign {
        value
    } else {
        value.wrapping_sub(2 * sign)
    }
}
