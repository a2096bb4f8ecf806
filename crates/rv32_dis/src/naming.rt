// Names, and the instructions that they name.
ghost use Rattle.std.specs.Prelude.{◌≡◌, ◌<◌, ◌≤◌, ◌++◌, Some, IfSome, length, take, codes};
ghost use Rattle.std.specs.Str.{bytes_eq};
ghost use Rattle.rv32_dis.specs.declared.mnemonic.Mnemonic.{Mnemonic};
ghost use Rattle.rv32_dis.specs.Mnemonics.{name_of};
ghost use Rattle.rv32_dis.specs.Naming.{mnemonic_in, named_in};

use crate::mnemonic::Mnemonic;
use rv32_decode::{AmoOp, BranchOp, ImmOp, LoadOp, RegOp, StoreOp};

/// All that an instruction may be named. Names of one first letter stand together, and so do atomics of one fourth letter,
/// so that a name is sought among few, and one that begins otherwise among none.
pub const MNEMONICS: [Mnemonic; 84] = [
    Mnemonic::Imm(ImmOp::Addi),
    Mnemonic::Reg(RegOp::Add),
    Mnemonic::Imm(ImmOp::Andi),
    Mnemonic::Reg(RegOp::And),
    Mnemonic::Auipc,
    Mnemonic::Amo {
        op: AmoOp::Amoadd,
        aq: false,
        rl: false,
    },
    Mnemonic::Amo {
        op: AmoOp::Amoadd,
        aq: false,
        rl: true,
    },
    Mnemonic::Amo {
        op: AmoOp::Amoadd,
        aq: true,
        rl: false,
    },
    Mnemonic::Amo {
        op: AmoOp::Amoadd,
        aq: true,
        rl: true,
    },
    Mnemonic::Amo {
        op: AmoOp::Amoand,
        aq: false,
        rl: false,
    },
    Mnemonic::Amo {
        op: AmoOp::Amoand,
        aq: false,
        rl: true,
    },
    Mnemonic::Amo {
        op: AmoOp::Amoand,
        aq: true,
        rl: false,
    },
    Mnemonic::Amo {
        op: AmoOp::Amoand,
        aq: true,
        rl: true,
    },
    Mnemonic::Amo {
        op: AmoOp::Amomin,
        aq: false,
        rl: false,
    },
    Mnemonic::Amo {
        op: AmoOp::Amomin,
        aq: false,
        rl: true,
    },
    Mnemonic::Amo {
        op: AmoOp::Amomin,
        aq: true,
        rl: false,
    },
    Mnemonic::Amo {
        op: AmoOp::Amomin,
        aq: true,
        rl: true,
    },
    Mnemonic::Amo {
        op: AmoOp::Amomax,
        aq: false,
        rl: false,
    },
    Mnemonic::Amo {
        op: AmoOp::Amomax,
        aq: false,
        rl: true,
    },
    Mnemonic::Amo {
        op: AmoOp::Amomax,
        aq: true,
        rl: false,
    },
    Mnemonic::Amo {
        op: AmoOp::Amomax,
        aq: true,
        rl: true,
    },
    Mnemonic::Amo {
        op: AmoOp::Amominu,
        aq: false,
        rl: false,
    },
    Mnemonic::Amo {
        op: AmoOp::Amominu,
        aq: false,
        rl: true,
    },
    Mnemonic::Amo {
        op: AmoOp::Amominu,
        aq: true,
        rl: false,
    },
    Mnemonic::Amo {
        op: AmoOp::Amominu,
        aq: true,
        rl: true,
    },
    Mnemonic::Amo {
        op: AmoOp::Amomaxu,
        aq: false,
        rl: false,
    },
    Mnemonic::Amo {
        op: AmoOp::Amomaxu,
        aq: false,
        rl: true,
    },
    Mnemonic::Amo {
        op: AmoOp::Amomaxu,
        aq: true,
        rl: false,
    },
    Mnemonic::Amo {
        op: AmoOp::Amomaxu,
        aq: true,
        rl: true,
    },
    Mnemonic::Amo {
        op: AmoOp::Amoor,
        aq: false,
        rl: false,
    },
    Mnemonic::Amo {
        op: AmoOp::Amoor,
        aq: false,
        rl: true,
    },
    Mnemonic::Amo {
        op: AmoOp::Amoor,
        aq: true,
        rl: false,
    },
    Mnemonic::Amo {
        op: AmoOp::Amoor,
        aq: true,
        rl: true,
    },
    Mnemonic::Amo {
        op: AmoOp::Amoswap,
        aq: false,
        rl: false,
    },
    Mnemonic::Amo {
        op: AmoOp::Amoswap,
        aq: false,
        rl: true,
    },
    Mnemonic::Amo {
        op: AmoOp::Amoswap,
        aq: true,
        rl: false,
    },
    Mnemonic::Amo {
        op: AmoOp::Amoswap,
        aq: true,
        rl: true,
    },
    Mnemonic::Amo {
        op: AmoOp::Amoxor,
        aq: false,
        rl: false,
    },
    Mnemonic::Amo {
        op: AmoOp::Amoxor,
        aq: false,
        rl: true,
    },
    Mnemonic::Amo {
        op: AmoOp::Amoxor,
        aq: true,
        rl: false,
    },
    Mnemonic::Amo {
        op: AmoOp::Amoxor,
        aq: true,
        rl: true,
    },
    Mnemonic::Branch(BranchOp::Beq),
    Mnemonic::Branch(BranchOp::Bne),
    Mnemonic::Branch(BranchOp::Blt),
    Mnemonic::Branch(BranchOp::Bge),
    Mnemonic::Branch(BranchOp::Bltu),
    Mnemonic::Branch(BranchOp::Bgeu),
    Mnemonic::Reg(RegOp::Div),
    Mnemonic::Reg(RegOp::Divu),
    Mnemonic::Ecall,
    Mnemonic::Ebreak,
    Mnemonic::Fence,
    Mnemonic::Jal,
    Mnemonic::Jalr,
    Mnemonic::Lui,
    Mnemonic::Load(LoadOp::Lw),
    Mnemonic::Load(LoadOp::Lb),
    Mnemonic::Load(LoadOp::Lh),
    Mnemonic::Load(LoadOp::Lbu),
    Mnemonic::Load(LoadOp::Lhu),
    Mnemonic::Reg(RegOp::Mul),
    Mnemonic::Reg(RegOp::Mulh),
    Mnemonic::Reg(RegOp::Mulhsu),
    Mnemonic::Reg(RegOp::Mulhu),
    Mnemonic::Reg(RegOp::Or),
    Mnemonic::Imm(ImmOp::Ori),
    Mnemonic::Reg(RegOp::Rem),
    Mnemonic::Reg(RegOp::Remu),
    Mnemonic::Store(StoreOp::Sw),
    Mnemonic::Store(StoreOp::Sb),
    Mnemonic::Store(StoreOp::Sh),
    Mnemonic::Imm(ImmOp::Slli),
    Mnemonic::Imm(ImmOp::Srli),
    Mnemonic::Imm(ImmOp::Srai),
    Mnemonic::Imm(ImmOp::Slti),
    Mnemonic::Imm(ImmOp::Sltiu),
    Mnemonic::Reg(RegOp::Sub),
    Mnemonic::Reg(RegOp::Sll),
    Mnemonic::Reg(RegOp::Srl),
    Mnemonic::Reg(RegOp::Sra),
    Mnemonic::Reg(RegOp::Slt),
    Mnemonic::Reg(RegOp::Sltu),
    Mnemonic::Reg(RegOp::Xor),
    Mnemonic::Imm(ImmOp::Xori),
];

// The bytes are those of a stem and an ending. The length is compared first: most names have another.
#[tactic(auto, using(crate::proofs::NamingLemmas::bytes_eq_joined, crate::proofs::NamingLemmas::bytes_eq_other_length))]
fn is_joined(name: &[u8], stem: &[u8], ending: &[u8]) -> bool
    ensures { result ≡ bytes_eq name.now (stem.now ++ ending.now) }
{
    if name.len() != stem.len() + ending.len() {
        return false;
    }
    let (front, back) = name.split_at(stem.len());
    front == stem && back == ending
}

fn find(table: &[Mnemonic], name: &[u8]) -> Option<Mnemonic>
    ensures { result ≡ named_in table.now name.now }
{
    for m in table {
        if is_joined(name, m.stem(), m.ending()) {
            return Some(*m);
        }
    }
    None
}

// All that a name of an atomic can be, by its fourth letter.
fn atomics(name: &[u8]) -> &'static [Mnemonic]
    requires long { 4 ≤ length name.now }
    requires begins { take 3 name.now ≡ codes "amo" }
    ensures { named_in result.now name.now ≡ named_in MNEMONICS name.now }
{
    match name[3] {
        b'a' => &MNEMONICS[5..13],
        b'm' => &MNEMONICS[13..29],
        b'o' => &MNEMONICS[29..33],
        b's' => &MNEMONICS[33..37],
        b'x' => &MNEMONICS[37..41],
        _ => &[],
    }
}

// All that a name that begins with `a` can be.
fn candidates_of_a(name: &[u8]) -> &'static [Mnemonic]
    requires begins { take 1 name.now ≡ codes "a" }
    ensures { named_in result.now name.now ≡ named_in MNEMONICS name.now }
{
    if name.len() >= 4 && &name[..3] == b"amo".as_slice() {
        atomics(name)
    } else {
        &MNEMONICS[..5]
    }
}

// All that a name can be, by its first letter.
fn candidates(name: &[u8]) -> &'static [Mnemonic]
    requires { 0 < length name.now }
    ensures { named_in result.now name.now ≡ named_in MNEMONICS name.now }
{
    match name[0] {
        b'a' => candidates_of_a(name),
        b'b' => &MNEMONICS[41..47],
        b'd' => &MNEMONICS[47..49],
        b'e' => &MNEMONICS[49..51],
        b'f' => &MNEMONICS[51..52],
        b'j' => &MNEMONICS[52..54],
        b'l' => &MNEMONICS[54..60],
        b'm' => &MNEMONICS[60..64],
        b'o' => &MNEMONICS[64..66],
        b'r' => &MNEMONICS[66..68],
        b's' => &MNEMONICS[68..82],
        b'x' => &MNEMONICS[82..84],
        _ => &[],
    }
}

fn look_up(name: &[u8]) -> Option<Mnemonic>
    ensures { result ≡ named_in MNEMONICS name.now }
{
    if name.is_empty() {
        return None;
    }
    find(candidates(name), name)
}

/// The instruction that a name names.
pub fn named(name: &[u8]) -> Option<Mnemonic>
    ensures value { result ≡ mnemonic_in name.now }
    ensures found { IfSome result (λ m. name_of m ≡ name.now) }
    ensures every { (m : Mnemonic) → name_of m ≡ name.now → result ≡ Some m }
{
    look_up(name)
}
