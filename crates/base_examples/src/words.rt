// Image words of each format, decoded and encoded again.
use rv32_decode::{AmoOp, BranchOp, ImmOp, Instr, LoadOp, RegOp, StoreOp, decode, encode};

fn is_given_back(word: u32) -> bool {
    match decode(word) {
        Some(i) => encode(i) == word,
        None => false,
    }
}

#[test]
fn upper_immediates_and_jumps(rt: HostRuntime) {
    // lui x11, 16; auipc x5, 74565; jal x1, -4; jalr x0, 0(x1)
    for word in [0x0001_05b7, 0x1234_5297, 0xffdf_f0ef, 0x0000_8067] {
        assert!(rt; is_given_back(word));
    }
    let lui = Instr::Lui {
        rd: 11,
        imm: 0x1_0000,
    };
    assert_eq!(rt; decode(0x0001_05b7), Some(lui));
    let jal = Instr::Jal {
        rd: 1,
        imm: 0xffff_fffc,
    };
    assert_eq!(rt; decode(0xffdf_f0ef), Some(jal));
}

#[test]
fn branches(rt: HostRuntime) {
    // beq x5, x6, -4; bne x10, x11, 8
    for word in [0xfe62_8ee3, 0x00b5_1463] {
        assert!(rt; is_given_back(word));
    }
    let beq = Instr::Branch {
        op: BranchOp::Beq,
        rs1: 5,
        rs2: 6,
        imm: 0xffff_fffc,
    };
    assert_eq!(rt; decode(0xfe62_8ee3), Some(beq));
}

#[test]
fn loads_and_stores(rt: HostRuntime) {
    // lw x5, 8(x2); sw x5, 12(x2)
    for word in [0x0081_2283, 0x0051_2623] {
        assert!(rt; is_given_back(word));
    }
    let lbu = Instr::Load {
        op: LoadOp::Lbu,
        rd: 6,
        rs1: 7,
        imm: u32::MAX,
    };
    assert_eq!(rt; decode(0xfff3_c303), Some(lbu));
    let sb = Instr::Store {
        op: StoreOp::Sb,
        rs1: 7,
        rs2: 6,
        imm: u32::MAX,
    };
    assert_eq!(rt; decode(0xfe63_8fa3), Some(sb));
}

#[test]
fn operations_on_immediates(rt: HostRuntime) {
    // addi x10, x0, 65; addi x17, x0, 1003; addi x17, x0, 93; srli x5, x6, 3
    for word in [0x0410_0513, 0x3eb0_0893, 0x05d0_0893, 0x0033_5293] {
        assert!(rt; is_given_back(word));
    }
    let srai = Instr::Imm {
        op: ImmOp::Srai,
        rd: 5,
        rs1: 6,
        imm: 3,
    };
    assert_eq!(rt; decode(0x4033_5293), Some(srai));
}

#[test]
fn operations_on_registers(rt: HostRuntime) {
    // add, mul and remu x5, x6, x7
    for word in [0x0073_02b3, 0x0273_02b3, 0x0273_72b3] {
        assert!(rt; is_given_back(word));
    }
    let mul = Instr::Reg {
        op: RegOp::Mul,
        rd: 5,
        rs1: 6,
        rs2: 7,
    };
    assert_eq!(rt; decode(0x0273_02b3), Some(mul));
}

#[test]
fn atomics(rt: HostRuntime) {
    // amoadd.w x5, x6, (x7); amoswap.w.aq x5, x6, (x7)
    for word in [0x0063_a2af, 0x0c63_a2af] {
        assert!(rt; is_given_back(word));
    }
    let amoswap = Instr::Amo {
        op: AmoOp::Amoswap,
        aq: true,
        rl: false,
        rd: 5,
        rs1: 7,
        rs2: 6,
    };
    assert_eq!(rt; decode(0x0c63_a2af), Some(amoswap));
}

#[test]
fn calls_and_fences(rt: HostRuntime) {
    assert_eq!(rt; decode(0x0000_0073), Some(Instr::Ecall));
    assert_eq!(rt; decode(0x0010_0073), Some(Instr::Ebreak));
    assert_eq!(rt; decode(0x8330_000f), Some(Instr::Fence));
    assert_eq!(rt; encode(Instr::Fence), 0x0ff0_000f);
}

#[test]
fn words_of_no_row(rt: HostRuntime) {
    // fence.i; lr.w x5, (x7); sc.w x5, x6, (x7)
    for word in [0, u32::MAX, 0x0000_100f, 0x1003_a2af, 0x1863_a2af] {
        assert_eq!(rt; decode(word), None);
    }
}

// Every row of the tables but FENCE, as another assembler writes it: from lui, auipc, jal and jalr over branches, loads,
// stores, the operations on immediates and on registers to the atomics, ecall and ebreak.
const ROWS: [u32; 56] = [
    0x1234_52b7,
    0xffff_f317,
    0x0010_00ef,
    0xffc3_02e7,
    0xfe62_8ee3,
    0x00b5_1463,
    0x0020_c863,
    0x0241_d063,
    0x0462_e063,
    0xf883_f0e3,
    0xfff3_0283,
    0x0024_1383,
    0x0045_2483,
    0x7ff6_4583,
    0x8007_5683,
    0xfe53_0fa3,
    0x0074_1123,
    0x0095_2223,
    0xff93_0293,
    0xff93_2293,
    0x0073_3293,
    0x0ff3_4293,
    0x0ff3_6293,
    0x0ff3_7293,
    0x01f3_1293,
    0x01f3_5293,
    0x41f3_5293,
    0x0073_02b3,
    0x4073_02b3,
    0x0073_12b3,
    0x0073_22b3,
    0x0073_32b3,
    0x0073_42b3,
    0x0073_52b3,
    0x4073_52b3,
    0x0073_62b3,
    0x0073_72b3,
    0x0273_02b3,
    0x0273_12b3,
    0x0273_22b3,
    0x0273_32b3,
    0x0273_42b3,
    0x0273_52b3,
    0x0273_62b3,
    0x0273_72b3,
    0x0063_a2af,
    0x0863_a2af,
    0x2063_a2af,
    0x4063_a2af,
    0x6063_a2af,
    0x8063_a2af,
    0xa063_a2af,
    0xc063_a2af,
    0xe663_a2af,
    0x0000_0073,
    0x0010_0073,
];

#[test]
fn every_row_is_given_back(rt: HostRuntime) {
    for word in ROWS {
        assert!(rt; is_given_back(word));
    }
}
