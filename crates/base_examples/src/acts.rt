// The worked examples of instructions, by the public calls.
ghost use Rattle.std.specs.Prelude.{◌<◌, length};

use arrayvec::ArrayVec;
use rv32_decode::{AmoOp, BranchOp, Instr, LoadOp, RegOp};
use rv32_hart::{Access, Code, Planned, Regs, Trap, amo_result, finish, plan};
use std::alloc::{AllocError, Global};
use std::test::Fail;

// addi x10, x0, 65; addi x17, x0, 1003; ecall
const ONE_LETTER: [u8; 12] = [
    0x13, 0x05, 0x10, 0x04, 0x93, 0x08, 0xb0, 0x3e, 0x73, 0x00, 0x00, 0x00,
];

// beq x0, x0, 2; bne x0, x0, 2; lw x6, -2(x5); amoadd.w x5, x6, (x7); a word of zeros
const TARGETS: [u8; 20] = [
    0x63, 0x01, 0x00, 0x00, 0x63, 0x11, 0x00, 0x00, 0x03, 0xa3, 0xe2, 0xff, 0xaf, 0xa2, 0x63, 0x00,
    0x00, 0x00, 0x00, 0x00,
];

fn code_at_65536(alloc: Global, bytes: &[u8]) -> Result<Code, AllocError>
    requires some { 0 < length bytes.now }
    requires few { length bytes.now < 100 }
{
    let bytes = Vec::from_slice(alloc, bytes)?;
    let mut ranges = ArrayVec::new();
    ranges.push((0x1_0000, bytes.len() as u32));
    Ok(Code::new(0x1_0000, bytes, ranges))
}

fn trap(cause: u8, value: u32) -> Result<Planned, Trap> {
    Err(Trap { cause, value })
}

fn result_of(op: RegOp, a: u32, b: u32) -> u32 {
    let mut r = Regs::new(0);
    r.x[1] = a;
    r.x[2] = b;
    let i = Instr::Reg {
        op,
        rd: 3,
        rs1: 1,
        rs2: 2,
    };
    finish(&mut r, i, 0);
    r.x[3]
}

#[test]
fn puts_one_letter(rt: HostRuntime) -> Result<(), Fail> {
    let code = code_at_65536(rt.alloc(), &ONE_LETTER)?;
    let mut r = Regs::new(0x1_0000);
    for _ in 0..2 {
        let Ok(planned) = plan(&code, &r) else {
            return Err("a trap".into());
        };
        let Access::Nothing = planned.access else {
            return Err("an access".into());
        };
        finish(&mut r, planned.instr, 0);
    }
    assert_eq!(rt; r.x[10], 65);
    let put = Planned {
        instr: Instr::Ecall,
        access: Access::Call,
    };
    assert_eq!(rt; plan(&code, &r), Ok(put));
    Ok(())
}

#[test]
fn a_kept_instruction_is_planned_as_a_fetched_one(rt: HostRuntime) -> Result<(), AllocError> {
    let fetched = code_at_65536(rt.alloc(), &TARGETS)?;
    let mut kept = code_at_65536(rt.alloc(), &TARGETS)?;
    kept.keep_decoded(rt.alloc())?;
    for k in 0..14u32 {
        let r = Regs::new(0xfffc + 2 * k);
        assert_eq!(rt; plan(&kept, &r), plan(&fetched, &r));
    }
    Ok(())
}

#[test]
fn traps_where_nothing_is_fetched(rt: HostRuntime) -> Result<(), AllocError> {
    let code = code_at_65536(rt.alloc(), &ONE_LETTER)?;
    assert_eq!(rt; plan(&code, &Regs::new(0x1_0002)), trap(0, 0x1_0002));
    assert_eq!(rt; plan(&code, &Regs::new(0x1_000c)), trap(1, 0x1_000c));
    Ok(())
}

#[test]
fn misaligned_targets(rt: HostRuntime) -> Result<(), AllocError> {
    let code = code_at_65536(rt.alloc(), &TARGETS)?;
    assert_eq!(rt; plan(&code, &Regs::new(0x1_0000)), trap(0, 0x1_0002));
    let not_taken = Planned {
        instr: Instr::Branch {
            op: BranchOp::Bne,
            rs1: 0,
            rs2: 0,
            imm: 2,
        },
        access: Access::Nothing,
    };
    assert_eq!(rt; plan(&code, &Regs::new(0x1_0004)), Ok(not_taken));
    Ok(())
}

#[test]
fn a_load_of_half_a_word_too_far(rt: HostRuntime) -> Result<(), AllocError> {
    let code = code_at_65536(rt.alloc(), &TARGETS)?;
    let mut r = Regs::new(0x1_0008);
    r.x[5] = 0x100_0000;
    assert_eq!(rt; plan(&code, &r), trap(4, 0xff_fffe));
    Ok(())
}

#[test]
fn an_atomic_is_planned(rt: HostRuntime) -> Result<(), Fail> {
    let code = code_at_65536(rt.alloc(), &TARGETS)?;
    let mut r = Regs::new(0x1_000c);
    r.x[6] = 1;
    r.x[7] = 0x1_0000;
    let access = Access::Amo {
        addr: 0x1_0000,
        op: AmoOp::Amoadd,
        rd: 5,
        value: 1,
    };
    let Ok(planned) = plan(&code, &r) else {
        return Err("a trap".into());
    };
    assert_eq!(rt; planned.access, access);
    assert_eq!(rt; plan(&code, &Regs::new(0x1_0010)), trap(2, 0));
    Ok(())
}

#[test]
fn quotients_and_remainders(rt: HostRuntime) {
    for op in [RegOp::Div, RegOp::Divu] {
        assert_eq!(rt; result_of(op, 7, 0), u32::MAX);
    }
    for op in [RegOp::Rem, RegOp::Remu] {
        assert_eq!(rt; result_of(op, 7, 0), 7);
    }
    assert_eq!(rt; result_of(RegOp::Div, 0x8000_0000, u32::MAX), 0x8000_0000);
    assert_eq!(rt; result_of(RegOp::Rem, 0x8000_0000, u32::MAX), 0);
}

#[test]
fn high_words_of_products(rt: HostRuntime) {
    let most = 0x8000_0000;
    assert_eq!(rt; result_of(RegOp::Mulh, most, most), 0x4000_0000);
    assert_eq!(rt; result_of(RegOp::Mulhu, u32::MAX, u32::MAX), 0xffff_fffe);
    assert_eq!(rt; result_of(RegOp::Mulhsu, most, u32::MAX), most);
    assert_eq!(rt; result_of(RegOp::Mulhsu, u32::MAX, u32::MAX), u32::MAX);
}

#[test]
fn words_after_atomics(rt: HostRuntime) {
    let cases = [
        (AmoOp::Amoadd, 0x8000_0001),
        (AmoOp::Amoswap, 1),
        (AmoOp::Amoxor, 0x8000_0001),
        (AmoOp::Amoor, 0x8000_0001),
        (AmoOp::Amoand, 0),
        (AmoOp::Amomin, 0x8000_0000),
        (AmoOp::Amomax, 1),
        (AmoOp::Amominu, 1),
        (AmoOp::Amomaxu, 0x8000_0000),
    ];
    for (op, word) in cases {
        assert_eq!(rt; amo_result(op, 0x8000_0000, 1), word);
    }
}

#[test]
fn a_loaded_byte_has_its_sign(rt: HostRuntime) {
    let mut r = Regs::new(0);
    let i = Instr::Load {
        op: LoadOp::Lb,
        rd: 1,
        rs1: 0,
        imm: 0,
    };
    finish(&mut r, i, 0x80);
    assert_eq!(rt; r.x[1], 0xffff_ff80);
    assert_eq!(rt; r.pc, 4);
}
