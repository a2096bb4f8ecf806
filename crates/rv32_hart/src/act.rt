// One act of a hart: its plan, which changes nothing, and its effect on the registers.
ghost use Rattle.std.specs.Prelude.{◌≡◌, ◌+◌, ◌<◌, ◌≤◌, ◌^◌, ◌&&◌, false, nat_le, length, IfOk};
ghost use Rattle.conda_base.specs.Lines.{IsAccessSize};
ghost use Rattle.rv32_decode.specs.Ranges.{FieldsFit};
ghost use Rattle.rv32_hart.specs.Regs.{IsRegs};
ghost use Rattle.rv32_hart.specs.Code.{IsCode, in_memory};
ghost use Rattle.rv32_hart.specs.Act.{trapped, checked, jumps, plan_instr, plan_of, after, branches, target_of_jalr, is_system, IsPlan};

use crate::arithmetic::{
    extend, imm_result, is_signed, is_taken, load_size, reg_result, store_size,
};
use crate::code::Code;
use crate::regs::{Regs, Trap};
use rv32_decode::{AmoOp, BranchOp, Instr, decode};

/// What an act does beside changing registers. Sizes are in bytes.
#[derive(Clone, Copy, Debug, PartialEq, Eq)]
pub enum Access {
    Nothing,
    Load {
        addr: u32,
        size: u8,
        signed: bool,
        rd: u8,
    },
    Store {
        addr: u32,
        size: u8,
        value: u32,
    },
    /// A load of the word at `addr` and then a store of what the operation makes of it.
    Amo {
        addr: u32,
        op: AmoOp,
        rd: u8,
        value: u32,
    },
    Call,
}

/// The instruction that is next, with its access.
#[derive(Clone, Copy, Debug, PartialEq, Eq)]
pub struct Planned {
    pub instr: Instr,
    pub access: Access,
}

/// The next act of these registers, or the first of its traps.
///
/// The causes of a trap: 0, pc or the target of a jump or taken branch is no multiple of 4; 1, pc
/// can't be fetched from; 2, the word is no instruction; 3, EBREAK; 4 and 5, a load that isn't
/// aligned or isn't in memory; 6 and 7, such a store or atomic.
#[tactic(auto, unfolding(crate::specs::Act::plan_of))]
pub fn plan(code: &Code, r: &Regs) -> Result<Planned, Trap>
    ensures value { result ≡ plan_of code.now r.now }
    ensures fits { IfOk result (IsPlan code.now) }
    ensures code { IsCode code.now }
{
    if let Some(instr) = code.kept_instr(r.pc) {
        return plan_instr(code, r, instr);
    }
    let word = code.word(r.pc);
    if r.pc % 4 != 0 {
        return refuse(0, r.pc);
    }
    let Some(word) = word else {
        return refuse(1, r.pc);
    };
    match decode(word) {
        Some(instr) => plan_instr(code, r, instr),
        None => refuse(2, word),
    }
}

/// Gives the registers the effect of an instruction, `loaded` being the zero-extended value that it
/// loads.
pub fn finish(r: &mut Regs, i: Instr, loaded: u32)
    requires fields { FieldsFit i }
    requires effect { is_system i ≡ false }
    ensures value { r.new ≡ after r.old i loaded }
    ensures regs { IsRegs r.old → IsRegs r.new }
{
    apply(r, i, loaded);
}

#[tactic(auto, unfolding(crate::specs::Act::after))]
fn apply(r: &mut Regs, i: Instr, loaded: u32)
    requires fields { FieldsFit i }
    requires effect { is_system i ≡ false }
    ensures { r.new ≡ after r.old i loaded }
{
    let mut next = r.pc.wrapping_add(4);
    match i {
        Instr::Lui { rd, imm } => r.write(rd, imm),
        Instr::Auipc { rd, imm } => r.write(rd, r.pc.wrapping_add(imm)),
        Instr::Jal { rd, imm } => {
            r.write(rd, next);
            next = r.pc.wrapping_add(imm);
        }
        Instr::Jalr { rd, rs1, imm } => {
            let target = jalr_target(r, rs1, imm);
            r.write(rd, next);
            next = target;
        }
        Instr::Branch { op, rs1, rs2, imm } => {
            if branches(r, op, rs1, rs2) {
                next = r.pc.wrapping_add(imm);
            }
        }
        Instr::Load { op, rd, .. } => r.write(rd, extend(op, loaded)),
        Instr::Imm { op, rd, rs1, imm } => r.write(rd, imm_result(op, r.get(rs1), imm)),
        Instr::Reg { op, rd, rs1, rs2 } => {
            r.write(rd, reg_result(op, r.get(rs1), r.get(rs2)));
        }
        Instr::Amo { rd, .. } => r.write(rd, loaded),
        Instr::Store { .. } | Instr::Fence | Instr::Ecall | Instr::Ebreak => {}
    }
    r.pc = next;
}

fn plan_instr(code: &Code, r: &Regs, instr: Instr) -> Result<Planned, Trap>
    requires { FieldsFit instr }
    ensures { result ≡ plan_instr code.now r.now instr }
{
    let plain = Ok(Planned {
        instr,
        access: Access::Nothing,
    });
    match instr {
        Instr::Branch { op, rs1, rs2, .. } if !branches(r, op, rs1, rs2) => plain,
        Instr::Jal { imm, .. } | Instr::Branch { imm, .. } => {
            jump(r.pc.wrapping_add(imm), instr)
        }
        Instr::Jalr { rs1, imm, .. } => jump(jalr_target(r, rs1, imm), instr),
        Instr::Load { op, rd, rs1, imm } => {
            let addr = r.get(rs1).wrapping_add(imm);
            let size = load_size(op);
            let signed = is_signed(op);
            let access = Access::Load {
                addr,
                size,
                signed,
                rd,
            };
            check(code, 4, addr, size, Planned { instr, access })
        }
        Instr::Store { op, rs1, rs2, imm } => {
            let addr = r.get(rs1).wrapping_add(imm);
            let size = store_size(op);
            let value = r.get(rs2);
            let access = Access::Store { addr, size, value };
            check(code, 6, addr, size, Planned { instr, access })
        }
        Instr::Amo {
            op,
            rd,
            rs1,
            rs2,
            ..
        } => {
            let addr = r.get(rs1);
            let value = r.get(rs2);
            let access = Access::Amo {
                addr,
                op,
                rd,
                value,
            };
            check(code, 6, addr, 4, Planned { instr, access })
        }
        Instr::Ecall => Ok(Planned {
            instr,
            access: Access::Call,
        }),
        Instr::Ebreak => refuse(3, r.pc),
        Instr::Lui { .. }
        | Instr::Auipc { .. }
        | Instr::Imm { .. }
        | Instr::Reg { .. }
        | Instr::Fence => plain,
    }
}

fn branches(r: &Regs, op: BranchOp, rs1: u8, rs2: u8) -> bool
    requires left { rs1 < 32 }
    requires right { rs2 < 32 }
    ensures { result ≡ branches r.now op rs1 rs2 }
{
    is_taken(op, r.get(rs1), r.get(rs2))
}

fn jalr_target(r: &Regs, rs1: u8, imm: u32) -> u32
    requires { rs1 < 32 }
    ensures { result ≡ target_of_jalr r.now rs1 imm }
{
    let sum = r.get(rs1).wrapping_add(imm);
    sum - sum % 2
}

fn refuse(cause: u8, value: u32) -> Result<Planned, Trap>
    ensures { result ≡ trapped cause value }
{
    Err(Trap { cause, value })
}

// The trap after `cause` is that of an access outside memory.
fn check(code: &Code, cause: u8, addr: u32, size: u8, planned: Planned) -> Result<Planned, Trap>
    requires cause { cause < 8 }
    requires size { IsAccessSize size }
    ensures { result ≡ checked code.now cause addr size (Ok planned) }
{
    if addr % u32::from(size) != 0 {
        return refuse(cause, addr);
    }
    if is_in_memory(code, addr, size) {
        Ok(planned)
    } else {
        refuse(cause + 1, addr)
    }
}

fn is_in_memory(code: &Code, addr: u32, size: u8) -> bool
    ensures { result ≡ in_memory code.now addr size }
{
    let base = u64::from(code.base());
    let end = base + code.bytes().len() as u64;
    base <= u64::from(addr) && u64::from(addr) + u64::from(size) <= end
}

fn jump(target: u32, instr: Instr) -> Result<Planned, Trap>
    ensures { result ≡ jumps target instr }
{
    if target % 4 == 0 {
        Ok(Planned {
            instr,
            access: Access::Nothing,
        })
    } else {
        refuse(0, target)
    }
}
