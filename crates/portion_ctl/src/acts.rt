// One act of a try, or the cause of its end.
ghost use Rattle.std.specs.Prelude.{◌≡◌, true, false, Ok};
ghost use Rattle.rv32_hart.specs.Act.{is_call_access};
ghost use Rattle.offload_calls.specs.declared.status.CoreStatus.TheVariants as Core_is;
ghost use Rattle.portion_ctl.specs.Bodies.{ActsAll, CallsOrEnds, HasParts, Keeps, PerformsAll, PlanIn};
ghost use Rattle.portion_ctl.specs.States.{FitsMemory};

use crate::body::Body;
use crate::exchange::exchange;
use line_memory::Backing;
use offload_calls::{CoreStatus, Kernel, is_put, serve_core};
use rv32_hart::{Access, Code, Planned, finish, plan};
use traffic_trace::Traffic;

// Makes a kernel's call, or gives the cause that stands against it.
fn call(b: &mut Body) -> Option<u8>
    requires parts { HasParts b.old }
    requires runs { b.old.status ≡ Core_is.Run }
    ensures calls { CallsOrEnds b.old result b.new }
    ensures keeps { Keeps b.old b.new }
    ensures parts { HasParts b.new }
{
    if is_put(&b.regs) && b.held.len() == b.limits.out_max as usize {
        return Some(7);
    }
    match serve_core(&mut b.regs) {
        Kernel::Put(byte) => b.held.push(byte),
        Kernel::Done(value) => b.status = CoreStatus::Done(value),
        Kernel::Trapped(trap) => b.status = CoreStatus::Trapped(trap),
    }
    None
}

fn is_call(access: Access) -> bool
    ensures { result ≡ is_call_access access }
{
    matches!(access, Access::Call)
}

// Makes an act by its plan, or gives the cause that stands against it.
fn perform<B: Backing>(b: &mut Body, planned: Planned, mem: &B, log: &mut Traffic) -> Option<u8>
    requires parts { HasParts b.old }
    requires runs { b.old.status ≡ Core_is.Run }
    requires plan { PlanIn (B.shown mem.now) b.old.cache.line_bytes planned }
    ensures performs { PerformsAll (B.shown mem.now) b.old (Ok planned) log.old result b.new
        log.new }
    ensures keeps { Keeps b.old b.new }
    ensures parts { HasParts b.new }
    ensures acts { b.new.acts ≡ b.old.acts }
{
    if is_call(planned.access) {
        return call(b);
    }
    match exchange(b, mem, log, planned.access) {
        Ok(loaded) => {
            finish(&mut b.regs, planned.instr, loaded);
            None
        }
        Err(cause) => Some(cause),
    }
}

// One act, or the first cause of the end that stands, with nothing done.
pub fn act_on<B: Backing>(b: &mut Body, code: &Code, mem: &B, log: &mut Traffic) -> Option<u8>
    requires parts { HasParts b.old }
    requires memory { FitsMemory code.now (B.shown mem.now) b.old.cache.line_bytes }
    ensures acts { ActsAll code.now (B.shown mem.now) b.old log.old result b.new log.new }
    ensures keeps { Keeps b.old b.new }
    ensures parts { HasParts b.new }
{
    match b.status {
        CoreStatus::Done(_) => return Some(1),
        CoreStatus::Trapped(_) => return Some(2),
        CoreStatus::Run => {}
        CoreStatus::Idle => unreachable!(),
    }
    if b.acts == b.limits.portion_max {
        return Some(3);
    }
    match plan(code, &b.regs) {
        Err(trap) => {
            b.status = CoreStatus::Trapped(trap);
            b.acts += 1;
            None
        }
        Ok(planned) => {
            let cause = perform(b, planned, mem, log);
            if cause.is_none() {
                b.acts += 1;
            }
            cause
        }
    }
}
