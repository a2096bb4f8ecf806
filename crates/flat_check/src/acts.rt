// Acts on one flat memory.
ghost use Rattle.std.specs.Prelude.{◌≡◌, ◌&&◌, true, false, length, slice_get, None, Ok, IfOk};
ghost use Rattle.rv32_hart.specs.Act.{AccessFits, IsPlan, after, is_call_access, plan_of};
ghost use Rattle.offload_calls.specs.Calls.{waits};
ghost use Rattle.offload_calls.specs.HartAct.{hart_runs, waits_next, act_effect, call_effect};
ghost use Rattle.flat_check.specs.HartActs.{HasEffect, turn_effect};
ghost use Rattle.offload_calls.specs.Stores.{byte_at, overlay, stored_addresses};
ghost use Rattle.offload_calls.specs.Effects.{loads_of, span_of_access, span_value, stores_of_access};
ghost use Rattle.offload_calls.specs.CoreActs.{core_runs, kernel_call_effect};
ghost use Rattle.flat_check.specs.Acts.{access_of, count_of_put, effect_on, stored_by};

use arrayvec::ArrayVec;
use conda_base::{read_value, write_value};
use offload_calls::{
    Core, CoreStatus, Hart, HartStatus, Kernel, Served, serve_core, serve_hart, waits,
};
use rv32_hart::{Access, Code, Planned, Regs, Trap, amo_result, finish, plan};

/// What an act accessed, and whether it put a byte.
#[derive(Clone, Copy, Debug, PartialEq, Eq)]
pub struct Act {
    pub access: Access,
    pub put: bool,
}

// Makes an access, and gives the value that it loads, or 0.
pub fn exchange(code: &Code, memory: &mut [u8], access: Access) -> u32
    requires fits { AccessFits code.now access }
    requires long { length memory.old ≡ length code.now.bytes }
    ensures value { result ≡ span_value (byte_at code.now.base memory.old) (span_of_access access) }
    ensures memory { memory.new
        ≡ overlay code.now.base memory.old (stores_of_access result access) }
{
    let base = code.base();
    match access {
        Access::Nothing | Access::Call => 0,
        Access::Load { addr, size, .. } => read_value(memory, (addr - base) as usize, size),
        Access::Store { addr, size, value } => {
            write_value(memory, (addr - base) as usize, size, value);
            0
        }
        Access::Amo {
            addr,
            op,
            value,
            ..
        } => {
            let place = (addr - base) as usize;
            let old = read_value(memory, place, 4);
            write_value(memory, place, 4, amo_result(op, old, value));
            old
        }
    }
}

/// Whether a core runs.
pub fn is_running_core(status: CoreStatus) -> bool
    ensures { result ≡ core_runs status }
{
    matches!(status, CoreStatus::Run)
}

fn is_call(access: Access) -> bool
    ensures { result ≡ is_call_access access }
{
    matches!(access, Access::Call)
}

// A call of a kernel: whether it put a byte.
fn kernel_call(core: &mut Core) -> bool
    requires { core_runs core.old.status ≡ true }
    ensures core { core.new ≡ (kernel_call_effect core.old.regs).core }
    ensures put { length (kernel_call_effect core.old.regs).puts ≡ count_of_put result }
{
    match serve_core(&mut core.regs) {
        Kernel::Put(_) => true,
        Kernel::Done(value) => {
            core.status = CoreStatus::Done(value);
            false
        }
        Kernel::Trapped(trap) => {
            core.status = CoreStatus::Trapped(trap);
            false
        }
    }
}

/// One act of a core that runs.
pub fn core_act(code: &Code, memory: &mut [u8], core: &mut Core) -> Act
    requires runs { core_runs core.old.status ≡ true }
    requires long { length memory.old ≡ length code.now.bytes }
    ensures core { core.new ≡ (effect_on code.now memory.old core.old.regs).core }
    ensures memory { memory.new ≡ overlay code.now.base memory.old
        (effect_on code.now memory.old core.old.regs).stores }
    ensures access { result.access ≡ access_of (plan_of code.now core.old.regs) }
    ensures put { length (effect_on code.now memory.old core.old.regs).puts
        ≡ count_of_put result.put }
    ensures long { length memory.new ≡ length memory.old }
    ensures fits { AccessFits code.now result.access }
{
    match plan(code, &core.regs) {
        Err(trap) => {
            core.status = CoreStatus::Trapped(trap);
            Act {
                access: Access::Nothing,
                put: false,
            }
        }
        Ok(planned) => kernel_act(code, memory, core, planned),
    }
}

// An act of a kernel by its plan.
fn kernel_act(code: &Code, memory: &mut [u8], core: &mut Core, planned: Planned) -> Act
    requires runs { core_runs core.old.status ≡ true }
    requires long { length memory.old ≡ length code.now.bytes }
    requires plan { plan_of code.now core.old.regs ≡ Ok planned }
    requires fits { IsPlan code.now planned }
    ensures core { core.new ≡ (effect_on code.now memory.old core.old.regs).core }
    ensures memory { memory.new ≡ overlay code.now.base memory.old
        (effect_on code.now memory.old core.old.regs).stores }
    ensures access { result.access ≡ access_of (plan_of code.now core.old.regs) }
    ensures put { length (effect_on code.now memory.old core.old.regs).puts
        ≡ count_of_put result.put }
    ensures long { length memory.new ≡ length memory.old }
    ensures fits { AccessFits code.now result.access }
{
    let access = planned.access;
    if is_call(access) {
        let put = kernel_call(core);
        return Act { access, put };
    }
    let loaded = exchange(code, memory, access);
    finish(&mut core.regs, planned.instr, loaded);
    Act { access, put: false }
}

/// A core that a hart's call starts.
#[derive(Clone, Copy, Debug, PartialEq, Eq)]
pub struct Launch {
    pub core: u8,
    pub entry: u32,
    pub arg: u32,
}

/// What an act of a hart did.
#[derive(Clone, Copy, Debug, PartialEq, Eq)]
pub struct HartActed {
    pub act: Act,
    pub launch: Option<Launch>,
}

// A call of a hart that goes on.
fn hart_call(hart: &mut Hart, cores: &mut ArrayVec<CoreStatus, 4>) -> HartActed
    requires runs { hart_runs hart.old.status ≡ true }
    requires goes_on { waits (slice_get cores.old.items) hart.old.regs ≡ false }
    ensures effect { HasEffect (call_effect (slice_get cores.old.items) hart.old.regs) hart.new
        cores.old.items cores.new.items result.launch (count_of_put result.act.put) }
    ensures access { result.act.access ≡ Access.Call }
{
    let mut put = false;
    let mut launch = None;
    match serve_hart(&mut hart.regs, cores) {
        Served::Next => {}
        Served::Exit(value) => hart.status = HartStatus::Exit(value),
        Served::Launch { core, entry, arg } => launch = Some(Launch { core, entry, arg }),
        Served::Put(_) => put = true,
        Served::Trapped(trap) => hart.status = HartStatus::Trapped(trap),
    }
    HartActed {
        act: Act {
            access: Access::Call,
            put,
        },
        launch,
    }
}

// An act of a hart that is no call.
fn hart_plain(code: &Code, memory: &mut [u8], hart: &mut Hart, planned: Planned)
    requires long { length memory.old ≡ length code.now.bytes }
    requires fits { IsPlan code.now planned }
    requires plain { is_call_access planned.access ≡ false }
    ensures regs { hart.new.regs ≡ after hart.old.regs planned.instr
        (span_value (byte_at code.now.base memory.old) (span_of_access planned.access)) }
    ensures status { hart.new.status ≡ hart.old.status }
    ensures memory { memory.new ≡ overlay code.now.base memory.old
        (stores_of_access (span_value (byte_at code.now.base memory.old)
        (span_of_access planned.access)) planned.access) }
    ensures long { length memory.new ≡ length memory.old }
{
    let loaded = exchange(code, memory, planned.access);
    finish(&mut hart.regs, planned.instr, loaded);
}

fn is_running_hart(status: HartStatus) -> bool
    ensures { result ≡ hart_runs status }
{
    matches!(status, HartStatus::Run)
}

// Whether a hart's next act, by its plan, is to wait on a core that runs.
fn is_waiting(
    code: &Code,
    next: &Result<Planned, Trap>,
    regs: &Regs,
    cores: &ArrayVec<CoreStatus, 4>,
) -> bool
    requires { plan_of code.now regs.now ≡ next.now }
    ensures { result ≡ waits_next code.now (slice_get cores.now.items) regs.now }
{
    match next {
        Err(_) => false,
        Ok(planned) => is_call(planned.access) && waits(regs, cores),
    }
}

/// One act of a hart: none where it doesn't run, or waits.
pub fn hart_turn(
    code: &Code,
    memory: &mut [u8],
    hart: &mut Hart,
    cores: &mut ArrayVec<CoreStatus, 4>,
) -> HartActed
    requires long { length memory.old ≡ length code.now.bytes }
    ensures effect { HasEffect (turn_effect code.now (slice_get cores.old.items) memory.old hart.old)
        hart.new cores.old.items cores.new.items result.launch (count_of_put result.act.put) }
    ensures memory { memory.new ≡ overlay code.now.base memory.old
        (turn_effect code.now (slice_get cores.old.items) memory.old hart.old).stores }
    ensures stores { stored_addresses
        (turn_effect code.now (slice_get cores.old.items) memory.old hart.old).stores
        ≡ stored_by result.act.access }
    ensures long { length memory.new ≡ length memory.old }
    ensures fits { AccessFits code.now result.act.access }
{
    let next = plan(code, &hart.regs);
    if !is_running_hart(hart.status) {
        return no_call(Access::Nothing);
    }
    if is_waiting(code, &next, &hart.regs, cores) {
        return no_call(Access::Nothing);
    }
    hart_act(code, memory, hart, cores, next)
}

// The act of a hart that runs and doesn't wait, by its plan.
fn hart_act(
    code: &Code,
    memory: &mut [u8],
    hart: &mut Hart,
    cores: &mut ArrayVec<CoreStatus, 4>,
    next: Result<Planned, Trap>,
) -> HartActed
    requires runs { hart_runs hart.old.status ≡ true }
    requires goes_on { waits_next code.now (slice_get cores.old.items) hart.old.regs ≡ false }
    requires long { length memory.old ≡ length code.now.bytes }
    requires plan { plan_of code.now hart.old.regs ≡ next }
    requires planned { IfOk next (IsPlan code.now) }
    ensures effect { HasEffect (act_effect code.now (slice_get cores.old.items) memory.old hart.old.regs)
        hart.new cores.old.items cores.new.items result.launch (count_of_put result.act.put) }
    ensures memory { memory.new ≡ overlay code.now.base memory.old
        (act_effect code.now (slice_get cores.old.items) memory.old hart.old.regs).stores }
    ensures access { result.act.access ≡ access_of (plan_of code.now hart.old.regs) }
    ensures long { length memory.new ≡ length memory.old }
    ensures fits { AccessFits code.now result.act.access }
{
    match next {
        Err(trap) => {
            hart.status = HartStatus::Trapped(trap);
            no_call(Access::Nothing)
        }
        Ok(planned) => {
            if is_call(planned.access) {
                return hart_call(hart, cores);
            }
            hart_plain(code, memory, hart, planned);
            no_call(planned.access)
        }
    }
}

fn no_call(access: Access) -> HartActed
    ensures access { result.act.access ≡ access }
    ensures put { result.act.put ≡ false }
    ensures launch { result.launch ≡ None }
{
    HartActed {
        act: Act { access, put: false },
        launch: None,
    }
}
