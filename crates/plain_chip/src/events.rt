// One event of a hart, and one act of a kernel.
ghost use Rattle.std.specs.Prelude.{ℕ, ◌≡◌, ◌<◌, ◌≤◌, [], Some, length, slice_get, slice_set, true};
ghost use Rattle.coherent_mem.specs.Parts.{shown};
ghost use Rattle.line_memory.specs.Backing.{HasSameNumbers};
ghost use Rattle.rv32_hart.specs.declared.regs.Regs.{Regs};
ghost use Rattle.offload_calls.specs.State.{Setup, State, launched_core};
ghost use Rattle.offload_calls.specs.HartAct.{hart_runs};
ghost use Rattle.offload_calls.specs.CoreActs.{core_runs};
ghost use Rattle.hart_turns.specs.Steps.{FitsCode, KeepsNoted};
ghost use Rattle.hart_turns.specs.Flat.{ShowsBytes, ShowsHart, traced};
ghost use Rattle.hart_turns.specs.Plans.{beside, core_with};
ghost use Rattle.plain_chip.specs.Events.{IsCoreAct, IsHartEvent, IsKernelEvent, ShowsRegs, cores_of};
ghost use Rattle.plain_chip.specs.Views.{runs_at};

use arrayvec::ArrayVec;
use coherent_mem::Coherent;
use conda_base::Actor;
use hart_turns::{Launch, Turn, act, hart_turn, kernel_turn};
use offload_calls::{CoreStatus, Hart, HartStatus};
use rv32_hart::{Code, Regs};
use schedule_log::Entry;
use traffic_trace::Traffic;

fn is_running(hart: &Hart) -> bool
    ensures { result ≡ hart_runs hart.now.status }
{
    matches!(hart.status, HartStatus::Run)
}

// The registers of a core that starts.
fn launched(entry: u32, arg: u32) -> Regs
    ensures { result ≡ (launched_core entry arg).regs }
{
    let mut regs = Regs::new(entry);
    regs.x[10] = arg;
    regs
}

// A core starts, where there is one of its number.
fn start(launch: Launch, regs: &mut [Regs])
    ensures { regs.new
        ≡ slice_set regs.old launch.core (launched_core launch.entry launch.arg).regs }
{
    if (launch.core as usize) < regs.len() {
        regs[launch.core as usize] = launched(launch.entry, launch.arg);
    }
}

// One event of hart h, which may be held.
pub fn hart_event(
    h: u8,
    held: bool,
    hart: &mut Hart,
    code: &Code,
    memory: &mut Coherent,
    statuses: &mut ArrayVec<CoreStatus, 4>,
    regs: &mut Vec<Regs>,
    log: &mut Traffic,
    out: &mut ArrayVec<u8, 64>,
) -> Entry
    requires holder { h < (shown memory.old).holders }
    requires same { FitsCode code.now (shown memory.old) }
    requires empty { out.old.items ≡ [] }
    ensures event { (s : Setup) (f : State) → code.now ≡ s.code → ShowsBytes s f (shown memory.old)
        → ShowsHart s f h (beside hart.old statuses.old.items) → ShowsRegs s f regs.old.items
        → IsHartEvent s f h held (traced (shown memory.old) log.old)
        (traced (shown memory.new) log.new) (beside hart.new statuses.new.items) regs.new.items
        result out.new.items }
    ensures few { length out.new.items ≤ 1 }
    ensures kept { FitsCode code.now (shown memory.new) }
    ensures numbers { HasSameNumbers (shown memory.old) (shown memory.new) }
    ensures noted { KeepsNoted (shown memory.old) log.old (shown memory.new) log.new }
    ensures statuses { length statuses.new.items ≡ length statuses.old.items }
    ensures regs { length regs.new.items ≡ length regs.old.items }
{
    if !is_running(hart) {
        return Entry::Idle(Actor::Hart(h));
    }
    if held {
        return Entry::Held(Actor::Hart(h));
    }
    match hart_turn(hart, statuses, code, out) {
        Turn::Waits => Entry::Waits(h),
        Turn::Over(Some(launch)) => {
            start(launch, regs);
            Entry::Step(h)
        }
        Turn::Over(None) => Entry::Step(h),
        Turn::Acts(planned) => {
            act(h, &mut hart.regs, planned, code, memory, log);
            Entry::Step(h)
        }
    }
}

// One act of a kernel that runs, by a holder of memory.
fn kernel_act(
    holder: u8,
    regs: &mut Regs,
    status: &mut CoreStatus,
    code: &Code,
    memory: &mut Coherent,
    log: &mut Traffic,
    out: &mut ArrayVec<u8, 64>,
)
    requires holder { holder < (shown memory.old).holders }
    requires same { FitsCode code.now (shown memory.old) }
    requires runs { core_runs status.old ≡ true }
    requires empty { out.old.items ≡ [] }
    ensures event { (s : Setup) (f : State) (j : ℕ) → code.now ≡ s.code
        → ShowsBytes s f (shown memory.old) → core_with regs.old status.old ≡ f.cores j
        → IsKernelEvent s f j holder (traced (shown memory.old) log.old)
        (traced (shown memory.new) log.new) (core_with regs.new status.new) out.new.items }
    ensures few { length out.new.items ≤ 1 }
    ensures kept { FitsCode code.now (shown memory.new) }
    ensures numbers { HasSameNumbers (shown memory.old) (shown memory.new) }
    ensures noted { KeepsNoted (shown memory.old) log.old (shown memory.new) log.new }
{
    match kernel_turn(regs, status, code, out) {
        Some(planned) => act(holder, regs, planned, code, memory, log),
        None => {}
    }
}

// One act of core j, which runs a kernel, by a holder of memory.
pub fn core_act(
    j: u8,
    holder: u8,
    code: &Code,
    memory: &mut Coherent,
    statuses: &mut ArrayVec<CoreStatus, 4>,
    regs: &mut Vec<Regs>,
    log: &mut Traffic,
    out: &mut ArrayVec<u8, 64>,
)
    requires range { j < length statuses.old.items }
    requires regs { j < length regs.old.items }
    requires runs { runs_at statuses.old.items j ≡ true }
    requires holder { holder < (shown memory.old).holders }
    requires same { FitsCode code.now (shown memory.old) }
    requires empty { out.old.items ≡ [] }
    ensures event { (s : Setup) (f : State) → code.now ≡ s.code → ShowsBytes s f (shown memory.old)
        → slice_get statuses.old.items j ≡ Some (f.cores j).status
        → slice_get regs.old.items j ≡ Some (f.cores j).regs
        → IsCoreAct s f j holder (traced (shown memory.old) log.old)
        (traced (shown memory.new) log.new) (cores_of statuses.old.items regs.old.items)
        (cores_of statuses.new.items regs.new.items) out.new.items }
    ensures few { length out.new.items ≤ 1 }
    ensures kept { FitsCode code.now (shown memory.new) }
    ensures numbers { HasSameNumbers (shown memory.old) (shown memory.new) }
    ensures noted { KeepsNoted (shown memory.old) log.old (shown memory.new) log.new }
    ensures statuses { length statuses.new.items ≡ length statuses.old.items }
    ensures regs { length regs.new.items ≡ length regs.old.items }
{
    let mut status = statuses[j as usize];
    kernel_act(
        holder,
        &mut regs[j as usize],
        &mut status,
        code,
        memory,
        log,
        out,
    );
    statuses[j as usize] = status;
}
