// One event of a hart.
ghost use Rattle.chip_config.specs.Settings.{settings};
ghost use Rattle.std.specs.Prelude.{◌≡◌, ◌<◌, [], length, slice_get, true, false};
ghost use Rattle.std.specs.Prelude.{Ok};
ghost use Rattle.coherent_mem.specs.Parts.{shown};
ghost use Rattle.line_memory.specs.Backing.{BackingView, HasSameNumbers};
ghost use Rattle.traffic_trace.specs.Notes.{Trace};
ghost use Rattle.rv32_hart.specs.Code.{CodeView};
ghost use Rattle.rv32_hart.specs.Act.{plan_of, IsPlan};
ghost use Rattle.rv32_hart.specs.declared.act.Planned.{Planned};
ghost use Rattle.offload_calls.specs.State.{launched_core};
ghost use Rattle.offload_calls.specs.Calls.{waits};
ghost use Rattle.fallback_lock.specs.Locks.{with_backs};
ghost use Rattle.chip_core.specs.Steps.{with_started};
ghost use Rattle.rv32_hart.specs.Act.{is_call_access};
ghost use Rattle.offload_calls.specs.HartAct.{hart_runs};
ghost use Rattle.chip_laws.specs.Design.{Design};
ghost use Rattle.chip_laws.specs.Rules.{World};
ghost use Rattle.chip_core.specs.Views.{FitsCode};
ghost use Rattle.chip_core.specs.Fits.{FitCores};
ghost use Rattle.chip_core.specs.Calls.{MakesCall};
ghost use Rattle.chip_core.specs.Turns.{KeepFits, KeepsNoted};
ghost use Rattle.chip_core.specs.Turns.{HartTurns, HartSteps, IsReached, ShowsParts};

use crate::cores::Cores;
use crate::exchange::exchange;
use crate::stage::Stage;
use arrayvec::ArrayVec;
use chip_config::Config;
use coherent_mem::Coherent;
use conda_base::Actor;
use offload_calls::{Hart, HartStatus, Served, serve_hart, waits};
use rv32_hart::{Access, Code, Planned, finish, plan};
use schedule_log::Entry;
use traffic_trace::Traffic;

// One event of hart h: it is idle where it has ended, held under a core's lock, waits, or makes an
// act.
pub fn hart_event(
    h: u8,
    hart: &mut Hart,
    config: &Config,
    code: &Code,
    memory: &mut Coherent,
    cores: &mut Cores,
    log: &mut Traffic,
    out: &mut ArrayVec<u8, 64>,
) -> Entry
    requires holder { h < (shown memory.old).holders }
    requires same { FitsCode code.now (shown memory.old) }
    requires line_bytes { config.now.line_bytes ≡ (shown memory.old).line_bytes }
    requires cores { FitCores (settings config.now) code.now cores.old.statuses.items
        cores.old.portions.items cores.old.lock }
    requires empty { out.old.items ≡ [] }
    ensures turns { (d : Design) (w : World) → IsReached d w
        → ShowsParts d code.now (shown memory.old) log.old cores.old w → hart.old ≡ w.flat.harts h
        → HartTurns d w h code.now hart.new (shown memory.new) log.new cores.new result
        out.new.items }
    ensures kept { FitsCode code.now (shown memory.new) }
    ensures numbers { HasSameNumbers (shown memory.old) (shown memory.new) }
    ensures noted { KeepsNoted (shown memory.old) log.old (shown memory.new) log.new }
    ensures cores { FitCores (settings config.now) code.now cores.new.statuses.items
        cores.new.portions.items cores.new.lock }
{
    if !is_running(hart) {
        return Entry::Idle(Actor::Hart(h));
    }
    if cores.lock.held(Actor::Hart(h)) {
        return Entry::Held(Actor::Hart(h));
    }
    match plan(code, &hart.regs) {
        Err(trap) => {
            hart.status = HartStatus::Trapped(trap);
            Entry::Step(h)
        }
        Ok(planned) if is_call(planned.access) => {
            if waits(&hart.regs, &cores.statuses) {
                return Entry::Waits(h);
            }
            call(hart, cores, out);
            Entry::Step(h)
        }
        Ok(planned) => {
            act(
                h,
                hart,
                planned,
                code,
                config.line_bytes,
                memory,
                cores,
                log,
            );
            Entry::Step(h)
        }
    }
}

fn is_running(hart: &Hart) -> bool
    ensures { result ≡ hart_runs hart.now.status }
{
    matches!(hart.status, HartStatus::Run)
}

fn is_call(access: Access) -> bool
    ensures { result ≡ is_call_access access }
{
    matches!(access, Access::Call)
}

// An act of a hart that is no call: its access, and then its effect on the registers.
fn act(
    h: u8,
    hart: &mut Hart,
    planned: Planned,
    code: &Code,
    line_bytes: u32,
    memory: &mut Coherent,
    cores: &mut Cores,
    log: &mut Traffic,
)
    requires holder { h < (shown memory.old).holders }
    requires same { FitsCode code.now (shown memory.old) }
    requires line_bytes { line_bytes ≡ (shown memory.old).line_bytes }
    requires plan { IsPlan code.now planned }
    requires plain { is_call_access planned.access ≡ false }
    ensures steps { (d : Design) (w : World) → IsReached d w
        → ShowsParts d code.now (shown memory.old) log.old cores.old w → hart.old ≡ w.flat.harts h
        → hart_runs hart.old.status ≡ true → plan_of code.now hart.old.regs ≡ Ok planned
        → HartSteps d w h code.now hart.new (shown memory.new) log.new cores.new [] }
    ensures kept { FitsCode code.now (shown memory.new) }
    ensures numbers { HasSameNumbers (shown memory.old) (shown memory.new) }
    ensures noted { KeepsNoted (shown memory.old) log.old (shown memory.new) log.new }
    ensures fits { KeepFits code.now cores.old cores.new }
{
    let loaded = exchange(
        h,
        planned.access,
        code,
        line_bytes,
        memory,
        &mut cores.portions,
        log,
    );
    finish(&mut hart.regs, planned.instr, loaded);
}

// A call of a hart that goes on. The byte that it puts comes into `out`.
fn call(hart: &mut Hart, cores: &mut Cores, out: &mut ArrayVec<u8, 64>)
    requires runs { hart_runs hart.old.status ≡ true }
    requires goes_on { waits (slice_get cores.old.statuses.items) hart.old.regs ≡ false }
    requires held { length cores.old.portions.items ≡ length cores.old.statuses.items }
    requires counted { length cores.old.lock.backs ≡ length cores.old.statuses.items }
    requires empty { out.old.items ≡ [] }
    ensures { MakesCall hart.old cores.old cores.new hart.new out.new.items }
{
    match serve_hart(&mut hart.regs, &mut cores.statuses) {
        Served::Next => {}
        Served::Exit(value) => hart.status = HartStatus::Exit(value),
        Served::Launch { core, entry, arg } => launch(core, entry, arg, cores),
        Served::Put(byte) => out.push(byte),
        Served::Trapped(trap) => hart.status = HartStatus::Trapped(trap),
    }
}

// Starts an idle core at an entry, with an argument in x10: its rollbacks count anew.
fn launch(core: u8, entry: u32, arg: u32, cores: &mut Cores)
    requires core { core < length cores.old.portions.items }
    requires counted { core < length cores.old.lock.backs }
    ensures statuses { cores.new.statuses ≡ cores.old.statuses }
    ensures lock { cores.new.lock ≡ with_backs cores.old.lock core 0 }
    ensures portions { cores.new.portions.items
        ≡ with_started cores.old.portions.items core (launched_core entry arg).regs }
{
    if let Stage::Ready(ready) = &mut cores.portions[core as usize] {
        ready.start(entry, arg);
    }
    cores.lock.fresh(core);
}
