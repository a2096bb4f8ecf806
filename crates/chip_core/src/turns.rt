// One event of a near-data core.
ghost use Rattle.chip_config.specs.Settings.{settings};
ghost use Rattle.std.specs.Prelude.{ℕ, ◌≡◌, ◌<◌, ◌≤◌, [], List, length, None, All};
ghost use Rattle.rv32_hart.specs.declared.regs.Regs.{Regs};
ghost use Rattle.rv32_hart.specs.Code.{CodeView};
ghost use Rattle.line_memory.specs.Backing.{BackingView, HasSameNumbers, IsInRange};
ghost use Rattle.traffic_trace.specs.Notes.{Trace};
ghost use Rattle.coherent_mem.specs.Parts.{shown};
ghost use Rattle.fallback_lock.specs.Locks.{backs_of};
ghost use Rattle.offload_calls.specs.CoreActs.{core_runs};
ghost use Rattle.portion_ctl.specs.States.{FitsMemory};
ghost use Rattle.portion_ctl.specs.States.{next_flush};
ghost use Rattle.conflict_resolve.specs.InRange.{IsPortion};
ghost use Rattle.chip_laws.specs.Design.{Design};
ghost use Rattle.chip_laws.specs.Rules.{World};
ghost use Rattle.chip_core.specs.Fits.{FitCores};
ghost use Rattle.chip_core.specs.Views.{FitsCode};
ghost use Rattle.chip_core.specs.Rulings.{HasBits, all_joined, joined_portion};
ghost use Rattle.chip_core.specs.Seats.{
  around,
  others_in,
  is_spent,
  lock_backed,
  OpensTry,
  FlushesOrOpens,
  RollsBack,
  CommitsTry,
  RulesOn,
  ActsOrIsRuled,
  turned,
};
ghost use Rattle.chip_core.specs.Turns.{CoreTurns, IsReached, KeepsNoted, ShowsParts};
ghost use Rattle.conflict_resolve.specs.Commits.{Commits};
ghost use Rattle.portion_ctl.specs.States.{Flushes, HasVerdict};

use crate::cores::Cores;
use crate::stage::Stage;
use arrayvec::ArrayVec;
use bloom_sig::Signature;
use chip_config::Config;
use coherent_mem::Coherent;
use conda_base::Actor;
use conflict_resolve::{back, commit};
use fallback_lock::{Lock, Mode};
use line_memory::Backing;
use offload_calls::CoreStatus;
use portion_ctl::{Acted, Clash, Clear, Ended, Flushed, Flushing, Open, Ready, Verdict};
use rv32_hart::Code;
use schedule_log::Entry;
use std::mem;
use traffic_trace::Traffic;

// Whether the core's next try is one under the lock.
fn is_next_locked(lock: &Lock, j: u8) -> bool
    requires { j < length lock.now.backs }
    ensures { result ≡ is_spent lock.now j }
{
    matches!(lock.next(j), Mode::Locked)
}

// Opens a try of a core to which no flush is due: under the lock after enough rollbacks.
fn open(
    j: u8,
    ready: Ready,
    memory: &mut Coherent,
    lock: &mut Lock,
    log: &mut Traffic,
) -> (Stage, Entry)
    requires counted { j < length lock.old.backs }
    requires free { lock.old.locked ≡ None }
    ensures { OpensTry (is_spent lock.old j) j ready
        (around (shown memory.old) lock.old log.old)
        (around (shown memory.new) lock.new log.new) result.0 (turned result.1 []) }
{
    if is_next_locked(lock, j) {
        let open = ready.open(true, memory, log);
        lock.took(j);
        return (Stage::Open(open), Entry::Lock(j));
    }
    let open = ready.open(false, memory, log);
    (Stage::Open(open), Entry::Open(j))
}

// Flushes a line that is due, or opens the next try.
fn flush(
    j: u8,
    flushing: Flushing,
    memory: &mut Coherent,
    lock: &mut Lock,
    log: &mut Traffic,
) -> (Stage, Entry)
    requires counted { j < length lock.old.backs }
    requires free { lock.old.locked ≡ None }
    ensures { FlushesOrOpens (next_flush flushing (shown memory.old)) j flushing
        (around (shown memory.old) lock.old log.old)
        (around (shown memory.new) lock.new log.new) result.0 (turned result.1 []) }
{
    match flushing.step(memory, log) {
        Flushed::Wrote(flushing) => (Stage::Flushing(flushing), Entry::Flush(j)),
        Flushed::Done(ready) => open(j, ready, memory, lock, log),
    }
}

// Counts a rollback of a core. A try under the lock isn't taken back, so its core's count doesn't
// pass `retries`.
fn count_back(lock: &mut Lock, j: u8)
    requires counted { j < length lock.old.backs }
    requires few { backs_of lock.old j ≤ lock.old.retries }
    ensures { lock.new ≡ lock_backed lock.old j }
{
    if !is_next_locked(lock, j) {
        lock.backed(j);
    }
}

// Takes a try back.
fn roll_back(j: u8, clash: Clash, memory: &Coherent, lock: &mut Lock) -> (Stage, Entry)
    requires counted { j < length lock.old.backs }
    requires few { backs_of lock.old j ≤ lock.old.retries }
    ensures { (log : Trace) → RollsBack j clash (around (shown memory.now) lock.old log)
        (around (shown memory.now) lock.new log) result.0 (turned result.1 []) }
{
    let undone = back(clash, memory);
    count_back(lock, j);
    (
        Stage::Flushing(undone.flushing),
        Entry::Back(j, undone.n, undone.cause),
    )
}

// Commits a try. All other open tries are told of the lines that it stored.
fn keep(
    j: u8,
    clear: Clear,
    memory: &mut Coherent,
    cores: &mut Cores,
    log: &mut Traffic,
    out: &mut ArrayVec<u8, 64>,
) -> (Stage, Entry)
    requires range { j < length cores.old.statuses.items }
    requires counted { j < length cores.old.lock.backs }
    requires bits { All (HasBits clear.try.write_set.bits) cores.old.portions.items }
    requires lines { (shown memory.old).line_bytes ≡ clear.try.limits.line_bytes }
    requires in_range { All (IsInRange (shown memory.old)) clear.try.cache.stored }
    ensures { CommitsTry j clear
        (around (shown memory.old) cores.old.lock log.old)
        (around (shown memory.new) cores.new.lock log.new)
        (others_in cores.old) (others_in cores.new) result.0 (turned result.1 out.new.items) }
{
    tell_all(&mut cores.portions, clear.writes());
    let kept = commit(clear, memory, log);
    cores.lock.gave(j);
    cores.statuses[j as usize] = kept.status;
    *out = kept.out;
    (
        Stage::Ready(kept.ready),
        Entry::Commit(j, kept.n, kept.cause),
    )
}

// Rules on an ended try.
fn rule(
    j: u8,
    ended: Ended,
    memory: &mut Coherent,
    cores: &mut Cores,
    log: &mut Traffic,
    out: &mut ArrayVec<u8, 64>,
) -> (Stage, Entry)
    requires range { j < length cores.old.statuses.items }
    requires counted { j < length cores.old.lock.backs }
    requires few { backs_of cores.old.lock j ≤ cores.old.lock.retries }
    requires bits { All (HasBits ended.try.write_set.bits) cores.old.portions.items }
    requires lines { (shown memory.old).line_bytes ≡ ended.try.limits.line_bytes }
    requires in_range { All (IsInRange (shown memory.old)) ended.try.cache.stored }
    requires empty { out.old.items ≡ [] }
    ensures { RulesOn j ended
        (around (shown memory.old) cores.old.lock log.old)
        (around (shown memory.new) cores.new.lock log.new)
        (others_in cores.old) (others_in cores.new) result.0 (turned result.1 out.new.items) }
{
    match ended.judge() {
        Verdict::Clash(clash) => roll_back(j, clash, memory, &mut cores.lock),
        Verdict::Clear(clear) => keep(j, clear, memory, cores, log, out),
    }
}

// Every open try takes note of the lines of another's commit. The one that commits is no longer
// among them.
fn tell_all(portions: &mut [Stage], writes: &Signature)
    requires { All (HasBits writes.now.bits) portions.old }
    ensures { portions.new ≡ all_joined writes.now portions.old }
{
    for portion in portions {
        join_one(portion, writes);
    }
}

fn join_one(portion: &mut Stage, writes: &Signature)
    requires { HasBits writes.now.bits portion.old }
    ensures { portion.new ≡ joined_portion writes.now portion.old }
{
    match portion {
        Stage::Open(open) => open.foreign_all(writes),
        Stage::Ready(_) | Stage::Flushing(_) | Stage::Moved => {}
    }
}

// One act of an open try, or the ruling on it.
fn spec(
    j: u8,
    tried: Open,
    code: &Code,
    memory: &mut Coherent,
    cores: &mut Cores,
    log: &mut Traffic,
    out: &mut ArrayVec<u8, 64>,
) -> (Stage, Entry)
    requires range { j < length cores.old.statuses.items }
    requires counted { j < length cores.old.lock.backs }
    requires few { backs_of cores.old.lock j ≤ cores.old.lock.retries }
    requires bits { All (HasBits tried.limits.sig_bits) cores.old.portions.items }
    requires portion { IsPortion code.now tried }
    requires fits { FitsMemory code.now (shown memory.old) tried.limits.line_bytes }
    requires empty { out.old.items ≡ [] }
    ensures { ActsOrIsRuled code.now j tried
        (around (shown memory.old) cores.old.lock log.old)
        (around (shown memory.new) cores.new.lock log.new)
        (others_in cores.old) (others_in cores.new) result.0 (turned result.1 out.new.items) }
{
    let _addresses = code.base();
    let _lines = memory.line_bytes();
    match tried.act(code, memory, log) {
        Acted::Ran(open) => (Stage::Open(open), Entry::Spec(j)),
        Acted::Ends(ended) => rule(j, ended, memory, cores, log, out),
    }
}

fn is_running(status: CoreStatus) -> bool
    ensures { result ≡ core_runs status }
{
    matches!(status, CoreStatus::Run)
}

// One event of core j. While it lasts the core's own place holds nothing. What a commit puts comes
// into `out`.
pub fn core_event(
    j: u8,
    config: &Config,
    code: &Code,
    memory: &mut Coherent,
    cores: &mut Cores,
    log: &mut Traffic,
    out: &mut ArrayVec<u8, 64>,
) -> Entry
    requires range { j < config.now.cores }
    requires same { FitsCode code.now (shown memory.old) }
    requires line_bytes { (shown memory.old).line_bytes ≡ config.now.line_bytes }
    requires cores { FitCores (settings config.now) code.now cores.old.statuses.items
        cores.old.portions.items cores.old.lock }
    requires empty { out.old.items ≡ [] }
    ensures turns { (d : Design) (w : World) → IsReached d w → settings config.now ≡ d.config
        → ShowsParts d code.now (shown memory.old) log.old cores.old w
        → CoreTurns d w j code.now (shown memory.new) log.new cores.new
        (turned result out.new.items) }
    ensures kept { FitsCode code.now (shown memory.new) }
    ensures numbers { HasSameNumbers (shown memory.old) (shown memory.new) }
    ensures noted { KeepsNoted (shown memory.old) log.old (shown memory.new) log.new }
    ensures cores { FitCores (settings config.now) code.now cores.new.statuses.items
        cores.new.portions.items cores.new.lock }
{
    let _addresses = code.base();
    if !is_running(cores.statuses[j as usize]) {
        return Entry::Idle(Actor::Core(j));
    }
    if cores.lock.held(Actor::Core(j)) {
        return Entry::Held(Actor::Core(j));
    }
    match mem::replace(&mut cores.portions[j as usize], Stage::Moved) {
        Stage::Ready(ready) => {
            let (after, entry) = open(j, ready, memory, &mut cores.lock, log);
            cores.portions[j as usize] = after;
            let _coherent = memory.plain();
            entry
        }
        Stage::Flushing(flushing) => {
            let (after, entry) = flush(j, flushing, memory, &mut cores.lock, log);
            cores.portions[j as usize] = after;
            let _coherent = memory.plain();
            entry
        }
        Stage::Open(tried) => {
            let (after, entry) = spec(j, tried, code, memory, cores, log, out);
            cores.portions[j as usize] = after;
            let _coherent = memory.plain();
            entry
        }
        Stage::Moved => Entry::Idle(Actor::Core(j)),
    }
}
