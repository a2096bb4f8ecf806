// One flat memory with its harts and near-data cores.
ghost use Rattle.std.specs.Prelude.{ℕ, ◌≡◌, ◌+◌, ◌<◌, ◌≤◌, ◌^◌, List, [], length, replicate, slice_get, slice_set, IfOk, Some};
ghost use Rattle.rv32_hart.specs.Regs.{start_regs};
ghost use Rattle.rv32_hart.specs.Act.{AccessFits};
ghost use Rattle.offload_calls.specs.State.{Setup, State, launched_core, start_hart};
ghost use Rattle.flat_check.specs.Flats.{FitsFlat, HasMadeAct, HasMadePortion, HasStepped, ShowsFlat, core_with, flat_parts, with_launch};
ghost use Rattle.flat_check.specs.Portions.{AllFitImage, MarksStored, marks_at};
ghost use Rattle.flat_check.specs.Marks.{Marked};

use crate::acts::{Launch, core_act, hart_turn, is_running_core};
use crate::marks::Marks;
use crate::portions::{count_of, run_portion};
use arrayvec::ArrayVec;
use offload_calls::{Core, CoreStatus, Hart, HartStatus};
use rv32_hart::{Access, Code, Regs};
use std::alloc::{AllocError, Global};

/// Flat memory, the harts, the cores' statuses and registers, and how many bytes were put.
#[derive(Drop)]
pub struct Flat {
    pub memory: Vec<u8>,
    pub harts: Vec<Hart>,
    pub statuses: ArrayVec<CoreStatus, 4>,
    pub regs: Vec<Regs>,
    pub output: u64,
}

impl Flat {
    /// Memory as loaded, each hart at the entry and each core idle. All memory is taken here.
    pub fn new(
        alloc: Global,
        code: &Code,
        entry: u32,
        harts: u32,
        cores: u32,
    ) -> Result<Flat, AllocError>
        requires { cores ≤ 4 }
        ensures memory { IfOk result (λ flat. flat.memory.items ≡ code.now.bytes) }
        ensures many { IfOk result (λ flat. length flat.harts.items ≡ harts) }
        ensures harts { IfOk result (λ flat. (h : ℕ) → h < harts
            → slice_get flat.harts.items h ≡ Some (start_hart entry harts h)) }
        ensures statuses { IfOk result (λ flat.
            flat.statuses.items ≡ replicate cores CoreStatus.Idle) }
        ensures regs { IfOk result (λ flat. flat.regs.items ≡ replicate cores (start_regs 0)) }
        ensures output { IfOk result (λ flat. flat.output ≡ 0) }
    {
        Ok(Flat {
            memory: code.bytes().to_vec(alloc)?,
            harts: start_harts(alloc, harts, entry)?,
            statuses: idle_cores(cores),
            regs: vec![in alloc; Regs::new(0); cores as usize]?,
            output: 0,
        })
    }

    /// One act of a hart, where it makes one: what it accessed.
    pub fn step(&mut self, code: &Code, h: u8) -> Access
        requires fits { FitsFlat code.now (flat_parts self.old) }
        requires there { h < length self.old.harts.items }
        requires room { self.old.output < 2 ^ 63 }
        ensures steps { (s : Setup) (f : State) → s.code ≡ code.now
            → ShowsFlat s (flat_parts self.old) f
            → HasStepped s f h (flat_parts self.new) result }
        ensures fits { FitsFlat code.now (flat_parts self.new) }
        ensures access { AccessFits code.now result }
        ensures harts { length self.new.harts.items ≡ length self.old.harts.items }
        ensures cores { length self.new.statuses.items ≡ length self.old.statuses.items }
        ensures output { self.new.output ≤ self.old.output + 1 }
    {
        let acted = hart_turn(
            code,
            &mut self.memory,
            &mut self.harts[h as usize],
            &mut self.statuses,
        );
        start_core(&mut self.regs, acted.launch);
        self.output += u64::from(count_of(acted.act.put));
        acted.act.access
    }

    /// One act of a core, where it runs: what it accessed.
    pub fn kernel_act(&mut self, code: &Code, j: u8) -> Access
        requires fits { FitsFlat code.now (flat_parts self.old) }
        requires there { j < length self.old.statuses.items }
        requires room { self.old.output < 2 ^ 63 }
        ensures acts { (s : Setup) (f : State) → s.code ≡ code.now
            → ShowsFlat s (flat_parts self.old) f
            → HasMadeAct s f j (flat_parts self.new) result }
        ensures fits { FitsFlat code.now (flat_parts self.new) }
        ensures access { AccessFits code.now result }
        ensures harts { length self.new.harts.items ≡ length self.old.harts.items }
        ensures cores { length self.new.statuses.items ≡ length self.old.statuses.items }
        ensures output { self.new.output ≤ self.old.output + 1 }
    {
        let mut core = self.core(j);
        if !is_running_core(core.status) {
            return Access::Nothing;
        }
        let act = core_act(code, &mut self.memory, &mut core);
        self.put_core(j, core, count_of(act.put));
        act.access
    }

    /// A portion of n acts of a core: the lowest address of its Outside that is marked for the core. What it stores is
    /// marked for every other core.
    pub fn portion(&mut self, code: &Code, marks: &mut [Marks], j: u8, n: u32) -> Option<u32>
        requires fits { FitsFlat code.now (flat_parts self.old) }
        requires there { j < length self.old.statuses.items }
        requires marks { AllFitImage marks.old code.now }
        requires each { length marks.old ≡ length self.old.statuses.items }
        requires few { n ≤ 65536 }
        requires room { self.old.output < 2 ^ 63 }
        ensures acts { (s : Setup) (f : State) (stored : List ℕ) → s.code ≡ code.now
            → ShowsFlat s (flat_parts self.old) f
            → MarksStored (marks_at marks.old j) s.code.base stored []
            → HasMadePortion s f j n stored marks.old (flat_parts self.new) marks.new result }
        ensures fits { FitsFlat code.now (flat_parts self.new) }
        ensures kept { AllFitImage marks.new code.now }
        ensures harts { length self.new.harts.items ≡ length self.old.harts.items }
        ensures cores { length self.new.statuses.items ≡ length self.old.statuses.items }
        ensures output { self.new.output ≤ self.old.output + 65536 }
    {
        let mut core = self.core(j);
        let found = run_portion(code, &mut self.memory, &mut core, marks, j as usize, n);
        self.put_core(j, core, found.puts);
        found.lowest
    }

    fn core(&self, j: u8) -> Core
        requires status { j < length self.now.statuses.items }
        requires regs { j < length self.now.regs.items }
        ensures { result ≡ core_with self.now.regs.items self.now.statuses.items j }
    {
        Core {
            regs: self.regs[j as usize],
            status: self.statuses[j as usize],
        }
    }

    // A core as acts left it, which put so many bytes.
    fn put_core(&mut self, j: u8, core: Core, puts: u32)
        requires status { j < length self.old.statuses.items }
        requires regs { j < length self.old.regs.items }
        requires room { self.old.output + puts < 2 ^ 64 }
        ensures memory { self.new.memory ≡ self.old.memory }
        ensures harts { self.new.harts ≡ self.old.harts }
        ensures statuses { self.new.statuses.items
            ≡ slice_set self.old.statuses.items j core.status }
        ensures regs { self.new.regs.items ≡ slice_set self.old.regs.items j core.regs }
        ensures output { self.new.output ≡ self.old.output + puts }
    {
        self.regs[j as usize] = core.regs;
        self.statuses[j as usize] = core.status;
        self.output += u64::from(puts);
    }
}

// A core starts, where there is one of its number.
fn start_core(regs: &mut [Regs], launch: Option<Launch>)
    ensures { regs.new ≡ with_launch launch regs.old }
{
    match launch {
        Some(launch) if (launch.core as usize) < regs.len() => {
            regs[launch.core as usize] = launched(launch.entry, launch.arg);
        }
        _ => {}
    }
}

// The registers of a core that starts.
fn launched(entry: u32, arg: u32) -> Regs
    ensures { result ≡ (launched_core entry arg).regs }
{
    let mut regs = Regs::new(entry);
    regs.x[10] = arg;
    regs
}

// The harts at the entry, each with its number in x10 and the number of harts in x11.
fn start_harts(alloc: Global, many: u32, entry: u32) -> Result<Vec<Hart>, AllocError>
    ensures many { IfOk result (λ harts. length harts.items ≡ many) }
    ensures start { IfOk result (λ harts. (h : ℕ) → h < many
        → slice_get harts.items h ≡ Some (start_hart entry many h)) }
{
    let mut harts = Vec::with_capacity(alloc, many as usize)?;
    for number in 0..many {
        let mut regs = Regs::new(entry);
        regs.x[10] = number;
        regs.x[11] = many;
        harts.push(Hart {
            regs,
            status: HartStatus::Run,
        })?;
    }
    Ok(harts)
}

fn idle_cores(many: u32) -> ArrayVec<CoreStatus, 4>
    requires { many ≤ 4 }
    ensures { result.items ≡ replicate many CoreStatus.Idle }
{
    let mut statuses = ArrayVec::new();
    for j in 0..many {
        statuses.push(CoreStatus::Idle);
    }
    statuses
}
