// What the acts of a portion that commits find among marked addresses.
ghost use Rattle.std.specs.Prelude.{ℕ, suc, List, None, ◌≡◌, ◌+◌, ◌-◌, ◌<◌, ◌≤◌, ◌%◌, length, filter};
ghost use Rattle.rv32_hart.specs.Act.{AccessFits, IsAccess};
ghost use Rattle.offload_calls.specs.Stores.{addresses_from};
ghost use Rattle.flat_check.specs.Walks.{lowest};
ghost use Rattle.offload_calls.specs.State.{Setup, State};
ghost use Rattle.flat_check.specs.Portions.{AllFitImage, HasActed, MarksBeside, MarksToo, FitsImage, Unmarks, is_marked_at, lower_of, lowest_loaded};
ghost use Rattle.flat_check.specs.Acts.{count_of_put};
ghost use Rattle.flat_check.specs.Marks.{Marked};

use crate::acts::{core_act, is_running_core};
use crate::marks::Marks;
use offload_calls::Core;
use rv32_hart::{Access, Code};

// The lowest marked one of an access's addresses.
fn lowest_marked(marks: &Marks, code: &Code, addr: u32, size: u8) -> Option<u32>
    requires marks { FitsImage marks.now code.now }
    requires access { IsAccess code.now addr size }
    ensures { result
        ≡ lowest (filter (is_marked_at marks.now code.now.base) (addresses_from addr size)) }
{
    let base = code.base();
    for k in 0..u32::from(size) {
        if marks.is_marked((addr + k - base) as usize) {
            return Some(addr + k);
        }
    }
    None
}

// The lower of two addresses.
fn lower(first: Option<u32>, second: Option<u32>) -> Option<u32>
    ensures { result ≡ lower_of first second }
{
    match (first, second) {
        (None, other) => other,
        (Some(one), None) => Some(one),
        (Some(one), Some(two)) => Some(one.min(two)),
    }
}

/// The lowest marked address that an access loads. What it stores is no longer marked.
pub fn take_access(marks: &mut Marks, code: &Code, access: Access) -> Option<u32>
    requires marks { FitsImage marks.old code.now }
    requires fits { AccessFits code.now access }
    ensures lowest { result ≡ lowest_loaded marks.old code.now.base access }
    ensures unmarks { Unmarks marks.old marks.new code.now.base access }
    ensures kept { FitsImage marks.new code.now }
{
    match access {
        Access::Nothing | Access::Call => None,
        Access::Load { addr, size, .. } => lowest_marked(marks, code, addr, size),
        Access::Store { addr, size, .. } => {
            marks.unmark((addr - code.base()) as usize, size);
            None
        }
        Access::Amo { addr, .. } => {
            let lowest = lowest_marked(marks, code, addr, 4);
            marks.unmark((addr - code.base()) as usize, 4);
            lowest
        }
    }
}

/// What a portion's acts found: the lowest marked address that they loaded from outside, and how
/// many bytes they put.
#[derive(Clone, Copy, Debug, PartialEq, Eq)]
pub struct Found {
    pub lowest: Option<u32>,
    pub puts: u32,
}

/// Marks what an access stores.
pub fn mark_access(marks: &mut Marks, code: &Code, access: Access)
    requires marks { FitsImage marks.old code.now }
    requires fits { AccessFits code.now access }
    ensures marks { MarksToo marks.old marks.new code.now.base access }
    ensures kept { FitsImage marks.new code.now }
{
    match access {
        Access::Nothing | Access::Call | Access::Load { .. } => {}
        Access::Store { addr, size, .. } => marks.mark((addr - code.base()) as usize, size),
        Access::Amo { addr, .. } => marks.mark((addr - code.base()) as usize, 4),
    }
}

/// Marks what an access stores for every core but j. Where there is no core j, that is for every one.
pub fn mark_beside(marks: &mut [Marks], j: usize, code: &Code, access: Access)
    requires marks { AllFitImage marks.old code.now }
    requires fits { AccessFits code.now access }
    ensures marks { MarksBeside marks.old marks.new code.now.base j access }
    ensures kept { AllFitImage marks.new code.now }
{
    for k in 0..marks.len() {
        if k != j {
            let other = &mut marks[k];
            mark_access(other, code, access);
        }
    }
}

// One act more of core j's portion: none where the core no longer runs.
fn act_on(
    code: &Code,
    memory: &mut [u8],
    core: &mut Core,
    marks: &mut [Marks],
    j: usize,
    found: Found,
) -> Found
    requires long { length memory.old ≡ length code.now.bytes }
    requires there { j < length marks.old }
    requires marks { AllFitImage marks.old code.now }
    requires few { found.puts < 65536 }
    ensures acts { (s : Setup) (f : State) (k : ℕ) (stored : List ℕ) (before : List Marked)
        → s.code ≡ code.now → length marks.old ≡ length before
        → HasActed s f j k stored before memory.old core.old marks.old found.lowest found.puts
        → HasActed s f j (suc k) stored before memory.new core.new marks.new result.lowest
        result.puts }
    ensures long { length memory.new ≡ length memory.old }
    ensures marks { AllFitImage marks.new code.now }
    ensures few { result.puts ≤ found.puts + 1 }
{
    if !is_running_core(core.status) {
        return found;
    }
    let act = core_act(code, memory, core);
    let own = &mut marks[j];
    let lowest = take_access(own, code, act.access);
    mark_beside(marks, j, code, act.access);
    Found {
        lowest: lower(found.lowest, lowest),
        puts: found.puts + count_of(act.put),
    }
}

/// How many bytes were put.
pub fn count_of(put: bool) -> u32
    ensures { result ≡ count_of_put put }
{
    if put { 1 } else { 0 }
}

/// Executes a portion of n acts of core j on flat memory, and finds the lowest address of its Outside that is
/// marked for the core. What it stores is no longer marked for it, and marked for every other core.
pub fn run_portion(
    code: &Code,
    memory: &mut [u8],
    core: &mut Core,
    marks: &mut [Marks],
    j: usize,
    n: u32,
) -> Found
    requires long { length memory.old ≡ length code.now.bytes }
    requires there { j < length marks.old }
    requires marks { AllFitImage marks.old code.now }
    requires few { n ≤ 65536 }
    ensures acts { (s : Setup) (f : State) (stored : List ℕ) → s.code ≡ code.now
        → HasActed s f j 0 stored marks.old memory.old core.old marks.old None 0
        → HasActed s f j n stored marks.old memory.new core.new marks.new result.lowest result.puts }
    ensures long { length memory.new ≡ length memory.old }
    ensures marks { AllFitImage marks.new code.now }
    ensures few { result.puts ≤ n }
{
    let mut found = Found {
        lowest: None,
        puts: 0,
    };
    for _k in 0..n {
        found = act_on(code, memory, core, marks, j, found);
    }
    found
}
