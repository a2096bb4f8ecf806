// A commit.
ghost use Rattle.std.specs.Prelude.{ℕ, ◌≡◌, All};
ghost use Rattle.rv32_hart.specs.Code.{CodeView};
ghost use Rattle.line_memory.specs.Backing.{IsBacking, IsInRange};
ghost use Rattle.line_memory.specs.Notes.{all_noted};
ghost use Rattle.nda_cache.specs.Tried.{IsTried};
ghost use Rattle.offload_calls.specs.State.{Setup, State};
ghost use Rattle.try_runs.specs.Fills.{Fills, Portion, portion_run};
ghost use Rattle.portion_ctl.specs.Stands.{StandsFor};
ghost use Rattle.portion_ctl.specs.States.{IsKeptOf};
ghost use Rattle.conflict_resolve.specs.Merges.{stored_in, all_merged, all_merge_notes};
ghost use Rattle.conflict_resolve.specs.Commits.{change, portion_from, Commits, IsUnbroken};

use line_memory::Backing;
use portion_ctl::{Clear, Kept};
use traffic_trace::Traffic;

// Merges the lines that a try stored to into memory, in the order of their first store.
fn merge_all<B: Backing>(c: &Clear, mem: &mut B, log: &mut Traffic)
    requires in_range { All (IsInRange (B.shown mem.old)) c.now.try.cache.stored }
    ensures memory { B.shown mem.new ≡ all_merged (B.shown mem.old) (stored_in c.now.try.cache) }
    ensures notes { log.new
        ≡ all_noted log.old
        (all_merge_notes (B.shown mem.old) c.now.try.core (stored_in c.now.try.cache)) }
    ensures backing { IsBacking (B.shown mem.old) }
    ensures still_backing { IsBacking (B.shown mem.new) }
    ensures tried { IsTried c.now.try.cache }
{
    let core = c.core();
    let _whole_lines = mem.line_bytes();
    let mut place = 0;
    while let Some((l, line)) = c.written_in_place(place) {
        mem.merge(core, l, &line.bytes, line.mask, log);
        place += 1;
    }
}

/// Commits a try: the lines that it stored to are merged into memory in the order of their first
/// store, and the core keeps what the try came to.
pub fn commit<B: Backing>(c: Clear, mem: &mut B, log: &mut Traffic) -> Kept
    requires lines { (B.shown mem.old).line_bytes ≡ c.try.limits.line_bytes }
    requires in_range { All (IsInRange (B.shown mem.old)) c.try.cache.stored }
    ensures merged { B.shown mem.new ≡ all_merged (B.shown mem.old) (stored_in c.try.cache) }
    ensures noted { log.new
        ≡ all_noted log.old (all_merge_notes (B.shown mem.old) c.try.core (stored_in c.try.cache)) }
    ensures backing { IsBacking (B.shown mem.new) }
    ensures kept { IsKeptOf c result }

    // Whatever the portion stands for, memory is left as a Commit of it leaves it.
    ensures commits { (code : CodeView) (p : Portion) → StandsFor code c.try p
        → Commits (change (B.shown mem.old) (B.shown mem.new) log.old log.new) c
        (portion_run code c.try.limits.line_bytes p) result }
    // Where its fills are those of a state that memory shows, that is n acts with nothing between.
    ensures serial { (s : Setup) (f : State) (j : ℕ) (fills : Fills) (n : ℕ)
        → StandsFor s.code c.try (portion_from f j fills n)
        → IsUnbroken (B.shown mem.old) s f j fills n result (B.shown mem.new) }
{
    merge_all(&c, mem, log);
    c.keep()
}
