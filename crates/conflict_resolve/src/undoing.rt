// A rollback.
ghost use Rattle.std.specs.Prelude.{◌≡◌};
ghost use Rattle.rv32_hart.specs.Code.{CodeView};
ghost use Rattle.try_runs.specs.Fills.{Portion, portion_run};
ghost use Rattle.portion_ctl.specs.Stands.{IsFlushing, StandsFor};
ghost use Rattle.portion_ctl.specs.States.{IsUndoneOf};
ghost use Rattle.conflict_resolve.specs.Backs.{due_count, Backs};

use bloom_sig::Signature;
use line_memory::Backing;
use portion_ctl::{Clash, Undone};

// How many dirty lines are members of a signature.
fn due_lines<B: Backing>(reads: &Signature, mem: &B) -> u32
    ensures { result ≡ due_count reads.now (B.shown mem.now) }
{
    let mut due: u32 = 0;
    let mut from = 0;
    while let Some((place, l)) = mem.next_dirty(from) {
        if reads.member(l) {
            due += 1;
        }
        from = place + 1;
    }
    due
}

/// Takes a try back: the core has the registers of the opening, and a flush is due to it for each
/// dirty line that is a member of the try's read signature.
pub fn back<B: Backing>(c: Clash, mem: &B) -> Undone
    ensures undone { IsUndoneOf c (due_count c.try.read_set (B.shown mem.now)) result }
    ensures kept { IsFlushing result.flushing }

    // Whatever the portion stands for, the core is left as a Back of it leaves it.
    ensures backs { (code : CodeView) (p : Portion) → StandsFor code c.try p
        → Backs (B.shown mem.now) c (portion_run code c.try.limits.line_bytes p) p result }
{
    let due = due_lines(c.reads(), mem);
    c.undo(due)
}
