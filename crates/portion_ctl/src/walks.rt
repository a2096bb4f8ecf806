// Walks over the dirty lines of a memory, in walk order.
ghost use Rattle.std.specs.Prelude.{◌≡◌, find, IfSome};
ghost use Rattle.bloom_sig.specs.Signatures.{is_member};
ghost use Rattle.line_memory.specs.Backing.{IsBacking, IsDirty, dirty_in, shape_of};
ghost use Rattle.line_memory.specs.Notes.{all_noted, flushes_notes};
ghost use Rattle.portion_ctl.specs.Walks.{all_flushed, all_inserted, flushed_lines, foreign_lines};

use bloom_sig::Signature;
use conda_base::Line;
use line_memory::Backing;
use traffic_trace::Traffic;

// Flushes every dirty line.
fn flush_all<B: Backing>(mem: &mut B, log: &mut Traffic)
    ensures memory { B.shown mem.new ≡ all_flushed (B.shown mem.old) (dirty_in (B.shown mem.old)) }
    ensures notes { log.new
        ≡ all_noted log.old
        (flushes_notes (shape_of (B.shown mem.old)) (B.shown mem.old).tags
        (dirty_in (B.shown mem.old))) }
    ensures backing { IsBacking (B.shown mem.new) }
{
    let _whole_lines = mem.line_bytes();
    let mut from = 0;
    while let Some((place, l)) = mem.next_dirty(from) {
        mem.flush(l, log);
        from = place + 1;
    }
}

// Inserts every dirty line into a signature.
fn insert_dirty<B: Backing>(mem: &B, signature: &mut Signature)
    ensures lines { signature.new ≡ all_inserted signature.old (dirty_in (B.shown mem.now)) }
    ensures backing { IsBacking (B.shown mem.now) }
{
    let mut from = 0;
    while let Some((place, l)) = mem.next_dirty(from) {
        signature.insert(l);
        from = place + 1;
    }
}

// The first dirty line that is a member of a signature.
pub fn first_member<B: Backing>(mem: &B, signature: &Signature) -> Option<Line>
    ensures first { result ≡ find (is_member signature.now) (dirty_in (B.shown mem.now)) }
    ensures dirty { IfSome result (IsDirty (B.shown mem.now)) }
{
    let mut from = 0;
    while let Some((place, l)) = mem.next_dirty(from) {
        if signature.member(l) {
            return Some(l);
        }
        from = place + 1;
    }
    None
}

// Flushes every dirty line for a try under the lock, or else inserts each into a signature.
pub fn open_memory<B: Backing>(
    locked: bool,
    mem: &mut B,
    signature: &mut Signature,
    log: &mut Traffic,
)
    ensures memory { B.shown mem.new
        ≡ all_flushed (B.shown mem.old) (flushed_lines locked (B.shown mem.old)) }
    ensures notes { log.new
        ≡ all_noted log.old
        (flushes_notes (shape_of (B.shown mem.old)) (B.shown mem.old).tags
        (flushed_lines locked (B.shown mem.old))) }
    ensures lines { signature.new
        ≡ all_inserted signature.old (foreign_lines locked (B.shown mem.old)) }
    ensures bits { signature.new.bits ≡ signature.old.bits }
    ensures backing { IsBacking (B.shown mem.new) }
{
    if locked {
        flush_all(mem, log);
    } else {
        insert_dirty(mem, signature);
    }
}
