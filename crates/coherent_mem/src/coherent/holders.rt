// Holders of a line that lose it, or keep it shared.
ghost use Rattle.std.specs.Prelude.{◌≡◌, ◌<◌, true, length, is_some, IsSome, option_copied};
ghost use Rattle.line_memory.specs.Access.{shared_line};
ghost use Rattle.line_memory.specs.Backing.{shape_of};
ghost use Rattle.line_memory.specs.Memory.{IsIn};
ghost use Rattle.line_memory.specs.Notes.{all_noted, back_notes, down_notes};
ghost use Rattle.line_memory.specs.Owners.{is_owner};
ghost use Rattle.line_memory.specs.Tags.{held_state, without_line};
ghost use Rattle.coherent_mem.specs.Moves.{IsDropped, IsMoved, backed, backed_notes, dropped_notes, list_at, flushed_copies};
ghost use Rattle.coherent_mem.specs.Parts.{shown};

use crate::coherent::Coherent;
use conda_base::Line;
use line_memory::LineMemory;
use traffic_trace::{Kind, Note, Traffic};

impl Coherent {
    // A holder of a line loses it. Where it has it modified, it writes it back.
    pub(super) fn leave(&mut self, h: u8, l: Line, log: &mut Traffic)
        requires { let b = shown self.old in IsSome (held_state (shape_of b) b.tags h l) }
        ensures moved { let b = shown self.old in
            IsMoved (without_line l (list_at b h l)) (flushed_copies b l) h l self.old self.new }
        ensures notes { let b = shown self.old in
            log.new ≡ all_noted log.old (back_notes l h (held_state (shape_of b) b.tags h l)) }
    {
        let bytes = self.caches[h as usize].modified_bytes(l);
        write_back(&mut self.memory, h, l, bytes, log);
        self.caches[h as usize].drop_line(l);
        self.directory.leave(l, h);
        self.settle(h, l);
    }

    // The owner of a line keeps it shared. Where it has it modified, it writes it back.
    pub(super) fn give_down(&mut self, o: u8, l: Line, log: &mut Traffic)
        requires { let b = shown self.old in is_owner (held_state (shape_of b) b.tags o l) ≡ true }
        ensures moved { let b = shown self.old in
            IsMoved (shared_line l (list_at b o l)) (flushed_copies b l) o l self.old self.new }
        ensures notes { let b = shown self.old in
            log.new ≡ all_noted log.old (down_notes l o (held_state (shape_of b) b.tags o l)) }
    {
        let bytes = self.caches[o as usize].modified_bytes(l);
        write_back(&mut self.memory, o, l, bytes, log);
        self.caches[o as usize].keep_shared(l);
        self.directory.share(l, o);
        log.note(Note {
            kind: Kind::Down,
            who: o,
            line: l,
        });
        self.settle(o, l);
    }

    // Every holder of a line other than h, ascending, loses it.
    pub(super) fn drop_beside(&mut self, h: u8, l: Line, log: &mut Traffic)
        requires { IsIn self.old.memory l }
        ensures dropped { IsDropped h l (length self.old.caches) self.old self.new }
        ensures notes { let b = shown self.old in
            log.new ≡ all_noted log.old (dropped_notes b h l (length self.old.caches)) }
    {
        let holders = self.caches.len() as u8;
        for k in 0..holders {
            if k != h && self.is_holder(k, l) {
                self.leave(k, l, log);
                log.note(Note {
                    kind: Kind::Drop,
                    who: k,
                    line: l,
                });
            }
        }
    }

    // Whether a holder has a line.
    fn is_holder(&self, k: u8, l: Line) -> bool
        requires line { IsIn self.now.memory l }
        requires holder { k < 12 }
        ensures { let b = shown self.now in result ≡ is_some (held_state (shape_of b) b.tags k l) }
    {
        self.directory.row(l).has(k)
    }
}

// Puts the bytes of a line that a holder had modified into memory.
pub(super) fn write_back(
    memory: &mut LineMemory,
    h: u8,
    l: Line,
    bytes: Option<&[u8; 128]>,
    log: &mut Traffic,
)
    requires { IsIn memory.old l }
    ensures memory { memory.new ≡ backed memory.old l (option_copied bytes.entry) }
    ensures notes { log.new ≡ all_noted log.old (backed_notes h l (option_copied bytes.entry)) }
{
    if let Some(bytes) = bytes {
        memory.write(l, bytes);
        log.note(Note {
            kind: Kind::Back,
            who: h,
            line: l,
        });
    }
}
