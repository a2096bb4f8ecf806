// What near-data cores ask of the memory, and its walk over the modified lines.
ghost use Rattle.std.specs.Prelude.{ℕ, ◌≡◌, ◌<◌, ◌+◌, ◌*◌, ◌%◌, length, MatchOption};
ghost use Rattle.conda_base.specs.Bytes.{handed_out};
ghost use Rattle.conda_base.specs.Lines.{IsLineSize};
ghost use Rattle.line_memory.specs.Access.{after_flush, after_merge};
ghost use Rattle.line_memory.specs.Backing.{FindsDirty, IsDirty, IsInRange, copy_of, flushed, merged, noted_flush, noted_merge};
ghost use Rattle.coherent_mem.specs.Marked.{IsCleanFrom, IsFirstModified};
ghost use Rattle.coherent_mem.specs.Parts.{shown};
ghost use Rattle.coherent_mem.specs.Steps.{IsCoherent, StepsTo};

use crate::coherent::Coherent;
use crate::coherent::holders::write_back;
use conda_base::{Line, Mesi};
use line_memory::Backing;
use mesi_directory::Row;
use traffic_trace::{Kind, Note, Traffic};

impl Backing for Coherent {
    ghost shown = { shown };

    fn line_bytes(&self) -> u32
        ensures value { result ≡ (shown self.now).line_bytes }
        ensures size { IsLineSize result }
        ensures kept { IsCoherent (shown self.now) }
    {
        self.line_bytes
    }

    fn copy(&self, l: Line, out: &mut [u8; 128])
        requires { IsInRange (shown self.now) l }
        ensures bytes { out.new ≡ handed_out (copy_of (shown self.now) l) }
        ensures kept { IsCoherent (shown self.now) }
    {
        self.memory.read(l, out);
    }

    fn next_dirty(&self, from: usize) -> Option<(usize, Line)>
        ensures first { FindsDirty (shown self.now) from result }
        ensures kept { IsCoherent (shown self.now) }
    {
        let sets = self.sets as usize;
        let ways = self.ways as usize;
        let mut way = from % ways;
        for mark in from / ways..self.marks.len() {
            if self.marks[mark] {
                if let Some((way, l)) = self.first_modified(
                    (mark / sets) as u8,
                    (mark % sets) as u32,
                    way as u32,
                ) {
                    return Some((mark * ways + way as usize, l));
                }
            }
            way = 0;
        }
        None
    }

    fn flush(&mut self, l: Line, log: &mut Traffic)
        requires { IsDirty (shown self.old) l }
        ensures flushed { shown self.new ≡ flushed (shown self.old) l }
        ensures notes { log.new ≡ noted_flush (shown self.old) l log.old }
        ensures steps { let b = shown self.old in
            StepsTo (after_flush b.tags l) b.view b (shown self.new) }
        ensures kept { IsCoherent (shown self.new) }
    {
        if let Row::Owner(o) = self.directory.row(l) {
            let bytes = self.caches[o as usize].modified_bytes(l);
            write_back(&mut self.memory, o, l, bytes, log);
            self.caches[o as usize].keep_exclusive(l);
            self.settle(o, l);
        }
    }

    fn merge(&mut self, core: u8, l: Line, bytes: &[u8; 128], mask: u128, log: &mut Traffic)
        requires { IsInRange (shown self.old) l }
        ensures merged { shown self.new ≡ merged (shown self.old) l bytes.now mask }
        ensures notes { log.new ≡ noted_merge (shown self.old) core l log.old }
        ensures steps { let b = shown self.old in
            StepsTo (after_merge b.tags l) (merged b l bytes.now mask).view b (shown self.new) }
        ensures kept { IsCoherent (shown self.new) }
    {
        let nobody = self.caches.len() as u8;
        self.drop_beside(nobody, l, log);
        self.memory.mix(l, bytes, mask);
        log.note(Note {
            kind: Kind::Merge,
            who: core,
            line: l,
        });
    }
}

impl Coherent {
    // The first line in M of a holder's set, at or after a way, with its way.
    fn first_modified(&self, h: u8, set: u32, from: u32) -> Option<(u32, Line)>
        requires holder { h < length self.now.caches }
        requires set { set < self.now.sets }
        ensures { let tags = (shown self.now).tags h set in
            MatchOption result (IsCleanFrom tags from self.now.ways)
            (λ found. IsFirstModified tags from self.now.ways found.0 found.1) }
    {
        for way in from..self.ways {
            if let Some((l, Mesi::M)) = self.caches[h as usize].at(set, way) {
                return Some((way, l));
            }
        }
        None
    }

    // Takes the mark of a line's set away, where no line of the set is in M any more.
    pub(super) fn settle(&mut self, h: u8, l: Line)
        requires { h < length self.old.caches }
        ensures { self.new ≡ self.old }
    {
        let mark = mark_of(h, l, self.sets);
        if self.marks[mark] && self.first_modified(h, l.0 % self.sets, 0).is_none() {
            self.marks[mark] = false;
        }
    }
}

// The place of the mark of a line's set.
pub(super) fn mark_of(h: u8, l: Line, sets: u32) -> usize
    requires { 0 < sets }
    ensures place { result ≡ h * sets + l.0 % sets }
    ensures within { (holders : ℕ) → h < holders → result < holders * sets }
{
    h as usize * sets as usize + (l.0 % sets) as usize
}
