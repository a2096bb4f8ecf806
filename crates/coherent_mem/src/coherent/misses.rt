// Lines that come to a holder.
ghost use Rattle.std.specs.Prelude.{◌≡◌, ◌≢◌, ◌<◌, ◌-◌, ◌∷◌, None, true, false, length, slice_get};
ghost use Rattle.conda_base.specs.Bytes.{handed_out};
ghost use Rattle.conda_base.specs.LineLists.{line_at};
ghost use Rattle.conda_base.specs.declared.Mesi.TheVariants.{M};
ghost use Rattle.mesi_directory.specs.Rows.{HasRow, row_of, with_row};
ghost use Rattle.traffic_trace.specs.Notes.{noted};
ghost use Rattle.traffic_trace.specs.declared.note.Kind.TheVariants.{Fill};
ghost use Rattle.line_memory.specs.Access.{after_load, after_store};
ghost use Rattle.line_memory.specs.Backing.{shape_of, view_of};
ghost use Rattle.line_memory.specs.Memory.{IsIn};
ghost use Rattle.line_memory.specs.Notes.{access_notes, all_noted, all_notes, down_notes, note_of};
ghost use Rattle.coherent_mem.specs.Moves.{MakesRoom, IsAlone, IsFree, IsMoved, IsShared, gone_notes, list_at, row_with};
ghost use Rattle.coherent_mem.specs.Parts.{AreParts, held, shown};
ghost use Rattle.coherent_mem.specs.Steps.{IsAccessTo, StepsTo, value_seen, view_stored};

use crate::coherent::Coherent;
use crate::coherent::backing::mark_of;
use conda_base::{Line, Mesi, line_of, offset_of, read_value};
use mesi_directory::{Directory, Row};
use traffic_trace::{Kind, Note, Traffic};

impl Coherent {
    // A load of a line that the holder hasn't got.
    #[inline(never)]
    pub(super) fn load_missed(&mut self, h: u8, addr: u32, size: u8, log: &mut Traffic) -> u32
        requires holder { h < length self.old.caches }
        requires access { IsAccessTo (shown self.old) addr size }
        requires absent { let b = shown self.old in
            held self.old (line_at b.line_bytes addr) h ≡ None }
        ensures value { result ≡ value_seen (shown self.old) addr size }
        ensures steps { let b = shown self.old in
            StepsTo (after_load (shape_of b) b.tags h (line_at b.line_bytes addr)) b.view
            b (shown self.new) }
        ensures notes { let b = shown self.old in
            log.new ≡ all_noted log.old
            (access_notes (shape_of b) b.tags h (line_at b.line_bytes addr) false) }
        ensures kept { AreParts self.new }
    {
        let l = line_of(addr, self.line_bytes);
        let offset = offset_of(addr, self.line_bytes);
        let state = self.share_line(l, log);
        self.make_room(h, l, log);
        let mut line = [0; 128];
        self.fill(h, l, state, &mut line, log);
        read_value(&line, offset, size)
    }

    // A store to a line that the holder hasn't got for itself.
    #[inline(never)]
    pub(super) fn store_missed(&mut self, h: u8, addr: u32, size: u8, value: u32, log: &mut Traffic)
        requires holder { h < length self.old.caches }
        requires access { IsAccessTo (shown self.old) addr size }
        ensures steps { let b = shown self.old in
            StepsTo (after_store (shape_of b) b.tags h (line_at b.line_bytes addr))
            (view_stored b addr size value) b (shown self.new) }
        ensures notes { let b = shown self.old in
            log.new ≡ all_noted log.old
            (access_notes (shape_of b) b.tags h (line_at b.line_bytes addr) true) }
        ensures kept { AreParts self.new }
    {
        let l = line_of(addr, self.line_bytes);
        self.isolate(h, l, log);
        self.caches[h as usize].store(addr, size, value);
        self.directory.own(l, h);
        self.marks[mark_of(h, l, self.sets)] = true;
    }

    // Every other holder of a line loses it, and h gets it where it hasn't got it.
    pub(super) fn isolate(&mut self, h: u8, l: Line, log: &mut Traffic)
        requires holder { h < length self.old.caches }
        requires line { IsIn self.old.memory l }
        ensures alone { IsAlone h l self.old self.new }
        ensures notes { let b = shown self.old in
            log.new ≡ all_noted log.old (access_notes (shape_of b) b.tags h l true) }
    {
        match self.caches[h as usize].state(l) {
            Some(Mesi::M) => {}
            Some(Mesi::E) => {}
            Some(Mesi::S) => self.drop_beside(h, l, log),
            None => self.bring(h, l, log),
        }
    }

    // Every holder of a line loses it, and h gets it.
    fn bring(&mut self, h: u8, l: Line, log: &mut Traffic)
        requires holder { h < length self.old.caches }
        requires line { IsIn self.old.memory l }
        requires absent { held self.old l h ≡ None }
        ensures alone { IsAlone h l self.old self.new }
        ensures notes { let b = shown self.old in
            log.new ≡ all_noted log.old (access_notes (shape_of b) b.tags h l true) }
    {
        let _whole = &self.memory;
        self.drop_beside(h, l, log);
        self.make_room(h, l, log);
        let mut line = [0; 128];
        self.fill(h, l, Mesi::E, &mut line, log);
    }

    // Every holder of a line keeps it shared. Answers the state for a holder that loads the line.
    fn share_line(&mut self, l: Line, log: &mut Traffic) -> Mesi
        requires { IsIn self.old.memory l }
        ensures shared { IsShared l result self.old self.new }
        ensures notes { let b = shown self.old in
            log.new ≡ all_noted log.old (all_notes down_notes (shape_of b) b.tags l) }
    {
        match self.directory.row(l) {
            Row::Nobody => Mesi::E,
            Row::Shared(_) => Mesi::S,
            Row::Owner(o) => {
                self.give_down(o, l, log);
                Mesi::S
            }
        }
    }

    // The last line of a full set leaves it.
    fn make_room(&mut self, h: u8, l: Line, log: &mut Traffic)
        requires { h < length self.old.caches }
        ensures room { let b = shown self.old in
            MakesRoom h l self.old self.new (slice_get (list_at b h l) (b.ways - 1)) }
        ensures notes { let b = shown self.old in
            log.new ≡ all_noted log.old (gone_notes h (slice_get (list_at b h l) (b.ways - 1))) }
    {
        if let Some((k, _)) = self.caches[h as usize].at(l.0 % self.sets, self.ways - 1) {
            self.leave(h, k, log);
            log.note(Note {
                kind: Kind::Evict,
                who: h,
                line: k,
            });
        }
    }

    // Puts a line that a holder hasn't got in front of its set, which has room, and hands its bytes
    // out.
    fn fill(&mut self, h: u8, l: Line, state: Mesi, line: &mut [u8; 128], log: &mut Traffic)
        requires holder { h < length self.old.caches }
        requires line { IsIn self.old.memory l }
        requires clean { state ≢ M }
        requires free { IsFree self.old l h state }
        requires room { length (list_at (shown self.old) h l) < self.old.ways }
        ensures moved { let b = shown self.old in
            IsMoved ((l, state) ∷ list_at b h l) b.copies h l self.old self.new }
        ensures bytes { line.new ≡ handed_out (view_of (shown self.old) l) }
        ensures notes { log.new ≡ noted log.old (note_of Fill h l) }
    {
        self.memory.read(l, line);
        self.caches[h as usize].fill(l, line, state);
        take_row(&mut self.directory, l, h, state);
        log.note(Note {
            kind: Kind::Fill,
            who: h,
            line: l,
        });
    }
}

// The row of a line that comes to a holder in this state.
fn take_row(directory: &mut Directory, l: Line, h: u8, state: Mesi)
    requires line { HasRow directory.old l }
    requires holder { h < 12 }
    ensures { directory.new ≡ with_row directory.old l (row_with state (row_of directory.old l) h) }
{
    match state {
        Mesi::M | Mesi::E => directory.own(l, h),
        Mesi::S => directory.share(l, h),
    }
}
