// A hart's cache.
ghost use Rattle.std.specs.Prelude.{
  ◌≡◌,
  ◌+◌,
  ◌%◌,
  ◌<◌,
  ◌≤◌,
  ◌-◌,
  ◌*◌,
  ◌++◌,
  [],
  length,
  replicate,
  take,
  drop,
  slice_get,
  slice_index_or,
  IfOk,
  Some,
  None,
};
ghost use Rattle.std.specs.Prelude.{option_copied};
ghost use Rattle.std.specs.Option.{option_map};
ghost use Rattle.conda_base.specs.Bytes.{handed_out, value_at, stored};
ghost use Rattle.conda_base.specs.Lines.{IsLineSize, IsAccessSize, line_offset};
ghost use Rattle.conda_base.specs.LineLists.{line_at};
ghost use Rattle.conda_base.specs.declared.Mesi.TheVariants.{M, E, S};
ghost use Rattle.set_assoc.specs.Entries.{touched, without};
ghost use Rattle.cpu_cache.specs.Contents.{Contents, IsCache, IsHeld, bytes_in, bytes_of, content_of, no_contents, filled, in_front, leaving, loaded, restated, set_list, state_of, stored_if_owned, tags_of, with_set, written_back};

use crate::lines::{PLACES, front_in, held_at, slot_at};
use conda_base::{Line, Mesi, line_of, offset_of, read_value, write_value};
use set_assoc::PlacedSets;
use std::alloc::{AllocError, Global};
use std::marker::Model;

// A slot's room, which holds a line of each size.
const ROOM: usize = 128;

/// The cache of one hart. A line's bytes stay in place as long as it is held, and after `new` it takes no memory.
#[derive(Drop)]
pub struct CpuCache {
    line_bytes: u32,
    lines: PlacedSets<Mesi>,
    slots: Vec<[u8; 128]>,
}

impl Model for CpuCache {
    ghost use Rattle.cpu_cache.specs.Contents.{Contents};
    ghost use Rattle.cpu_cache.specs.Slots.{contents_in, IsSlotStore};

    ghost Value = { Contents };

    ghost view = { λ c. contents_in c.line_bytes c.slots.items c.lines };

    ghost invariant = { λ c. IsSlotStore c.line_bytes c.lines c.slots.items };
}

impl CpuCache {
    /// An empty cache with 1 to 256 sets of 1 to 8 ways. All its memory is taken here.
    pub fn new(alloc: Global, line_bytes: u32, sets: u32, ways: u32) -> Result<CpuCache, AllocError>
        requires size { IsLineSize line_bytes }
        requires some_sets { 0 < sets }
        requires few_sets { sets ≤ 256 }
        requires some_ways { 0 < ways }
        requires few_ways { ways ≤ 8 }
        ensures empty { IfOk result (λ c. c ≡ no_contents line_bytes sets ways) }
        ensures kept { IfOk result (λ c. IsCache c) }
    {
        let lines = PlacedSets::new(alloc, sets, ways)?;
        let slots = empty_slots(alloc, sets as usize * PLACES)?;
        Ok(CpuCache {
            line_bytes,
            lines,
            slots,
        })
    }

    /// The state of a line. None exactly where it isn't held.
    pub fn state(&self, l: Line) -> Option<Mesi>
        ensures value { result ≡ state_of self.now l }
        ensures kept { IsCache self.now }
    {
        match self.lines.find(l) {
            Some(kept) => Some(kept.value),
            None => None,
        }
    }

    /// The line at this place of a set, with its state. None exactly where the set's list is not longer than `way`.
    pub fn at(&self, set: u32, way: u32) -> Option<(Line, Mesi)>
        requires { set < length self.now.lines.lists }
        ensures { result ≡ slice_get (tags_of self.now set) way }
    {
        self.lines.at(set, way).map(|(l, kept)| (l, kept.value))
    }

    /// Hands out the bytes of a held line, and zeros after them.
    pub fn bytes(&self, l: Line, out: &mut [u8; 128])
        requires { IsHeld self.now l }
        ensures { out.new ≡ handed_out (bytes_of self.now l) }
    {
        let kept = held_at(&self.lines, l);
        *out = self.slots[slot_at(&self.lines, l, kept.place)];
    }

    /// The little-endian number of 1, 2 or 4 bytes at an aligned address in a held line, which comes to the front.
    pub fn load(&mut self, addr: u32, size: u8) -> u32
        requires size { IsAccessSize size }
        requires aligned { addr % size ≡ 0 }
        requires held { IsHeld self.old (line_at self.old.line_bytes addr) }
        ensures value { let l = line_at self.old.line_bytes addr in
            result ≡ value_at (bytes_of self.old l) (line_offset addr self.old.line_bytes) size }
        ensures front { let l = line_at self.old.line_bytes addr in
            self.new ≡ with_set self.old l (touched l (set_list self.old l)) }
        ensures kept { IsCache self.new }
    {
        self.load_held(addr, size).unwrap()
    }

    /// Stores the low 1, 2 or 4 bytes of a number, the lowest first, at an aligned address in a held line, which comes
    /// to the front, modified.
    pub fn store(&mut self, addr: u32, size: u8, value: u32)
        requires size { IsAccessSize size }
        requires aligned { addr % size ≡ 0 }
        requires held { IsHeld self.old (line_at self.old.line_bytes addr) }
        ensures lines { let l = line_at self.old.line_bytes addr in
            let offset = line_offset addr self.old.line_bytes in
            let bytes = stored (bytes_of self.old l) offset size value in
            self.new ≡ with_set self.old l
            (in_front self.old l (record { state = M; bytes = bytes })) }
        ensures kept { IsCache self.new }
    {
        let line_bytes = self.line_bytes;
        let l = line_of(addr, line_bytes);
        self.store_at(l, offset_of(addr, line_bytes), size, value);
    }

    /// The little-endian number of 1, 2 or 4 bytes at an aligned address in a held line, which comes to the front.
    /// None, with nothing changed, exactly where the line isn't held.
    pub fn load_held(&mut self, addr: u32, size: u8) -> Option<u32>
        requires size { IsAccessSize size }
        requires aligned { addr % size ≡ 0 }
        ensures value { let l = line_at self.old.line_bytes addr in
            result ≡ loaded (line_offset addr self.old.line_bytes) size (content_of self.old l) }
        ensures front { let l = line_at self.old.line_bytes addr in
            self.new ≡ with_set self.old l (touched l (set_list self.old l)) }
        ensures kept { IsCache self.new }
    {
        let line_bytes = self.line_bytes;
        let l = line_of(addr, line_bytes);
        self.load_held_at(l, offset_of(addr, line_bytes), size)
    }

    /// Answers the state in which a line is held. Where that is modified or exclusive, stores the low 1, 2 or 4 bytes
    /// of a number at an aligned address, and the line comes to the front, modified; else nothing changes.
    pub fn store_owned(&mut self, addr: u32, size: u8, value: u32) -> Option<Mesi>
        requires size { IsAccessSize size }
        requires aligned { addr % size ≡ 0 }
        ensures state { result ≡ state_of self.old (line_at self.old.line_bytes addr) }
        ensures lines { let l = line_at self.old.line_bytes addr in
            let offset = line_offset addr self.old.line_bytes in
            self.new ≡ stored_if_owned self.old l offset size value }
        ensures kept { IsCache self.new }
    {
        let line_bytes = self.line_bytes;
        let l = line_of(addr, line_bytes);
        self.store_owned_at(l, offset_of(addr, line_bytes), size, value)
    }

    /// Brings a held line to the front of its set, modified, with the bytes that it has.
    pub fn own(&mut self, l: Line)
        requires { IsHeld self.old l }
        ensures lines { let bytes = bytes_of self.old l in
            self.new ≡ with_set self.old l
            (in_front self.old l (record { state = M; bytes = bytes })) }
        ensures kept { IsCache self.new }
    {
        let kept = held_at(&self.lines, l);
        front_in(&mut self.lines, l, kept.place, Mesi::M);
    }

    // The number at a place in a line that is held; the line comes to the front.
    fn load_held_at(&mut self, l: Line, offset: usize, size: u8) -> Option<u32>
        requires size { IsAccessSize size }
        requires within { offset + size ≤ self.old.line_bytes }
        ensures value { result ≡ loaded offset size (content_of self.old l) }
        ensures front { self.new ≡ with_set self.old l (touched l (set_list self.old l)) }
        ensures kept { IsCache self.new }
    {
        match self.lines.find(l) {
            Some(kept) => {
                let slot = slot_at(&self.lines, l, kept.place);
                self.lines.touch(l, kept.place);
                Some(read_value(&self.slots[slot], offset, size))
            }
            None => None,
        }
    }

    // Stores a number at a place in a held line, which comes to the front, modified.
    fn store_at(&mut self, l: Line, offset: usize, size: u8, value: u32)
        requires size { IsAccessSize size }
        requires within { offset + size ≤ self.old.line_bytes }
        requires held { IsHeld self.old l }
        ensures lines { let bytes = stored (bytes_of self.old l) offset size value in
            self.new ≡ with_set self.old l
            (in_front self.old l (record { state = M; bytes = bytes })) }
        ensures kept { IsCache self.new }
    {
        let kept = held_at(&self.lines, l);
        let slot = slot_at(&self.lines, l, kept.place);
        write_value(&mut self.slots[slot], offset, size, value);
        front_in(&mut self.lines, l, kept.place, Mesi::M);
    }

    // Stores a number at a place in a line that is held in M or E; the line comes to the front, modified.
    fn store_owned_at(&mut self, l: Line, offset: usize, size: u8, value: u32) -> Option<Mesi>
        requires size { IsAccessSize size }
        requires within { offset + size ≤ self.old.line_bytes }
        ensures state { result ≡ state_of self.old l }
        ensures lines { self.new ≡ stored_if_owned self.old l offset size value }
        ensures kept { IsCache self.new }
    {
        match self.lines.find(l) {
            Some(kept) => {
                match kept.value {
                    Mesi::M | Mesi::E => {
                        let slot = slot_at(&self.lines, l, kept.place);
                        write_value(&mut self.slots[slot], offset, size, value);
                        front_in(&mut self.lines, l, kept.place, Mesi::M);
                    }
                    Mesi::S => {}
                }
                Some(kept.value)
            }
            None => None,
        }
    }

    /// Puts a line that isn't held in front of its set. Hands out the line that left, the last one, where the set was
    /// full.
    pub fn fill(&mut self, l: Line, from: &[u8; 128], s: Mesi) -> Option<(Line, Mesi, [u8; 128])>
        requires { content_of self.old l ≡ None }
        ensures left { let list = filled self.old l from.now s in
            result ≡ option_map leaving (slice_get list self.old.lines.ways) }
        ensures front { let list = filled self.old l from.now s in
            self.new ≡ with_set self.old l (take self.old.lines.ways list) }
        ensures kept { IsCache self.new }
    {
        let left = self.last(l);
        self.put(l, from, s);
        left
    }

    // The last line of a full set, with its bytes.
    fn last(&self, l: Line) -> Option<(Line, Mesi, [u8; 128])>
        ensures last { let last = slice_get (set_list self.now l) (self.now.lines.ways - 1) in
            result ≡ option_map leaving last }
        ensures kept { IsCache self.now }
    {
        match self.lines.last(l) {
            Some((line, kept)) => {
                let slot = slot_at(&self.lines, line, kept.place);
                Some((line, kept.value, self.slots[slot]))
            }
            None => None,
        }
    }

    // Puts a line that isn't held in front of its set.
    fn put(&mut self, l: Line, from: &[u8; 128], s: Mesi)
        requires { content_of self.old l ≡ None }
        ensures front { let list = filled self.old l from.now s in
            self.new ≡ with_set self.old l (take self.old.lines.ways list) }
        ensures kept { IsCache self.new }
    {
        let place = self.lines.add(l, s);
        let slot = slot_at(&self.lines, l, place);
        copy_line(&mut self.slots[slot], from, self.line_bytes as usize);
    }

    /// The bytes of a line, with zeros after them, where it is held modified.
    pub fn modified_bytes(&self, l: Line) -> Option<&[u8; 128]>
        ensures bytes { option_copied result ≡ written_back (content_of self.now l) }
        ensures kept { IsCache self.now }
    {
        match self.lines.find(l) {
            Some(kept) => {
                let slot = slot_at(&self.lines, l, kept.place);
                bytes_to_write(&self.slots, slot, kept.value)
            }
            None => None,
        }
    }

    /// Keeps a held line shared, at its place. Hands out its bytes where it was modified.
    pub fn downgrade(&mut self, l: Line) -> Option<[u8; 128]>
        requires { IsHeld self.old l }
        ensures bytes { result ≡ written_back (content_of self.old l) }
        ensures shared { self.new ≡ with_set self.old l (restated self.old l S) }
        ensures kept { IsCache self.new }
    {
        let bytes = self.modified_bytes(l).copied();
        self.keep_shared(l);
        bytes
    }

    /// Drops a held line. Hands out its bytes where it was modified.
    pub fn invalidate(&mut self, l: Line) -> Option<[u8; 128]>
        requires { IsHeld self.old l }
        ensures bytes { result ≡ written_back (content_of self.old l) }
        ensures dropped { self.new ≡ with_set self.old l (without l (set_list self.old l)) }
        ensures kept { IsCache self.new }
    {
        let bytes = self.modified_bytes(l).copied();
        self.drop_line(l);
        bytes
    }

    /// Keeps a modified line exclusive, at its place, and hands out its bytes.
    pub fn clean(&mut self, l: Line) -> [u8; 128]
        requires { state_of self.old l ≡ Some M }
        ensures bytes { result ≡ handed_out (bytes_of self.old l) }
        ensures exclusive { self.new ≡ with_set self.old l (restated self.old l E) }
        ensures kept { IsCache self.new }
    {
        let mut bytes = [0; ROOM];
        self.bytes(l, &mut bytes);
        self.keep_exclusive(l);
        bytes
    }

    /// Keeps a held line shared, at its place.
    pub fn keep_shared(&mut self, l: Line)
        requires { IsHeld self.old l }
        ensures shared { self.new ≡ with_set self.old l (restated self.old l S) }
        ensures kept { IsCache self.new }
    {
        let kept = held_at(&self.lines, l);
        self.lines.replace(l, kept.place, Mesi::S);
    }

    /// Drops a held line.
    pub fn drop_line(&mut self, l: Line)
        requires { IsHeld self.old l }
        ensures dropped { self.new ≡ with_set self.old l (without l (set_list self.old l)) }
        ensures kept { IsCache self.new }
    {
        let kept = held_at(&self.lines, l);
        self.lines.remove(l, kept.place);
    }

    /// Keeps a modified line exclusive, at its place.
    pub fn keep_exclusive(&mut self, l: Line)
        requires { state_of self.old l ≡ Some M }
        ensures exclusive { self.new ≡ with_set self.old l (restated self.old l E) }
        ensures kept { IsCache self.new }
    {
        let kept = held_at(&self.lines, l);
        self.lines.replace(l, kept.place, Mesi::E);
    }
}

// Puts the first `size` bytes of a line into a slot.
fn copy_line(slot: &mut [u8; 128], from: &[u8; 128], size: usize)
    requires { size ≤ 128 }
    ensures { slot.new ≡ take size from.now ++ drop size slot.old }
{
    slot[..size].copy_from_slice(&from[..size]);
}

// The bytes of a slot, where its line is modified.
fn bytes_to_write(slots: &[[u8; 128]], slot: usize, state: Mesi) -> Option<&[u8; 128]>
    requires { slot < length slots.now }
    ensures { option_copied result ≡ bytes_in state (slice_index_or slots.now slot []) }
{
    match state {
        Mesi::M => Some(&slots[slot]),
        Mesi::E | Mesi::S => None,
    }
}

// So many slots, each with zeros.
fn empty_slots(alloc: Global, total: usize) -> Result<Vec<[u8; 128]>, AllocError>
    ensures { IfOk result (λ slots. slots.items ≡ replicate total (replicate 128 0)) }
{
    let mut slots = Vec::with_capacity(alloc, total)?;
    for _ in 0..total {
        slots.push([0; ROOM])?;
    }
    Ok(slots)
}
