// The slots of a try's lines.
ghost use Rattle.std.specs.Prelude.{
  ℕ,
  ◌≡◌,
  ◌+◌,
  ◌<◌,
  ◌≤◌,
  ◌⊎◌,
  ◌↔◌,
  ◌==◌,
  ◌++◌,
  ◌∷◌,
  [],
  true,
  false,
  length,
  slice_set,
  IfOk,
  IsTrue,
};
ghost use Rattle.conda_base.specs.Bytes.{value_at};
ghost use Rattle.conda_base.specs.Lines.{IsLineSize, IsAccessSize};
ghost use Rattle.write_masks.specs.Marks.{Covers};
ghost use Rattle.nda_cache.specs.Looks.{LooksIn};
ghost use Rattle.nda_cache.specs.Slots.{StoresIn, slot_entry, without_older};
ghost use Rattle.nda_cache.specs.Tried.{HaveSameMarked, Stores, filled_from, unknown};

use crate::cache::Look;
use conda_base::{Line, put_marked};
use std::alloc::{AllocError, Global};
use std::marker::Model;
use write_masks::Masked;

/// Room for the lines of a try. What an older try left in a slot is hidden, not cleared.
#[derive(Drop)]
pub struct Slots {
    line_bytes: u32,
    slots: Vec<(Line, Masked)>,
    // Those in use come first.
    used: usize,
}

impl Model for Slots {
    ghost use Rattle.std.specs.Prelude.{◌≤◌, All, length};
    ghost use Rattle.std.specs.Vec.{vec_capacity};
    ghost use Rattle.conda_base.specs.Lines.{IsLineSize};
    ghost use Rattle.nda_cache.specs.Slots.{SlotLines, lines_used};
    ghost use Rattle.nda_cache.specs.Tried.{IsLine};

    ghost Value = { SlotLines };

    ghost view = { λ s. record {
      line_bytes = s.line_bytes;
      lines = lines_used s.slots.items s.used;
      room = vec_capacity s.slots;
    } };

    ghost invariant = { λ s. IsLineSize s.line_bytes × (s.used ≤ length s.slots.items)
        × All (λ slot. IsLine s.line_bytes slot.1) s.slots.items };
}

impl Slots {
    /// Empty slots, in room for this many lines at least. All their memory is taken here.
    pub fn new(alloc: Global, line_bytes: u32, room: usize) -> Result<Slots, AllocError>
        requires { IsLineSize line_bytes }
        ensures line_bytes { IfOk result (λ s. s.line_bytes ≡ line_bytes) }
        ensures empty { IfOk result (λ s. s.lines ≡ []) }
        ensures room { IfOk result (λ s. room ≤ s.room) }
    {
        let slots = Vec::with_capacity(alloc, room)?;
        Ok(Slots {
            line_bytes,
            slots,
            used: 0,
        })
    }

    /// How many bytes a line has.
    pub fn line_bytes(&self) -> u32
        ensures { result ≡ self.now.line_bytes }
    {
        self.line_bytes
    }

    /// How many lines there are.
    pub fn len(&self) -> usize
        ensures { result ≡ length self.now.lines }
    {
        self.used
    }

    /// Puts a line of which nothing is known behind the others. A slot of an older try is cleared of
    /// its marks alone.
    pub fn add(&mut self, l: Line)
        requires { length self.old.lines < self.old.room }
        ensures { self.new ≡ record self.old { lines = self.old.lines ++ (l, unknown) ∷ [] } }
    {
        let place = self.used;
        self.used = place + 1;
        if place < self.slots.len() {
            take_over(&mut self.slots[place], l);
        } else {
            self.slots.push_reserved((l, Masked::empty()));
        }
    }

    /// Looks up the bytes of an access in the line at a place.
    pub fn look(&self, place: usize, offset: usize, size: u8) -> Look
        requires there { place < length self.now.lines }
        requires size { IsAccessSize size }
        requires within { offset + size ≤ 128 }
        ensures { LooksIn (slot_entry self.now place).1 offset size result }
    {
        look_in(&self.slots[place].1, offset, size)
    }

    /// Whether each byte of an access to the line at a place was stored.
    pub fn covers(&self, place: usize, offset: usize, size: u8) -> bool
        requires there { place < length self.now.lines }
        requires size { IsAccessSize size }
        requires within { offset + size ≤ 128 }
        ensures { IsTrue result ↔ Covers (slot_entry self.now place).1.mask offset size }
    {
        self.slots[place].1.covers(offset, size)
    }

    /// Whether the line at a place was filled.
    pub fn is_filled(&self, place: usize) -> bool
        requires { place < length self.now.lines }
        ensures { result ≡ (slot_entry self.now place).1.filled }
    {
        self.slots[place].1.filled
    }

    /// The number of 1, 2 or 4 bytes of the line at a place, which were filled or stored.
    pub fn get(&self, place: usize, offset: usize, size: u8) -> u32
        requires there { place < length self.now.lines }
        requires size { IsAccessSize size }
        requires within { offset + size ≤ 128 }
        requires known { ((slot_entry self.now place).1.filled ≡ true)
            ⊎ Covers (slot_entry self.now place).1.mask offset size }
        ensures { result ≡ value_at (slot_entry self.now place).1.bytes offset size }
    {
        self.slots[place].1.get(offset, size)
    }

    /// Fills the line at a place from a copy of it. The bytes that were stored stay.
    pub fn fill(&mut self, place: usize, from: &[u8; 128])
        requires there { place < length self.old.lines }
        requires unfilled { (slot_entry self.old place).1.filled ≡ false }
        ensures { let line = slot_entry self.old place
            in let filled = filled_from self.old.line_bytes line.1 from.now
            in self.new ≡ record self.old
            { lines = slice_set self.old.lines place (line.0, filled) } }
    {
        let copy = &from[..self.line_bytes as usize];
        self.slots[place].1.fill_from(copy);
    }

    /// Stores a number into the line at a place, and tells whether it is the line's first store.
    pub fn put(&mut self, place: usize, offset: usize, size: u8, value: u32) -> bool
        requires there { place < length self.old.lines }
        requires size { IsAccessSize size }
        requires within { offset + size ≤ self.old.line_bytes }
        ensures first { result ≡ ((slot_entry self.old place).1.mask == 0) }
        ensures stores { StoresIn self.old self.new place offset size value }
    {
        put_value(&mut self.slots[place].1, offset, size, value)
    }

    /// What is known of the line at a place.
    pub fn known(&self, place: usize) -> Masked
        requires { place < length self.now.lines }
        ensures { result ≡ (slot_entry self.now place).1 }
    {
        known_in(&self.slots[place].1)
    }

    /// The line at a place with its marks and marked bytes. Its other bytes mean nothing.
    pub fn marked(&self, place: usize) -> &Masked
        requires { place < length self.now.lines }
        ensures { HaveSameMarked result.now (slot_entry self.now place).1 }
    {
        &self.slots[place].1
    }

    /// Takes every line out.
    pub fn clear(&mut self)
        ensures { self.new ≡ record self.old { lines = [] } }
    {
        self.used = 0;
    }
}

// Gives a slot to another line, of which nothing is known. The bytes stay.
fn take_over(slot: &mut (Line, Masked), l: Line)
    ensures { slot.new ≡ (l, record { bytes = slot.old.1.bytes; mask = 0; filled = false }) }
{
    slot.0 = l;
    slot.1.mask = 0;
    slot.1.filled = false;
}

// Looks up the bytes of an access in its line.
fn look_in(line: &Masked, offset: usize, size: u8) -> Look
    requires size { IsAccessSize size }
    requires within { offset + size ≤ 128 }
    ensures { LooksIn line.now offset size result }
{
    if line.filled || line.covers(offset, size) {
        Look::Known(line.get(offset, size))
    } else {
        Look::Missing
    }
}

// Stores a number into a line, and tells whether it is the first one.
fn put_value(line: &mut Masked, offset: usize, size: u8, value: u32) -> bool
    requires size { IsAccessSize size }
    requires within { offset + size ≤ 128 }
    ensures first { result ≡ (line.old.mask == 0) }
    ensures stores { Stores line.old line.new offset size value }
{
    let first = line.mask == 0;
    line.put(offset, size, value);
    first
}

// A copy of a line, without what older tries left.
fn known_in(line: &Masked) -> Masked
    ensures { result ≡ without_older line.now }
{
    if line.filled {
        return *line;
    }
    let mut bytes = [0; 128];
    put_marked(&mut bytes, line.mask, &line.bytes);
    Masked {
        bytes,
        mask: line.mask,
        filled: false,
    }
}
