// The lines of a try.
ghost use Rattle.std.specs.Prelude.{
  ℕ,
  ◌≡◌,
  ◌+◌,
  ◌-◌,
  ◌%◌,
  ◌<◌,
  ◌≤◌,
  ◌⊎◌,
  ◌↔◌,
  ◌==◌,
  ◌++◌,
  ◌∷◌,
  take,
  replicate,
  true,
  false,
  length,
  slice_get,
  IfOk,
  IsTrue,
  Some,
  None,
};
ghost use Rattle.std.specs.Option.{option_map};
ghost use Rattle.conda_base.specs.Bytes.{value_at};
ghost use Rattle.conda_base.specs.Lines.{IsLineSize, IsAccessSize, line_offset};
ghost use Rattle.conda_base.specs.LineLists.{line_at};
ghost use Rattle.conda_base.specs.Marks.{mixed};
ghost use Rattle.write_masks.specs.Marks.{Covers};
ghost use Rattle.nda_cache.specs.Looks.{IsKnown, LooksIn};
ghost use Rattle.set_assoc.specs.SetLists.{find, list_of, with_list};
ghost use Rattle.nda_cache.specs.Tried.{HasRoom, IsFound, IsThere, IsTried, IsWrittenInPlace, no_try_lines, filled_from, known_of, put_line, Stores, WritesLine};

use crate::slots::Slots;
use conda_base::{Line, line_of, offset_of};
use set_assoc::Sets;
use std::alloc::{AllocError, Global};
use std::marker::Model;
use write_masks::Masked;

/// The lines of a try. None leaves before the cache is cleared, and after `new` it takes no memory.
#[derive(Drop)]
pub struct NdaCache {
    sets: u32,
    ways: u32,
    index: Sets<u16>,
    lines: Slots,
    stored: Vec<Line>,
}

impl Model for NdaCache {
    ghost use Rattle.std.specs.Prelude.{◌*◌, ◌≤◌};
    ghost use Rattle.std.specs.Vec.{vec_capacity};
    ghost use Rattle.nda_cache.specs.Tried.{Tried};
    ghost use Rattle.nda_cache.specs.Index.{IsTryStore};

    ghost Value = { Tried };

    ghost view = { λ c. record {
      line_bytes = c.lines.line_bytes;
      sets = c.sets;
      ways = c.ways;
      lines = c.lines.lines;
      stored = c.stored.items;
    } };

    ghost invariant = { λ c.
        IsTryStore c.lines.line_bytes c.sets c.ways c.index c.lines.lines c.stored.items
        × (c.sets * c.ways ≤ c.lines.room) × (c.sets * c.ways ≤ vec_capacity c.stored) };
}

/// What the lines of a try have of the bytes of a load.
#[derive(Clone, Copy, Debug, PartialEq, Eq)]
pub enum Look {
    /// All of them were stored, or their line was filled: this is their value.
    Known(u32),
    /// Their line has to be filled, and there is room for it.
    Missing,
    /// Their line isn't there, and its set is full.
    Full,
}

/// What became of a store that could be refused.
#[derive(Clone, Copy, Debug, PartialEq, Eq)]
pub enum Stored {
    /// Its line isn't there, and its set is full.
    Full,
    /// There was room for it, and it was refused.
    Refused,
    /// It was done.
    Done,
}

impl NdaCache {
    ghost use Rattle.nda_cache.specs.Looks.{Looks, StoresUnless};

    /// Stores as `write` does, with one search, but changes nothing where the line has no room or the store is refused.
    pub fn store_unless(&mut self, addr: u32, size: u8, value: u32, refused: bool) -> Stored
        requires size { IsAccessSize size }
        requires aligned { addr % size ≡ 0 }
        ensures stores { StoresUnless self.old refused (line_at self.old.line_bytes addr)
            (line_offset addr self.old.line_bytes) size value result self.new }
        ensures tried { IsTried self.old }
        ensures kept { IsTried self.new }
    {
        let line_bytes = self.line_bytes();
        let l = line_of(addr, line_bytes);
        let offset = offset_of(addr, line_bytes);
        let found = self.find(l);
        if !self.has_room(l, found) {
            return Stored::Full;
        }
        if refused {
            return Stored::Refused;
        }
        self.write_at(found, l, offset, size, value);
        Stored::Done
    }

    /// Searches for a line: its place among the lines of the try, where it is there.
    pub fn find(&self, l: Line) -> Option<usize>
        ensures found { IsFound self.now l result }
        ensures kept { IsTried self.now }
    {
        match self.index.peek(l) {
            Some(place) => Some(place as usize),
            None => None,
        }
    }

    // How many bytes a line has.
    fn line_bytes(&self) -> u32
        ensures same { result ≡ self.now.line_bytes }
        ensures size { IsLineSize result }
        ensures kept { IsTried self.now }
    {
        self.lines.line_bytes()
    }

    // Whether a line was found or its set isn't full.
    fn has_room(&self, l: Line, found: Option<usize>) -> bool
        requires { IsFound self.now l found }
        ensures { IsTrue result ↔ HasRoom self.now l }
    {
        found.is_some() || !self.index.is_full(l)
    }

    /// Looks up the bytes of a load, with one search.
    pub fn look(&self, addr: u32, size: u8) -> Look
        requires size { IsAccessSize size }
        requires aligned { addr % size ≡ 0 }
        ensures looks { Looks self.now (line_at self.now.line_bytes addr)
            (line_offset addr self.now.line_bytes) size result }
        ensures kept { IsTried self.now }
    {
        let line_bytes = self.line_bytes();
        let found = self.find(line_of(addr, line_bytes));
        self.look_found(found, addr, size)
    }

    /// Looks up the bytes of a load whose line was searched for.
    pub fn look_found(&self, found: Option<usize>, addr: u32, size: u8) -> Look
        requires size { IsAccessSize size }
        requires aligned { addr % size ≡ 0 }
        requires found { IsFound self.now (line_at self.now.line_bytes addr) found }
        ensures looks { Looks self.now (line_at self.now.line_bytes addr)
            (line_offset addr self.now.line_bytes) size result }
        ensures kept { IsTried self.now }
    {
        let line_bytes = self.line_bytes();
        self.look_at(
            found,
            line_of(addr, line_bytes),
            offset_of(addr, line_bytes),
            size,
        )
    }

    // Looks up the bytes of an access to a line that was searched for.
    fn look_at(&self, found: Option<usize>, l: Line, offset: usize, size: u8) -> Look
        requires size { IsAccessSize size }
        requires within { offset + size ≤ self.now.line_bytes }
        requires found { IsFound self.now l found }
        ensures looks { Looks self.now l offset size result }
        ensures kept { IsTried self.now }
    {
        match found {
            Some(place) => self.lines.look(place, offset, size),
            None => {
                if self.index.is_full(l) {
                    Look::Full
                } else {
                    Look::Missing
                }
            }
        }
    }

    /// An empty cache with 1 to 256 sets of 1 to 8 ways. All its memory is taken here.
    pub fn new(alloc: Global, line_bytes: u32, sets: u32, ways: u32) -> Result<NdaCache, AllocError>
        requires size { IsLineSize line_bytes }
        requires some_sets { 0 < sets }
        requires few_sets { sets ≤ 256 }
        requires some_ways { 0 < ways }
        requires few_ways { ways ≤ 8 }
        ensures empty { IfOk result (λ c. c ≡ no_try_lines line_bytes sets ways) }
        ensures kept { IfOk result (λ c. IsTried c) }
    {
        let total = (sets * ways) as usize;
        let index = Sets::new(alloc, sets, ways)?;
        let lines = Slots::new(alloc, line_bytes, total)?;
        let stored = Vec::with_capacity(alloc, total)?;
        Ok(NdaCache {
            sets,
            ways,
            index,
            lines,
            stored,
        })
    }

    /// Whether a line is there or its set isn't full.
    pub fn room(&self, l: Line) -> bool
        ensures room { IsTrue result ↔ HasRoom self.now l }
        ensures kept { IsTried self.now }
    {
        self.index.peek(l).is_some() || !self.index.is_full(l)
    }

    /// Whether a line is there: it was filled or stored to since the last clear.
    pub fn is_there(&self, l: Line) -> bool
        ensures there { IsTrue result ↔ IsThere self.now l }
        ensures kept { IsTried self.now }
    {
        self.index.peek(l).is_some()
    }

    /// Whether each byte of an access was stored.
    pub fn covered(&self, addr: u32, size: u8) -> bool
        requires size { IsAccessSize size }
        requires aligned { addr % size ≡ 0 }
        ensures { IsTrue result ↔ Covers (known_of self.now (line_at self.now.line_bytes addr)).mask
            (line_offset addr self.now.line_bytes) size }
    {
        let line_bytes = self.line_bytes();
        self.covered_at(line_of(addr, line_bytes), offset_of(addr, line_bytes), size)
    }

    // Whether each byte of an access to a line was stored.
    fn covered_at(&self, l: Line, offset: usize, size: u8) -> bool
        requires size { IsAccessSize size }
        requires within { offset + size ≤ self.now.line_bytes }
        ensures { IsTrue result ↔ Covers (known_of self.now l).mask offset size }
    {
        match self.index.peek(l) {
            Some(place) => self.lines.covers(place as usize, offset, size),
            None => false,
        }
    }

    /// Whether a line was filled since the last clear.
    pub fn filled(&self, l: Line) -> bool
        ensures { result ≡ (known_of self.now l).filled }
    {
        match self.index.peek(l) {
            Some(place) => self.lines.is_filled(place as usize),
            None => false,
        }
    }

    /// Fills a line from a copy of it. The bytes that were stored stay.
    pub fn fill(&mut self, l: Line, from: &[u8; 128])
        requires room { HasRoom self.old l }
        requires unfilled { (known_of self.old l).filled ≡ false }
        ensures filled { let line = filled_from self.old.line_bytes (known_of self.old l) from.now
            in
            self.new ≡ record self.old { lines = put_line l line self.old.lines } }
        ensures kept { IsTried self.new }
    {
        let found = self.find(l);
        let _place = self.fill_found(found, l, from);
    }

    /// Fills a line that was searched for as `fill` does, and gives its place.
    pub fn fill_found(&mut self, found: Option<usize>, l: Line, from: &[u8; 128]) -> usize
        requires room { HasRoom self.old l }
        requires unfilled { (known_of self.old l).filled ≡ false }
        requires found { IsFound self.old l found }
        ensures filled { let line = filled_from self.old.line_bytes (known_of self.old l) from.now
            in
            self.new ≡ record self.old { lines = put_line l line self.old.lines } }
        ensures place { IsFound self.new l (Some result) }
        ensures kept { IsTried self.new }
    {
        let place = self.place_for(l, found);
        self.lines.fill(place, from);
        place
    }

    /// The little-endian number of 1, 2 or 4 bytes at an aligned address, whose bytes were filled or stored.
    pub fn read(&self, addr: u32, size: u8) -> u32
        requires size { IsAccessSize size }
        requires aligned { addr % size ≡ 0 }
        requires known { IsKnown self.now (line_at self.now.line_bytes addr)
            (line_offset addr self.now.line_bytes) size }
        ensures { result ≡ value_at (known_of self.now (line_at self.now.line_bytes addr)).bytes
            (line_offset addr self.now.line_bytes) size }
    {
        let line_bytes = self.line_bytes();
        self.read_at(line_of(addr, line_bytes), offset_of(addr, line_bytes), size)
    }

    /// Reads as `read` does, in the line at a place that a search found.
    pub fn read_found(&self, place: usize, addr: u32, size: u8) -> u32
        requires size { IsAccessSize size }
        requires aligned { addr % size ≡ 0 }
        requires found { IsFound self.now (line_at self.now.line_bytes addr) (Some place) }
        requires known { IsKnown self.now (line_at self.now.line_bytes addr)
            (line_offset addr self.now.line_bytes) size }
        ensures { result ≡ value_at (known_of self.now (line_at self.now.line_bytes addr)).bytes
            (line_offset addr self.now.line_bytes) size }
    {
        let offset = offset_of(addr, self.line_bytes());
        self.lines.get(place, offset, size)
    }

    // The number at a place in a line, whose bytes were filled or stored.
    fn read_at(&self, l: Line, offset: usize, size: u8) -> u32
        requires size { IsAccessSize size }
        requires within { offset + size ≤ self.now.line_bytes }
        requires known { IsKnown self.now l offset size }
        ensures { result ≡ value_at (known_of self.now l).bytes offset size }
    {
        let place = self.index.peek(l).unwrap();
        self.lines.get(place as usize, offset, size)
    }

    /// Stores the low 1, 2 or 4 bytes of a number, the lowest first, at an aligned address, and marks them.
    pub fn write(&mut self, addr: u32, size: u8, value: u32)
        requires size { IsAccessSize size }
        requires aligned { addr % size ≡ 0 }
        requires room { HasRoom self.old (line_at self.old.line_bytes addr) }
        ensures writes { WritesLine self.old self.new (line_at self.old.line_bytes addr)
            (line_offset addr self.old.line_bytes) size value }
        ensures kept { IsTried self.new }
    {
        let line_bytes = self.line_bytes();
        let found = self.find(line_of(addr, line_bytes));
        self.write_found(found, addr, size, value);
    }

    /// Stores as `write` does, into a line that was searched for.
    pub fn write_found(&mut self, found: Option<usize>, addr: u32, size: u8, value: u32)
        requires size { IsAccessSize size }
        requires aligned { addr % size ≡ 0 }
        requires room { HasRoom self.old (line_at self.old.line_bytes addr) }
        requires found { IsFound self.old (line_at self.old.line_bytes addr) found }
        ensures writes { WritesLine self.old self.new (line_at self.old.line_bytes addr)
            (line_offset addr self.old.line_bytes) size value }
        ensures tried { IsTried self.old }
        ensures kept { IsTried self.new }
    {
        let line_bytes = self.line_bytes();
        let l = line_of(addr, line_bytes);
        self.write_at(found, l, offset_of(addr, line_bytes), size, value);
    }

    // Stores a number at a place in a line that was searched for, and marks its bytes.
    fn write_at(&mut self, found: Option<usize>, l: Line, offset: usize, size: u8, value: u32)
        requires size { IsAccessSize size }
        requires within { offset + size ≤ self.old.line_bytes }
        requires room { HasRoom self.old l }
        requires found { IsFound self.old l found }
        ensures writes { WritesLine self.old self.new l offset size value }
        ensures kept { IsTried self.new }
    {
        let place = self.place_for(l, found);
        let first = self.lines.put(place, offset, size, value);
        if first {
            self.stored.push_reserved(l);
        }
    }

    // The place of a line that was searched for, which is put behind the others where it isn't there.
    fn place_for(&mut self, l: Line, found: Option<usize>) -> usize
        requires room { HasRoom self.old l }
        requires found { IsFound self.old l found }
        ensures lines { self.new ≡ record self.old
            { lines = put_line l (known_of self.old l) self.old.lines } }
        ensures place { slice_get self.new.lines result ≡ Some (l, known_of self.old l) }
        ensures within { result < length self.new.lines }
    {
        match found {
            Some(place) => place,
            None => {
                let place = self.lines.len();
                put_in(&mut self.index, l, place as u16);
                self.lines.add(l);
                place
            }
        }
    }

    /// A stored line with its bytes and marks, by the order of first stores.
    pub fn written(&self, place: usize) -> Option<(Line, Masked)>
        ensures line { result ≡ option_map (λ l. (l, known_of self.now l))
            (slice_get self.now.stored place) }
        ensures kept { IsTried self.now }
    {
        let l = nth_line(&self.stored, place)?;
        let place = self.index.peek(l).unwrap();
        Some((l, self.lines.known(place as usize)))
    }

    /// A stored line with its marks and marked bytes, by the order of first stores. Its other bytes
    /// mean nothing, and nothing is copied.
    pub fn written_in_place(&self, place: usize) -> Option<(Line, &Masked)>
        ensures line { IsWrittenInPlace self.now place (option_map (λ x. (x.0, x.1.now)) result) }
        ensures kept { IsTried self.now }
    {
        let l = nth_line(&self.stored, place)?;
        let place = self.index.peek(l).unwrap();
        Some((l, self.lines.marked(place as usize)))
    }

    /// Takes every line out.
    pub fn clear(&mut self)
        ensures empty { self.new ≡ no_try_lines self.old.line_bytes self.old.sets self.old.ways }
        ensures kept { IsTried self.new }
    {
        self.index.clear();
        self.lines.clear();
        self.stored.clear();
    }
}

// Puts a line in front of its set, which has room for it.
fn put_in(index: &mut Sets<u16>, l: Line, place: u16)
    requires absent { find index.old l ≡ None }
    requires room { length (list_of index.old l) < index.old.ways }
    ensures { index.new ≡ with_list index.old l ((l, place) ∷ list_of index.old l) }
{
    index.add(l, place);
}

// The line at a place of a list.
fn nth_line(lines: &[Line], place: usize) -> Option<Line>
    ensures { result ≡ slice_get lines.now place }
{
    lines.get(place).copied()
}
