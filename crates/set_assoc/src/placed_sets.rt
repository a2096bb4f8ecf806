// Lines in sets, each with a value and a place.
ghost use Rattle.std.specs.Prelude.{
  ◌≡◌,
  ◌<◌,
  ◌≤◌,
  ◌-◌,
  ◌↔◌,
  [],
  ◌∷◌,
  Some,
  None,
  length,
  take,
  slice_get,
  slice_index_or,
  IfOk,
  IsTrue,
  replicate,
};
ghost use Rattle.set_assoc.specs.Places.{ArePlacedSets, place_of_line, placed};
ghost use Rattle.set_assoc.specs.Entries.{without, replaced, touched};
ghost use Rattle.set_assoc.specs.SetLists.{find, list_of, set_of, with_list};

use crate::placed::Placed;
use crate::row::Row;
use conda_base::Line;
use std::alloc::{AllocError, Global};
use std::marker::Model;

/// Lines in sets, each with a value. A line's set is its number modulo the number of sets.
///
/// A set is a list with its most recent line first, and it has at most as many lines as there are ways. A line has one
/// of eight places of its set, and keeps it as long as it is there. The layer above searches once, by `find`, and then
/// hands the place in.
#[derive(Drop)]
pub struct PlacedSets<T: Copy> {
    sets: u32,
    ways: u32,
    rows: Vec<Row<T>>,
}

impl<T: Copy> Model for PlacedSets<T> {
    ghost use Rattle.std.specs.Prelude.{ℕ, [], slice_index_or};
    ghost use Rattle.set_assoc.specs.Places.{ArePlaces};
    ghost use Rattle.set_assoc.specs.declared.placed.Placed.{Placed};
    ghost use Rattle.set_assoc.specs.SetLists.{SetLists, AreSets};

    ghost Value = { SetLists (Placed T) };

    ghost view = { λ s. record { ways = s.ways; lists = s.rows.items } };

    ghost invariant = { λ s. AreSets s.sets s.ways s.rows.items
        × ((k : ℕ) → ArePlaces (slice_index_or s.rows.items k [])) };
}

impl<T: Copy> PlacedSets<T> {
    /// Empty sets with 1 to 8 ways. All their memory is taken here.
    pub fn new(alloc: Global, sets: u32, ways: u32) -> Result<PlacedSets<T>, AllocError>
        requires sets { 0 < sets }
        requires some_ways { 0 < ways }
        requires few_ways { ways ≤ 8 }
        ensures empty { IfOk result (λ s. s ≡ record { ways = ways; lists = replicate sets [] }) }
        ensures kept { IfOk result (λ s. ArePlacedSets s) }
    {
        let mut rows = Vec::with_capacity(alloc, sets as usize)?;
        for _ in 0..sets {
            rows.push(Row::new(alloc)?)?;
        }
        Ok(PlacedSets { sets, ways, rows })
    }

    /// The set of a line.
    pub fn set_of(&self, line: Line) -> usize
        ensures place { result ≡ set_of self.now line }
        ensures within { result < length self.now.lists }
    {
        let bits = self.sets.trailing_zeros();
        // The usual numbers of sets are powers of two, and take no division.
        if self.sets == 1 << bits {
            (line.0 & ((1 << bits) - 1)) as usize
        } else {
            (line.0 % self.sets) as usize
        }
    }

    /// The value of a line, and its place. None exactly where it isn't there.
    pub fn find(&self, line: Line) -> Option<Placed<T>>
        ensures value { result ≡ find self.now line }
        ensures kept { ArePlacedSets self.now }
    {
        let set = self.set_of(line);
        self.rows[set].find(line)
    }

    /// Gives the line at a place a new value. The order stays.
    pub fn replace(&mut self, line: Line, place: usize, value: T)
        requires { place_of_line line (list_of self.old line) ≡ Some place }
        ensures written { let list = replaced line (placed value place) (list_of self.old line) in
            self.new ≡ with_list self.old line list }
        ensures kept { ArePlacedSets self.new }
    {
        let set = self.set_of(line);
        self.rows[set].replace(line, place, value);
    }

    /// Brings the line at a place to the front of its set.
    pub fn touch(&mut self, line: Line, place: usize)
        requires { place_of_line line (list_of self.old line) ≡ Some place }
        ensures front { self.new ≡ with_list self.old line (touched line (list_of self.old line)) }
        ensures kept { ArePlacedSets self.new }
    {
        let set = self.set_of(line);
        self.rows[set].touch(line, place);
    }

    /// Takes the line at a place out.
    pub fn remove(&mut self, line: Line, place: usize)
        requires { place_of_line line (list_of self.old line) ≡ Some place }
        ensures removed { let list = without line (list_of self.old line) in
            self.new ≡ with_list self.old line list }
        ensures kept { ArePlacedSets self.new }
    {
        let set = self.set_of(line);
        self.rows[set].remove(line, place);
    }

    /// Puts a line that isn't there in front of its set, and answers its place. The last line leaves where the set was
    /// full, and the new one has its place.
    pub fn add(&mut self, line: Line, value: T) -> usize
        requires { find self.old line ≡ None }
        ensures front { let list = (line, placed value result) ∷ list_of self.old line in
            self.new ≡ with_list self.old line (take self.old.ways list) }
        ensures kept { ArePlacedSets self.new }
    {
        let set = self.set_of(line);
        let ways = self.ways as usize;
        self.rows[set].add(line, value, ways)
    }

    /// The last line of a line's set, where the set holds as many lines as there are ways.
    pub fn last(&self, line: Line) -> Option<(Line, Placed<T>)>
        ensures last { result ≡ slice_get (list_of self.now line) (self.now.ways - 1) }
        ensures kept { ArePlacedSets self.now }
    {
        let set = self.set_of(line);
        self.rows[set].at(self.ways as usize - 1)
    }

    /// Whether a line's set holds as many lines as there are ways.
    pub fn is_full(&self, line: Line) -> bool
        ensures { IsTrue result ↔ (length (list_of self.now line) ≡ self.now.ways) }
    {
        let set = self.set_of(line);
        self.rows[set].len() == self.ways as usize
    }

    /// Takes every line out.
    pub fn clear(&mut self)
        ensures empty { let lists = replicate (length self.old.lists) [] in
            self.new ≡ record { ways = self.old.ways; lists = lists } }
        ensures kept { ArePlacedSets self.new }
    {
        for row in self.rows.iter_mut() {
            row.clear();
        }
    }

    /// The line at this place of a set's list. None exactly where the list is not longer than `way`.
    pub fn at(&self, set: u32, way: u32) -> Option<(Line, Placed<T>)>
        requires { set < length self.now.lists }
        ensures { result ≡ slice_get (slice_index_or self.now.lists set []) way }
    {
        self.rows[set as usize].at(way as usize)
    }
}
