// Lines in sets, each with a value.
ghost use Rattle.std.specs.Prelude.{
  ◌≡◌,
  ◌<◌,
  ◌≤◌,
  ◌↔◌,
  [],
  ◌∷◌,
  length,
  take,
  slice_get,
  slice_index_or,
  IfOk,
  IsTrue,
  None,
  is_some,
  replicate,
};
ghost use Rattle.set_assoc.specs.Entries.{without, replaced, touched};
ghost use Rattle.set_assoc.specs.SetLists.{IsSets, find, list_of, with_list};

use crate::placed_sets::PlacedSets;
use conda_base::Line;
use std::alloc::{AllocError, Global};
use std::marker::Model;

/// Lines in sets, each with a value. A line's set is its number modulo the number of sets.
///
/// A set is a list with its most recent line first, and it has at most as many lines as there are ways.
#[derive(Drop)]
pub struct Sets<T: Copy> {
    lines: PlacedSets<T>,
}

impl<T: Copy> Model for Sets<T> {
    ghost use Rattle.set_assoc.specs.SetLists.{SetLists};
    ghost use Rattle.set_assoc.specs.Seen.{without_places};

    ghost Value = { SetLists T };

    ghost view = { λ s. without_places s.lines };
}

impl<T: Copy> Sets<T> {
    /// Empty sets with 1 to 8 ways. All their memory is taken here.
    pub fn new(alloc: Global, sets: u32, ways: u32) -> Result<Sets<T>, AllocError>
        requires sets { 0 < sets }
        requires some_ways { 0 < ways }
        requires few_ways { ways ≤ 8 }
        ensures empty { IfOk result (λ s. s ≡ record { ways = ways; lists = replicate sets [] }) }
        ensures kept { IfOk result (λ s. IsSets s) }
    {
        let lines = PlacedSets::new(alloc, sets, ways)?;
        Ok(Sets { lines })
    }

    /// The value of a line. The order stays.
    pub fn peek(&self, line: Line) -> Option<T>
        ensures value { result ≡ find self.now line }
        ensures sets { IsSets self.now }
    {
        match self.lines.find(line) {
            Some(kept) => Some(kept.value),
            None => None,
        }
    }

    /// Gives a line that is there a new value, and hands out the old one. The order stays.
    pub fn replace(&mut self, line: Line, value: T) -> Option<T>
        ensures old { result ≡ find self.old line }
        ensures written { let list = replaced line value (list_of self.old line) in
            self.new ≡ with_list self.old line list }
        ensures kept { IsSets self.new }
    {
        match self.lines.find(line) {
            Some(kept) => {
                self.lines.replace(line, kept.place, value);
                Some(kept.value)
            }
            None => None,
        }
    }

    /// Brings a line to the front of its set. False exactly where it isn't there.
    pub fn touch(&mut self, line: Line) -> bool
        ensures found { result ≡ is_some (find self.old line) }
        ensures front { self.new ≡ with_list self.old line (touched line (list_of self.old line)) }
        ensures kept { IsSets self.new }
    {
        match self.lines.find(line) {
            Some(kept) => {
                self.lines.touch(line, kept.place);
                true
            }
            None => false,
        }
    }

    /// Puts a line that isn't there in front of its set. The last line leaves where the set was full.
    pub fn add(&mut self, line: Line, value: T) -> Option<(Line, T)>
        requires { find self.old line ≡ None }
        ensures last { result ≡ slice_get ((line, value) ∷ list_of self.old line) self.old.ways }
        ensures front { let list = (line, value) ∷ list_of self.old line in
            self.new ≡ with_list self.old line (take self.old.ways list) }
        ensures kept { IsSets self.new }
    {
        let last = self.lines.last(line);
        self.lines.add(line, value);
        last.map(|(line, kept)| (line, kept.value))
    }

    /// Takes a line out, and hands out its value.
    pub fn remove(&mut self, line: Line) -> Option<T>
        ensures old { result ≡ find self.old line }
        ensures removed { let list = without line (list_of self.old line) in
            self.new ≡ with_list self.old line list }
        ensures kept { IsSets self.new }
    {
        match self.lines.find(line) {
            Some(kept) => {
                self.lines.remove(line, kept.place);
                Some(kept.value)
            }
            None => None,
        }
    }

    /// Whether a line's set holds as many lines as there are ways.
    pub fn is_full(&self, line: Line) -> bool
        ensures { IsTrue result ↔ (length (list_of self.now line) ≡ self.now.ways) }
    {
        self.lines.is_full(line)
    }

    /// Takes every line out.
    pub fn clear(&mut self)
        ensures empty { let lists = replicate (length self.old.lists) [] in
            self.new ≡ record { ways = self.old.ways; lists = lists } }
        ensures kept { IsSets self.new }
    {
        self.lines.clear();
    }

    /// The line at this place of a set. None exactly where the set's list is not longer than `way`.
    pub fn at(&self, set: u32, way: u32) -> Option<(Line, T)>
        requires { set < length self.now.lists }
        ensures { result ≡ slice_get (slice_index_or self.now.lists set []) way }
    {
        self.lines
            .at(set, way)
            .map(|(line, kept)| (line, kept.value))
    }
}
