// One set: lines with their values at fixed places, each place with an age.
ghost use Rattle.std.specs.Prelude.{
  ◌≡◌,
  ◌≢◌,
  ◌<◌,
  ◌≤◌,
  ◌∷◌,
  ◌++◌,
  ◌==◌,
  [],
  ℕ,
  Some,
  None,
  length,
  position,
  take,
  slice_get,
  slice_set,
  IfOk,
  MatchOption,
};
ghost use Rattle.std.specs.Vec.{vec_capacity};
ghost use Rattle.set_assoc.specs.Entries.{lookup, without, replaced, touched};
ghost use Rattle.set_assoc.specs.Ages.{IsLowered, IsNowhere, IsPlaceOf, IsRaised, place_of_age};
ghost use Rattle.set_assoc.specs.Places.{ArePlaces, place_of_line, placed};

use crate::placed::Placed;
use conda_base::Line;
use std::alloc::{AllocError, Global};
use std::marker::Model;

// The most lines that a set may hold.
const MOST_WAYS: usize = 8;

/// One set. Its room for the most lines is taken when it is made.
///
/// A line keeps its place as long as it is there. Of n places the ages are 0 to n - 1, each once, and the lines are
/// those of the ages below `used`: the most recent has age 0.
#[derive(Drop)]
pub struct Row<T: Copy> {
    entries: Vec<(Line, T)>,
    ages: [u8; 8],
    used: usize,
}

impl<T: Copy> Model for Row<T> {
    ghost use Rattle.std.specs.Prelude.{List, ◌≤◌};
    ghost use Rattle.std.specs.Vec.{vec_capacity};
    ghost use Rattle.conda_base.specs.declared.Line.{Line as Number};
    ghost use Rattle.set_assoc.specs.Ages.{IsAgedRow, lines_by_age};
    ghost use Rattle.set_assoc.specs.declared.placed.Placed.{Placed};

    ghost Value = { List (Number × Placed T) };

    ghost view = { λ row. lines_by_age row.entries.items row.ages row.used };

    ghost invariant = { λ row. IsAgedRow row.entries.items row.ages row.used
        × (8 ≤ vec_capacity row.entries) };
}

impl<T: Copy> Row<T> {
    pub fn new(alloc: Global) -> Result<Row<T>, AllocError>
        ensures { IfOk result (λ row. row ≡ []) }
    {
        let entries = Vec::with_capacity(alloc, MOST_WAYS)?;
        Ok(Row {
            entries,
            ages: [0; 8],
            used: 0,
        })
    }

    pub fn len(&self) -> usize
        ensures { result ≡ length self.now }
    {
        self.used
    }

    pub fn at(&self, way: usize) -> Option<(Line, Placed<T>)>
        ensures { result ≡ slice_get self.now way }
    {
        if way < self.used {
            let place = place_of_age(&self.ages, way as u8);
            let (line, value) = self.entries[place];
            Some((line, Placed { value, place }))
        } else {
            None
        }
    }

    pub fn clear(&mut self)
        ensures { self.new ≡ [] }
    {
        self.used = 0;
    }

    /// The value of a line, and its place.
    pub fn find(&self, line: Line) -> Option<Placed<T>>
        ensures { result ≡ lookup line self.now }
    {
        match find_place(&self.entries, &self.ages, self.used, line) {
            Some(place) => {
                let value = self.entries[place].1;
                Some(Placed { value, place })
            }
            None => None,
        }
    }

    pub fn replace(&mut self, line: Line, place: usize, value: T)
        requires { place_of_line line self.old ≡ Some place }
        ensures written { self.new ≡ replaced line (placed value place) self.old }
        ensures places { ArePlaces self.new }
        ensures len { length self.new ≡ length self.old }
    {
        self.entries[place] = (line, value);
    }

    pub fn remove(&mut self, line: Line, place: usize)
        requires { place_of_line line self.old ≡ Some place }
        ensures removed { self.new ≡ without line self.old }
        ensures places { ArePlaces self.new }
        ensures len { length self.new ≤ length self.old }
    {
        let _ = line;
        lower(&mut self.ages, place, self.entries.len());
        self.used -= 1;
    }

    pub fn touch(&mut self, line: Line, place: usize)
        requires { place_of_line line self.old ≡ Some place }
        ensures front { self.new ≡ touched line self.old }
        ensures places { ArePlaces self.new }
        ensures len { length self.new ≡ length self.old }
    {
        let _ = line;
        if self.ages[place] != 0 {
            raise(&mut self.ages, place);
        }
    }

    /// Puts a line in front, and answers its place. The last line leaves where there are as many as `ways`.
    pub fn add(&mut self, line: Line, value: T, ways: usize) -> usize
        requires some { 0 < ways }
        requires few { ways ≤ 8 }
        requires fits { length self.old ≤ ways }
        requires absent { lookup line self.old ≡ None }
        ensures front { self.new ≡ take ways ((line, placed value result) ∷ self.old) }
        ensures places { ArePlaces self.new }
        ensures len { length self.new ≤ ways }
    {
        let age = if self.used == ways {
            ways - 1
        } else {
            self.used
        };
        open_place(&mut self.entries, &mut self.ages, age, (line, value));
        let place = place_of_age(&self.ages, age as u8);
        self.entries[place] = (line, value);
        raise(&mut self.ages, place);
        self.used = age + 1;
        place
    }
}

// The place of a line among the places in use.
fn find_place<T: Copy>(
    entries: &[(Line, T)],
    ages: &[u8; 8],
    used: usize,
    line: Line,
) -> Option<usize>
    requires { length entries.now ≤ 8 }
    ensures { MatchOption result
        (IsNowhere entries.now ages.now used line) (IsPlaceOf entries.now ages.now used line) }
{
    for place in 0..entries.len() {
        if entries[place].0 == line && (ages[place] as usize) < used {
            return Some(place);
        }
    }
    None
}

// The place of an age.
fn place_of_age(ages: &[u8; 8], age: u8) -> usize
    ensures { result ≡ place_of_age ages.now age }
{
    match first_of_age(ages, age) {
        Some(place) => place,
        None => 8,
    }
}

fn first_of_age(ages: &[u8; 8], age: u8) -> Option<usize>
    ensures { result ≡ position (λ a. a == age) ages.now }
{
    ages.iter().position(|a| *a == age)
}

// Makes a place the most recent.
fn raise(ages: &mut [u8; 8], place: usize)
    requires { place < 8 }
    ensures { IsRaised ages.old place ages.new }
{
    let was = ages[place];
    for age in ages.iter_mut() {
        if *age < was {
            *age += 1;
        }
    }
    ages[place] = 0;
}

// Makes a place the oldest of `count`.
fn lower(ages: &mut [u8; 8], place: usize, count: usize)
    requires place { place < count }
    requires count { count ≤ 8 }
    ensures { IsLowered ages.old place count ages.new }
{
    let was = ages[place];
    for age in ages.iter_mut() {
        if *age > was {
            *age -= 1;
        }
    }
    ages[place] = (count - 1) as u8;
}

// Makes another place, the oldest, where there is none of this age.
fn open_place<T: Copy>(
    entries: &mut Vec<(Line, T)>,
    ages: &mut [u8; 8],
    age: usize,
    entry: (Line, T),
)
    requires next { age ≤ length entries.old.items }
    requires few { age < 8 }
    requires room { 8 ≤ vec_capacity entries.old }
    ensures kept { age < length entries.old.items →
        (entries.new.items ≡ entries.old.items) × (ages.new ≡ ages.old) }
    ensures more { age ≡ length entries.old.items →
        (entries.new.items ≡ entries.old.items ++ entry ∷ [])
        × (ages.new ≡ slice_set ages.old age age) }
    ensures capacity { vec_capacity entries.new ≡ vec_capacity entries.old }
{
    if age == entries.len() {
        entries.push_reserved(entry);
        ages[age] = age as u8;
    }
}
