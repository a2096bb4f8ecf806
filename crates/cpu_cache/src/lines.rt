// The lines that a cache holds, and the slots of their bytes.
ghost use Rattle.std.specs.Prelude.{◌≡◌, ◌<◌, ◌≤◌, ◌*◌, ◌∷◌, IsSome, Some, length};
ghost use Rattle.set_assoc.specs.Entries.{without};
ghost use Rattle.set_assoc.specs.Places.{ArePlacedSets, place_of_line, placed};
ghost use Rattle.set_assoc.specs.SetLists.{list_of, with_list, find};
ghost use Rattle.cpu_cache.specs.Slots.{slot_of};

use conda_base::{Line, Mesi};
use set_assoc::{Placed, PlacedSets};

// The slots of a set, one for each place.
pub const PLACES: usize = 8;

/// What is kept of a held line.
pub fn held_at(lines: &PlacedSets<Mesi>, l: Line) -> Placed<Mesi>
    requires { IsSome (find lines.now l) }
    ensures found { find lines.now l ≡ Some result }
    ensures kept { ArePlacedSets lines.now }
{
    lines.find(l).unwrap()
}

/// The slot of the line at a place.
pub fn slot_at(lines: &PlacedSets<Mesi>, l: Line, place: usize) -> usize
    requires few { length lines.now.lists ≤ 256 }
    requires place { place < 8 }
    ensures slot { result ≡ slot_of (length lines.now.lists) l place }
    ensures within { result < length lines.now.lists * 8 }
{
    lines.set_of(l) * PLACES + place
}

/// Brings the line at a place to the front, in a state.
pub fn front_in(lines: &mut PlacedSets<Mesi>, l: Line, place: usize, state: Mesi)
    requires { place_of_line l (list_of lines.old l) ≡ Some place }
    ensures front { let rest = without l (list_of lines.old l) in
        lines.new ≡ with_list lines.old l ((l, placed state place) ∷ rest) }
    ensures kept { ArePlacedSets lines.new }
{
    lines.replace(l, place, state);
    lines.touch(l, place);
}
