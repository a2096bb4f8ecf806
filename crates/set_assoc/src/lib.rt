//! Lines in sets, each set a list with its most recent line first.
#![tactic(auto)]

mod placed;
mod placed_sets;
mod row;
mod sets;

pub use placed::Placed;
pub use placed_sets::PlacedSets;
pub use sets::Sets;
