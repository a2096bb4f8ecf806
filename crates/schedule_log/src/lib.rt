//! Schedules as they are read, and the order of a run as it is written.
#![tactic(auto)]

mod count;
mod entry;
mod entry_reading;
mod fed;
mod laws;
mod limits;
mod line;
mod reader;

pub use entry::{Entry, entry_text};
pub use entry_reading::read_entry;
pub use fed::{Fed, Last};
pub use laws::{actors_are_on_chip, fine_runs_all, one_text_one_entry, pieces_join};
pub use limits::{MOST_BYTES, MOST_EVENTS};
pub use reader::Reader;
