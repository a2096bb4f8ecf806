//! Streams between a host and a command's loop: a source that is read, and sinks that texts are put
//! into.
#![tactic(auto)]

mod fault;
mod files;
mod laws;
mod sink;
mod sink_files;
mod sinks;
mod streams;
mod whole;

pub use fault::Fault;
pub use files::Files;
pub use laws::{fronts_are_held, steps_keep_to_uses, whole_texts_are_held};
pub use sink::Sink;
pub use sink_files::SinkFiles;
pub use sinks::Sinks;
pub use streams::{MOST_PUT, Streams};
pub use whole::put_all;
