//! Addresses, lines, actors and digits: the words that every other crate uses.
#![tactic(auto)]

mod actor;
mod bytes;
mod line;
mod marks;
mod mesi;
mod text;

pub use actor::Actor;
pub use bytes::{read_value, write_value};
pub use line::{Line, line_of, offset_of};
pub use marks::put_marked;
pub use mesi::Mesi;
pub use text::{
    are_digits, digit_of, is_decimal, is_numeral, push_bytes, push_decimal, word_digits,
};
