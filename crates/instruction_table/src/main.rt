//! Prints each form of instruction as a word and as the text that an assembler takes for it.
#![tactic(auto)]

mod rows;
mod text;

use rows::show_all;
use std::io;

fn main(rt: HostRuntime) -> io::Result<()> {
    show_all(&rt)
}
