//! ELF executables for RV32 as they are loaded: the bytes of memory, the entry and the ranges that instructions may be
//! fetched from, or the first reason why a file is refused.
#![tactic(auto)]

mod fault;
mod fields;
mod header;
mod image;
mod judging;
mod laws;
mod memory;
mod segment;

pub use fault::ImageFault;
pub use image::{Image, load};
pub use laws::{entry_can_be_fetched, plain_image_is_loaded, segments_are_in_memory};
