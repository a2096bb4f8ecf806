// What bounds a source and its program.

/// The most words of a program.
pub const MOST_WORDS: u64 = 4_194_304;

/// The most characters of a name.
pub const LONGEST_NAME: usize = 32;

/// The address of a program that names none.
pub const DEFAULT_ADDRESS: u32 = 65_536;
