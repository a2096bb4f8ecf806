// How many bytes of its sources a command reads.

/// The most bytes of a configuration.
pub const CONFIG_LIMIT: usize = 65_536;

/// The most bytes of a program's text.
pub const SOURCE_LIMIT: usize = 134_217_728;

/// The most bytes of an image.
pub const IMAGE_LIMIT: usize = 33_554_432;
