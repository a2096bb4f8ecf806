/// Why bytes are no configuration: the first of these that stands.
#[derive(Clone, Copy, Debug, PartialEq, Eq)]
pub enum ConfigFault {
    /// The bytes are no JSON text.
    NotJson,
    /// The value is no object.
    NotObject,
    /// Some key is none of the sixteen.
    UnknownKey,
    /// The value of the key of this number is no whole number from 0 to 2^64 - 1.
    NotNumber(u8),
    /// The number of the key of this number is out of the key's range.
    OutOfRange(u8, u64),
    /// Memory of this base and this many bytes ends past 2^32, or is no whole number of lines.
    BadMemory(u32, u32),
    /// There was too little memory to read the text.
    OutOfMemory,
}
