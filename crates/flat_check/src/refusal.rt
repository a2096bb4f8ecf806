/// What is found wrong at an entry of an order.
#[derive(Clone, Copy, Debug, PartialEq, Eq)]
pub enum Refusal {
    /// The end of a try that isn't open, or has another number of acts.
    Unsound,
    /// A portion that commits loads this address from outside, and others stored to it since the try was opened; none
    /// is lower.
    Overwritten(u32),
}

/// What is wrong with an order. Lines are counted from 1, and entries from 0.
#[derive(Clone, Copy, Debug, PartialEq, Eq)]
pub enum OrderFault {
    /// A line that isn't an entry's text (1), names a hart or core that isn't there (2), or breaks off another try than
    /// its core has open (3).
    Bad { line: u64, why: u8 },
    /// More entries than an order may have.
    TooMany,
    /// A commit loads this address from outside, and others stored to it since its opening; none is lower.
    Overwritten { entry: u64, address: u32 },
}
