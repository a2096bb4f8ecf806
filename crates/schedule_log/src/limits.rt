// How much of a schedule is judged.

/// The most events of a schedule.
pub const MOST_EVENTS: u64 = 67_108_864;

/// The most bytes of a schedule.
pub const MOST_BYTES: usize = 1_073_741_824;
