// The keys of a configuration.
ghost use Rattle.std.specs.Prelude.{◌≡◌};
ghost use Rattle.chip_config.specs.Keys.{keys, keys_from, within};

/// The numbers that a key takes.
#[derive(Clone, Copy)]
pub enum Range {
    /// From the first to the second.
    Between(u64, u64),
    /// A power of two up to this one.
    PowerUpTo(u64),
    /// A multiple of 64 from the first to the second.
    MultipleOf64(u64, u64),
    /// The bytes of a line: 32, 64 or 128.
    LineSize,
}

/// A key's name, its number where it is missing, and its range.
#[derive(Clone, Copy)]
pub struct Entry {
    pub name: &'static str,
    pub default: u64,
    pub range: Range,
}

/// The keys in the order of their numbers, which count from 1.
static KEYS: [Entry; 16] = [
    Entry {
        name: "harts",
        default: 1,
        range: Range::Between(1, 8),
    },
    Entry {
        name: "cores",
        default: 1,
        range: Range::Between(1, 4),
    },
    Entry {
        name: "mem_base",
        default: 0,
        range: Range::MultipleOf64(0, 4_294_967_232),
    },
    Entry {
        name: "mem_bytes",
        default: 16_777_216,
        range: Range::MultipleOf64(4096, 67_108_864),
    },
    Entry {
        name: "hart_sets",
        default: 64,
        range: Range::PowerUpTo(256),
    },
    Entry {
        name: "hart_ways",
        default: 8,
        range: Range::Between(1, 8),
    },
    Entry {
        name: "core_sets",
        default: 64,
        range: Range::PowerUpTo(64),
    },
    Entry {
        name: "core_ways",
        default: 4,
        range: Range::Between(1, 8),
    },
    Entry {
        name: "sig_bits",
        default: 9,
        range: Range::Between(1, 10),
    },
    Entry {
        name: "read_limit",
        default: 256,
        range: Range::Between(1, 4096),
    },
    Entry {
        name: "write_limit",
        default: 256,
        range: Range::Between(1, 4096),
    },
    Entry {
        name: "portion_max",
        default: 4096,
        range: Range::Between(1, 65_536),
    },
    Entry {
        name: "out_max",
        default: 64,
        range: Range::Between(1, 64),
    },
    Entry {
        name: "retries",
        default: 3,
        range: Range::Between(0, 255),
    },
    Entry {
        name: "trace_last",
        default: 64,
        range: Range::Between(1, 65_536),
    },
    Entry {
        name: "line_bytes",
        default: 64,
        range: Range::LineSize,
    },
];

impl Range {
    /// Whether a number is in the range.
    pub(crate) fn has(self, number: u64) -> bool
        ensures { result ≡ within self number }
    {
        match self {
            Range::Between(low, high) => low <= number && number <= high,
            Range::PowerUpTo(high) => number.is_power_of_two() && number <= high,
            Range::MultipleOf64(low, high) => number % 64 == 0 && low <= number && number <= high,
            Range::LineSize => number == 32 || number == 64 || number == 128,
        }
    }
}

/// The sixteen keys in the order of their numbers, which count from 1.
pub(crate) fn all_keys() -> &'static [Entry]
    ensures { keys_from 1 result.now ≡ keys }
{
    &KEYS
}
