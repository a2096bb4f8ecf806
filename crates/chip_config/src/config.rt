// The configuration of a chip.
ghost use Rattle.std.specs.Prelude.{◌≡◌, ◌+◌, ◌%◌, ◌^◌, ◌≤◌, IsTrue};
ghost use Rattle.std.specs.Int.{is_power_of_two};
ghost use Rattle.conda_base.specs.Lines.{IsLineSize};

/// A chip's configuration. Every number is in its range, and memory is a whole number of lines below 2^32.
#[derive(Clone, Copy, Debug, PartialEq, Eq)]
pub struct Config {
    /// How many harts there are.
    pub harts: u32,
    /// How many near-data cores there are.
    pub cores: u32,
    /// The address of memory's first byte.
    pub mem_base: u32,
    /// How many bytes memory has.
    pub mem_bytes: u32,
    /// How many sets a hart's cache has.
    pub hart_sets: u32,
    /// How many lines a set of a hart's cache holds.
    pub hart_ways: u32,
    /// How many sets a core's cache has.
    pub core_sets: u32,
    /// How many lines a set of a core's cache holds.
    pub core_ways: u32,
    /// A segment of a signature has 2 to the power of this many bits.
    pub sig_bits: u32,
    /// The most fill of the signature of lines that a try reads.
    pub read_limit: u32,
    /// The most fill of the signature of lines that a try stores to.
    pub write_limit: u32,
    /// How many acts a try may have.
    pub portion_max: u32,
    /// How many bytes of output a try may hold.
    pub out_max: u32,
    /// How many tries in a row may be taken back before one runs under the lock.
    pub retries: u32,
    /// How many of the last notes are kept.
    pub trace_last: u32,
    /// How many bytes a line has.
    pub line_bytes: u32,
    pub ghost some_harts: { (1 ≤ harts) × (harts ≤ 8) },
    pub ghost some_cores: { (1 ≤ cores) × (cores ≤ 4) },
    pub ghost even_base: { (mem_base % 64 ≡ 0) × (mem_base ≤ 4294967232) },
    pub ghost even_bytes: { mem_bytes % 64 ≡ 0 },
    pub ghost some_bytes: { (4096 ≤ mem_bytes) × (mem_bytes ≤ 67108864) },
    pub ghost memory_ends: { mem_base + mem_bytes ≤ 2 ^ 32 },
    pub ghost whole_base: { mem_base % line_bytes ≡ 0 },
    pub ghost whole_bytes: { mem_bytes % line_bytes ≡ 0 },
    pub ghost some_hart_sets: { IsTrue (is_power_of_two hart_sets)
        × (1 ≤ hart_sets) × (hart_sets ≤ 256) },
    pub ghost some_hart_ways: { (1 ≤ hart_ways) × (hart_ways ≤ 8) },
    pub ghost some_core_sets: { IsTrue (is_power_of_two core_sets)
        × (1 ≤ core_sets) × (core_sets ≤ 64) },
    pub ghost some_core_ways: { (1 ≤ core_ways) × (core_ways ≤ 8) },
    pub ghost some_sig_bits: { (1 ≤ sig_bits) × (sig_bits ≤ 10) },
    pub ghost some_reads: { (1 ≤ read_limit) × (read_limit ≤ 4096) },
    pub ghost some_writes: { (1 ≤ write_limit) × (write_limit ≤ 4096) },
    pub ghost some_acts: { (1 ≤ portion_max) × (portion_max ≤ 65536) },
    pub ghost some_output: { (1 ≤ out_max) × (out_max ≤ 64) },
    pub ghost few_retries: { retries ≤ 255 },
    pub ghost some_notes: { (1 ≤ trace_last) × (trace_last ≤ 65536) },
    pub ghost line_size: { IsLineSize line_bytes },
}

impl Config {
    ghost use Rattle.chip_config.specs.Settings.{plain_settings, settings};

    /// The configuration in which every key is missing.
    pub fn plain() -> Config
        ensures { settings result ≡ plain_settings }
    {
        Config {
            harts: 1,
            cores: 1,
            mem_base: 0,
            mem_bytes: 16_777_216,
            hart_sets: 64,
            hart_ways: 8,
            core_sets: 64,
            core_ways: 4,
            sig_bits: 9,
            read_limit: 256,
            write_limit: 256,
            portion_max: 4096,
            out_max: 64,
            retries: 3,
            trace_last: 64,
            line_bytes: 64,
        }
    }
}
