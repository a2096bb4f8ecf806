// The places of a line's bits in the four segments.
ghost use Rattle.std.specs.Prelude.{◌≡◌, ◌^◌, ◌<◌, ◌≤◌};
ghost use Rattle.bloom_sig.specs.Signatures.{line_bit};
ghost use Rattle.bloom_sig.specs.Places.{AreWithin, places_of};

use conda_base::Line;

// The hash constant of each segment.
const FIRST: u32 = 0x9E37_79B1;

const SECOND: u32 = 0x85EB_CA6B;

const THIRD: u32 = 0xC2B2_AE35;

const FOURTH: u32 = 0x27D4_EB2F;

/// Where the four bits of a line stand, one in each segment.
#[derive(Clone, Copy, Debug, PartialEq, Eq)]
pub struct Places {
    pub first: usize,
    pub second: usize,
    pub third: usize,
    pub fourth: usize,
}

impl Places {
    /// The places of a line's bits in segments of 2 ^ `bits` bits.
    pub fn of(bits: u32, line: Line) -> Places
        requires some { 0 < bits }
        requires few { bits ≤ 10 }
        ensures places { result ≡ places_of bits line }
        ensures within { AreWithin bits result }
    {
        Places {
            first: bit_of(bits, FIRST, line),
            second: bit_of(bits, SECOND, line),
            third: bit_of(bits, THIRD, line),
            fourth: bit_of(bits, FOURTH, line),
        }
    }
}

// The bit of a line in the segment with this constant.
fn bit_of(bits: u32, constant: u32, line: Line) -> usize
    requires some { 0 < bits }
    requires few { bits ≤ 10 }
    ensures place { result ≡ line_bit bits constant line }
    ensures within { result < 2 ^ bits }
{
    (line.0.wrapping_mul(constant) >> (32 - bits)) as usize
}

#[cfg(test)]
mod tests {
    use super::*;

    #[test]
    fn lines_hash_to_their_bits(rt: HostRuntime) {
        assert_eq!(rt; Places::of(9, Line(1)), places(316, 267, 389, 79));
        assert_eq!(rt; Places::of(9, Line(9)), places(287, 362, 432, 204));
        assert_eq!(rt; Places::of(1, Line(1)), places(1, 1, 1, 0));
        assert_eq!(rt; Places::of(1, Line(9)), places(1, 1, 1, 0));
    }

    fn places(first: usize, second: usize, third: usize, fourth: usize) -> Places {
        Places {
            first,
            second,
            third,
            fourth,
        }
    }
}
