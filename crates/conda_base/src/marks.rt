// Marked bytes of a line.
ghost use Rattle.std.specs.Prelude.{ℕ, ◌≡◌, ◌<◌, ◌≤◌, length};
ghost use Rattle.conda_base.specs.Marks.{IsNextMark, IsRunCopied, mixed};

// The bits of a mask.
const MASK_BITS: usize = 128;

/// Takes the marked bytes from another copy of a line; byte k is marked where bit k of the mask is 1.
///
/// Bytes whose marks stand side by side are copied at once.
pub fn put_marked(bytes: &mut [u8], mask: u128, from: &[u8])
    requires room { length bytes.old ≤ 128 }
    requires same { length from.now ≡ length bytes.old }
    ensures { bytes.new ≡ mixed mask from.now bytes.old }
{
    let len = bytes.len();
    let mut place = 0;
    while place < len {
        let start = next_mark(mask, place).min(len);
        let end = next_mark(!mask, start).min(len);
        copy_run(bytes, from, start, end);
        place = end;
    }
}

// The first place from this one on whose bit is 1, or 128.
fn next_mark(mask: u128, place: usize) -> usize
    requires { place ≤ 128 }
    ensures { IsNextMark mask place result }
{
    if place == MASK_BITS {
        return MASK_BITS;
    }
    let rest = mask >> place;
    if rest == 0 {
        return MASK_BITS;
    }
    place + rest.trailing_zeros() as usize
}

// Copies the bytes of a run from another copy of the line.
fn copy_run(bytes: &mut [u8], from: &[u8], start: usize, end: usize)
    requires same { length from.now ≡ length bytes.old }
    requires order { start ≤ end }
    requires within { end ≤ length bytes.old }
    ensures { IsRunCopied start end from.now bytes.old bytes.new }
{
    bytes[start..end].copy_from_slice(&from[start..end]);
}
