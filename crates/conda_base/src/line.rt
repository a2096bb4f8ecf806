// Lines and the places of addresses in them.
ghost use Rattle.std.specs.Prelude.{◌≡◌, ◌<◌};
ghost use Rattle.conda_base.specs.Lines.{IsLineSize, line_number, line_offset};

/// A line, by its number: the address of its first byte divided by the line size.
#[derive(Clone, Copy, Debug, PartialEq, Eq)]
pub struct Line(pub u32);

/// The line that an address lies in. A line has 32, 64 or 128 bytes.
pub fn line_of(addr: u32, line_bytes: u32) -> Line
    requires { IsLineSize line_bytes }
    ensures { result.0 ≡ line_number addr line_bytes }
{
    // Each size stands alone, so that none of them costs a division.
    let line = match line_bytes {
        32 => addr / 32,
        64 => addr / 64,
        _ => addr / 128,
    };
    Line(line)
}

/// The place of an address in its line, in bytes.
pub fn offset_of(addr: u32, line_bytes: u32) -> usize
    requires { IsLineSize line_bytes }
    ensures place { result ≡ line_offset addr line_bytes }
    ensures within { result < line_bytes }
{
    let place = match line_bytes {
        32 => addr % 32,
        64 => addr % 64,
        _ => addr % 128,
    };
    place as usize
}
