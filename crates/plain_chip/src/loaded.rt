// Lines of the image, as it was loaded.
ghost use Rattle.std.specs.Prelude.{◌≡◌, ◌+◌, ◌*◌, ◌-◌, ◌≤◌, length, take, drop, replicate, ◌++◌};
ghost use Rattle.conda_base.specs.Bytes.{bytes_of_line, handed_out};
ghost use Rattle.conda_base.specs.Lines.{IsLineOf, IsLineSize, IsWhole};
ghost use Rattle.rv32_hart.specs.Code.{IsCode};

use conda_base::Line;
use rv32_hart::Code;

// Where a line begins in the image's bytes.
fn place_of(code: &Code, line_bytes: u32, l: Line) -> usize
    requires size { IsLineSize line_bytes }
    requires base { IsWhole code.now.base line_bytes }
    requires bytes { IsWhole (length code.now.bytes) line_bytes }
    requires line { IsLineOf code.now.base (length code.now.bytes) line_bytes l.0 }
    ensures place { result ≡ l.0 * line_bytes - code.now.base }
    ensures from { code.now.base ≤ l.0 * line_bytes }
    ensures within { result + line_bytes ≤ length code.now.bytes }
{
    let base = code.base();
    (l.0 * line_bytes - base) as usize
}

// Hands out the bytes of a line as they were loaded, and zeros after them.
pub fn hand_out_loaded(code: &Code, line_bytes: u32, l: Line, out: &mut [u8; 128])
    requires size { IsLineSize line_bytes }
    requires base { IsWhole code.now.base line_bytes }
    requires bytes { IsWhole (length code.now.bytes) line_bytes }
    requires line { IsLineOf code.now.base (length code.now.bytes) line_bytes l.0 }
    ensures { out.new ≡ handed_out (bytes_of_line code.now.base line_bytes code.now.bytes l.0) }
{
    hand_out(code.bytes(), place_of(code, line_bytes, l), line_bytes, out);
}

// Hands out the bytes of a line that begins at a place, and zeros after them.
fn hand_out(bytes: &[u8], place: usize, line_bytes: u32, out: &mut [u8; 128])
    requires size { line_bytes ≤ 128 }
    requires within { place + line_bytes ≤ length bytes.now }
    ensures { out.new
        ≡ take line_bytes (drop place bytes.now) ++ replicate (128 - line_bytes) 0 }
{
    let size = line_bytes as usize;
    out[..size].copy_from_slice(&bytes[place..place + size]);
    out[size..].fill(0);
}
