// Numbers in lists of bytes.
ghost use Rattle.std.specs.Prelude.{◌≡◌, ◌+◌, ◌≤◌, length};
ghost use Rattle.conda_base.specs.Lines.{IsAccessSize};
ghost use Rattle.conda_base.specs.Bytes.{value_at, stored};

/// The little-endian number of 1, 2 or 4 bytes at a place.
pub fn read_value(bytes: &[u8], place: usize, size: u8) -> u32
    requires size { IsAccessSize size }
    requires within { place + size ≤ length bytes.now }
    ensures { result ≡ value_at bytes.now place size }
{
    match size {
        1 => u32::from(bytes[place]),
        2 => u32::from(u16::from_le_bytes([bytes[place], bytes[place + 1]])),
        _ => u32::from_le_bytes([
            bytes[place],
            bytes[place + 1],
            bytes[place + 2],
            bytes[place + 3],
        ]),
    }
}

/// Writes the low 1, 2 or 4 bytes of a number at a place, the lowest first.
pub fn write_value(bytes: &mut [u8], place: usize, size: u8, value: u32)
    requires size { IsAccessSize size }
    requires within { place + size ≤ length bytes.old }
    ensures { bytes.new ≡ stored bytes.old place size value }
{
    let size = size as usize;
    bytes[place..place + size].copy_from_slice(&value.to_le_bytes()[..size]);
}
