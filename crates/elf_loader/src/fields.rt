// Numbers in a file.
ghost use Rattle.std.specs.Prelude.{◌≡◌, ◌+◌, ◌≤◌, length};
ghost use Rattle.elf_loader.specs.Header.{half_field, word_field};

use byteorder::{ByteOrder, LittleEndian};

/// The number of 16 bits at an offset.
pub fn read_half(file: &[u8], offset: usize) -> u16
    requires { offset + 2 ≤ length file.now }
    ensures { result ≡ half_field file.now offset }
{
    LittleEndian::read_u16(&file[offset..])
}

/// The number of 32 bits at an offset.
pub fn read_word(file: &[u8], offset: usize) -> u32
    requires { offset + 4 ≤ length file.now }
    ensures { result ≡ word_field file.now offset }
{
    LittleEndian::read_u32(&file[offset..])
}
