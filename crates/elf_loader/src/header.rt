// The header of an ELF file.
ghost use Rattle.std.specs.Prelude.{◌≡◌, ◌+◌, ◌≤◌, length};

use crate::fields::{read_half, read_word};

/// The fields of an ELF header that are looked at, with the names of the System V gABI.
#[derive(Clone, Copy, Debug, PartialEq, Eq)]
pub struct Header {
    pub ei_magic: [u8; 4],
    pub ei_class: u8,
    pub ei_data: u8,
    pub ei_version: u8,
    pub e_type: u16,
    pub e_machine: u16,
    pub e_version: u32,
    pub e_entry: u32,
    pub e_phoff: u32,
    pub e_flags: u32,
    pub e_ehsize: u16,
    pub e_phentsize: u16,
    pub e_phnum: u16,
}

impl Header {
    ghost use Rattle.elf_loader.specs.Header.{header_of, has_bad_size, is_table_outside};

    /// The bytes of an ELF header.
    pub const BYTES: usize = 52;

    /// The header of a file.
    pub fn read(file: &[u8]) -> Header
        requires { 52 ≤ length file.now }
        ensures { result ≡ header_of file.now }
    {
        Header {
            ei_magic: [file[0], file[1], file[2], file[3]],
            ei_class: file[4],
            ei_data: file[5],
            ei_version: file[6],
            e_type: read_half(file, 16),
            e_machine: read_half(file, 18),
            e_version: read_word(file, 20),
            e_entry: read_word(file, 24),
            e_phoff: read_word(file, 28),
            e_flags: read_word(file, 36),
            e_ehsize: read_half(file, 40),
            e_phentsize: read_half(file, 42),
            e_phnum: read_half(file, 44),
        }
    }

    /// Whether the ELF header or the program headers aren't of their size.
    pub fn has_bad_size(&self) -> bool
        ensures { result ≡ has_bad_size self.now }
    {
        self.e_ehsize != 52 || self.e_phnum != 0 && self.e_phentsize != 32
    }

    /// Whether the program headers don't lie in a file of this many bytes.
    pub fn is_table_outside(&self, file_bytes: usize) -> bool
        ensures { result ≡ is_table_outside file_bytes self.now }
    {
        let table_end = u64::from(self.e_phoff) + 32 * u64::from(self.e_phnum);
        self.e_phnum != 0 && table_end > file_bytes as u64
    }
}
