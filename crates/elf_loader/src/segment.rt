// The program headers of an ELF file.
ghost use Rattle.std.specs.Prelude.{◌≡◌, ◌+◌, ◌≤◌, length};

use crate::fields::read_word;

const PT_LOAD: u32 = 1;

const PT_DYNAMIC: u32 = 2;

const PT_INTERP: u32 = 3;

const PF_X: u32 = 1;

/// The fields of a program header that are looked at, with the names of the System V gABI.
#[derive(Clone, Copy, Debug, Default, PartialEq, Eq)]
pub struct Segment {
    pub p_type: u32,
    pub p_offset: u32,
    pub p_vaddr: u32,
    pub p_filesz: u32,
    pub p_memsz: u32,
    pub p_flags: u32,
}

impl Segment {
    ghost use Rattle.std.specs.Prelude.{◌&&◌};
    ghost use Rattle.std.specs.List.{list_any};
    ghost use Rattle.elf_loader.specs.Segments.{
      segment_at,
      memory_end,
      is_live,
      is_dynamic,
      is_bad,
      is_outside,
      shares_address,
      overlaps,
      is_fetchable,
      holds_word,
    };

    /// The bytes of a program header.
    pub const BYTES: usize = 32;

    /// The program header at a place of a file.
    pub fn read(file: &[u8], place: usize) -> Segment
        requires { place + 32 ≤ length file.now }
        ensures { result ≡ segment_at file.now place }
    {
        Segment {
            p_type: read_word(file, place),
            p_offset: read_word(file, place + 4),
            p_vaddr: read_word(file, place + 8),
            p_filesz: read_word(file, place + 16),
            p_memsz: read_word(file, place + 20),
            p_flags: read_word(file, place + 24),
        }
    }

    /// The address behind the last one.
    pub fn memory_end(&self) -> u64
        ensures { result ≡ memory_end self.now }
    {
        u64::from(self.p_vaddr) + u64::from(self.p_memsz)
    }

    /// Whether the segment is to be loaded, and isn't empty.
    pub fn is_live(&self) -> bool
        ensures { result ≡ is_live self.now }
    {
        self.p_type == PT_LOAD && !(self.p_memsz == 0 && self.p_filesz == 0)
    }

    /// Whether the segment asks for a dynamic linker.
    pub fn is_dynamic(&self) -> bool
        ensures { result ≡ is_dynamic self.now }
    {
        self.p_type == PT_DYNAMIC || self.p_type == PT_INTERP
    }

    /// Whether the segment is live, and its bytes of a file of this many bytes don't fit it or aren't there.
    pub fn is_bad(&self, file_bytes: usize) -> bool
        ensures { result ≡ is_bad file_bytes self.now }
    {
        let file_end = u64::from(self.p_offset) + u64::from(self.p_filesz);
        self.is_live()
            && (self.p_filesz > self.p_memsz || self.p_filesz != 0 && file_end > file_bytes as u64)
    }

    /// Whether the segment is live, and doesn't lie in the `size` bytes from `base` on.
    pub fn is_outside(&self, base: u32, size: u32) -> bool
        ensures { result ≡ is_outside base size self.now }
    {
        self.is_live()
            && (self.p_vaddr < base || self.memory_end() > u64::from(base) + u64::from(size))
    }

    /// Whether some address lies in both segments.
    pub fn shares_address(&self, other: &Segment) -> bool
        ensures { result ≡ shares_address self.now other.now }
    {
        u64::from(self.p_vaddr.max(other.p_vaddr)) < self.memory_end().min(other.memory_end())
    }

    /// Whether the segment is live, and shares an address with a live one of these.
    pub fn overlaps(&self, others: &[Segment]) -> bool
        ensures { result ≡ overlaps others.now self.now }
    {
        self.is_live() && self.meets(others)
    }

    // Whether the segment shares an address with a live one of these.
    fn meets(&self, others: &[Segment]) -> bool
        ensures { result ≡ list_any (λ t. is_live t && shares_address self.now t) others.now }
    {
        others
            .iter()
            .any(|other| other.is_live() && self.shares_address(other))
    }

    /// Whether the segment is live and executable.
    pub fn is_fetchable(&self) -> bool
        ensures { result ≡ is_fetchable self.now }
    {
        self.is_live() && self.p_flags & PF_X != 0
    }

    /// Whether the segment is live and executable, and holds the four bytes from an address on.
    pub fn holds_word(&self, address: u32) -> bool
        ensures { result ≡ holds_word address self.now }
    {
        self.is_fetchable()
            && self.p_vaddr <= address
            && u64::from(address) + 4 <= self.memory_end()
    }
}
