// Why a file is refused.
use std::alloc::AllocError;

/// Why a file isn't loaded. A segment is given by the number of its program header, counted from 0.
#[derive(Clone, Copy, Debug, PartialEq, Eq)]
pub enum ImageFault {
    /// The file is shorter than an ELF header.
    Short,
    /// The file doesn't begin as an ELF file.
    NotElf,
    /// The class isn't that of 32 bits.
    NotClass32,
    /// The bytes aren't in little-endian order.
    NotLittle,
    /// A version isn't the current one.
    BadVersion,
    /// The file is no executable.
    NotExec,
    /// The machine isn't RISC-V.
    NotRiscv,
    /// The flags ask for compressed instructions, floats or 16 registers. Holds them.
    BadFlags(u32),
    /// The ELF header or the program headers aren't of their size.
    BadHeaderSize,
    /// There are more than 64 program headers. Holds their number.
    TooManySegments(u16),
    /// The program headers don't lie in the file.
    TableOutside,
    /// A segment asks for a dynamic linker.
    Dynamic(u16),
    /// A segment has more bytes in the file than in memory, or some that the file doesn't have.
    BadSegment(u16),
    /// A segment doesn't lie in memory.
    SegmentOutside(u16),
    /// A segment shares an address with one before it.
    Overlap(u16),
    /// No segment is to be loaded.
    NoSegment,
    /// The entry isn't a multiple of 4, or doesn't lie in one executable segment. Holds it.
    BadEntry(u32),
    /// There is no memory for the image.
    OutOfMemory,
}

impl From<AllocError> for ImageFault {
    ghost use Rattle.std.specs.Prelude.{◌≡◌};
    ghost use Rattle.elf_loader.specs.declared.fault.ImageFault.TheVariants.{OutOfMemory};

    ghost from_gives = { λ _ e. e ≡ OutOfMemory };

    fn from(_: AllocError) -> Self {
        ImageFault::OutOfMemory
    }
}
