// Images that are loaded, and images that lie.
ghost use Rattle.std.specs.Prelude.{◌+◌, ◌<◌, ◌≤◌, length};

use elf_loader::{Image, ImageFault, load};
use std::alloc::{AllocError, Global};
use std::test::Fail;

// Places of the fields that are changed.
const E_ENTRY: usize = 24;

const E_PHOFF: usize = 28;

const E_FLAGS: usize = 36;

const E_PHNUM: usize = 44;

const P_TYPE: usize = 52;

const P_OFFSET: usize = 56;

const P_VADDR: usize = 60;

const P_FILESZ: usize = 68;

const P_MEMSZ: usize = 72;

const P_FLAGS: usize = 76;

// An executable of six words at 65536: addi x10,x0,65; addi x17,x0,1003; ecall; addi x10,x0,0; addi x17,x0,93; ecall.
const ONE_LETTER: [u8; 108] = [
    0x7f, b'E', b'L', b'F', 1, 1, 1, 0, 0, 0, 0, 0, 0, 0, 0, 0, // identification
    2, 0, 243, 0, 1, 0, 0, 0, // an executable for RISC-V
    0, 0, 1, 0, 52, 0, 0, 0, 0, 0, 0, 0, 0, 0, 0, 0, // entry, program headers, sections, flags
    52, 0, 32, 0, 1, 0, 0, 0, 0, 0, 0, 0, // sizes and numbers
    1, 0, 0, 0, 84, 0, 0, 0, 0, 0, 1, 0, 0, 0, 1, 0, // PT_LOAD, offset, addresses
    24, 0, 0, 0, 24, 0, 0, 0, 7, 0, 0, 0, 4, 0, 0, 0, // sizes, flags, alignment
    0x13, 0x05, 0x10, 0x04, 0x93, 0x08, 0xb0, 0x3e, 0x73, 0, 0, 0, //
    0x13, 0x05, 0, 0, 0x93, 0x08, 0xd0, 0x05, 0x73, 0, 0, 0,
];

// A file with other bytes at a place.
fn with(mut file: [u8; 108], place: usize, bytes: &[u8]) -> [u8; 108]
    requires { place + length bytes.now ≤ 108 }
{
    file[place..place + bytes.len()].copy_from_slice(bytes);
    file
}

// The image with other bytes at a place.
fn changed(place: usize, bytes: &[u8]) -> [u8; 108]
    requires { place + length bytes.now ≤ 108 }
{
    with(ONE_LETTER, place, bytes)
}

fn load_in_memory(alloc: Global, file: &[u8]) -> Result<Image, ImageFault> {
    load(alloc, file, 0, 16_777_216)
}

fn fault_of(alloc: Global, file: &[u8]) -> Option<ImageFault> {
    match load_in_memory(alloc, file) {
        Ok(_) => None,
        Err(fault) => Some(fault),
    }
}

#[test]
fn an_image_is_loaded_at_its_address(rt: HostRuntime) -> Result<(), Fail> {
    let image = load_in_memory(rt.alloc(), &ONE_LETTER)?;
    assert_eq!(rt; image.entry(), 65536);
    assert_eq!(rt; image.code().word(65536), Some(0x0410_0513));
    assert_eq!(rt; image.code().word(65556), Some(0x0000_0073));
    assert_eq!(rt; image.code().word(65560), None);
    Ok(())
}

#[test]
fn memory_has_its_size_and_zeros_elsewhere(rt: HostRuntime) -> Result<(), Fail> {
    let code = load(rt.alloc(), &ONE_LETTER, 61440, 8192)?.into_code();
    assert_eq!(rt; code.base(), 61440);
    let bytes = code.bytes();
    assert_eq!(rt; bytes.len(), 8192);
    assert_eq!(rt;
        &bytes[4095..4101],
        [0, 0x13, 0x05, 0x10, 0x04, 0x93].as_slice()
    );
    assert_eq!(rt; &bytes[4119..4122], [0, 0, 0].as_slice());
    Ok(())
}

#[test]
fn a_segment_is_executable_up_to_its_end_in_memory(rt: HostRuntime) -> Result<(), Fail> {
    let image = load_in_memory(rt.alloc(), &changed(P_MEMSZ, &[32, 0, 0, 0]))?;
    assert_eq!(rt; image.code().word(65564), Some(0));
    assert_eq!(rt; image.code().word(65568), None);
    Ok(())
}

#[test]
fn a_file_of_51_bytes_is_short(rt: HostRuntime) {
    assert_eq!(rt;
        fault_of(rt.alloc(), &ONE_LETTER[..51]),
        Some(ImageFault::Short)
    );
}

#[test]
fn the_identification_is_judged(rt: HostRuntime) {
    assert_eq!(rt;
        fault_of(rt.alloc(), &changed(3, b"G")),
        Some(ImageFault::NotElf)
    );
    assert_eq!(rt;
        fault_of(rt.alloc(), &changed(4, &[2])),
        Some(ImageFault::NotClass32)
    );
    assert_eq!(rt;
        fault_of(rt.alloc(), &changed(5, &[2])),
        Some(ImageFault::NotLittle)
    );
}

#[test]
fn both_versions_are_judged(rt: HostRuntime) {
    assert_eq!(rt;
        fault_of(rt.alloc(), &changed(6, &[0])),
        Some(ImageFault::BadVersion)
    );
    assert_eq!(rt;
        fault_of(rt.alloc(), &changed(20, &[2])),
        Some(ImageFault::BadVersion)
    );
}

#[test]
fn the_kind_is_judged(rt: HostRuntime) {
    assert_eq!(rt;
        fault_of(rt.alloc(), &changed(16, &[3])),
        Some(ImageFault::NotExec)
    );
    assert_eq!(rt;
        fault_of(rt.alloc(), &changed(18, &[62])),
        Some(ImageFault::NotRiscv)
    );
}

#[test]
fn compressed_instructions_are_refused(rt: HostRuntime) {
    assert_eq!(rt;
        fault_of(rt.alloc(), &changed(E_FLAGS, &[1])),
        Some(ImageFault::BadFlags(1))
    );
    assert_eq!(rt; fault_of(rt.alloc(), &changed(E_FLAGS, &[16])), None);
}

#[test]
fn sizes_of_headers_are_judged(rt: HostRuntime) {
    assert_eq!(rt;
        fault_of(rt.alloc(), &changed(40, &[53])),
        Some(ImageFault::BadHeaderSize)
    );
    assert_eq!(rt;
        fault_of(rt.alloc(), &changed(42, &[40])),
        Some(ImageFault::BadHeaderSize)
    );
}

#[test]
fn program_headers_past_the_end_are_refused(rt: HostRuntime) {
    let file = changed(E_PHOFF, &[255; 4]);
    assert_eq!(rt; fault_of(rt.alloc(), &file), Some(ImageFault::TableOutside));
}

#[test]
fn there_are_at_most_64_program_headers(rt: HostRuntime) {
    let file = changed(E_PHNUM, &[65, 0]);
    assert_eq!(rt;
        fault_of(rt.alloc(), &file),
        Some(ImageFault::TooManySegments(65))
    );
}

#[test]
fn a_file_with_no_program_header_has_no_segment(rt: HostRuntime) {
    let file = changed(42, &[0, 0, 0, 0]);
    assert_eq!(rt; fault_of(rt.alloc(), &file), Some(ImageFault::NoSegment));
}

#[test]
fn a_dynamic_segment_is_refused(rt: HostRuntime) {
    assert_eq!(rt;
        fault_of(rt.alloc(), &changed(P_TYPE, &[2])),
        Some(ImageFault::Dynamic(0))
    );
}

#[test]
fn bytes_past_the_end_of_the_file_are_refused(rt: HostRuntime) {
    let file = changed(P_OFFSET, &[255; 4]);
    assert_eq!(rt;
        fault_of(rt.alloc(), &file),
        Some(ImageFault::BadSegment(0))
    );
}

#[test]
fn more_bytes_in_the_file_than_in_memory_are_refused(rt: HostRuntime) {
    let file = changed(P_MEMSZ, &[20]);
    assert_eq!(rt;
        fault_of(rt.alloc(), &file),
        Some(ImageFault::BadSegment(0))
    );
}

#[test]
fn a_segment_at_the_end_of_addresses_is_outside(rt: HostRuntime) {
    let file = changed(P_VADDR, &[252, 255, 255, 255]);
    assert_eq!(rt;
        fault_of(rt.alloc(), &file),
        Some(ImageFault::SegmentOutside(0))
    );
}

#[test]
fn a_segment_behind_memory_is_outside(rt: HostRuntime) {
    let file = with(changed(P_VADDR, &[0, 0, 0, 1]), E_ENTRY, &[0, 0, 0, 1]);
    assert_eq!(rt;
        fault_of(rt.alloc(), &file),
        Some(ImageFault::SegmentOutside(0))
    );
}

#[test]
fn an_empty_segment_is_none(rt: HostRuntime) {
    let file = with(changed(P_FILESZ, &[0]), P_MEMSZ, &[0]);
    assert_eq!(rt; fault_of(rt.alloc(), &file), Some(ImageFault::NoSegment));
}

#[test]
fn an_entry_that_may_not_be_executed_is_refused(rt: HostRuntime) {
    let file = changed(P_FLAGS, &[6]);
    assert_eq!(rt;
        fault_of(rt.alloc(), &file),
        Some(ImageFault::BadEntry(65536))
    );
}

#[test]
fn an_entry_behind_its_segment_is_refused(rt: HostRuntime) {
    let file = changed(E_ENTRY, &[24]);
    assert_eq!(rt;
        fault_of(rt.alloc(), &file),
        Some(ImageFault::BadEntry(65560))
    );
}

#[test]
fn an_odd_entry_is_refused(rt: HostRuntime) {
    let file = changed(E_ENTRY, &[2]);
    assert_eq!(rt;
        fault_of(rt.alloc(), &file),
        Some(ImageFault::BadEntry(65538))
    );
}

// The image with another program header before its own, so many times.
fn behind(alloc: Global, header: &[u8; 32], times: u16) -> Result<Vec<u8>, AllocError>
    requires { times < 64 }
{
    let mut file = Vec::from_slice(alloc, &ONE_LETTER[..E_PHNUM])?;
    file.extend_from_slice(&(times + 1).to_le_bytes())?;
    file.extend_from_slice(&ONE_LETTER[E_PHNUM + 2..P_TYPE])?;
    for _ in 0..times {
        file.extend_from_slice(header)?;
    }
    file.extend_from_slice(&ONE_LETTER[P_TYPE..P_OFFSET])?;
    file.extend_from_slice(&(84 + 32 * u32::from(times)).to_le_bytes())?;
    file.extend_from_slice(&ONE_LETTER[P_VADDR..])?;
    Ok(file)
}

// A program header of another type, whose other fields mean nothing.
fn foreign(kind: u32) -> [u8; 32] {
    let mut header = [255; 32];
    header[..4].copy_from_slice(&kind.to_le_bytes());
    header
}

#[test]
fn headers_of_other_types_are_passed_over(rt: HostRuntime) -> Result<(), Fail> {
    let file = behind(rt.alloc(), &foreign(0x6474_e551), 1)?;
    let image = load_in_memory(rt.alloc(), &file)?;
    assert_eq!(rt; image.code().word(65536), Some(0x0410_0513));
    let file = behind(rt.alloc(), &foreign(0x7000_0003), 2)?;
    assert_eq!(rt; fault_of(rt.alloc(), &file), None);
    Ok(())
}

#[test]
fn sixty_four_program_headers_are_accepted(rt: HostRuntime) -> Result<(), Fail> {
    let file = behind(rt.alloc(), &foreign(0), 63)?;
    let image = load_in_memory(rt.alloc(), &file)?;
    assert_eq!(rt; image.code().word(65536), Some(0x0410_0513));
    Ok(())
}

// The file's first four bytes at 131072, and four zeros.
const DATA: [u8; 32] = [
    1, 0, 0, 0, 0, 0, 0, 0, 0, 0, 2, 0, 0, 0, 0, 0, //
    4, 0, 0, 0, 8, 0, 0, 0, 6, 0, 0, 0, 0, 0, 0, 0,
];

#[test]
fn segments_come_in_any_order(rt: HostRuntime) -> Result<(), Fail> {
    let file = behind(rt.alloc(), &DATA, 1)?;
    let image = load_in_memory(rt.alloc(), &file)?;
    let bytes = image.code().bytes();
    assert!(rt; bytes.len() == 16_777_216);
    assert_eq!(rt; &bytes[131_071..131_077], b"\0\x7fELF\0".as_slice());
    assert_eq!(rt; image.code().word(65536), Some(0x0410_0513));
    Ok(())
}

#[test]
fn a_second_header_equal_to_the_first_overlaps(rt: HostRuntime) -> Result<(), Fail> {
    let mut own = [0; 32];
    own.copy_from_slice(&ONE_LETTER[P_TYPE..84]);
    let file = behind(rt.alloc(), &own, 1)?;
    assert_eq!(rt; fault_of(rt.alloc(), &file), Some(ImageFault::Overlap(1)));
    Ok(())
}
