// The rules of what is loaded, in their order.
ghost use Rattle.std.specs.Prelude.{◌≡◌, ◌+◌, ◌*◌, ◌≤◌, ◌<◌, nat_lt, List, [], ◌∷◌, length, map, IfOk, IfSome};
ghost use Rattle.std.specs.Option.{option_map};
ghost use Rattle.std.specs.List.{position, range_with_len, list_any};
ghost use Rattle.elf_loader.specs.Header.{
  header_of,
  is_not_elf,
  is_not_class32,
  is_not_little,
  has_bad_version,
  is_not_exec,
  is_not_riscv,
  has_bad_flags,
  has_bad_size,
  has_too_many,
  is_table_outside,
};
ghost use Rattle.elf_loader.specs.Segments.{
  segments_of,
  segment_at,
  is_live,
  is_dynamic,
  is_bad,
  is_outside,
  numbered,
  overlaps_earlier,
  holds_word,
  has_no_live,
  is_bad_entry,
  IsLoadable,
};
ghost use Rattle.elf_loader.specs.Refusal.{rules, fault_when, IsVerdict};
ghost use Rattle.elf_loader.specs.declared.fault.ImageFault.TheVariants as fault;

use crate::ImageFault;
use crate::header::Header;
use crate::segment::Segment;
use arrayvec::ArrayVec;

const ELF_MAGIC: [u8; 4] = [0x7f, b'E', b'L', b'F'];

const CLASS_32: u8 = 1;

const LITTLE_ENDIAN: u8 = 1;

const CURRENT: u8 = 1;

const EXECUTABLE: u16 = 2;

const RISCV: u16 = 243;

// Compressed instructions, the two bits of the float ABI, and 16 registers.
const BAD_FLAGS: u32 = 1 + 2 + 4 + 8;

const MOST_SEGMENTS: u16 = 64;

/// A file that breaks no rule: its entry and its program headers.
#[derive(Drop)]
pub struct Accepted {
    pub entry: u32,
    pub segments: ArrayVec<Segment, 64>,
}

fn judge_identity(header: &Header) -> Result<(), ImageFault>
    ensures { IsVerdict result (
        fault_when (is_not_elf header.now) fault.NotElf
        ∷ fault_when (is_not_class32 header.now) fault.NotClass32
        ∷ fault_when (is_not_little header.now) fault.NotLittle
        ∷ fault_when (has_bad_version header.now) fault.BadVersion
        ∷ []) }
{
    if header.ei_magic != ELF_MAGIC {
        return Err(ImageFault::NotElf);
    }
    if header.ei_class != CLASS_32 {
        return Err(ImageFault::NotClass32);
    }
    if header.ei_data != LITTLE_ENDIAN {
        return Err(ImageFault::NotLittle);
    }
    if header.ei_version != CURRENT || header.e_version != u32::from(CURRENT) {
        return Err(ImageFault::BadVersion);
    }
    Ok(())
}

fn judge_kind(header: &Header) -> Result<(), ImageFault>
    ensures { IsVerdict result (
        fault_when (is_not_exec header.now) fault.NotExec
        ∷ fault_when (is_not_riscv header.now) fault.NotRiscv
        ∷ fault_when (has_bad_flags header.now) (fault.BadFlags header.now.e_flags)
        ∷ []) }
{
    if header.e_type != EXECUTABLE {
        return Err(ImageFault::NotExec);
    }
    if header.e_machine != RISCV {
        return Err(ImageFault::NotRiscv);
    }
    if header.e_flags & BAD_FLAGS != 0 {
        return Err(ImageFault::BadFlags(header.e_flags));
    }
    Ok(())
}

fn judge_table(header: &Header, file_bytes: usize) -> Result<(), ImageFault>
    ensures { IsVerdict result (
        fault_when (has_bad_size header.now) fault.BadHeaderSize
        ∷ fault_when (has_too_many header.now) (fault.TooManySegments header.now.e_phnum)
        ∷ fault_when (is_table_outside file_bytes header.now) fault.TableOutside
        ∷ []) }
{
    if header.has_bad_size() {
        return Err(ImageFault::BadHeaderSize);
    }
    if header.e_phnum > MOST_SEGMENTS {
        return Err(ImageFault::TooManySegments(header.e_phnum));
    }
    if header.is_table_outside(file_bytes) {
        return Err(ImageFault::TableOutside);
    }
    Ok(())
}

fn first_dynamic(segments: &[Segment]) -> Option<usize>
    ensures place { result ≡ position is_dynamic segments.now }
    ensures within { IfSome result (λ k. k < length segments.now) }
{
    segments.iter().position(|segment| segment.is_dynamic())
}

fn first_bad(segments: &[Segment], file_bytes: usize) -> Option<usize>
    ensures place { result ≡ position (is_bad file_bytes) segments.now }
    ensures within { IfSome result (λ k. k < length segments.now) }
{
    segments
        .iter()
        .position(|segment| segment.is_bad(file_bytes))
}

fn first_outside(segments: &[Segment], base: u32, size: u32) -> Option<usize>
    ensures place { result ≡ position (is_outside base size) segments.now }
    ensures within { IfSome result (λ k. k < length segments.now) }
{
    segments
        .iter()
        .position(|segment| segment.is_outside(base, size))
}

fn first_overlap(segments: &[Segment]) -> Option<usize>
    ensures place { result ≡ position (overlaps_earlier segments.now) (numbered segments.now) }
    ensures within { IfSome result (λ k. k < length segments.now) }
{
    for (place, segment) in segments.iter().enumerate() {
        if segment.overlaps(&segments[..place]) {
            return Some(place);
        }
    }
    None
}

fn judge_segments(
    segments: &[Segment],
    file_bytes: usize,
    base: u32,
    size: u32,
) -> Result<(), ImageFault>
    requires { length segments.now ≤ 64 }
    ensures { IsVerdict result (
        option_map fault.Dynamic (position is_dynamic segments.now)
        ∷ option_map fault.BadSegment (position (is_bad file_bytes) segments.now)
        ∷ option_map fault.SegmentOutside (position (is_outside base size) segments.now)
        ∷ option_map fault.Overlap
        (position (overlaps_earlier segments.now) (numbered segments.now))
        ∷ []) }
{
    if let Some(place) = first_dynamic(segments) {
        return Err(ImageFault::Dynamic(place as u16));
    }
    if let Some(place) = first_bad(segments, file_bytes) {
        return Err(ImageFault::BadSegment(place as u16));
    }
    if let Some(place) = first_outside(segments, base, size) {
        return Err(ImageFault::SegmentOutside(place as u16));
    }
    if let Some(place) = first_overlap(segments) {
        return Err(ImageFault::Overlap(place as u16));
    }
    Ok(())
}

fn has_live(segments: &[Segment]) -> bool
    ensures { result ≡ list_any is_live segments.now }
{
    segments.iter().any(|segment| segment.is_live())
}

fn hold_word(segments: &[Segment], address: u32) -> bool
    ensures { result ≡ list_any (holds_word address) segments.now }
{
    segments.iter().any(|segment| segment.holds_word(address))
}

fn judge_entry(entry: u32, segments: &[Segment]) -> Result<(), ImageFault>
    ensures { IsVerdict result (
        fault_when (has_no_live segments.now) fault.NoSegment
        ∷ fault_when (is_bad_entry entry segments.now) (fault.BadEntry entry)
        ∷ []) }
{
    if !has_live(segments) {
        return Err(ImageFault::NoSegment);
    }
    if entry % 4 != 0 || !hold_word(segments, entry) {
        return Err(ImageFault::BadEntry(entry));
    }
    Ok(())
}

fn read_segments(file: &[u8], first: usize, count: u16) -> ArrayVec<Segment, 64>
    requires few { count ≤ 64 }
    requires within { 0 < count → first + 32 * count ≤ length file.now }
    ensures { result.items ≡ map (λ k. segment_at file.now (first + 32 * k))
        (range_with_len 0 count) }
{
    let mut segments = ArrayVec::new();
    for number in 0..usize::from(count) {
        segments.push(Segment::read(file, first + Segment::BYTES * number));
    }
    segments
}

/// Judges a file that is to be loaded into the `size` bytes from `base` on.
pub fn judge(file: &[u8], base: u32, size: u32) -> Result<Accepted, ImageFault>
    ensures verdict { IsVerdict result (rules file.now base size) }
    ensures entry { IfOk result (λ a. a.entry ≡ (header_of file.now).e_entry) }
    ensures segments { IfOk result (λ a. a.segments.items ≡ segments_of file.now) }
    ensures loadable { IfOk result (λ a. IsLoadable (length file.now) base size a.segments.items) }
{
    if file.len() < Header::BYTES {
        return Err(ImageFault::Short);
    }
    let header = Header::read(file);
    judge_identity(&header)?;
    judge_kind(&header)?;
    judge_table(&header, file.len())?;
    let segments = read_segments(file, header.e_phoff as usize, header.e_phnum);
    let list = segments.as_slice();
    judge_segments(list, file.len(), base, size)?;
    judge_entry(header.e_entry, list)?;
    Ok(Accepted {
        entry: header.e_entry,
        segments,
    })
}
