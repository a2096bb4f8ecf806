// Memory as a file fills it.
ghost use Rattle.std.specs.Prelude.{◌≡◌, ◌+◌, ◌-◌, ◌≤◌, ◌<◌, ℕ, false, length, map, slice_index, IfOk, if◌then◌else◌};
ghost use Rattle.std.specs.List.{range_with_len};
ghost use Rattle.elf_loader.specs.Segments.{is_bad, is_outside, IsLoadable};
ghost use Rattle.elf_loader.specs.Loaded.{loaded_byte, is_copied, fetch_ranges};

use crate::segment::Segment;
use arrayvec::ArrayVec;
use std::alloc::{AllocError, Global};

// Copies what a file has of a segment to its place in memory, if the segment is live.
fn copy_segment(memory: &mut [u8], base: u32, file: &[u8], segment: &Segment)
    requires good { is_bad (length file.now) segment.now ≡ false }
    requires inside { is_outside base (length memory.old) segment.now ≡ false }
    ensures { (k : ℕ) → k < length memory.old → slice_index memory.new k
        ≡ (if is_copied (base + k) segment.now
        then slice_index file.now (segment.now.p_offset + (base + k - segment.now.p_vaddr))
        else slice_index memory.old k) }
{
    if segment.is_live() && segment.p_filesz != 0 {
        let from = segment.p_offset as usize;
        let to = (segment.p_vaddr - base) as usize;
        let count = segment.p_filesz as usize;
        memory[to..to + count].copy_from_slice(&file[from..from + count]);
    }
}

/// The `size` bytes of memory from `base` on, with the segments' bytes of a file.
pub fn fill(
    alloc: Global,
    file: &[u8],
    segments: &[Segment],
    base: u32,
    size: u32,
) -> Result<Vec<u8>, AllocError>
    requires { IsLoadable (length file.now) base size segments.now }
    ensures { IfOk result (λ memory. memory.items
        ≡ map (loaded_byte file.now segments.now) (range_with_len base size)) }
{
    let mut memory = vec![in alloc; 0u8; size as usize]?;
    for segment in segments {
        copy_segment(&mut memory, base, file, segment);
    }
    Ok(memory)
}

/// The ranges that instructions may be fetched from, each as first address and length.
pub fn fetch_ranges(segments: &[Segment]) -> ArrayVec<(u32, u32), 64>
    requires { length segments.now ≤ 64 }
    ensures { result.items ≡ fetch_ranges segments.now }
{
    let mut ranges = ArrayVec::new();
    for segment in segments {
        if segment.is_fetchable() {
            ranges.push((segment.p_vaddr, segment.p_memsz));
        }
    }
    ranges
}
