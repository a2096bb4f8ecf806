// A line of a near-data cache.
ghost use Rattle.std.specs.Prelude.{
  ℕ,
  ◌≡◌,
  ◌+◌,
  ◌-◌,
  ◌^◌,
  ◌≤◌,
  ◌⊎◌,
  ◌↔◌,
  ◌||◌,
  true,
  false,
  IsTrue,
  length,
  replicate,
};
ghost use Rattle.conda_base.specs.Bytes.{stored, value_at};
ghost use Rattle.conda_base.specs.Lines.{IsAccessSize};
ghost use Rattle.conda_base.specs.Marks.{is_marked, mixed};
ghost use Rattle.write_masks.specs.Marks.{is_within, Covers};

use conda_base::{put_marked, read_value, write_value};

// A line's room, which holds a line of each size.
const ROOM: usize = 128;

/// A line of a try: its bytes, a mark for each byte that the try stored, and whether the others were filled.
///
/// Byte k has bit k of the mask. A line with fewer than 128 bytes uses the first of them.
#[derive(Clone, Copy, Debug, PartialEq, Eq)]
pub struct Masked {
    pub bytes: [u8; 128],
    pub mask: u128,
    pub filled: bool,
}

impl Masked {
    /// A line of which nothing is known yet: no byte is stored or filled.
    pub fn empty() -> Masked
        ensures bytes { result.bytes ≡ replicate 128 0 }
        ensures mask { result.mask ≡ 0 }
        ensures filled { result.filled ≡ false }
    {
        Masked {
            bytes: [0; ROOM],
            mask: 0,
            filled: false,
        }
    }

    /// Stores the low 1, 2 or 4 bytes of a value, the lowest first, and marks them.
    pub fn put(&mut self, off: usize, size: u8, value: u32)
        requires size { IsAccessSize size }
        requires within { off + size ≤ 128 }
        ensures bytes { self.new.bytes ≡ stored self.old.bytes off size value }
        ensures marks { (place : ℕ) → is_marked self.new.mask place
            ≡ (is_marked self.old.mask place || is_within off size place) }
        ensures filled { self.new.filled ≡ self.old.filled }
    {
        write_value(&mut self.bytes, off, size, value);
        self.mask |= run_mask(off, size);
    }

    /// Whether each of these 1, 2 or 4 bytes is marked.
    pub fn covers(&self, off: usize, size: u8) -> bool
        requires size { IsAccessSize size }
        requires within { off + size ≤ 128 }
        ensures { IsTrue result ↔ Covers self.now.mask off size }
    {
        let run = run_mask(off, size);
        self.mask & run == run
    }

    /// Takes the bytes that aren't marked from a copy of the line.
    pub fn fill(&mut self, from: &[u8; 128])
        requires { self.old.filled ≡ false }
        ensures bytes { self.new.bytes ≡ mixed self.old.mask self.old.bytes from.now }
        ensures mask { self.new.mask ≡ self.old.mask }
        ensures filled { self.new.filled ≡ true }
    {
        self.fill_from(from);
    }

    /// Takes the bytes that aren't marked from a copy of the line, as many as the copy has.
    pub fn fill_from(&mut self, from: &[u8])
        requires unfilled { self.old.filled ≡ false }
        requires room { length from.now ≤ 128 }
        ensures bytes { self.new.bytes ≡ mixed self.old.mask self.old.bytes from.now }
        ensures mask { self.new.mask ≡ self.old.mask }
        ensures filled { self.new.filled ≡ true }
    {
        put_unmarked(&mut self.bytes, self.mask, from);
        self.filled = true;
    }

    /// The number that stands in 1, 2 or 4 bytes, the lowest first.
    pub fn get(&self, off: usize, size: u8) -> u32
        requires size { IsAccessSize size }
        requires within { off + size ≤ 128 }
        requires known { (self.now.filled ≡ true) ⊎ Covers self.now.mask off size }
        ensures { result ≡ value_at self.now.bytes off size }
    {
        read_value(&self.bytes, off, size)
    }
}

// Takes the bytes that aren't marked from a copy of the line, as many as the copy has.
fn put_unmarked(bytes: &mut [u8; 128], mask: u128, from: &[u8])
    requires { length from.now ≤ 128 }
    ensures { bytes.new ≡ mixed mask bytes.old from.now }
{
    put_marked(&mut bytes[..from.len()], !mask, from);
}

// The bits of `size` bytes from `off` on.
fn run_mask(off: usize, size: u8) -> u128
    requires size { IsAccessSize size }
    requires within { off + size ≤ 128 }
    ensures { result ≡ 2 ^ (off + size) - 2 ^ off }
{
    ((1u128 << size) - 1) << off
}
