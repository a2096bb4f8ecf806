// The bytes of an image, as instructions are fetched from them.
ghost use Rattle.std.specs.Prelude.{◌≡◌, ◌+◌, ◌*◌, ◌<◌, ◌≤◌, ◌^◌, ◌&&◌, nat_le, length, vec_len, All, IfOk, IfSome, Some};
ghost use Rattle.std.specs.List.{list_any};
ghost use Rattle.conda_base.specs.Bytes.{value_at};
ghost use Rattle.rv32_decode.specs.Ranges.{FieldsFit};
ghost use Rattle.rv32_hart.specs.Code.{CodeView, IsCode, IsRangeIn, word_at, is_fetched};
ghost use Rattle.rv32_hart.specs.Kept.{AreDecoded, instr_at};

use arrayvec::ArrayVec;
use rv32_decode::{Instr, decode};
use std::alloc::{AllocError, Global};
use std::marker::Model;

// The instructions of at most so many words are kept decoded.
const MOST_KEPT: u32 = 65_536;

/// An image in memory: its bytes from the base address on, and the ranges of addresses that
/// instructions may be fetched from.
#[derive(Drop)]
pub struct Code {
    base: u32,
    bytes: Vec<u8>,
    ranges: ArrayVec<(u32, u32), 64>,
    kept: Option<Kept>,
}

// The instructions of the words from number `first` on, word 1 being that at address 4.
#[derive(Drop)]
struct Kept {
    first: u32,
    instrs: Vec<Option<Instr>>,
}

impl Model for Code {
    ghost use Rattle.rv32_hart.specs.Code.{CodeView, IsCode, code_with};
    ghost use Rattle.std.specs.Prelude.{IfSome};
    ghost use Rattle.rv32_hart.specs.Kept.{AreDecoded};

    ghost Value = { CodeView };

    ghost view = { λ c. code_with c.base c.bytes.items c.ranges.items };

    ghost invariant = { λ c. IsCode (code_with c.base c.bytes.items c.ranges.items)
        × IfSome c.kept (λ kept.
        AreDecoded (code_with c.base c.bytes.items c.ranges.items) kept.first kept.instrs.items) };
}

impl Code {
    /// An image from a base address on. A range is a first address and a length in bytes.
    pub fn new(base: u32, bytes: Vec<u8>, ranges: ArrayVec<(u32, u32), 64>) -> Code
        requires room { base + vec_len bytes ≤ 2 ^ 32 }
        requires ranges { All (IsRangeIn base (vec_len bytes)) ranges.items }
        ensures { result ≡ record { base = base; bytes = bytes.items; ranges = ranges.items } }
    {
        Code {
            base,
            bytes,
            ranges,
            kept: None,
        }
    }

    /// Keeps the instructions of the first range decoded, of its first 65,536 words at most, so that a
    /// plan there decodes nothing. All memory for that is taken here.
    pub fn keep_decoded(&mut self, alloc: Global) -> Result<(), AllocError>
        ensures same { self.new ≡ self.old }
        ensures code { IsCode self.new }
    {
        let Some(range) = self.ranges.first() else {
            return Ok(());
        };
        let first = range.0 / 4;
        let many = (range.1 / 4).min(MOST_KEPT);
        let instrs = self.decode_from(alloc, first, many)?;
        self.kept = Some(Kept { first, instrs });
        Ok(())
    }

    // The instructions of so many words from number `first` on.
    fn decode_from(
        &self,
        alloc: Global,
        first: u32,
        many: u32,
    ) -> Result<Vec<Option<Instr>>, AllocError>
        requires { (first + many) * 4 ≤ 2 ^ 32 }
        ensures { IfOk result (λ kept. AreDecoded self.now first kept.items) }
    {
        let mut kept = Vec::with_capacity(alloc, many as usize)?;
        for k in 0..many {
            kept.push(self.instr((first + k) * 4))?;
        }
        Ok(kept)
    }

    // The instruction at `pc`, if its word may be fetched and is one.
    fn instr(&self, pc: u32) -> Option<Instr>
        ensures value { result ≡ instr_at self.now pc }
        ensures fields { IfSome result FieldsFit }
    {
        decode(self.word(pc)?)
    }

    // The instruction at `pc`, if it is kept.
    pub(crate) fn kept_instr(&self, pc: u32) -> Option<Instr>
        ensures value { IfSome result (λ i. instr_at self.now pc ≡ Some i) }
        ensures fields { IfSome result FieldsFit }
        ensures code { IsCode self.now }
    {
        let kept = self.kept.as_ref()?;
        let word = pc / 4;
        if pc % 4 != 0 || word < kept.first {
            return None;
        }
        *kept.instrs.get((word - kept.first) as usize)?
    }

    /// The address of the first byte.
    pub fn base(&self) -> u32
        ensures value { result ≡ self.now.base }
        ensures code { IsCode self.now }
    {
        self.base
    }

    /// The bytes from the base address on.
    pub fn bytes(&self) -> &[u8]
        ensures value { result.now ≡ self.now.bytes }
        ensures code { IsCode self.now }
    {
        &self.bytes
    }

    /// The ranges that instructions may be fetched from, each a first address and a length in bytes.
    pub fn ranges(&self) -> &[(u32, u32)]
        ensures value { result.now ≡ self.now.ranges }
        ensures code { IsCode self.now }
    {
        self.ranges.as_slice()
    }

    /// The little-endian word at `pc`, if it may be fetched.
    pub fn word(&self, pc: u32) -> Option<u32>
        ensures value { result ≡ word_at self.now pc }
        ensures code { IsCode self.now }
    {
        if pc % 4 == 0 && self.is_fetched(pc) {
            Some(word_of(&self.bytes, (pc - self.base) as usize))
        } else {
            None
        }
    }

    fn is_fetched(&self, pc: u32) -> bool
        ensures { result ≡ is_fetched self.now.ranges pc }
    {
        self.ranges.iter().any(|range| range.0 <= pc
            && u64::from(pc) + 4 <= u64::from(range.0) + u64::from(range.1))
    }
}

fn word_of(bytes: &[u8], place: usize) -> u32
    requires { place + 4 ≤ length bytes.now }
    ensures { result ≡ value_at bytes.now place 4 }
{
    u32::from_le_bytes([
        bytes[place],
        bytes[place + 1],
        bytes[place + 2],
        bytes[place + 3],
    ])
}
