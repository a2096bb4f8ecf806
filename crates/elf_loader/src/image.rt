// Images as they are loaded.
ghost use Rattle.std.specs.Prelude.{◌≡◌, ◌≢◌, ◌+◌, ◌≤◌, ◌^◌, length, None, Some, Err, IfOk, IfErr, OnOk};
ghost use Rattle.elf_loader.specs.Image.{image_of};
ghost use Rattle.elf_loader.specs.Refusal.{refusal};
ghost use Rattle.elf_loader.specs.declared.fault.ImageFault.TheVariants.{OutOfMemory};

use crate::ImageFault;
use crate::judging::judge;
use crate::memory::{fetch_ranges, fill};
use rv32_hart::Code;
use std::alloc::Global;
use std::marker::Model;

/// An executable in memory: the address that its harts start at, and its bytes, with the ranges that instructions may
/// be fetched from.
#[derive(Drop)]
pub struct Image {
    entry: u32,
    code: Code,
}

impl Model for Image {
    ghost use Rattle.elf_loader.specs.Image.{ImageView};

    ghost Value = { ImageView };

    ghost view = { λ i. record { entry = i.entry; code = i.code } };
}

impl Image {
    /// The address of the first instruction.
    pub fn entry(&self) -> u32
        ensures { result ≡ self.now.entry }
    {
        self.entry
    }

    /// The bytes of memory as loaded, and the ranges that instructions may be fetched from.
    pub fn code(&self) -> &Code
        ensures { result.now ≡ self.now.code }
    {
        &self.code
    }

    /// The bytes and ranges themselves, for the memory that they become part of.
    pub fn into_code(self) -> Code
        ensures { result ≡ self.code }
    {
        self.code
    }
}

/// Loads an ELF executable for RV32 into the `size` bytes of memory from `base` on.
///
/// The file is judged before memory is taken: an executable that can't be loaded is refused also where memory is short.
pub fn load(alloc: Global, bytes: &[u8], base: u32, size: u32) -> Result<Image, ImageFault>
    requires { base + size ≤ 2 ^ 32 }

    // A file is loaded whole, and only where no rule refuses it.
    ensures accepted { OnOk result (refusal bytes.now base size ≡ None) }
    ensures image { IfOk result (λ image. image ≡ image_of bytes.now base size) }
    ensures size { IfOk result (λ image. length image.code.bytes ≡ size) }

    // A fault is that of the first rule that is broken, and want of memory comes where none is.
    ensures refused { IfErr result (λ fault. fault ≢ OutOfMemory → refusal bytes.now base size
        ≡ Some fault) }
    ensures out_of_memory { result ≡ Err OutOfMemory → refusal bytes.now base size ≡ None }
{
    let accepted = judge(bytes, base, size)?;
    let segments = accepted.segments.as_slice();
    let memory = fill(alloc, bytes, segments, base, size)?;
    let ranges = fetch_ranges(segments);
    Ok(Image {
        entry: accepted.entry,
        code: Code::new(base, memory, ranges),
    })
}
