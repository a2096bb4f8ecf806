// The image of a seed in its memory.
ghost use Rattle.std.specs.Prelude.{◌≡◌, ◌+◌, ◌≤◌, ◌^◌, None, length, IfOk};
ghost use Rattle.elf_loader.specs.Image.{image_of};
ghost use Rattle.elf_loader.specs.Refusal.{refusal};

use chip_config::Config;
use elf_loader::{Image, ImageFault, load};
use std::alloc::{AllocError, Global};

/// Loads an image that no rule refuses.
pub fn load_accepted(alloc: Global, bytes: &[u8], config: &Config) -> Result<Image, AllocError>
    requires { refusal bytes.now config.now.mem_base config.now.mem_bytes ≡ None }
    ensures image { IfOk result (λ image. image
        ≡ image_of bytes.now config.now.mem_base config.now.mem_bytes) }
    ensures size { IfOk result (λ image. length image.code.bytes ≡ config.now.mem_bytes) }
{
    match load(alloc, bytes, config.mem_base, config.mem_bytes) {
        Ok(image) => Ok(image),
        Err(ImageFault::OutOfMemory) => Err(AllocError),
        Err(_) => unreachable!(),
    }
}
