// Programs as ELF images of one segment.
ghost use Rattle.std.specs.Prelude.{◌≡◌, ◌++◌, IfOk, OnOk};
ghost use Rattle.std.specs.List.{flat_map};
ghost use Rattle.elf_loader.specs.Plain.{elf_header, half, plain, program_header, words_bytes};
ghost use Rattle.rv32_asm.specs.Programs.{IsProgram};

use crate::assembling::Program;
use std::alloc::{AllocError, Global};

/// How many bytes the two headers have.
const HEADER_BYTES: usize = 84;

/// ELF, 32 bits, little-endian, of the first version.
const IDENTIFICATION: [u8; 16] = [0x7f, b'E', b'L', b'F', 1, 1, 1, 0, 0, 0, 0, 0, 0, 0, 0, 0];

fn push_halves(image: &mut Vec<u8>, halves: &[u16]) -> Result<(), AllocError>
    ensures { OnOk result (image.new.items ≡ image.old.items ++ flat_map half halves.now) }
{
    for half in halves {
        image.extend_from_slice(&half.to_le_bytes())?;
    }
    Ok(())
}

fn push_words(image: &mut Vec<u8>, words: &[u32]) -> Result<(), AllocError>
    ensures { OnOk result (image.new.items ≡ image.old.items ++ words_bytes words.now) }
{
    for word in words {
        image.extend_from_slice(&word.to_le_bytes())?;
    }
    Ok(())
}

fn push_elf_header(image: &mut Vec<u8>, entry: u32) -> Result<(), AllocError>
    ensures { OnOk result (image.new.items ≡ image.old.items ++ elf_header entry) }
{
    image.extend_from_slice(&IDENTIFICATION)?;
    push_halves(image, &[2, 243])?;
    push_words(image, &[1, entry, 52, 0, 0])?;
    push_halves(image, &[52, 32, 1, 0, 0, 0])
}

fn push_program_header(image: &mut Vec<u8>, at: u32, size: u32) -> Result<(), AllocError>
    ensures { OnOk result (image.new.items ≡ image.old.items ++ program_header at size) }
{
    push_words(image, &[1, 84, at, at, size, size, 7, 4])
}

/// The ELF image of a program, which is loaded at the program's address and entered there.
pub fn plain(alloc: Global, program: &Program) -> Result<Vec<u8>, AllocError>
    requires { IsProgram program.now.at program.now.words.items }
    ensures { IfOk result (λ image. image.items ≡ plain program.now.at program.now.words.items) }
{
    let size = 4 * program.words.len();
    let mut image = Vec::with_capacity(alloc, HEADER_BYTES + size)?;
    push_elf_header(&mut image, program.at)?;
    push_program_header(&mut image, program.at, size as u32)?;
    push_words(&mut image, &program.words)?;
    Ok(image)
}
