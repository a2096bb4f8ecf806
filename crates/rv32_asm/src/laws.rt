// What the definitions mean. A law is the contract of a function that does nothing.
ghost use Rattle.std.specs.Prelude.{◌≡◌, ◌+◌, ◌*◌, ◌≤◌, ◌^◌, None, length};
ghost use Rattle.elf_loader.specs.Plain.{plain};
ghost use Rattle.elf_loader.specs.Refusal.{refusal};
ghost use Rattle.rv32_dis.specs.Texts.{program_text};
ghost use Rattle.rv32_asm.specs.Assembled.{Assembled};
ghost use Rattle.rv32_asm.specs.Laws.{OneReading};
ghost use Rattle.rv32_asm.specs.Programs.{IsProgram};

use crate::assembling::Program;
use elf_loader::plain_image_is_loaded;

/// A law: a line says one thing.
pub fn line_says_one_thing()
    ensures { OneReading }
{}

/// A law: a program's image is refused by no rule of loading where memory holds the program's addresses.
pub fn plain_program_is_loaded(program: &Program, base: u32, size: u32)
    requires program { IsProgram program.now.at program.now.words.items }
    requires from { base ≤ program.now.at }
    requires to { program.now.at + 4 * length program.now.words.items ≤ base + size }
    requires room { base + size ≤ 2 ^ 32 }
    ensures { refusal (plain program.now.at program.now.words.items) base size ≡ None }
{
    plain_image_is_loaded(program.at, &program.words, base, size);
}

/// A law: the disassembled text of a program, its address and a line a word, is assembled to the program again.
pub fn program_text_is_assembled(at: u32, words: &[u32])
    requires { IsProgram at words.now }
    ensures { Assembled (program_text at words.now) at words.now }
{}
