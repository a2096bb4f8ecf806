// A program's text as an image.
ghost use Rattle.std.specs.Prelude.{◌≡◌, ◌≢◌, ℕ, List, Ok, IfOk, IfErr};
ghost use Rattle.conda_host.specs.State.{IsReading};
ghost use Rattle.conda_host.specs.declared.outside.Role.TheVariants as role;
ghost use Rattle.command_words.specs.Words.{program_named};
ghost use Rattle.assembly_commands.specs.Assembling.{AsmAnswers, IsAsmEnd, image_read, source_limit};
ghost use Rattle.rv32_asm.specs.Faults.{IsFault};
ghost use Rattle.assembly_commands.specs.Making.{IsMadeText, IsMakeError, IsSaidError};
ghost use Rattle.command_answers.specs.StatusText.{IsTold};
ghost use Rattle.assembly_commands.specs.TextLaws.{HasLoadableImageAtDone};

use command_answers::{SOURCE_LIMIT, Status, read_file, write_file};
use command_words::ProgramFiles;
use conda_host::{Host, Role};
use rv32_asm::{AsmFault, assemble, plain};
use std::alloc::Global;

// How a text that is no program ends the command.
fn status_of_source(fault: AsmFault) -> Status
    ensures said { (text : List ℕ) → IsFault text fault → IsSaidError (image_read text) result }
    ensures end { IsAsmEnd result }
    ensures told { IsTold result }
{
    match fault {
        AsmFault::Bad { line, why } => Status::Syntax { line, why },
        AsmFault::OutOfMemory => Status::OutOfMemory,
    }
}

// The image that a text says.
fn image_in(alloc: Global, text: &[u8]) -> Result<Vec<u8>, Status>
    ensures ok { IfOk result (λ image. image_read text.now ≡ Ok image.items) }
    ensures err { IfErr result (IsSaidError (image_read text.now)) }
    ensures end { IfErr result IsAsmEnd }
    ensures told { IfErr result IsTold }
{
    match assemble(alloc, text) {
        Ok(program) => Ok(plain(alloc, &program)?),
        Err(fault) => Err(status_of_source(fault)),
    }
}

// The image of a text's file.
fn read_image<H: Host>(alloc: Global, source: &str, host: &mut H) -> Result<Vec<u8>, Status>
    ensures ok { IfOk result (λ image. IsMadeText image_read (H.state host.old) source.now
        source_limit image.items) }
    ensures err { IfErr result (IsMakeError image_read (H.state host.old) (H.state host.new)
        role.Source source.now source_limit) }
    ensures end { IfErr result IsAsmEnd }
    ensures told { IfErr result IsTold }
    ensures rest { IsReading (H.state host.old) (H.state host.new) role.Source }
{
    let text = read_file(alloc, host, Role::Source, source, SOURCE_LIMIT)?;
    image_in(alloc, &text)
}

/// Writes the image of a program.
pub fn asm<H: Host>(alloc: Global, files: &ProgramFiles, host: &mut H) -> Status
    ensures answers { AsmAnswers (program_named files.now) (H.state host.old) (H.state host.new)
        result }
    ensures loadable { HasLoadableImageAtDone (program_named files.now) (H.state host.old)
        (H.state host.new) result }
    ensures end { IsAsmEnd result }
    ensures told { IsTold result }
    ensures known { result ≢ Status.Usage }
{
    match read_image(alloc, files.source, host) {
        Ok(image) => write_file(host, Role::Program, files.program, &image),
        Err(status) => status,
    }
}
