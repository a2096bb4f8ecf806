// A program's image as text.
ghost use Rattle.std.specs.Prelude.{◌≡◌, ◌≢◌, IsTrue, Ok, ◌+◌, ◌-◌, ◌++◌, ◌∷◌, [], IfOk, IfErr, OnOk, take, drop, codes};
ghost use Rattle.std.specs.Fmt.{decimal};
ghost use Rattle.std.specs.List.{flat_map};
ghost use Rattle.conda_host.specs.State.{IsReading};
ghost use Rattle.conda_host.specs.declared.outside.Role.TheVariants as role;
ghost use Rattle.command_run.specs.Driving.{bytes_of_file};
ghost use Rattle.command_words.specs.Words.{program_named};
ghost use Rattle.command_answers.specs.Answers.{Answers};
ghost use Rattle.assembly_commands.specs.Disassembling.{IsDisEnd, bytes_behind, dis_command, dis_outcome, dis_text, line_of_word, range_at, program_image, text_said, words_in};
ghost use Rattle.assembly_commands.specs.Making.{IsMadeText, IsMakeError, IsSaidError};
ghost use Rattle.command_answers.specs.StatusText.{IsTold};
ghost use Rattle.assembly_commands.specs.TextLaws.{HasTextThatComesBackAtDone, IsTextThatComesBack};
ghost use Rattle.command_answers.specs.Verdict.{image_limit};
ghost use Rattle.rv32_hart.specs.Code.{IsCode};

use arrayvec::ArrayVec;
use chip_config::Config;
use command_answers::{IMAGE_LIMIT, Status, image_in, read_file, write_file};
use command_words::ProgramFiles;
use conda_base::{push_bytes, push_decimal};
use conda_host::{Host, Role};
use elf_loader::{Image, entry_can_be_fetched};
use rv32_dis::word_text;
use rv32_hart::Code;
use std::alloc::{AllocError, Global};

// The range that has the word at an address.
fn range_at(ranges: &[(u32, u32)], pc: u32) -> (u32, u32)
    ensures { result ≡ range_at ranges.now pc }
{
    for range in ranges {
        if range.0 <= pc && u64::from(pc) + 4 <= u64::from(range.0) + u64::from(range.1) {
            return *range;
        }
    }
    (pc, 0)
}

// Some of the bytes behind a place, or all of them where there are fewer.
fn bytes_at(bytes: &[u8], place: usize, count: usize) -> &[u8]
    ensures { result.now ≡ take count (drop place bytes.now) }
{
    if place > bytes.len() {
        return &[];
    }
    let behind = &bytes[place..];
    if count < behind.len() {
        &behind[..count]
    } else {
        behind
    }
}

// The bytes from an address to the end of its range.
fn bytes_behind(code: &Code, pc: u32) -> &[u8]
    ensures bytes { result.now ≡ bytes_behind code.now pc }
    ensures code { IsCode code.now }
{
    let (first, count) = range_at(code.ranges(), pc);
    let end = u64::from(first) + u64::from(count);
    let place = pc.saturating_sub(code.base());
    bytes_at(
        code.bytes(),
        place as usize,
        end.saturating_sub(u64::from(pc)) as usize,
    )
}

// Appends the line of a word.
fn push_word(text: &mut Vec<u8>, word: u32) -> Result<(), AllocError>
    ensures { OnOk result (text.new.items ≡ text.old.items ++ line_of_word word) }
{
    let mut line = ArrayVec::new();
    word_text(word, &mut line);
    text.extend_from_slice(line.as_slice())?;
    text.push(b'\n')?;
    Ok(())
}

// Appends the lines of the words of bytes.
fn push_words(text: &mut Vec<u8>, bytes: &[u8]) -> Result<(), AllocError>
    ensures { OnOk result (text.new.items
        ≡ text.old.items ++ flat_map line_of_word (words_in bytes.now)) }
{
    let mut rest = bytes;
    'words: while rest.len() >= 4 {
        let (word, after) = rest.split_at(4);
        push_word(
            text,
            u32::from_le_bytes([word[0], word[1], word[2], word[3]]),
        )?;
        rest = after;
    }
    Ok(())
}

// Appends the line of an address.
#[tactic(auto, using(conda_base::proofs::DecimalLemmas::length_decimal_word))]
fn push_address(text: &mut Vec<u8>, at: u32) -> Result<(), AllocError>
    ensures { OnOk result (text.new.items
        ≡ text.old.items ++ (codes ".at " ++ decimal at ++ 10 ∷ [])) }
{
    let mut line: ArrayVec<u8, 32> = ArrayVec::new();
    push_bytes(&mut line, b".at ");
    push_decimal(&mut line, u64::from(at));
    push_bytes(&mut line, b"\n");
    text.extend_from_slice(line.as_slice())?;
    Ok(())
}

// The text of an image.
fn text_of_image(alloc: Global, image: &Image) -> Result<Vec<u8>, AllocError>
    ensures text { IfOk result (λ text. text.items ≡ dis_text image.now) }
    ensures code { IfOk result (λ text. IsCode image.now.code) }
{
    let mut text = Vec::new(alloc);
    push_address(&mut text, image.entry())?;
    push_words(&mut text, bytes_behind(image.code(), image.entry()))?;
    Ok(text)
}

// The text that a program's bytes say, in the memory of a chip on which no key is set.
fn text_in(alloc: Global, bytes: &[u8]) -> Result<Vec<u8>, Status>
    ensures ok { IfOk result (λ text. text_said bytes.now ≡ Ok text.items) }
    ensures back { IfOk result (λ text. IsTextThatComesBack (program_image bytes.now) text.items) }
    ensures err { IfErr result (IsSaidError (text_said bytes.now)) }
    ensures end { IfErr result IsDisEnd }
    ensures told { IfErr result IsTold }
{
    let config = Config::plain();
    let image = image_in(alloc, &config, bytes)?;
    entry_can_be_fetched(bytes, config.mem_base, config.mem_bytes);
    let text = text_of_image(alloc, &image)?;
    Ok(text)
}

// The text of a program's file.
fn read_text<H: Host>(alloc: Global, program: &str, host: &mut H) -> Result<Vec<u8>, Status>
    ensures ok { IfOk result (λ text. IsMadeText text_said (H.state host.old) program.now
        image_limit text.items) }
    ensures back { IfOk result (λ text. IsTrue (H.state host.old).tells → IsTextThatComesBack
        (program_image (bytes_of_file (H.state host.old) program.now)) text.items) }
    ensures err { IfErr result (IsMakeError text_said (H.state host.old) (H.state host.new)
        role.Program program.now image_limit) }
    ensures end { IfErr result IsDisEnd }
    ensures told { IfErr result IsTold }
    ensures rest { IsReading (H.state host.old) (H.state host.new) role.Program }
{
    let bytes = read_file(alloc, host, Role::Program, program, IMAGE_LIMIT)?;
    text_in(alloc, &bytes)
}

/// Writes the text of a program.
pub fn dis<H: Host>(alloc: Global, files: &ProgramFiles, host: &mut H) -> Status
    ensures answers { Answers (dis_command (program_named files.now))
        (dis_outcome (bytes_of_file (H.state host.old) files.now.program.now)) (H.state host.old)
        (H.state host.new) result }
    ensures back { HasTextThatComesBackAtDone (program_named files.now) (H.state host.old)
        (H.state host.new) result }
    ensures end { IsDisEnd result }
    ensures told { IsTold result }
    ensures known { result ≢ Status.Usage }
{
    match read_text(alloc, files.program, host) {
        Ok(text) => write_file(host, Role::Source, files.source, &text),
        Err(status) => status,
    }
}
