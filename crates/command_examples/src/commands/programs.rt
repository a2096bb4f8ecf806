// Worked examples of the assembler and the disassembler, over a host in memory.
use super::{ONE_LETTER, named, plain};
use conda_engine::{Status, conda};
use conda_host::MemoryHost;
use elf_loader::ImageFault;
use std::alloc::{AllocError, Global};
use std::test::Fail;

// Runs a command that makes the file `new` of the file `old`.
fn make(alloc: Global, words: &[&str], old: &[u8]) -> Result<(Status, MemoryHost), AllocError> {
    let mut inputs = Vec::new(alloc);
    let bytes = Vec::from_slice(alloc, old)?;
    inputs.push((String::from_str(alloc, "old")?, bytes))?;
    let mut outputs = Vec::new(alloc);
    outputs.push(String::from_str(alloc, "new")?)?;
    let words = named(alloc, words)?;
    let mut host = MemoryHost::new(alloc, inputs, outputs, 1000, 7, Vec::new(alloc))?;
    let status = conda(alloc, &words, &mut host);
    Ok((status, host))
}

fn assemble(alloc: Global, text: &[u8]) -> Result<(Status, MemoryHost), AllocError> {
    make(alloc, &["asm", "--source=old", "--program", "new"], text)
}

fn disassemble(alloc: Global, image: &[u8]) -> Result<(Status, MemoryHost), AllocError> {
    make(alloc, &["dis", "--source=new", "--program", "old"], image)
}

// The lines of a loop, and its words.
const LOOP: &[u8] = b"loop: addi x5,x5,-1 # count\nbne x5,x0,loop\n";

const LOOP_WORDS: [u32; 2] = [0xfff2_8293, 0xfe02_9ee3];

#[test]
fn a_text_is_assembled(rt: HostRuntime) -> Result<(), Fail> {
    let (status, host) = assemble(rt.alloc(), LOOP)?;
    assert_eq!(rt; status, Status::Done);
    let image = plain(rt.alloc(), &LOOP_WORDS)?;
    assert_eq!(rt; image.len(), 92);
    assert_eq!(rt; host.file("new"), Some(image.as_slice()));
    Ok(())
}

#[test]
fn an_image_is_disassembled(rt: HostRuntime) -> Result<(), Fail> {
    let image = plain(rt.alloc(), &LOOP_WORDS)?;
    let (status, host) = disassemble(rt.alloc(), &image)?;
    assert_eq!(rt; status, Status::Done);
    assert_eq!(rt;
        host.file("new"),
        Some(b".at 65536\naddi x5,x5,-1\nbne x5,x0,-4\n".as_slice())
    );
    Ok(())
}

#[test]
fn one_letter_comes_back(rt: HostRuntime) -> Result<(), Fail> {
    let image = plain(rt.alloc(), &ONE_LETTER)?;
    let (_, host) = disassemble(rt.alloc(), &image)?;
    let text = host.file("new").ok_or("no text")?;
    let (status, host) = assemble(rt.alloc(), text)?;
    assert_eq!(rt; status, Status::Done);
    assert_eq!(rt; host.file("new"), Some(image.as_slice()));
    Ok(())
}

// Texts whose first line, or the one behind the last, is bad, and why.
const BAD: [(&[u8], u8); 3] = [(b"addi x5,x5,2048", 2), (b"jal x0,end", 3), (b"", 6)];

#[test]
fn a_bad_line_makes_no_image(rt: HostRuntime) -> Result<(), Fail> {
    for (text, why) in &BAD {
        let (status, host) = assemble(rt.alloc(), text)?;
        assert_eq!(rt; status, Status::Syntax { line: 1, why: *why });
        assert_eq!(rt; status.code(), 13);
        assert_eq!(rt; host.file("new"), None);
    }
    Ok(())
}

#[test]
fn a_refused_image_makes_no_text(rt: HostRuntime) -> Result<(), Fail> {
    let (status, host) = disassemble(rt.alloc(), b"")?;
    assert_eq!(rt; status, Status::Image(ImageFault::Short));
    assert_eq!(rt; host.file("new"), None);
    Ok(())
}
