// Worked examples of the command, over a host in memory.
ghost use Rattle.std.specs.Prelude.{◌≤◌};

use conda_engine::{Status, conda};
use conda_host::MemoryHost;
use std::alloc::{AllocError, Global};

mod calls;
mod chip;
mod chip_programs;
mod ends;
mod examples;
mod faults;
mod filled;
mod programs;
mod refusals;
mod reports;
mod self_runs;
mod tries;
mod writers;

const ENTRY: u32 = 65536;

// The fields of the headers of a plain image, but for the entry and the sizes.
const FIRST: [u32; 6] = [0x464c_457f, 0x0001_0101, 0, 0, 0x00f3_0002, 1];

const MIDDLE: [u32; 8] = [52, 0, 0, 0x0020_0034, 1, 0, 1, 84];

// addi x10,x0,65; addi x17,x0,1003; ecall; addi x10,x0,0; addi x17,x0,93; ecall
const ONE_LETTER: [u32; 6] = [
    0x0410_0513,
    0x3eb0_0893,
    0x0000_0073,
    0x0000_0513,
    0x05d0_0893,
    0x0000_0073,
];

// The texts of six events of it.
const ORDER: &str = "s 0\ns 0\ns 0\ns 0\ns 0\ns 0\n";

const REPORT: &str =
    "events 6\noutput 1\nhart 0 exit 00000000 pc 00010014\nx11 00000001\nx17 0000005d\ncore 0 idle pc 00000000\n\
    traffic fill 0 back 0 down 0 drop 0 evict 0 corefill 0 merge 0\n";

// The words of a run, but for its configuration.
const WORDS: [&str; 9] = [
    "run",
    "--image=i",
    "--schedule",
    "s",
    "--order",
    "order",
    "--report=report",
    "--output",
    "output",
];

// What a host grants: bytes of room for each output, bytes for each call, and all calls but one, if that isn't 0.
#[derive(Clone, Copy)]
struct Grants {
    room: usize,
    most: usize,
    failing: u64,
    ghost some: { 1 ≤ most },
}

const AMPLE: Grants = Grants {
    room: 1000,
    most: 1000,
    failing: 0,
};

fn push_words(file: &mut Vec<u8>, words: &[u32]) -> Result<(), AllocError> {
    for word in words {
        file.extend_from_slice(&word.to_le_bytes())?;
    }
    Ok(())
}

fn plain(alloc: Global, words: &[u32]) -> Result<Vec<u8>, AllocError> {
    let size = (words.len() * 4 % 65536) as u32;
    let mut file = Vec::new(alloc);
    push_words(&mut file, &FIRST)?;
    push_words(&mut file, &[ENTRY])?;
    push_words(&mut file, &MIDDLE)?;
    push_words(&mut file, &[ENTRY, ENTRY, size, size, 7, 4])?;
    push_words(&mut file, words)?;
    Ok(file)
}

fn named(alloc: Global, names: &[&str]) -> Result<Vec<String>, AllocError> {
    let mut words = Vec::new(alloc);
    for name in names {
        words.push(String::from_str(alloc, name)?)?;
    }
    Ok(words)
}

// A host with a configuration, an image and a schedule.
fn host_with(
    alloc: Global,
    config: &[u8],
    image: Vec<u8>,
    schedule: &[u8],
    grants: Grants,
) -> Result<MemoryHost, AllocError> {
    let mut inputs = Vec::new(alloc);
    inputs.push((
        String::from_str(alloc, "c")?,
        Vec::from_slice(alloc, config)?,
    ))?;
    inputs.push((String::from_str(alloc, "i")?, image))?;
    let schedule = Vec::from_slice(alloc, schedule)?;
    inputs.push((String::from_str(alloc, "s")?, schedule))?;
    let mut outputs = Vec::new(alloc);
    outputs.push(String::from_str(alloc, "order")?)?;
    outputs.push(String::from_str(alloc, "report")?)?;
    outputs.push(String::from_str(alloc, "output")?)?;
    let mut numbers = Vec::new(alloc);
    numbers.push(grants.failing)?;
    MemoryHost::new(alloc, inputs, outputs, grants.room, grants.most, numbers)
}

// Runs an image by this command on a chip of this configuration.
fn run_by(
    alloc: Global,
    command: &str,
    config: &[u8],
    image: Vec<u8>,
    schedule: &[u8],
    grants: Grants,
) -> Result<(Status, MemoryHost), AllocError> {
    let mut words = named(alloc, &[command])?;
    for word in &WORDS[1..] {
        words.push(String::from_str(alloc, word)?)?;
    }
    words.push(String::from_str(alloc, "--config=c")?)?;
    let mut host = host_with(alloc, config, image, schedule, grants)?;
    let status = conda(alloc, &words, &mut host);
    Ok((status, host))
}

// Runs an image on a chip of this configuration.
fn run_on(
    alloc: Global,
    config: &[u8],
    image: Vec<u8>,
    schedule: &[u8],
    grants: Grants,
) -> Result<(Status, MemoryHost), AllocError> {
    run_by(alloc, "run", config, image, schedule, grants)
}

// Runs an image on the chip on which no key is set.
fn run(alloc: Global, image: Vec<u8>, schedule: &[u8]) -> Result<(Status, MemoryHost), AllocError> {
    run_on(alloc, b"{}", image, schedule, AMPLE)
}
