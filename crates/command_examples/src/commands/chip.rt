// What the worked examples of the chip are, and how runs are compared with them.
use super::chip_programs::Program;
use super::{Grants, plain, run_by};
use conda_engine::Status;
use conda_host::MemoryHost;
use std::alloc::{AllocError, Global};

/// A text in pieces: words, and so many digits 0 after them.
pub type Text = &'static [(&'static str, usize)];

/// A run that ends well: keys beside that of a small memory, a program and a schedule; then its
/// order, as numbers of equal lines, some lines of its report, a word that its report lacks, and
/// its output.
pub struct Example {
    pub keys: &'static str,
    pub program: Program,
    pub schedule: &'static str,
    pub order: &'static [(usize, &'static str)],
    pub lines: &'static [Text],
    pub absent: &'static str,
    pub output: &'static str,
}

/// Room for the longest order.
pub const GRANTS: Grants = Grants {
    room: 30_000,
    most: 1000,
    failing: 0,
};

// Puts the words of a piece behind zeros up to its offset.
fn put_piece(words: &mut Vec<u32>, offset: usize, piece: &[u32]) -> Result<(), AllocError> {
    words.resize(offset / 4, 0)?;
    words.extend_from_slice(piece)?;
    Ok(())
}

/// The image of a program.
pub fn image_of(alloc: Global, program: &[(usize, &[u32])]) -> Result<Vec<u8>, AllocError> {
    let mut words = Vec::new(alloc);
    for (offset, piece) in program {
        put_piece(&mut words, *offset, piece)?;
    }
    plain(alloc, &words)
}

/// A memory of 132 KiB, so that a look over all of it is short, and these keys.
pub fn config_of(alloc: Global, keys: &str) -> Result<Vec<u8>, AllocError> {
    let mut config = Vec::from_slice(alloc, b"{\"mem_bytes\":135168")?;
    config.extend_from_slice(keys.as_bytes())?;
    config.push(b'}')?;
    Ok(config)
}

fn push_zeros(text: &mut Vec<u8>, count: usize) -> Result<(), AllocError> {
    for _ in 0..count {
        text.push(b'0')?;
    }
    Ok(())
}

/// Appends a text in pieces.
pub fn push_text(text: &mut Vec<u8>, pieces: &[(&str, usize)]) -> Result<(), AllocError> {
    for (words, zeros) in pieces {
        text.extend_from_slice(words.as_bytes())?;
        push_zeros(text, *zeros)?;
    }
    Ok(())
}

fn push_line(text: &mut Vec<u8>, line: &str) -> Result<(), AllocError> {
    text.extend_from_slice(line.as_bytes())?;
    text.push(b'\n')?;
    Ok(())
}

fn push_lines(text: &mut Vec<u8>, count: usize, line: &str) -> Result<(), AllocError> {
    for _ in 0..count {
        push_line(text, line)?;
    }
    Ok(())
}

fn order_of(alloc: Global, lines: &[(usize, &str)]) -> Result<Vec<u8>, AllocError> {
    let mut text = Vec::new(alloc);
    for (count, line) in lines {
        push_lines(&mut text, *count, line)?;
    }
    Ok(text)
}

fn holds(text: &[u8], part: &[u8]) -> bool {
    for place in 0..text.len() {
        if text[place..].starts_with(part) {
            return true;
        }
    }
    false
}

/// Whether a report has a whole line, or several that follow one another, of this text.
pub fn has_line(alloc: Global, report: &[u8], line: &[(&str, usize)]) -> Result<bool, AllocError> {
    let mut text = vec![in alloc; b'\n']?;
    push_text(&mut text, line)?;
    text.push(b'\n')?;
    Ok(holds(report, &text))
}

fn has_lines(alloc: Global, report: &[u8], lines: &[&[(&str, usize)]]) -> Result<bool, AllocError> {
    for line in lines {
        if !has_line(alloc, report, line)? {
            return Ok(false);
        }
    }
    Ok(true)
}

fn run_example(
    alloc: Global,
    command: &str,
    example: &Example,
) -> Result<(Status, MemoryHost), AllocError> {
    let config = config_of(alloc, example.keys)?;
    let image = image_of(alloc, example.program)?;
    let schedule = example.schedule.as_bytes();
    run_by(alloc, command, &config, image, schedule, GRANTS)
}

/// Whether a run left the order of these numbers of equal lines.
pub fn has_order(
    alloc: Global,
    host: &MemoryHost,
    lines: &[(usize, &str)],
) -> Result<bool, AllocError> {
    let order = order_of(alloc, lines)?;
    Ok(host.file("order") == Some(order.as_slice()))
}

fn has_report(alloc: Global, host: &MemoryHost, example: &Example) -> Result<bool, AllocError> {
    // A line feed before the first line, so that each line has one before it.
    let mut report = vec![in alloc; b'\n']?;
    report.extend_from_slice(host.file("report").unwrap_or_default())?;
    Ok(has_lines(alloc, &report, example.lines)? && !holds(&report, example.absent.as_bytes()))
}

// Whether a run by this command gives what the example says.
fn is_as_told(alloc: Global, command: &str, example: &Example) -> Result<bool, AllocError> {
    let (status, host) = run_example(alloc, command, example)?;
    Ok(
        status == Status::Done
            && has_order(alloc, &host, example.order)?
            && has_report(alloc, &host, example)?
            && host.file("output") == Some(example.output.as_bytes()),
    )
}

/// The place of the first example that another thing comes of by this command.
pub fn first_other_by(
    alloc: Global,
    command: &str,
    examples: &[Example],
) -> Result<Option<usize>, AllocError> {
    for (place, example) in examples.iter().enumerate() {
        if !is_as_told(alloc, command, example)? {
            return Ok(Some(place));
        }
    }
    Ok(None)
}

/// The place of the first example that another thing comes of by `run`.
pub fn first_other(alloc: Global, examples: &[Example]) -> Result<Option<usize>, AllocError> {
    first_other_by(alloc, "run", examples)
}
