// Worked examples of a chip's runs, over a host in memory.
ghost use Rattle.std.specs.Prelude.{◌≡◌, ◌≤◌, None};
ghost use Rattle.command_run.specs.Names.{HaveDistinctNames, run_names};

use chip_config::Config;
use chip_core::Chip;
use command_run::{RunNames, carry_out};
use conda_host::{MemoryHost, Role};
use elf_loader::load;
use machine_run::{Ending, Task};
use std::alloc::{AllocError, Global};
use std::test::Fail;
use streams::Fault;

// An executable of six words at 65536: addi x10,x0,65; addi x17,x0,1003; ecall; addi x10,x0,0; addi x17,x0,93; ecall.
const ONE_LETTER: [u8; 108] = [
    0x7f, b'E', b'L', b'F', 1, 1, 1, 0, 0, 0, 0, 0, 0, 0, 0, 0, // identification
    2, 0, 243, 0, 1, 0, 0, 0, // an executable for RISC-V
    0, 0, 1, 0, 52, 0, 0, 0, 0, 0, 0, 0, 0, 0, 0, 0, // entry, program headers, sections, flags
    52, 0, 32, 0, 1, 0, 0, 0, 0, 0, 0, 0, // sizes and numbers
    1, 0, 0, 0, 84, 0, 0, 0, 0, 0, 1, 0, 0, 0, 1, 0, // PT_LOAD, offset, addresses
    24, 0, 0, 0, 24, 0, 0, 0, 7, 0, 0, 0, 4, 0, 0, 0, // sizes, flags, alignment
    0x13, 0x05, 0x10, 0x04, 0x93, 0x08, 0xb0, 0x3e, 0x73, 0, 0, 0, //
    0x13, 0x05, 0, 0, 0x93, 0x08, 0xd0, 0x05, 0x73, 0, 0, 0,
];

// A chip of one hart and one core.
fn chip(alloc: Global) -> Result<Chip, Fail> {
    let config = Config::plain();
    let image = load(alloc, &ONE_LETTER, config.mem_base, config.mem_bytes)
        .ok()
        .ok_or("image")?;
    Ok(Chip::new(alloc, &config, image)?)
}

// A host with the schedule "s", and so much room for each of two files.
fn host_over(
    alloc: Global,
    schedule: &[u8],
    room: usize,
    most: usize,
) -> Result<MemoryHost, AllocError>
    requires { 1 ≤ most }
{
    let mut inputs = Vec::new(alloc);
    let name = String::from_str(alloc, "s")?;
    inputs.push((name, Vec::from_slice(alloc, schedule)?))?;
    let mut outputs = Vec::new(alloc);
    outputs.push(String::from_str(alloc, "order")?)?;
    outputs.push(String::from_str(alloc, "report")?)?;
    MemoryHost::new(alloc, inputs, outputs, room, most, Vec::new(alloc))
}

fn names() -> RunNames<'static>
    ensures apart { HaveDistinctNames (run_names result) }
    ensures none { (run_names result).output ≡ None }
{
    RunNames {
        schedule: "s",
        order: "order",
        report: "report",
        output: None,
    }
}

// What a schedule's run answers, and the host after it.
fn ran(
    alloc: Global,
    schedule: &[u8],
    room: usize,
    most: usize,
) -> Result<(Result<Ending, Fault>, MemoryHost), Fail>
    requires { 1 ≤ most }
{
    let mut host = host_over(alloc, schedule, room, most)?;
    let mut task = Task::new(alloc, chip(alloc)?, false)?;
    let ending = carry_out(&names(), &mut task, &mut host);
    Ok((ending, host))
}

#[test]
fn one_letter_byte_by_byte(rt: HostRuntime) -> Result<(), Fail> {
    let (ending, host) = ran(rt.alloc(), b"h0 6", 1000, 1)?;
    assert_eq!(rt; ending, Ok(Ending::Whole));
    let order = b"s 0\ns 0\ns 0\ns 0\ns 0\ns 0\n".as_slice();
    assert_eq!(rt; host.file("order"), Some(order));
    Ok(())
}

#[test]
fn one_event_past_the_exit(rt: HostRuntime) -> Result<(), Fail> {
    let (ending, host) = ran(rt.alloc(), b"h0 7\n", 1000, 7)?;
    assert_eq!(rt; ending, Ok(Ending::Whole));
    let order = b"s 0\ns 0\ns 0\ns 0\ns 0\ns 0\n- h0\n".as_slice();
    assert_eq!(rt; host.file("order"), Some(order));
    Ok(())
}

#[test]
fn a_bad_line_ends_the_run_with_no_report(rt: HostRuntime) -> Result<(), Fail> {
    let (ending, host) = ran(rt.alloc(), b"h0 1\nh9 1\n", 1000, 1000)?;
    assert_eq!(rt; ending, Ok(Ending::BadLine { line: 2, why: 3 }));
    assert_eq!(rt; host.file("order"), Some(b"s 0\n".as_slice()));
    assert_eq!(rt; host.file("report"), None);
    Ok(())
}

#[test]
fn a_full_file_is_a_fault(rt: HostRuntime) -> Result<(), Fail> {
    let (ending, host) = ran(rt.alloc(), b"h0 6\n", 6, 1000)?;
    assert_eq!(rt; ending, Err(Fault::Write(Role::Order)));
    assert_eq!(rt; host.file("order"), Some(b"s 0\ns ".as_slice()));
    Ok(())
}
