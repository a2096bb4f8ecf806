// The layer as commands use it, over a host in memory.
ghost use Rattle.std.specs.Prelude.{◌≤◌};

mod memory;
mod uses;

use conda_host::{MemoryHost, Role};
use memory::MemorySource;
use std::alloc::{AllocError, Global};
use std::test::Fail;
use streams::{Fault, MOST_PUT, Sink, put_all};
use uses::{copy_all, copy_file, read_front, write_file};

// A text that is longer than a sink's buffer.
const LONG: &[u8] = b"h0 1\nh0 22\nn0 333\nh1 4444\nh2 55555\nh3 666666\nh4 7\nh5 8\nh6 99\nh7 1\n";

// A host with the inputs "long" and "short", and room for so many bytes of a file "out".
fn host_over(
    alloc: Global,
    room: usize,
    most: usize,
    failing: Vec<u64>,
) -> Result<MemoryHost, AllocError>
    requires { 1 ≤ most }
{
    let mut inputs = Vec::new(alloc);
    let long = String::from_str(alloc, "long")?;
    inputs.push((long, Vec::from_slice(alloc, LONG)?))?;
    let short = String::from_str(alloc, "short")?;
    inputs.push((short, Vec::from_slice(alloc, b"h0 9\n")?))?;
    let mut outputs = Vec::new(alloc);
    outputs.push(String::from_str(alloc, "out")?)?;
    MemoryHost::new(alloc, inputs, outputs, room, most, failing)
}

#[test]
fn a_source_goes_through_a_sink(rt: HostRuntime) -> Result<(), Fail> {
    let alloc = rt.alloc();
    let mut host = host_over(alloc, 100, 7, Vec::new(alloc))?;
    let sink = Sink::new(alloc, Role::Program, MOST_PUT)?;
    assert_eq!(rt; copy_file(&mut host, sink, "long", "out"), Ok(true));
    assert_eq!(rt; host.file("out"), Some(LONG));
    Ok(())
}

#[test]
fn a_full_file_is_a_fault_of_its_role(rt: HostRuntime) -> Result<(), Fail> {
    let alloc = rt.alloc();
    let mut host = host_over(alloc, 3, 100, Vec::new(alloc))?;
    let sink = Sink::new(alloc, Role::Program, MOST_PUT)?;
    let copied = copy_file(&mut host, sink, "short", "out");
    assert_eq!(rt; copied, Err(Fault::Write(Role::Program)));
    assert_eq!(rt; host.file("out"), Some(b"h0 ".as_slice()));
    Ok(())
}

#[test]
fn a_text_goes_through_a_sink_alone(rt: HostRuntime) -> Result<(), Fail> {
    let alloc = rt.alloc();
    let mut host = host_over(alloc, 100, 7, Vec::new(alloc))?;
    let sink = Sink::new(alloc, Role::Program, MOST_PUT)?;
    assert_eq!(rt; write_file(&mut host, sink, LONG, "out"), Ok(()));
    assert_eq!(rt; host.file("out"), Some(LONG));
    let sink = Sink::new(alloc, Role::Program, MOST_PUT)?;
    let mut host = host_over(alloc, 3, 7, Vec::new(alloc))?;
    let written = write_file(&mut host, sink, LONG, "out");
    assert_eq!(rt; written, Err(Fault::Write(Role::Program)));
    assert_eq!(rt; host.file("out"), Some(b"h0 ".as_slice()));
    Ok(())
}

#[test]
fn two_sources_are_read_beside_no_sink(rt: HostRuntime) -> Result<(), Fail> {
    let alloc = rt.alloc();
    let mut host = host_over(alloc, 0, 100, Vec::new(alloc))?;
    let mut buf = [0u8; 5];
    assert_eq!(rt; read_front(&mut host, Role::Order, "long", &mut buf), Ok(5));
    assert_eq!(rt; &buf, b"h0 1\n");
    assert_eq!(rt;
        read_front(&mut host, Role::Report, "short", &mut buf),
        Ok(5)
    );
    assert_eq!(rt; &buf, b"h0 9\n");
    Ok(())
}

#[test]
fn a_source_is_read_again_from_its_start(rt: HostRuntime) -> Result<(), Fail> {
    let alloc = rt.alloc();
    let mut host = host_over(alloc, 0, 100, Vec::new(alloc))?;
    for _ in 0..3 {
        let mut buf = [0u8; 4];
        assert_eq!(rt;
            read_front(&mut host, Role::Schedule, "short", &mut buf),
            Ok(4)
        );
        assert_eq!(rt; &buf, b"h0 9");
    }
    let mut buf = [0u8; 4];
    let failed = read_front(&mut host, Role::Schedule, "none", &mut buf);
    assert_eq!(rt; failed, Err(Fault::Read(Role::Schedule)));
    Ok(())
}

#[test]
fn a_source_in_memory_needs_no_host(rt: HostRuntime) -> Result<(), Fail> {
    let mut source = MemorySource::new(LONG);
    assert_eq!(rt; copy_all(&mut source, Role::Order, 1), Ok(false));
    assert_eq!(rt; copy_all(&mut source, Role::Order, 2), Ok(true));
    assert_eq!(rt; put_all(&mut source, Role::Report, LONG), Ok(()));
    Ok(())
}
