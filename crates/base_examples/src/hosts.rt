// Worked examples over a host in memory.
ghost use Rattle.std.specs.Prelude.{◌≤◌};

use conda_host::{Host, HostFailed, MemoryHost, ReadError, Role, read_all, read_up_to, write_all};
use std::alloc::{AllocError, Global};
use std::test::Fail;

// A host with the input "in", which holds "hello", and an output "out" with room for eight bytes.
fn host_over(alloc: Global, most: usize, failing: Vec<u64>) -> Result<MemoryHost, AllocError>
    requires { 1 ≤ most }
{
    let mut inputs = Vec::new(alloc);
    let name = String::from_str(alloc, "in")?;
    let bytes = Vec::from_slice(alloc, b"hello")?;
    inputs.push((name, bytes))?;
    let mut outputs = Vec::new(alloc);
    outputs.push(String::from_str(alloc, "out")?)?;
    MemoryHost::new(alloc, inputs, outputs, 8, most, failing)
}

#[test]
fn a_file_is_read_to_its_end(rt: HostRuntime) -> Result<(), Fail> {
    let alloc = rt.alloc();
    let mut host = host_over(alloc, 1, Vec::new(alloc))?;
    host.open(Role::Config, "in").map_err(|_| "open")?;
    let bytes = read_all(alloc, &mut host, Role::Config, 5).map_err(|_| "read")?;
    assert_eq!(rt; bytes.as_slice(), b"hello".as_slice());
    assert_eq!(rt; host.file("in"), Some(b"hello".as_slice()));
    Ok(())
}

#[test]
fn a_limit_ends_the_reading(rt: HostRuntime) -> Result<(), Fail> {
    let alloc = rt.alloc();
    let mut host = host_over(alloc, 2, Vec::new(alloc))?;
    host.open(Role::Image, "in").map_err(|_| "open")?;
    let prefix = read_up_to(alloc, &mut host, Role::Image, 3).map_err(|_| "read")?;
    assert_eq!(rt; prefix.bytes.as_slice(), b"hel".as_slice());
    assert!(rt; prefix.more);
    host.open(Role::Image, "in").map_err(|_| "open")?;
    let whole = read_all(alloc, &mut host, Role::Image, 4);
    assert_eq!(rt; whole, Err(ReadError::TooLarge));
    Ok(())
}

#[test]
fn a_text_is_written_whole(rt: HostRuntime) -> Result<(), Fail> {
    let alloc = rt.alloc();
    let mut host = host_over(alloc, 1, Vec::new(alloc))?;
    assert_eq!(rt; host.file("out"), None);
    host.create(Role::Order, "out").map_err(|_| "create")?;
    write_all(&mut host, Role::Order, b"abc").map_err(|_| "write")?;
    assert_eq!(rt; host.file("out"), Some(b"abc".as_slice()));
    Ok(())
}

#[test]
fn a_full_room_is_a_fault(rt: HostRuntime) -> Result<(), Fail> {
    let alloc = rt.alloc();
    let mut host = host_over(alloc, 100, Vec::new(alloc))?;
    host.create(Role::Output, "out").map_err(|_| "create")?;
    let written = write_all(&mut host, Role::Output, b"123456789");
    assert_eq!(rt; written, Err(HostFailed));
    assert_eq!(rt; host.file("out"), Some(b"12345678".as_slice()));
    Ok(())
}

#[test]
fn chosen_calls_fail(rt: HostRuntime) -> Result<(), Fail> {
    let alloc = rt.alloc();
    let mut failing = Vec::new(alloc);
    failing.push(2)?;
    let mut host = host_over(alloc, 9, failing)?;
    assert_eq!(rt; host.open(Role::Source, "in"), Ok(()));
    assert_eq!(rt; host.open(Role::Source, "in"), Err(HostFailed));
    assert_eq!(rt; host.open(Role::Source, "none"), Err(HostFailed));
    assert_eq!(rt; host.create(Role::Program, "in"), Err(HostFailed));
    Ok(())
}
