// Runs whose host fails.
ghost use Rattle.std.specs.Prelude.{◌≤◌};

use super::{Grants, ONE_LETTER, ORDER, REPORT, plain, run_on};
use conda_engine::Status;
use conda_host::{MemoryHost, Role};
use std::alloc::{AllocError, Global};
use std::test::Fail;

// A small memory, since one letter is run once for each call of the host.
const SMALL: &str = "{\"mem_bytes\":131072}";

// Runs one letter over a host that grants this much.
fn granted(alloc: Global, grants: Grants) -> Result<(Status, MemoryHost), AllocError> {
    let image = plain(alloc, &ONE_LETTER)?;
    run_on(alloc, SMALL.as_bytes(), image, b"h0 6", grants)
}

fn is_front(host: &MemoryHost, name: &str, text: &str) -> bool {
    match host.file(name) {
        Some(file) => text.as_bytes().starts_with(file),
        None => true,
    }
}

// The number of the first call that isn't made. Where a call before it fails, the run ends with a fault, and each file
// that was created holds a front of its text.
fn calls_made(alloc: Global, most: usize) -> Result<u64, Fail>
    requires { 1 ≤ most }
{
    for failing in 1..1000 {
        let grants = Grants {
            room: 1000,
            most,
            failing,
        };
        let (status, host) = granted(alloc, grants)?;
        match status {
            Status::Done => return Ok(failing),
            Status::ReadFault(_) | Status::WriteFault(_) => {}
            _ => return Err("another status".into()),
        }
        if !is_front(&host, "order", ORDER)
            || !is_front(&host, "report", REPORT)
            || !is_front(&host, "output", "A")
        {
            return Err("no front".into());
        }
    }
    Err("never done".into())
}

#[test]
fn each_call_fails_in_turn(rt: HostRuntime) -> Result<(), Fail> {
    let many = calls_made(rt.alloc(), 1000)?;
    assert!(rt; many > 13);
    Ok(())
}

#[test]
fn each_call_of_one_byte_fails_in_turn(rt: HostRuntime) -> Result<(), Fail> {
    let many = calls_made(rt.alloc(), 1)?;
    assert!(rt; many > 250);
    Ok(())
}

#[test]
fn faults_name_their_roles(rt: HostRuntime) -> Result<(), Fail> {
    let alloc = rt.alloc();
    let (status, _) = granted(
        alloc,
        Grants {
            room: 1000,
            most: 1000,
            failing: 1,
        },
    )?;
    assert_eq!(rt; status, Status::ReadFault(Role::Config));
    let (status, _) = granted(
        alloc,
        Grants {
            room: 1000,
            most: 1000,
            failing: 8,
        },
    )?;
    assert_eq!(rt; status, Status::WriteFault(Role::Order));
    let (status, _) = granted(
        alloc,
        Grants {
            room: 1000,
            most: 1000,
            failing: 11,
        },
    )?;
    assert_eq!(rt; status, Status::ReadFault(Role::Schedule));
    Ok(())
}

#[test]
fn no_room_for_the_order(rt: HostRuntime) -> Result<(), Fail> {
    let (status, host) = granted(
        rt.alloc(),
        Grants {
            room: 0,
            most: 1000,
            failing: 0,
        },
    )?;
    assert_eq!(rt; status, Status::WriteFault(Role::Order));
    assert_eq!(rt; host.file("order"), Some(b"".as_slice()));
    assert_eq!(rt; host.file("report"), None);
    Ok(())
}
