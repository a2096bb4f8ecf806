// Generated workloads, over a host in memory.
ghost use Rattle.std.specs.Prelude.{◌≤◌};
ghost use Rattle.schedule_log.specs.Verdict.{most_events};

use conda_engine::{Status, self_run};
use conda_host::{MemoryHost, Role};
use std::alloc::{AllocError, Global};
use std::test::Fail;

const SOME_EVENTS: u32 = 2000;

// The report's first lines where the first event is hart 1's `lui x5,32`.
const FIRST_LINES: &str =
    "events 1\noutput 0\nhart 0 run pc 00010000\nx11 00000002\nhart 1 run pc 00010004\nx5 00020000\nx10 00000001\nx11 00000002\n";

// Runs a workload over a host with this much room for the report.
fn run_seed(
    alloc: Global,
    seed: u64,
    events: u32,
    room: usize,
) -> Result<(Status, MemoryHost), AllocError>
    requires { events ≤ most_events }
{
    let mut outputs = Vec::new(alloc);
    outputs.push(String::from_str(alloc, "report")?)?;
    let mut host = MemoryHost::new(alloc, Vec::new(alloc), outputs, room, 1000, Vec::new(alloc))?;
    let status = self_run(alloc, seed, events, "report", &mut host);
    Ok((status, host))
}

fn begins_with(host: &MemoryHost, text: &str) -> bool {
    match host.file("report") {
        Some(report) => report.starts_with(text.as_bytes()),
        None => false,
    }
}

#[test]
fn a_run_is_reproduced(rt: HostRuntime) -> Result<(), Fail> {
    let alloc = rt.alloc();
    let (status, host) = run_seed(alloc, 1, SOME_EVENTS, 100_000)?;
    let (_, again) = run_seed(alloc, 1, SOME_EVENTS, 100_000)?;
    let (_, other) = run_seed(alloc, 2, SOME_EVENTS, 100_000)?;
    assert_eq!(rt; status, Status::Done);
    assert!(rt; begins_with(&host, "events 2000\n"));
    assert_eq!(rt; host.file("report"), again.file("report"));
    assert!(rt; host.file("report") != other.file("report"));
    Ok(())
}

#[test]
fn the_last_seed_and_one_event(rt: HostRuntime) -> Result<(), Fail> {
    let (status, host) = run_seed(rt.alloc(), 18_446_744_073_709_551_615, 1, 100_000)?;
    assert_eq!(rt; status, Status::Done);
    assert!(rt; begins_with(&host, FIRST_LINES));
    Ok(())
}

#[test]
fn a_full_report_is_a_fault(rt: HostRuntime) -> Result<(), Fail> {
    let (status, host) = run_seed(rt.alloc(), 1, 1, 10)?;
    assert_eq!(rt; status, Status::WriteFault(Role::Report));
    assert_eq!(rt; host.file("report"), Some(b"events 1\no".as_slice()));
    Ok(())
}
