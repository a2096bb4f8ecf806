// Short runs of generated workloads on a chip.
ghost use Rattle.std.specs.Prelude.{◌≤◌};
ghost use Rattle.schedule_log.specs.Verdict.{most_events};

use chip_core::Chip;
use machine_run::Run;
use self_run::run_workload;
use std::alloc::{AllocError, Global};
use std::test::Fail;

// The numbers of events and of output bytes of a run.
fn counts(alloc: Global, seed: u64, count: u32) -> Result<(u64, u64), AllocError>
    requires { count ≤ most_events }
{
    let run: Run<Chip> = run_workload(alloc, seed, count)?;
    Ok((run.events, run.output_bytes))
}

#[test]
fn short_runs_put_nothing(rt: HostRuntime) -> Result<(), Fail> {
    let alloc = rt.alloc();
    assert_eq!(rt; counts(alloc, 1, 0)?, (0, 0));
    assert_eq!(rt; counts(alloc, 0, 1)?, (1, 0));
    assert_eq!(rt; counts(alloc, 18_446_744_073_709_551_615, 40)?, (40, 0));
    Ok(())
}
