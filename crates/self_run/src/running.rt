// The events of a generated workload are run.
ghost use Rattle.std.specs.Prelude.{◌≡◌, ◌≤◌, IfOk};
ghost use Rattle.schedule_log.specs.Verdict.{most_events};
ghost use Rattle.self_workload.specs.Workload.{events_of_seed};
ghost use Rattle.self_run.specs.Designs.{design_of_seed};
ghost use Rattle.self_run.specs.Generated.{HasRunFirst, IsAtEvent};

use crate::generated::Generated;
use machine_run::{Machine, Run, Simulator};
use std::alloc::{AllocError, Global};

// Runs the first events.
fn run_first<M: Machine>(generated: &mut Generated<M>, count: u32)
    requires at { IsAtEvent ⟦<M as Machine>⟧ 0 generated.old }
    requires few { count ≤ most_events }
    ensures seed { generated.new.seed ≡ generated.old.seed }
    ensures at { IsAtEvent ⟦<M as Machine>⟧ count generated.new }
{
    for _ in 0..count {
        generated.step();
    }
}

/// Makes the machine of a seed, and runs the first events of its workload. All memory is taken
/// before the first of them.
pub fn run_workload<M: Simulator>(
    alloc: Global,
    seed: u64,
    count: u32,
) -> Result<Run<M>, AllocError>
    requires { count ≤ most_events }
    ensures ran { IfOk result (HasRunFirst ⟦<M as Machine>⟧ seed count) }

    // What holds of all events that a machine stands for holds of these.
    ensures lawful { IfOk result (λ run. M.law (design_of_seed seed) (events_of_seed seed count)) }
{
    let mut generated = Generated::new(alloc, seed)?;
    run_first(&mut generated, count);
    Ok(generated.run)
}
