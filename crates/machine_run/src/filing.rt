// A schedule is run over a host.
ghost use Rattle.std.specs.Prelude.{◌≡◌, ◌<◌, [], IsTrue, length};
ghost use Rattle.conda_host.specs.declared.outside.Role.TheVariants as role;
ghost use Rattle.chip_laws.specs.Design.{Design};
ghost use Rattle.streams.specs.Seen.{fault_in};
ghost use Rattle.streams.specs.Streaming.{AreOpen, IsLed, has_sink, seen_over};
ghost use Rattle.machine_run.specs.Filing.{IsNew, RunsFiles};

use crate::task::Task;
use crate::{Ending, Machine, Run, run_schedule};
use conda_host::{Host, Role};
use streams::{Fault, Files, Streams};

// Runs a schedule over files, and writes the rest of all texts.
fn run_over<M: Machine, H: Host>(
    run: &mut Run<M>,
    files: &mut Files<'_, H>,
    buffer: &mut [u8],
) -> Result<Ending, Fault>
    requires some { 0 < length buffer.old }
    requires new { IsNew (seen_over
        (H.state files.old.host.now) files.old.source files.old.sinks.now) run.old }
    ensures runs { (d : Design) → M.stands d run.old.machine [] → IsTrue
        (H.state files.old.host.now).tells
        → RunsFiles ⟦<M as Machine>⟧ d ((H.state files.old.host.now).role files.old.source).left
        (H.state files.new.host.now) (has_sink files.new.sinks.now) run.new result }
    ensures same_host { files.new.host.ghost_name ≡ files.old.host.ghost_name }
    ensures same_sinks { files.new.sinks.ghost_name ≡ files.old.sinks.ghost_name }
    ensures led { IsLed files.old.source files.old.sinks.now files.new.sinks.now
        (H.state files.old.host.now) (H.state files.new.host.now) (fault_in result) }
{
    let ending = run_schedule(run, files, buffer)?;
    files.finish()?;
    Ok(ending)
}

/// Runs an opened schedule, and writes order and output into files that were made for them.
pub fn run_files<M: Machine, H: Host>(task: &mut Task<M>, host: &mut H) -> Result<Ending, Fault>
    requires open { AreOpen (H.state host.old) role.Schedule task.old.sinks }
    requires new { IsNew (seen_over (H.state host.old) role.Schedule task.old.sinks) task.old.run }
    ensures runs { (d : Design) → M.stands d task.old.run.machine [] → IsTrue
        (H.state host.old).tells
        → RunsFiles ⟦<M as Machine>⟧ d ((H.state host.old).role role.Schedule).left
        (H.state host.new) (has_sink task.new.sinks) task.new.run result }
    ensures report { task.new.report ≡ task.old.report }
    ensures led { IsLed role.Schedule task.old.sinks task.new.sinks (H.state host.old)
        (H.state host.new) (fault_in result) }
{
    let mut files = Files::new(host, Role::Schedule, &mut task.sinks);
    run_over(&mut task.run, &mut files, &mut task.buffer)
}
