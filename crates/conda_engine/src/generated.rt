// The command that runs a generated workload.
ghost use Rattle.std.specs.Prelude.{◌≡◌, ◌≤◌, ℕ, IfOk, IsOk};
ghost use Rattle.chip_laws.specs.Lawful.{AreLawful};
ghost use Rattle.machine_run.specs.Tasks.{AreReportSinks};
ghost use Rattle.run_report.specs.Texts.{report_text};
ghost use Rattle.schedule_log.specs.Verdict.{most_events};
ghost use Rattle.self_run.specs.Designs.{design_of_seed};
ghost use Rattle.self_run.specs.Generated.{HasRunFirst};
ghost use Rattle.self_workload.specs.Workload.{events_of_seed};
ghost use Rattle.command_answers.specs.Answers.{Answers};
ghost use Rattle.conda_engine.specs.Ends.{account_of};
ghost use Rattle.conda_engine.specs.Machines.{chip_account};
ghost use Rattle.command_answers.specs.LastFile.{text_outcome};
ghost use Rattle.conda_engine.specs.SelfRun.{IsSelfEnd, self_command, self_outcome};

use chip_core::Chip;
use command_answers::Status;
use command_run::write_report;
use conda_host::{Host, Role};
use machine_run::{Machine, Run, Simulator, report_sinks};
use self_run::run_workload;
use std::alloc::{AllocError, Global};
use streams::Sinks;

// Writes the report of a run as the only file. It takes no memory.
fn report_run<M: Simulator, H: Host>(
    run: &Run<M>,
    sinks: &mut Sinks,
    report: &str,
    host: &mut H,
) -> Status
    requires { AreReportSinks sinks.old }
    ensures answers { Answers (self_command report.now) (text_outcome
        (report_text (M.shown run.now.machine) run.now.events run.now.output_bytes))
        (H.state host.old) (H.state host.new) result }
    ensures end { IsSelfEnd result }
{
    match write_report(report, run, sinks, host) {
        Ok(()) => Status::Done,
        Err(_) => Status::WriteFault(Role::Report),
    }
}

// Writes the report of the first events of a seed's workload, where there was memory for them.
fn report_on<M: Simulator, H: Host>(
    ran: Result<Run<M>, AllocError>,
    sinks: &mut Sinks,
    report: &str,
    host: &mut H,
) -> Status
    requires { AreReportSinks sinks.old }
    ensures answers { (seed count : ℕ) → IfOk ran (HasRunFirst ⟦<M as Machine>⟧ seed count)
        → Answers (self_command report.now)
        (self_outcome (account_of ⟦<M as Machine>⟧ M.report) seed count)
        (H.state host.old) (H.state host.new) result }
    ensures end { IsSelfEnd result }
    ensures ok { result ≡ Status.Done → IsOk ran }
{
    match ran {
        Ok(run) => report_run(&run, sinks, report, host),
        Err(AllocError) => Status::OutOfMemory,
    }
}

/// Runs the first events of a seed's workload, and writes their report as the only file. All memory
/// is taken before the report is created.
pub fn self_run<H: Host>(
    alloc: Global,
    seed: u64,
    events: u32,
    report: &str,
    host: &mut H,
) -> Status
    requires { events ≤ most_events }

    // The report is that of the first events of the seed, and no other file changes.
    ensures answers { Answers (self_command report.now) (self_outcome chip_account seed events)
        (H.state host.old) (H.state host.new) result }
    ensures end { IsSelfEnd result }

    // At Done the laws hold of these events.
    ensures lawful { result ≡ Status.Done
        → AreLawful (design_of_seed seed) (events_of_seed seed events) }
{
    let Ok(mut sinks) = report_sinks(alloc) else {
        return Status::OutOfMemory;
    };
    let ran: Result<Run<Chip>, AllocError> = run_workload(alloc, seed, events);
    report_on(ran, &mut sinks, report, host)
}
