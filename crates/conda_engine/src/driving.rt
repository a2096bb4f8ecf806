// A run from where its schedule is opened.
ghost use Rattle.std.specs.Prelude.{◌≡◌, [], is_some};
ghost use Rattle.chip_laws.specs.Design.{Design};
ghost use Rattle.command_run.specs.Driving.{bytes_of_file};
ghost use Rattle.command_words.specs.Words.{AreApart};
ghost use Rattle.machine_run.specs.Tasks.{IsNewTask};
ghost use Rattle.command_answers.specs.Answers.{Answers};
ghost use Rattle.conda_engine.specs.Ends.{HoldsOfRun, IsLate, StandsAfter, account_of};
ghost use Rattle.conda_engine.specs.Files.{names_in, run_names_of};
ghost use Rattle.command_answers.specs.Preparing.{design_in};
ghost use Rattle.conda_engine.specs.Rows.{drive_command, schedule_outcome, status_of_run};

use crate::files::{FileWords, run_names};
use crate::prepared::Prepared;
use command_answers::Status;
use conda_host::{Host, Role};
use machine_run::{Ending, Machine, Simulator, Task};
use schedule_log::{MOST_BYTES, MOST_EVENTS};
use streams::Fault;

// The status that the run of a schedule ends with.
fn run_status(ran: Result<Ending, Fault>) -> Status
    ensures { result ≡ status_of_run ran }
{
    match ran {
        Ok(Ending::Whole) => Status::Done,
        Ok(Ending::BadLine { line, why }) => Status::Schedule { line, why },
        Ok(Ending::TooManyEvents) => Status::TooLarge {
            role: Role::Schedule,
            limit: MOST_EVENTS,
        },
        Ok(Ending::TooManyBytes) => Status::TooLarge {
            role: Role::Schedule,
            limit: MOST_BYTES as u64,
        },
        Err(Fault::Read(role)) => Status::ReadFault(role),
        Err(Fault::Write(role)) => Status::WriteFault(role),
    }
}

// Runs the schedule of these files.
fn drive_task<M: Simulator, H: Host>(files: &FileWords, task: &mut Task<M>, host: &mut H) -> Status
    requires apart { AreApart (names_in files.now) }
    requires new { IsNewTask (is_some (names_in files.now).output) task.old }
    ensures answers { (d : Design) → M.stands d task.old.run.machine []
        → Answers (drive_command (names_in files.now))
        (schedule_outcome (account_of ⟦<M as Machine>⟧ M.report) d
        (bytes_of_file (H.state host.old) (names_in files.now).schedule))
        (H.state host.old) (H.state host.new) result }
    ensures machine { (d : Design) → M.stands d task.old.run.machine []
        → StandsAfter ⟦<M as Machine>⟧ d (H.state host.old)
        (bytes_of_file (H.state host.old) (names_in files.now).schedule)
        result task.new.run.machine }
    ensures late { IsLate result }
{
    let names = run_names(files);
    let ran = command_run::carry_out(&names, task, host);
    run_status(ran)
}

/// Runs the schedule of a run that is ready, and writes its files. It takes no memory.
///
/// The machine comes back as it is then: after a fault of the host nothing is said of it.
pub fn drive<M: Simulator, H: Host>(p: Prepared<M>, host: &mut H) -> (Status, M)
    // What it answers and leaves, by what the schedule leads to.
    ensures answers { Answers (drive_command p.files)
        (schedule_outcome (account_of ⟦<M as Machine>⟧ M.report) (design_in p)
        (bytes_of_file (H.state host.old) p.files.schedule))
        (H.state host.old) (H.state host.new) result.0 }
    ensures late { IsLate result.0 }

    // The machine stands for the events that ran, at Done for all of the schedule.
    ensures machine { StandsAfter ⟦<M as Machine>⟧ (design_in p) (H.state host.old)
        (bytes_of_file (H.state host.old) p.files.schedule) result.0 result.1 }
    ensures lawful { HoldsOfRun M.law (design_in p) (H.state host.old)
        (bytes_of_file (H.state host.old) p.files.schedule) result.0 }
{
    let (files, mut task) = p.into_parts();
    let status = drive_task(&files, &mut task, host);
    (status, task.run.machine)
}
