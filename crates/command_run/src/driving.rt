// A run from where its schedule is opened.
ghost use Rattle.std.specs.Prelude.{◌≡◌, [], ℕ, List, false, None, Some, OnOk, OnErr, IfErr, IfSome, MatchOption, IsTrue, is_some};
ghost use Rattle.conda_host.specs.State.{is_created, IsCreating, Creates};
ghost use Rattle.conda_host.specs.declared.outside.Role.TheVariants as role;
ghost use Rattle.chip_laws.specs.Design.{Design};
ghost use Rattle.streams.specs.Using.{KeepsTo};
ghost use Rattle.machine_run.specs.Tasks.{AreReportSinks, IsNewTask};
ghost use Rattle.run_report.specs.Texts.{report_text};
ghost use Rattle.command_run.specs.Names.{CreatesOnceOpened, HaveDistinctNames, FaultRose, run_names, text_uses, report_uses, run_uses};
ghost use Rattle.command_run.specs.Driving.{AreMadeTexts, IsStarted, RunsTexts, LeavesFiles, CreatedHoldsFront, CreatedHoldFronts, TextFronts, bytes_of_file};

use crate::calls::{create, open};
use crate::names::RunNames;
use crate::reporting::write_report;
use conda_host::{Host, Role};
use machine_run::{Ending, Machine, Run, Task, run_files};
use run_report::Shown;
use streams::{Fault, Sinks};

// Creates the output's file, where it is named.
fn create_output<H: Host>(names: &RunNames, host: &mut H) -> Result<(), Fault>
    ensures ok { OnOk result (IfSome (run_names names.now).output (Creates
        (H.state host.new) role.Output)) }
    ensures cause { IfErr result (FaultRose (run_names names.now) (H.state host.old)
        (H.state host.new)) }
    ensures none { OnErr result (is_created (H.state host.new) role.Output ≡ false) }
    ensures rest { MatchOption (run_names names.now).output (H.state host.new ≡ H.state host.old)
        (IsCreating (H.state host.old) (H.state host.new) role.Output) }
{
    match names.output {
        Some(name) => create(host, Role::Output, name),
        None => Ok(()),
    }
}

// Creates the files of order and output.
fn create_texts<H: Host>(names: &RunNames, host: &mut H) -> Result<(), Fault>
    requires { HaveDistinctNames (run_names names.now) }
    ensures made { OnOk result (AreMadeTexts (run_names names.now) (H.state host.new)) }
    ensures fronts { OnErr result ((journal bytes : List ℕ) → IsTrue (H.state host.old).tells
        → TextFronts (run_names names.now) (H.state host.old) (H.state host.new) journal bytes) }
    ensures schedule { ((H.state host.new).role role.Schedule).opened ≡
        ((H.state host.old).role role.Schedule).opened }
    ensures left { ((H.state host.new).role role.Schedule).left ≡
        ((H.state host.old).role role.Schedule).left }
    ensures cause { IfErr result (FaultRose (run_names names.now) (H.state host.old)
        (H.state host.new)) }
    ensures keeps { KeepsTo (text_uses (run_names names.now)) (H.state host.old)
        (H.state host.new) }
{
    create(host, Role::Order, names.order)?;
    create_output(names, host)
}

// Opens the schedule, and creates the files of order and output.
fn start<H: Host>(names: &RunNames, host: &mut H) -> Result<(), Fault>
    requires { HaveDistinctNames (run_names names.now) }
    ensures started { OnOk result (IsStarted (run_names names.now) (H.state host.old)
        (H.state host.new)) }
    ensures fronts { OnErr result ((journal bytes : List ℕ) → IsTrue (H.state host.old).tells
        → TextFronts (run_names names.now) (H.state host.old) (H.state host.new) journal bytes) }
    ensures cause { IfErr result (FaultRose (run_names names.now) (H.state host.old)
        (H.state host.new)) }
    ensures unopened { CreatesOnceOpened (H.state host.old) (H.state host.new) }
    ensures keeps { KeepsTo (text_uses (run_names names.now)) (H.state host.old)
        (H.state host.new) }
{
    open(host, Role::Schedule, names.schedule)?;
    create_texts(names, host)
}

// Runs the schedule, and writes order and output.
fn run_texts<M: Machine, H: Host>(
    names: &RunNames,
    task: &mut Task<M>,
    host: &mut H,
) -> Result<Ending, Fault>
    requires apart { HaveDistinctNames (run_names names.now) }
    requires fresh { IsNewTask (is_some (run_names names.now).output) task.old }
    requires opened { IsTrue ((H.state host.old).role role.Schedule).opened }
    requires made { AreMadeTexts (run_names names.now) (H.state host.old) }
    ensures runs { (d : Design) → M.stands d task.old.run.machine []
        → IsTrue (H.state host.old).tells → RunsTexts ⟦<M as Machine>⟧ (run_names names.now) d
        ((H.state host.old).role role.Schedule).left (H.state host.new) task.new.run result }
    ensures cause { IfErr result (FaultRose (run_names names.now) (H.state host.old)
        (H.state host.new)) }
    ensures opened { IsTrue ((H.state host.new).role role.Schedule).opened }
    ensures report { task.new.report ≡ task.old.report }
    ensures keeps { KeepsTo (text_uses (run_names names.now)) (H.state host.old)
        (H.state host.new) }
{
    run_files(task, host)
}

// Writes the report of a run into its file.
fn report<M: Machine + Shown, H: Host>(
    names: &RunNames,
    run: &Run<M>,
    sinks: &mut Sinks,
    host: &mut H,
) -> Result<(), Fault>
    requires { AreReportSinks sinks.old }
    ensures ok { OnOk result (IsTrue (H.state host.old).tells
        → (H.state host.new).file (run_names names.now).report
        ≡ Some (report_text (M.shown run.now.machine) run.now.events run.now.output_bytes)) }
    ensures cause { IfErr result (FaultRose (run_names names.now) (H.state host.old)
        (H.state host.new)) }
    ensures fault { IfErr result (λ f. f ≡ Fault.Write role.Report) }
    ensures front { OnErr result (IsTrue (H.state host.old).tells
        → CreatedHoldsFront (H.state host.old) (H.state host.new) role.Report
        (report_text (M.shown run.now.machine) run.now.events run.now.output_bytes)
        (run_names names.now).report) }
    ensures keeps { KeepsTo (report_uses (run_names names.now).report) (H.state host.old)
        (H.state host.new) }
{
    write_report(names.report, run, sinks, host)
}

/// Runs the schedule of a run that is ready, and writes its files. It takes no memory.
pub fn carry_out<M: Machine + Shown, H: Host>(
    names: &RunNames,
    task: &mut Task<M>,
    host: &mut H,
) -> Result<Ending, Fault>
    requires apart { HaveDistinctNames (run_names names.now) }
    requires fresh { IsNewTask (is_some (run_names names.now).output) task.old }

    // The files hold the texts of the events that run, at the schedule's end with the report.
    ensures ends { (d : Design) → M.stands d task.old.run.machine []
        → IsTrue (H.state host.old).tells
        → LeavesFiles ⟦<M as Machine>⟧ M.shown (run_names names.now) d
        (bytes_of_file (H.state host.old) (run_names names.now).schedule)
        (H.state host.new) task.new.run result }

    // After a fault each file that was created holds a front of its text.
    ensures fronts { OnErr result ((d : Design) → M.stands d task.old.run.machine []
        → IsTrue (H.state host.old).tells
        → CreatedHoldFronts ⟦<M as Machine>⟧ M.shown (run_names names.now) d
        (bytes_of_file (H.state host.old) (run_names names.now).schedule)
        (H.state host.old) (H.state host.new) task.new.run) }

    // A fault's count rose.
    ensures cause { IfErr result (FaultRose (run_names names.now) (H.state host.old)
        (H.state host.new)) }

    // No other role is opened or created, and no other file changes; the report's only where the
    // schedule was run whole.
    ensures keeps { KeepsTo (run_uses (run_names names.now) result) (H.state host.old)
        (H.state host.new) }

    // Nothing is created where the schedule isn't opened.
    ensures unopened { CreatesOnceOpened (H.state host.old) (H.state host.new) }
{
    start(names, host)?;
    let ending = run_texts(names, task, host)?;
    match ending {
        Ending::Whole => {
            report(names, &task.run, &mut task.report, host)?;
            Ok(Ending::Whole)
        }
        stop => Ok(stop),
    }
}
