// The report of a run, in its file.
ghost use Rattle.std.specs.Prelude.{◌≡◌, [], Some, OnOk, OnErr, IfErr, IsTrue};
ghost use Rattle.conda_host.specs.State.{Rose};
ghost use Rattle.conda_host.specs.declared.outside.Role.TheVariants as role;
ghost use Rattle.streams.specs.Seen.{ShowsText, fault_in};
ghost use Rattle.streams.specs.Streaming.{AreMade, IsLedAlone, has_sink, seen_alone};
ghost use Rattle.streams.specs.Holding.{SinkHolds, SinkHoldsFront};
ghost use Rattle.streams.specs.Using.{KeepsTo};
ghost use Rattle.run_report.specs.Texts.{report_text};
ghost use Rattle.machine_run.specs.Tasks.{AreReportSinks};
ghost use Rattle.command_run.specs.Names.{report_uses};
ghost use Rattle.command_run.specs.Driving.{CreatedHoldsFront};

use crate::calls::create;
use conda_host::{Host, Role};
use machine_run::{Machine, Run};
use run_report::Shown;
use streams::{Fault, SinkFiles, Sinks};

// Puts the report of a run into its text, and writes the rest of that.
fn write_over<M: Machine + Shown, H: Host>(
    run: &Run<M>,
    files: &mut SinkFiles<'_, H>,
) -> Result<(), Fault>
    requires { ShowsText (seen_alone (H.state files.old.host.now) files.old.sinks.now)
        role.Report [] }
    ensures ok { OnOk result (SinkHolds (H.state files.new.host.now)
        (has_sink files.new.sinks.now) role.Report
        (report_text (M.shown run.now.machine) run.now.events run.now.output_bytes)) }
    ensures err { OnErr result (SinkHoldsFront (H.state files.new.host.now)
        (has_sink files.new.sinks.now) role.Report
        (report_text (M.shown run.now.machine) run.now.events run.now.output_bytes)) }
    ensures same_host { files.new.host.ghost_name ≡ files.old.host.ghost_name }
    ensures same_sinks { files.new.sinks.ghost_name ≡ files.old.sinks.ghost_name }
    ensures led { IsLedAlone files.old.sinks.now files.new.sinks.now
        (H.state files.old.host.now) (H.state files.new.host.now) (fault_in result) }
{
    run_report::write(files, &run.machine, run.events, run.output_bytes)?;
    files.finish()
}

// Writes the report of a run into its file, which is made.
fn write_made<M: Machine + Shown, H: Host>(
    run: &Run<M>,
    sinks: &mut Sinks,
    host: &mut H,
) -> Result<(), Fault>
    requires made { AreMade (H.state host.old) sinks.old }
    requires none { ShowsText (seen_alone (H.state host.old) sinks.old) role.Report [] }
    ensures ok { OnOk result (SinkHolds (H.state host.new) (has_sink sinks.new) role.Report
        (report_text (M.shown run.now.machine) run.now.events run.now.output_bytes)) }
    ensures err { OnErr result (SinkHoldsFront (H.state host.new) (has_sink sinks.new) role.Report
        (report_text (M.shown run.now.machine) run.now.events run.now.output_bytes)) }
    ensures led { IsLedAlone sinks.old sinks.new (H.state host.old) (H.state host.new)
        (fault_in result) }
{
    let mut files = SinkFiles::new(host, sinks);
    write_over(run, &mut files)
}

/// Creates the report's file, and writes the report of a run through the sinks that it has. It
/// takes no memory.
pub fn write_report<M: Machine + Shown, H: Host>(
    name: &str,
    run: &Run<M>,
    sinks: &mut Sinks,
    host: &mut H,
) -> Result<(), Fault>
    requires { AreReportSinks sinks.old }
    ensures ok { OnOk result (IsTrue (H.state host.old).tells → (H.state host.new).file name.now
        ≡ Some (report_text (M.shown run.now.machine) run.now.events run.now.output_bytes)) }
    ensures cause { OnErr result (Rose (H.state host.old) (H.state host.new)
        role.Report name.now) }
    ensures fault { IfErr result (λ f. f ≡ Fault.Write role.Report) }
    ensures front { OnErr result (IsTrue (H.state host.old).tells
        → CreatedHoldsFront (H.state host.old) (H.state host.new) role.Report
        (report_text (M.shown run.now.machine) run.now.events run.now.output_bytes) name.now) }
    ensures keeps { KeepsTo (report_uses name.now) (H.state host.old) (H.state host.new) }
{
    create(host, Role::Report, name)?;
    write_made(run, sinks, host)
}
