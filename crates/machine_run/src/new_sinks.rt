// The sinks of a run before its first event, and of its report.
ghost use Rattle.std.specs.Prelude.{◌≡◌, IfOk, IfSome, is_some};
ghost use Rattle.conda_host.specs.declared.outside.Role.TheVariants as role;
ghost use Rattle.machine_run.specs.Tasks.{AreNewSinks, AreReportSinks, IsUnusedSink};

use conda_host::Role;
use std::alloc::{AllocError, Global};
use streams::{Sink, Sinks};

// How many bytes of the order, of output and of the report are gathered before they are written.
const ORDER_BYTES: usize = 65_536;

const OUTPUT_BYTES: usize = 4_096;

const REPORT_BYTES: usize = 65_536;

// The output's sink, where it is wanted.
fn output_sink(alloc: Global, with_output: bool) -> Result<Option<Sink>, AllocError>
    ensures unused { IfOk result (λ sink. IfSome sink (IsUnusedSink role.Output)) }
    ensures there { IfOk result (λ sink. is_some sink ≡ with_output) }
{
    if with_output {
        let sink = Sink::new(alloc, Role::Output, OUTPUT_BYTES)?;
        Ok(Some(sink))
    } else {
        Ok(None)
    }
}

/// A sink for the order, and one for the output where it is wanted.
pub fn new_sinks(alloc: Global, with_output: bool) -> Result<Sinks, AllocError>
    ensures { IfOk result (AreNewSinks with_output) }
{
    let order = Sink::new(alloc, Role::Order, ORDER_BYTES)?;
    let second = output_sink(alloc, with_output)?;
    Ok(Sinks {
        first: Some(order),
        second,
    })
}

/// The sinks of a report: one for it alone.
pub fn report_sinks(alloc: Global) -> Result<Sinks, AllocError>
    ensures { IfOk result AreReportSinks }
{
    let report = Sink::new(alloc, Role::Report, REPORT_BYTES)?;
    Ok(Sinks {
        first: Some(report),
        second: None,
    })
}
