// A run that is ready, with all memory that it needs.
ghost use Rattle.std.specs.Prelude.{◌<◌, vec_len};

use crate::Run;
use crate::new_sinks::{new_sinks, report_sinks};
use std::alloc::{AllocError, Global};
use streams::Sinks;

// How many bytes of a schedule are read at once.
const PIECE: usize = 65_536;

/// A run, its sinks, those of its report, and the buffer that its schedule is read into. All its
/// memory is taken when it is made.
#[derive(Drop)]
pub struct Task<M> {
    pub run: Run<M>,
    pub sinks: Sinks,
    pub report: Sinks,
    pub buffer: Vec<u8>,
    ghost some: { 0 < vec_len buffer },
}

impl<M: Drop> Task<M> {
    ghost use Rattle.std.specs.Prelude.{◌≡◌, IfOk};
    ghost use Rattle.machine_run.specs.Tasks.{IsNewTask};

    /// A run of no event.
    pub fn new(alloc: Global, machine: M, with_output: bool) -> Result<Task<M>, AllocError>
        ensures machine { IfOk result (λ task. task.run.machine ≡ machine) }
        ensures new { IfOk result (IsNewTask with_output) }
    {
        let sinks = new_sinks(alloc, with_output)?;
        let report = report_sinks(alloc)?;
        let buffer = vec![in alloc; 0u8; PIECE]?;
        let run = Run {
            machine,
            events: 0,
            output_bytes: 0,
        };
        Ok(Task {
            run,
            sinks,
            report,
            buffer,
        })
    }
}
