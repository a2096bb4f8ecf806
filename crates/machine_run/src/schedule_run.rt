// A schedule is read and run.
ghost use Rattle.std.specs.Prelude.{◌+◌, ◌<◌, ◌≤◌, length, vec_len};
ghost use Rattle.schedule_log.specs.Verdict.{most_bytes};
ghost use Rattle.streams.specs.Seen.{fault_in};
ghost use Rattle.machine_run.specs.Going.{CanGoOn, point};
ghost use Rattle.machine_run.specs.Turning.{RunsWithin, Rounds, RunsSchedule};

use crate::ending::Turn;
use crate::lines::{run_last, run_piece};
use crate::{Ending, Machine, Run};
use schedule_log::{MOST_BYTES, Reader};
use streams::{Fault, Streams};

// Runs the lines of a piece, as far as there is room for it.
fn run_within<M: Machine, S: Streams>(
    run: &mut Run<M>,
    streams: &mut S,
    reader: &mut Reader,
    piece: &[u8],
    room: usize,
) -> Result<Option<Ending>, Fault>
    requires can { CanGoOn ⟦<M as Machine>⟧ (point run.old (S.seen streams.old) reader.old) }
    requires few { reader.old.ended + room ≤ most_bytes }
    ensures runs { RunsWithin ⟦<M as Machine>⟧ (point run.old (S.seen streams.old) reader.old)
        (point run.new (S.seen streams.new) reader.new) piece.now room result }
    ensures leads { S.leads streams.old streams.new (fault_in result) }
{
    let taken = piece.len().min(room);
    let stop = run_piece(run, streams, reader, &piece[..taken])?;
    if taken < piece.len() {
        return Ok(Some(stop.unwrap_or(Ending::TooManyBytes)));
    }
    Ok(stop)
}

// Reads the next bytes of the schedule, and runs their lines.
fn round<M: Machine, S: Streams>(
    run: &mut Run<M>,
    streams: &mut S,
    reader: &mut Reader,
    buffer: &mut [u8],
    room: usize,
) -> Result<Turn, Fault>
    requires some { 0 < length buffer.old }
    requires can { CanGoOn ⟦<M as Machine>⟧ (point run.old (S.seen streams.old) reader.old) }
    requires few { reader.old.ended + room ≤ most_bytes }
    ensures rounds { Rounds ⟦<M as Machine>⟧ (point run.old (S.seen streams.old) reader.old)
        (point run.new (S.seen streams.new) reader.new) room result }
    ensures leads { S.leads streams.old streams.new (fault_in result) }
{
    let n = streams.read(buffer)?;
    match run_within(run, streams, reader, &buffer[..n], room)? {
        None => Ok(Turn::Goes { used: n }),
        Some(ending) => Ok(Turn::Ends(ending)),
    }
}

/// Runs the schedule that is left of the source, and puts its order and its output into their
/// sinks.
pub fn run_schedule<M: Machine, S: Streams>(
    run: &mut Run<M>,
    streams: &mut S,
    buffer: &mut [u8],
) -> Result<Ending, Fault>
    requires { 0 < length buffer.old }
    ensures runs { RunsSchedule ⟦<M as Machine>⟧ (S.seen streams.old)
        (S.seen streams.new) run.old run.new result }
    ensures leads { S.leads streams.old streams.new (fault_in result) }
{
    let mut reader = Reader::new(run.machine.harts(), run.machine.cores());
    let mut room = MOST_BYTES;
    loop {
        match round(run, streams, &mut reader, buffer, room)? {
            Turn::Goes { used: 0 } => return run_last(run, streams, reader),
            Turn::Goes { used } => room -= used,
            Turn::Ends(ending) => return Ok(ending),
        }
    }
}
