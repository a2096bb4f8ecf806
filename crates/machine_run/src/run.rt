// Events are run, and their entries and bytes recorded.
ghost use Rattle.std.specs.Prelude.{◌≡◌, ◌*◌, ◌≤◌};
ghost use Rattle.schedule_log.specs.Verdict.{most_events};

use crate::Machine;
use crate::recording::record;
use arrayvec::ArrayVec;
use conda_base::Actor;
use schedule_log::MOST_EVENTS;
use streams::{Fault, Streams};

/// A run so far: the machine, and the numbers of events and of output bytes.
#[derive(Drop)]
pub struct Run<M> {
    pub machine: M,
    pub events: u64,
    pub output_bytes: u64,
    ghost few_events: { events ≤ most_events },
    ghost few_bytes: { output_bytes ≤ 64 * events },
}

impl<M: Machine> Run<M> {
    ghost use Rattle.std.specs.Prelude.{◌+◌, ◌<◌, ◌∷◌, [], replicate, IsTrue, OnOk, OnErr, IfOk, nat_le, if◌then◌else◌};
    ghost use Rattle.schedule_log.specs.Grammar.{is_on_chip};
    ghost use Rattle.streams.specs.Seen.{fault_in};
    ghost use Rattle.machine_run.specs.Running.{KeepsActors, Runs, RunsLine, RunsPart};

    // Runs one event.
    fn step<S: Streams>(&mut self, streams: &mut S, a: Actor) -> Result<(), Fault>
        requires has { IsTrue (is_on_chip (M.hart_count self.old.machine)
            (M.core_count self.old.machine) a) }
        requires few { self.old.events < most_events }
        ensures ran { OnOk result (Runs ⟦<M as Machine>⟧ (S.seen streams.old)
            (S.seen streams.new) self.old self.new (a ∷ [])) }
        ensures part { OnErr result (RunsPart ⟦<M as Machine>⟧ (S.seen streams.old)
            (S.seen streams.new) self.old (a ∷ [])) }
        ensures count { OnOk result (self.new.events ≡ self.old.events + 1) }
        ensures actors { KeepsActors ⟦<M as Machine>⟧ self.old.machine self.new.machine }
        ensures leads { S.leads streams.old streams.new (fault_in result) }
    {
        let mut out = ArrayVec::new();
        let entry = self.machine.event(a, &mut out);
        record(streams, entry, &out)?;
        self.events += 1;
        self.output_bytes += out.len() as u64;
        Ok(())
    }

    // Runs so many events of one hart or core.
    fn steps<S: Streams>(&mut self, streams: &mut S, a: Actor, count: u32) -> Result<(), Fault>
        requires has { IsTrue (is_on_chip (M.hart_count self.old.machine)
            (M.core_count self.old.machine) a) }
        requires few { self.old.events + count ≤ most_events }
        ensures ran { OnOk result (Runs ⟦<M as Machine>⟧ (S.seen streams.old)
            (S.seen streams.new) self.old self.new (replicate count a)) }
        ensures part { OnErr result (RunsPart ⟦<M as Machine>⟧ (S.seen streams.old)
            (S.seen streams.new) self.old (replicate count a)) }
        ensures actors { KeepsActors ⟦<M as Machine>⟧ self.old.machine self.new.machine }
        ensures leads { S.leads streams.old streams.new (fault_in result) }
    {
        for _ in 0..count {
            self.step(streams, a)?;
        }
        Ok(())
    }

    /// Runs the events of a line, and says so; or says that they would be too many, and runs none.
    pub fn line<S: Streams>(&mut self, streams: &mut S, a: Actor, count: u32) -> Result<bool, Fault>
        requires { IsTrue (is_on_chip (M.hart_count self.old.machine)
            (M.core_count self.old.machine) a) }
        ensures line { RunsLine ⟦<M as Machine>⟧ (S.seen streams.old)
            (S.seen streams.new) self.old self.new a count result }
        ensures actors { KeepsActors ⟦<M as Machine>⟧ self.old.machine self.new.machine }
        ensures leads { S.leads streams.old streams.new (fault_in result) }
    {
        if self.events + u64::from(count) > MOST_EVENTS {
            return Ok(false);
        }
        self.steps(streams, a, count)?;
        Ok(true)
    }
}
