// A generated workload on its way.
use crate::loading::load_accepted;
use arrayvec::ArrayVec;
use machine_run::{Machine, Run, Simulator};
use self_workload::{Draws, Workload, config, generate, image_is_accepted};
use std::alloc::{AllocError, Global};

/// A generated workload with its machine, and the draws of the events to come.
#[derive(Drop)]
pub struct Generated<M> {
    pub seed: u64,
    pub run: Run<M>,
    pub draws: Draws,
}

impl<M: Simulator> Generated<M> {
    ghost use Rattle.std.specs.Prelude.{◌≡◌, IfOk};
    ghost use Rattle.self_run.specs.Generated.{IsAtEvent};

    /// The workload of a seed before its first event.
    pub fn new(alloc: Global, seed: u64) -> Result<Generated<M>, AllocError>
        ensures seed { IfOk result (λ g. g.seed ≡ seed) }
        ensures at { IfOk result (IsAtEvent ⟦<M as Machine>⟧ 0) }
    {
        let Workload { image, draws } = generate(alloc, seed)?;
        image_is_accepted(seed);
        let config = config();
        let image = load_accepted(alloc, &image, &config)?;
        let machine = M::build(alloc, &config, image)?;
        let run = Run {
            machine,
            events: 0,
            output_bytes: 0,
        };
        Ok(Generated { seed, run, draws })
    }
}

impl<M: Machine> Generated<M> {
    ghost use Rattle.std.specs.Prelude.{◌≡◌, ◌+◌, ◌<◌};
    ghost use Rattle.schedule_log.specs.Verdict.{most_events};
    ghost use Rattle.self_run.specs.Generated.{IsAtEvent};

    /// Runs the next event.
    pub fn step(&mut self)
        requires at { IsAtEvent ⟦<M as Machine>⟧ self.old.run.events self.old }
        requires few { self.old.run.events < most_events }
        ensures seed { self.new.seed ≡ self.old.seed }
        ensures at { IsAtEvent ⟦<M as Machine>⟧ (self.old.run.events + 1) self.new }
    {
        let mut out = ArrayVec::new();
        let actor = self.draws.next_actor();
        self.run.machine.event(actor, &mut out);
        self.run.events += 1;
        self.run.output_bytes += out.len() as u64;
    }
}
