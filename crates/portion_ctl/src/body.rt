// What a portion is made of, in one box that all its states hand on.
ghost use Rattle.std.specs.Prelude.{◌≡◌, [], None, IsSome, unwrap_or};
ghost use Rattle.rv32_hart.specs.Regs.{start_regs};

use arrayvec::ArrayVec;
use bloom_sig::Signature;
use checkpoint::Checkpoint;
use nda_cache::NdaCache;
use offload_calls::CoreStatus;
use rv32_hart::Regs;
use std::mem;
use try_runs::Limits;

// The parts of a portion. Which of them count is said by its state.
pub struct Body {
    pub core: u8,
    pub limits: Limits,
    pub regs: Regs,
    // the registers of the opening, where a try is open
    pub checkpoint: Option<Checkpoint>,
    pub status: CoreStatus,
    pub acts: u32,
    pub cache: NdaCache,
    pub read_set: Signature,
    pub write_set: Signature,
    pub foreign_set: Signature,
    pub held: ArrayVec<u8, 64>,
    pub locked: bool,
    pub cause: u8,
    pub due: u32,
}

impl Drop for Body {
    fn drop(self) {
        let Body {
            core: _,
            limits: _,
            regs: _,
            checkpoint,
            status: _,
            acts: _,
            cache: _,
            read_set: _,
            write_set: _,
            foreign_set: _,
            held: _,
            locked: _,
            cause: _,
            due: _,
        } = self;
        spend(checkpoint);
    }
}

// Lets a checkpoint go, where there is one.
fn spend(checkpoint: Option<Checkpoint>) {
    match checkpoint {
        None => {}
        Some(checkpoint) => checkpoint.release(),
    }
}

impl Body {
    ghost use Rattle.portion_ctl.specs.Bodies.{begun_from};

    // Starts a try from the registers, with empty parts.
    pub fn begin(&mut self, locked: bool)
        ensures begun { self.new ≡ record (begun_from self.old locked) { held = self.new.held } }
        ensures held { self.new.held.items ≡ [] }
    {
        let checkpoint = Checkpoint::take(&self.regs);
        spend(mem::replace(&mut self.checkpoint, Some(checkpoint)));
        self.status = CoreStatus::Run;
        self.acts = 0;
        self.cache.clear();
        self.read_set.clear();
        self.write_set.clear();
        self.foreign_set.clear();
        self.held.clear();
        self.locked = locked;
    }

    // Lets the registers of the opening go.
    pub fn keep(&mut self)
        ensures { self.new ≡ record self.old { checkpoint = None } }
    {
        spend(mem::replace(&mut self.checkpoint, None));
    }

    // Goes back to the registers of the opening.
    pub fn go_back(&mut self)
        requires { IsSome self.old.checkpoint }
        ensures { self.new
            ≡ record self.old {
              regs = unwrap_or self.old.checkpoint (start_regs 0);
              checkpoint = None;
            } }
    {
        match mem::replace(&mut self.checkpoint, None) {
            None => {}
            Some(checkpoint) => self.regs = checkpoint.restore(),
        }
    }
}
