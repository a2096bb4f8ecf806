// The near-data cores of a chip.
ghost use Rattle.chip_config.specs.Settings.{settings};
ghost use Rattle.std.specs.Prelude.{IfOk, replicate, ◌≡◌, ◌∷◌, []};
ghost use Rattle.fallback_lock.specs.Locks.{fresh_counts};
ghost use Rattle.chip_core.specs.Fits.{AreAtRest};
ghost use Rattle.chip_core.specs.Steps.{all_told, told_portion};

use crate::stage::Stage;
use arrayvec::ArrayVec;
use chip_config::Config;
use conda_base::Line;
use fallback_lock::Lock;
use offload_calls::CoreStatus;
use portion_ctl::Ready;
use std::alloc::{AllocError, Global};
use std::mem;

/// How each core stands, what it holds, and the rollbacks with the locked core.
#[derive(Drop)]
pub struct Cores {
    pub statuses: ArrayVec<CoreStatus, 4>,
    pub portions: Vec<Stage>,
    pub lock: Lock,
}

impl Cores {
    /// Idle cores, each with no try, no rollback, and none locked.
    pub fn new(alloc: Global, config: &Config) -> Result<Cores, AllocError>
        ensures statuses { IfOk result (λ cores.
            cores.statuses.items ≡ replicate config.now.cores CoreStatus.Idle) }
        ensures portions { IfOk result (λ cores. AreAtRest (settings config.now)
            cores.portions.items) }
        ensures lock { IfOk result (λ cores.
            cores.lock ≡ fresh_counts config.now.cores config.now.retries) }
    {
        let mut statuses = ArrayVec::new();
        let mut portions = Vec::with_capacity(alloc, config.cores as usize)?;
        for j in 0..config.cores {
            statuses.push(CoreStatus::Idle);
            portions.push(Stage::Ready(Ready::new(alloc, j as u8, config)?))?;
        }
        Ok(Cores {
            statuses,
            portions,
            lock: Lock::new(config.cores as u8, config.retries),
        })
    }
}

// Every open try takes note of a line that a hart stores to.
pub fn tell(portions: &mut [Stage], l: Line)
    ensures { portions.new ≡ all_told (l ∷ []) portions.old }
{
    for portion in portions {
        tell_one(portion, l);
    }
}

fn tell_one(portion: &mut Stage, l: Line)
    ensures { portion.new ≡ told_portion (l ∷ []) portion.old }
{
    match portion {
        Stage::Open(open) => open.foreign(l),
        Stage::Ready(_) | Stage::Flushing(_) | Stage::Moved => {}
    }
}
