// Registers as they were at one moment.
ghost use Rattle.std.specs.Prelude.{◌≡◌};

use rv32_hart::Regs;
use std::marker::Model;

/// Registers as they were when it was taken, to go back to. Each is spent once, by `restore` or by
/// `release`: it is neither `Copy` nor `Drop`, so code that copies it or loses it doesn't compile.
pub struct Checkpoint {
    regs: Regs,
}

impl Model for Checkpoint {
    ghost use Rattle.rv32_hart.specs.declared.Regs.{Regs};

    ghost Value = { Regs };

    ghost view = { λ checkpoint. checkpoint.regs };
}

impl Checkpoint {
    /// Keeps a copy of the registers as they are now.
    pub fn take(r: &Regs) -> Checkpoint
        ensures { result ≡ r.now }
    {
        Checkpoint { regs: *r }
    }

    /// Gives back the registers that were taken.
    pub fn restore(self) -> Regs
        ensures { result ≡ self }
    {
        let Checkpoint { regs } = self;
        regs
    }

    /// Lets the checkpoint go, where no way back is needed any more.
    pub fn release(self) {
        let Checkpoint { regs: _ } = self;
    }

    /// The registers that were taken.
    pub fn regs(&self) -> &Regs
        ensures { result.now ≡ self.now }
    {
        &self.regs
    }
}
