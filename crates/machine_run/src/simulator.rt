// A machine that a command makes and shows.
ghost use Rattle.std.specs.Prelude.{◌≡◌, ℕ, List, [], length, IfOk};
ghost use Rattle.conda_base.specs.declared.actor.Actor.{Actor as TheActor};
ghost use Rattle.rv32_hart.specs.Code.{CodeView};
ghost use Rattle.chip_laws.specs.Design.{Design, design_for};
ghost use Rattle.run_report.specs.Texts.{report_text};

use crate::Machine;
use chip_config::Config;
use elf_loader::Image;
use run_report::Shown;
use std::alloc::{AllocError, Global};

/// A machine that is made of a configuration and an image, and shows what it has come to.
pub trait Simulator: Machine + Shown + Drop {
    // The code that it runs.
    ghost code: { Self → CodeView };

    // The report of events.
    ghost report: { Design → List TheActor → List ℕ };

    /// A machine at its start, with the image in its memory. No other call takes memory.
    fn build(alloc: Global, config: &Config, image: Image) -> Result<Self, AllocError>
        requires base { image.code.base ≡ config.now.mem_base }
        requires bytes { length image.code.bytes ≡ config.now.mem_bytes }
        ensures code { IfOk result (λ m. code m ≡ image.code) }
        ensures stands { IfOk result (λ m. Self.stands (design_for config.now image) m []) };

    // What a machine shows that stands for events is their report.
    ghost reports: { (d : Design) (m : Self) (events : List TheActor) → Self.stands d m events
        → report_text (Self.shown m) (length events) (length (Self.output d events))
        ≡ report d events };
}
