// The chip is a machine that a command makes, runs and shows.
use crate::Chip;
use arrayvec::ArrayVec;
use chip_config::Config;
use conda_base::Actor;
use elf_loader::Image;
use machine_run::{Machine, Simulator};
use schedule_log::Entry;
use std::alloc::{AllocError, Global};

impl Machine for Chip {
    ghost use Rattle.chip_laws.specs.Lawful.{AreLawful};
    ghost use Rattle.chip_laws.specs.Worlds.{journal, output_of};
    ghost use Rattle.chip_laws.proofs.GrowthFacts.{starts_empty};
    ghost use Rattle.chip_core.specs.MachineLaws.{StandsAndReports, goes_on, has_counts, is_lawful};

    ghost stands = { StandsAndReports };

    ghost journal = { journal };

    ghost output = { output_of };

    ghost law = { AreLawful };

    ghost hart_count = { λ c. c.config.harts };

    ghost core_count = { λ c. c.config.cores };

    ghost fits = { has_counts };

    ghost lawful = { is_lawful };

    ghost starts = { starts_empty };

    ghost goes_on = { goes_on };

    fn harts(&self) -> u8 {
        self.config.harts as u8
    }

    fn cores(&self) -> u8 {
        self.config.cores as u8
    }

    fn event(&mut self, a: Actor, out: &mut ArrayVec<u8, 64>) -> Entry {
        self.turn(a, out)
    }
}

impl Simulator for Chip {
    ghost use Rattle.chip_core.specs.Reports.{report_of_events};

    ghost code = { λ c. c.code };

    ghost report = { report_of_events };

    ghost reports = { λ d c events h. h.report };

    fn build(alloc: Global, config: &Config, image: Image) -> Result<Chip, AllocError> {
        Chip::new(alloc, config, image)
    }
}
