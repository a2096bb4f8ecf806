// A fine-grained machine is one that a command makes, runs and shows.
use crate::FineChip;
use arrayvec::ArrayVec;
use chip_config::Config;
use conda_base::Actor;
use elf_loader::Image;
use machine_run::{Machine, Simulator};
use schedule_log::Entry;
use std::alloc::{AllocError, Global};

impl Machine for FineChip {
    ghost use Rattle.baseline_laws.specs.Laws.{AreFineLawful};
    ghost use Rattle.nda_fine.specs.Fine.{FineReports, fine_journal, fine_output};
    ghost use Rattle.nda_fine.specs.MachineLaws.{fine_goes_on, fine_starts, has_fine_counts, is_lawful};

    ghost stands = { FineReports };

    ghost journal = { fine_journal };

    ghost output = { fine_output };

    ghost law = { AreFineLawful };

    ghost hart_count = { λ c. c.config.harts };

    ghost core_count = { λ c. c.config.cores };

    ghost fits = { has_fine_counts };

    ghost lawful = { is_lawful };

    ghost starts = { fine_starts };

    ghost goes_on = { fine_goes_on };

    fn harts(&self) -> u8 {
        self.hart_count()
    }

    fn cores(&self) -> u8 {
        self.core_count()
    }

    fn event(&mut self, a: Actor, out: &mut ArrayVec<u8, 64>) -> Entry {
        self.turn(a, out)
    }
}

impl Simulator for FineChip {
    ghost use Rattle.nda_fine.specs.Fine.{fine_report};

    ghost code = { λ c. c.code };

    ghost report = { fine_report };

    ghost reports = { λ d c events h. h.report };

    fn build(alloc: Global, config: &Config, image: Image) -> Result<FineChip, AllocError> {
        FineChip::new(alloc, config, image)
    }
}
