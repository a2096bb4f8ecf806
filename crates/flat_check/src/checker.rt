// The checker of an order.
ghost use Rattle.std.specs.Prelude.{◌≡◌, ◌≤◌, ◌++◌, ◌∷◌, [], true, List, IfOk, MatchResult, length};
ghost use Rattle.schedule_log.specs.Texts.{IsEntry};
ghost use Rattle.schedule_log.specs.Verdict.{most_events};
ghost use Rattle.schedule_log.specs.declared.entry.Entry.{Entry};
ghost use Rattle.chip_laws.specs.Design.{Design, design_for, setup_of};
ghost use Rattle.flat_check.specs.Checkers.{HasWalked, has_entry};
ghost use Rattle.flat_check.specs.Walkers.{HasSameActors, ruling_of};
ghost use Rattle.flat_check.specs.Walks.{Fine, ruled, walk};

use crate::flat::Flat;
use crate::lines::{hand_out, place_of};
use crate::refusal::Refusal;
use crate::tries::Tries;
use crate::walker::Walker;
use chip_config::Config;
use conda_base::{Actor, Line, Mesi, line_of};
use elf_loader::Image;
use offload_calls::{CoreStatus, HartStatus};
use run_report::Shown;
use rv32_hart::{Code, Regs};
use schedule_log::Entry;
use std::alloc::{AllocError, Global};
use std::marker::Model;
use traffic_trace::Traffic;

/// Executes an order entry by entry, on one flat memory, and finds where it isn't sound or clean.
#[derive(Drop)]
pub struct Checker {
    code: Code,
    line_bytes: u32,
    walker: Walker,
    entries: u64,
    traffic: Traffic,
}

impl Model for Checker {
    ghost use Rattle.flat_check.specs.Checkers.{CheckerView, IsChecker, checker_view};

    ghost Value = { CheckerView };

    ghost view = { λ c. checker_view c.code c.line_bytes c.walker c.entries c.traffic };

    ghost invariant = { λ c.
        IsChecker (checker_view c.code c.line_bytes c.walker c.entries c.traffic) };
}

impl Checker {
    /// A checker before the first entry. All its memory is taken here.
    pub fn new(alloc: Global, config: &Config, image: Image) -> Result<Checker, AllocError>
        requires base { image.code.base ≡ config.now.mem_base }
        requires bytes { length image.code.bytes ≡ config.now.mem_bytes }
        ensures { IfOk result (λ checker. HasWalked (design_for config.now image) checker []) }
    {
        let entry = image.entry();
        let mut code = image.into_code();
        code.keep_decoded(alloc)?;
        let flat = Flat::new(alloc, &code, entry, config.harts, config.cores)?;
        let tries = Tries::new(alloc, &code, config.cores)?;
        let traffic = Traffic::new(alloc, 0)?;
        Ok(Checker {
            code,
            line_bytes: config.line_bytes,
            walker: Walker { flat, tries },
            entries: 0,
            traffic,
        })
    }

    /// Whether an entry names a hart or near-data core that there is.
    pub fn has(&self, e: Entry) -> bool
        ensures { result ≡ has_entry self.now e }
    {
        let harts = self.walker.flat.harts.len();
        let cores = self.walker.flat.statuses.len();
        match e {
            Entry::Step(h) | Entry::Waits(h) => (h as usize) < harts,
            Entry::Idle(a) | Entry::Held(a) => match a {
                Actor::Hart(h) => (h as usize) < harts,
                Actor::Core(j) => (j as usize) < cores,
            },
            Entry::Open(j)
            | Entry::Lock(j)
            | Entry::Spec(j)
            | Entry::Commit(j, _, _)
            | Entry::Back(j, _, _)
            | Entry::Flush(j)
            | Entry::Kern(j) => (j as usize) < cores,
        }
    }

    /// Judges the next entry of an order, and executes it. A checker that refused an entry is done with.
    pub fn entry(&mut self, e: Entry) -> Result<(), Refusal>
        requires there { has_entry self.old e ≡ true }
        requires entry { IsEntry e }
        requires room { self.old.entries ≤ most_events }
        ensures rules { (d : Design) (order : List Entry) → HasWalked d self.old order
            → MatchResult result (λ _. ruled (setup_of d) (walk (setup_of d) order) e ≡ Fine)
            (λ why. ruled (setup_of d) (walk (setup_of d) order) e ≡ ruling_of why) }
        ensures walks { (d : Design) (order : List Entry) → HasWalked d self.old order
            → IfOk result (λ _. HasWalked d self.new (order ++ e ∷ [])) }
        ensures actors { HasSameActors self.old.walker self.new.walker }
    {
        let taken = self.walker.take(&self.code, e);
        self.entries += 1;
        taken
    }

    /// How many entries were taken.
    pub fn entries(&self) -> u64
        ensures { result ≡ self.now.entries }
    {
        self.entries
    }

    /// How many bytes the entries put.
    pub fn output(&self) -> u64
        ensures { result ≡ self.now.walker.flat.output }
    {
        self.walker.flat.output
    }
}

impl Shown for Checker {
    ghost use Rattle.flat_check.specs.Checkers.{view_of_checker};

    ghost shown = { view_of_checker };

    fn harts(&self) -> u8 {
        self.walker.flat.harts.len() as u8
    }

    fn cores(&self) -> u8 {
        self.walker.flat.statuses.len() as u8
    }

    fn hart(&self, i: u8) -> (Regs, HartStatus) {
        let hart = &self.walker.flat.harts[i as usize];
        (hart.regs, hart.status)
    }

    fn core(&self, j: u8) -> (Regs, CoreStatus) {
        (
            self.walker.flat.regs[j as usize],
            self.walker.flat.statuses[j as usize],
        )
    }

    fn sets(&self) -> u32 {
        let _bytes = self.line_bytes;
        1
    }

    fn slot(&self, i: u8, set: u32, way: u32) -> Option<(Line, Mesi)> {
        None
    }

    fn traffic(&self) -> &Traffic {
        &self.traffic
    }

    fn lines(&self) -> (Line, u32) {
        (
            line_of(self.code.base(), self.line_bytes),
            self.walker.flat.memory.len() as u32 / self.line_bytes,
        )
    }

    fn line_bytes(&self) -> u32 {
        self.line_bytes
    }

    fn line(&self, l: Line, out: &mut [u8; 128]) {
        let place = place_of(&self.code, self.line_bytes, l);
        hand_out(&self.walker.flat.memory, place, self.line_bytes, out);
    }

    fn loaded(&self, l: Line, out: &mut [u8; 128]) {
        let place = place_of(&self.code, self.line_bytes, l);
        hand_out(self.code.bytes(), place, self.line_bytes, out);
    }
}
