// The parts of a machine, held together.
ghost use Rattle.std.specs.Prelude.{◌≡◌, ◌<◌, ◌≤◌, ◌+◌, [], IfOk, length, true};
ghost use Rattle.coherent_mem.specs.Parts.{shown};
ghost use Rattle.line_memory.specs.Tags.{Shape};
ghost use Rattle.chip_laws.specs.Design.{Design, design_for};
ghost use Rattle.baseline_laws.specs.Worlds.{World};
ghost use Rattle.plain_chip.specs.Views.{is_actor_of, runs_at};
ghost use Rattle.plain_chip.specs.Shows.{IsMade, ShowsPlain};
ghost use Rattle.plain_chip.specs.Turns.{HartHappened, KernelHappened};

use crate::events::{core_act, hart_event};
use crate::loaded::hand_out_loaded;
use crate::starts::{idle_cores, start_harts, start_regs};
use arrayvec::ArrayVec;
use chip_config::Config;
use coherent_mem::Coherent;
use conda_base::{Actor, Line, Mesi, line_of};
use elf_loader::Image;
use offload_calls::{CoreStatus, Hart, HartStatus};
use run_report::Shown;
use rv32_hart::{Code, Regs};
use schedule_log::Entry;
use std::alloc::{AllocError, Global};
use std::marker::Model;
use traffic_trace::Traffic;

/// The parts of a machine with 1 to 8 harts and 1 to 4 near-data cores over one memory.
#[derive(Drop)]
pub struct Plain {
    config: Config,
    code: Code,
    memory: Coherent,
    harts: Vec<Hart>,
    statuses: ArrayVec<CoreStatus, 4>,
    regs: Vec<Regs>,
    log: Traffic,
}

impl Model for Plain {
    ghost use Rattle.chip_config.specs.Settings.{settings};
    ghost use Rattle.plain_chip.specs.Views.{IsPlain, PlainView, plain_view};

    ghost Value = { PlainView };

    ghost view = { λ c. plain_view (settings c.config) c.code c.memory c.harts.items
        c.statuses.items c.regs.items c.log };

    ghost invariant = { λ c. IsPlain (plain_view (settings c.config) c.code c.memory c.harts.items
        c.statuses.items c.regs.items c.log) };
}

impl Plain {
    /// The parts at the start, with a cache for each of so many holders. All memory is taken here.
    pub fn new(
        alloc: Global,
        config: &Config,
        holders: u8,
        image: Image,
    ) -> Result<Plain, AllocError>
        requires holders { config.now.harts ≤ holders }
        requires few { holders ≤ 12 }
        requires base { image.code.base ≡ config.now.mem_base }
        requires bytes { length image.code.bytes ≡ config.now.mem_bytes }
        ensures { IfOk result (λ plain. IsMade (design_for config.now image) holders plain) }
    {
        let entry = image.entry();
        let mut code = image.into_code();
        code.keep_decoded(alloc)?;
        let memory = Coherent::new(
            alloc,
            config.line_bytes,
            holders,
            config.hart_sets,
            config.hart_ways,
            &code,
        )?;
        let harts = start_harts(alloc, config.harts, entry)?;
        let regs = start_regs(alloc, config.cores)?;
        let log = Traffic::new(alloc, config.trace_last)?;
        Ok(Plain {
            config: *config,
            code,
            memory,
            harts,
            statuses: idle_cores(config.cores),
            regs,
            log,
        })
    }

    /// Whether the machine has this hart or near-data core.
    pub fn has(&self, a: Actor) -> bool
        ensures { result ≡ is_actor_of self.now a }
    {
        match a {
            Actor::Hart(h) => (h as u32) < self.config.harts,
            Actor::Core(j) => (j as u32) < self.config.cores,
        }
    }

    /// The number of harts.
    pub fn hart_count(&self) -> u8
        ensures value { result ≡ self.now.config.harts }
        ensures few { result ≤ 8 }
    {
        self.config.harts as u8
    }

    /// The number of near-data cores.
    pub fn core_count(&self) -> u8
        ensures value { result ≡ self.now.config.cores }
        ensures few { result ≤ 4 }
    {
        self.config.cores as u8
    }

    /// The number of a core as a holder, behind the harts.
    pub fn holder_of(&self, j: u8) -> u8
        requires { j < self.now.config.cores }
        ensures { result ≡ self.now.config.harts + j }
    {
        self.config.harts as u8 + j
    }

    /// One event of a hart, which may be held.
    pub fn hart_event(&mut self, h: u8, held: bool, out: &mut ArrayVec<u8, 64>) -> Entry
        requires hart { h < self.old.config.harts }
        requires empty { out.old.items ≡ [] }
        ensures turns { (d : Design) (shape : Shape) (w : World) → ShowsPlain d shape self.old w
            → HartHappened d shape w h held self.new result out.new.items }
        ensures few { length out.new.items ≤ 1 }
        ensures config { self.new.config ≡ self.old.config }
        ensures holders { (shown self.new.memory).holders ≡ (shown self.old.memory).holders }
    {
        hart_event(
            h,
            held,
            &mut self.harts[h as usize],
            &self.code,
            &mut self.memory,
            &mut self.statuses,
            &mut self.regs,
            &mut self.log,
            out,
        )
    }

    /// Whether a near-data core runs a kernel.
    pub fn is_running(&self, j: u8) -> bool
        requires { j < self.now.config.cores }
        ensures { result ≡ runs_at self.now.statuses j }
    {
        matches!(self.statuses[j as usize], CoreStatus::Run)
    }

    /// One act of a core's kernel on the shared memory, where the core is this holder.
    pub fn kernel_event(&mut self, j: u8, holder: u8, out: &mut ArrayVec<u8, 64>)
        requires core { j < self.old.config.cores }
        requires runs { runs_at self.old.statuses j ≡ true }
        requires holder { holder < (shown self.old.memory).holders }
        requires empty { out.old.items ≡ [] }
        ensures turns { (d : Design) (shape : Shape) (w : World) → ShowsPlain d shape self.old w
            → KernelHappened d shape w j holder self.new out.new.items }
        ensures few { length out.new.items ≤ 1 }
        ensures config { self.new.config ≡ self.old.config }
        ensures holders { (shown self.new.memory).holders ≡ (shown self.old.memory).holders }
    {
        core_act(
            j,
            holder,
            &self.code,
            &mut self.memory,
            &mut self.statuses,
            &mut self.regs,
            &mut self.log,
            out,
        );
    }
}

impl Shown for Plain {
    ghost use Rattle.plain_chip.specs.Shows.{view_of_plain};

    ghost shown = { view_of_plain };

    fn harts(&self) -> u8 {
        self.harts.len() as u8
    }

    fn cores(&self) -> u8 {
        self.statuses.len() as u8
    }

    fn hart(&self, i: u8) -> (Regs, HartStatus) {
        let hart = &self.harts[i as usize];
        (hart.regs, hart.status)
    }

    fn core(&self, j: u8) -> (Regs, CoreStatus) {
        (self.regs[j as usize], self.statuses[j as usize])
    }

    fn sets(&self) -> u32 {
        self.config.hart_sets
    }

    fn slot(&self, i: u8, set: u32, way: u32) -> Option<(Line, Mesi)> {
        self.memory.at(i, set, way)
    }

    fn traffic(&self) -> &Traffic {
        &self.log
    }

    fn lines(&self) -> (Line, u32) {
        let line_bytes = self.config.line_bytes;
        (
            line_of(self.config.mem_base, line_bytes),
            self.config.mem_bytes / line_bytes,
        )
    }

    fn line_bytes(&self) -> u32 {
        self.config.line_bytes
    }

    fn line(&self, l: Line, out: &mut [u8; 128]) {
        self.memory.view(l, out);
    }

    fn loaded(&self, l: Line, out: &mut [u8; 128]) {
        hand_out_loaded(&self.code, self.config.line_bytes, l, out);
    }
}
