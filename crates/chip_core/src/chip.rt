// The whole chip.
ghost use Rattle.std.specs.Option.{option_copied};
ghost use Rattle.std.specs.Prelude.{ℕ, ◌<◌, slice_get, Some, ◌≡◌, ◌++◌, ◌∷◌, [], List, IsTrue, IfOk, length};
ghost use Rattle.conda_base.specs.declared.actor.Actor.{Actor};
ghost use Rattle.chip_laws.specs.Design.{Design, IsDesign, design_for};
ghost use Rattle.chip_laws.specs.Rules.{World, next};
ghost use Rattle.chip_laws.specs.Worlds.{output_of, world};
ghost use Rattle.chip_laws.specs.Untouched.{Untouched};
ghost use Rattle.chip_core.specs.Views.{is_actor_of};
ghost use Rattle.chip_core.specs.Shows.{Shows, Stands};
ghost use Rattle.chip_core.specs.Views.{try_at};
ghost use Rattle.coherent_mem.specs.Parts.{shown};
ghost use Rattle.coherent_mem.specs.Steps.{IsCoherent};
ghost use Rattle.offload_calls.specs.State.{start_hart};
ghost use Rattle.chip_core.specs.Turns.{IsReached, Turns};

use crate::cores::Cores;
use crate::event::Event;
use crate::harts::hart_event;
use crate::loaded::hand_out_loaded;
use crate::reporting::regs_of;
use crate::stage::Stage;
use crate::turns::core_event;
use arrayvec::ArrayVec;
use chip_config::Config;
use coherent_mem::Coherent;
use conda_base::{Actor, Line, Mesi, line_of};
use elf_loader::Image;
use offload_calls::{CoreStatus, Hart, HartStatus};
use portion_ctl::Open;
use run_report::Shown;
use rv32_hart::{Code, Regs};
use schedule_log::Entry;
use std::alloc::{AllocError, Global};
use std::marker::Model;
use traffic_trace::Traffic;

/// A chip with 1 to 8 harts and 1 to 4 near-data cores. One that is dropped abandons its open
/// tries.
#[derive(Drop)]
pub struct Chip {
    pub(crate) config: Config,
    code: Code,
    memory: Coherent,
    harts: Vec<Hart>,
    cores: Cores,
    log: Traffic,
}

impl Model for Chip {
    ghost use Rattle.chip_config.specs.Settings.{settings};
    ghost use Rattle.chip_core.specs.Views.{ChipView, IsChip, chip_view};

    ghost Value = { ChipView };

    ghost view = { λ c. chip_view (settings c.config) c.code c.memory c.harts.items c.cores c.log };

    ghost invariant = { λ c.
        IsChip (chip_view (settings c.config) c.code c.memory c.harts.items c.cores c.log) };
}

impl Chip {
    /// A chip at its start: memory holds the image, each hart is at the entry and each core idle. All
    /// its memory is taken here.
    pub fn new(alloc: Global, config: &Config, image: Image) -> Result<Chip, AllocError>
        requires base { image.code.base ≡ config.now.mem_base }
        requires bytes { length image.code.bytes ≡ config.now.mem_bytes }
        ensures { IfOk result (λ chip. Stands (design_for config.now image) chip []) }
    {
        let entry = image.entry();
        let mut code = image.into_code();
        code.keep_decoded(alloc)?;
        let memory = Coherent::new(
            alloc,
            config.line_bytes,
            config.harts as u8,
            config.hart_sets,
            config.hart_ways,
            &code,
        )?;
        let harts = start_harts(alloc, config.harts, entry)?;
        let cores = Cores::new(alloc, config)?;
        let log = Traffic::new(alloc, config.trace_last)?;
        Ok(Chip {
            config: *config,
            code,
            memory,
            harts,
            cores,
            log,
        })
    }

    /// Memory under the harts' caches.
    pub fn memory(&self) -> &Coherent
        ensures memory { result.now ≡ self.now.memory }
        ensures kept { IsCoherent (shown self.now.memory) }
    {
        &self.memory
    }

    /// The try that a near-data core has open.
    pub fn portion(&self, j: u8) -> Option<&Open>
        ensures { option_copied result ≡ try_at self.now j }
    {
        match self.cores.portions.get(j as usize)? {
            Stage::Open(open) => Some(open),
            Stage::Ready(_) | Stage::Flushing(_) | Stage::Moved => None,
        }
    }

    /// Whether the chip has this hart or near-data core.
    pub fn has(&self, a: Actor) -> bool
        ensures { result ≡ is_actor_of self.now a }
    {
        match a {
            Actor::Hart(h) => (h as u32) < self.config.harts,
            Actor::Core(j) => (j as u32) < self.config.cores,
        }
    }

    /// One event of a hart or near-data core.
    pub fn event(&mut self, a: Actor) -> Event
        requires { IsTrue (is_actor_of self.old a) }
        ensures entry { (d : Design) (events : List Actor) → Stands d self.old events
            → result.entry ≡ next d (world d events) a }
        ensures stands { (d : Design) (events : List Actor) → Stands d self.old events
            → Stands d self.new (events ++ a ∷ []) }
        ensures output { (d : Design) (events : List Actor) → Stands d self.old events
            → output_of d (events ++ a ∷ []) ≡ output_of d events ++ result.out.items }
        ensures untouched { (d : Design) (events : List Actor) → Stands d self.old events
            → Untouched d (events ++ a ∷ []) }
        ensures config { self.new.config ≡ self.old.config }
    {
        let mut out = ArrayVec::new();
        let entry = self.turn(a, &mut out);
        Event { entry, out }
    }

    // One event, over any world that the chip shows: its entry. What it puts comes into `out`, so
    // that no buffer is copied.
    pub(crate) fn turn(&mut self, a: Actor, out: &mut ArrayVec<u8, 64>) -> Entry
        requires has { IsTrue (is_actor_of self.old a) }
        requires empty { out.old.items ≡ [] }
        ensures turns { (d : Design) (w : World) → IsReached d w → Shows d self.old w
            → Turns d w a self.new result out.new.items }
        ensures config { self.new.config ≡ self.old.config }
    {
        match a {
            Actor::Hart(h) => hart_event(
                h,
                &mut self.harts[h as usize],
                &self.config,
                &self.code,
                &mut self.memory,
                &mut self.cores,
                &mut self.log,
                out,
            ),
            Actor::Core(j) => core_event(
                j,
                &self.config,
                &self.code,
                &mut self.memory,
                &mut self.cores,
                &mut self.log,
                out,
            ),
        }
    }
}

impl Shown for Chip {
    ghost use Rattle.chip_core.specs.Reports.{view_of_chip};

    ghost shown = { view_of_chip };

    fn harts(&self) -> u8 {
        self.harts.len() as u8
    }

    fn cores(&self) -> u8 {
        self.cores.statuses.len() as u8
    }

    fn hart(&self, i: u8) -> (Regs, HartStatus) {
        let hart = &self.harts[i as usize];
        (hart.regs, hart.status)
    }

    fn core(&self, j: u8) -> (Regs, CoreStatus) {
        (
            regs_of(&self.cores.portions[j as usize]),
            self.cores.statuses[j as usize],
        )
    }

    fn sets(&self) -> u32 {
        self.config.hart_sets
    }

    fn slot(&self, i: u8, set: u32, way: u32) -> Option<(Line, Mesi)> {
        self.memory.at(i, set, way)
    }

    fn traffic(&self) -> &Traffic {
        &self.log
    }

    fn lines(&self) -> (Line, u32) {
        let line_bytes = self.config.line_bytes;
        (
            line_of(self.config.mem_base, line_bytes),
            self.config.mem_bytes / line_bytes,
        )
    }

    fn line_bytes(&self) -> u32 {
        self.config.line_bytes
    }

    fn line(&self, l: Line, out: &mut [u8; 128]) {
        self.memory.view(l, out);
    }

    fn loaded(&self, l: Line, out: &mut [u8; 128]) {
        hand_out_loaded(&self.code, self.config.line_bytes, l, out);
    }
}

// The harts at the entry, each with its number in x10 and the number of harts in x11.
fn start_harts(alloc: Global, many: u32, entry: u32) -> Result<Vec<Hart>, AllocError>
    ensures many { IfOk result (λ harts. length harts.items ≡ many) }
    ensures start { IfOk result (λ harts. (h : ℕ) → h < many
        → slice_get harts.items h ≡ Some (start_hart entry many h)) }
{
    let mut harts = Vec::with_capacity(alloc, many as usize)?;
    for number in 0..many {
        let mut regs = Regs::new(entry);
        regs.x[10] = number;
        regs.x[11] = many;
        harts.push(Hart {
            regs,
            status: HartStatus::Run,
        })?;
    }
    Ok(harts)
}
