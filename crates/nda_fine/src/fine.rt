// The whole machine.
ghost use Rattle.std.specs.Prelude.{◌≡◌, ◌<◌, ◌≤◌, ◌++◌, ◌∷◌, [], List, IsTrue, IfOk, length};
ghost use Rattle.std.specs.Option.{option_to_list};
ghost use Rattle.conda_base.specs.declared.actor.Actor.{Actor};
ghost use Rattle.conda_base.specs.declared.actor.Actor.TheVariants as Actor_is;
ghost use Rattle.chip_laws.specs.Design.{Design, design_for};
ghost use Rattle.baseline_laws.specs.Worlds.{World};
ghost use Rattle.plain_chip.specs.Views.{is_actor_of};
ghost use Rattle.nda_fine.specs.Fine.{FineShows, FineStands, FineTurns, fine_entry, fine_output};

use arrayvec::ArrayVec;
use chip_config::Config;
use conda_base::{Actor, Line, Mesi};
use elf_loader::Image;
use offload_calls::{CoreStatus, HartStatus};
use plain_chip::Plain;
use run_report::Shown;
use rv32_hart::Regs;
use schedule_log::Entry;
use std::alloc::{AllocError, Global};
use std::marker::Model;
use traffic_trace::Traffic;

/// What an event was, and the byte that it made output.
#[derive(Debug, Drop)]
pub struct FineEvent {
    pub entry: Entry,
    pub out: Option<u8>,
}

/// A machine with 1 to 8 harts and 1 to 4 near-data cores, each with a cache under one directory.
#[derive(Drop)]
pub struct FineChip {
    plain: Plain,
}

impl Model for FineChip {
    ghost use Rattle.plain_chip.specs.Views.{PlainView};
    ghost use Rattle.nda_fine.specs.Fine.{IsFine};

    ghost Value = { PlainView };

    ghost view = { λ c. c.plain };

    ghost invariant = { λ c. IsFine c.plain };
}

impl FineChip {
    /// A machine at its start. All its memory is taken here.
    pub fn new(alloc: Global, config: &Config, image: Image) -> Result<FineChip, AllocError>
        requires base { image.code.base ≡ config.now.mem_base }
        requires bytes { length image.code.bytes ≡ config.now.mem_bytes }
        ensures { IfOk result (λ chip. FineStands (design_for config.now image) chip []) }
    {
        let holders = (config.harts + config.cores) as u8;
        let plain = Plain::new(alloc, config, holders, image)?;
        Ok(FineChip { plain })
    }

    /// Whether the machine has this hart or near-data core.
    pub fn has(&self, a: Actor) -> bool
        ensures { result ≡ is_actor_of self.now a }
    {
        self.plain.has(a)
    }

    /// One event of a hart or near-data core.
    pub fn event(&mut self, a: Actor) -> FineEvent
        requires { IsTrue (is_actor_of self.old a) }
        ensures entry { (d : Design) (events : List Actor) → FineStands d self.old events
            → result.entry ≡ fine_entry d events a }
        ensures stands { (d : Design) (events : List Actor) → FineStands d self.old events
            → FineStands d self.new (events ++ a ∷ []) }
        ensures output { (d : Design) (events : List Actor) → FineStands d self.old events
            → fine_output d (events ++ a ∷ [])
            ≡ fine_output d events ++ option_to_list result.out }
        ensures config { self.new.config ≡ self.old.config }
    {
        let mut out = ArrayVec::new();
        let entry = self.turn(a, &mut out);
        FineEvent {
            entry,
            out: only_byte(&out),
        }
    }

    // One event, over any world that the machine shows.
    pub(crate) fn turn(&mut self, a: Actor, out: &mut ArrayVec<u8, 64>) -> Entry
        requires has { IsTrue (is_actor_of self.old a) }
        requires empty { out.old.items ≡ [] }
        ensures turns { (d : Design) (w : World) → FineShows d self.old w
            → FineTurns d w a self.new result out.new.items }
        ensures few { length out.new.items ≤ 1 }
        ensures config { self.new.config ≡ self.old.config }
    {
        match a {
            Actor::Hart(h) => self.plain.hart_event(h, false, out),
            Actor::Core(j) => self.core_event(j, out),
        }
    }

    // One event of a core: it is idle, or its kernel makes one act on the shared memory.
    fn core_event(&mut self, j: u8, out: &mut ArrayVec<u8, 64>) -> Entry
        requires core { j < self.old.config.cores }
        requires empty { out.old.items ≡ [] }
        ensures turns { (d : Design) (w : World) → FineShows d self.old w
            → FineTurns d w (Actor_is.Core j) self.new result out.new.items }
        ensures few { length out.new.items ≤ 1 }
        ensures config { self.new.config ≡ self.old.config }
    {
        if !self.plain.is_running(j) {
            return Entry::Idle(Actor::Core(j));
        }
        let holder = self.plain.holder_of(j);
        self.plain.kernel_event(j, holder, out);
        Entry::Kern(j)
    }

    pub(crate) fn hart_count(&self) -> u8
        ensures { result ≡ self.now.config.harts }
    {
        self.plain.hart_count()
    }

    pub(crate) fn core_count(&self) -> u8
        ensures { result ≡ self.now.config.cores }
    {
        self.plain.core_count()
    }
}

// The byte of a buffer that has one at most.
fn only_byte(out: &ArrayVec<u8, 64>) -> Option<u8>
    requires { length out.now.items ≤ 1 }
    ensures { option_to_list result ≡ out.now.items }
{
    if out.is_empty() { None } else { Some(out[0]) }
}

impl Shown for FineChip {
    ghost use Rattle.plain_chip.specs.Shows.{view_of_plain};

    ghost shown = { view_of_plain };

    fn harts(&self) -> u8 {
        self.plain.harts()
    }

    fn cores(&self) -> u8 {
        self.plain.cores()
    }

    fn hart(&self, i: u8) -> (Regs, HartStatus) {
        self.plain.hart(i)
    }

    fn core(&self, j: u8) -> (Regs, CoreStatus) {
        self.plain.core(j)
    }

    fn sets(&self) -> u32 {
        self.plain.sets()
    }

    fn slot(&self, i: u8, set: u32, way: u32) -> Option<(Line, Mesi)> {
        self.plain.slot(i, set, way)
    }

    fn traffic(&self) -> &Traffic {
        self.plain.traffic()
    }

    fn lines(&self) -> (Line, u32) {
        self.plain.lines()
    }

    fn line_bytes(&self) -> u32 {
        self.plain.line_bytes()
    }

    fn line(&self, l: Line, out: &mut [u8; 128]) {
        self.plain.line(l, out);
    }

    fn loaded(&self, l: Line, out: &mut [u8; 128]) {
        self.plain.loaded(l, out);
    }
}
