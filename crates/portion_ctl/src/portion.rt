// A portion, as a state for each stage of a try. The states are moved one into the next and never
// copied.
use crate::acts::act_on;
use crate::body::Body;
use crate::walks::{first_member, open_memory};
use arrayvec::ArrayVec;
use bloom_sig::Signature;
use chip_config::Config;
use conda_base::Line;
use line_memory::Backing;
use nda_cache::NdaCache;
use offload_calls::CoreStatus;
use rv32_hart::{Code, Regs};
use std::alloc::{AllocError, Global};
use std::marker::Model;
use std::mem;
use traffic_trace::Traffic;
use try_runs::Limits;
use write_masks::Masked;

/// A core with no open try. All memory of its tries is taken when it is made.
#[derive(Drop)]
pub struct Ready {
    body: Box<Body>,
}

impl Model for Ready {
    ghost use Rattle.portion_ctl.specs.Views.{ReadyView};

    ghost Value = { ReadyView };

    ghost use Rattle.portion_ctl.specs.Bodies.{IsSized, ready_of};

    ghost view = { λ s. ready_of s.body.value };

    ghost invariant = { λ s. IsSized s.body.value };
}

/// A core with an open try. One that is dropped is abandoned.
pub struct Open {
    body: Box<Body>,
}

impl Model for Open {
    ghost use Rattle.portion_ctl.specs.Views.{OpenView};

    ghost Value = { OpenView };

    ghost use Rattle.portion_ctl.specs.Bodies.{HasParts, opened_of};

    ghost view = { λ s. opened_of s.body.value };

    ghost invariant = { λ s. HasParts s.body.value };
}

/// A core whose try has ended and is to be ruled on.
pub struct Ended {
    body: Box<Body>,
}

impl Model for Ended {
    ghost use Rattle.portion_ctl.specs.Views.{EndedView};

    ghost Value = { EndedView };

    ghost use Rattle.portion_ctl.specs.Bodies.{HasParts, ended_of};

    ghost view = { λ s. ended_of s.body.value };

    ghost invariant = { λ s. HasParts s.body.value };
}

/// A core whose ended try met no foreign line.
pub struct Clear {
    body: Box<Body>,
}

impl Model for Clear {
    ghost use Rattle.portion_ctl.specs.Views.{EndedView};

    ghost Value = { EndedView };

    ghost use Rattle.portion_ctl.specs.Bodies.{HasParts, ended_of};

    ghost view = { λ s. ended_of s.body.value };

    ghost invariant = { λ s. HasParts s.body.value };
}

/// A core whose ended try has to be taken back.
pub struct Clash {
    body: Box<Body>,
}

impl Model for Clash {
    ghost use Rattle.portion_ctl.specs.Views.{EndedView};

    ghost Value = { EndedView };

    ghost use Rattle.portion_ctl.specs.Bodies.{HasParts, ended_of};

    ghost view = { λ s. ended_of s.body.value };

    ghost invariant = { λ s. HasParts s.body.value };
}

/// A core whose last try was taken back, to which flushes are due.
#[derive(Drop)]
pub struct Flushing {
    body: Box<Body>,
}

impl Model for Flushing {
    ghost use Rattle.portion_ctl.specs.Views.{FlushingView};

    ghost Value = { FlushingView };

    ghost use Rattle.portion_ctl.specs.Bodies.{IsSized, flushing_of};

    ghost view = { λ s. flushing_of s.body.value };

    ghost invariant = { λ s. IsSized s.body.value };
}

/// What an event of an open try comes to.
pub enum Acted {
    /// One act was made.
    Ran(Open),
    /// A cause of the end stands, and nothing was done.
    Ends(Ended),
}

/// The ruling on an ended try.
pub enum Verdict {
    Clash(Clash),
    Clear(Clear),
}

/// What a core keeps of a try that commits.
#[derive(Drop)]
pub struct Kept {
    pub ready: Ready,
    pub status: CoreStatus,
    pub n: u32,
    pub cause: u8,
    pub out: ArrayVec<u8, 64>,
}

/// What a core keeps of a try that is taken back.
#[derive(Drop)]
pub struct Undone {
    pub flushing: Flushing,
    pub n: u32,
    pub cause: u8,
}

/// What an event of a core to which flushes are due comes to.
pub enum Flushed {
    /// None is due any more, and nothing was done.
    Done(Ready),
    /// One line was flushed.
    Wrote(Flushing),
}

impl Ready {
    ghost use Rattle.std.specs.Prelude.{◌≡◌, IfOk};
    ghost use Rattle.rv32_hart.specs.Regs.{start_regs};
    ghost use Rattle.rv32_hart.specs.Code.{CodeView};
    ghost use Rattle.bloom_sig.specs.Signatures.{no_lines};
    ghost use Rattle.offload_calls.specs.State.{launched_core};
    ghost use Rattle.line_memory.specs.Backing.{IsBacking, shape_of};
    ghost use Rattle.line_memory.specs.Notes.{all_noted, flushes_notes};
    ghost use Rattle.try_runs.specs.Fills.{Fills};
    ghost use Rattle.chip_config.specs.Settings.{settings};
    ghost use Rattle.try_runs.specs.Limits.{IsLimits, limits_of};
    ghost use Rattle.portion_ctl.specs.Stands.{IsOpen, StandsFor};
    ghost use Rattle.portion_ctl.specs.States.{OpensPortion, opened_from};
    ghost use Rattle.portion_ctl.specs.Walks.{all_flushed, flushed_lines};

    /// A core with all registers and pc 0. All memory for its tries is taken here.
    pub fn new(alloc: Global, core: u8, config: &Config) -> Result<Ready, AllocError>
        ensures value { IfOk result (λ s. s ≡ record {
          core = core;
          limits = limits_of (settings config.now);
          regs = start_regs 0;
        }) }
        ensures limits { IsLimits (limits_of (settings config.now)) }
    {
        let limits = Limits::of(config);
        let cache = NdaCache::new(alloc, limits.line_bytes, limits.core_sets, limits.core_ways)?;
        let read_set = Signature::new(alloc, limits.sig_bits)?;
        let write_set = Signature::new(alloc, limits.sig_bits)?;
        let foreign_set = Signature::new(alloc, limits.sig_bits)?;
        let body = Box::new(
            alloc,
            Body {
                core,
                limits,
                regs: Regs::new(0),
                checkpoint: None,
                status: CoreStatus::Run,
                acts: 0,
                cache,
                read_set,
                write_set,
                foreign_set,
                held: ArrayVec::new(),
                locked: false,
                cause: 0,
                due: 0,
            },
        )?;
        Ok(Ready { body })
    }

    /// Sets the registers of a launch: pc is the entry, x10 the argument, all else 0.
    pub fn start(&mut self, entry: u32, arg: u32)
        ensures { self.new ≡ record self.old { regs = (launched_core entry arg).regs } }
    {
        let mut regs = Regs::new(entry);
        regs.x[10] = arg;
        self.body.regs = regs;
    }

    /// The registers.
    pub fn regs(&self) -> &Regs
        ensures regs { result.now ≡ self.now.regs }
        ensures limits { IsLimits self.now.limits }
    {
        &self.body.regs
    }

    /// Opens a try from the registers. Under the lock every dirty line of memory is flushed, and no
    /// line counts as changed by others; else the dirty lines do.
    pub fn open<B: Backing>(self, locked: bool, mem: &mut B, log: &mut Traffic) -> Open
        ensures opens { OpensPortion self locked (B.shown mem.old) (B.shown mem.new) log.old log.new
            result }
        ensures stands { (code : CodeView) (fills : Fills)
            → StandsFor code result (record { regs = self.regs; fills = fills; acts = 0 }) }
        ensures kept { IsOpen result }
    {
        self.begin(locked, mem, log)
    }

    fn begin<B: Backing>(self, locked: bool, mem: &mut B, log: &mut Traffic) -> Open
        ensures opened { result ≡ opened_from self locked (B.shown mem.old) }
        ensures memory { B.shown mem.new
            ≡ all_flushed (B.shown mem.old) (flushed_lines locked (B.shown mem.old)) }
        ensures notes { log.new
            ≡ all_noted log.old
            (flushes_notes (shape_of (B.shown mem.old)) (B.shown mem.old).tags
            (flushed_lines locked (B.shown mem.old))) }
        ensures backing { IsBacking (B.shown mem.new) }
        ensures limits { IsLimits self.limits }
    {
        let Ready { mut body } = self;
        body.begin(locked);
        open_memory(locked, mem, &mut body.foreign_set, log);
        Open { body }
    }
}

impl Open {
    ghost use Rattle.std.specs.Prelude.{ℕ, ◌≡◌, length};
    ghost use Rattle.bloom_sig.specs.Signatures.{inserted, joined};
    ghost use Rattle.line_memory.specs.Notes.{all_noted};
    ghost use Rattle.try_runs.specs.Fills.{Portion};
    ghost use Rattle.portion_ctl.specs.Stands.{IsOpen, StandsFor};
    ghost use Rattle.portion_ctl.specs.States.{Acts, FitsMemory, Hears, HearsAll, KeepsTry, act_notes};
    ghost use Rattle.portion_ctl.specs.Views.{rests_with};

    /// Takes note of a line that another changed.
    pub fn foreign(&mut self, l: Line)
        ensures hears { Hears self.old self.new l }
        ensures kept { IsOpen self.new }
    {
        self.insert_foreign(l);
    }

    fn insert_foreign(&mut self, l: Line)
        ensures set { self.new ≡ record self.old { foreign_set = inserted self.old.foreign_set l } }
        ensures kept { IsOpen self.new }
    {
        self.body.foreign_set.insert(l);
    }

    /// Takes note of all lines of another's commit.
    pub fn foreign_all(&mut self, s: &Signature)
        requires { s.now.bits ≡ self.old.limits.sig_bits }
        ensures hears { HearsAll self.old self.new s.now }
        ensures kept { IsOpen self.new }
    {
        self.join_foreign(s);
    }

    fn join_foreign(&mut self, s: &Signature)
        requires { s.now.bits ≡ self.old.limits.sig_bits }
        ensures set { self.new
            ≡ record self.old { foreign_set = joined self.old.foreign_set s.now } }
        ensures bits { self.old.foreign_set.bits ≡ s.now.bits }
        ensures kept { IsOpen self.new }
    {
        self.body.foreign_set.join(s);
    }

    /// Whether the try runs under the lock.
    pub fn locked(&self) -> bool
        ensures { result ≡ self.now.locked }
    {
        self.body.locked
    }

    /// The registers of the opening.
    pub fn regs(&self) -> &Regs
        ensures regs { result.now ≡ self.now.opening }
        ensures kept { IsOpen self.now }
    {
        match &self.body.checkpoint {
            Some(checkpoint) => checkpoint.regs(),
            None => unreachable!(),
        }
    }

    /// The lines of the try.
    pub fn cache(&self) -> &NdaCache
        ensures { result.now ≡ self.now.cache }
    {
        &self.body.cache
    }

    /// Makes one act, or ends the try where a cause of its end stands. `code` and `mem` have the
    /// same addresses.
    pub fn act<B: Backing>(self, code: &Code, mem: &B, log: &mut Traffic) -> Acted
        requires { FitsMemory code.now (B.shown mem.now) self.limits.line_bytes }
        ensures acts { (p : Portion) → StandsFor code.now self p
            → Acts code.now (B.shown mem.now) p self result }
        ensures notes { (p : Portion) → StandsFor code.now self p
            → log.new ≡ all_noted log.old (act_notes code.now p self result) }
        ensures kept { KeepsTry self result }
    {
        let Open { mut body } = self;
        let _bytes = code.base();
        match act_on(&mut body, code, mem, log) {
            None => Acted::Ran(Open { body }),
            Some(cause) => {
                body.cause = cause;
                Acted::Ends(Ended { body })
            }
        }
    }

    /// Gives the try up: the core has the registers of the opening again.
    pub fn abandon(self) -> Ready
        ensures { result ≡ rests_with self self.opening }
    {
        let Open { mut body } = self;
        body.go_back();
        Ready { body }
    }
}

// A try that is let go is abandoned.
impl Drop for Open {
    fn drop(self) {
        let _ready = self.abandon();
    }
}

impl Ended {
    ghost use Rattle.portion_ctl.specs.Stands.{IsOpen};
    ghost use Rattle.portion_ctl.specs.States.{HasVerdict};

    /// Rules on the try. No other call makes a `Clear` or a `Clash`.
    pub fn judge(self) -> Verdict
        ensures rules { HasVerdict self result }
        ensures kept { IsOpen self.try }
    {
        let Ended { body } = self;
        if body.read_set.meet(&body.foreign_set) {
            Verdict::Clash(Clash { body })
        } else {
            Verdict::Clear(Clear { body })
        }
    }
}

impl Clear {
    ghost use Rattle.std.specs.Prelude.{◌≡◌, slice_get};
    ghost use Rattle.std.specs.Option.{option_map};
    ghost use Rattle.nda_cache.specs.Tried.{known_of, IsTried, IsWrittenInPlace};
    ghost use Rattle.portion_ctl.specs.Stands.{IsOpen};
    ghost use Rattle.portion_ctl.specs.States.{IsKeptOf};

    /// The core's number.
    pub fn core(&self) -> u8
        ensures { result ≡ self.now.try.core }
    {
        self.body.core
    }

    /// The signature of the stored lines.
    pub fn writes(&self) -> &Signature
        ensures signature { result.now ≡ self.now.try.write_set }
        ensures kept { IsOpen self.now.try }
    {
        &self.body.write_set
    }

    /// A stored line with its bytes and marks, by the order of first stores.
    pub fn written(&self, place: usize) -> Option<(Line, Masked)>
        ensures line { result
            ≡ option_map (λ l. (l, known_of self.now.try.cache l))
            (slice_get self.now.try.cache.stored place) }
        ensures kept { IsTried self.now.try.cache }
    {
        self.body.cache.written(place)
    }

    /// A stored line with its marks and marked bytes, by the order of first stores. Its other bytes
    /// mean nothing, and nothing is copied.
    pub fn written_in_place(&self, place: usize) -> Option<(Line, &Masked)>
        ensures line { IsWrittenInPlace self.now.try.cache place
            (option_map (λ x. (x.0, x.1.now)) result) }
        ensures kept { IsTried self.now.try.cache }
    {
        self.body.cache.written_in_place(place)
    }

    /// Keeps the registers, status and output of the try.
    pub fn keep(self) -> Kept
        ensures { IsKeptOf self result }
    {
        let Clear { mut body } = self;
        body.keep();
        let out = mem::replace(&mut body.held, ArrayVec::new());
        Kept {
            status: body.status,
            n: body.acts,
            cause: body.cause,
            out,
            ready: Ready { body },
        }
    }
}

impl Clash {
    ghost use Rattle.std.specs.Prelude.{◌≡◌};
    ghost use Rattle.portion_ctl.specs.Stands.{IsFlushing, IsOpen};
    ghost use Rattle.portion_ctl.specs.States.{IsUndoneOf};

    /// The signature of the lines read.
    pub fn reads(&self) -> &Signature
        ensures signature { result.now ≡ self.now.try.read_set }
        ensures kept { IsOpen self.now.try }
    {
        &self.body.read_set
    }

    /// Takes the try back: the core has the registers of the opening again, and so many flushes are
    /// due to it.
    pub fn undo(self, due: u32) -> Undone
        ensures undone { IsUndoneOf self due result }
        ensures kept { IsFlushing result.flushing }
    {
        let Clash { mut body } = self;
        body.go_back();
        body.due = due;
        Undone {
            n: body.acts,
            cause: body.cause,
            flushing: Flushing { body },
        }
    }
}

impl Flushing {
    ghost use Rattle.std.specs.Prelude.{◌≡◌};
    ghost use Rattle.line_memory.specs.Backing.{IsBacking};
    ghost use Rattle.line_memory.specs.Notes.{all_noted};
    ghost use Rattle.portion_ctl.specs.Stands.{IsFlushing};
    ghost use Rattle.portion_ctl.specs.States.{Flushes, next_flush, step_notes};

    /// The registers.
    pub fn regs(&self) -> &Regs
        ensures regs { result.now ≡ self.now.regs }
        ensures kept { IsFlushing self.now }
    {
        &self.body.regs
    }

    /// Flushes the first dirty line that is a member of the try's reads, where a flush is due and
    /// there is one.
    pub fn step<B: Backing>(self, mem: &mut B, log: &mut Traffic) -> Flushed
        ensures flushes { Flushes self (B.shown mem.old) (next_flush self (B.shown mem.old)) result
            (B.shown mem.new) }
        ensures notes { log.new
            ≡ all_noted log.old
            (step_notes (B.shown mem.old) (next_flush self (B.shown mem.old))) }
        ensures backing { IsBacking (B.shown mem.new) }
        ensures kept { IsFlushing self }
    {
        let Flushing { mut body } = self;
        let _whole_lines = mem.line_bytes();
        if body.due == 0 {
            return Flushed::Done(Ready { body });
        }
        match first_member(mem, &body.read_set) {
            None => Flushed::Done(Ready { body }),
            Some(l) => {
                mem.flush(l, log);
                body.due -= 1;
                Flushed::Wrote(Flushing { body })
            }
        }
    }
}
