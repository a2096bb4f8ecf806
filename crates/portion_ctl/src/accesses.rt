// Loads and stores of a try.
ghost use Rattle.std.specs.Prelude.{◌≡◌, ◌+◌, ◌%◌, ◌≤◌, ◌==◌, ◌&&◌, ◌⊎◌, ◌↔◌, true, false, not, Some, None, if◌then◌else◌};
ghost use Rattle.conda_base.specs.Lines.{IsAccessSize, line_offset};
ghost use Rattle.conda_base.specs.LineLists.{line_at};
ghost use Rattle.bloom_sig.specs.Signatures.{inserted, is_full_for, is_member};
ghost use Rattle.nda_cache.specs.Tried.{HasRoom, IsFound, IsTried, WritesLine};
ghost use Rattle.line_memory.specs.Notes.{all_noted};
ghost use Rattle.try_runs.specs.Fills.{corefill_notes};
ghost use Rattle.portion_ctl.specs.Bodies.{IsAccessIn, PutsInCache};
ghost use Rattle.portion_ctl.specs.Looks.{HasValue, IsRoom, IsSought, LooksUp, IsMissing, TakesValue, end_of_load, take_notes, with_fill};

use bloom_sig::Signature;
use conda_base::Line;
use line_memory::Backing;
use nda_cache::{Look, NdaCache};
use traffic_trace::{Kind, Note, Traffic};

// Whether a signature has as many lines as it may have, and would get one more with this line.
pub fn is_at_limit(lines: &Signature, limit: u32, l: Line) -> bool
    ensures { result ≡ is_full_for lines.now l limit }
{
    lines.fill() == limit && lines.is_new(l)
}

// The cause that stands against a load.
pub fn load_end(look: Look, reads: &Signature, limit: u32, l: Line) -> Option<u8>
    ensures { result ≡ end_of_load look (is_full_for reads.now l limit) }
{
    match look {
        Look::Known(_) => None,
        Look::Missing => {
            if is_at_limit(reads, limit, l) {
                Some(5)
            } else {
                None
            }
        }
        Look::Full => Some(4),
    }
}

// The bytes of a load, and where a search found their line.
#[derive(Clone, Copy)]
pub struct Sought {
    pub l: Line,
    pub found: Option<usize>,
    pub addr: u32,
    pub size: u8,
}

// The value of a load, and where its line now is.
#[derive(Clone, Copy)]
pub struct Taken {
    pub value: u32,
    pub found: Option<usize>,
}

// Takes memory's copy of a line that a load needs, and gives the load's value.
pub fn fetch<B: Backing>(
    core: u8,
    cache: &mut NdaCache,
    mem: &B,
    log: &mut Traffic,
    sought: Sought,
) -> Taken
    requires access { IsAccessIn (B.shown mem.now) cache.old.line_bytes sought.addr sought.size }
    requires sought { IsSought cache.old sought }
    requires needed { IsMissing cache.old sought.addr sought.size }
    ensures cache { cache.new ≡ with_fill (B.shown mem.now) cache.old sought.l }
    ensures value { HasValue cache.new sought.addr sought.size result.value }
    ensures found { IsFound cache.new sought.l result.found }
    ensures notes { log.new ≡ all_noted log.old (corefill_notes core (Some sought.l)) }
{
    let mut copy = [0; 128];
    let _whole_lines = mem.line_bytes();
    mem.copy(sought.l, &mut copy);
    let place = cache.fill_found(sought.found, sought.l, &copy);
    log.note(Note {
        kind: Kind::CoreFill,
        who: core,
        line: sought.l,
    });
    Taken {
        value: cache.read_found(place, sought.addr, sought.size),
        found: Some(place),
    }
}

// Makes a load that no cause stands against.
pub fn take<B: Backing>(
    core: u8,
    cache: &mut NdaCache,
    reads: &mut Signature,
    mem: &B,
    log: &mut Traffic,
    look: Look,
    sought: Sought,
) -> Taken
    requires access { IsAccessIn (B.shown mem.now) cache.old.line_bytes sought.addr sought.size }
    requires sought { IsSought cache.old sought }
    requires looks { LooksUp cache.old sought.addr sought.size look }
    requires room { IsRoom look }
    ensures takes { TakesValue (B.shown mem.now) cache.old reads.old sought.l sought.addr
        sought.size look cache.new reads.new result.value }
    ensures found { IsFound cache.new sought.l result.found }
    ensures notes { log.new ≡ all_noted log.old (take_notes core sought.l look) }
{
    match look {
        Look::Known(value) => Taken {
            value,
            found: sought.found,
        },
        Look::Missing => {
            reads.insert(sought.l);
            fetch(core, cache, mem, log, sought)
        }
        Look::Full => unreachable!(),
    }
}

// Stores a number into a line that was searched for and has room.
pub fn put(cache: &mut NdaCache, found: Option<usize>, l: Line, addr: u32, size: u8, value: u32)
    requires size { IsAccessSize size }
    requires aligned { addr % size ≡ 0 }
    requires line { l ≡ line_at cache.old.line_bytes addr }
    requires room { HasRoom cache.old l }
    requires found { IsFound cache.old l found }
    ensures { PutsInCache cache.old cache.new addr size value }
{
    cache.write_found(found, addr, size, value);
}
