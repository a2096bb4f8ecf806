// Tries that are committed or taken back, over a plain memory and under a hart's cache.
ghost use Rattle.std.specs.Prelude.{◌≡◌, length, IfOk, IfSome};
ghost use Rattle.coherent_mem.specs.Parts.{shown};
ghost use Rattle.line_memory.specs.Backing.{bare};
ghost use Rattle.portion_ctl.specs.States.{FitsMemory};
ghost use Rattle.conflict_resolve.specs.InRange.{IsPortion};

use arrayvec::ArrayVec;
use chip_config::Config;
use coherent_mem::Coherent;
use conda_base::Line;
use conflict_resolve::{back, commit};
use line_memory::{Backing, LineMemory};
use nda_cache::Look;
use portion_ctl::{Acted, Ended, Flushed, Open, Ready, Verdict};
use rv32_hart::Code;
use std::alloc::{AllocError, Global};
use traffic_trace::{Kind, Traffic};

// sb x10, 0(x10); lw x5, 0(x10); addi x17, x0, 1004; ecall
const STORE_LOAD_DONE: [u8; 16] = [
    0x23, 0x00, 0xa5, 0x00, 0x83, 0x22, 0x05, 0x00, 0x93, 0x08, 0xc0, 0x3e, 0x73, 0x00, 0x00, 0x00,
];

// lw x5, 0(x10); addi x17, x0, 1004; ecall
const LOAD_DONE: [u8; 12] = [
    0x83, 0x22, 0x05, 0x00, 0x93, 0x08, 0xc0, 0x3e, 0x73, 0x00, 0x00, 0x00,
];

fn code_of(alloc: Global, bytes: &[u8; 256]) -> Result<Code, AllocError>
    ensures base { IfOk result (λ code. code.base ≡ 0) }
    ensures bytes { IfOk result (λ code. length code.bytes ≡ 256) }
{
    let bytes = Vec::from_slice(alloc, bytes)?;
    let mut ranges = ArrayVec::new();
    ranges.push((128, 64));
    Ok(Code::new(0, bytes, ranges))
}

// The end of a try within so many acts.
fn ended_within(
    portion: Open,
    acts: u32,
    code: &Code,
    memory: &LineMemory,
    log: &mut Traffic,
) -> Option<Ended>
    requires fits { FitsMemory code.now (bare memory.now) portion.limits.line_bytes }
    requires stands { IsPortion code.now portion }
    ensures stands { IfSome result (λ e. IsPortion code.now e.try) }
    ensures limits { IfSome result (λ e. e.try.limits ≡ portion.limits) }
{
    let mut open = portion;
    for _ in 0..acts {
        match open.act(code, memory, log) {
            Acted::Ran(next) => open = next,
            Acted::Ends(ended) => return Some(ended),
        }
    }
    let _ready = open.abandon();
    None
}

// What a ruling comes to: clear or not, acts, cause, the merges noted, and the first two bytes of
// the line that was stored to.
#[derive(Clone, Copy, Debug, PartialEq, Eq)]
struct Outcome {
    clear: bool,
    acts: u32,
    cause: u8,
    merges: u64,
    bytes: (u8, u8),
}

// A try that stores the byte 64 at 64 and loads the word there, where this line was changed by
// another.
fn outcome_of(alloc: Global, changed: u32) -> Result<Option<Outcome>, AllocError> {
    let config = Config::plain();
    if config.line_bytes != 64 {
        return Ok(None);
    }
    let mut bytes = [0; 256];
    bytes[64] = 7;
    bytes[65] = 9;
    bytes[128..144].copy_from_slice(&STORE_LOAD_DONE);
    let code = code_of(alloc, &bytes)?;
    let mut memory = LineMemory::new(alloc, 64, 0, &bytes)?;
    let mut log = Traffic::new(alloc, 4)?;
    let mut ready = Ready::new(alloc, 0, &config)?;
    ready.start(128, 64);
    let mut open = ready.open(false, &mut memory, &mut log);
    open.foreign(Line(changed));
    let Some(ended) = ended_within(open, 10, &code, &memory, &mut log) else {
        return Ok(None);
    };
    let (clear, acts, cause) = match ended.judge() {
        Verdict::Clear(clear) => {
            let _code = code.base();
            let _lines = memory.line_bytes();
            let kept = commit(clear, &mut memory, &mut log);
            (true, kept.n, kept.cause)
        }
        Verdict::Clash(clash) => {
            let undone = back(clash, &memory);
            (false, undone.n, undone.cause)
        }
    };
    let mut line = [0; 128];
    memory.copy(Line(1), &mut line);
    Ok(Some(Outcome {
        clear,
        acts,
        cause,
        merges: log.total(Kind::Merge),
        bytes: (line[0], line[1]),
    }))
}

#[test]
fn a_clear_try_merges_its_byte_alone(rt: HostRuntime) -> Result<(), AllocError> {
    let wanted = Outcome {
        clear: true,
        acts: 4,
        cause: 1,
        merges: 1,
        bytes: (64, 9),
    };
    assert_eq!(rt; outcome_of(rt.alloc(), 3)?, Some(wanted));
    Ok(())
}

#[test]
fn a_clashing_try_leaves_memory(rt: HostRuntime) -> Result<(), AllocError> {
    let wanted = Outcome {
        clear: false,
        acts: 4,
        cause: 1,
        merges: 0,
        bytes: (7, 9),
    };
    assert_eq!(rt; outcome_of(rt.alloc(), 1)?, Some(wanted));
    Ok(())
}

// What a late flush comes to: the word at 64 as the try has it, and whether the flush wrote a line
// back.
#[derive(Clone, Copy, Debug, PartialEq, Eq)]
struct LateFlush {
    word: Look,
    wrote: bool,
}

// The memory of a hart with a cache of one line, which has stored 9 at 64.
fn stored_by_hart(alloc: Global, code: &Code, log: &mut Traffic) -> Result<Coherent, AllocError>
    requires base { code.now.base ≡ 0 }
    requires bytes { length code.now.bytes ≡ 256 }
    ensures fits { IfOk result (λ m. FitsMemory code.now (shown m) 64) }
    ensures holders { IfOk result (λ m. (shown m).holders ≡ 1) }
{
    let mut memory = Coherent::new(alloc, 64, 1, 1, 1, code)?;
    memory.store(0, 64, 1, 9, log);
    Ok(memory)
}

// The end of a try within so many acts, with the word at 64 as the try then has it.
fn seen_within(
    portion: Open,
    acts: u32,
    code: &Code,
    memory: &Coherent,
    log: &mut Traffic,
) -> Option<(Look, Ended)>
    requires { FitsMemory code.now (shown memory.now) portion.limits.line_bytes }
{
    let mut open = portion;
    let mut word = Look::Missing;
    for _ in 0..acts {
        match open.act(code, memory, log) {
            Acted::Ran(next) => {
                word = next.cache().look(64, 4);
                open = next;
            }
            Acted::Ends(ended) => return Some((word, ended)),
        }
    }
    let _ready = open.abandon();
    None
}

// A try that loads the word at 64, which clashes with the hart's store, is taken back. The hart
// may load another line before the flush that is due, for which this one leaves its cache.
fn late_flush(alloc: Global, is_evicted: bool) -> Result<Option<LateFlush>, AllocError> {
    let config = Config::plain();
    if config.line_bytes != 64 {
        return Ok(None);
    }
    let mut bytes = [0; 256];
    bytes[64] = 7;
    bytes[128..140].copy_from_slice(&LOAD_DONE);
    let code = code_of(alloc, &bytes)?;
    let mut log = Traffic::new(alloc, 4)?;
    let mut memory = stored_by_hart(alloc, &code, &mut log)?;
    let mut ready = Ready::new(alloc, 0, &config)?;
    ready.start(128, 64);
    let open = ready.open(false, &mut memory, &mut log);
    let Some((word, ended)) = seen_within(open, 10, &code, &memory, &mut log) else {
        return Ok(None);
    };
    match ended.judge() {
        Verdict::Clear(clear) => {
            let _kept = clear.keep();
            Ok(None)
        }
        Verdict::Clash(clash) => {
            let undone = back(clash, &memory);
            if is_evicted {
                let _word = memory.load(0, 128, 4, &mut log);
            }
            let wrote = match undone.flushing.step(&mut memory, &mut log) {
                Flushed::Done(_) => false,
                Flushed::Wrote(_) => true,
            };
            Ok(Some(LateFlush { word, wrote }))
        }
    }
}

#[test]
fn a_fill_takes_the_copy_and_a_due_flush_may_end_early(rt: HostRuntime) -> Result<(), AllocError> {
    assert_eq!(rt;
        late_flush(rt.alloc(), false)?,
        Some(LateFlush {
            word: Look::Known(7),
            wrote: true,
        })
    );
    assert_eq!(rt;
        late_flush(rt.alloc(), true)?,
        Some(LateFlush {
            word: Look::Known(7),
            wrote: false,
        })
    );
    Ok(())
}
