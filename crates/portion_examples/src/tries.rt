// Tries over a plain memory: what they come to, how they end, and states kept in a list. One runs
// over a line that its holder has newer than memory.
ghost use Rattle.std.specs.Prelude.{◌≡◌, length, IfOk};
ghost use Rattle.line_memory.specs.Backing.{bare};
ghost use Rattle.portion_ctl.specs.States.{FitsMemory};

mod lent;

use arrayvec::ArrayVec;
use bloom_sig::Signature;
use chip_config::Config;
use conda_base::Line;
use lent::Lent;
use line_memory::{Backing, LineMemory};
use nda_cache::Look;
use portion_ctl::{Acted, Ended, Flushed, Open, Ready, Verdict};
use rv32_hart::Code;
use std::alloc::{AllocError, Global};
use std::mem;
use std::process::Abort;
use std::test::Fail;
use traffic_trace::{Kind, Traffic};

// lw x5, 0(x10)
const LOAD: u32 = 0x0005_2283;

// lw x6, 64(x10)
const LOAD_NEXT_LINE: u32 = 0x0405_2303;

// sw x0, 0(x10)
const STORE: u32 = 0x0005_2023;

// sw x0, 64(x10)
const STORE_NEXT_LINE: u32 = 0x0405_2023;

// sb x0, 0(x10)
const STORE_BYTE: u32 = 0x0005_0023;

// amoadd.w x5, x10, (x10)
const ADD: u32 = 0x00a5_22af;

// addi x17, x0, 1003
const CALL_PUT: u32 = 0x3eb0_0893;

// addi x17, x0, 1004
const CALL_DONE: u32 = 0x3ec0_0893;

const ECALL: u32 = 0x0000_0073;

const EBREAK: u32 = 0x0010_0073;

// jal x0, 0
const LOOP: u32 = 0x0000_006f;

// Memory with 7 at 64 and these instructions from 128 on.
fn memory_bytes(words: [u32; 4]) -> [u8; 256] {
    let mut bytes = [0; 256];
    bytes[64] = 7;
    bytes[128..132].copy_from_slice(&words[0].to_le_bytes());
    bytes[132..136].copy_from_slice(&words[1].to_le_bytes());
    bytes[136..140].copy_from_slice(&words[2].to_le_bytes());
    bytes[140..144].copy_from_slice(&words[3].to_le_bytes());
    bytes
}

fn code_of(alloc: Global, bytes: &[u8; 256]) -> Result<Code, AllocError>
    ensures base { IfOk result (λ code. code.base ≡ 0) }
    ensures bytes { IfOk result (λ code. length code.bytes ≡ 256) }
{
    let bytes = Vec::from_slice(alloc, bytes)?;
    let mut ranges = ArrayVec::new();
    ranges.push((128, 64));
    Ok(Code::new(0, bytes, ranges))
}

// A core's state in a list, which is taken out while it is moved on.
#[derive(Drop)]
enum Seat {
    Free(Ready),
    Busy(Open),
    Moved,
}

// The end of a try within so many acts.
fn ended_within(
    portion: Open,
    acts: u32,
    code: &Code,
    memory: &LineMemory,
    log: &mut Traffic,
) -> Option<Ended>
    requires { FitsMemory code.now (bare memory.now) portion.limits.line_bytes }
{
    let mut open = portion;
    for _ in 0..acts {
        match open.act(code, memory, log) {
            Acted::Ran(next) => open = next,
            Acted::Ends(ended) => return Some(ended),
        }
    }
    let _ready = open.abandon();
    None
}

// What a try came to: whether it is clear, its acts, its cause, how many bytes it held, and the
// fills noted.
#[derive(Clone, Copy, Debug, PartialEq, Eq)]
struct End {
    clear: bool,
    acts: u32,
    cause: u8,
    held: usize,
    fills: u64,
}

// The end of these instructions' try with x10 at 64, where line 1 was changed by another or not.
fn end_of(
    alloc: Global,
    config: &Config,
    words: [u32; 4],
    changed: bool,
) -> Result<Option<End>, AllocError> {
    if config.line_bytes != 64 {
        return Ok(None);
    }
    let bytes = memory_bytes(words);
    let code = code_of(alloc, &bytes)?;
    let mut memory = LineMemory::new(alloc, 64, 0, &bytes)?;
    let mut log = Traffic::new(alloc, 4)?;
    let mut ready = Ready::new(alloc, 0, config)?;
    ready.start(128, 64);
    let mut open = ready.open(false, &mut memory, &mut log);
    if changed {
        open.foreign(Line(1));
    }
    let ended = ended_within(open, 10, &code, &memory, &mut log);
    let fills = log.total(Kind::CoreFill);
    Ok(match ended {
        None => None,
        Some(ended) => Some(ruled(ended, fills)),
    })
}

// The ruling on an ended try.
fn ruled(ended: Ended, fills: u64) -> End {
    match ended.judge() {
        Verdict::Clear(clear) => {
            let kept = clear.keep();
            End {
                clear: true,
                acts: kept.n,
                cause: kept.cause,
                held: kept.out.len(),
                fills,
            }
        }
        Verdict::Clash(clash) => {
            let undone = clash.undo(0);
            End {
                clear: false,
                acts: undone.n,
                cause: undone.cause,
                held: 0,
                fills,
            }
        }
    }
}

fn clear_end(acts: u32, cause: u8, held: usize, fills: u64) -> Option<End> {
    Some(End {
        clear: true,
        acts,
        cause,
        held,
        fills,
    })
}

#[test]
fn half_covered(rt: HostRuntime) -> Result<(), AllocError> {
    let config = Config::plain();
    let byte = [STORE_BYTE, LOAD, CALL_DONE, ECALL];
    assert_eq!(rt;
        end_of(rt.alloc(), &config, byte, true)?,
        Some(End {
            clear: false,
            acts: 4,
            cause: 1,
            held: 0,
            fills: 1,
        })
    );
    let word = [STORE, LOAD, CALL_DONE, ECALL];
    assert_eq!(rt;
        end_of(rt.alloc(), &config, word, true)?,
        clear_end(4, 1, 0, 0)
    );
    Ok(())
}

#[test]
fn a_trap_ends_a_try_after_its_act(rt: HostRuntime) -> Result<(), AllocError> {
    let config = Config::plain();
    assert_eq!(rt;
        end_of(rt.alloc(), &config, [CALL_DONE, EBREAK, 0, 0], false)?,
        clear_end(2, 2, 0, 0)
    );
    Ok(())
}

#[test]
fn a_try_ends_after_its_steps(rt: HostRuntime) -> Result<(), AllocError> {
    let mut config = Config::plain();
    config.portion_max = 2;
    assert_eq!(rt;
        end_of(rt.alloc(), &config, [LOOP, 0, 0, 0], false)?,
        clear_end(2, 3, 0, 0)
    );
    Ok(())
}

#[test]
fn a_full_set_ends_a_try(rt: HostRuntime) -> Result<(), AllocError> {
    let mut config = Config::plain();
    config.core_sets = 1;
    config.core_ways = 1;
    assert_eq!(rt;
        end_of(rt.alloc(), &config, [LOAD, LOAD_NEXT_LINE, 0, 0], false)?,
        clear_end(1, 4, 0, 1)
    );
    assert_eq!(rt;
        end_of(rt.alloc(), &config, [STORE, STORE_NEXT_LINE, 0, 0], false)?,
        clear_end(1, 4, 0, 0)
    );
    Ok(())
}

#[test]
fn a_full_read_signature_ends_a_try(rt: HostRuntime) -> Result<(), AllocError> {
    let mut config = Config::plain();
    config.read_limit = 1;
    assert_eq!(rt;
        end_of(rt.alloc(), &config, [LOAD, LOAD_NEXT_LINE, 0, 0], false)?,
        clear_end(1, 5, 0, 1)
    );
    Ok(())
}

#[test]
fn a_full_write_signature_ends_a_try(rt: HostRuntime) -> Result<(), AllocError> {
    let mut config = Config::plain();
    config.write_limit = 1;
    assert_eq!(rt;
        end_of(rt.alloc(), &config, [STORE, STORE_NEXT_LINE, 0, 0], false)?,
        clear_end(1, 6, 0, 0)
    );
    Ok(())
}

#[test]
fn full_output_ends_a_try(rt: HostRuntime) -> Result<(), AllocError> {
    let mut config = Config::plain();
    config.out_max = 1;
    assert_eq!(rt;
        end_of(rt.alloc(), &config, [CALL_PUT, ECALL, ECALL, 0], false)?,
        clear_end(2, 7, 1, 0)
    );
    Ok(())
}

// The word at 64 as a try stores it that adds 64 to it, with the marks of its line, and register 5.
fn added(rt: &impl Abort, alloc: Global) -> Result<(Line, u128, u32, u32), AllocError> {
    let config = Config::plain();
    assert_eq!(rt; config.line_bytes, 64);
    let bytes = memory_bytes([ADD, CALL_DONE, ECALL, 0]);
    let code = code_of(alloc, &bytes)?;
    let mut memory = LineMemory::new(alloc, 64, 0, &bytes)?;
    let mut log = Traffic::new(alloc, 4)?;
    let mut ready = Ready::new(alloc, 2, &config)?;
    ready.start(128, 64);
    let open = ready.open(false, &mut memory, &mut log);
    let Some(ended) = ended_within(open, 10, &code, &memory, &mut log) else {
        return Ok((Line(0), 0, 0, 0));
    };
    match ended.judge() {
        Verdict::Clash(clash) => {
            let _undone = clash.undo(0);
            Ok((Line(0), 0, 0, 1))
        }
        Verdict::Clear(clear) => {
            assert_eq!(rt; clear.core(), 2);
            assert!(rt; clear.writes().member(Line(1)));
            let (line, mask, low) = match clear.written(0) {
                None => (Line(0), 0, 0),
                Some((line, masked)) => (line, masked.mask, u32::from(masked.bytes[0])),
            };
            let kept = clear.keep();
            Ok((line, mask, low, kept.ready.regs().x[5]))
        }
    }
}

#[test]
fn an_atomic_loads_and_stores(rt: HostRuntime) -> Result<(), AllocError> {
    assert_eq!(rt; added(&rt, rt.alloc())?, (Line(1), 15, 71, 7));
    Ok(())
}

// A try that read line 1, taken back with one flush due: how its step over a clean memory answers.
fn stepped(rt: &impl Abort, alloc: Global) -> Result<(u32, bool), AllocError> {
    let config = Config::plain();
    assert_eq!(rt; config.line_bytes, 64);
    let bytes = memory_bytes([LOAD, CALL_DONE, ECALL, 0]);
    let code = code_of(alloc, &bytes)?;
    let mut memory = LineMemory::new(alloc, 64, 0, &bytes)?;
    let mut log = Traffic::new(alloc, 4)?;
    let mut ready = Ready::new(alloc, 0, &config)?;
    ready.start(128, 64);
    let mut open = ready.open(false, &mut memory, &mut log);
    let mut others = Signature::new(alloc, 9)?;
    others.insert(Line(1));
    if config.sig_bits == 9 {
        open.foreign_all(&others);
    }
    let Some(ended) = ended_within(open, 10, &code, &memory, &mut log) else {
        return Ok((0, false));
    };
    match ended.judge() {
        Verdict::Clear(clear) => {
            let _kept = clear.keep();
            Ok((0, false))
        }
        Verdict::Clash(clash) => {
            assert!(rt; clash.reads().member(Line(1)));
            let undone = clash.undo(1);
            let pc = undone.flushing.regs().pc;
            let done = match undone.flushing.step(&mut memory, &mut log) {
                Flushed::Done(_) => true,
                Flushed::Wrote(_) => false,
            };
            Ok((pc, done))
        }
    }
}

#[test]
fn a_step_over_a_clean_memory_is_done(rt: HostRuntime) -> Result<(), AllocError> {
    assert_eq!(rt; stepped(&rt, rt.alloc())?, (128, true));
    Ok(())
}

#[test]
fn a_seat_is_moved_on(rt: HostRuntime) -> Result<(), Fail> {
    let config = Config::plain();
    assert_eq!(rt; config.line_bytes, 64);
    let bytes = memory_bytes([LOOP, 0, 0, 0]);
    let mut memory = LineMemory::new(rt.alloc(), 64, 0, &bytes)?;
    let mut log = Traffic::new(rt.alloc(), 4)?;
    let mut seats = Vec::new(rt.alloc());
    seats.push(Seat::Free(Ready::new(rt.alloc(), 0, &config)?))?;
    assert_eq!(rt; seats.len(), 1);
    let Seat::Free(ready) = mem::replace(&mut seats[0], Seat::Moved) else {
        return Err("a seat that isn't free".into());
    };
    seats[0] = Seat::Busy(ready.open(true, &mut memory, &mut log));
    let Seat::Busy(open) = &seats[0] else {
        return Err("a seat that isn't busy".into());
    };
    assert!(rt; open.locked());
    assert_eq!(rt; open.regs().pc, 0);
    assert!(rt; !open.cache().filled(Line(1)));
    Ok(())
}

// A line with a try's instructions in front and this byte at 32.
fn line_with(byte: u8) -> [u8; 64] {
    let mut bytes = [0; 64];
    bytes[..4].copy_from_slice(&LOAD.to_le_bytes());
    bytes[4..8].copy_from_slice(&CALL_DONE.to_le_bytes());
    bytes[8..12].copy_from_slice(&ECALL.to_le_bytes());
    bytes[32] = byte;
    bytes
}

fn code_of_line(alloc: Global, bytes: &[u8; 64]) -> Result<Code, AllocError>
    ensures base { IfOk result (λ code. code.base ≡ 0) }
    ensures bytes { IfOk result (λ code. length code.bytes ≡ 64) }
{
    let bytes = Vec::from_slice(alloc, bytes)?;
    let mut ranges = ArrayVec::new();
    ranges.push((0, 32));
    Ok(Code::new(0, bytes, ranges))
}

// The end of a try within so many acts, with the word at 32 as the try then has it.
fn seen_within(
    portion: Open,
    acts: u32,
    code: &Code,
    memory: &Lent,
    log: &mut Traffic,
) -> Option<(Look, Ended)>
    requires { FitsMemory code.now (⟦<Lent as Backing>⟧.shown memory.now)
        portion.limits.line_bytes }
{
    let mut open = portion;
    let mut word = Look::Missing;
    for _ in 0..acts {
        match open.act(code, memory, log) {
            Acted::Ran(next) => {
                word = next.cache().look(32, 4);
                open = next;
            }
            Acted::Ends(ended) => return Some((word, ended)),
        }
    }
    let _ready = open.abandon();
    None
}

// What a late flush comes to: the word at 32 as the try has it, whether the flush wrote a line
// back, and how many notes there are before and after it.
#[derive(Clone, Copy, Debug, PartialEq, Eq)]
struct LateFlush {
    word: Look,
    wrote: bool,
    notes: (usize, usize),
}

// A try that loads the word at 32, which clashes with the holder's store, is taken back. The
// holder may write the line back before the flush that is due.
fn late_flush(alloc: Global, is_written_back: bool) -> Result<Option<LateFlush>, AllocError> {
    let config = Config::plain();
    if config.line_bytes != 64 {
        return Ok(None);
    }
    let bytes = line_with(7);
    let code = code_of_line(alloc, &bytes)?;
    let mut memory = Lent::stored(bytes, line_with(9));
    let mut log = Traffic::new(alloc, 4)?;
    let mut ready = Ready::new(alloc, 0, &config)?;
    ready.start(0, 32);
    let open = ready.open(false, &mut memory, &mut log);
    let Some((word, ended)) = seen_within(open, 10, &code, &memory, &mut log) else {
        return Ok(None);
    };
    match ended.judge() {
        Verdict::Clear(clear) => {
            let _kept = clear.keep();
            Ok(None)
        }
        Verdict::Clash(clash) => {
            let undone = clash.undo(1);
            if is_written_back {
                memory.write_back(&mut log);
            }
            let before = log.kept();
            let wrote = match undone.flushing.step(&mut memory, &mut log) {
                Flushed::Done(_) => false,
                Flushed::Wrote(_) => true,
            };
            let notes = (before, log.kept());
            Ok(Some(LateFlush { word, wrote, notes }))
        }
    }
}

#[test]
fn a_fill_takes_the_copy_and_a_due_flush_may_end_early(rt: HostRuntime) -> Result<(), AllocError> {
    assert_eq!(rt;
        late_flush(rt.alloc(), false)?,
        Some(LateFlush {
            word: Look::Known(7),
            wrote: true,
            notes: (1, 2),
        })
    );
    assert_eq!(rt;
        late_flush(rt.alloc(), true)?,
        Some(LateFlush {
            word: Look::Known(7),
            wrote: false,
            notes: (2, 2),
        })
    );
    Ok(())
}
