// Worked examples on the whole memory.
ghost use Rattle.std.specs.Prelude.{◌≡◌, ◌+◌, ◌%◌, ◌<◌, ◌≤◌, IfOk};
ghost use Rattle.conda_base.specs.Lines.{IsLineSize};
ghost use Rattle.coherent_mem.specs.Parts.{shown};
ghost use Rattle.cache_examples.specs.Tried.{IsTestMemory};

use arrayvec::ArrayVec;
use coherent_mem::Coherent;
use conda_base::{Line, Mesi};
use line_memory::Backing;
use mesi_directory::Row;
use rv32_hart::Code;
use std::alloc::AllocError;
use std::process::Abort;
use std::test::Fail;
use traffic_trace::{Kind, Note, Traffic};

// 4096 bytes from address 0 on, under two caches with one set.
fn made(rt: &HostRuntime, line_bytes: u32, ways: u32) -> Result<Coherent, AllocError>
    requires size { IsLineSize line_bytes }
    requires some { 0 < ways }
    requires few { ways ≤ 8 }
    ensures { IfOk result (λ m. IsTestMemory (shown m)) }
{
    let bytes = vec![in rt.alloc(); 0; 4096]?;
    let code = Code::new(0, bytes, ArrayVec::new());
    Coherent::new(rt.alloc(), line_bytes, 2, 1, ways, &code)
}

fn put_byte(memory: &mut Coherent, h: u8, addr: u32, value: u32, log: &mut Traffic)
    requires tried { IsTestMemory (shown memory.old) }
    requires holder { h < 2 }
    requires within { addr + 1 ≤ 4096 }
    ensures { IsTestMemory (shown memory.new) }
{
    memory.store(h, addr, 1, value, log);
}

fn put(memory: &mut Coherent, h: u8, addr: u32, value: u32, log: &mut Traffic)
    requires tried { IsTestMemory (shown memory.old) }
    requires holder { h < 2 }
    requires aligned { addr % 4 ≡ 0 }
    requires within { addr + 4 ≤ 4096 }
    ensures { IsTestMemory (shown memory.new) }
{
    memory.store(h, addr, 4, value, log);
}

fn get(memory: &mut Coherent, h: u8, addr: u32, log: &mut Traffic) -> u32
    requires tried { IsTestMemory (shown memory.old) }
    requires holder { h < 2 }
    requires aligned { addr % 4 ≡ 0 }
    requires within { addr + 4 ≤ 4096 }
    ensures { IsTestMemory (shown memory.new) }
{
    memory.load(h, addr, 4, log)
}

fn taken(memory: &mut Coherent, h: u8, addr: u32, log: &mut Traffic) -> u32
    requires tried { IsTestMemory (shown memory.old) }
    requires holder { h < 2 }
    requires aligned { addr % 4 ≡ 0 }
    requires within { addr + 4 ≤ 4096 }
    ensures { IsTestMemory (shown memory.new) }
{
    memory.take(h, addr, log)
}

// The most recent line of a holder.
fn first(memory: &Coherent, h: u8) -> Option<(Line, Mesi)>
    requires tried { IsTestMemory (shown memory.now) }
    requires holder { h < 2 }
{
    memory.at(h, 0, 0)
}

// The first two bytes of a line as users see it, and of memory's own copy of it.
fn begin(memory: &Coherent, l: Line) -> ([u8; 2], [u8; 2])
    requires tried { IsTestMemory (shown memory.now) }
    requires line { l.0 < 32 }
{
    let mut seen = [0; 128];
    let mut copy = [0; 128];
    memory.view(l, &mut seen);
    memory.copy(l, &mut copy);
    ([seen[0], seen[1]], [copy[0], copy[1]])
}

fn row(memory: &Coherent, l: Line) -> Row
    requires tried { IsTestMemory (shown memory.now) }
    requires line { l.0 < 32 }
{
    memory.directory().row(l)
}

fn state(memory: &Coherent, h: u8, l: Line) -> Option<Mesi>
    requires tried { IsTestMemory (shown memory.now) }
    requires holder { h < 2 }
{
    memory.cache(h).state(l)
}

fn own_byte(memory: &Coherent, l: Line) -> u8
    requires tried { IsTestMemory (shown memory.now) }
    requires line { l.0 < 32 }
{
    let mut own = [0; 128];
    memory.plain().read(l, &mut own);
    own[0]
}

fn note(kind: Kind, who: u8, line: u32) -> Note {
    Note {
        kind,
        who,
        line: Line(line),
    }
}

fn check_notes(rt: &impl Abort, log: &Traffic, notes: &[Note]) {
    for (place, note) in notes.iter().enumerate() {
        assert_eq!(rt; log.last(place), Some(*note));
    }
    assert_eq!(rt; log.last(notes.len()), None);
}

#[test]
fn two_harts_share_one_set(rt: HostRuntime) -> Result<(), Fail> {
    let mut log = Traffic::new(rt.alloc(), 16)?;
    let mut memory = made(&rt, 64, 1)?;
    put_byte(&mut memory, 0, 64, 65, &mut log);
    put_byte(&mut memory, 1, 65, 66, &mut log);
    assert_eq!(rt; begin(&memory, Line(1)), ([65, 66], [65, 0]));
    get(&mut memory, 0, 128, &mut log);
    get(&mut memory, 1, 128, &mut log);
    assert_eq!(rt; begin(&memory, Line(1)), ([65, 66], [65, 66]));
    assert_eq!(rt; first(&memory, 0), Some((Line(2), Mesi::S)));
    assert_eq!(rt; first(&memory, 1), Some((Line(2), Mesi::S)));
    let notes = [
        note(Kind::Fill, 0, 1),
        note(Kind::Back, 0, 1),
        note(Kind::Drop, 0, 1),
        note(Kind::Fill, 1, 1),
        note(Kind::Fill, 0, 2),
        note(Kind::Down, 0, 2),
        note(Kind::Back, 1, 1),
        note(Kind::Evict, 1, 1),
        note(Kind::Fill, 1, 2),
    ];
    check_notes(&rt, &log, &notes);
    Ok(())
}

#[test]
fn an_atomic_is_a_take_and_a_store(rt: HostRuntime) -> Result<(), Fail> {
    let mut log = Traffic::new(rt.alloc(), 8)?;
    let mut memory = made(&rt, 32, 2)?;
    put(&mut memory, 1, 0, 5, &mut log);
    let word = taken(&mut memory, 0, 0, &mut log);
    put(&mut memory, 0, 0, word.wrapping_add(1), &mut log);
    assert_eq!(rt; get(&mut memory, 0, 0, &mut log), 6);
    let notes = [
        note(Kind::Fill, 1, 0),
        note(Kind::Back, 1, 0),
        note(Kind::Drop, 1, 0),
        note(Kind::Fill, 0, 0),
    ];
    check_notes(&rt, &log, &notes);
    Ok(())
}

#[test]
fn the_parts_are_handed_out(rt: HostRuntime) -> Result<(), Fail> {
    let mut log = Traffic::new(rt.alloc(), 8)?;
    let mut memory = made(&rt, 128, 2)?;
    put(&mut memory, 1, 128, 7, &mut log);
    assert_eq!(rt; state(&memory, 1, Line(1)), Some(Mesi::M));
    assert_eq!(rt; row(&memory, Line(1)), Row::Owner(1));
    assert_eq!(rt; own_byte(&memory, Line(1)), 0);
    get(&mut memory, 0, 128, &mut log);
    assert_eq!(rt; row(&memory, Line(1)), Row::Shared(0b11));
    assert_eq!(rt; own_byte(&memory, Line(1)), 7);
    Ok(())
}

#[test]
fn dirty_lines_are_flushed_and_merged(rt: HostRuntime) -> Result<(), Fail> {
    let mut log = Traffic::new(rt.alloc(), 8)?;
    let mut memory = made(&rt, 128, 2)?;
    put(&mut memory, 1, 0, 5, &mut log);
    put(&mut memory, 1, 128, 6, &mut log);
    assert_eq!(rt; dirty(&memory), (128, Some((2, Line(1)))));
    flush_first(&mut memory, &mut log);
    assert_eq!(rt; dirty(&memory), (128, Some((3, Line(0)))));
    merge_first(&mut memory, &mut log);
    assert_eq!(rt; dirty(&memory), (128, None));
    let notes = [
        note(Kind::Fill, 1, 0),
        note(Kind::Fill, 1, 1),
        note(Kind::Back, 1, 1),
        note(Kind::Back, 1, 0),
        note(Kind::Drop, 1, 0),
        note(Kind::Merge, 7, 0),
    ];
    check_notes(&rt, &log, &notes);
    Ok(())
}

fn dirty<B: Backing>(memory: &B) -> (u32, Option<(usize, Line)>) {
    (memory.line_bytes(), memory.next_dirty(0))
}

fn flush_first<B: Backing>(memory: &mut B, log: &mut Traffic) {
    if let Some((_, l)) = memory.next_dirty(0) {
        memory.flush(l, log);
    }
}

// Merges two bytes of the first dirty line, of which one is masked out.
fn merge_first<B: Backing>(memory: &mut B, log: &mut Traffic) {
    if let Some((_, l)) = memory.next_dirty(0) {
        memory.merge(7, l, &[9; 128], 0b10, log);
    }
}
