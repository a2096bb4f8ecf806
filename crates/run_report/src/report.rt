// The report is put into its target piece by piece. Each piece takes a buffer of its own, and no
// memory.
ghost use Rattle.std.specs.Prelude.{◌≡◌, ◌<◌, ◌++◌, length, slice_index, OnOk, OnErr};
ghost use Rattle.conda_base.specs.Lines.{IsLineOf};
ghost use Rattle.streams.specs.Seen.{fault_in};
ghost use Rattle.run_report.specs.View.{IsShown};
ghost use Rattle.run_report.specs.Texts.{head_text, register_text, registers_text, hart_text, core_text, harts_text, cores_text, changed_text, changes_text, actors_text, slot_text, set_text, cache_text, caches_text, lines_text, note_at_text, notes_text, totals_line_text, traffic_text, state_text, body_text, report_text};
ghost use Rattle.run_report.specs.FlatText.{flat_text_of};
ghost use Rattle.run_report.specs.Writes.{Wrote, WrotePart, Writes};

use crate::line::{
    changed_line, core_line, hart_line, head_lines, note_line, register_line, tag_line, totals_line,
};
use crate::report_file::ReportFile;
use crate::shown::Shown;
use crate::target::ReportTarget;
use conda_base::Line;
use rv32_hart::Regs;
use streams::{Fault, Streams};

/// The most lines of a set.
const MOST_WAYS: u32 = 8;

// A register is shown where it isn't x0 and isn't 0.
#[tactic(auto, unfolding(crate::specs::Texts::register_text))]
fn write_register<T: ReportTarget>(target: &mut T, regs: &Regs, number: u8) -> Result<(), T::Stop>
    requires { number < 32 }
    ensures { Writes T.wrote T.stopped target.old target.new
        (register_text regs.now.x number) result }
{
    let value = regs.get(number);
    if number == 0 || value == 0 {
        return Ok(());
    }
    target.put(register_line(number, value).as_slice())
}

fn write_registers<T: ReportTarget>(target: &mut T, regs: &Regs) -> Result<(), T::Stop>
    ensures { Writes T.wrote T.stopped target.old target.new
        (registers_text regs.now.x) result }
{
    for number in 0..32 {
        write_register(target, regs, number)?;
    }
    Ok(())
}

fn write_hart<T: ReportTarget, C: Shown>(
    target: &mut T,
    chip: &C,
    number: u8,
) -> Result<(), T::Stop>
    requires { number < (C.shown chip.now).harts }
    ensures { Writes T.wrote T.stopped target.old target.new
        (hart_text (C.shown chip.now) number) result }
{
    let (regs, status) = chip.hart(number);
    target.put(hart_line(number, status, regs.pc).as_slice())?;
    write_registers(target, &regs)
}

fn write_core<T: ReportTarget, C: Shown>(
    target: &mut T,
    chip: &C,
    number: u8,
) -> Result<(), T::Stop>
    requires { number < (C.shown chip.now).cores }
    ensures { Writes T.wrote T.stopped target.old target.new
        (core_text (C.shown chip.now) number) result }
{
    let (regs, status) = chip.core(number);
    target.put(core_line(number, status, regs.pc).as_slice())?;
    write_registers(target, &regs)
}

fn write_harts<T: ReportTarget, C: Shown>(target: &mut T, chip: &C) -> Result<(), T::Stop>
    ensures { Writes T.wrote T.stopped target.old target.new
        (harts_text (C.shown chip.now)) result }
{
    for number in 0..chip.harts() {
        write_hart(target, chip, number)?;
    }
    Ok(())
}

fn write_cores<T: ReportTarget, C: Shown>(target: &mut T, chip: &C) -> Result<(), T::Stop>
    ensures { Writes T.wrote T.stopped target.old target.new
        (cores_text (C.shown chip.now)) result }
{
    for number in 0..chip.cores() {
        write_core(target, chip, number)?;
    }
    Ok(())
}

// A line of memory is shown where its bytes aren't those that were loaded.
fn write_change<T: ReportTarget, C: Shown>(target: &mut T, chip: &C, l: Line) -> Result<(), T::Stop>
    requires kept { IsShown (C.shown chip.now) }
    requires line { IsLineOf (C.shown chip.now).base (length (C.shown chip.now).memory)
        (C.shown chip.now).line_bytes l.0 }
    ensures { Writes T.wrote T.stopped target.old target.new
        (changed_text (C.shown chip.now) l.0) result }
{
    let line_bytes = chip.line_bytes();
    let many = line_bytes as usize;
    let mut now = [0u8; 128];
    chip.line(l, &mut now);
    let mut loaded = [0u8; 128];
    chip.loaded(l, &mut loaded);
    if now[..many] == loaded[..many] {
        return Ok(());
    }
    target.put(changed_line(l.0 * line_bytes, &now[..many]).as_slice())
}

fn write_changes<T: ReportTarget, C: Shown>(target: &mut T, chip: &C) -> Result<(), T::Stop>
    ensures { Writes T.wrote T.stopped target.old target.new
        (changes_text (C.shown chip.now)) result }
{
    let (first, many) = chip.lines();
    for place in 0..many {
        write_change(target, chip, Line(first.0 + place))?;
    }
    Ok(())
}

fn write_actors<T: ReportTarget, C: Shown>(target: &mut T, chip: &C) -> Result<(), T::Stop>
    ensures { Writes T.wrote T.stopped target.old target.new
        (actors_text (C.shown chip.now)) result }
{
    write_harts(target, chip)?;
    write_cores(target, chip)
}

// A way of a set of a hart's cache, where it has a line.
#[tactic(auto, unfolding(crate::specs::Texts::slot_text))]
fn write_slot<T: ReportTarget, C: Shown>(
    target: &mut T,
    chip: &C,
    hart: u8,
    set: u32,
    way: u32,
) -> Result<(), T::Stop>
    requires kept { IsShown (C.shown chip.now) }
    requires hart { hart < (C.shown chip.now).harts }
    requires set { set < (C.shown chip.now).sets }
    ensures { Writes T.wrote T.stopped target.old target.new
        (slot_text (C.shown chip.now) hart set way) result }
{
    let line_bytes = chip.line_bytes();
    match chip.slot(hart, set, way) {
        Some((line, state)) => target.put(tag_line(hart, line.0 * line_bytes, state).as_slice()),
        None => Ok(()),
    }
}

// The lines of a set, the most recent first.
fn write_set<T: ReportTarget, C: Shown>(
    target: &mut T,
    chip: &C,
    hart: u8,
    set: u32,
) -> Result<(), T::Stop>
    requires kept { IsShown (C.shown chip.now) }
    requires hart { hart < (C.shown chip.now).harts }
    requires set { set < (C.shown chip.now).sets }
    ensures { Writes T.wrote T.stopped target.old target.new
        (set_text (C.shown chip.now) hart set) result }
{
    for way in 0..MOST_WAYS {
        write_slot(target, chip, hart, set, way)?;
    }
    Ok(())
}

fn write_cache<T: ReportTarget, C: Shown>(target: &mut T, chip: &C, hart: u8) -> Result<(), T::Stop>
    requires { hart < (C.shown chip.now).harts }
    ensures { Writes T.wrote T.stopped target.old target.new
        (cache_text (C.shown chip.now) hart) result }
{
    for set in 0..chip.sets() {
        write_set(target, chip, hart, set)?;
    }
    Ok(())
}

fn write_caches<T: ReportTarget, C: Shown>(target: &mut T, chip: &C) -> Result<(), T::Stop>
    ensures { Writes T.wrote T.stopped target.old target.new
        (caches_text (C.shown chip.now)) result }
{
    for hart in 0..chip.harts() {
        write_cache(target, chip, hart)?;
    }
    Ok(())
}

fn write_lines<T: ReportTarget, C: Shown>(target: &mut T, chip: &C) -> Result<(), T::Stop>
    ensures { Writes T.wrote T.stopped target.old target.new
        (lines_text (C.shown chip.now)) result }
{
    write_caches(target, chip)?;
    write_changes(target, chip)
}

// A kept note, by its place.
#[tactic(auto, unfolding(crate::specs::Texts::note_at_text))]
fn write_note<T: ReportTarget, C: Shown>(
    target: &mut T,
    chip: &C,
    place: usize,
) -> Result<(), T::Stop>
    ensures { Writes T.wrote T.stopped target.old target.new
        (note_at_text (C.shown chip.now) place) result }
{
    let line_bytes = chip.line_bytes();
    match chip.traffic().last(place) {
        Some(note) => target.put(note_line(
            note.kind,
            note.who,
            note.line.0 * line_bytes,
        ).as_slice()),
        None => Ok(()),
    }
}

fn write_notes<T: ReportTarget, C: Shown>(target: &mut T, chip: &C) -> Result<(), T::Stop>
    ensures { Writes T.wrote T.stopped target.old target.new
        (notes_text (C.shown chip.now)) result }
{
    for place in 0..chip.traffic().kept() {
        write_note(target, chip, place)?;
    }
    Ok(())
}

fn write_totals<T: ReportTarget, C: Shown>(target: &mut T, chip: &C) -> Result<(), T::Stop>
    ensures { Writes T.wrote T.stopped target.old target.new
        (totals_line_text (C.shown chip.now).trace) result }
{
    target.put(totals_line(chip.traffic()).as_slice())
}

fn write_traffic<T: ReportTarget, C: Shown>(target: &mut T, chip: &C) -> Result<(), T::Stop>
    ensures { Writes T.wrote T.stopped target.old target.new
        (traffic_text (C.shown chip.now)) result }
{
    write_totals(target, chip)?;
    write_notes(target, chip)
}

fn write_body<T: ReportTarget, C: Shown>(target: &mut T, chip: &C) -> Result<(), T::Stop>
    ensures { Writes T.wrote T.stopped target.old target.new
        (body_text (C.shown chip.now)) result }
{
    write_state(target, chip)?;
    write_traffic(target, chip)
}

fn write_state<T: ReportTarget, C: Shown>(target: &mut T, chip: &C) -> Result<(), T::Stop>
    ensures { Writes T.wrote T.stopped target.old target.new
        (state_text (C.shown chip.now)) result }
{
    write_actors(target, chip)?;
    write_lines(target, chip)
}

/// Writes the report of a run into a target: `events` is the number of events run, and `out` the number of bytes of
/// output. It takes no memory.
pub fn write_report<T: ReportTarget, C: Shown>(
    target: &mut T,
    chip: &C,
    events: u64,
    out: u64,
) -> Result<(), T::Stop>
    ensures { Writes T.wrote T.stopped target.old target.new
        (report_text (C.shown chip.now) events out) result }
{
    target.put(head_lines(events, out).as_slice())?;
    write_body(target, chip)
}

// Harts and cores, and the lines of memory that changed.
fn write_flat_state<T: ReportTarget, C: Shown>(target: &mut T, chip: &C) -> Result<(), T::Stop>
    ensures { Writes T.wrote T.stopped target.old target.new
        (actors_text (C.shown chip.now) ++ changes_text (C.shown chip.now)) result }
{
    write_actors(target, chip)?;
    write_changes(target, chip)
}

/// Writes what a report has of the flat state alone: all but the lines of caches and of traffic.
pub fn write_flat<T: ReportTarget, C: Shown>(
    target: &mut T,
    chip: &C,
    events: u64,
    out: u64,
) -> Result<(), T::Stop>
    ensures { Writes T.wrote T.stopped target.old target.new
        (flat_text_of (C.shown chip.now) events out) result }
{
    target.put(head_lines(events, out).as_slice())?;
    write_flat_state(target, chip)
}

/// Adds the report of a run to the report's text, as `write_report` does. After a fault a front of the report was added.
pub fn write<S: Streams, C: Shown>(
    streams: &mut S,
    chip: &C,
    events: u64,
    out: u64,
) -> Result<(), Fault>
    ensures ok { OnOk result (Wrote (S.seen streams.old) (S.seen streams.new)
        (report_text (C.shown chip.now) events out)) }
    ensures err { OnErr result (WrotePart (S.seen streams.old) (S.seen streams.new)
        (report_text (C.shown chip.now) events out)) }
    ensures leads { S.leads streams.old streams.new (fault_in result) }
{
    write_report(&mut ReportFile { streams }, chip, events, out)
}
