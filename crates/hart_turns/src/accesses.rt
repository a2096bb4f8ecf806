// One access of an act, by a holder of memory.
ghost use Rattle.std.specs.Prelude.{◌≡◌, ◌<◌, ◌∷◌, [], length, true, false, Some};
ghost use Rattle.line_memory.specs.Notes.{all_noted};
ghost use Rattle.coherent_mem.specs.Parts.{shown};
ghost use Rattle.coherent_mem.specs.Steps.{IsAccessTo, IsCoherent};
ghost use Rattle.conda_base.specs.Lines.{IsLineSize};
ghost use Rattle.rv32_hart.specs.Act.{AccessFits};
ghost use Rattle.rv32_hart.specs.Arithmetic.{amo_result};
ghost use Rattle.offload_calls.specs.Stores.{byte_at, bytes_from, number_at};
ghost use Rattle.offload_calls.specs.Effects.{span_of_access, stores_of_access, span_value};
ghost use Rattle.conda_base.specs.LineLists.{line_at, line_list};
ghost use Rattle.offload_calls.specs.LineUses.{use_of_access, stored_line};
ghost use Rattle.hart_turns.specs.Steps.{UsesLine, used_notes, loads_line, stores_line, FitsCode};

use coherent_mem::Coherent;
use rv32_decode::AmoOp;
use rv32_hart::{Access, Code, amo_result};
use traffic_trace::Traffic;

// Makes an access of a holder, and gives the value that it loads, or 0.
pub fn make_access(
    h: u8,
    access: Access,
    code: &Code,
    memory: &mut Coherent,
    log: &mut Traffic,
) -> u32
    requires holder { h < (shown memory.old).holders }
    requires same { FitsCode code.now (shown memory.old) }
    requires fits { AccessFits code.now access }
    ensures value { let b = shown memory.old in
        result ≡ span_value (byte_at b.base b.view) (span_of_access access) }
    ensures memory { let b = shown memory.old in
        UsesLine h (use_of_access b.line_bytes access) (stores_of_access result access)
        b (shown memory.new) }
    ensures notes { let b = shown memory.old in
        log.new ≡ all_noted log.old (used_notes b h (use_of_access b.line_bytes access)) }
    ensures kept { IsCoherent (shown memory.new) }
{
    match access {
        Access::Nothing | Access::Call => 0,
        Access::Load { addr, size, .. } => load(h, addr, size, memory, log),
        Access::Store { addr, size, value } => {
            store(h, addr, size, value, memory, log);
            0
        }
        Access::Amo {
            addr,
            op,
            value,
            ..
        } => { swap(h, addr, op, value, memory, log) }
    }
}

// Loads by a holder.
fn load(h: u8, addr: u32, size: u8, memory: &mut Coherent, log: &mut Traffic) -> u32
    requires holder { h < (shown memory.old).holders }
    requires coherent { IsCoherent (shown memory.old) }
    requires access { IsAccessTo (shown memory.old) addr size }
    ensures value { let b = shown memory.old in
        result ≡ number_at (byte_at b.base b.view) addr size }
    ensures memory { let b = shown memory.old in
        UsesLine h (Some (loads_line b addr)) [] b (shown memory.new) }
    ensures notes { let b = shown memory.old in
        log.new ≡ all_noted log.old (used_notes b h (Some (loads_line b addr))) }
    ensures kept { IsCoherent (shown memory.new) }
{
    memory.load(h, addr, size, log)
}

// Stores by a holder.
fn store(h: u8, addr: u32, size: u8, value: u32, memory: &mut Coherent, log: &mut Traffic)
    requires holder { h < (shown memory.old).holders }
    requires coherent { IsCoherent (shown memory.old) }
    requires access { IsAccessTo (shown memory.old) addr size }
    ensures memory { let b = shown memory.old in
        UsesLine h (Some (stores_line b addr)) (bytes_from addr size value) b (shown memory.new) }
    ensures notes { let b = shown memory.old in
        log.new ≡ all_noted log.old (used_notes b h (Some (stores_line b addr))) }
    ensures kept { IsCoherent (shown memory.new) }
{
    memory.store(h, addr, size, value, log);
}

// Loads a word and stores another in its place, by a holder.
fn swap(h: u8, addr: u32, op: AmoOp, value: u32, memory: &mut Coherent, log: &mut Traffic) -> u32
    requires holder { h < (shown memory.old).holders }
    requires coherent { IsCoherent (shown memory.old) }
    requires access { IsAccessTo (shown memory.old) addr 4 }
    ensures value { let b = shown memory.old in result ≡ number_at (byte_at b.base b.view) addr 4 }
    ensures memory { let b = shown memory.old in
        UsesLine h (Some (stores_line b addr)) (bytes_from addr 4 (amo_result op result value))
        b (shown memory.new) }
    ensures notes { let b = shown memory.old in
        log.new ≡ all_noted log.old (used_notes b h (Some (stores_line b addr))) }
    ensures kept { IsCoherent (shown memory.new) }
{
    let old = memory.take(h, addr, log);
    memory.store(h, addr, 4, amo_result(op, old, value), log);
    old
}
