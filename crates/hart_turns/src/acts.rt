// An act by a holder of memory.
ghost use Rattle.std.specs.Prelude.{◌≡◌, ◌<◌, false};
ghost use Rattle.coherent_mem.specs.Parts.{shown};
ghost use Rattle.line_memory.specs.Backing.{HasSameNumbers};
ghost use Rattle.line_memory.specs.Notes.{all_noted};
ghost use Rattle.rv32_hart.specs.Act.{IsPlan, after, is_call_access};
ghost use Rattle.offload_calls.specs.Effects.{stores_of_access};
ghost use Rattle.offload_calls.specs.LineUses.{use_of_access};
ghost use Rattle.hart_turns.specs.Steps.{FitsCode, KeepsNoted, UsesLine, loaded_value, used_notes};

use crate::accesses::make_access;
use coherent_mem::Coherent;
use rv32_hart::{Code, Planned, Regs, finish};
use traffic_trace::Traffic;

/// An act that is no call: its access, by a holder, and then its effect on the registers.
pub fn act(
    h: u8,
    regs: &mut Regs,
    planned: Planned,
    code: &Code,
    memory: &mut Coherent,
    log: &mut Traffic,
)
    requires holder { h < (shown memory.old).holders }
    requires same { FitsCode code.now (shown memory.old) }
    requires plan { IsPlan code.now planned }
    requires plain { is_call_access planned.access ≡ false }
    ensures regs { let b = shown memory.old in
        regs.new ≡ after regs.old planned.instr (loaded_value b planned.access) }
    ensures memory { let b = shown memory.old in
        UsesLine h (use_of_access b.line_bytes planned.access)
        (stores_of_access (loaded_value b planned.access) planned.access) b (shown memory.new) }
    ensures notes { let b = shown memory.old in
        log.new ≡ all_noted log.old (used_notes b h (use_of_access b.line_bytes planned.access)) }
    ensures kept { FitsCode code.now (shown memory.new) }
    ensures noted { KeepsNoted (shown memory.old) log.old (shown memory.new) log.new }
{
    let loaded = make_access(h, planned.access, code, memory, log);
    finish(regs, planned.instr, loaded);
}
