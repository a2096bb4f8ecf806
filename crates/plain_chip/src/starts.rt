// Harts and cores at their start.
ghost use Rattle.std.specs.Prelude.{ℕ, ◌≡◌, ◌<◌, ◌≤◌, IfOk, Some, length, replicate, slice_get};
ghost use Rattle.rv32_hart.specs.Regs.{start_regs};
ghost use Rattle.offload_calls.specs.State.{start_hart};

use arrayvec::ArrayVec;
use offload_calls::{CoreStatus, Hart, HartStatus};
use rv32_hart::Regs;
use std::alloc::{AllocError, Global};

// The harts at the entry, each with its number in x10 and the number of harts in x11.
pub fn start_harts(alloc: Global, many: u32, entry: u32) -> Result<Vec<Hart>, AllocError>
    ensures many { IfOk result (λ harts. length harts.items ≡ many) }
    ensures start { IfOk result (λ harts. (h : ℕ) → h < many
        → slice_get harts.items h ≡ Some (start_hart entry many h)) }
{
    let mut harts = Vec::with_capacity(alloc, many as usize)?;
    for number in 0..many {
        let mut regs = Regs::new(entry);
        regs.x[10] = number;
        regs.x[11] = many;
        harts.push(Hart {
            regs,
            status: HartStatus::Run,
        })?;
    }
    Ok(harts)
}

// Idle cores.
pub fn idle_cores(many: u32) -> ArrayVec<CoreStatus, 4>
    requires { many ≤ 4 }
    ensures { result.items ≡ replicate many CoreStatus.Idle }
{
    let mut statuses = ArrayVec::new();
    for j in 0..many {
        statuses.push(CoreStatus::Idle);
    }
    statuses
}

// The registers of cores that were never launched.
pub fn start_regs(alloc: Global, many: u32) -> Result<Vec<Regs>, AllocError>
    ensures { IfOk result (λ regs. regs.items ≡ replicate many (start_regs 0)) }
{
    vec![in alloc; Regs::new(0); many as usize]
}
