// The registers that the report shows of a core.
ghost use Rattle.std.specs.Prelude.{◌≡◌};
ghost use Rattle.chip_core.specs.Reports.{regs_at};

use crate::stage::Stage;
use rv32_hart::Regs;

// The registers of a core: those of the opening where a try is open.
pub fn regs_of(stage: &Stage) -> Regs
    ensures { result ≡ regs_at stage.now }
{
    match stage {
        Stage::Ready(ready) => *ready.regs(),
        Stage::Open(open) => *open.regs(),
        Stage::Flushing(flushing) => *flushing.regs(),
        Stage::Moved => Regs::new(0),
    }
}
