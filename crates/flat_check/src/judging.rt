// The lines of an order, judged one after another.
ghost use Rattle.std.specs.Prelude.{ℕ, ◌≡◌, ◌+◌, ◌≤◌, ◌∷◌, Bool, List, IfOk, IfSome, MatchResult, Option, Result, length};
ghost use Rattle.schedule_log.specs.Texts.{IsEntry};
ghost use Rattle.schedule_log.specs.Verdict.{most_events};
ghost use Rattle.schedule_log.specs.declared.entry.Entry.{Entry};
ghost use Rattle.chip_laws.specs.Design.{Design};
ghost use Rattle.flat_check.specs.Checkers.{HasWalked};
ghost use Rattle.flat_check.specs.Judging.{GoesOn, StopsAt, fault_verdict};
ghost use Rattle.flat_check.specs.Verdict.{OrderVerdict, verdict_at};
ghost use Rattle.flat_check.specs.Walkers.{ruling_of};
ghost use Rattle.flat_check.specs.Walks.{Fine, Ruling};

use crate::checker::Checker;
use crate::refusal::{OrderFault, Refusal};
use schedule_log::{Entry, MOST_EVENTS};

const NO_ENTRY: u8 = 1;

const NOT_THERE: u8 = 2;

const NO_END: u8 = 3;

impl Checker {
    /// Judges the next line of an order, which is an entry's text or isn't, and executes its entry.
    pub fn judge(&mut self, line: Option<Entry>) -> Result<(), OrderFault>
        requires entry { IfSome line IsEntry }
        requires room { self.old.entries ≤ most_events }
        ensures judged { (d : Design) (order : List Entry) → HasWalked d self.old order
            → MatchResult result (λ _. GoesOn d order self.new line)
            (λ fault. StopsAt d order line fault) }
    {
        let number = self.entries() + 1;
        let Some(entry) = line else {
            return Err(OrderFault::Bad {
                line: number,
                why: NO_ENTRY,
            });
        };
        if !self.has(entry) {
            return Err(OrderFault::Bad {
                line: number,
                why: NOT_THERE,
            });
        }
        fault_of(self.entry(entry), number)
    }
}

// What an entry comes to on the line of this number: a line that is bad comes first, then a line too many.
fn fault_of(taken: Result<(), Refusal>, number: u64) -> Result<(), OrderFault>
    requires { 1 ≤ number }
    ensures told { (r : Ruling) (later : OrderVerdict)
        → MatchResult taken (λ _. r ≡ Fine) (λ why. r ≡ ruling_of why)
        → MatchResult result (λ _. r ≡ Fine) (λ fault. verdict_at r number later ≡ fault_verdict fault) }
    ensures few { IfOk result (λ _. number ≤ most_events) }
{
    match taken {
        Err(Refusal::Unsound) => Err(OrderFault::Bad {
            line: number,
            why: NO_END,
        }),
        _ if number > MOST_EVENTS => Err(OrderFault::TooMany),
        Err(Refusal::Overwritten(address)) => Err(OrderFault::Overwritten {
            entry: number - 1,
            address,
        }),
        Ok(()) => Ok(()),
    }
}
