// One entry of an order after another, on one flat memory.
ghost use Rattle.std.specs.Prelude.{ℕ, ◌≡◌, ◌+◌, ◌<◌, ◌≤◌, ◌^◌, true, length, None, IfOk, MatchResult};
ghost use Rattle.rv32_hart.specs.Code.{CodeView};
ghost use Rattle.schedule_log.specs.Texts.{IsEntry};
ghost use Rattle.schedule_log.specs.declared.entry.Entry.{Entry};
ghost use Rattle.schedule_log.specs.declared.entry.Entry.TheVariants as Entry_is;
ghost use Rattle.offload_calls.specs.State.{Setup};
ghost use Rattle.flat_check.specs.Orders.{is_there};
ghost use Rattle.flat_check.specs.Walkers.{FitsWalker, HasSameActors, ShowsWalk, ruling_of, walker_parts};
ghost use Rattle.flat_check.specs.Walks.{Fine, Walk, ruled, ruling_by, walked};

use crate::flat::Flat;
use crate::portions::mark_beside;
use crate::refusal::Refusal;
use crate::tries::Tries;
use rv32_hart::Code;
use schedule_log::Entry;

/// The flat machine and the open tries, on the way through an order.
#[derive(Drop)]
pub struct Walker {
    pub flat: Flat,
    pub tries: Tries,
}

impl Walker {
    /// Judges an entry and executes it. After a refusal for what was overwritten nothing is known of the parts.
    pub fn take(&mut self, code: &Code, e: Entry) -> Result<(), Refusal>
        requires fits { FitsWalker code.now (walker_parts self.old) }
        requires there { is_there (length self.old.flat.harts.items)
            (length self.old.flat.statuses.items) e ≡ true }
        requires entry { IsEntry e }
        requires room { self.old.flat.output < 2 ^ 63 }
        ensures rules { (s : Setup) (v : Walk) → s.code ≡ code.now
            → ShowsWalk s (walker_parts self.old) v
            → MatchResult result (λ _. ruled s v e ≡ Fine) (λ why. ruled s v e ≡ ruling_of why) }
        ensures walks { (s : Setup) (v : Walk) → s.code ≡ code.now
            → ShowsWalk s (walker_parts self.old) v
            → IfOk result (λ _. ShowsWalk s (walker_parts self.new) (walked s v e)) }
        ensures fits { FitsWalker code.now (walker_parts self.new) }
        ensures actors { HasSameActors (walker_parts self.old) (walker_parts self.new) }
        ensures output { self.new.flat.output ≤ self.old.flat.output + 65536 }
    {
        match e {
            Entry::Step(h) => self.step(code, h),
            Entry::Open(j) | Entry::Lock(j) => self.tries.open(j),
            Entry::Spec(j) => self.tries.count(j),
            Entry::Commit(j, n, _) => return self.commit(code, j, n),
            Entry::Back(j, n, _) => return self.take_back(j, n),
            Entry::Kern(j) => self.kernel_act(code, j),
            Entry::Waits(_) | Entry::Idle(_) | Entry::Held(_) | Entry::Flush(_) => {}
        }
        Ok(())
    }

    // An act of a hart: what it stores is marked for every core.
    fn step(&mut self, code: &Code, h: u8)
        requires fits { FitsWalker code.now (walker_parts self.old) }
        requires there { h < length self.old.flat.harts.items }
        requires room { self.old.flat.output < 2 ^ 63 }
        ensures walks { (s : Setup) (v : Walk) → s.code ≡ code.now
            → ShowsWalk s (walker_parts self.old) v
            → ShowsWalk s (walker_parts self.new) (walked s v (Entry_is.Step h)) }
        ensures fits { FitsWalker code.now (walker_parts self.new) }
        ensures actors { HasSameActors (walker_parts self.old) (walker_parts self.new) }
        ensures output { self.new.flat.output ≤ self.old.flat.output + 1 }
    {
        let access = self.flat.step(code, h);
        let none = self.tries.marks.len();
        mark_beside(&mut self.tries.marks, none, code, access);
    }

    // An act of a core: what it stores is marked for every other core.
    fn kernel_act(&mut self, code: &Code, j: u8)
        requires fits { FitsWalker code.now (walker_parts self.old) }
        requires there { j < length self.old.flat.statuses.items }
        requires room { self.old.flat.output < 2 ^ 63 }
        ensures walks { (s : Setup) (v : Walk) → s.code ≡ code.now
            → ShowsWalk s (walker_parts self.old) v
            → ShowsWalk s (walker_parts self.new) (walked s v (Entry_is.Kern j)) }
        ensures fits { FitsWalker code.now (walker_parts self.new) }
        ensures actors { HasSameActors (walker_parts self.old) (walker_parts self.new) }
        ensures output { self.new.flat.output ≤ self.old.flat.output + 1 }
    {
        let access = self.flat.kernel_act(code, j);
        mark_beside(&mut self.tries.marks, j as usize, code, access);
    }

    // The end of core j's try, which is kept: its portion is executed.
    fn commit(&mut self, code: &Code, j: u8, n: u32) -> Result<(), Refusal>
        requires fits { FitsWalker code.now (walker_parts self.old) }
        requires there { j < length self.old.flat.statuses.items }
        requires few { n ≤ 65536 }
        requires room { self.old.flat.output < 2 ^ 63 }
        ensures rules { (s : Setup) (v : Walk) (cause : ℕ) → s.code ≡ code.now
            → ShowsWalk s (walker_parts self.old) v
            → MatchResult result (λ _. ruled s v (Entry_is.Commit j n cause) ≡ Fine)
            (λ why. ruled s v (Entry_is.Commit j n cause) ≡ ruling_of why) }
        ensures walks { (s : Setup) (v : Walk) (cause : ℕ) → s.code ≡ code.now
            → ShowsWalk s (walker_parts self.old) v
            → IfOk result (λ _. ShowsWalk s (walker_parts self.new)
            (walked s v (Entry_is.Commit j n cause))) }
        ensures fits { FitsWalker code.now (walker_parts self.new) }
        ensures actors { HasSameActors (walker_parts self.old) (walker_parts self.new) }
        ensures output { self.new.flat.output ≤ self.old.flat.output + 65536 }
    {
        if !self.tries.has_acts(j, n) {
            return Err(Refusal::Unsound);
        }
        let found = self.flat.portion(code, &mut self.tries.marks, j, n);
        self.tries.close(j);
        refuse(found)
    }

    // The end of core j's try, which is taken back.
    fn take_back(&mut self, j: u8, n: u32) -> Result<(), Refusal>
        requires there { j < length self.old.tries.acts.items }
        requires few { n ≤ 65536 }
        ensures rules { (s : Setup) (v : Walk) (cause : ℕ) → j < s.cores
            → ShowsWalk s (walker_parts self.old) v
            → MatchResult result (λ _. ruled s v (Entry_is.Back j n cause) ≡ Fine)
            (λ why. ruled s v (Entry_is.Back j n cause) ≡ ruling_of why) }
        ensures walks { (s : Setup) (v : Walk) (cause : ℕ) → j < s.cores
            → ShowsWalk s (walker_parts self.old) v
            → IfOk result (λ _. ShowsWalk s (walker_parts self.new)
            (walked s v (Entry_is.Back j n cause))) }
        ensures fits { (code : CodeView) → FitsWalker code (walker_parts self.old)
            → FitsWalker code (walker_parts self.new) }
        ensures flat { self.new.flat ≡ self.old.flat }
    {
        if !self.tries.has_acts(j, n) {
            return Err(Refusal::Unsound);
        }
        self.tries.close(j);
        Ok(())
    }
}

// A portion is refused for the lowest address that was overwritten.
fn refuse(found: Option<u32>) -> Result<(), Refusal>
    ensures { MatchResult result (λ _. found ≡ None)
        (λ why. ruling_by found ≡ ruling_of why) }
{
    match found {
        Some(address) => Err(Refusal::Overwritten(address)),
        None => Ok(()),
    }
}
