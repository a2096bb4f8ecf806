// What runs the events of a schedule.
ghost use Rattle.std.specs.Prelude.{◌≡◌, ℕ, IsTrue, List, [], ◌∷◌, ◌++◌};
ghost use Rattle.conda_base.specs.declared.actor.Actor.{Actor as TheActor};
ghost use Rattle.schedule_log.specs.declared.entry.Entry.{Entry as TheEntry};
ghost use Rattle.schedule_log.specs.Grammar.{is_on_chip};
ghost use Rattle.chip_laws.specs.Design.{Design};
ghost use Rattle.streams.specs.Fronts.{IsFrontOf};

use arrayvec::ArrayVec;
use conda_base::Actor;
use schedule_log::Entry;

/// Harts and near-data cores whose events happen one after another. No call takes memory.
pub trait Machine {
    // The machine stands for these events, by its configuration and image.
    ghost stands: { Design → Self → List TheActor → Type 0 };

    // The entries of events, and the bytes that they put out.
    ghost journal: { Design → List TheActor → List TheEntry };

    ghost output: { Design → List TheActor → List ℕ };

    // What holds of all events that a machine stands for.
    ghost law: { Design → List TheActor → Type 0 };

    ghost hart_count: { Self → ℕ };

    ghost core_count: { Self → ℕ };

    fn harts(&self) -> u8
        ensures { result ≡ hart_count self.now };

    fn cores(&self) -> u8
        ensures { result ≡ core_count self.now };

    /// One event of a hart or near-data core that the machine has, and its entry. The bytes that it
    /// puts come into `out`.
    fn event(&mut self, a: Actor, out: &mut ArrayVec<u8, 64>) -> Entry
        requires has { IsTrue (is_on_chip (hart_count self.old) (core_count self.old) a) }
        requires empty { out.old.items ≡ [] }
        ensures stands { (d : Design) (events : List TheActor) → stands d self.old events
            → stands d self.new (events ++ a ∷ []) }
        ensures entry { (d : Design) (events : List TheActor) → stands d self.old events
            → journal d (events ++ a ∷ []) ≡ journal d events ++ result ∷ [] }
        ensures output { (d : Design) (events : List TheActor) → stands d self.old events
            → output d (events ++ a ∷ []) ≡ output d events ++ out.new.items }
        ensures harts { hart_count self.new ≡ hart_count self.old }
        ensures cores { core_count self.new ≡ core_count self.old };

    // A machine that stands for events has its configuration's harts and cores.
    ghost fits: { (d : Design) (m : Self) (events : List TheActor) → stands d m events
        → (hart_count m ≡ d.config.harts) × (core_count m ≡ d.config.cores) };

    ghost lawful: { (d : Design) (m : Self) (events : List TheActor) → stands d m events
        → law d events };

    // No events have no entries and no output, and those of more events begin with theirs.
    ghost starts: { (d : Design) → (journal d [] ≡ []) × (output d [] ≡ []) };

    ghost goes_on: { (d : Design) (events more : List TheActor)
        → IsFrontOf (journal d events) (journal d (events ++ more))
        × IsFrontOf (output d events) (output d (events ++ more)) };
}
