// The entries of an order, and their texts.
ghost use Rattle.std.specs.Prelude.{◌≡◌, ◌≤◌, [], ◌∷◌, ◌++◌, length};
ghost use Rattle.std.specs.Fmt.{decimal};
ghost use Rattle.arrayvec.specs.ArrayVec.{array_vec_len};
ghost use Rattle.schedule_log.specs.Texts.{actor_text, end_text, text_of, IsEntry};

use arrayvec::ArrayVec;
use conda_base::{Actor, push_decimal};

/// What one event did. Harts and cores are given by their numbers.
#[derive(Clone, Copy, Debug, PartialEq, Eq)]
pub enum Entry {
    /// A hart ran an instruction.
    Step(u8),
    /// A hart waits.
    Waits(u8),
    /// An actor had nothing to do.
    Idle(Actor),
    /// An actor was held by another's lock.
    Held(Actor),
    /// A core opened a try.
    Open(u8),
    /// A core opened a try under the lock.
    Lock(u8),
    /// A core ran an instruction of its try.
    Spec(u8),
    /// A core's try was kept: the core, its number of acts, and the cause of its end.
    Commit(u8, u32, u8),
    /// A core's try was taken back: the core, its number of acts, and the cause of its end.
    Back(u8, u32, u8),
    /// A core flushed a line that a try of its conflicts over.
    Flush(u8),
    /// A core ran an instruction of its kernel with no try.
    Kern(u8),
}

// A letter, a space and a number.
#[tactic(auto, using(conda_base::proofs::DecimalLemmas::length_decimal_byte))]
fn push_numbered(out: &mut ArrayVec<u8, 32>, letter: u8, number: u8)
    requires { out.old.items ≡ [] }
    ensures text { out.new.items ≡ letter ∷ 32 ∷ decimal number }
    ensures fits { array_vec_len out.new ≤ 5 }
{
    out.push(letter);
    out.push(b' ');
    push_decimal(out, u64::from(number));
}

// A letter, a space and an actor.
#[tactic(auto, using(conda_base::proofs::DecimalLemmas::length_decimal_byte))]
fn push_acted(out: &mut ArrayVec<u8, 32>, letter: u8, actor: Actor)
    requires { out.old.items ≡ [] }
    ensures text { out.new.items ≡ letter ∷ 32 ∷ actor_text actor }
    ensures fits { array_vec_len out.new ≤ 6 }
{
    let (kind, number) = match actor {
        Actor::Hart(hart) => (b'h', hart),
        Actor::Core(core) => (b'n', core),
    };
    out.push(letter);
    out.push(b' ');
    out.push(kind);
    push_decimal(out, u64::from(number));
}

// A letter and three numbers, with a space before each.
#[tactic(auto, using(conda_base::proofs::DecimalLemmas::length_decimal_byte, conda_base::proofs::DecimalLemmas::length_decimal_word))]
fn push_ended(out: &mut ArrayVec<u8, 32>, letter: u8, core: u8, acts: u32, cause: u8)
    requires { out.old.items ≡ [] }
    ensures text { out.new.items ≡ letter ∷ 32 ∷ end_text core acts cause }
    ensures fits { array_vec_len out.new ≤ 20 }
{
    push_numbered(out, letter, core);
    out.push(b' ');
    push_decimal(out, u64::from(acts));
    out.push(b' ');
    push_decimal(out, u64::from(cause));
}

/// The text of an entry, without a line feed, in an empty buffer.
#[tactic(auto, using(crate::proofs::EntryLemmas::length_text_of))]
pub fn entry_text(entry: Entry, out: &mut ArrayVec<u8, 32>)
    requires { out.old.items ≡ [] }
    ensures text { out.new.items ≡ text_of entry }
    ensures fits { array_vec_len out.new ≤ 20 }
    ensures short { IsEntry entry → length (text_of entry) ≤ 11 }
{
    match entry {
        Entry::Step(hart) => push_numbered(out, b's', hart),
        Entry::Waits(hart) => push_numbered(out, b'w', hart),
        Entry::Idle(actor) => push_acted(out, b'-', actor),
        Entry::Held(actor) => push_acted(out, b'x', actor),
        Entry::Open(core) => push_numbered(out, b'o', core),
        Entry::Lock(core) => push_numbered(out, b'l', core),
        Entry::Spec(core) => push_numbered(out, b'p', core),
        Entry::Commit(core, acts, cause) => push_ended(out, b'c', core, acts, cause),
        Entry::Back(core, acts, cause) => push_ended(out, b'r', core, acts, cause),
        Entry::Flush(core) => push_numbered(out, b'f', core),
        Entry::Kern(core) => push_numbered(out, b'k', core),
    }
}
