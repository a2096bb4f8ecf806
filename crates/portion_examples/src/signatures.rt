ghost use Rattle.std.specs.Prelude.{◌≡◌, ◌^◌, ◌<◌, ◌≤◌, IfOk};

use bloom_sig::Signature;
use conda_base::Line;
use std::alloc::Global;
use std::test::Fail;

#[test]
fn one_line_in_both_meets(rt: HostRuntime) -> Result<(), Fail> {
    let mut reads = Signature::new(rt.alloc(), 9)?;
    let mut others = Signature::new(rt.alloc(), 9)?;
    reads.insert(Line(1));
    others.insert(Line(9));
    assert!(rt; !reads.meet(&others));
    others.join(&reads);
    assert!(rt; reads.meet(&others));
    assert_eq!(rt; others.fill(), 1);
    Ok(())
}

#[test]
fn an_inserted_line_is_new_no_more(rt: HostRuntime) -> Result<(), Fail> {
    let mut lines = Signature::new(rt.alloc(), 1)?;
    assert!(rt; lines.is_new(Line(1)));
    lines.insert(Line(1));
    lines.insert(Line(9));
    assert!(rt; lines.member(Line(9)));
    assert_eq!(rt; lines.fill(), 1);
    lines.clear();
    assert!(rt; lines.is_new(Line(1)));
    assert_eq!(rt; lines.bits(), 1);
    Ok(())
}

#[test]
fn a_full_signature_takes_members_alone(rt: HostRuntime) -> Result<(), Fail> {
    let mut lines = Signature::new(rt.alloc(), 9)?;
    assert!(rt; lines.insert_up_to(Line(1), 1));
    assert!(rt; !lines.insert_up_to(Line(9), 1));
    assert!(rt; lines.insert_up_to(Line(1), 1));
    assert!(rt; !lines.member(Line(9)));
    Ok(())
}

// Runs of lines from 0 on and from `start` on. Where they meet, and where three segments of four share a bit, was
// found by sets of bit numbers.
#[test]
fn short_segments_meet_by_their_bits(rt: HostRuntime) -> Result<(), Fail> {
    assert!(rt; do_meet(rt.alloc(), 1, 1, 20)?);
    assert!(rt; !do_meet(rt.alloc(), 1, 1, 2)?);
    assert!(rt; do_meet(rt.alloc(), 5, 3, 1188)?);
    assert!(rt; !do_meet(rt.alloc(), 5, 3, 88)?);
    Ok(())
}

#[test]
fn segments_of_a_word_or_two_meet_by_their_bits(rt: HostRuntime) -> Result<(), Fail> {
    assert!(rt; do_meet(rt.alloc(), 6, 4, 2726)?);
    assert!(rt; !do_meet(rt.alloc(), 6, 4, 87)?);
    assert!(rt; do_meet(rt.alloc(), 7, 10, 143)?);
    assert!(rt; !do_meet(rt.alloc(), 7, 10, 139)?);
    Ok(())
}

#[test]
fn segments_of_vectors_meet_by_their_bits(rt: HostRuntime) -> Result<(), Fail> {
    assert!(rt; do_meet(rt.alloc(), 10, 64, 16734)?);
    assert!(rt; !do_meet(rt.alloc(), 10, 64, 554)?);
    Ok(())
}

fn do_meet(alloc: Global, bits: u32, count: u32, start: u32) -> Result<bool, Fail>
    requires some { 0 < bits }
    requires few { bits ≤ 10 }
    requires count { count < 2 ^ 16 }
    requires start { start < 2 ^ 16 }
{
    let one = run_of_lines(alloc, bits, 0, count)?;
    let other = run_of_lines(alloc, bits, start, start + count)?;
    Ok(one.meet(&other))
}

fn run_of_lines(alloc: Global, bits: u32, from: u32, to: u32) -> Result<Signature, Fail>
    requires some { 0 < bits }
    requires few { bits ≤ 10 }
    ensures { IfOk result (λ s. s.bits ≡ bits) }
{
    let mut lines = Signature::new(alloc, bits)?;
    for line in from..to {
        lines.insert(Line(line));
    }
    Ok(lines)
}
