// Schedules in pieces, and entries read back.
ghost use Rattle.std.specs.Prelude.{◌<◌, length};

use arrayvec::ArrayVec;
use conda_base::Actor;
use schedule_log::{
    Entry, Fed, Last, Reader, entry_text, fine_runs_all, one_text_one_entry, pieces_join,
    read_entry,
};
use std::test::Fail;

// The first answer to a schedule of one hart and one core, fed whole.
fn whole(text: &[u8]) -> Fed {
    Reader::new(1, 1).feed(text)
}

// The answer at the end of a schedule that has no line feed.
fn ended(text: &[u8]) -> Last {
    let mut reader = Reader::new(1, 1);
    let _more = reader.feed(text);
    reader.end()
}

// The first answer other than More, where the schedule is cut in two.
fn in_two(text: &[u8], cut: usize) -> Fed
    requires { length text.now < 100 }
{
    let mut reader = Reader::new(1, 1);
    let (front, back) = text.split_at(cut.min(text.len()));
    match reader.feed(front) {
        Fed::More { .. } => reader.feed(back),
        answer => answer,
    }
}

// The answer to the last byte, where the schedule is fed byte by byte.
fn by_bytes(text: &[u8]) -> Fed
    requires { length text.now < 100 }
{
    let mut reader = Reader::new(1, 1);
    let mut answer = Fed::More { used: 0 };
    for byte in text {
        answer = reader.feed(&[*byte]);
    }
    answer
}

#[test]
fn bad_lines_are_told(rt: HostRuntime) {
    assert_eq!(rt; whole(b"h0 0\n"), Fed::Bad { line: 1, why: 2 });
    assert_eq!(rt; whole(b"\r\n\nh9 1\n"), Fed::Bad { line: 3, why: 3 });
    assert_eq!(rt; whole(b"n1 1\n"), Fed::Bad { line: 1, why: 3 });
    assert_eq!(rt; whole(b"h0 06\n"), Fed::Bad { line: 1, why: 2 });
    assert_eq!(rt; whole(b"h0 1\r\r\n"), Fed::Bad { line: 1, why: 1 });
}

#[test]
fn a_line_is_too_long_at_its_33rd_byte(rt: HostRuntime) {
    assert_eq!(rt;
        whole(b"abcdefghijklmnopqrstuvwxyzabcdefg"),
        Fed::Bad { line: 1, why: 4 }
    );
    assert_eq!(rt;
        whole(b"abcdefghijklmnopqrstuvwxyzabcdef"),
        Fed::More { used: 32 }
    );
}

#[test]
fn the_end_is_a_line(rt: HostRuntime) {
    assert_eq!(rt; ended(b"h9"), Last::Bad { line: 1, why: 1 });
    assert_eq!(rt;
        ended(b"h0 3"),
        Last::Events {
            actor: Actor::Hart(0),
            count: 3
        }
    );
    assert_eq!(rt; ended(b"\r"), Last::Nothing);
    assert_eq!(rt; ended(b""), Last::Nothing);
}

#[test]
fn lines_follow_one_another(rt: HostRuntime) {
    let mut reader = Reader::new(1, 1);
    assert_eq!(rt;
        reader.feed(b"h0 1\r\nh9 1\n"),
        Fed::Events {
            actor: Actor::Hart(0),
            count: 1,
            used: 6
        }
    );
    assert_eq!(rt; reader.feed(b"h9 1\n"), Fed::Bad { line: 2, why: 3 });
    assert_eq!(rt; reader.feed(b"h0 1\n"), Fed::Bad { line: 2, why: 3 });
    assert_eq!(rt; reader.end(), Last::Bad { line: 2, why: 3 });
}

#[test]
fn a_schedule_is_cut_anywhere(rt: HostRuntime) {
    for cut in 0..7 {
        let answer = in_two(b"n0 12\r\n", cut);
        assert_eq!(rt;
            answer,
            Fed::Events {
                actor: Actor::Core(0),
                count: 12,
                used: 7 - cut
            }
        );
    }
}

#[test]
fn a_schedule_is_fed_by_bytes(rt: HostRuntime) {
    assert_eq!(rt;
        by_bytes(b"\nn0 67108864\n"),
        Fed::Events {
            actor: Actor::Core(0),
            count: 67_108_864,
            used: 1
        }
    );
    assert_eq!(rt; by_bytes(b"\nn0 67108865\n"), Fed::Bad { line: 2, why: 2 });
}

// The entry that an entry's line is read as.
fn back(entry: Entry) -> Option<Entry> {
    let mut line = ArrayVec::new();
    entry_text(entry, &mut line);
    read_entry(line.as_slice())
}

#[test]
fn entries_of_one_number_are_read_back(rt: HostRuntime) {
    assert_eq!(rt; back(Entry::Step(7)), Some(Entry::Step(7)));
    assert_eq!(rt; back(Entry::Waits(0)), Some(Entry::Waits(0)));
    assert_eq!(rt; back(Entry::Open(3)), Some(Entry::Open(3)));
    assert_eq!(rt; back(Entry::Lock(0)), Some(Entry::Lock(0)));
    assert_eq!(rt; back(Entry::Spec(1)), Some(Entry::Spec(1)));
    assert_eq!(rt; back(Entry::Flush(2)), Some(Entry::Flush(2)));
    assert_eq!(rt; back(Entry::Kern(3)), Some(Entry::Kern(3)));
}

#[test]
fn other_entries_are_read_back(rt: HostRuntime) {
    let idle = Entry::Idle(Actor::Hart(7));
    let held = Entry::Held(Actor::Core(3));
    let commit = Entry::Commit(3, 65_536, 7);
    let undone = Entry::Back(0, 1, 1);
    assert_eq!(rt; back(idle), Some(idle));
    assert_eq!(rt; back(held), Some(held));
    assert_eq!(rt; back(commit), Some(commit));
    assert_eq!(rt; back(undone), Some(undone));
}

#[test]
fn other_lines_are_no_entries(rt: HostRuntime) {
    assert_eq!(rt; read_entry(b"c 0 0 1"), None);
    assert_eq!(rt; read_entry(b"c 0 65537 1"), None);
    assert_eq!(rt; read_entry(b"s 8"), None);
    assert_eq!(rt; read_entry(b"k 0\n"), None);
    assert_eq!(rt; read_entry(b""), None);
}

#[test]
fn laws_do_nothing() -> Result<(), Fail> {
    pieces_join();
    fine_runs_all();
    one_text_one_entry();
    Ok(())
}
