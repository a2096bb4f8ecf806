// Orders in pieces.
ghost use Rattle.std.specs.Prelude.{◌<◌, length};

use crate::{Fed, Last, NO_ENTRY, OrderReader};
use conda_base::Actor;
use schedule_log::Entry;

// The first answer to an order that is fed whole.
fn whole(text: &[u8]) -> Fed {
    OrderReader::new().feed(text)
}

// The answer at the end of an order that has no line feed.
fn ended(text: &[u8]) -> Last {
    let mut reader = OrderReader::new();
    let _more = reader.feed(text);
    reader.end()
}

// The first answer other than More, where the order is cut in two.
fn in_two(text: &[u8], cut: usize) -> Fed
    requires { length text.now < 100 }
{
    let mut reader = OrderReader::new();
    let (front, back) = text.split_at(cut.min(text.len()));
    match reader.feed(front) {
        Fed::More { .. } => reader.feed(back),
        answer => answer,
    }
}

const FIRST_BAD: Fed = Fed::Bad {
    line: 1,
    why: NO_ENTRY,
};

#[test]
fn lines_that_are_no_entries(rt: HostRuntime) {
    assert_eq!(rt; whole(b"\n"), FIRST_BAD);
    assert_eq!(rt; whole(b"s 0\r\n"), FIRST_BAD);
    assert_eq!(rt; whole(b"s 8\n"), FIRST_BAD);
    assert_eq!(rt; whole(b"c 0 01 1\n"), FIRST_BAD);
    assert_eq!(rt; whole(b"abcdefghijklmnopqrstuvwxyzabcdefg"), FIRST_BAD);
    assert_eq!(rt;
        whole(b"abcdefghijklmnopqrstuvwxyzabcdef"),
        Fed::More { used: 32 }
    );
}

#[test]
fn a_line_with_no_feed_is_bad(rt: HostRuntime) {
    assert_eq!(rt;
        ended(b"s 0"),
        Last::Bad {
            line: 1,
            why: NO_ENTRY
        }
    );
    assert_eq!(rt; ended(b""), Last::Nothing);
}

#[test]
fn entries_follow_one_another(rt: HostRuntime) {
    let mut reader = OrderReader::new();
    let idle = Entry::Idle(Actor::Core(3));
    assert_eq!(rt;
        reader.feed(b"- n3\nzz\n"),
        Fed::Entry {
            entry: idle,
            used: 5
        }
    );
    let second = Fed::Bad {
        line: 2,
        why: NO_ENTRY,
    };
    assert_eq!(rt; reader.feed(b"zz\n"), second);
    assert_eq!(rt; reader.feed(b"s 0\n"), second);
}

#[test]
fn an_order_is_cut_anywhere(rt: HostRuntime) {
    for cut in 0..12 {
        let answer = in_two(b"r 3 65536 7\n", cut);
        assert_eq!(rt;
            answer,
            Fed::Entry {
                entry: Entry::Back(3, 65_536, 7),
                used: 12 - cut
            }
        );
    }
}
