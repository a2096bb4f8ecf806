use arrayvec::ArrayVec;
use conda_base::Actor;
use schedule_log::{Entry, entry_text};

fn text(entry: Entry) -> ArrayVec<u8, 32> {
    let mut out = ArrayVec::new();
    entry_text(entry, &mut out);
    out
}

#[test]
fn texts(rt: HostRuntime) {
    assert_eq!(rt; text(Entry::Step(0)).as_slice(), b"s 0".as_slice());
    assert_eq!(rt;
        text(Entry::Idle(Actor::Hart(7))).as_slice(),
        b"- h7".as_slice()
    );
    assert_eq!(rt;
        text(Entry::Held(Actor::Core(3))).as_slice(),
        b"x n3".as_slice()
    );
    assert_eq!(rt;
        text(Entry::Back(0, 1284, 1)).as_slice(),
        b"r 0 1284 1".as_slice()
    );
}
