use conda_base::Line;
use std::test::Fail;
use traffic_trace::{Kind, Note, Traffic};

#[test]
fn the_last_two_notes_are_kept(rt: HostRuntime) -> Result<(), Fail> {
    let mut traffic = Traffic::new(rt.alloc(), 2)?;
    for number in 0..3 {
        traffic.note(fill_of(number));
    }
    assert_eq!(rt; traffic.total(Kind::Fill), 3);
    assert_eq!(rt; traffic.total(Kind::Back), 0);
    assert_eq!(rt; traffic.kept(), 2);
    assert_eq!(rt; traffic.last(0), Some(fill_of(1)));
    assert_eq!(rt; traffic.last(1), Some(fill_of(2)));
    assert_eq!(rt; traffic.last(2), None);
    Ok(())
}

#[test]
fn no_note_is_kept_where_none_may_be(rt: HostRuntime) -> Result<(), Fail> {
    let mut traffic = Traffic::new(rt.alloc(), 0)?;
    traffic.note(fill_of(1));
    assert_eq!(rt; traffic.total(Kind::Fill), 1);
    assert_eq!(rt; traffic.last(0), None);
    Ok(())
}

fn fill_of(number: u32) -> Note {
    Note {
        kind: Kind::Fill,
        who: 0,
        line: Line(number),
    }
}
