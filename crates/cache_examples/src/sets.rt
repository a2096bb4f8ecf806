ghost use Rattle.std.specs.Prelude.{◌<◌, length};

use conda_base::Line;
use set_assoc::Sets;
use std::process::Abort;
use std::test::Fail;

#[test]
fn the_oldest_line_leaves(rt: HostRuntime) -> Result<(), Fail> {
    let mut sets: Sets<u8> = Sets::new(rt.alloc(), 2, 2)?;
    add_absent(&rt, &mut sets, 0, 10);
    add_absent(&rt, &mut sets, 2, 12);
    assert!(rt; sets.is_full(Line(4)));
    assert!(rt; !sets.is_full(Line(1)));
    assert!(rt; sets.touch(Line(0)));
    add_absent(&rt, &mut sets, 4, 14);
    assert_eq!(rt; sets.peek(Line(2)), None);
    assert_eq!(rt; sets.at(0, 1), Some((Line(0), 10)));
    Ok(())
}

#[test]
fn values_change_and_leave(rt: HostRuntime) -> Result<(), Fail> {
    let mut sets: Sets<u8> = Sets::new(rt.alloc(), 2, 2)?;
    add_absent(&rt, &mut sets, 3, 10);
    assert_eq!(rt; sets.replace(Line(3), 20), Some(10));
    assert_eq!(rt; sets.remove(Line(3)), Some(20));
    add_absent(&rt, &mut sets, 3, 30);
    sets.clear();
    assert_eq!(rt; sets.peek(Line(3)), None);
    Ok(())
}

#[test]
fn a_full_set_of_eight_ways(rt: HostRuntime) -> Result<(), Fail> {
    let mut sets: Sets<u8> = Sets::new(rt.alloc(), 1, 8)?;
    for line in 0..8 {
        add_absent(&rt, &mut sets, line, 10 + line as u8);
    }
    assert!(rt; sets.touch(Line(2)));
    add_absent(&rt, &mut sets, 8, 18);
    assert_eq!(rt; sets.peek(Line(0)), None);
    assert_eq!(rt; sets.remove(Line(5)), Some(15));
    assert_ways(&rt, &sets, [8, 2, 7, 6, 4, 3, 1]);
    Ok(())
}

fn assert_ways(rt: &impl Abort, sets: &Sets<u8>, lines: [u32; 7])
    requires { 0 < length sets.now.lists }
{
    for way in 0..7 {
        let found = sets.at(0, way as u32).map(|(line, _)| line);
        assert_eq!(rt; found, Some(Line(lines[way])));
    }
    assert_eq!(rt; sets.at(0, 7), None);
}

fn add_absent(rt: &impl Abort, sets: &mut Sets<u8>, line: u32, value: u8) {
    assert!(rt; sets.peek(Line(line)).is_none());
    sets.add(Line(line), value);
}
