ghost use Rattle.std.specs.Prelude.{◌≡◌, Some};
ghost use Rattle.set_assoc.specs.Places.{place_of_line};
ghost use Rattle.set_assoc.specs.SetLists.{list_of};

use conda_base::Line;
use set_assoc::PlacedSets;
use std::alloc::AllocError;
use std::process::Abort;

#[test]
fn a_line_keeps_its_place(rt: HostRuntime) -> Result<(), AllocError> {
    let mut sets: PlacedSets<u8> = PlacedSets::new(rt.alloc(), 2, 2)?;
    assert!(rt; sets.find(Line(4)).is_none());
    let place = sets.add(Line(4), 14);
    assert!(rt; sets.find(Line(6)).is_none());
    sets.add(Line(6), 16);
    assert!(rt; sets.is_full(Line(4)));
    assert_eq!(rt;
        sets.last(Line(4)).map(|(line, kept)| (line, kept.place)),
        Some((Line(4), place))
    );
    Ok(())
}

#[test]
fn a_place_stands_for_its_line(rt: HostRuntime) -> Result<(), AllocError> {
    let mut sets: PlacedSets<u8> = PlacedSets::new(rt.alloc(), 2, 2)?;
    assert!(rt; sets.find(Line(5)).is_none());
    let place = sets.add(Line(5), 15);
    assert_eq!(rt; sets.set_of(Line(5)), 1);
    assert_stands(&rt, &sets, Line(5), place);
    sets.replace(Line(5), place, 25);
    assert_stands(&rt, &sets, Line(5), place);
    sets.touch(Line(5), place);
    assert_eq!(rt; sets.at(1, 0).map(|(_, kept)| kept.value), Some(25));
    assert_stands(&rt, &sets, Line(5), place);
    sets.remove(Line(5), place);
    sets.clear();
    assert!(rt; sets.find(Line(5)).is_none());
    Ok(())
}

fn assert_stands(rt: &impl Abort, sets: &PlacedSets<u8>, line: Line, place: usize)
    ensures { place_of_line line (list_of sets.now line) ≡ Some place }
{
    assert_eq!(rt; sets.find(line).map(|kept| kept.place), Some(place));
}
