use conda_base::Line;
use nda_cache::{Look, NdaCache};
use std::alloc::AllocError;

#[test]
fn a_stored_byte_hides_a_filled_one(rt: HostRuntime) -> Result<(), AllocError> {
    let mut cache = NdaCache::new(rt.alloc(), 32, 1, 2)?;
    assert!(rt; cache.room(Line(0)));
    cache.write(4, 2, 0xabcd);
    assert!(rt; cache.covered(4, 2));
    assert!(rt; !cache.covered(4, 4));
    assert!(rt; cache.room(Line(0)));
    assert!(rt; cache.is_there(Line(0)));
    assert!(rt; !cache.filled(Line(0)));
    cache.fill(Line(0), &[7; 128]);
    assert!(rt; cache.filled(Line(0)));
    assert_eq!(rt; cache.read(4, 4), 0x0707_abcd);
    Ok(())
}

#[test]
fn a_missing_line_is_filled_after_one_search(rt: HostRuntime) -> Result<(), AllocError> {
    let mut cache = NdaCache::new(rt.alloc(), 32, 1, 2)?;
    let found = cache.find(Line(0));
    assert_eq!(rt; cache.look_found(found, 4, 4), Look::Missing);
    assert!(rt; cache.room(Line(0)));
    assert!(rt; !cache.filled(Line(0)));
    let place = cache.fill_found(found, Line(0), &[7; 128]);
    assert_eq!(rt; cache.read_found(place, 4, 4), 0x0707_0707);
    cache.write_found(Some(place), 4, 1, 3);
    assert_eq!(rt; cache.look(4, 4), Look::Known(0x0707_0703));
    Ok(())
}

#[test]
fn stored_lines_stand_in_order(rt: HostRuntime) -> Result<(), AllocError> {
    let mut cache = NdaCache::new(rt.alloc(), 32, 1, 2)?;
    assert!(rt; cache.room(Line(1)));
    cache.write(32, 1, 3);
    assert_eq!(rt;
        cache.written(0).map(|(line, masked)| (line, masked.mask)),
        Some((Line(1), 1))
    );
    assert!(rt; cache.written(1).is_none());
    cache.clear();
    assert!(rt; cache.written(0).is_none());
    Ok(())
}

#[test]
fn an_older_try_is_hidden(rt: HostRuntime) -> Result<(), AllocError> {
    let mut cache = NdaCache::new(rt.alloc(), 32, 1, 2)?;
    assert!(rt; cache.room(Line(0)));
    cache.write(0, 4, 0x0102_0304);
    cache.clear();
    assert!(rt; cache.room(Line(1)));
    cache.write(34, 1, 5);
    assert_eq!(rt;
        cache
            .written(0)
            .map(|(line, masked)| (line, masked.mask, masked.bytes[0])),
        Some((Line(1), 4, 0))
    );
    assert_eq!(rt;
        cache
            .written_in_place(0)
            .map(|(line, masked)| (line, masked.mask, masked.bytes[2])),
        Some((Line(1), 4, 5))
    );
    assert!(rt; !cache.filled(Line(1)));
    cache.fill(Line(1), &[7; 128]);
    assert_eq!(rt; cache.read(32, 4), 0x0705_0707);
    Ok(())
}
