use conda_base::{Line, Mesi};
use cpu_cache::CpuCache;
use std::alloc::AllocError;
use std::process::Abort;

#[test]
fn a_store_is_loaded(rt: HostRuntime) -> Result<(), AllocError> {
    let mut cache = CpuCache::new(rt.alloc(), 32, 2, 2)?;
    fill_absent(&rt, &mut cache, 0, 7);
    assert!(rt; cache.state(Line(0)).is_some());
    cache.store(4, 4, 0x1234_5678);
    assert_eq!(rt; cache.state(Line(0)), Some(Mesi::M));
    assert_eq!(rt; cache.load(4, 2), 0x5678);
    Ok(())
}

#[test]
fn the_last_line_leaves(rt: HostRuntime) -> Result<(), AllocError> {
    let mut cache = CpuCache::new(rt.alloc(), 32, 1, 1)?;
    fill_absent(&rt, &mut cache, 3, 7);
    assert!(rt; cache.state(Line(4)).is_none());
    let left = cache.fill(Line(4), &[9; 128], Mesi::S);
    assert_eq!(rt;
        left.map(|(line, state, bytes)| (line, state, bytes[31], bytes[32])),
        Some((Line(3), Mesi::E, 7, 0))
    );
    assert_eq!(rt; cache.at(0, 0), Some((Line(4), Mesi::S)));
    Ok(())
}

#[test]
fn a_modified_line_is_written_back(rt: HostRuntime) -> Result<(), AllocError> {
    let mut cache = CpuCache::new(rt.alloc(), 64, 1, 2)?;
    fill_absent(&rt, &mut cache, 0, 7);
    assert!(rt; cache.state(Line(0)).is_some());
    cache.store(0, 1, 1);
    assert_eq!(rt; cache.clean(Line(0))[0], 1);
    assert!(rt; cache.downgrade(Line(0)).is_none());
    let mut out = [1; 128];
    cache.bytes(Line(0), &mut out);
    assert_eq!(rt; out[63], 7);
    assert!(rt; cache.invalidate(Line(0)).is_none());
    assert!(rt; cache.state(Line(0)).is_none());
    Ok(())
}

#[test]
fn a_modified_line_is_handed_out(rt: HostRuntime) -> Result<(), AllocError> {
    let mut cache = CpuCache::new(rt.alloc(), 64, 1, 2)?;
    fill_absent(&rt, &mut cache, 0, 7);
    assert!(rt; cache.state(Line(0)).is_some());
    cache.store(0, 1, 1);
    assert_eq!(rt;
        cache.modified_bytes(Line(0)).map(|bytes| bytes[0]),
        Some(1)
    );
    assert_eq!(rt;
        cache.invalidate(Line(0)).map(|bytes| (bytes[0], bytes[64])),
        Some((1, 0))
    );
    Ok(())
}

#[test]
fn a_shared_line_is_owned_before_a_store(rt: HostRuntime) -> Result<(), AllocError> {
    let mut cache = CpuCache::new(rt.alloc(), 128, 4, 8)?;
    assert!(rt; cache.state(Line(2)).is_none());
    cache.fill(Line(2), &[7; 128], Mesi::S);
    assert_eq!(rt; cache.store_owned(256, 4, 9), Some(Mesi::S));
    assert_eq!(rt; cache.load_held(256, 4), Some(0x0707_0707));
    assert!(rt; cache.state(Line(2)).is_some());
    cache.own(Line(2));
    assert_eq!(rt; cache.store_owned(256, 4, 9), Some(Mesi::M));
    assert_eq!(rt; cache.load_held(256, 4), Some(9));
    assert_eq!(rt; cache.load_held(512, 4), None);
    Ok(())
}

fn fill_absent(rt: &impl Abort, cache: &mut CpuCache, line: u32, byte: u8) {
    assert!(rt; cache.state(Line(line)).is_none());
    cache.fill(Line(line), &[byte; 128], Mesi::E);
}
