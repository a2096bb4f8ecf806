// Two worked runs of the machine whose kernels act on the shared memory.
use chip_config::read;
use conda_base::{Actor, Line, Mesi};
use elf_loader::load;
use nda_fine::FineChip;
use run_report::Shown;
use schedule_log::Entry;
use std::alloc::Global;
use std::test::Fail;
use traffic_trace::Kind;

const WRITERS: [u8; 164] = [
    127, 69, 76, 70, 1, 1, 1, 0, 0, 0, 0, 0, 0, 0, 0, 0, 2, 0, 243, 0, 1, 0, 0, 0, 0, 0, 1, 0, 52,
    0, 0, 0, 0, 0, 0, 0, 0, 0, 0, 0, 52, 0, 32, 0, 1, 0, 0, 0, 0, 0, 0, 0, 1, 0, 0, 0, 84, 0, 0, 0,
    0, 0, 1, 0, 0, 0, 1, 0, 80, 0, 0, 0, 80, 0, 0, 0, 7, 0, 0, 0, 4, 0, 0, 0, 19, 6, 0, 4, 147, 2,
    16, 1, 35, 0, 86, 0, 19, 5, 0, 0, 183, 5, 1, 0, 147, 133, 5, 4, 147, 8, 128, 62, 115, 0, 0, 0,
    147, 8, 208, 5, 115, 0, 0, 0, 0, 0, 0, 0, 0, 0, 0, 0, 0, 0, 0, 0, 0, 0, 0, 0, 0, 0, 0, 0, 0, 0,
    0, 0, 147, 2, 32, 2, 163, 0, 85, 0, 147, 8, 192, 62, 115, 0, 0, 0,
];

const ORDINARY: [u8; 248] = [
    127, 69, 76, 70, 1, 1, 1, 0, 0, 0, 0, 0, 0, 0, 0, 0, 2, 0, 243, 0, 1, 0, 0, 0, 0, 0, 1, 0, 52,
    0, 0, 0, 0, 0, 0, 0, 0, 0, 0, 0, 52, 0, 32, 0, 1, 0, 0, 0, 0, 0, 0, 0, 1, 0, 0, 0, 84, 0, 0, 0,
    0, 0, 1, 0, 0, 0, 1, 0, 164, 0, 0, 0, 164, 0, 0, 0, 7, 0, 0, 0, 4, 0, 0, 0, 183, 2, 2, 0, 19,
    3, 0, 16, 35, 160, 98, 0, 147, 130, 66, 0, 19, 3, 243, 255, 227, 26, 3, 254, 19, 5, 0, 0, 183,
    5, 1, 0, 147, 133, 5, 8, 55, 6, 2, 0, 147, 8, 128, 62, 115, 0, 0, 0, 147, 8, 144, 62, 115, 0,
    0, 0, 19, 133, 5, 0, 147, 8, 208, 5, 115, 0, 0, 0, 0, 0, 0, 0, 0, 0, 0, 0, 0, 0, 0, 0, 0, 0, 0,
    0, 0, 0, 0, 0, 0, 0, 0, 0, 0, 0, 0, 0, 0, 0, 0, 0, 0, 0, 0, 0, 0, 0, 0, 0, 0, 0, 0, 0, 0, 0, 0,
    0, 0, 0, 0, 0, 0, 0, 0, 0, 0, 0, 0, 0, 147, 2, 0, 16, 3, 35, 5, 0, 179, 131, 99, 0, 19, 5, 69,
    0, 147, 130, 242, 255, 227, 152, 2, 254, 19, 133, 3, 0, 147, 8, 192, 62, 115, 0, 0, 0,
];

const H0: Actor = Actor::Hart(0);

const N0: Actor = Actor::Core(0);

fn chip(alloc: Global, image: &[u8]) -> Result<FineChip, Fail> {
    let config = read(alloc, b"{}").ok().ok_or("config")?;
    let image = load(alloc, image, config.mem_base, config.mem_bytes)
        .ok()
        .ok_or("image")?;
    Ok(FineChip::new(alloc, &config, image)?)
}

// How many of the events have this entry.
fn count(chip: &mut FineChip, a: Actor, many: u32, entry: Entry) -> u32 {
    let mut found: u32 = 0;
    for _ in 0..many {
        if chip.has(a) && chip.event(a).entry == entry {
            found = found.saturating_add(1);
        }
    }
    found
}

fn totals(chip: &FineChip) -> [u64; 7] {
    let t = chip.traffic();
    [
        t.total(Kind::Fill),
        t.total(Kind::Back),
        t.total(Kind::Down),
        t.total(Kind::Drop),
        t.total(Kind::Evict),
        t.total(Kind::CoreFill),
        t.total(Kind::Merge),
    ]
}

// How many lines the harts have in M, E and S.
fn tags(chip: &FineChip) -> [u32; 3] {
    let mut found = [0; 3];
    for i in 0..chip.harts() {
        for set in 0..chip.sets() {
            for way in 0..8 {
                count_tag(&mut found, chip.slot(i, set, way));
            }
        }
    }
    found
}

fn count_tag(found: &mut [u32; 3], tag: Option<(Line, Mesi)>) {
    match tag {
        Some((_, Mesi::M)) => found[0] = found[0].saturating_add(1),
        Some((_, Mesi::E)) => found[1] = found[1].saturating_add(1),
        Some((_, Mesi::S)) => found[2] = found[2].saturating_add(1),
        None => {}
    }
}

#[test]
fn two_writers_of_one_line(rt: HostRuntime) -> Result<(), Fail> {
    let mut chip = chip(rt.alloc(), &WRITERS)?;
    assert_eq!(rt; count(&mut chip, H0, 10, Entry::Step(0)), 10);
    assert_eq!(rt; count(&mut chip, N0, 4, Entry::Kern(0)), 4);
    assert_eq!(rt; count(&mut chip, N0, 2, Entry::Idle(N0)), 2);
    assert_eq!(rt; totals(&chip), [2, 1, 0, 1, 0, 0, 0]);
    assert_eq!(rt; tags(&chip), [0, 0, 0]);
    Ok(())
}

#[test]
fn ordinary_use(rt: HostRuntime) -> Result<(), Fail> {
    let mut chip = chip(rt.alloc(), &ORDINARY)?;
    assert_eq!(rt; count(&mut chip, H0, 1032, Entry::Step(0)), 1032);
    assert_eq!(rt; count(&mut chip, N0, 1284, Entry::Kern(0)), 1284);
    assert_eq!(rt; count(&mut chip, H0, 5, Entry::Step(0)), 5);
    assert_eq!(rt; totals(&chip), [32, 16, 16, 0, 0, 0, 0]);
    assert_eq!(rt; tags(&chip), [0, 0, 16]);
    Ok(())
}
