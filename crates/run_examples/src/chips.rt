// A chip that runs the worked examples.
use chip_config::read;
use chip_core::Chip;
use conda_base::Actor;
use elf_loader::load;
use offload_calls::{CoreStatus, HartStatus};
use run_report::Shown;
use schedule_log::Entry;
use std::alloc::Global;
use std::test::Fail;
use traffic_trace::Kind;

const H0: Actor = Actor::Hart(0);

const N0: Actor = Actor::Core(0);

const STEP: Entry = Entry::Step(0);

const OPEN: Entry = Entry::Open(0);

const SPEC: Entry = Entry::Spec(0);

// An executable of 19 words at 65536, before its words.
const HEADER: [u8; 84] = [
    0x7f, b'E', b'L', b'F', 1, 1, 1, 0, 0, 0, 0, 0, 0, 0, 0, 0, // identification
    2, 0, 243, 0, 1, 0, 0, 0, // an executable for RISC-V
    0, 0, 1, 0, 52, 0, 0, 0, 0, 0, 0, 0, 0, 0, 0, 0, // entry, program headers, sections
    52, 0, 32, 0, 1, 0, 0, 0, 0, 0, 0, 0, // sizes and numbers
    1, 0, 0, 0, 84, 0, 0, 0, 0, 0, 1, 0, 0, 0, 1, 0, // PT_LOAD, offset, addresses
    76, 0, 0, 0, 76, 0, 0, 0, 7, 0, 0, 0, 4, 0, 0, 0, // sizes, flags, alignment
];

// A hart launches the kernel at 64, stores a 0 to line 1, waits and exits; the kernel loads from
// line 1.
const SILENT_STORE: [u32; 19] = [
    0x0000_0513, // addi x10,x0,0
    0x0001_05b7, // lui x11,16
    0x0405_8593, // addi x11,x11,64
    0x0400_0613, // addi x12,x0,64
    0x3e80_0893, // addi x17,x0,1000
    0x0000_0073, // ecall
    0x0006_2023, // sw x0,0(x12)
    0x3e90_0893, // addi x17,x0,1001
    0x0000_0073, // ecall
    0x05d0_0893, // addi x17,x0,93
    0x0000_0073, // ecall
    0,
    0,
    0,
    0,
    0,
    0x0005_2503, // lw x10,0(x10)
    0x3ec0_0893, // addi x17,x0,1004
    0x0000_0073, // ecall
];

fn chip(alloc: Global, config: &[u8], words: &[u32]) -> Result<Chip, Fail> {
    let config = read(alloc, config).ok().ok_or("config")?;
    let mut file = Vec::from_slice(alloc, &HEADER)?;
    for word in words {
        file.extend_from_slice(&word.to_le_bytes())?;
    }
    let image = load(alloc, &file, config.mem_base, config.mem_bytes)
        .ok()
        .ok_or("image")?;
    Ok(Chip::new(alloc, &config, image)?)
}

// The place of the first event whose entry is another one.
fn differs(chip: &mut Chip, events: &[(Actor, Entry)]) -> Option<usize> {
    for place in 0..events.len() {
        let (actor, entry) = events[place];
        if !chip.has(actor) || chip.event(actor).entry != entry {
            return Some(place);
        }
    }
    None
}

#[test]
fn a_silent_store_rolls_a_try_back(rt: HostRuntime) -> Result<(), Fail> {
    let mut chip = chip(rt.alloc(), b"{}", &SILENT_STORE)?;
    let launch = [(H0, STEP); 6];
    let back = [
        (N0, OPEN),
        (N0, SPEC),
        (H0, STEP),
        (N0, SPEC),
        (N0, SPEC),
        (N0, Entry::Back(0, 3, 1)),
        (N0, Entry::Flush(0)),
    ];
    let again = [
        (N0, OPEN),
        (N0, SPEC),
        (N0, SPEC),
        (N0, SPEC),
        (N0, Entry::Commit(0, 3, 1)),
    ];
    assert_eq!(rt; differs(&mut chip, &launch), None);
    assert!(rt; chip.portion(0).is_none());
    assert_eq!(rt; differs(&mut chip, &back), None);
    assert_eq!(rt; differs(&mut chip, &again), None);
    assert_eq!(rt; differs(&mut chip, &[(H0, STEP); 4]), None);
    let traffic = chip.traffic();
    assert_eq!(rt;
        (traffic.total(Kind::Fill), traffic.total(Kind::CoreFill)),
        (1, 2)
    );
    Ok(())
}

#[test]
fn a_try_under_the_lock_holds_the_hart(rt: HostRuntime) -> Result<(), Fail> {
    let mut chip = chip(rt.alloc(), b"{\"retries\":0}", &SILENT_STORE)?;
    let locked = [
        (N0, Entry::Lock(0)),
        (N0, SPEC),
        (H0, Entry::Held(H0)),
        (N0, SPEC),
        (N0, SPEC),
        (N0, Entry::Commit(0, 3, 1)),
        (N0, Entry::Idle(N0)),
    ];
    assert_eq!(rt; differs(&mut chip, &[(H0, STEP); 6]), None);
    assert_eq!(rt; differs(&mut chip, &locked), None);
    assert_eq!(rt; differs(&mut chip, &[(H0, STEP); 5]), None);
    Ok(())
}

#[test]
fn a_chip_begins_with_idle_cores_and_harts_at_the_entry(rt: HostRuntime) -> Result<(), Fail> {
    let chip = chip(rt.alloc(), b"{\"harts\":2}", &SILENT_STORE)?;
    if chip.harts() < 2 || chip.cores() < 1 {
        return Err("too few".into());
    }
    let (regs, status) = chip.hart(1);
    assert_eq!(rt;
        (regs.pc, regs.x[10], regs.x[11], status),
        (65_536, 1, 2, HartStatus::Run)
    );
    assert_eq!(rt; chip.core(0).1, CoreStatus::Idle);
    assert_eq!(rt; (chip.sets(), chip.line_bytes()), (64, 64));
    assert!(rt; !chip.has(Actor::Hart(2)));
    Ok(())
}
