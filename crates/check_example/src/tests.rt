// Orders of the worked example of two cores, judged line by line.

use chip_config::read;
use elf_loader::load;
use flat_check::{Checker, OrderFault, Refusal};
use offload_calls::CoreStatus;
use run_report::Shown;
use schedule_log::read_entry;
use std::alloc::Global;
use std::test::Fail;

// An executable of 27 words at 65536, before its words.
const HEADER: [u8; 84] = [
    0x7f, b'E', b'L', b'F', 1, 1, 1, 0, 0, 0, 0, 0, 0, 0, 0, 0, // identification
    2, 0, 243, 0, 1, 0, 0, 0, // an executable for RISC-V
    0, 0, 1, 0, 52, 0, 0, 0, 0, 0, 0, 0, 0, 0, 0, 0, // entry, program headers, sections
    52, 0, 32, 0, 1, 0, 0, 0, 0, 0, 0, 0, // sizes and numbers
    1, 0, 0, 0, 84, 0, 0, 0, 0, 0, 1, 0, 0, 0, 1, 0, // PT_LOAD, offset, addresses
    108, 0, 0, 0, 108, 0, 0, 0, 7, 0, 0, 0, 4, 0, 0, 0, // sizes, flags, alignment
];

// A hart launches two kernels with the argument 64: one stores 5 there, and the other loads from
// there.
const WORDS: [u32; 27] = [
    0x0000_0513, // addi x10,x0,0
    0x0001_05b7, // lui x11,16
    0x0405_8593, // addi x11,x11,64
    0x0400_0613, // addi x12,x0,64
    0x3e80_0893, // addi x17,x0,1000
    0x0000_0073, // ecall
    0x0010_0513, // addi x10,x0,1
    0x0205_8593, // addi x11,x11,32
    0x0000_0073, // ecall
    0x0000_006f, // jal x0,0
    0,
    0,
    0,
    0,
    0,
    0,
    0x0050_0293, // addi x5,x0,5
    0x0055_2023, // sw x5,0(x10)
    0x3ec0_0893, // addi x17,x0,1004
    0x0000_0073, // ecall
    0,
    0,
    0,
    0,
    0x0005_2503, // lw x10,0(x10)
    0x3ec0_0893, // addi x17,x0,1004
    0x0000_0073, // ecall
];

fn checker(alloc: Global) -> Result<Checker, Fail> {
    let config = read(alloc, b"{\"cores\":2}").ok().ok_or("config")?;
    let mut file = Vec::from_slice(alloc, &HEADER)?;
    for word in WORDS {
        file.extend_from_slice(&word.to_le_bytes())?;
    }
    let image = load(alloc, &file, config.mem_base, config.mem_bytes)
        .ok()
        .ok_or("image")?;
    Ok(Checker::new(alloc, &config, image)?)
}

// What is found at the first line that is refused, if all of them name what there is.
fn judge(checker: &mut Checker, lines: &[&[u8]]) -> Option<Result<(), Refusal>> {
    for line in lines {
        let entry = read_entry(*line)?;
        if !checker.has(entry) || checker.entries() > 1000 {
            return None;
        }
        if let Err(why) = checker.entry(entry) {
            return Some(Err(why));
        }
    }
    Some(Ok(()))
}

// Nine acts of the hart launch both kernels; core 1 loads, and core 0 stores and commits.
const FRONT: [&[u8]; 19] = [
    b"s 0", b"s 0", b"s 0", b"s 0", b"s 0", b"s 0", b"s 0", b"s 0", b"s 0", b"o 1", b"p 1", b"o 0",
    b"p 0", b"p 0", b"p 0", b"p 0", b"c 0 4 1", b"p 1", b"p 1",
];

#[test]
fn a_portion_that_read_what_another_stored_is_refused(rt: HostRuntime) -> Result<(), Fail> {
    let mut checker = checker(rt.alloc())?;
    assert_eq!(rt; judge(&mut checker, &FRONT), Some(Ok(())));
    assert_eq!(rt;
        judge(&mut checker, &[b"c 1 2 1"]),
        Some(Err(Refusal::Unsound))
    );
    assert_eq!(rt;
        judge(&mut checker, &[b"c 1 3 1"]),
        Some(Err(Refusal::Overwritten(64)))
    );
    Ok(())
}

#[test]
fn an_act_of_another_kernel_counts_as_a_store(rt: HostRuntime) -> Result<(), Fail> {
    let mut checker = checker(rt.alloc())?;
    assert_eq!(rt; judge(&mut checker, &FRONT[..11]), Some(Ok(())));
    assert_eq!(rt;
        judge(&mut checker, &[b"k 0", b"k 0", b"c 1 1 4"]),
        Some(Err(Refusal::Overwritten(64)))
    );
    Ok(())
}

#[test]
fn a_checker_shows_what_its_order_came_to(rt: HostRuntime) -> Result<(), Fail> {
    let mut checker = checker(rt.alloc())?;
    assert_eq!(rt; judge(&mut checker, &FRONT), Some(Ok(())));
    assert_eq!(rt; judge(&mut checker, &[b"r 1 3 1", b"s 1"]), None);
    assert_eq!(rt; (checker.entries(), checker.output()), (20, 0));
    if checker.cores() < 2 {
        return Err("too few".into());
    }
    assert_eq!(rt; checker.core(0).1, CoreStatus::Done(64));
    Ok(())
}

// How the next line is judged, where the order isn't long.
fn next(checker: &mut Checker, line: &[u8]) -> Option<Result<(), OrderFault>> {
    if checker.entries() > 1000 {
        return None;
    }
    Some(checker.judge(read_entry(line)))
}

#[test]
fn lines_are_bad_for_the_first_cause(rt: HostRuntime) -> Result<(), Fail> {
    let mut checker = checker(rt.alloc())?;
    let bad = |why| Some(Err(OrderFault::Bad { line: 1, why }));
    assert_eq!(rt; next(&mut checker, b"s 9"), bad(1));
    assert_eq!(rt; next(&mut checker, b"c 3 1 1"), bad(2));
    assert_eq!(rt; next(&mut checker, b"c 0 1 1"), bad(3));
    Ok(())
}

#[test]
fn a_commit_that_is_not_clean_is_told_by_its_place(rt: HostRuntime) -> Result<(), Fail> {
    let mut checker = checker(rt.alloc())?;
    assert_eq!(rt; judge(&mut checker, &FRONT), Some(Ok(())));
    assert_eq!(rt;
        next(&mut checker, b"c 1 3 1"),
        Some(Err(OrderFault::Overwritten {
            entry: 19,
            address: 64
        }))
    );
    Ok(())
}
