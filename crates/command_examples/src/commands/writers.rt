// Stores to one line, at each size of a line, and atomics.
use super::chip::{Example, GRANTS, config_of, first_other, first_other_by, has_line};
use super::chip_programs::TWO_WRITERS;
use super::{plain, run_on};
use conda_engine::Status;
use std::alloc::{AllocError, Global};
use std::test::Fail;

// A hart and a kernel that store to one line, at each size of a line.
const WRITERS: &[Example] = &[
    Example {
        keys: "",
        program: TWO_WRITERS,
        schedule: "h0 10\nn0 6",
        order: &[(10, "s 0"), (1, "o 0"), (4, "p 0"), (1, "c 0 4 1")],
        lines: &[
            &[("core 0 done 00000040 pc 0001004c", 0)],
            &[("line 00000040 1122", 124)],
            &[(
                "traffic fill 1 back 1 down 0 drop 1 evict 0 corefill 0 merge 1",
                0,
            )],
        ],
        absent: "tag",
        output: "",
    },
    Example {
        keys: ",\"retries\":0",
        program: TWO_WRITERS,
        schedule: "h0 10\nn0 6",
        order: &[(10, "s 0"), (1, "l 0"), (4, "p 0"), (1, "c 0 4 1")],
        lines: &[&[("line 00000040 1122", 124)]],
        absent: "none",
        output: "",
    },
    Example {
        keys: ",\"line_bytes\":32",
        program: TWO_WRITERS,
        schedule: "h0 10\nn0 6",
        order: &[(10, "s 0"), (1, "o 0"), (4, "p 0"), (1, "c 0 4 1")],
        lines: &[
            &[("line 00000040 1122", 60)],
            &[(
                "traffic fill 1 back 1 down 0 drop 1 evict 0 corefill 0 merge 1",
                0,
            )],
        ],
        absent: "none",
        output: "",
    },
    Example {
        keys: ",\"line_bytes\":128",
        program: TWO_WRITERS,
        schedule: "h0 10\nn0 6",
        order: &[(10, "s 0"), (1, "o 0"), (4, "p 0"), (1, "c 0 4 1")],
        lines: &[
            &[("line 00000000 ", 128), ("1122", 124)],
            &[(
                "traffic fill 1 back 1 down 0 drop 1 evict 0 corefill 0 merge 1",
                0,
            )],
        ],
        absent: "none",
        output: "",
    },
];

// The same by `fine`: the kernel's store goes through a cache of its core, and drops the hart's line.
const FINE_WRITERS: &[Example] = &[Example {
    keys: "",
    program: TWO_WRITERS,
    schedule: "h0 10\nn0 6",
    order: &[(10, "s 0"), (4, "k 0"), (2, "- n0")],
    lines: &[
        &[("core 0 done 00000040 pc 0001004c", 0)],
        &[("line 00000040 1122", 124)],
        &[(
            "traffic fill 2 back 1 down 0 drop 1 evict 0 corefill 0 merge 0",
            0,
        )],
    ],
    absent: "tag",
    output: "",
}];

// The atomics on x5, x6 and (x7), and what a word of 80000000 becomes with 1, as memory holds it.
const ATOMICS: [(u32, &str); 9] = [
    (0x0063_a2af, "01000080"),
    (0x0863_a2af, "01000000"),
    (0x2063_a2af, "01000080"),
    (0x4063_a2af, "01000080"),
    (0x6063_a2af, "00000000"),
    (0x8063_a2af, "00000080"),
    (0xa063_a2af, "01000000"),
    (0xc063_a2af, "01000000"),
    (0xe063_a2af, "00000080"),
];

#[test]
fn two_writers_of_one_line(rt: HostRuntime) -> Result<(), Fail> {
    assert_eq!(rt; first_other(rt.alloc(), WRITERS)?, None);
    Ok(())
}

#[test]
fn two_writers_with_no_portion(rt: HostRuntime) -> Result<(), Fail> {
    let other = first_other_by(rt.alloc(), "fine", FINE_WRITERS)?;
    assert_eq!(rt; other, None);
    Ok(())
}

// Whether an atomic loads the old word and leaves these bytes: lui x5,524288; sw x5,64(x0);
// addi x6,x0,1; addi x7,x0,64, and the atomic. A line of zeros isn't shown.
fn is_atomic_as_told(alloc: Global, atomic: u32, bytes: &str) -> Result<bool, AllocError> {
    let config = config_of(alloc, "")?;
    let words = [0x8000_02b7, 0x0450_2023, 0x0010_0313, 0x0400_0393, atomic];
    let (status, host) = run_on(alloc, &config, plain(alloc, &words)?, b"h0 5", GRANTS)?;
    let report = host.file("report").unwrap_or_default();
    let is_changed = has_line(alloc, report, &[("line 00000040 ", 0), (bytes, 120)])?;
    Ok(
        status == Status::Done
            && has_line(alloc, report, &[("x5 80000000", 0)])?
            && is_changed == (bytes != "00000000"),
    )
}

#[test]
fn each_atomic(rt: HostRuntime) -> Result<(), Fail> {
    for (atomic, bytes) in ATOMICS {
        assert!(rt; is_atomic_as_told(rt.alloc(), atomic, bytes)?);
    }
    Ok(())
}
