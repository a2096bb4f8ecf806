// What tries end by, the lock, and flushes that come late.
use super::chip::{Example, first_other};
use super::chip_programs::{ENDLESS, LOADS_TWO, PUTS_TWO, STORES, STORES_TWO, TRAPS};
use std::test::Fail;

// Tries under the lock, and flushes that come late.
const LOCKS: &[Example] = &[
    // Two rollbacks, and then the lock.
    Example {
        keys: ",\"retries\":2",
        program: STORES,
        schedule: "h0 7\nn0 6\nh0 2\nn0 6\nh0 2\nn0 3\nh0 2\nn0 3",
        order: &[
            (7, "s 0"),
            (1, "o 0"),
            (3, "p 0"),
            (1, "r 0 3 1"),
            (1, "f 0"),
            (2, "s 0"),
            (1, "o 0"),
            (3, "p 0"),
            (1, "r 0 3 1"),
            (1, "f 0"),
            (2, "s 0"),
            (1, "l 0"),
            (2, "p 0"),
            (2, "x h0"),
            (1, "p 0"),
            (1, "c 0 3 1"),
            (1, "- n0"),
        ],
        lines: &[],
        absent: "none",
        output: "",
    },
    // The lock at once.
    Example {
        keys: ",\"retries\":0",
        program: STORES,
        schedule: "h0 7\nn0 5",
        order: &[(7, "s 0"), (1, "l 0"), (3, "p 0"), (1, "c 0 3 1")],
        lines: &[],
        absent: "none",
        output: "",
    },
    // A kernel with no end.
    Example {
        keys: ",\"retries\":0,\"portion_max\":4",
        program: ENDLESS,
        schedule: "h0 6\nn0 3\nh0 1\nn0 3\nh0 1",
        order: &[
            (6, "s 0"),
            (1, "l 0"),
            (2, "p 0"),
            (1, "x h0"),
            (2, "p 0"),
            (1, "c 0 4 3"),
            (1, "s 0"),
        ],
        lines: &[&[("core 0 run pc 00010040", 0)]],
        absent: "none",
        output: "",
    },
    // A flush after the harts went on.
    Example {
        keys: ",\"retries\":2",
        program: STORES,
        schedule: "h0 7\nn0 5\nh0 2\nn0 5\nn0 1",
        order: &[
            (7, "s 0"),
            (1, "o 0"),
            (3, "p 0"),
            (1, "r 0 3 1"),
            (2, "s 0"),
            (1, "f 0"),
            (1, "o 0"),
            (3, "p 0"),
            (1, "c 0 3 1"),
        ],
        lines: &[],
        absent: "none",
        output: "",
    },
];

// What a try ends by, each speculative and under the lock.
const ENDS: &[Example] = &[
    Example {
        keys: ",\"core_sets\":1,\"core_ways\":1",
        program: LOADS_TWO,
        schedule: "h0 6\nn0 8",
        order: &[
            (6, "s 0"),
            (1, "o 0"),
            (1, "p 0"),
            (1, "c 0 1 4"),
            (1, "o 0"),
            (3, "p 0"),
            (1, "c 0 3 1"),
        ],
        lines: &[],
        absent: "none",
        output: "",
    },
    Example {
        keys: ",\"core_sets\":1,\"core_ways\":1,\"retries\":0",
        program: LOADS_TWO,
        schedule: "h0 6\nn0 8",
        order: &[
            (6, "s 0"),
            (1, "l 0"),
            (1, "p 0"),
            (1, "c 0 1 4"),
            (1, "l 0"),
            (3, "p 0"),
            (1, "c 0 3 1"),
        ],
        lines: &[],
        absent: "none",
        output: "",
    },
    Example {
        keys: ",\"read_limit\":1",
        program: LOADS_TWO,
        schedule: "h0 6\nn0 8",
        order: &[
            (6, "s 0"),
            (1, "o 0"),
            (1, "p 0"),
            (1, "c 0 1 5"),
            (1, "o 0"),
            (3, "p 0"),
            (1, "c 0 3 1"),
        ],
        lines: &[],
        absent: "none",
        output: "",
    },
    Example {
        keys: ",\"read_limit\":1,\"retries\":0",
        program: LOADS_TWO,
        schedule: "h0 6\nn0 8",
        order: &[
            (6, "s 0"),
            (1, "l 0"),
            (1, "p 0"),
            (1, "c 0 1 5"),
            (1, "l 0"),
            (3, "p 0"),
            (1, "c 0 3 1"),
        ],
        lines: &[],
        absent: "none",
        output: "",
    },
    Example {
        keys: ",\"write_limit\":1",
        program: STORES_TWO,
        schedule: "h0 6\nn0 8",
        order: &[
            (6, "s 0"),
            (1, "o 0"),
            (1, "p 0"),
            (1, "c 0 1 6"),
            (1, "o 0"),
            (3, "p 0"),
            (1, "c 0 3 1"),
        ],
        lines: &[],
        absent: "none",
        output: "",
    },
    Example {
        keys: ",\"write_limit\":1,\"retries\":0",
        program: STORES_TWO,
        schedule: "h0 6\nn0 8",
        order: &[
            (6, "s 0"),
            (1, "l 0"),
            (1, "p 0"),
            (1, "c 0 1 6"),
            (1, "l 0"),
            (3, "p 0"),
            (1, "c 0 3 1"),
        ],
        lines: &[],
        absent: "none",
        output: "",
    },
    Example {
        keys: ",\"out_max\":1",
        program: PUTS_TWO,
        schedule: "h0 6\nn0 9",
        order: &[
            (6, "s 0"),
            (1, "o 0"),
            (2, "p 0"),
            (1, "c 0 2 7"),
            (1, "o 0"),
            (3, "p 0"),
            (1, "c 0 3 1"),
        ],
        lines: &[],
        absent: "none",
        output: "@@",
    },
    Example {
        keys: ",\"out_max\":1,\"retries\":0",
        program: PUTS_TWO,
        schedule: "h0 6\nn0 9",
        order: &[
            (6, "s 0"),
            (1, "l 0"),
            (2, "p 0"),
            (1, "c 0 2 7"),
            (1, "l 0"),
            (3, "p 0"),
            (1, "c 0 3 1"),
        ],
        lines: &[],
        absent: "none",
        output: "@@",
    },
    // A trap that commits.
    Example {
        keys: "",
        program: TRAPS,
        schedule: "h0 6\nn0 3\nh0 3",
        order: &[
            (6, "s 0"),
            (1, "o 0"),
            (1, "p 0"),
            (1, "c 0 1 2"),
            (3, "s 0"),
        ],
        lines: &[&[("core 0 idle pc 00010042", 0)], &[("x10 00000003", 0)]],
        absent: "x11",
        output: "",
    },
    Example {
        keys: ",\"retries\":0",
        program: TRAPS,
        schedule: "h0 6\nn0 3\nh0 3",
        order: &[
            (6, "s 0"),
            (1, "l 0"),
            (1, "p 0"),
            (1, "c 0 1 2"),
            (3, "s 0"),
        ],
        lines: &[],
        absent: "none",
        output: "",
    },
];

#[test]
fn the_lock_and_late_flushes(rt: HostRuntime) -> Result<(), Fail> {
    assert_eq!(rt; first_other(rt.alloc(), LOCKS)?, None);
    Ok(())
}

#[test]
fn the_ends_of_tries(rt: HostRuntime) -> Result<(), Fail> {
    assert_eq!(rt; first_other(rt.alloc(), ENDS)?, None);
    Ok(())
}
