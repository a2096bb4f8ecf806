// Tries that are rolled back or not, by what harts and other cores store.
use super::chip::{Example, first_other};
use super::chip_programs::{
    ALIAS, ATOMIC, COVERED, HALF_COVERED, SILENT_STORE, STALE_POINTER, TWO_CORES,
};
use std::test::Fail;

// Tries that are rolled back or not, by what the harts store.
const TRIES: &[Example] = &[
    // A try that met a store of the same value.
    Example {
        keys: "",
        program: SILENT_STORE,
        schedule: "h0 6\nn0 2\nh0 1\nn0 3\nn0 6\nh0 4",
        order: &[
            (6, "s 0"),
            (1, "o 0"),
            (1, "p 0"),
            (1, "s 0"),
            (1, "p 0"),
            (1, "p 0"),
            (1, "r 0 3 1"),
            (1, "f 0"),
            (1, "o 0"),
            (3, "p 0"),
            (1, "c 0 3 1"),
            (4, "s 0"),
        ],
        lines: &[&[("tag 0 00000040 E", 0)]],
        absent: "none",
        output: "",
    },
    // Two lines that one signature can't tell apart.
    Example {
        keys: ",\"sig_bits\":1",
        program: ALIAS,
        schedule: "h0 6\nn0 2\nh0 1\nn0 3\nn0 6\nh0 4",
        order: &[
            (6, "s 0"),
            (1, "o 0"),
            (1, "p 0"),
            (1, "s 0"),
            (1, "p 0"),
            (1, "p 0"),
            (1, "r 0 3 1"),
            (1, "f 0"),
            (1, "o 0"),
            (3, "p 0"),
            (1, "c 0 3 1"),
            (4, "s 0"),
        ],
        lines: &[&[("tag 0 00000240 E", 0)]],
        absent: "none",
        output: "",
    },
    // Two lines that a longer signature tells apart.
    Example {
        keys: "",
        program: ALIAS,
        schedule: "h0 6\nn0 2\nh0 1\nn0 3",
        order: &[
            (6, "s 0"),
            (1, "o 0"),
            (1, "p 0"),
            (1, "s 0"),
            (2, "p 0"),
            (1, "c 0 3 1"),
        ],
        lines: &[],
        absent: "none",
        output: "",
    },
    // A pointer that is stale in memory makes no trap.
    Example {
        keys: "",
        program: STALE_POINTER,
        schedule: "h0 8\nn0 4\nn0 7\nh0 4",
        order: &[
            (8, "s 0"),
            (1, "o 0"),
            (1, "p 0"),
            (1, "p 0"),
            (1, "r 0 2 2"),
            (1, "f 0"),
            (1, "o 0"),
            (4, "p 0"),
            (1, "c 0 4 1"),
            (4, "s 0"),
        ],
        lines: &[
            &[("hart 0 exit 00000002 pc 0001002c", 0)],
            &[("core 0 idle pc 0001004c", 0)],
            &[("line 00010080 80000100", 120)],
        ],
        absent: "trap",
        output: "",
    },
    // A load that its own store covers by a byte alone.
    Example {
        keys: "",
        program: HALF_COVERED,
        schedule: "h0 6\nn0 2\nh0 1\nn0 4",
        order: &[
            (6, "s 0"),
            (1, "o 0"),
            (1, "p 0"),
            (1, "s 0"),
            (3, "p 0"),
            (1, "r 0 4 1"),
        ],
        lines: &[],
        absent: "none",
        output: "",
    },
    // A load that its own store covers.
    Example {
        keys: "",
        program: COVERED,
        schedule: "h0 6\nn0 2\nh0 1\nn0 4",
        order: &[
            (6, "s 0"),
            (1, "o 0"),
            (1, "p 0"),
            (1, "s 0"),
            (3, "p 0"),
            (1, "c 0 4 1"),
        ],
        lines: &[&[(
            "note back 0 00000040\nnote drop 0 00000040\nnote merge 0 00000040",
            0,
        )]],
        absent: "none",
        output: "",
    },
    // One core's commit meets the other's try.
    Example {
        keys: ",\"cores\":2",
        program: TWO_CORES,
        schedule: "h0 9\nn1 2\nn0 6\nn1 3\nn1 2",
        order: &[
            (9, "s 0"),
            (1, "o 1"),
            (1, "p 1"),
            (1, "o 0"),
            (4, "p 0"),
            (1, "c 0 4 1"),
            (2, "p 1"),
            (1, "r 1 3 1"),
            (1, "o 1"),
            (1, "p 1"),
        ],
        lines: &[
            &[("core 0 done 00000040 pc 0001004c", 0)],
            &[(
                "core 1 run pc 00010060\nx10 00000040\nline 00000040 05",
                126,
            )],
            &[(
                "traffic fill 0 back 0 down 0 drop 0 evict 0 corefill 2 merge 1",
                0,
            )],
        ],
        absent: "none",
        output: "",
    },
    // An atomic in a try.
    Example {
        keys: "",
        program: ATOMIC,
        schedule: "h0 6\nn0 5",
        order: &[(6, "s 0"), (1, "o 0"), (3, "p 0"), (1, "c 0 3 1")],
        lines: &[
            &[("line 00000040 40", 126)],
            &[(
                "traffic fill 0 back 0 down 0 drop 0 evict 0 corefill 1 merge 1",
                0,
            )],
        ],
        absent: "none",
        output: "",
    },
    // An atomic that met a store.
    Example {
        keys: "",
        program: ATOMIC,
        schedule: "h0 6\nn0 2\nh0 1\nn0 3",
        order: &[
            (6, "s 0"),
            (1, "o 0"),
            (1, "p 0"),
            (1, "s 0"),
            (2, "p 0"),
            (1, "r 0 3 1"),
        ],
        lines: &[],
        absent: "none",
        output: "",
    },
];

#[test]
fn stores_that_tries_meet(rt: HostRuntime) -> Result<(), Fail> {
    assert_eq!(rt; first_other(rt.alloc(), TRIES)?, None);
    Ok(())
}
