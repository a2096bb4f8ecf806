// What calls answer.
use super::chip::{Example, first_other};
use super::chip_programs::{
    HART_IS_DONE, KERNEL_EXITS, LAUNCHES_AGAIN, LAUNCHES_CORE_1, POLLS, POLLS_CORE_1, WAITS,
};
use std::test::Fail;

// What calls answer, with one core.
const CALLS: &[Example] = &[
    // A launch of a core that runs.
    Example {
        keys: "",
        program: LAUNCHES_AGAIN,
        schedule: "h0 7",
        order: &[(7, "s 0")],
        lines: &[&[("hart 0 run pc 0001001c\nx10 00000001", 0)]],
        absent: "none",
        output: "",
    },
    // A launch of a core that is done.
    Example {
        keys: "",
        program: LAUNCHES_AGAIN,
        schedule: "h0 6\nn0 5\nh0 1",
        order: &[
            (6, "s 0"),
            (1, "o 0"),
            (3, "p 0"),
            (1, "c 0 3 1"),
            (1, "s 0"),
        ],
        lines: &[&[("hart 0 run pc 0001001c\nx10 00000001", 0)]],
        absent: "none",
        output: "",
    },
    Example {
        keys: "",
        program: LAUNCHES_CORE_1,
        schedule: "h0 6",
        order: &[(6, "s 0")],
        lines: &[&[("hart 0 run pc 00010018\nx10 00000002", 0)]],
        absent: "none",
        output: "",
    },
    // Where a register is 0 the report leaves it out.
    Example {
        keys: "",
        program: POLLS_CORE_1,
        schedule: "h0 3",
        order: &[(3, "s 0")],
        lines: &[&[("hart 0 run pc 0001000c\nx10 00000004\nx17 000003ea", 0)]],
        absent: "none",
        output: "",
    },
    Example {
        keys: "",
        program: POLLS,
        schedule: "h0 3",
        order: &[(3, "s 0")],
        lines: &[&[("hart 0 run pc 0001000c\nx17 000003ea", 0)]],
        absent: "none",
        output: "",
    },
    Example {
        keys: "",
        program: WAITS,
        schedule: "h0 3",
        order: &[(3, "s 0")],
        lines: &[&[("hart 0 run pc 0001000c\nx17 000003e9", 0)]],
        absent: "none",
        output: "",
    },
    Example {
        keys: "",
        program: HART_IS_DONE,
        schedule: "h0 2",
        order: &[(2, "s 0")],
        lines: &[&[("hart 0 trap 8 000003ec pc 00010004", 0)]],
        absent: "none",
        output: "",
    },
    Example {
        keys: "",
        program: KERNEL_EXITS,
        schedule: "h0 6\nn0 4",
        order: &[(6, "s 0"), (1, "o 0"), (2, "p 0"), (1, "c 0 2 2")],
        lines: &[&[("core 0 trap 8 0000005d pc 00010044", 0)]],
        absent: "none",
        output: "",
    },
];

#[test]
fn what_calls_answer(rt: HostRuntime) -> Result<(), Fail> {
    assert_eq!(rt; first_other(rt.alloc(), CALLS)?, None);
    Ok(())
}
