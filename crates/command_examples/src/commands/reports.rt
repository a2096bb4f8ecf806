// Whole reports.
ghost use Rattle.std.specs.Prelude.{◌<◌};

use super::chip::{GRANTS, Text, config_of, has_order, image_of, push_text};
use super::chip_programs::{ONE_SET, ORDINARY_USE, SILENT_STORE};
use super::run_on;
use conda_base::word_digits;
use conda_engine::Status;
use std::alloc::{AllocError, Global};
use std::test::Fail;

const ONE_SET_REPORT: Text = &[
    ("events 6\n", 0),
    ("output 0\n", 0),
    ("hart 0 run pc 0001000c\n", 0),
    ("x5 00000041\n", 0),
    ("x11 00000002\n", 0),
    ("hart 1 run pc 0001000c\n", 0),
    ("x5 00000042\n", 0),
    ("x10 00000001\n", 0),
    ("x11 00000002\n", 0),
    ("core 0 idle pc 00000000\n", 0),
    ("tag 0 00000080 S\n", 0),
    ("tag 1 00000080 S\n", 0),
    ("line 00000040 4142", 124),
    (
        "\ntraffic fill 4 back 2 down 1 drop 1 evict 1 corefill 0 merge 0\n",
        0,
    ),
    ("note fill 0 00000040\n", 0),
    ("note back 0 00000040\n", 0),
    ("note drop 0 00000040\n", 0),
    ("note fill 1 00000040\n", 0),
    ("note fill 0 00000080\n", 0),
    ("note down 0 00000080\n", 0),
    ("note back 1 00000040\n", 0),
    ("note evict 1 00000040\n", 0),
    ("note fill 1 00000080\n", 0),
];

const SILENT_STORE_REPORT: Text = &[
    ("events 22\n", 0),
    ("output 0\n", 0),
    ("hart 0 exit 00000002 pc 00010028\n", 0),
    ("x10 00000002\n", 0),
    ("x12 00000040\n", 0),
    ("x17 0000005d\n", 0),
    ("core 0 idle pc 00010048\n", 0),
    ("x17 000003ec\n", 0),
    ("tag 0 00000040 E\n", 0),
    (
        "traffic fill 1 back 1 down 0 drop 0 evict 0 corefill 2 merge 0\n",
        0,
    ),
    ("note corefill 0 00000040\n", 0),
    ("note fill 0 00000040\n", 0),
    ("note back 0 00000040\n", 0),
    ("note corefill 0 00000040\n", 0),
];

// How many lines the hart of the ordinary use stores to.
const LINES: u32 = 16;

// A run of the ordinary use: its schedule and order, the report's lines up to the cores, and then
// for each of the lines that the hart stores to a tag in this state, the line itself, and a note of
// each of these kinds, with the totals before the notes.
struct Ordinary {
    schedule: &'static str,
    order: &'static [(usize, &'static str)],
    first_lines: &'static str,
    state: &'static str,
    totals: &'static str,
    notes: &'static [&'static str],
}

// A kernel that adds what a hart stored, and the same cut before the kernel begins.
const ORDINARY: &[Ordinary] = &[
    Ordinary {
        schedule: "h0 1032\nn0 1286\nn0 1302\nh0 5",
        order: &[
            (1032, "s 0"),
            (1, "o 0"),
            (1284, "p 0"),
            (1, "r 0 1284 1"),
            (16, "f 0"),
            (1, "o 0"),
            (1284, "p 0"),
            (1, "c 0 1284 1"),
            (5, "s 0"),
        ],
        first_lines: "events 3625\noutput 0\nhart 0 exit 00008080 pc 00010040\n\
            x5 00020400\nx10 00008080\nx11 00008080\nx12 00020000\nx17 0000005d\n\
            core 0 idle pc 000100a0\nx6 00000001\nx7 00008080\nx10 00008080\nx17 000003ec\n",
        state: "E",
        totals: "traffic fill 16 back 16 down 0 drop 0 evict 0 corefill 32 merge 0\n",
        notes: &["fill", "corefill", "back", "corefill"],
    },
    Ordinary {
        schedule: "h0 1032",
        order: &[(1032, "s 0")],
        first_lines: "events 1032\noutput 0\nhart 0 run pc 00010030\n\
            x5 00020400\nx11 00010080\nx12 00020000\nx17 000003e8\n\
            core 0 run pc 00010080\nx10 00020000\n",
        state: "M",
        totals: "traffic fill 16 back 0 down 0 drop 0 evict 0 corefill 0 merge 0\n",
        notes: &["fill"],
    },
];

fn push_address(text: &mut Vec<u8>, line: u32) -> Result<(), AllocError>
    requires { line < LINES }
{
    text.extend_from_slice(&word_digits(0x2_0000 + 64 * line))?;
    Ok(())
}

fn push_tags(text: &mut Vec<u8>, state: &str) -> Result<(), AllocError> {
    for line in 0..LINES {
        text.extend_from_slice(b"tag 0 ")?;
        push_address(text, line)?;
        text.push(b' ')?;
        text.extend_from_slice(state.as_bytes())?;
        text.push(b'\n')?;
    }
    Ok(())
}

// The numbers that the hart stored to a line, from 256 down to 1 over all of them, each with its
// lowest byte first.
fn push_numbers(text: &mut Vec<u8>, line: u32) -> Result<(), AllocError>
    requires { line < LINES }
{
    for place in 0..16u32 {
        let number = 256 - 16 * line - place;
        let bytes = u32::from_be_bytes(number.to_le_bytes());
        text.extend_from_slice(&word_digits(bytes))?;
    }
    Ok(())
}

fn push_changed_lines(text: &mut Vec<u8>) -> Result<(), AllocError> {
    for line in 0..LINES {
        text.extend_from_slice(b"line ")?;
        push_address(text, line)?;
        text.push(b' ')?;
        push_numbers(text, line)?;
        text.push(b'\n')?;
    }
    Ok(())
}

fn push_notes(text: &mut Vec<u8>, kind: &str) -> Result<(), AllocError> {
    for line in 0..LINES {
        text.extend_from_slice(b"note ")?;
        text.extend_from_slice(kind.as_bytes())?;
        text.extend_from_slice(b" 0 ")?;
        push_address(text, line)?;
        text.push(b'\n')?;
    }
    Ok(())
}

fn ordinary_report(alloc: Global, run: &Ordinary) -> Result<Vec<u8>, AllocError> {
    let mut text = Vec::from_slice(alloc, run.first_lines.as_bytes())?;
    push_tags(&mut text, run.state)?;
    push_changed_lines(&mut text)?;
    text.extend_from_slice(run.totals.as_bytes())?;
    for kind in run.notes {
        push_notes(&mut text, kind)?;
    }
    Ok(text)
}

// Whether a run of the ordinary use leaves exactly these files.
fn is_ordinary(alloc: Global, run: &Ordinary) -> Result<bool, AllocError> {
    let config = config_of(alloc, "")?;
    let image = image_of(alloc, ORDINARY_USE)?;
    let (status, host) = run_on(alloc, &config, image, run.schedule.as_bytes(), GRANTS)?;
    let report = ordinary_report(alloc, run)?;
    Ok(
        status == Status::Done
            && has_order(alloc, &host, run.order)?
            && host.file("report") == Some(report.as_slice())
            && host.file("output") == Some(b"".as_slice()),
    )
}

#[test]
fn ordinary_use(rt: HostRuntime) -> Result<(), Fail> {
    for run in ORDINARY {
        assert!(rt; is_ordinary(rt.alloc(), run)?);
    }
    Ok(())
}

// Whether a run on the default memory gives this report.
fn reports(
    alloc: Global,
    config: &[u8],
    program: &[(usize, &[u32])],
    schedule: &[u8],
    report: &[(&str, usize)],
) -> Result<bool, AllocError> {
    let image = image_of(alloc, program)?;
    let (status, host) = run_on(alloc, config, image, schedule, GRANTS)?;
    let mut text = Vec::new(alloc);
    push_text(&mut text, report)?;
    Ok(status == Status::Done && host.file("report") == Some(text.as_slice()))
}

#[test]
fn whole_reports(rt: HostRuntime) -> Result<(), Fail> {
    let alloc = rt.alloc();
    let config = b"{\"harts\":2,\"hart_sets\":1,\"hart_ways\":1}";
    let schedule = b"h0 2\nh1 2\nh0 1\nh1 1\n";
    assert!(rt; reports(alloc, config, ONE_SET, schedule, ONE_SET_REPORT)?);
    let schedule = b"h0 6\nn0 2\nh0 1\nn0 3\nn0 6\nh0 4\n";
    assert!(rt; reports(alloc, b"{}", SILENT_STORE, schedule, SILENT_STORE_REPORT)?);
    Ok(())
}
