// Runs that end well.
use super::{
    AMPLE, ENTRY, FIRST, Grants, ONE_LETTER, ORDER, REPORT, WORDS, host_with, named, plain,
    push_words, run, run_on,
};
use chip_core::Chip;
use conda_engine::{Prepared, Status, drive, prepare};
use conda_host::MemoryHost;
use run_report::Shown;
use std::test::Fail;

// Whether the files hold the texts of one letter.
fn holds_one_letter(host: &MemoryHost) -> bool {
    host.file("order") == Some(ORDER.as_bytes())
        && host.file("report") == Some(REPORT.as_bytes())
        && host.file("output") == Some(b"A".as_slice())
}

#[test]
fn an_empty_schedule(rt: HostRuntime) -> Result<(), Fail> {
    let alloc = rt.alloc();
    let (status, host) = run(alloc, plain(alloc, &ONE_LETTER)?, b"")?;
    assert_eq!(rt; status, Status::Done);
    let report =
        "events 0\noutput 0\nhart 0 run pc 00010000\nx11 00000001\ncore 0 idle pc 00000000\ntraffic fill 0 back 0 down 0 drop 0 evict 0 corefill 0 merge 0\n";
    assert_eq!(rt; host.file("report"), Some(report.as_bytes()));
    assert_eq!(rt; host.file("order"), Some(b"".as_slice()));
    Ok(())
}

#[test]
fn one_letter(rt: HostRuntime) -> Result<(), Fail> {
    let alloc = rt.alloc();
    let (status, host) = run(alloc, plain(alloc, &ONE_LETTER)?, b"h0 6")?;
    assert_eq!(rt; status, Status::Done);
    assert!(rt; holds_one_letter(&host));
    Ok(())
}

#[test]
fn one_event_past_the_exit(rt: HostRuntime) -> Result<(), Fail> {
    let alloc = rt.alloc();
    let (status, host) = run(alloc, plain(alloc, &ONE_LETTER)?, b"h0 6\nh0 1\n")?;
    assert_eq!(rt; status, Status::Done);
    assert_eq!(rt;
        host.file("order"),
        Some(b"s 0\ns 0\ns 0\ns 0\ns 0\ns 0\n- h0\n".as_slice())
    );
    assert_eq!(rt; host.file("output"), Some(b"A".as_slice()));
    Ok(())
}

#[test]
fn a_misaligned_target(rt: HostRuntime) -> Result<(), Fail> {
    let alloc = rt.alloc();
    let (status, host) = run(alloc, plain(alloc, &[0x0000_0163])?, b"h0 2")?;
    assert_eq!(rt; status, Status::Done);
    assert_eq!(rt; host.file("order"), Some(b"s 0\n- h0\n".as_slice()));
    let report =
        "events 2\noutput 0\nhart 0 trap 0 00010002 pc 00010000\nx11 00000001\ncore 0 idle pc 00000000\ntraffic fill 0 back 0 down 0 drop 0 evict 0 corefill 0 merge 0\n";
    assert_eq!(rt; host.file("report"), Some(report.as_bytes()));
    Ok(())
}

// sw x11,64(x0) changes line 1.
#[test]
fn a_store_changes_a_line(rt: HostRuntime) -> Result<(), Fail> {
    let alloc = rt.alloc();
    let (status, host) = run(alloc, plain(alloc, &[0x04b0_2023])?, b"h0 1")?;
    assert_eq!(rt; status, Status::Done);
    let report = host.file("report").ok_or("report")?;
    let line = b"line 00000040 0100000000000000";
    assert!(rt;
        report
            .windows(line.len())
            .any(|part| part == line.as_slice())
    );
    Ok(())
}

#[test]
fn a_word_that_is_no_instruction(rt: HostRuntime) -> Result<(), Fail> {
    let alloc = rt.alloc();
    let (status, host) = run(alloc, plain(alloc, &[0xffff_ffff])?, b"h0 1")?;
    assert_eq!(rt; status, Status::Done);
    let report =
        "events 1\noutput 0\nhart 0 trap 2 ffffffff pc 00010000\nx11 00000001\ncore 0 idle pc 00000000\ntraffic fill 0 back 0 down 0 drop 0 evict 0 corefill 0 merge 0\n";
    assert_eq!(rt; host.file("report"), Some(report.as_bytes()));
    Ok(())
}

// bne x0,x0,2
#[test]
fn a_branch_that_is_not_taken(rt: HostRuntime) -> Result<(), Fail> {
    let alloc = rt.alloc();
    let (status, host) = run(alloc, plain(alloc, &[0x0000_1163])?, b"h0 1")?;
    assert_eq!(rt; status, Status::Done);
    let report =
        "events 1\noutput 0\nhart 0 run pc 00010004\nx11 00000001\ncore 0 idle pc 00000000\ntraffic fill 0 back 0 down 0 drop 0 evict 0 corefill 0 merge 0\n";
    assert_eq!(rt; host.file("report"), Some(report.as_bytes()));
    Ok(())
}

// lui x5,4096; lw x6,-2(x5)
#[test]
fn a_misaligned_load(rt: HostRuntime) -> Result<(), Fail> {
    let alloc = rt.alloc();
    let image = plain(alloc, &[0x0100_02b7, 0xffe2_a303])?;
    let (status, host) = run(alloc, image, b"h0 2")?;
    assert_eq!(rt; status, Status::Done);
    let report =
        "events 2\noutput 0\nhart 0 trap 4 00fffffe pc 00010004\nx5 01000000\nx11 00000001\ncore 0 idle pc 00000000\ntraffic fill 0 back 0 down 0 drop 0 evict 0 corefill 0 merge 0\n";
    assert_eq!(rt; host.file("report"), Some(report.as_bytes()));
    Ok(())
}

#[test]
fn two_harts(rt: HostRuntime) -> Result<(), Fail> {
    let alloc = rt.alloc();
    let image = plain(alloc, &ONE_LETTER)?;
    let (status, host) = run_on(
        alloc,
        b"{\"harts\":2}",
        image,
        b"h1 1\nn0 1\r\nh0 2\n",
        AMPLE,
    )?;
    assert_eq!(rt; status, Status::Done);
    assert_eq!(rt;
        host.file("order"),
        Some(b"s 1\n- n0\ns 0\ns 0\n".as_slice())
    );
    Ok(())
}

#[test]
fn ready_and_driven(rt: HostRuntime) -> Result<(), Fail> {
    let alloc = rt.alloc();
    let mut words = named(alloc, &WORDS)?;
    words.push(String::from_str(alloc, "--config=c")?)?;
    let mut host = host_with(alloc, b"{}", plain(alloc, &ONE_LETTER)?, b"h0 3", AMPLE)?;
    let prepared: Prepared<Chip> = prepare(alloc, &words, &mut host).ok().ok_or("not ready")?;
    assert_eq!(rt; prepared.config().harts, 1);
    let (status, chip) = drive(prepared, &mut host);
    assert_eq!(rt; status, Status::Done);
    assert_eq!(rt; chip.harts(), 1);
    assert_eq!(rt; host.file("output"), Some(b"A".as_slice()));
    Ok(())
}

#[test]
fn a_long_schedule(rt: HostRuntime) -> Result<(), Fail> {
    let alloc = rt.alloc();
    let mut schedule = Vec::new(alloc);
    for _ in 0..200_000 {
        schedule.extend_from_slice(b"h0 1\n")?;
    }
    for most in [1000, 7] {
        let grants = Grants {
            room: 1_100_000,
            most,
            failing: 0,
        };
        let image = plain(alloc, &ONE_LETTER)?;
        let (status, host) = run_on(alloc, b"{}", image, &schedule, grants)?;
        assert_eq!(rt; status, Status::Done);
        let report = host.file("report").ok_or("report")?;
        assert!(rt; report.starts_with(b"events 200000\n"));
    }
    Ok(())
}

#[test]
fn one_byte_a_call(rt: HostRuntime) -> Result<(), Fail> {
    let alloc = rt.alloc();
    let grants = Grants {
        room: 1000,
        most: 1,
        failing: 0,
    };
    let image = plain(alloc, &ONE_LETTER)?;
    let (status, host) = run_on(alloc, b"{}", image, b"h0 6", grants)?;
    assert_eq!(rt; status, Status::Done);
    assert!(rt; holds_one_letter(&host));
    Ok(())
}

// A carriage return before a line feed, and a last line without one.
#[test]
fn lines_end_in_three_ways(rt: HostRuntime) -> Result<(), Fail> {
    let alloc = rt.alloc();
    let (status, host) = run(alloc, plain(alloc, &ONE_LETTER)?, b"h0 3\r\nh0 3")?;
    assert_eq!(rt; status, Status::Done);
    assert!(rt; holds_one_letter(&host));
    Ok(())
}

// Headers of two other types stand before the segment that is loaded.
#[test]
fn other_headers_are_passed_over(rt: HostRuntime) -> Result<(), Fail> {
    let alloc = rt.alloc();
    let mut image = Vec::new(alloc);
    push_words(&mut image, &FIRST)?;
    push_words(&mut image, &[ENTRY, 52, 0, 0, 0x0020_0034, 3, 0])?;
    push_words(&mut image, &[0x6474_e551, 0, 0, 0, 0, 0, 6, 16])?;
    push_words(&mut image, &[0x7000_0003, 0, 0, 0, 9, 9, 4, 1])?;
    push_words(&mut image, &[1, 148, ENTRY, ENTRY, 24, 24, 7, 4])?;
    push_words(&mut image, &ONE_LETTER)?;
    let (status, host) = run(alloc, image, b"h0 6")?;
    assert_eq!(rt; status, Status::Done);
    assert!(rt; holds_one_letter(&host));
    Ok(())
}
