// Runs that are refused.
use super::filled::Filled;
use super::{AMPLE, ENTRY, ONE_LETTER, WORDS, host_with, named, plain, run, run_on};
use arrayvec::ArrayVec;
use chip_config::ConfigFault;
use conda_engine::{Status, conda, status_text};
use conda_host::{MemoryHost, Role};
use elf_loader::ImageFault;
use std::alloc::{AllocError, Global};
use std::test::Fail;

// What is refused.
#[derive(Clone, Copy)]
enum Given {
    // A run with this configuration.
    Config(&'static str),
    // A run of the image of one letter, cut to so many bytes.
    Cut(usize),
    // A run of the image of one letter with another word at a place.
    Lie(u8, u32),
    // A run of an image with two headers for the same bytes.
    Overlap,
    // A command whose file of this role is so many times this byte.
    Bytes(Role, u8, usize),
}

// What each is refused for: each rule of configurations in its order, those on the size of lines
// among them, each rule of images in its order and further ways to break one, and each limit on
// bytes.
const REFUSALS: &[(Given, Status)] = &[
    (Given::Config("{"), Status::Config(ConfigFault::NotJson)),
    (Given::Config("[]"), Status::Config(ConfigFault::NotObject)),
    (
        Given::Config("{\"hart\":1}"),
        Status::Config(ConfigFault::UnknownKey),
    ),
    (
        Given::Config("{\"harts\":\"1\"}"),
        Status::Config(ConfigFault::NotNumber(1)),
    ),
    (
        Given::Config("{\"harts\":9}"),
        Status::Config(ConfigFault::OutOfRange(1, 9)),
    ),
    (
        Given::Config("{\"line_bytes\":48}"),
        Status::Config(ConfigFault::OutOfRange(16, 48)),
    ),
    (
        Given::Config("{\"line_bytes\":32,\"mem_base\":32}"),
        Status::Config(ConfigFault::OutOfRange(3, 32)),
    ),
    (
        Given::Config("{\"mem_base\":4294967232,\"mem_bytes\":4096}"),
        Status::Config(ConfigFault::BadMemory(4_294_967_232, 4096)),
    ),
    (
        Given::Config("{\"line_bytes\":128,\"mem_bytes\":4160}"),
        Status::Config(ConfigFault::BadMemory(0, 4160)),
    ),
    (Given::Cut(51), Status::Image(ImageFault::Short)),
    (
        Given::Lie(0, 0x474c_457f),
        Status::Image(ImageFault::NotElf),
    ),
    (
        Given::Lie(4, 0x0001_0102),
        Status::Image(ImageFault::NotClass32),
    ),
    (
        Given::Lie(4, 0x0001_0201),
        Status::Image(ImageFault::NotLittle),
    ),
    (
        Given::Lie(4, 0x0000_0101),
        Status::Image(ImageFault::BadVersion),
    ),
    (
        Given::Lie(16, 0x00f3_0003),
        Status::Image(ImageFault::NotExec),
    ),
    (
        Given::Lie(16, 0x003e_0002),
        Status::Image(ImageFault::NotRiscv),
    ),
    (Given::Lie(36, 1), Status::Image(ImageFault::BadFlags(1))),
    (
        Given::Lie(40, 0x0020_0035),
        Status::Image(ImageFault::BadHeaderSize),
    ),
    (
        Given::Lie(44, 65),
        Status::Image(ImageFault::TooManySegments(65)),
    ),
    (
        Given::Lie(28, 0xffff_ffff),
        Status::Image(ImageFault::TableOutside),
    ),
    (Given::Lie(52, 2), Status::Image(ImageFault::Dynamic(0))),
    (Given::Lie(72, 20), Status::Image(ImageFault::BadSegment(0))),
    (
        Given::Lie(60, 16_777_216),
        Status::Image(ImageFault::SegmentOutside(0)),
    ),
    (Given::Overlap, Status::Image(ImageFault::Overlap(1))),
    (Given::Lie(44, 0), Status::Image(ImageFault::NoSegment)),
    (
        Given::Lie(24, 65_538),
        Status::Image(ImageFault::BadEntry(65_538)),
    ),
    (
        Given::Lie(56, 0xffff_ffff),
        Status::Image(ImageFault::BadSegment(0)),
    ),
    (
        Given::Lie(60, 0xffff_fffc),
        Status::Image(ImageFault::SegmentOutside(0)),
    ),
    (
        Given::Lie(76, 6),
        Status::Image(ImageFault::BadEntry(65_536)),
    ),
    (
        Given::Lie(24, 65_560),
        Status::Image(ImageFault::BadEntry(65_560)),
    ),
    (
        Given::Bytes(Role::Config, b' ', 65_537),
        Status::TooLarge {
            role: Role::Config,
            limit: 65_536,
        },
    ),
    (
        Given::Bytes(Role::Image, 0, 33_554_433),
        Status::TooLarge {
            role: Role::Image,
            limit: 33_554_432,
        },
    ),
    (
        Given::Bytes(Role::Schedule, b'\n', 1_073_741_825),
        Status::TooLarge {
            role: Role::Schedule,
            limit: 1_073_741_824,
        },
    ),
    (
        Given::Bytes(Role::Source, b'\n', 134_217_729),
        Status::TooLarge {
            role: Role::Source,
            limit: 134_217_728,
        },
    ),
    (
        Given::Bytes(Role::Program, 0, 33_554_433),
        Status::TooLarge {
            role: Role::Program,
            limit: 33_554_432,
        },
    ),
];

// A program header for bytes that the first segment has too.
const SECOND_HEADER: [u32; 8] = [1, 84, ENTRY, ENTRY, 4, 4, 7, 4];

// Puts a word into an image.
fn put_word(image: &mut Vec<u8>, place: u8, word: u32) {
    for (i, new) in word.to_le_bytes().into_iter().enumerate() {
        if let Some(byte) = image.get_mut(usize::from(place) + i) {
            *byte = new;
        }
    }
}

// An image with another word at a place.
fn lying(alloc: Global, words: &[u32], place: u8, word: u32) -> Result<Vec<u8>, AllocError> {
    let mut image = plain(alloc, words)?;
    put_word(&mut image, place, word);
    Ok(image)
}

fn cut(alloc: Global, count: usize) -> Result<Vec<u8>, AllocError> {
    let mut image = plain(alloc, &ONE_LETTER)?;
    image.truncate(count);
    Ok(image)
}

// The words of a command that reads a file of this role.
fn words_with(alloc: Global, role: Role) -> Result<Vec<String>, AllocError> {
    match role {
        Role::Source => named(alloc, &["asm", "--source=s", "--program=p"]),
        Role::Program => named(alloc, &["dis", "--source=s", "--program=p"]),
        _ => {
            let mut words = named(alloc, &WORDS)?;
            words.push(String::from_str(alloc, "--config=c")?)?;
            Ok(words)
        }
    }
}

// What a command leads to whose file of this role is so many times a byte.
fn status_of_bytes(
    alloc: Global,
    role: Role,
    byte: u8,
    count: usize,
) -> Result<Status, AllocError> {
    let words = words_with(alloc, role)?;
    let image = plain(alloc, &ONE_LETTER)?;
    let mut host = Filled {
        role,
        byte,
        count,
        config: b"{}",
        image: &image,
    };
    Ok(conda(alloc, &words, &mut host))
}

// What an image leads to.
fn status_of_image(alloc: Global, image: Vec<u8>) -> Result<Status, AllocError> {
    let (status, _) = run(alloc, image, b"")?;
    Ok(status)
}

fn status_of(alloc: Global, given: Given) -> Result<Status, AllocError> {
    match given {
        Given::Config(text) => {
            let (status, _) = config_status(alloc, text.as_bytes())?;
            Ok(status)
        }
        Given::Cut(count) => status_of_image(alloc, cut(alloc, count)?),
        Given::Lie(place, word) => {
            status_of_image(alloc, lying(alloc, &ONE_LETTER, place, word)?)
        }
        Given::Overlap => status_of_image(alloc, lying(alloc, &SECOND_HEADER, 44, 2)?),
        Given::Bytes(role, byte, count) => status_of_bytes(alloc, role, byte, count),
    }
}

// The place of the first refusal that another status comes of.
fn first_other(alloc: Global, refusals: &[(Given, Status)]) -> Result<Option<usize>, AllocError> {
    for (place, refusal) in refusals.iter().enumerate() {
        if status_of(alloc, refusal.0)? != refusal.1 {
            return Ok(Some(place));
        }
    }
    Ok(None)
}

#[test]
fn each_refusal(rt: HostRuntime) -> Result<(), Fail> {
    assert_eq!(rt; first_other(rt.alloc(), REFUSALS)?, None);
    Ok(())
}

#[test]
fn a_refused_image_makes_no_file(rt: HostRuntime) -> Result<(), Fail> {
    let alloc = rt.alloc();
    let (status, host) = run(alloc, cut(alloc, 51)?, b"h0 6")?;
    assert_eq!(rt; status, Status::Image(ImageFault::Short));
    assert_eq!(rt; host.file("order"), None);
    assert_eq!(rt; host.file("report"), None);
    assert_eq!(rt; host.file("output"), None);
    Ok(())
}

// What a schedule leads to on one letter, and the order that it leaves.
fn schedule_status(alloc: Global, schedule: &[u8]) -> Result<(Status, MemoryHost), AllocError> {
    run(alloc, plain(alloc, &ONE_LETTER)?, schedule)
}

#[test]
fn a_bad_line(rt: HostRuntime) -> Result<(), Fail> {
    let (status, host) = schedule_status(rt.alloc(), b"h0 1\nh9 1\n")?;
    assert_eq!(rt; status, Status::Schedule { line: 2, why: 3 });
    assert_eq!(rt; host.file("order"), Some(b"s 0\n".as_slice()));
    assert_eq!(rt; host.file("report"), None);
    Ok(())
}

#[test]
fn bad_first_lines(rt: HostRuntime) -> Result<(), Fail> {
    let alloc = rt.alloc();
    let (count, _) = schedule_status(alloc, b"h0 0")?;
    assert_eq!(rt; count, Status::Schedule { line: 1, why: 2 });
    let (form, _) = schedule_status(alloc, b"h9")?;
    assert_eq!(rt; form, Status::Schedule { line: 1, why: 1 });
    let (long, _) = schedule_status(alloc, b"abcdefghijklmnopqrstuvwxyzabcdefg")?;
    assert_eq!(rt; long, Status::Schedule { line: 1, why: 4 });
    Ok(())
}

#[test]
fn a_line_of_too_many_events(rt: HostRuntime) -> Result<(), Fail> {
    let (status, host) = schedule_status(rt.alloc(), b"h0 1\nh0 67108864\n")?;
    let limit = Status::TooLarge {
        role: Role::Schedule,
        limit: 67_108_864,
    };
    assert_eq!(rt; status, limit);
    assert_eq!(rt; host.file("order"), Some(b"s 0\n".as_slice()));
    assert_eq!(rt; host.file("report"), None);
    Ok(())
}

// What a configuration leads to.
fn config_status(alloc: Global, config: &[u8]) -> Result<(Status, MemoryHost), AllocError> {
    run_on(alloc, config, plain(alloc, &ONE_LETTER)?, b"", AMPLE)
}

#[test]
fn a_refused_configuration(rt: HostRuntime) -> Result<(), Fail> {
    let (status, host) = config_status(rt.alloc(), b"{\"harts\":9}")?;
    assert_eq!(rt; status, Status::Config(ConfigFault::OutOfRange(1, 9)));
    assert_eq!(rt; host.file("order"), None);
    let mut text: ArrayVec<u8, 128> = ArrayVec::new();
    status_text(&status, &mut text);
    assert_eq!(rt; text.as_slice(), b"conda: config fault 5 1 9".as_slice());
    Ok(())
}

#[test]
fn a_configuration_of_too_many_bytes(rt: HostRuntime) -> Result<(), Fail> {
    let alloc = rt.alloc();
    let spaces = vec![in alloc; b' '; 65_537]?;
    let (status, host) = config_status(alloc, &spaces)?;
    let limit = Status::TooLarge {
        role: Role::Config,
        limit: 65_536,
    };
    assert_eq!(rt; status, limit);
    assert_eq!(rt; host.file("order"), None);
    Ok(())
}

#[test]
fn two_roles_of_one_file(rt: HostRuntime) -> Result<(), Fail> {
    let alloc = rt.alloc();
    let mut words = named(alloc, &WORDS[..6])?;
    for word in ["--report=order", "--config=c"] {
        words.push(String::from_str(alloc, word)?)?;
    }
    let image = plain(alloc, &ONE_LETTER)?;
    let mut host = host_with(alloc, b"{}", image, b"h0 6", AMPLE)?;
    let status = conda(alloc, &words, &mut host);
    assert_eq!(rt; status, Status::Usage);
    assert_eq!(rt; host.file("order"), None);
    assert_eq!(rt; host.file("report"), None);
    Ok(())
}

// Whether these words, with those of a whole run after them, are a faulty command line.
fn is_usage(alloc: Global, word: &str) -> Result<bool, AllocError> {
    let mut words = named(alloc, &WORDS)?;
    words.push(String::from_str(alloc, word)?)?;
    let image = plain(alloc, &ONE_LETTER)?;
    let mut host = host_with(alloc, b"{}", image, b"h0 6", AMPLE)?;
    Ok(conda(alloc, &words, &mut host) == Status::Usage)
}

#[test]
fn words_that_are_no_command(rt: HostRuntime) -> Result<(), Fail> {
    let alloc = rt.alloc();
    assert!(rt; !is_usage(alloc, "--config=c")?);
    assert!(rt; is_usage(alloc, "--help")?);
    assert!(rt; is_usage(alloc, "--")?);
    assert!(rt; is_usage(alloc, "--config=-c")?);
    assert!(rt; is_usage(alloc, "--config=")?);
    Ok(())
}

#[test]
fn lines_of_statuses(rt: HostRuntime) {
    let mut text: ArrayVec<u8, 128> = ArrayVec::new();
    status_text(&Status::Usage, &mut text);
    assert_eq!(rt; text.as_slice(), b"conda: usage".as_slice());
    let status = Status::Image(ImageFault::BadFlags(1));
    let mut text: ArrayVec<u8, 128> = ArrayVec::new();
    status_text(&status, &mut text);
    assert_eq!(rt; text.as_slice(), b"conda: image fault 8 1".as_slice());
    assert_eq!(rt; status.code(), 6);
}
