// What the words ask for.
ghost use Rattle.std.specs.Prelude.{◌≡◌, ◌≤◌, ◌&&◌, Some, None, MatchOption, IfSome, map, option_map, string_bytes, true, false};
ghost use Rattle.std.specs.List.{list_all};
ghost use Rattle.command_words.specs.Options.{are_different, are_options, file_values, has_place, is_option, known, one_number, options_of, values_of};
ghost use Rattle.command_words.specs.Words.{AreApart, HasAllowedValues, run_files, run_of, Asm, Dis, Run, asked, asked_with, command_named, files_in, named, program_files_in, program_named, program_options, run_options, self_options, self_run_in, where_allowed};

use crate::number::number_in;
use crate::options::{needed_value, value_of};
use crate::table::{Kind, KnownOption, are_known, name_different_files};
use schedule_log::MOST_EVENTS;

/// The files of a run.
#[derive(Clone, Copy)]
pub struct RunFiles<'a> {
    pub config: &'a str,
    pub image: &'a str,
    pub schedule: &'a str,
    pub order: &'a str,
    pub report: &'a str,
    pub output: Option<&'a str>,
}

/// The files of a program: its text and its image.
#[derive(Clone, Copy)]
pub struct ProgramFiles<'a> {
    pub source: &'a str,
    pub program: &'a str,
}

/// How near-data cores run kernels: in portions, or as further users of the harts' coherent memory.
#[derive(Clone, Copy)]
pub enum Mode {
    Conda,
    Fine,
}

/// A command, with what its options say.
#[derive(Clone, Copy)]
pub enum Command<'a> {
    Run(Mode, RunFiles<'a>),
    SelfRun {
        seed: u64,
        events: u32,
        report: &'a str,
    },
    Asm(ProgramFiles<'a>),
    Dis(ProgramFiles<'a>),
}

const RUN_OPTIONS: [KnownOption; 6] = [
    KnownOption {
        name: "--config",
        is_needed: true,
        kind: Kind::File,
    },
    KnownOption {
        name: "--image",
        is_needed: true,
        kind: Kind::File,
    },
    KnownOption {
        name: "--schedule",
        is_needed: true,
        kind: Kind::File,
    },
    KnownOption {
        name: "--order",
        is_needed: true,
        kind: Kind::File,
    },
    KnownOption {
        name: "--report",
        is_needed: true,
        kind: Kind::File,
    },
    KnownOption {
        name: "--output",
        is_needed: false,
        kind: Kind::File,
    },
];

const SELF_OPTIONS: [KnownOption; 3] = [
    KnownOption {
        name: "--seed",
        is_needed: true,
        kind: Kind::Number {
            from: 0,
            to: u64::MAX,
        },
    },
    KnownOption {
        name: "--events",
        is_needed: true,
        kind: Kind::Number {
            from: 1,
            to: MOST_EVENTS,
        },
    },
    KnownOption {
        name: "--report",
        is_needed: true,
        kind: Kind::File,
    },
];

const PROGRAM_OPTIONS: [KnownOption; 2] = [
    KnownOption {
        name: "--source",
        is_needed: true,
        kind: Kind::File,
    },
    KnownOption {
        name: "--program",
        is_needed: true,
        kind: Kind::File,
    },
];

fn options_of_run() -> &'static [KnownOption]
    ensures { map known result.now ≡ run_options }
{
    &RUN_OPTIONS
}

fn options_of_self() -> &'static [KnownOption]
    ensures { map known result.now ≡ self_options }
{
    &SELF_OPTIONS
}

fn options_of_program() -> &'static [KnownOption]
    ensures { map known result.now ≡ program_options }
{
    &PROGRAM_OPTIONS
}

// Each option is one that the command takes, and no two name one file.
fn are_allowed(table: &[KnownOption], words: &[String]) -> bool
    ensures { let options = options_of (map string_bytes words.now) in
        let known_options = map known table.now in
        result ≡ (list_all (is_option known_options) options
        && are_different (file_values known_options options)) }
{
    are_known(table, words) && name_different_files(table, words)
}

// The files of a run, where each option stands as it must.
fn run_files_in(words: &[String]) -> Option<RunFiles<'_>>
    ensures { let options = options_of (map string_bytes words.now) in
        let stand = list_all (has_place options) run_options in
        MatchOption result (stand ≡ false)
        (λ n. (stand ≡ true) × (files_in options ≡ named n)) }
{
    Some(RunFiles {
        config: needed_value(words, "--config")?,
        image: needed_value(words, "--image")?,
        schedule: needed_value(words, "--schedule")?,
        order: needed_value(words, "--order")?,
        report: needed_value(words, "--report")?,
        output: value_of(words, "--output")?,
    })
}

// The files of a program, where each option stands as it must.
fn program_files_in(words: &[String]) -> Option<ProgramFiles<'_>>
    ensures { let options = options_of (map string_bytes words.now) in
        let stand = list_all (has_place options) program_options in
        MatchOption result (stand ≡ false)
        (λ n. (stand ≡ true) × (program_files_in options ≡ program_named n)) }
{
    Some(ProgramFiles {
        source: needed_value(words, "--source")?,
        program: needed_value(words, "--program")?,
    })
}

// The number of an option that stands once, where it lies in this range.
fn needed_number(words: &[String], name: &str, from: u64, to: u64) -> Option<u64>
    ensures value { result
        ≡ one_number from to (values_of name.now (options_of (map string_bytes words.now))) }
    ensures range { IfSome result (λ n. (from ≤ n) × (n ≤ to)) }
{
    let value = needed_value(words, name)?;
    number_in(from, to, value)
}

fn run_command(mode: Mode, words: &[String]) -> Option<Command<'_>>
    ensures { let options = options_of (map string_bytes words.now) in
        let asked = where_allowed run_options options (Run mode (files_in options)) in
        MatchOption result (asked ≡ None) (λ c. asked ≡ Some (command_named c)) }
{
    if !are_allowed(options_of_run(), words) {
        return None;
    }
    match run_files_in(words) {
        Some(files) => Some(Command::Run(mode, files)),
        None => None,
    }
}

fn self_command(words: &[String]) -> Option<Command<'_>>
    ensures { let options = options_of (map string_bytes words.now) in
        let asked = where_allowed self_options options (self_run_in options) in
        MatchOption result (asked ≡ None) (λ c. asked ≡ Some (command_named c)) }
{
    if !are_allowed(options_of_self(), words) {
        return None;
    }
    let Some(seed) = needed_number(words, "--seed", 0, u64::MAX) else {
        return None;
    };
    let Some(events) = needed_number(words, "--events", 1, MOST_EVENTS) else {
        return None;
    };
    let Some(report) = needed_value(words, "--report") else {
        return None;
    };
    Some(Command::SelfRun {
        seed,
        events: events as u32,
        report,
    })
}

fn allowed_program_files(words: &[String]) -> Option<ProgramFiles<'_>>
    ensures { let options = options_of (map string_bytes words.now) in
        MatchOption result (are_options program_options options ≡ false)
        (λ n. (are_options program_options options ≡ true)
        × (program_files_in options ≡ program_named n)) }
{
    if !are_allowed(options_of_program(), words) {
        return None;
    }
    program_files_in(words)
}

fn asm_command(words: &[String]) -> Option<Command<'_>>
    ensures { let options = options_of (map string_bytes words.now) in
        let asked = where_allowed program_options options (Asm (program_files_in options)) in
        MatchOption result (asked ≡ None) (λ c. asked ≡ Some (command_named c)) }
{
    let files = allowed_program_files(words)?;
    Some(Command::Asm(files))
}

fn dis_command(words: &[String]) -> Option<Command<'_>>
    ensures { let options = options_of (map string_bytes words.now) in
        let asked = where_allowed program_options options (Dis (program_files_in options)) in
        MatchOption result (asked ≡ None) (λ c. asked ≡ Some (command_named c)) }
{
    let files = allowed_program_files(words)?;
    Some(Command::Dis(files))
}

// What a command with these options asks for.
fn command_by<'a>(name: &str, words: &'a [String]) -> Option<Command<'a>>
    ensures { let asked = asked_with name.now (options_of (map string_bytes words.now)) in
        MatchOption result (asked ≡ None) (λ c. asked ≡ Some (command_named c)) }
{
    if name == "run" {
        run_command(Mode::Conda, words)
    } else if name == "fine" {
        run_command(Mode::Fine, words)
    } else if name == "self" {
        self_command(words)
    } else if name == "asm" {
        asm_command(words)
    } else if name == "dis" {
        dis_command(words)
    } else {
        None
    }
}

/// What the words ask for, or `None` where they are the words of no command.
pub fn command_of(words: &[String]) -> Option<Command<'_>>
    ensures asked { let asked = asked (map string_bytes words.now) in
        MatchOption result (asked ≡ None) (λ c. asked ≡ Some (command_named c)) }

    // Its files are apart, and its number of events is in its range.
    ensures sound { IfSome result (λ c. HasAllowedValues (command_named c)) }
{
    let (name, options) = words.split_first()?;
    command_by(name.as_str(), options)
}

fn run_in(command: Command<'_>) -> Option<RunFiles<'_>>
    ensures { option_map named result ≡ run_of (Some (command_named command.entry)) }
{
    match command {
        Command::Run(Mode::Conda, files) => Some(files),
        _ => None,
    }
}

/// The files of a run by portions, or `None` where the words are those of no such run.
pub fn run_files(words: &[String]) -> Option<RunFiles<'_>>
    ensures files { option_map named result ≡ run_files (map string_bytes words.now) }
    ensures apart { IfSome result (λ n. AreApart (named n)) }
{
    run_in(command_of(words)?)
}
