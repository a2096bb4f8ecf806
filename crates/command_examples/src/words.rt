// Words of commands, and words of none.
use command_words::{Command, Mode, command_of};
use std::alloc::{AllocError, Global};
use std::test::Fail;

fn words_of(alloc: Global, line: &str) -> Result<Vec<String>, AllocError> {
    let mut words = Vec::new(alloc);
    for word in line.split(' ') {
        words.push(String::from_str(alloc, word)?)?;
    }
    Ok(words)
}

// The first word of what the words ask for.
fn name_of(alloc: Global, line: &str) -> Result<&'static str, AllocError> {
    let words = words_of(alloc, line)?;
    Ok(match command_of(&words) {
        Some(Command::Run(Mode::Conda, _)) => "run",
        Some(Command::Run(Mode::Fine, _)) => "fine",
        Some(Command::SelfRun { .. }) => "self",
        Some(Command::Asm(_)) => "asm",
        Some(Command::Dis(_)) => "dis",
        None => "",
    })
}

// Lines of words, each with the command that it asks for.
const TAKEN: [(&str, &str); 7] = [
    (
        "run --output o --config=a=b --image i --order=x --schedule s --report r",
        "run",
    ),
    (
        "run --config c --image i --schedule s --order x --report r",
        "run",
    ),
    (
        "fine --config c --image i --schedule s --order x --report r",
        "fine",
    ),
    ("self --seed 1 --events 1 --report 1", "self"),
    (
        "self --seed=18446744073709551615 --events=67108864 --report=r",
        "self",
    ),
    ("asm --source s --program=p", "asm"),
    ("dis --program=s --source p", "dis"),
];

const REFUSED: [&str; 25] = [
    "",
    "run",
    "run --help",
    "runs --config c --image i --schedule s --order x --report r",
    "run --config c --image i --schedule s --order x --report r --",
    "run --config c --image i --schedule s --order x",
    "run --config c --image i --schedule s --order x --report r --image j",
    "run --config c --image i --schedule s --order x --report x",
    "run --config -c --image i --schedule s --order x --report r",
    "run --config= --image i --schedule s --order x --report r",
    "run --config c --image i --schedule s --order x --report",
    "run --config c --image i --schedule s --order x --report r --seed 1",
    "fine --config c --image i --schedule s --order x --report x",
    "self --seed 1 --events 0 --report r",
    "self --seed 1 --events 67108865 --report r",
    "self --seed 18446744073709551616 --events 1 --report r",
    "self --seed 01 --events 1 --report r",
    "self --seed +1 --events 1 --report r",
    "self --seed 1x --events 1 --report r",
    "self --seed= --events 1 --report r",
    "self --seed 1 --report r",
    "asm --source s --program s",
    "asm --source s",
    "dis --program p --source s --output o",
    "check --config c --image i --order o --report r",
];

#[test]
fn words_ask_for_commands(rt: HostRuntime) -> Result<(), Fail> {
    for (line, name) in &TAKEN {
        assert_eq!(rt; name_of(rt.alloc(), line)?, *name);
    }
    for line in &REFUSED {
        assert_eq!(rt; name_of(rt.alloc(), line)?, "");
    }
    Ok(())
}

#[test]
fn options_come_in_any_order(rt: HostRuntime) -> Result<(), Fail> {
    let words = words_of(
        rt.alloc(),
        "run --output o --config=a=b --image i --order=x --schedule s --report r",
    )?;
    let Some(Command::Run(_, files)) = command_of(&words) else {
        return Err("no run".into());
    };
    assert_eq!(rt; files.config, "a=b");
    assert_eq!(rt; files.order, "x");
    assert_eq!(rt; files.output.ok_or("no output")?, "o");
    Ok(())
}

#[test]
fn numbers_are_decimal(rt: HostRuntime) -> Result<(), Fail> {
    let words = words_of(
        rt.alloc(),
        "self --events 67108864 --report r --seed=18446744073709551615",
    )?;
    let Some(Command::SelfRun { seed, events, .. }) = command_of(&words) else {
        return Err("no run of its own".into());
    };
    assert_eq!(rt; seed, u64::MAX);
    assert_eq!(rt; events, 67_108_864);
    Ok(())
}
