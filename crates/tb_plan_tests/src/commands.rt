//! Tests of `tb_words`.

use std::alloc::{AllocError, Global};
use std::test::Fail;
use tb_text::UsageFault;
use tb_words::{Command, WordsFault, read_words};

/// The words of a line, with a blank between them.
fn words_of(alloc: Global, line: &str) -> Result<Vec<String>, AllocError> {
    let mut words = Vec::new(alloc);
    for word in line.split(' ') {
        words.push(String::from_str(alloc, word)?)?;
    }
    Ok(words)
}

/// A command or a fault as one line.
fn shown(alloc: Global, answer: &Result<Command, WordsFault>) -> Result<String, AllocError> {
    match answer {
        Ok(command) => command_text(alloc, command),
        Err(WordsFault::NoMemory) => String::from_str(alloc, "no memory"),
        Err(WordsFault::Usage(fault)) => fault_text(alloc, fault),
    }
}

fn fault_text(alloc: Global, fault: &UsageFault) -> Result<String, AllocError> {
    match fault {
        UsageFault::Unread => String::from_str(alloc, "unread"),
        UsageFault::BadNumber(name) => format!(in alloc; "number {}", name.as_str()),
        UsageFault::BadPair(first, second) => format!(in alloc;
            "pair {} {}",
            first.as_str(),
            second.as_str()
        ),
        UsageFault::BadRoot(word) => format!(in alloc; "root [{}]", word.as_str()),
    }
}

fn command_text(alloc: Global, command: &Command) -> Result<String, AllocError> {
    let mut text = String::new(alloc);
    let flags = [
        (command.force, "force "),
        (command.clean, "clean "),
        (command.dry, "dry "),
        (command.watch, "watch "),
        (command.verbose, "verbose "),
    ];
    for (is_set, name) in flags {
        if is_set {
            text.push_str(name)?;
        }
    }
    let numbers = format!(in alloc; "{} {}", command.workers, command.turns)?;
    text.push_str(numbers.as_str())?;
    if let Some(number) = command.gen_number {
        let number = format!(in alloc; " gen {number}")?;
        text.push_str(number.as_str())?;
    }
    for root in command.roots.as_slice() {
        text.push_str(" ")?;
        text.push_str(root.as_str())?;
    }
    Ok(text)
}

#[test]
fn reads_command_lines(rt: HostRuntime) -> Result<(), Fail> {
    let cases = [
        ("-b", "4 4294967295 tsconfig.json"),
        ("--build a", "4 4294967295 a/tsconfig.json"),
        ("--verbose --verbose", "verbose 4 4294967295 tsconfig.json"),
        ("-vf", "force verbose 4 4294967295 tsconfig.json"),
        ("-bvbd", "dry verbose 4 4294967295 tsconfig.json"),
        ("-w --workers 64", "watch 64 4294967295 tsconfig.json"),
        ("--workers=1 --turns=7", "1 7 tsconfig.json"),
        (
            "--turns 4294967295 x.json y",
            "4 4294967295 x.json y/tsconfig.json",
        ),
        ("--gen 500", "4 4294967295 gen 500 gen/tsconfig.json"),
        ("-", "4 4294967295 -/tsconfig.json"),
        ("", "4 4294967295 tsconfig.json"),
        (
            "-- --force -x",
            "4 4294967295 --force/tsconfig.json -x/tsconfig.json",
        ),
        (
            "a --force ./b/../c -- d",
            "force 4 4294967295 a/tsconfig.json c/tsconfig.json d/tsconfig.json",
        ),
        ("--clean --force", "pair --clean --force"),
        ("--clean -w --verbose", "pair --clean --verbose"),
        ("-dw", "pair --dry --watch"),
        ("--gen 1 -w", "pair --gen --watch"),
        ("--gen 1 --clean", "pair --gen --clean"),
        ("--gen 1 -d", "pair --gen --dry"),
        ("--gen 1 ../x", "pair --gen root"),
        ("--workers 0", "number --workers"),
        ("--workers 65", "number --workers"),
        ("--workers 04", "number --workers"),
        ("--workers= --gen 0", "number --workers"),
        ("--workers -", "number --workers"),
        ("--turns 4294967296", "number --turns"),
        ("--turns +1 --gen 501", "number --turns"),
        ("--gen 501 --clean --force", "number --gen"),
        ("--workers 2 --workers 2", "unread"),
        ("--workers", "unread"),
        ("--workers -1", "unread"),
        ("--workers -- 1", "unread"),
        ("--nope", "unread"),
        ("--help", "unread"),
        ("-h", "unread"),
        ("-V", "unread"),
        ("--force=1", "unread"),
        ("-f=1", "unread"),
        ("../x", "root [../x]"),
        ("a b/", "root [b/]"),
        ("a\\b ..", "root [a\\b]"),
    ];
    for (line, want) in cases {
        let words = words_of(rt.alloc(), line)?;
        let answer = read_words(rt.alloc(), words.as_slice());
        let text = shown(rt.alloc(), &answer)?;
        assert_eq!(rt; text.as_str(), want, "of {line}");
    }
    Ok(())
}

#[test]
fn reads_no_words(rt: HostRuntime) -> Result<(), Fail> {
    let words = Vec::new(rt.alloc());
    let answer = read_words(rt.alloc(), words.as_slice());
    let text = shown(rt.alloc(), &answer)?;
    assert_eq!(rt; text.as_str(), "4 4294967295 tsconfig.json");
    Ok(())
}
