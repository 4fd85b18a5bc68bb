//! Words that are answered before anything is read: faulty ones, and those of what is not built yet.

use crate::workspaces::{disk, go, hello, is_untouched};
use std::alloc::Global;
use std::test::Fail;
use tb_text::{Status, UsageFault};

fn fault_text(alloc: Global, fault: &UsageFault) -> Result<String, Fail> {
    match fault {
        UsageFault::Unread => Ok(String::from_str(alloc, "unread")?),
        UsageFault::BadNumber(name) => Ok(format!(in alloc; "number {}", name.as_str())?),
        UsageFault::BadPair(first, second) => Ok(format!(in alloc;
            "pair {} {}",
            first.as_str(),
            second.as_str()
        )?),
        UsageFault::BadRoot(word) => Ok(format!(in alloc; "root {}", word.as_str())?),
    }
}

fn answer_text(alloc: Global, status: &Status) -> Result<String, Fail> {
    match status {
        Status::Usage(fault) => fault_text(alloc, fault),
        Status::NotBuilt => Ok(String::from_str(alloc, "not built")?),
        _ => Ok(String::from_str(alloc, "another status")?),
    }
}

// The words, and what they are answered.
fn answer(case: u8) -> (&'static str, &'static str) {
    match case {
        0 => ("--clean --force", "pair --clean --force"),
        1 => ("--workers 0", "number --workers"),
        2 => ("--workers 65", "number --workers"),
        3 => ("--workers 2 --workers 2", "unread"),
        4 => ("--nope", "unread"),
        5 => ("../x", "root ../x"),
        6 => ("--turns 0", "number --turns"),
        7 => ("--gen 501", "number --gen"),
        8 => ("--force --clean --nope", "unread"),
        9 => ("--dry --watch ../x", "pair --dry --watch"),
        10 => ("--gen 3 a", "pair --gen root"),
        11 => ("--force", "not built"),
        12 => ("-f", "not built"),
        13 => ("--clean", "not built"),
        14 => ("--dry", "not built"),
        15 => ("-d", "not built"),
        16 => ("--watch", "not built"),
        17 => ("-w", "not built"),
        18 => ("--gen 3", "not built"),
        19 => ("--build -fv nope", "not built"),
        20 => ("-w --workers=1 --turns=1", "not built"),
        21 => ("a --dry b", "not built"),
        _ => ("--gen=500 --force", "not built"),
    }
}

#[test]
fn some_words_are_answered_at_once(rt: HostRuntime) -> Result<(), Fail> {
    let alloc = rt.alloc();
    for case in 0..23u8 {
        let (words, wanted) = answer(case);
        // The first call of each object would fail.
        let disk = disk(alloc, Some(0))?;
        let run = go(alloc, words, hello(alloc)?, disk, Some(0), Some(0))?;
        let answer = answer_text(alloc, &run.status)?;
        assert_eq!(rt; answer.as_str(), wanted, "with the words {words}");
        let code = if case < 11 { 64 } else { 75 };
        assert_eq!(rt; run.status.code(), code, "with the words {words}");
        assert!(rt; is_untouched(&run), "with the words {words}");
    }
    Ok(())
}
