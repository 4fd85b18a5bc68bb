//! Plans at a limit and beyond it.

use crate::workspaces::{CONFIG, SOURCE, add, fresh, hello, left_by};
use std::alloc::Global;
use std::test::Fail;
use tb_text::Texts;

// The smallest project, whose file has so many bytes.
fn large_input(alloc: Global, bytes: usize) -> Result<Texts, Fail> {
    let mut texts = hello(alloc)?;
    let blanks = " ".repeat(alloc, bytes)?;
    add(alloc, &mut texts, "a.ts", blanks.as_bytes())?;
    Ok(texts)
}

// The smallest project, beside a file whose name has so many bytes before its `.ts`.
fn long_path(alloc: Global, bytes: usize) -> Result<Texts, Fail> {
    let mut texts = hello(alloc)?;
    let path = format!(in alloc; "{}.ts", "b".repeat(alloc, bytes)?)?;
    add(alloc, &mut texts, path.as_str(), SOURCE)?;
    Ok(texts)
}

// The smallest project, whose output folder has a name of so many bytes.
fn long_folder(alloc: Global, bytes: usize) -> Result<Texts, Fail> {
    let mut texts = hello(alloc)?;
    let folder = "d".repeat(alloc, bytes)?;
    let config = format!(in alloc; "{{\"compilerOptions\":{{\"outDir\":\"{folder}\"}}}}")?;
    add(alloc, &mut texts, "tsconfig.json", config.as_bytes())?;
    Ok(texts)
}

// The smallest project, whose config extends so many others, each of which extends the next.
fn bases(alloc: Global, count: u32) -> Result<Texts, Fail> {
    let mut texts = hello(alloc)?;
    let first = b"{\"extends\":\"./base1\"}";
    add(alloc, &mut texts, "tsconfig.json", first)?;
    for number in 1..count {
        let path = format!(in alloc; "base{number}.json")?;
        let config = format!(in alloc; "{{\"extends\":\"./base{}\"}}", number + 1)?;
        add(alloc, &mut texts, path.as_str(), config.as_bytes())?;
    }
    let path = format!(in alloc; "base{count}.json")?;
    add(alloc, &mut texts, path.as_str(), CONFIG)?;
    Ok(texts)
}

// A plan beyond a limit, and the fault that it has.
fn beyond(alloc: Global, case: u8) -> Result<(Texts, String), Fail> {
    match case {
        0 => {
            let fault = String::from_str(alloc, "TB5012: Config fault 5012: 'bytes'.")?;
            Ok((large_input(alloc, 4_194_305)?, fault))
        }
        1 => {
            let fault = String::from_str(alloc, "TB5012: Config fault 5012: 'extends'.")?;
            Ok((bases(alloc, 33)?, fault))
        }
        // The path under which its info is written first has 1,025 bytes.
        2 => {
            let folder = "d".repeat(alloc, 1000)?;
            let fault = format!(in alloc;
                "TB5014: Config fault 5014: '{folder}/tsconfig.tsbuildinfo.new'."
            )?;
            Ok((long_folder(alloc, 1000)?, fault))
        }
        // The path of its declarations has 1,025 bytes.
        _ => {
            let stem = "b".repeat(alloc, 1015)?;
            let fault = format!(in alloc; "TB5014: Config fault 5014: 'dist/{stem}.d.ts'.")?;
            Ok((long_path(alloc, 1015)?, fault))
        }
    }
}

#[test]
fn what_passes_a_limit_is_a_fault(rt: HostRuntime) -> Result<(), Fail> {
    let alloc = rt.alloc();
    for case in 0..4u8 {
        let (texts, fault) = beyond(alloc, case)?;
        let run = fresh(alloc, "", texts)?;
        let wanted = format!(in alloc;
            "status 1, checked 0, built 0, settled 0\ntsconfig.json(1,1): error {fault}\ngeneration 0: 1 errors in 0 projects\n"
        )?;
        let left = left_by(alloc, &run)?;
        assert_eq!(rt; left.as_str(), wanted.as_str(), "in case {case}");
    }
    Ok(())
}

// A plan at a limit, and how many files its build writes.
fn within(alloc: Global, case: u8) -> Result<(Texts, usize), Fail> {
    match case {
        0 => Ok((bases(alloc, 32)?, 3)),
        1 => Ok((long_folder(alloc, 999)?, 3)),
        _ => Ok((long_path(alloc, 1014)?, 5)),
    }
}

#[test]
fn a_plan_at_a_limit_is_built(rt: HostRuntime) -> Result<(), Fail> {
    let alloc = rt.alloc();
    for case in 0..3u8 {
        let (texts, count) = within(alloc, case)?;
        let run = fresh(alloc, "", texts)?;
        assert_eq!(rt; run.status.code(), 0, "in case {case}");
        assert_eq!(rt; run.disk.paths(alloc)?.len(), count, "in case {case}");
    }
    Ok(())
}
