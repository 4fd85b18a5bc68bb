//! Runs over texts of which some have no reading.

use crate::workspaces::{Run, THREE, add, disk, fresh, go, holds, left_by, workspace};
use std::alloc::Global;
use std::test::Fail;
use tb_memory::MemDisk;
use tb_text::{Path, Status, Texts, Which};

// The first file has a good item and then a bad one, the third an unfinished one.
const MIXED: &str = r#"@tsconfig.json
{"compilerOptions":{"composite":true,"outDir":"dist"}}
@a.ts
export const a: number = 1;
export const = 2;
@b.ts
export const a: number = 1;
@c.ts
export const a: string = "x"#;

const MIXED_LEAVES: &str = r#"status 2, checked 3, built 1, settled 0
a.ts(2,1): error TB1001: This item has no reading.
c.ts(1,1): error TB1001: This item has no reading.
generation 0: 2 errors in 1 projects
@dist/b.d.ts
export declare const a: number;
@dist/b.js
export const a = 1;
@dist/tsconfig.tsbuildinfo
{"builder":"tb1","files":[{"edges":[],"findings":[[28,"TB1001","",""]],"path":"a.ts","reach":[],"signature":null,"version":"697d072bb2bc53d4aeacb67c0f38c6c9eb06e6fbc52c27b429b5626a1bd7d01f"},{"edges":[],"findings":[],"path":"b.ts","reach":[],"signature":"52db5d1a3fa84d3692297673f6fede59e50d94b4ed2cab8398c7a65e1a45e6fa","version":"8fbccf1f29c58f5ceefc8a9a2d793cadf78d1f97e74c5e33b231b96a0cf74c66"},{"edges":[],"findings":[[0,"TB1001","",""]],"path":"c.ts","reach":[],"signature":null,"version":"763c32226f913fefe1bb5c8e9d1d0a4970d17b6d7fb72e68241aa78d80fa81f6"}],"options":"da63203dc008c1b6c8cf9d5721928538f32bf662e66073ab65130a6732d4e545","pending":[],"project":"tsconfig.json","root":""}"#;

// Two files of the first project and one of the third have no reading.
const SPREAD: &str = r#"@tsconfig.json
{"files":[],"references":[{"path":"p"},{"path":"q"},{"path":"r"}]}
@p/tsconfig.json
{"compilerOptions":{"composite":true,"outDir":"dist"}}
@p/a.ts
const;
@p/b.ts

  let;
@q/tsconfig.json
{"compilerOptions":{"composite":true,"outDir":"dist"}}
@q/a.ts
@r/tsconfig.json
{"compilerOptions":{"composite":true,"outDir":"dist"}}
@r/a.ts
}
"#;

const SPREAD_PRINTS: &str = "p/a.ts(1,1): error TB1001: This item has no reading.
p/b.ts(2,3): error TB1001: This item has no reading.
r/a.ts(1,1): error TB1001: This item has no reading.
project p/tsconfig.json: 2 files, 2 errors
project q/tsconfig.json: 1 files, 0 errors
project r/tsconfig.json: 1 files, 1 errors
project tsconfig.json: 0 files, 0 errors
generation 0: 3 errors in 4 projects
";

// The second item of the declaration file would be one of a source.
const DECLARED: &str = r#"@tsconfig.json
{"compilerOptions":{"composite":true,"outDir":"dist"}}
@a.ts
export const a: number = 1;
@b.d.ts
export declare const b: number;
export const b: number = 1;
@c.ts
"#;

const DECLARED_LEAVES: &str = r#"status 2, checked 3, built 1, settled 0
b.d.ts(2,1): error TB1001: This item has no reading.
generation 0: 1 errors in 1 projects
@dist/a.d.ts
export declare const a: number;
@dist/a.js
export const a = 1;
@dist/c.d.ts
export {};
@dist/c.js
export {};
@dist/tsconfig.tsbuildinfo
{"builder":"tb1","files":[{"edges":[],"findings":[],"path":"a.ts","reach":[],"signature":"52db5d1a3fa84d3692297673f6fede59e50d94b4ed2cab8398c7a65e1a45e6fa","version":"8fbccf1f29c58f5ceefc8a9a2d793cadf78d1f97e74c5e33b231b96a0cf74c66"},{"edges":[],"findings":[[32,"TB1001","",""]],"path":"b.d.ts","reach":[],"signature":null,"version":"726a431459fba453fc79daf8e0017319f92c5f7d9de5b50de1d90538e94c46b3"},{"edges":[],"findings":[],"path":"c.ts","reach":[],"signature":"8e609bb71c20b858c77f0e9f90bb1319db8477b13f9f965f1a1e18524bf50881","version":"e3b0c44298fc1c149afbf4c8996fb92427ae41e4649b934ca495991b7852b855"}],"options":"da63203dc008c1b6c8cf9d5721928538f32bf662e66073ab65130a6732d4e545","pending":[],"project":"tsconfig.json","root":""}"#;

// The one input is a declaration file, in which an empty statement stands.
const LONE: &str = r#"@tsconfig.json
{"compilerOptions":{"composite":true,"outDir":"dist"}}
@m.d.ts
interface I { };
"#;

const LONE_LEAVES: &str = r#"status 2, checked 1, built 1, settled 0
m.d.ts(1,16): error TB1001: This item has no reading.
generation 0: 1 errors in 1 projects
@dist/tsconfig.tsbuildinfo
{"builder":"tb1","files":[{"edges":[],"findings":[[15,"TB1001","",""]],"path":"m.d.ts","reach":[],"signature":null,"version":"57e30c4912853ac90195cf35d1637bd1f7ec75c8759ff9b8ab4065db40381752"}],"options":"da63203dc008c1b6c8cf9d5721928538f32bf662e66073ab65130a6732d4e545","pending":[],"project":"tsconfig.json","root":""}"#;

#[test]
fn a_declaration_file_without_a_reading_has_its_finding(rt: HostRuntime) -> Result<(), Fail> {
    let alloc = rt.alloc();
    let run = fresh(alloc, "", workspace(alloc, DECLARED)?)?;
    assert_eq!(rt; left_by(alloc, &run)?.as_str(), DECLARED_LEAVES);
    let run = fresh(alloc, "", workspace(alloc, LONE)?)?;
    assert_eq!(rt; left_by(alloc, &run)?.as_str(), LONE_LEAVES);
    Ok(())
}

#[test]
fn a_file_without_a_reading_has_its_finding_and_no_outputs(rt: HostRuntime) -> Result<(), Fail> {
    let alloc = rt.alloc();
    let run = fresh(alloc, "", workspace(alloc, MIXED)?)?;
    assert_eq!(rt; left_by(alloc, &run)?.as_str(), MIXED_LEAVES);
    Ok(())
}

#[test]
fn findings_are_counted_at_their_projects(rt: HostRuntime) -> Result<(), Fail> {
    let alloc = rt.alloc();
    let run = fresh(alloc, "--verbose", workspace(alloc, SPREAD)?)?;
    assert_eq!(rt; run.status, Status::Generated);
    assert!(rt; run.out.taken() == SPREAD_PRINTS.as_bytes());
    Ok(())
}

// A constant whose value stands in so many parentheses.
fn nested(alloc: Global, depth: usize) -> Result<String, Fail> {
    let opening = "(".repeat(alloc, depth)?;
    let closing = ")".repeat(alloc, depth)?;
    Ok(format!(in alloc; "export const a: number = {opening}1{closing};\n")?)
}

// What is printed where the first of three files has this text, and the others are plain; and the status.
fn prints(alloc: Global, text: &[u8]) -> Result<(String, u8), Fail> {
    let mut texts = workspace(alloc, MIXED)?;
    add(alloc, &mut texts, "a.ts", text)?;
    add(alloc, &mut texts, "c.ts", b"")?;
    let run = fresh(alloc, "", texts)?;
    let printed = String::from_str(alloc, std::str::from_utf8(run.out.taken())?)?;
    Ok((printed, run.status.code()))
}

const DEEP_PRINTS: &str = "a.ts(1,1): error TB1001: This item has no reading.
generation 0: 1 errors in 1 projects
";

const ODD_PRINTS: &str = "a.ts(1,1): error TB1002: The file is not UTF-8.
generation 0: 1 errors in 1 projects
";

#[test]
fn the_greatest_depth_is_read_and_no_greater_one(rt: HostRuntime) -> Result<(), Fail> {
    let alloc = rt.alloc();
    // It reads, and is not plain.
    let (printed, status) = prints(alloc, nested(alloc, 199)?.as_bytes())?;
    assert_eq!(rt; printed.as_str(), "");
    assert_eq!(rt; status, 75);
    let (printed, status) = prints(alloc, nested(alloc, 200)?.as_bytes())?;
    assert_eq!(rt; printed.as_str(), DEEP_PRINTS);
    assert_eq!(rt; status, 2);
    Ok(())
}

// What is printed where one of two files is a declaration file with this text; and the status.
fn prints_declared(alloc: Global, text: &[u8]) -> Result<(String, u8), Fail> {
    let mut texts = workspace(alloc, LONE)?;
    add(alloc, &mut texts, "m.d.ts", text)?;
    add(alloc, &mut texts, "n.ts", b"")?;
    let run = fresh(alloc, "", texts)?;
    let printed = String::from_str(alloc, std::str::from_utf8(run.out.taken())?)?;
    Ok((printed, run.status.code()))
}

const ODD_DECLARED_PRINTS: &str = "m.d.ts(1,1): error TB1002: The file is not UTF-8.
generation 0: 1 errors in 1 projects
";

// Texts of declaration files: the first three read, and the others would do so as sources.
fn declared(case: u8) -> &'static [u8] {
    match case {
        0 => b"",
        1 => b"export declare const a: 1;",
        2 => b"export {};",
        3 => b"export const a: 1 = 1;",
        4 => b";",
        _ => b"function f() {}",
    }
}

#[test]
fn declaration_files_have_a_grammar_of_their_own(rt: HostRuntime) -> Result<(), Fail> {
    let alloc = rt.alloc();
    for case in 0..6u8 {
        let (_, status) = prints_declared(alloc, declared(case))?;
        let wanted = if case < 3 { 75 } else { 2 };
        assert_eq!(rt; status, wanted, "in case {case}");
    }
    let (printed, status) = prints_declared(alloc, b"\xFF")?;
    assert_eq!(rt; printed.as_str(), ODD_DECLARED_PRINTS);
    assert_eq!(rt; status, 2);
    Ok(())
}

#[test]
fn a_file_that_is_not_utf8_has_a_finding_of_its_own(rt: HostRuntime) -> Result<(), Fail> {
    let alloc = rt.alloc();
    let (printed, status) = prints(alloc, b"\xFF")?;
    assert_eq!(rt; printed.as_str(), ODD_PRINTS);
    assert_eq!(rt; status, 2);
    Ok(())
}

// Texts of the file in the first of three projects, which have no reading.
fn faulty(case: u8) -> &'static [u8] {
    match case {
        0 => b"export const = 2;\n",
        1 => b"export const a: number = 01;\n",
        2 => b"export const a: number = 1",
        3 => b"export const let: number = 1;\n",
        4 => b"\xFF",
        _ => b"not plain",
    }
}

fn faulty_texts(alloc: Global, case: u8) -> Result<Texts, Fail> {
    let mut texts = workspace(alloc, THREE)?;
    add(alloc, &mut texts, "core/a.ts", faulty(case))?;
    Ok(texts)
}

fn three(
    alloc: Global,
    case: u8,
    disk: MemDisk,
    tree_call: Option<u64>,
    sink_call: Option<u64>,
) -> Result<Run, Fail> {
    go(
        alloc,
        "app",
        faulty_texts(alloc, case)?,
        disk,
        tree_call,
        sink_call,
    )
}

#[test]
fn the_other_files_are_built(rt: HostRuntime) -> Result<(), Fail> {
    let alloc = rt.alloc();
    for case in 0..6u8 {
        let run = three(alloc, case, disk(alloc, None)?, None, None)?;
        assert_eq!(rt; run.status, Status::Generated, "in case {case}");
        assert_eq!(rt; run.disk.paths(alloc)?.len(), 9, "in case {case}");
        let none = run
            .disk
            .text(&Path::read(alloc, "core/dist/a.js")?)
            .is_none();
        assert!(rt; none, "in case {case}");
    }
    Ok(())
}

#[test]
fn what_stood_at_its_output_paths_stays(rt: HostRuntime) -> Result<(), Fail> {
    let alloc = rt.alloc();
    let first = fresh(alloc, "app", workspace(alloc, THREE)?)?;
    let next = three(alloc, 0, first.disk, None, None)?;
    assert_eq!(rt; next.status, Status::Generated);
    assert_eq!(rt; next.disk.paths(alloc)?.len(), 11);
    let js = holds(
        alloc,
        &next.disk,
        "core/dist/a.js",
        b"export const a = 1;\n",
    )?;
    let declaration = holds(
        alloc,
        &next.disk,
        "core/dist/a.d.ts",
        b"export declare const a: number;\n",
    )?;
    assert!(rt; js && declaration);
    Ok(())
}

// The project that a call of the disk belongs to. The last call, a sync, belongs to the last project.
fn project_of(call: u64) -> &'static str {
    match call {
        0..=2 => "core/tsconfig.json",
        3..=5 => "util/tsconfig.json",
        _ => "app/tsconfig.json",
    }
}

fn is_unsettled(run: &Run) -> bool {
    run.settled.is_empty() && run.out.taken().is_empty() && run.status.code() == 74
}

// The next run on the disk of this one settles, and leaves what a run on an empty disk does.
fn is_mended(alloc: Global, run: Run) -> Result<bool, Fail> {
    let clean = three(alloc, 0, disk(alloc, None)?, None, None)?;
    let next = three(alloc, 0, run.disk, None, None)?;
    Ok(next.status == Status::Generated && left_by(alloc, &next)? == left_by(alloc, &clean)?)
}

#[test]
fn each_failing_call_is_named_beside_a_finding(rt: HostRuntime) -> Result<(), Fail> {
    let alloc = rt.alloc();
    for call in 0..10u64 {
        let run = three(alloc, 0, disk(alloc, Some(call))?, None, None)?;
        let named = Status::Outside {
            which: Which::Disk,
            project: Some(Path::read(alloc, project_of(call))?),
        };
        assert_eq!(rt; run.status, named, "at the call {call}");
        assert!(rt; is_unsettled(&run), "at the call {call}");
        assert!(rt; is_mended(alloc, run)?, "after the call {call}");
    }
    for call in 0..8u64 {
        let run = three(alloc, 0, disk(alloc, None)?, Some(call), None)?;
        let named = Status::Outside {
            which: Which::Tree,
            project: None,
        };
        assert_eq!(rt; run.status, named, "at the call {call}");
        assert!(rt; is_unsettled(&run), "at the call {call}");
        assert!(rt; is_mended(alloc, run)?, "after the call {call}");
    }
    let run = three(alloc, 0, disk(alloc, None)?, None, Some(0))?;
    let named = Status::Outside {
        which: Which::Sink,
        project: None,
    };
    assert_eq!(rt; run.status, named);
    assert!(rt; is_unsettled(&run));
    assert!(rt; is_mended(alloc, run)?);
    Ok(())
}
