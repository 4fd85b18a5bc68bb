//! Runs over three projects in which one call fails, and what the next run makes of it.

use crate::workspaces::{Run, THREE, add, disk, fresh, go, holds, left_by, workspace};
use std::alloc::Global;
use std::test::Fail;
use tb_memory::MemDisk;
use tb_text::{Path, Status, Which};

const CORE_INFO: &str =
    r#"{"builder":"tb1","files":[{"edges":[],"findings":[],"path":"core/a-b.ts","reach":[],"signature":"8e609bb71c20b858c77f0e9f90bb1319db8477b13f9f965f1a1e18524bf50881","version":"e3b0c44298fc1c149afbf4c8996fb92427ae41e4649b934ca495991b7852b855"},{"edges":[],"findings":[],"path":"core/a.ts","reach":[],"signature":"52db5d1a3fa84d3692297673f6fede59e50d94b4ed2cab8398c7a65e1a45e6fa","version":"8fbccf1f29c58f5ceefc8a9a2d793cadf78d1f97e74c5e33b231b96a0cf74c66"}],"options":"ccc386869b5e7d27842c97e0c1e691eb69249bd81b791ea979937b003aa0a173","pending":[],"project":"core/tsconfig.json","root":"core"}"#;

const UTIL_INFO: &str =
    r#"{"builder":"tb1","files":[{"edges":[],"findings":[],"path":"util/u.ts","reach":[],"signature":"0cfca27c70eb1fff1f2502501540fc61b2bf4b64c2fd96874bfb47c462b668b9","version":"0cfca27c70eb1fff1f2502501540fc61b2bf4b64c2fd96874bfb47c462b668b9"}],"options":"cbd9bd1d2046c102a5cea01719c89b299d0fc175ece88e4c974d7883557ebfc9","pending":[],"project":"util/tsconfig.json","root":"util"}"#;

const APP_INFO: &str =
    r#"{"builder":"tb1","files":[{"edges":[],"findings":[],"path":"app/m.ts","reach":[],"signature":"6ecb82fcc8949ac1f2015a65857daafce094062e4440f8dd2c207b2344169ff3","version":"6914a427146e067c4893b797dfdf9a1ef1d0200f35e5d6832a786e8acdeefc54"}],"options":"ef989f9cd703764c4d02eed0afbec3751a25a0774f2bbf3df451d9824898b8f6","pending":[],"project":"app/tsconfig.json","root":"app"}"#;

// What is written, in this order: project after project, and in each by ascending stems, and then the info.
fn output(at: u64) -> (&'static str, &'static str) {
    match at {
        0 => ("core/dist/a.js", "export const a = 1;\n"),
        1 => ("core/dist/a.d.ts", "export declare const a: number;\n"),
        2 => ("core/dist/a-b.js", "export {};\n"),
        3 => ("core/dist/a-b.d.ts", "export {};\n"),
        4 => ("core/dist/tsconfig.tsbuildinfo", CORE_INFO),
        5 => ("util/dist/u.js", "export {};\n"),
        6 => ("util/dist/u.d.ts", "export type U = boolean;\n"),
        7 => ("util/dist/tsconfig.tsbuildinfo", UTIL_INFO),
        8 => ("app/dist/m.js", "export const s = \"s\";\n"),
        9 => ("app/dist/m.d.ts", "export declare const s: string;\n"),
        _ => ("app/dist/tsconfig.tsbuildinfo", APP_INFO),
    }
}

// The project that a call of the disk belongs to. The last call, a sync, belongs to the last project.
fn project_of(call: u64) -> &'static str {
    match call {
        0..=4 => "core/tsconfig.json",
        5..=7 => "util/tsconfig.json",
        _ => "app/tsconfig.json",
    }
}

// Whether a disk has the first outputs, so many of them, and nothing else.
fn has_just(alloc: Global, disk: &MemDisk, count: u64) -> Result<bool, Fail> {
    for at in 0..count {
        let (path, text) = output(at);
        if !holds(alloc, disk, path, text.as_bytes())? {
            return Ok(false);
        }
    }
    Ok(disk.paths(alloc)?.len() as u64 == count)
}

fn three(
    alloc: Global,
    disk: MemDisk,
    tree_call: Option<u64>,
    sink_call: Option<u64>,
) -> Result<Run, Fail> {
    let texts = workspace(alloc, THREE)?;
    go(alloc, "app", texts, disk, tree_call, sink_call)
}

fn is_unsettled(run: &Run) -> bool {
    run.settled.is_empty() && run.out.taken().is_empty() && run.status.code() == 74
}

// The next run on the disk of this one settles, and leaves what a run on an empty disk does.
fn is_mended(alloc: Global, run: Run) -> Result<bool, Fail> {
    let clean = fresh(alloc, "app", workspace(alloc, THREE)?)?;
    let next = three(alloc, run.disk, None, None)?;
    let is_built = next.status == Status::Clean && has_just(alloc, &next.disk, 11)?;
    Ok(is_built && left_by(alloc, &next)? == left_by(alloc, &clean)?)
}

#[test]
fn a_failing_call_of_the_disk_names_its_project(rt: HostRuntime) -> Result<(), Fail> {
    let alloc = rt.alloc();
    for call in 0..12u64 {
        let run = three(alloc, disk(alloc, Some(call))?, None, None)?;
        let named = Status::Outside {
            which: Which::Disk,
            project: Some(Path::read(alloc, project_of(call))?),
        };
        assert_eq!(rt; run.status, named, "at the call {call}");
        assert!(rt; is_unsettled(&run), "at the call {call}");
        assert_eq!(rt; run.disk.calls(), call + 1);
        let count = call.min(11);
        assert!(rt; has_just(alloc, &run.disk, count)?, "at the call {call}");
        assert!(rt; is_mended(alloc, run)?, "after the call {call}");
    }
    Ok(())
}

#[test]
fn a_failing_call_of_the_tree_is_named(rt: HostRuntime) -> Result<(), Fail> {
    let alloc = rt.alloc();
    // The listing, and the reading of seven files.
    for call in 0..8u64 {
        let run = three(alloc, disk(alloc, None)?, Some(call), None)?;
        let named = Status::Outside {
            which: Which::Tree,
            project: None,
        };
        assert_eq!(rt; run.status, named, "at the call {call}");
        assert!(rt; is_unsettled(&run), "at the call {call}");
        assert_eq!(rt; run.disk.calls(), 0);
        assert!(rt; is_mended(alloc, run)?, "after the call {call}");
    }
    Ok(())
}

fn sink_is_named(run: &Run) -> bool {
    let named = Status::Outside {
        which: Which::Sink,
        project: None,
    };
    run.status == named && is_unsettled(run)
}

#[test]
fn a_failing_sink_is_named(rt: HostRuntime) -> Result<(), Fail> {
    let alloc = rt.alloc();
    let run = three(alloc, disk(alloc, None)?, None, Some(0))?;
    assert!(rt; sink_is_named(&run));
    assert!(rt; has_just(alloc, &run.disk, 11)?);
    assert!(rt; is_mended(alloc, run)?);
    // Also where the plan has a fault.
    let run = go(
        alloc,
        "gone",
        workspace(alloc, THREE)?,
        disk(alloc, None)?,
        None,
        Some(0),
    )?;
    assert!(rt; sink_is_named(&run));
    assert!(rt; is_mended(alloc, run)?);
    Ok(())
}

// A file that is other than at the build before, and the status of the build that follows.
fn later_change(case: u8) -> (&'static str, &'static [u8], u8) {
    match case {
        0 => ("core/a.ts", b"export const a: number = 2;\n", 0),
        1 => ("app/tsconfig.json", b"{}", 1),
        2 => ("app/tsconfig.json", b"{", 3),
        _ => ("app/m.ts", b"export {};\n", 75),
    }
}

#[test]
fn what_was_built_stays_or_is_built_anew(rt: HostRuntime) -> Result<(), Fail> {
    let alloc = rt.alloc();
    for case in 0..4u8 {
        let first = three(alloc, disk(alloc, None)?, None, None)?;
        assert!(rt; has_just(alloc, &first.disk, 11)?);
        let (path, text, status) = later_change(case);
        let mut texts = workspace(alloc, THREE)?;
        add(alloc, &mut texts, path, text)?;
        let next = go(alloc, "app", texts, first.disk, None, None)?;
        assert_eq!(rt; next.status.code(), status);
        let is_new = holds(
            alloc,
            &next.disk,
            "core/dist/a.js",
            b"export const a = 2;\n",
        )?;
        assert_eq!(rt; is_new, status == 0, "in case {case}");
        assert_eq!(rt;
            has_just(alloc, &next.disk, 11)?,
            status != 0,
            "in case {case}"
        );
        assert_eq!(rt; next.disk.paths(alloc)?.len(), 11);
    }
    Ok(())
}
