//! Plans of many projects, in which each references the one before, or all reference one.

use crate::workspaces::{Run, add, fresh, holds};
use std::alloc::Global;
use std::test::Fail;
use tb_text::{Path, Texts};

/// The info of the project of this number, which stands in the midst.
const INFO_OF_14: &[u8] =
    b"{\"builder\":\"tb1\",\"files\":[{\"edges\":[],\"findings\":[],\"path\":\"p14/a.ts\",\"reach\":[],\"signature\":\"52db5d1a3fa84d3692297673f6fede59e50d94b4ed2cab8398c7a65e1a45e6fa\",\"version\":\"ca9f70c1ef16902a1b3ed00fd35a24ffb730317df76ea33c9d7f2c949cf3453d\"}],\"options\":\"c26b72f16fd6fde09e6f1718ac02a75bfb33cd5a6793532010dc886d5cab9e77\",\"pending\":[],\"project\":\"p14/tsconfig.json\",\"root\":\"p14\"}";

// Adds a project of one file, with these references.
fn add_project(
    alloc: Global,
    texts: &mut Texts,
    number: u32,
    references: &str,
) -> Result<(), Fail> {
    let config = format!(in alloc;
        "{{\"compilerOptions\":{{\"composite\":true,\"outDir\":\"dist\"}},\"references\":[{references}]}}"
    )?;
    let path = format!(in alloc; "p{number}/tsconfig.json")?;
    add(alloc, texts, path.as_str(), config.as_bytes())?;
    let source = format!(in alloc; "export const a: number = {number};\n")?;
    let path = format!(in alloc; "p{number}/a.ts")?;
    add(alloc, texts, path.as_str(), source.as_bytes())
}

// Thirty projects, each of which references the one before.
fn chain(alloc: Global) -> Result<Texts, Fail> {
    let mut texts = Texts::new(alloc);
    add_project(alloc, &mut texts, 0, "")?;
    for number in 1..30u32 {
        let reference = format!(in alloc; "{{\"path\":\"../p{}\"}}", number - 1)?;
        add_project(alloc, &mut texts, number, reference.as_str())?;
    }
    Ok(texts)
}

// Thirty projects, all of which reference the first, and a solution of the others, the last one first.
fn star(alloc: Global) -> Result<Texts, Fail> {
    let mut texts = Texts::new(alloc);
    add_project(alloc, &mut texts, 0, "")?;
    let mut references = String::new(alloc);
    for back in 1..30u32 {
        let number = 30 - back;
        add_project(alloc, &mut texts, number, "{\"path\":\"../p0\"}")?;
        if !references.is_empty() {
            references.push_str(",")?;
        }
        references.push_str(format!(in alloc; "{{\"path\":\"p{number}\"}}")?.as_str())?;
    }
    let config = format!(in alloc; "{{\"files\":[],\"references\":[{references}]}}")?;
    add(alloc, &mut texts, "tsconfig.json", config.as_bytes())?;
    Ok(texts)
}

fn add_line(alloc: Global, report: &mut String, number: u32) -> Result<(), Fail> {
    let line = format!(in alloc; "project p{number}/tsconfig.json: 1 files, 0 errors\n")?;
    report.push_str(line.as_str())?;
    Ok(())
}

fn chain_report(alloc: Global) -> Result<String, Fail> {
    let mut report = String::new(alloc);
    for number in 0..30u32 {
        add_line(alloc, &mut report, number)?;
    }
    report.push_str("generation 0: 0 errors in 30 projects\n")?;
    Ok(report)
}

fn star_report(alloc: Global) -> Result<String, Fail> {
    let mut report = String::new(alloc);
    add_line(alloc, &mut report, 0)?;
    for back in 1..30u32 {
        add_line(alloc, &mut report, 30 - back)?;
    }
    report.push_str("project tsconfig.json: 0 files, 0 errors\n")?;
    report.push_str("generation 0: 0 errors in 31 projects\n")?;
    Ok(report)
}

// The run left both outputs of a project, and an info.
fn is_built(alloc: Global, run: &Run, number: u32) -> Result<bool, Fail> {
    let script = format!(in alloc; "export const a = {number};\n")?;
    let path = format!(in alloc; "p{number}/dist/a.js")?;
    let js = holds(alloc, &run.disk, path.as_str(), script.as_bytes())?;
    let path = format!(in alloc; "p{number}/dist/a.d.ts")?;
    let declaration = b"export declare const a: number;\n";
    let dts = holds(alloc, &run.disk, path.as_str(), declaration)?;
    let path = format!(in alloc; "p{number}/dist/tsconfig.tsbuildinfo")?;
    let info = run.disk.text(&Path::read(alloc, path.as_str())?).is_some();
    Ok(js && dts && info)
}

// The run left the outputs and infos of thirty projects, and nothing else.
fn are_all_built(alloc: Global, run: &Run) -> Result<bool, Fail> {
    for number in 0..30u32 {
        if !is_built(alloc, run, number)? {
            return Ok(false);
        }
    }
    let info = holds(
        alloc,
        &run.disk,
        "p14/dist/tsconfig.tsbuildinfo",
        INFO_OF_14,
    )?;
    Ok(info && run.disk.paths(alloc)?.len() == 90)
}

#[test]
fn many_projects_are_built(rt: HostRuntime) -> Result<(), Fail> {
    let alloc = rt.alloc();
    for has_solution in [false, true] {
        let run = if has_solution {
            fresh(alloc, "--verbose", star(alloc)?)?
        } else {
            fresh(alloc, "--verbose p29", chain(alloc)?)?
        };
        let report = if has_solution {
            star_report(alloc)?
        } else {
            chain_report(alloc)?
        };
        assert!(rt; run.out.taken() == report.as_bytes());
        assert_eq!(rt; run.status.code(), 0);
        assert_eq!(rt; run.settled.as_slice(), [0].as_slice());
        assert_eq!(rt; (run.checked, run.built), (30, 30));
        assert!(rt;
            are_all_built(alloc, &run)?,
            "with a solution: {has_solution}"
        );
    }
    Ok(())
}
