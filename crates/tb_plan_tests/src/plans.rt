//! Tests of `tb_plan`.

use crate::shared::add;
use std::alloc::Global;
use std::test::Fail;
use tb_plan::{Plan, PlanFault, Project, make_plan};
use tb_text::{Diag, List, Path, Status, Text, Texts};

/// The roots; the files, each a path and its text, where it has one; and what they give.
type Row = (&'static str, &'static str, &'static str);

/// What stands for `C`: a config with an output folder.
const PLAIN: &str = "{\"compilerOptions\":{\"composite\":true,\"outDir\":\"dist\"}}";

/// Each project's config, what is upstream of it, and its inputs.
const PLANS: [Row; 5] = [
    (
        "tsconfig.json",
        "tsconfig.json {\"files\":[],\"references\":[{\"path\":\"p\"},{\"path\":\"q\"}]}\np/tsconfig.json C\np/a.ts\nq/tsconfig.json C\nq/a.ts",
        "p/tsconfig.json [] p/a.ts; q/tsconfig.json [] q/a.ts; tsconfig.json [ 0 1]",
    ),
    (
        "app/tsconfig.json other/tsconfig.json",
        "app/tsconfig.json {\"compilerOptions\":{\"outDir\":\"dist\"},\"references\":[{\"path\":\"../util\"}]}\napp/m.ts\nutil/tsconfig.json {\"compilerOptions\":{\"composite\":true,\"outDir\":\"dist\"},\"references\":[{\"path\":\"../core\"}]}\nutil/u.ts\ncore/tsconfig.json C\ncore/c.ts\nother/tsconfig.json C\nother/o.ts",
        "core/tsconfig.json [] core/c.ts; util/tsconfig.json [ 0] util/u.ts; app/tsconfig.json [ 0 1] app/m.ts; other/tsconfig.json [] other/o.ts",
    ),
    (
        "a/tsconfig.json a/tsconfig.json",
        "a/tsconfig.json {\"compilerOptions\":{\"outDir\":\"dist\"},\"references\":[{\"path\":\"../c\"},{\"path\":\"../b\"}]}\na/a.ts\nb/tsconfig.json {\"compilerOptions\":{\"composite\":true,\"outDir\":\"dist\"},\"references\":[{\"path\":\"../c\"}]}\nb/b.ts\nc/tsconfig.json C\nc/c.ts",
        "c/tsconfig.json [] c/c.ts; b/tsconfig.json [ 0] b/b.ts; a/tsconfig.json [ 0 1] a/a.ts",
    ),
    (
        "p/tsconfig.json out.json",
        "p/tsconfig.json {\"compilerOptions\":{\"outDir\":\"../d\",\"rootDir\":\"..\"},\"files\":[\"../named.ts\"],\"include\":[\".\"]}\nout.json {\"compilerOptions\":{\"outDir\":\"p/o\"},\"files\":[\"one.ts\"]}\nnamed.ts\none.ts\np/a.d.ts\np/b.d.ts\np/b.ts\np/o/c.ts",
        "p/tsconfig.json [] named.ts p/a.d.ts p/b.ts; out.json [] one.ts",
    ),
    (
        "p/tsconfig.json",
        "p/tsconfig.json {\"compilerOptions\":{\"outDir\":\"d\",\"rootDir\":\"..\"},\"include\":[\"src\",\"src/*\",\"src/a.ts\",\"../q/*.ts\",\"**/m.ts\"]}\np/src.ts\np/src/a.ts\np/src/x/b.ts\np/src-x/c.ts\np/src0/c.ts\np/y/m.ts\nq.ts\nq/k.ts\nq/x/k.ts",
        "p/tsconfig.json [] p/src/a.ts p/src/x/b.ts p/y/m.ts q/k.ts",
    ),
];

/// Plans with faults: the status, and each fault's config, code and argument, in order.
const FAULTS: [Row; 13] = [
    (
        "nope/tsconfig.json",
        "a.ts",
        "invalid project: nope/tsconfig.json TB5002 ",
    ),
    (
        "a/tsconfig.json",
        "a/tsconfig.json {\"compilerOptions\":{\"composite\":true,\"outDir\":\"dist\"},\"references\":[{\"path\":\"../b\"}]}\na/a.ts\nb/tsconfig.json {\"compilerOptions\":{\"composite\":true,\"outDir\":\"dist\"},\"references\":[{\"path\":\"../c\"}]}\nb/b.ts\nc/tsconfig.json {\"compilerOptions\":{\"composite\":true,\"outDir\":\"dist\"},\"references\":[{\"path\":\"../a\"}]}\nc/c.ts",
        "cycle: a/tsconfig.json TS6202 a/tsconfig.json, b/tsconfig.json, c/tsconfig.json",
    ),
    (
        "app/tsconfig.json",
        "app/tsconfig.json {\"compilerOptions\":{\"outDir\":\"dist\"},\"references\":[{\"path\":\"../lib\"}]}\napp/a.ts\nlib/tsconfig.json {\"compilerOptions\":{\"outDir\":\"dist\"}}\nlib/b.ts",
        "skipped: app/tsconfig.json TS6306 lib/tsconfig.json",
    ),
    (
        "a/tsconfig.json b/tsconfig.json",
        "a/tsconfig.json {\"compilerOptions\":{\"outDir\":\"../d/e\"}}\na/a.ts\nb/tsconfig.json {\"compilerOptions\":{\"outDir\":\"../d\"}}\nb/b.ts",
        "skipped: b/tsconfig.json TB5008 a/tsconfig.json",
    ),
    (
        "p/tsconfig.json",
        "p/tsconfig.json {\"compilerOptions\":{\"outDir\":\".\"},\"files\":[\"a.ts\"]}\np/a.ts",
        "skipped: p/tsconfig.json TB5009 p/a.ts; p/tsconfig.json TB5009 p/tsconfig.json",
    ),
    (
        "p/tsconfig.json",
        "p/tsconfig.json {\"compilerOptions\":{\"outDir\":\"d\"},\"files\":[\"c.ts\",\"b.js\",\"a.ts\"]}\np/a.ts\np/b.js",
        "skipped: p/tsconfig.json TB5010 p/b.js; p/tsconfig.json TB5010 p/c.ts",
    ),
    (
        "p/tsconfig.json",
        "p/tsconfig.json {\"compilerOptions\":{\"outDir\":\"d\",\"rootDir\":\"src\"},\"files\":[\"a.ts\"]}\np/a.ts",
        "skipped: p/tsconfig.json TB5011 p/a.ts",
    ),
    (
        "p/tsconfig.json",
        "p/tsconfig.json C\np/dist/a.ts",
        "skipped: p/tsconfig.json TB5013 files",
    ),
    (
        "p/tsconfig.json",
        "p/tsconfig.json {\"compilerOptions\":{\"outDir\":\"d\"},\"files\":[\"a/.ts\"]}\np/a/.ts",
        "skipped: p/tsconfig.json TB5014 a/",
    ),
    (
        "b/tsconfig.json a/tsconfig.json",
        "a/tsconfig.json {\"compilerOptions\":{\"outDir\":\"d\",\"rootDir\":\"..\"},\"files\":[\"../s.ts\"]}\nb/tsconfig.json {\"compilerOptions\":{\"outDir\":\"d\",\"rootDir\":\"..\"},\"files\":[\"../s.ts\"]}\ns.ts",
        "skipped: a/tsconfig.json TB5015 s.ts",
    ),
    (
        "a/tsconfig.json b/tsconfig.json",
        "a/tsconfig.json {\"compilerOptions\":{\"outDir\":\"d\"},\"references\":[{\"path\":\"../b\"},{\"path\":\"../gone\"}]}\nb/tsconfig.json {\"compilerOptions\":{\"outDir\":\"d\"},\"references\":[{\"path\":\"../b\"}]}\nc.ts",
        "cycle: a/tsconfig.json TS6306 b/tsconfig.json; b/tsconfig.json TS6202 b/tsconfig.json; b/tsconfig.json TS6306 b/tsconfig.json; gone/tsconfig.json TB5002 ",
    ),
    (
        "a/tsconfig.json",
        "a/tsconfig.json {\"compilerOptions\":{\"outDir\":\"d\"},\"references\":[{\"path\":\"../gone\"}]}",
        "skipped: gone/tsconfig.json TB5002 ",
    ),
    (
        "b/tsconfig.json a/tsconfig.json",
        "a/tsconfig.json {\"compilerOptions\":{\"outDir\":\"../d\"},\"files\":[\"no.ts\",\"../s.ts\"]}\nb/tsconfig.json {\"compilerOptions\":{\"outDir\":\"../d\"},\"files\":[\"../d/b.ts\"]}\nd/b.ts\ns.ts",
        "skipped: a/tsconfig.json TB5008 b/tsconfig.json; a/tsconfig.json TB5009 d/b.ts; a/tsconfig.json TB5010 a/no.ts; a/tsconfig.json TB5011 s.ts; b/tsconfig.json TB5009 d/b.ts; b/tsconfig.json TB5011 d/b.ts",
    ),
];

fn add_file(alloc: Global, line: &str, tree: &mut Texts) -> Result<(), Fail> {
    let (path, text) = match line.split_once(' ') {
        Some((path, "C")) => (path, PLAIN),
        Some((path, text)) => (path, text),
        None => (line, ""),
    };
    add(alloc, tree, path, text)
}

fn tree_of(alloc: Global, files: &str) -> Result<Texts, Fail> {
    let mut tree = Texts::new(alloc);
    for line in files.split('\n') {
        add_file(alloc, line, &mut tree)?;
    }
    Ok(tree)
}

fn roots_of(alloc: Global, texts: &str) -> Result<List<Path>, Fail> {
    let mut roots = List::new(alloc);
    for text in texts.split(' ') {
        roots.push(Path::read(alloc, text)?)?;
    }
    Ok(roots)
}

fn add_project(alloc: Global, project: &Project, text: &mut String) -> Result<(), Fail> {
    text.push_str(project.setting.config.as_str())?;
    text.push_str(" [")?;
    for number in project.upstream.as_slice() {
        text.push_str(format!(in alloc; " {number}")?.as_str())?;
    }
    text.push_str("]")?;
    for input in project.inputs.as_slice() {
        text.push_str(" ")?;
        text.push_str(input.as_str())?;
    }
    Ok(())
}

fn shown_plan(alloc: Global, plan: &Plan) -> Result<String, Fail> {
    let mut text = String::new(alloc);
    for project in plan.projects.as_slice() {
        if !text.is_empty() {
            text.push_str("; ")?;
        }
        add_project(alloc, project, &mut text)?;
    }
    Ok(text)
}

fn name_of(status: &Status) -> &str {
    match status {
        Status::Skipped => "skipped: ",
        Status::InvalidProject => "invalid project: ",
        Status::Cycle => "cycle: ",
        _ => "another status: ",
    }
}

fn add_fault(alloc: Global, fault: &Diag, text: &mut String) -> Result<(), Fail> {
    let kind = if fault.finding.code.own { "TB" } else { "TS" };
    let code = format!(in alloc; " {kind}{} ", fault.finding.code.number)?;
    text.push_str(fault.path.as_str())?;
    text.push_str(code.as_str())?;
    text.push_str(fault.finding.first.as_str())?;
    Ok(())
}

fn shown_faults(alloc: Global, faults: &[Diag], status: &Status) -> Result<String, Fail> {
    let mut text = String::from_str(alloc, name_of(status))?;
    for (at, fault) in faults.iter().enumerate() {
        if at > 0 {
            text.push_str("; ")?;
        }
        add_fault(alloc, fault, &mut text)?;
    }
    Ok(text)
}

// What roots give over files.
fn told(alloc: Global, tree: &Texts, roots: &str) -> Result<String, Fail> {
    let roots = roots_of(alloc, roots)?;
    match make_plan(alloc, tree, roots.as_slice()) {
        Ok(plan) => shown_plan(alloc, &plan),
        Err(PlanFault::Faults { diags, status }) => shown_faults(alloc, diags.as_slice(), &status),
        Err(PlanFault::NoMemory) => Ok(String::from_str(alloc, "out of memory")?),
    }
}

#[test]
fn projects_stand_after_what_they_reference(rt: HostRuntime) -> Result<(), Fail> {
    for (roots, files, wanted) in PLANS {
        let tree = tree_of(rt.alloc(), files)?;
        let found = told(rt.alloc(), &tree, roots)?;
        assert_eq!(rt; found.as_str(), wanted);
    }
    Ok(())
}

#[test]
fn faults_are_found_in_order(rt: HostRuntime) -> Result<(), Fail> {
    for (roots, files, wanted) in FAULTS {
        let tree = tree_of(rt.alloc(), files)?;
        let found = told(rt.alloc(), &tree, roots)?;
        assert_eq!(rt; found.as_str(), wanted);
    }
    Ok(())
}

// What roots give over files, where of a plan only the projects are counted.
fn counted(alloc: Global, tree: &Texts, roots: &str) -> Result<String, Fail> {
    let roots = roots_of(alloc, roots)?;
    match make_plan(alloc, tree, roots.as_slice()) {
        Ok(plan) => Ok(format!(in alloc; "{} projects", plan.projects.len())?),
        Err(PlanFault::Faults { diags, status }) => shown_faults(alloc, diags.as_slice(), &status),
        Err(PlanFault::NoMemory) => Ok(String::from_str(alloc, "out of memory")?),
    }
}

/// A solution that references one project.
const OF_ONE: &str =
    "tsconfig.json {\"files\":[],\"references\":[{\"path\":\"p\"}]}\np/tsconfig.json C";

// What a project gives whose one input has so many bytes.
fn told_of_bytes(alloc: Global, bytes: usize) -> Result<String, Fail> {
    let mut tree = tree_of(alloc, OF_ONE)?;
    let text = Text::from_vec(vec![in alloc; 32; bytes]?);
    tree.insert(Path::read(alloc, "p/a.ts")?, text)?;
    counted(alloc, &tree, "tsconfig.json")
}

#[test]
fn an_input_has_so_many_bytes_at_most(rt: HostRuntime) -> Result<(), Fail> {
    let whole = told_of_bytes(rt.alloc(), 4_194_304)?;
    assert_eq!(rt; whole.as_str(), "2 projects");
    let large = told_of_bytes(rt.alloc(), 4_194_305)?;
    assert_eq!(rt; large.as_str(), "skipped: p/tsconfig.json TB5012 bytes");
    Ok(())
}

// What a project gives whose config has so many bytes, blanks at its end.
fn told_of_config(alloc: Global, bytes: usize) -> Result<String, Fail> {
    let mut tree = tree_of(alloc, "p/a.ts")?;
    let mut text = vec![in alloc; 32; bytes]?;
    for (at, byte) in PLAIN.as_bytes().iter().enumerate() {
        if at < text.len() {
            text[at] = *byte;
        }
    }
    tree.insert(Path::read(alloc, "p/tsconfig.json")?, Text::from_vec(text))?;
    counted(alloc, &tree, "p/tsconfig.json")
}

#[test]
fn a_config_has_so_many_bytes_at_most(rt: HostRuntime) -> Result<(), Fail> {
    let whole = told_of_config(rt.alloc(), 4_194_304)?;
    assert_eq!(rt; whole.as_str(), "1 projects");
    let large = told_of_config(rt.alloc(), 4_194_305)?;
    assert_eq!(rt; large.as_str(), "skipped: p/tsconfig.json TB5012 bytes");
    Ok(())
}

// What a solution and the projects that it references give, so many in all.
fn told_of_projects(alloc: Global, count: usize) -> Result<String, Fail> {
    let mut tree = Texts::new(alloc);
    let mut root = String::from_str(alloc, "tsconfig.json {\"files\":[],\"references\":[")?;
    for number in 1..count {
        let project = format!(in alloc; "p{number}/tsconfig.json")?;
        if number > 1 {
            root.push_str(",")?;
        }
        root.push_str("{\"path\":\"")?;
        root.push_str(project.as_str())?;
        root.push_str("\"}")?;
        add_file(alloc, format!(in alloc; "{project} C")?.as_str(), &mut tree)?;
        add_file(
            alloc,
            format!(in alloc; "p{number}/a.ts")?.as_str(),
            &mut tree,
        )?;
    }
    root.push_str("]}")?;
    add_file(alloc, root.as_str(), &mut tree)?;
    counted(alloc, &tree, "tsconfig.json")
}

#[test]
fn a_plan_has_so_many_projects_at_most(rt: HostRuntime) -> Result<(), Fail> {
    let whole = told_of_projects(rt.alloc(), 512)?;
    assert_eq!(rt; whole.as_str(), "512 projects");
    let large = told_of_projects(rt.alloc(), 513)?;
    assert_eq!(rt; large.as_str(), "skipped: tsconfig.json TB5012 projects");
    Ok(())
}

// What a project gives whose config has so many `extends` on its chain.
fn told_of_chain(alloc: Global, count: usize) -> Result<String, Fail> {
    let mut tree = tree_of(alloc, "p/a.ts")?;
    let mut name = String::from_str(alloc, "p/tsconfig.json")?;
    for number in 0..count {
        let file = format!(in alloc; "{name} {{\"extends\":\"./b{number}\"}}")?;
        add_file(alloc, file.as_str(), &mut tree)?;
        name = format!(in alloc; "p/b{number}.json")?;
    }
    add_file(alloc, format!(in alloc; "{name} C")?.as_str(), &mut tree)?;
    counted(alloc, &tree, "p/tsconfig.json")
}

#[test]
fn a_chain_has_so_many_extends_at_most(rt: HostRuntime) -> Result<(), Fail> {
    let whole = told_of_chain(rt.alloc(), 32)?;
    assert_eq!(rt; whole.as_str(), "1 projects");
    let long = told_of_chain(rt.alloc(), 33)?;
    assert_eq!(rt; long.as_str(), "skipped: p/tsconfig.json TB5012 extends");
    Ok(())
}

// What a solution gives whose one project has so many inputs, of so many bytes each.
fn told_of_inputs(alloc: Global, count: usize, bytes: usize) -> Result<String, Fail> {
    let mut tree = tree_of(alloc, OF_ONE)?;
    for number in 0..count {
        let path = format!(in alloc; "p/{number}.ts")?;
        let text = Text::from_vec(vec![in alloc; 32; bytes]?);
        tree.insert(Path::read(alloc, path.as_str())?, text)?;
    }
    counted(alloc, &tree, "tsconfig.json")
}

#[test]
fn a_plan_has_so_many_inputs_at_most(rt: HostRuntime) -> Result<(), Fail> {
    let whole = told_of_inputs(rt.alloc(), 20_000, 0)?;
    assert_eq!(rt; whole.as_str(), "2 projects");
    let large = told_of_inputs(rt.alloc(), 20_001, 0)?;
    assert_eq!(rt; large.as_str(), "skipped: tsconfig.json TB5012 files");
    Ok(())
}

#[test]
fn all_inputs_have_so_many_bytes_at_most(rt: HostRuntime) -> Result<(), Fail> {
    let whole = told_of_inputs(rt.alloc(), 64, 4_194_304)?;
    assert_eq!(rt; whole.as_str(), "2 projects");
    let large = told_of_inputs(rt.alloc(), 65, 4_194_304)?;
    assert_eq!(rt; large.as_str(), "skipped: tsconfig.json TB5012 bytes");
    Ok(())
}
