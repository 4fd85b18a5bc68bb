//! Tests of `tb_config`.

use crate::shared::add;
use std::alloc::Global;
use std::fmt::Write;
use std::test::Fail;
use tb_config::{PathRule, Setting, SettingFault, read_setting};
use tb_globs::Pattern;
use tb_text::{Diag, List, Name, Path, Texts};

/// A path, and the text of its file; or a config's text, and its faults.
type Row = (&'static str, &'static str);

/// A config in its folder, and its faults in order: the path, the code's number and the argument of each; or none.
const FAULTS: [Row; 47] = [
    ("{", "p/c.json 5001 "),
    ("[]", "p/c.json 5001 "),
    (
        "{\"extends\": \"./gone\", \"compilerOptions\": {\"outDir\": \"d\"}}",
        "p/gone.json 5002 ",
    ),
    (
        "{\"extends\": \"../bad.json\", \"compilerOptions\": {\"outDir\": \"d\"}}",
        "bad.json 5001 ",
    ),
    (
        "{\"extends\": \"./c\", \"compilerOptions\": {\"outDir\": \"d\"}}",
        "p/c.json 5003 p/c.json",
    ),
    (
        "{\"extends\": \"../round\", \"compilerOptions\": {\"outDir\": \"d\"}}",
        "p/c.json 5003 round.json",
    ),
    (
        "{\"extends\": 1, \"compilerOptions\": {\"outDir\": \"d\"}}",
        "p/c.json 5004 extends",
    ),
    (
        "{\"extends\": [\"../good\", 1], \"compilerOptions\": {\"outDir\": \"d\"}}",
        "p/c.json 5004 extends",
    ),
    (
        "{\"files\": null, \"extends\": \"../good\"}",
        "p/c.json 5004 files",
    ),
    (
        "{\"include\": \"src\", \"extends\": \"../good\"}",
        "p/c.json 5004 include",
    ),
    (
        "{\"exclude\": [[]], \"extends\": \"../good\"}",
        "p/c.json 5004 exclude",
    ),
    (
        "{\"references\": [\"../q\"], \"extends\": \"../good\"}",
        "p/c.json 5004 references",
    ),
    (
        "{\"references\": [{\"path\": 1}], \"extends\": \"../good\"}",
        "p/c.json 5004 references",
    ),
    (
        "{\"extends\": \"../references\"}",
        "p/c.json 5004 references",
    ),
    (
        "{\"compilerOptions\": [], \"extends\": \"../good\"}",
        "p/c.json 5004 compilerOptions",
    ),
    (
        "{\"compilerOptions\": {\"foo\": 1}, \"extends\": \"../good\"}",
        "p/c.json 5005 foo",
    ),
    (
        "{\"compilerOptions\": {\"Strict\": true}, \"extends\": \"../good\"}",
        "p/c.json 5005 Strict",
    ),
    (
        "{\"compilerOptions\": {\"outFile\": \"a.js\"}, \"extends\": \"../good\"}",
        "p/c.json 5005 outFile",
    ),
    (
        "{\"compilerOptions\": {\"strict\": false}, \"extends\": \"../good\"}",
        "p/c.json 5006 strict",
    ),
    (
        "{\"compilerOptions\": {\"strict\": \"true\"}, \"extends\": \"../good\"}",
        "p/c.json 5006 strict",
    ),
    (
        "{\"compilerOptions\": {\"noEmit\": true}, \"extends\": \"../good\"}",
        "p/c.json 5006 noEmit",
    ),
    (
        "{\"compilerOptions\": {\"composite\": null}, \"extends\": \"../good\"}",
        "p/c.json 5006 composite",
    ),
    (
        "{\"compilerOptions\": {\"target\": \"es5\"}, \"extends\": \"../good\"}",
        "p/c.json 5006 target",
    ),
    (
        "{\"compilerOptions\": {\"outDir\": true}}",
        "p/c.json 5006 outDir",
    ),
    (
        "{\"compilerOptions\": {\"paths\": {\"*/*\": []}}, \"extends\": \"../good\"}",
        "p/c.json 5006 paths",
    ),
    (
        "{\"compilerOptions\": {\"paths\": {\"a\": [\"*/*\"]}}, \"extends\": \"../good\"}",
        "p/c.json 5006 paths",
    ),
    (
        "{\"compilerOptions\": {\"paths\": {\"a\": \"b\"}}, \"extends\": \"../good\"}",
        "p/c.json 5006 paths",
    ),
    ("{}", "p/c.json 5007 outDir"),
    (
        "{\"compilerOptions\": {\"outDir\": \"../../d\"}}",
        "p/c.json 5014 ../../d",
    ),
    (
        "{\"compilerOptions\": {\"paths\": {\"a\": [\"../../*/*\"]}}, \"extends\": \"../good\"}",
        "p/c.json 5014 ../../*/*",
    ),
    (
        "{\"include\": [\"src/\"], \"extends\": \"../good\"}",
        "p/c.json 5014 src/",
    ),
    (
        "{\"references\": [{\"path\": \"../../q\"}], \"extends\": \"../good\"}",
        "p/c.json 5014 ../../q",
    ),
    (
        "{\"extends\": [\"../good\", \"a//b\"]}",
        "p/c.json 5014 a//b",
    ),
    (
        "{\"extends\": \"../loose\", \"compilerOptions\": {\"strict\": true}}",
        "p/c.json 5006 strict",
    ),
    (
        "{\"files\": [], \"include\": [], \"references\": [{\"path\": \"q\"}]}",
        "p/c.json 5007 outDir",
    ),
    (
        "{\"files\": [], \"references\": [{\"path\": \"../../q\"}]}",
        "p/c.json 5014 ../../q",
    ),
    (
        "{\"extends\": [\"../gone\", \"../bad\", \"./c\"], \"files\": 1, \"include\": [\"../../x\"], \"compilerOptions\": {\"strict\": false, \"foo\": 1, \"bar\": 1, \"rootDir\": \"../../x\"}}",
        "bad.json 5001 ; gone.json 5002 ; p/c.json 5003 p/c.json; p/c.json 5004 files; p/c.json 5005 bar; p/c.json 5005 foo; p/c.json 5006 strict; p/c.json 5007 outDir; p/c.json 5014 ../../x",
    ),
    (
        "{\"files\": 5, \"references\": [{\"path\": \"q\"}]}",
        "p/c.json 5004 files; p/c.json 5007 outDir",
    ),
    (
        "{\"compilerOptions\": 5, \"extends\": \"./gone\"}",
        "p/c.json 5004 compilerOptions; p/c.json 5007 outDir; p/gone.json 5002 ",
    ),
    (
        "{\"compilerOptions\": {\"outDir\": \"/d\"}}",
        "p/c.json 5014 /d",
    ),
    (
        "{\"compilerOptions\": {\"outDir\": null}}",
        "p/c.json 5006 outDir",
    ),
    (
        "{\"extends\": [1, \"../good\"]}",
        "p/c.json 5004 extends; p/c.json 5007 outDir",
    ),
    ("{\"extends\": [\"../good\", \"\"]}", "p/.json 5002 "),
    (
        "{\"extends\": [\"../good\", \"../good.JSON\"]}",
        "good.JSON.json 5002 ",
    ),
    ("{\"extends\": [\"../good\", \"../good\"]}", ""),
    ("{\"files\": [], \"references\": [{\"path\": \"\"}]}", ""),
    (
        "{\"extends\": \"../good\", \"compilerOptions\": {\"jsx\": null, \"paths\": {\"*\": [\"*\"]}}, \"compileOnSave\": null}",
        "",
    ),
];

/// Bases beside the config, in the folder above it.
const BASES: [Row; 5] = [
    ("good.json", "{\"compilerOptions\": {\"outDir\": \"d\"}}"),
    ("bad.json", "{"),
    ("round.json", "{\"extends\": \"./round\"}"),
    (
        "loose.json",
        "{\"compilerOptions\": {\"outDir\": \"d\", \"strict\": false}}",
    ),
    (
        "references.json",
        "{\"extends\": \"./good\", \"references\": 1}",
    ),
];

fn tree_of(alloc: Global, files: &[Row]) -> Result<Texts, Fail> {
    let mut tree = Texts::new(alloc);
    for (path, text) in files {
        add(alloc, &mut tree, *path, *text)?;
    }
    Ok(tree)
}

fn shown(alloc: Global, faults: &[Diag]) -> Result<String, Fail> {
    let mut text = String::new(alloc);
    for diag in faults {
        if !text.is_empty() {
            text.push_str("; ")?;
        }
        text.push_str(diag.path.as_str())?;
        let number = format!(in alloc; " {} ", diag.finding.code.number)?;
        text.push_str(number.as_str())?;
        text.push_str(diag.finding.first.as_str())?;
    }
    Ok(text)
}

// The faults of a config beside the bases.
fn faults_of(alloc: Global, config: &str) -> Result<String, Fail> {
    let mut tree = tree_of(alloc, BASES.as_slice())?;
    add(alloc, &mut tree, "p/c.json", config)?;
    let path = Path::read(alloc, "p/c.json")?;
    let Err(fault) = read_setting(alloc, &tree, &path) else {
        return Ok(String::new(alloc));
    };
    match fault {
        SettingFault::Faults(faults) => shown(alloc, faults.as_slice()),
        SettingFault::NoMemory => Ok(String::from_str(alloc, "out of memory")?),
    }
}

#[test]
fn faults_are_found_in_order(rt: HostRuntime) -> Result<(), Fail> {
    for (config, wanted) in FAULTS {
        let found = faults_of(rt.alloc(), config)?;
        assert_eq!(rt; found.as_str(), wanted, "{config}");
    }
    Ok(())
}

fn paths(alloc: Global, texts: &[&str]) -> Result<List<Path>, Fail> {
    let mut paths = List::new(alloc);
    for text in texts {
        paths.push(Path::read(alloc, *text)?)?;
    }
    Ok(paths)
}

fn names(alloc: Global, texts: &[&str]) -> Result<List<Name>, Fail> {
    let mut names = List::new(alloc);
    for text in texts {
        names.push(Name::copy_of(alloc, *text)?)?;
    }
    Ok(names)
}

fn patterns(alloc: Global, folder: &str, texts: &[&str]) -> Result<List<Pattern>, Fail> {
    let folder = Path::read(alloc, folder)?;
    let mut patterns = List::new(alloc);
    for text in texts {
        patterns.push(Pattern::read(alloc, &folder, *text)?)?;
    }
    Ok(patterns)
}

// The setting of a config without bases that gives its output folder alone.
fn default_setting(alloc: Global, folder: &str, output: &str) -> Result<Setting, Fail> {
    let root = Path::read(alloc, folder)?;
    let config = root.join(alloc, "tsconfig.json")?;
    let mut read = List::new(alloc);
    read.push(config.clone()?)?;
    let packages = ["node_modules", "bower_components", "jspm_packages"];
    let mut exclude = patterns(alloc, folder, packages.as_slice())?;
    exclude.push(Pattern::read(alloc, &Path::read(alloc, output)?, "")?)?;
    Ok(Setting {
        config,
        solution: false,
        composite: false,
        root,
        folder: Some(Path::read(alloc, output)?),
        paths: List::new(alloc),
        files: None,
        include: patterns(alloc, folder, ["**/*"].as_slice())?,
        exclude,
        references: List::new(alloc),
        read,
        chain: 0,
    })
}

// The setting of the config of a folder among these files.
fn setting_in(alloc: Global, files: &[Row], folder: &str) -> Result<Setting, Fail> {
    let tree = tree_of(alloc, files)?;
    let path = Path::read(alloc, folder)?.join(alloc, "tsconfig.json")?;
    Ok(read_setting(alloc, &tree, &path)?)
}

// The config of a folder among these files has this setting.
fn gives(alloc: Global, files: &[Row], folder: &str, wanted: &Setting) -> Result<bool, Fail> {
    let found = setting_in(alloc, files, folder)?;
    Ok(found == *wanted)
}

const PLAIN: [Row; 1] = [(
    "p/tsconfig.json",
    "{\"compilerOptions\": {\"outDir\": \"../d\"}}",
)];

#[test]
fn what_is_not_given_has_its_default(rt: HostRuntime) -> Result<(), Fail> {
    let wanted = default_setting(rt.alloc(), "p", "d")?;
    assert!(rt; gives(rt.alloc(), PLAIN.as_slice(), "p", &wanted)?);
    Ok(())
}

const MERGED: [Row; 3] = [
    (
        "tsconfig.json",
        "{\n// bases\n\"extends\": [\"./base/one.json\", \"./base/two\"],\n\"files\": [\"a.ts\"],\n}\n",
    ),
    (
        "base/one.json",
        "{\"compilerOptions\": {\"composite\": true, \"outDir\": \"../x\"}}",
    ),
    (
        "base/two.json",
        "{\"compilerOptions\": {\"outDir\": \"./y\"}}",
    ),
];

fn merged_setting(alloc: Global) -> Result<Setting, Fail> {
    let read = ["base/one.json", "base/two.json", "tsconfig.json"];
    Ok(Setting {
        composite: true,
        files: Some(paths(alloc, ["a.ts"].as_slice())?),
        include: List::new(alloc),
        read: paths(alloc, read.as_slice())?,
        chain: 1,
        ..default_setting(alloc, "", "base/y")?
    })
}

#[test]
fn a_later_base_overrides_and_the_rest_is_kept(rt: HostRuntime) -> Result<(), Fail> {
    let wanted = merged_setting(rt.alloc())?;
    assert!(rt; gives(rt.alloc(), MERGED.as_slice(), "", &wanted)?);
    Ok(())
}

// Both bases extend one base, which counts with the later one and so overrides the earlier one.
const INHERITED: [Row; 4] = [
    (
        "p/tsconfig.json",
        "{\"extends\": [\"./first\", \"../base/middle\"], \"references\": [{\"path\": \"../q\"}, {\"path\": \"r.json\"}]}",
    ),
    (
        "p/first.json",
        "{\"extends\": \"../base/deep/one\", \"compilerOptions\": {\"composite\": true, \"rootDir\": \".\"}}",
    ),
    (
        "base/middle.json",
        "{\"extends\": \"./deep/one\", \"compilerOptions\": {\"outDir\": \"out\"}}",
    ),
    (
        "base/deep/one.json",
        "{\"compilerOptions\": {\"strict\": true, \"isolatedDeclarations\": true, \"noEmit\": false, \"skipLibCheck\": true, \"lib\": [\"ES2022\"], \"jsx\": null, \"target\": \"ES2022\", \"module\": \"ESNext\", \"moduleResolution\": \"Bundler\", \"outDir\": \"no\", \"rootDir\": \"../..\", \"paths\": {\"z\": [\"t\"], \"@a/*\": [\"./src/*\", \"../*\"]}}, \"include\": [\"src\"], \"exclude\": [\"x\"], \"references\": [{\"path\": \"s\"}]}",
    ),
];

// The rules of `paths` that are inherited.
fn inherited_rules(alloc: Global) -> Result<List<PathRule>, Fail> {
    let mut rules = List::new(alloc);
    rules.push(PathRule {
        key: Name::copy_of(alloc, "@a/*")?,
        targets: names(alloc, ["base/deep/src/*", "base/*"].as_slice())?,
    })?;
    rules.push(PathRule {
        key: Name::copy_of(alloc, "z")?,
        targets: names(alloc, ["base/deep/t"].as_slice())?,
    })?;
    Ok(rules)
}

fn inherited_setting(alloc: Global) -> Result<Setting, Fail> {
    let references = ["q/tsconfig.json", "p/r.json"];
    let read = [
        "base/deep/one.json",
        "base/middle.json",
        "p/first.json",
        "p/tsconfig.json",
    ];
    Ok(Setting {
        composite: true,
        root: Path::read(alloc, "")?,
        paths: inherited_rules(alloc)?,
        include: patterns(alloc, "base/deep", ["src"].as_slice())?,
        exclude: patterns(alloc, "base/deep", ["x"].as_slice())?,
        references: paths(alloc, references.as_slice())?,
        read: paths(alloc, read.as_slice())?,
        chain: 2,
        ..default_setting(alloc, "p", "base/out")?
    })
}

#[test]
fn what_is_inherited_counts_from_where_it_stands(rt: HostRuntime) -> Result<(), Fail> {
    let wanted = inherited_setting(rt.alloc())?;
    assert!(rt; gives(rt.alloc(), INHERITED.as_slice(), "p", &wanted)?);
    Ok(())
}

const SOLUTION: [Row; 1] = [(
    "tsconfig.json",
    "{\"files\": [], \"references\": [{\"path\": \"p\"}, {\"path\": \"q\"}]}",
)];

#[test]
fn a_solution_has_no_folder(rt: HostRuntime) -> Result<(), Fail> {
    let found = setting_in(rt.alloc(), SOLUTION.as_slice(), "")?;
    let references = ["p/tsconfig.json", "q/tsconfig.json"];
    assert!(rt; found.solution && found.folder.is_none());
    assert!(rt; found.references == paths(rt.alloc(), references.as_slice())?);
    Ok(())
}
