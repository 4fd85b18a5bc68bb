//! Workspaces and what a run leaves, each as one text, and the runs over them.

use std::alloc::Global;
use std::collections::VecDeque;
use std::test::Fail;
use tb_memory::{MemDisk, MemSink, MemTree, ScriptFeed};
use tb_session::{Ended, run_alone};
use tb_text::{List, Path, Text, Texts};

/// A config with an output folder, as most projects have it.
pub const CONFIG: &[u8] = b"{\"compilerOptions\":{\"composite\":true,\"outDir\":\"dist\"}}";

/// The one file of the smallest project.
pub const SOURCE: &[u8] = b"export const a: number = 1;\n";

/// Three projects in a line of references, the last of which is `app`.
pub const THREE: &str = r#"@app/tsconfig.json
{"compilerOptions":{"outDir":"dist"},"references":[{"path":"../util"}]}
@app/m.ts
export const s: string = "s";
@core/tsconfig.json
{"compilerOptions":{"composite":true,"outDir":"dist"}}
@core/a-b.ts
@core/a.ts
export const a: number = 1;
@util/tsconfig.json
{"compilerOptions":{"composite":true,"outDir":"dist"},"references":[{"path":"../core"}]}
@util/u.ts
export type U = boolean;
"#;

pub type Run = Ended<MemDisk, ScriptFeed, MemSink>;

pub fn add(alloc: Global, texts: &mut Texts, path: &str, text: &[u8]) -> Result<(), Fail> {
    texts.insert(Path::read(alloc, path)?, Text::copy_of(alloc, text)?)?;
    Ok(())
}

/// The smallest project: one config and one file.
pub fn hello(alloc: Global) -> Result<Texts, Fail> {
    let mut texts = Texts::new(alloc);
    add(alloc, &mut texts, "tsconfig.json", CONFIG)?;
    add(alloc, &mut texts, "a.ts", SOURCE)?;
    Ok(texts)
}

/// The files of a workspace, each of which begins with a line of `@` and its path.
pub fn workspace(alloc: Global, files: &str) -> Result<Texts, Fail> {
    let mut texts = Texts::new(alloc);
    for file in files.split('@') {
        if let Some((path, text)) = file.split_once('\n') {
            add(alloc, &mut texts, path, text.as_bytes())?;
        }
    }
    Ok(texts)
}

// The call that is to fail, if there is one.
fn failing(alloc: Global, call: Option<u64>) -> Result<List<u64>, Fail> {
    let mut calls = List::new(alloc);
    if let Some(call) = call {
        calls.push(call)?;
    }
    Ok(calls)
}

/// An empty disk, whose call of this number fails.
pub fn disk(alloc: Global, call: Option<u64>) -> Result<MemDisk, Fail> {
    Ok(MemDisk::new(alloc, failing(alloc, call)?, None))
}

// The words of a line, with a blank between them.
fn words_of(alloc: Global, line: &str) -> Result<Vec<String>, Fail> {
    let mut words = Vec::new(alloc);
    if !line.is_empty() {
        for word in line.split(' ') {
            words.push(String::from_str(alloc, word)?)?;
        }
    }
    Ok(words)
}

/// A run over these texts, in which the calls of these numbers fail. So would the first call of the feed.
pub fn go(
    alloc: Global,
    words: &str,
    texts: Texts,
    disk: MemDisk,
    tree_call: Option<u64>,
    sink_call: Option<u64>,
) -> Result<Run, Fail> {
    let words = words_of(alloc, words)?;
    let mut tree = MemTree::new(texts, failing(alloc, tree_call)?);
    let feed = ScriptFeed::new(VecDeque::new(alloc), failing(alloc, Some(0))?);
    let sink = MemSink::new(alloc, failing(alloc, sink_call)?);
    Ok(run_alone(alloc, words.as_slice(), &mut tree, disk, feed, sink))
}

/// A run on an empty disk, in which no call fails.
pub fn fresh(alloc: Global, words: &str, texts: Texts) -> Result<Run, Fail> {
    go(alloc, words, texts, disk(alloc, None)?, None, None)
}

/// Whether a disk has this text at a path.
pub fn holds(alloc: Global, disk: &MemDisk, path: &str, text: &[u8]) -> Result<bool, Fail> {
    match disk.text(&Path::read(alloc, path)?) {
        Some(found) => Ok(found.as_slice() == text),
        None => Ok(false),
    }
}

// Adds the files of a disk, each after a line of `@` and its path.
fn add_files(alloc: Global, disk: &MemDisk, text: &mut String) -> Result<(), Fail> {
    for path in disk.paths(alloc)?.as_slice() {
        text.push_str("@")?;
        text.push_str(path.as_str())?;
        text.push_str("\n")?;
        if let Some(found) = disk.text(path) {
            text.push_str(std::str::from_utf8(found.as_slice())?)?;
        }
    }
    Ok(())
}

/// What a run left: a line of its status, its counts and the generations that it settled; what it printed; and the
/// files of its disk.
pub fn left_by(alloc: Global, run: &Run) -> Result<String, Fail> {
    let mut text = format!(in alloc;
        "status {}, checked {}, built {}, settled",
        run.status.code(),
        run.checked,
        run.built
    )?;
    for generation in run.settled.as_slice() {
        text.push_str(format!(in alloc; " {generation}")?.as_str())?;
    }
    text.push_str("\n")?;
    text.push_str(std::str::from_utf8(run.out.taken())?)?;
    add_files(alloc, &run.disk, &mut text)?;
    Ok(text)
}

/// Whether a run touched nothing, and settled nothing.
pub fn is_untouched(run: &Run) -> bool {
    run.disk.calls() == 0
        && run.out.taken().is_empty()
        && run.settled.is_empty()
        && run.checked == 0
        && run.built == 0
}
