//! What several of the tests use.

use std::alloc::Global;
use std::test::Fail;
use tb_face::Options;
use tb_text::{List, Path, Text, Texts};

/// Puts a file into a tree.
pub fn add(alloc: Global, tree: &mut Texts, path: &str, text: &str) -> Result<(), Fail> {
    tree.insert(
        Path::read(alloc, path)?,
        Text::copy_of(alloc, text.as_bytes())?,
    )?;
    Ok(())
}

/// The options of the smallest project: its output folder is `dist`.
pub fn smallest_options(alloc: Global) -> Result<Options, Fail> {
    Ok(Options {
        out_dir: Path::read(alloc, "dist")?,
        paths: List::new(alloc),
        project: Path::read(alloc, "tsconfig.json")?,
        root_dir: Path::read(alloc, "")?,
    })
}
