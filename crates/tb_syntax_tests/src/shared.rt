//! What several of the tests use.

use std::alloc::{AllocError, Global};
use tb_tree::Key;

/// A row of a table: a text, and what is wanted of it behind a `~`.
pub fn row(line: &str) -> (&str, &str) {
    match line.split_once('~') {
        Some(row) => row,
        None => (line, ""),
    }
}

/// So many times one text, a text, and so many times another.
pub fn nested(
    alloc: Global,
    before: &str,
    text: &str,
    behind: &str,
    count: usize,
) -> Result<String, AllocError> {
    let mut out = String::new(alloc);
    for _ in 0..count {
        out.push_str(before)?;
    }
    out.push_str(text)?;
    for _ in 0..count {
        out.push_str(behind)?;
    }
    Ok(out)
}

pub fn key_text(key: &Key) -> &str {
    match key {
        Key::Word(name) => name.as_str(),
        Key::String(name) => name.as_str(),
    }
}
