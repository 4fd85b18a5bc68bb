//! What `include` takes of the files that may be found. They ascend by bytes, so all that lie inside a folder stand together.
ghost use Rattle.std.specs.Prelude.{◌≡◌, ◌≤◌, ◌++◌, length, string_bytes, true, false, IfOk, OnOk};
ghost use Rattle.std.specs.List.{filter, list_any};
ghost use Rattle.std.specs.List.Sorted.{IsPartitionPoint, IsStrictlySortedBy};
ghost use Rattle.std.specs.Str.{bytes_eq};
ghost use Rattle.tb_globs.specs.Globs.{is_match};
ghost use Rattle.tb_text.specs.Bytes.{bytes_cmp};
ghost use Rattle.tb_text.specs.Paths.{is_inside};
ghost use Rattle.tb_plan.specs.Inputs.{is_included};
ghost use Rattle.tb_plan.specs.Members.{HasSame};
ghost use Rattle.tb_plan.specs.Within.{HasAll, is_before, is_between, is_taken};

use std::alloc::Global;
use tb_config::Setting;
use tb_globs::{Pattern, UseOf, matches};
use tb_text::{NoMemory, Path};

/// Adds what `include` finds of these files and `exclude` does not take out; what several patterns find may be added
/// several times.
pub fn add_included(
    alloc: Global,
    files: &[Path],
    setting: &Setting,
    inputs: &mut Vec<Path>,
) -> Result<(), NoMemory>
    requires { IsStrictlySortedBy bytes_cmp files.now }
    ensures { OnOk result (HasSame inputs.new.items (inputs.old.items ++ filter (is_included setting.now) files.now)) }
{
    for pattern in setting.include.as_slice() {
        add_found(alloc, files, setting, pattern, inputs)?;
    }
    Ok(())
}

/// Adds what one pattern finds. It is the file that the pattern names, or lies inside the folder in front of its wildcards.
fn add_found(
    alloc: Global,
    files: &[Path],
    setting: &Setting,
    pattern: &Pattern,
    inputs: &mut Vec<Path>,
) -> Result<(), NoMemory>
    requires { IsStrictlySortedBy bytes_cmp files.now }
    ensures { OnOk result (HasSame inputs.new.items (inputs.old.items ++ filter (is_taken setting.now pattern.now) files.now)) }
{
    let folder = pattern.folder();
    let itself = file_at(alloc, files, folder)?;
    add_taken(setting, pattern, itself, inputs)?;
    let inside = files_inside(alloc, files, folder)?;
    add_taken(setting, pattern, inside, inputs)?;
    Ok(())
}

fn add_taken(
    setting: &Setting,
    pattern: &Pattern,
    files: &[Path],
    inputs: &mut Vec<Path>,
) -> Result<(), NoMemory>
    ensures { OnOk result (inputs.new.items ≡ inputs.old.items ++ filter (is_taken setting.now pattern.now) files.now) }
{
    for path in files {
        if is_taken(setting, pattern, path) {
            inputs.push(path.clone()?)?;
        }
    }
    Ok(())
}

fn is_taken(setting: &Setting, pattern: &Pattern, path: &Path) -> bool
    ensures { result ≡ is_taken setting.now pattern.now path.now }
{
    matches(pattern, UseOf::Include, path)
        && !some_match(setting.exclude.as_slice(), UseOf::Exclude, path)
}

fn some_match(patterns: &[Pattern], use_of: UseOf, path: &Path) -> bool
    ensures { result ≡ list_any (λ p. is_match p use_of path.now) patterns.now }
{
    for pattern in patterns {
        if matches(pattern, use_of, path) {
            return true;
        }
    }
    false
}

/// The file of this path, if it is one of these.
fn file_at<'a>(alloc: Global, files: &'a [Path], path: &Path) -> Result<&'a [Path], NoMemory>
    requires { IsStrictlySortedBy bytes_cmp files.now }
    ensures { IfOk result (λ one. HasAll (bytes_eq path.now) one.now files.now) }
{
    let next = text_with(alloc, path, "\0")?;
    Ok(between(files, path.as_str(), next.as_str()))
}

/// The files inside a folder.
fn files_inside<'a>(alloc: Global, files: &'a [Path], folder: &Path) -> Result<&'a [Path], NoMemory>
    requires { IsStrictlySortedBy bytes_cmp files.now }
    ensures { IfOk result (λ inside. HasAll (is_inside folder.now) inside.now files.now) }
{
    if folder.as_str().is_empty() {
        return Ok(files);
    }
    let from = text_with(alloc, folder, "/")?;
    // `0` is the byte after `/`.
    let to = text_with(alloc, folder, "0")?;
    Ok(between(files, from.as_str(), to.as_str()))
}

fn text_with(alloc: Global, path: &Path, ending: &str) -> Result<String, NoMemory>
    ensures { IfOk result (λ text. string_bytes text ≡ path.now ++ ending.now) }
{
    let mut text = String::from_str(alloc, path.as_str())?;
    text.push_str(ending)?;
    Ok(text)
}

/// The files from one text on and before another, by bytes.
fn between<'a>(files: &'a [Path], from: &str, to: &str) -> &'a [Path]
    requires { IsStrictlySortedBy bytes_cmp files.now }
    ensures { HasAll (is_between from.now to.now) result.now files.now }
{
    let end = count_before(files, to);
    let start = count_before(files, from).min(end);
    &files[start..end]
}

/// How many of the files come before a text.
fn count_before(files: &[Path], text: &str) -> usize
    requires { IsStrictlySortedBy bytes_cmp files.now }
    ensures bound { result ≤ length files.now }
    ensures point { IsPartitionPoint (λ path. is_before text.now path ≡ true) (λ path. is_before text.now path ≡ false) files.now result }
{
    files.partition_point(
        |path: &Path| -> bool
            ensures { result ≡ is_before text.entry.now path.now }
        { is_before(path, text) },
    )
}

fn is_before(path: &Path, text: &str) -> bool
    ensures { result ≡ is_before text.now path.now }
{
    path.as_str() < text
}
