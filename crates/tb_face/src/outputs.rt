ghost use Rattle.std.specs.Prelude.{◌≡◌, ◌↔◌, ◌++◌, IfOk, IsErrOf, IsFalse, IsUtf8, string_bytes, option_map, ◌==◌, codes, ℕ, Some, List as Members};
ghost use Rattle.std.specs.List.{ends_with};
ghost use Rattle.tb_text.specs.Paths.{is_path};
ghost use Rattle.tb_face.specs.Outputs.{after_start, before_ending, relative, stem_in, stem_text, if_path, stem_of, in_folder, output_text, info_text, new_info_text};

use std::alloc::Global;
use tb_text::{NoMemory, Path, PathFault};

/// The ending of an output script.
pub const SCRIPT: &str = ".js";

/// The ending of an output declaration text.
pub const DECLARATION: &str = ".d.ts";

/// The name of an info in its folder.
pub const INFO: &str = "tsconfig.tsbuildinfo";

/// The name under which an info is written before it takes the place of the old one.
pub const NEW_INFO: &str = "tsconfig.tsbuildinfo.new";

fn after_start<'a>(start: &str, text: &'a str) -> Option<&'a str>
    ensures { option_map (λ s. s.now) result ≡ after_start start.now text.now }
{
    text.strip_prefix(start)
}

fn before_ending<'a>(ending: &str, text: &'a str) -> Option<&'a str>
    ensures { option_map (λ s. s.now) result ≡ before_ending ending.now text.now }
{
    text.strip_suffix(ending)
}

fn relative<'a>(folder: &str, path: &'a str) -> Option<&'a str>
    ensures { option_map (λ s. s.now) result ≡ relative folder.now path.now }
{
    if folder.is_empty() {
        return Some(path);
    }
    let rest = after_start(folder, path)?;
    after_start("/", rest)
}

fn ends_so(text: &str, ending: &str) -> bool
    ensures { result ≡ ends_with (λ a b. a == b) text.now ending.now }
{
    text.ends_with(ending)
}

fn stem_in(path: &str) -> Option<&str>
    ensures { option_map (λ s. s.now) result ≡ stem_in path.now }
{
    if ends_so(path, DECLARATION) {
        return None;
    }
    before_ending(".ts", path)
}

/// The text of a stem: of a path inside the root that ends in `.ts`, but not in `.d.ts`, the path relative to the root
/// without its `.ts`. Such a text may be no path.
pub fn stem_text<'a>(root: &Path, path: &'a Path) -> Option<&'a str>
    ensures { option_map (λ s. s.now) result ≡ stem_text root.now path.now }
{
    let rest = relative(root.as_str(), path.as_str())?;
    stem_in(rest)
}

/// A path has a stem exactly where it is the stem with `.ts`, in the root, and does not end in `.d.ts`. So no two paths
/// have one stem in a root.
pub fn stems_of_paths()
    ensures { (root path stem : Members ℕ) → (stem_text root path ≡ Some stem)
        ↔ ((path ≡ in_folder root (stem ++ codes ".ts")) × IsFalse (ends_with (λ a b. a == b) (stem ++ codes ".ts") (codes ".d.ts"))) }
{}

/// The stem of a file of a project: none where its text is no path.
pub fn stem_of(alloc: Global, root: &Path, path: &Path) -> Result<Option<Path>, NoMemory>
    ensures { IfOk result (λ stem. stem ≡ stem_of root.now path.now) }
{
    match stem_text(root, path) {
        Some(stem) => if_path(alloc, stem),
        None => Ok(None),
    }
}

fn if_path(alloc: Global, text: &str) -> Result<Option<Path>, NoMemory>
    ensures { IfOk result (λ path. path ≡ if_path text.now) }
{
    match Path::read(alloc, text) {
        Ok(path) => Ok(Some(path)),
        Err(PathFault::BadPath) => Ok(None),
        Err(PathFault::NoMemory) => Err(NoMemory),
    }
}

fn in_folder(alloc: Global, folder: &Path, name: &str, ending: &str) -> Result<String, NoMemory>
    ensures { IfOk result (λ text. string_bytes text ≡ in_folder folder.now (name.now ++ ending.now)) }
{
    let mut text = String::from_str(alloc, folder.as_str())?;
    if !folder.as_str().is_empty() {
        text.push_str("/")?;
    }
    text.push_str(name)?;
    text.push_str(ending)?;
    Ok(text)
}

/// The path of an output: a stem, or any other name, with an ending, in a folder.
pub fn output_path(
    alloc: Global,
    folder: &Path,
    stem: &str,
    ending: &str,
) -> Result<Path, PathFault>
    ensures ok { IfOk result (λ p. p ≡ output_text folder.now stem.now ending.now) }
    ensures bad { IsErrOf result PathFault.BadPath → IsFalse (is_path (output_text folder.now stem.now ending.now)) }
{
    match in_folder(alloc, folder, stem, ending) {
        Ok(text) => Path::read(alloc, text.as_str()),
        Err(NoMemory) => Err(PathFault::NoMemory),
    }
}

/// The path of the info of a folder.
pub fn info_path(alloc: Global, folder: &Path) -> Result<Path, PathFault>
    ensures ok { IfOk result (λ p. p ≡ info_text folder.now) }
    ensures bad { IsErrOf result PathFault.BadPath → IsFalse (is_path (info_text folder.now)) }
{
    output_path(alloc, folder, INFO, "")
}

/// The path under which the info of a folder is written before it takes the place of the old one.
pub fn new_info_path(alloc: Global, folder: &Path) -> Result<Path, PathFault>
    ensures ok { IfOk result (λ p. p ≡ new_info_text folder.now) }
    ensures bad { IsErrOf result PathFault.BadPath → IsFalse (is_path (new_info_text folder.now)) }
{
    output_path(alloc, folder, NEW_INFO, "")
}
