ghost use Rattle.std.specs.Prelude.{◌≡◌, [], ◌∷◌, map, string_bytes, IfOk, IfErr};
ghost use Rattle.tb_words.specs.Answers.{Gives};
ghost use Rattle.tb_words.specs.Commands.{roots_by};
ghost use Rattle.tb_words.specs.Roots.{config_text, root_of, roots_of};

use crate::WordsFault;
use std::alloc::{AllocError, Global};
use tb_text::{List, Name, Path, PathFault, UsageFault};

/// The configs of the roots: those of the words, the default one, or the one of the generated tree.
pub fn roots_by(
    alloc: Global,
    gen_number: Option<u32>,
    words: &[&str],
) -> Result<List<Path>, WordsFault>
    ensures { Gives (roots_by gen_number (map (λ word. word.now) words.now)) result }
{
    if gen_number.is_some() {
        only_root(alloc, "gen/tsconfig.json")
    } else if words.is_empty() {
        only_root(alloc, "tsconfig.json")
    } else {
        roots_of(alloc, words)
    }
}

/// The configs of all words, or the first word that names none.
fn roots_of(alloc: Global, words: &[&str]) -> Result<List<Path>, WordsFault>
    ensures { Gives (roots_of (map (λ word. word.now) words.now)) result }
{
    let mut paths = Vec::new(alloc);
    for word in words {
        paths.push(root_of(alloc, *word)?)?;
    }
    Ok(List::from_vec(paths))
}

fn root_of(alloc: Global, word: &str) -> Result<Path, WordsFault>
    ensures { Gives (root_of word.now) result }
{
    let config = config_text(alloc, word)?;
    match root_folder(alloc)?.join(alloc, config.as_str()) {
        Ok(path) => Ok(path),
        Err(PathFault::BadPath) => {
            let word = Name::copy_of(alloc, word)?;
            Err(WordsFault::Usage(UsageFault::BadRoot(word)))
        }
        Err(PathFault::NoMemory) => Err(WordsFault::NoMemory),
    }
}

fn config_text(alloc: Global, word: &str) -> Result<String, AllocError>
    ensures { IfOk result (λ text. string_bytes text ≡ config_text word.now) }
{
    let mut text = String::from_str(alloc, word)?;
    if word.as_bytes().ends_with(b".json".as_slice()) {
        return Ok(text);
    }
    if !word.is_empty() {
        text.push_str("/")?;
    }
    text.push_str("tsconfig.json")?;
    Ok(text)
}

fn only_root(alloc: Global, config: &str) -> Result<List<Path>, WordsFault>
    ensures path { IfOk result (λ paths. paths ≡ config.now ∷ []) }
    ensures fault { IfErr result (λ fault. fault ≡ WordsFault.NoMemory) }
{
    let path = path_of(alloc, config)?;
    let mut paths = Vec::new(alloc);
    paths.push(path)?;
    Ok(List::from_vec(paths))
}

/// The folder where the program starts.
fn root_folder(alloc: Global) -> Result<Path, WordsFault>
    ensures root { IfOk result (λ path. path ≡ []) }
    ensures fault { IfErr result (λ fault. fault ≡ WordsFault.NoMemory) }
{
    path_of(alloc, "")
}

/// The path of a text that is one: only memory can be wanting.
fn path_of(alloc: Global, text: &str) -> Result<Path, WordsFault>
    ensures path { IfOk result (λ path. path ≡ text.now) }
    ensures fault { IfErr result (λ fault. fault ≡ WordsFault.NoMemory) }
{
    match Path::read(alloc, text) {
        Ok(path) => Ok(path),
        Err(_) => Err(WordsFault::NoMemory),
    }
}
