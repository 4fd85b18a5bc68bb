ghost use Rattle.std.specs.Prelude.{◌≡◌, List, ℕ, map, Some, None, IfOk, IsErrOf, fold, Option};
ghost use Rattle.tb_text.specs.Paths.{joined, path_of as path_of_segments, is_segment, segments, step_by};
ghost use Rattle.std.specs.List.{list_all};
ghost use Rattle.tb_text.specs.Walks.{AllBare, reached, texts};

use crate::paths::{MOST_BYTES, is_whole};
use crate::{NoMemory, Path, PathFault};
use std::alloc::{AllocError, Global};

impl Path {
    /// The path to which this text leads from the folder `self`. The text may have `.` and `..` between its `/`. Only
    /// where it leads has to be a path; none of its parts goes up from the root.
    pub fn join(&self, alloc: Global, rel: &str) -> Result<Path, PathFault>
        ensures ok { IfOk result (λ p. joined self.now rel.now ≡ Some p) }
        ensures bad { IsErrOf result PathFault.BadPath → joined self.now rel.now ≡ None }
    {
        let mut at = parts_of(alloc, self.as_str())?;
        let way = parts_of(alloc, rel)?;
        if !follow(&mut at, way.as_slice())? {
            return Err(PathFault::BadPath);
        }
        path_of(alloc, at.as_slice())
    }
}

fn parts_of<'a>(alloc: Global, text: &'a str) -> Result<Vec<&'a str>, AllocError>
    ensures { IfOk result (λ v. texts v.items ≡ segments text.now) }
{
    if text.is_empty() {
        return Ok(Vec::new(alloc));
    }
    text.split('/').collect(alloc)
}

// Goes one part further. False: it goes up from the root.
fn step<'a>(at: &mut Vec<&'a str>, part: &'a str) -> Result<bool, AllocError>
    ensures { IfOk result (λ stays. reached stays (texts at.new.items) ≡ step_by (Some (texts at.old.items)) part.now) }
{
    if part == "." {
        return Ok(true);
    }
    if part == ".." {
        return Ok(at.pop().is_some());
    }
    at.push(part)?;
    Ok(true)
}

// Goes the whole way. False: it goes up from the root somewhere.
fn follow<'a>(at: &mut Vec<&'a str>, way: &[&'a str]) -> Result<bool, AllocError>
    ensures { IfOk result (λ stays. reached stays (texts at.new.items) ≡ fold step_by (Some (texts at.old.items)) (texts way.now)) }
{
    for part in way {
        if !step(at, *part)? {
            return Ok(false);
        }
    }
    Ok(true)
}

fn path_of(alloc: Global, parts: &[&str]) -> Result<Path, PathFault>
    requires { AllBare (texts parts.now) }
    ensures ok { IfOk result (λ p. path_of_segments (texts parts.now) ≡ Some p) }
    ensures bad { IsErrOf result PathFault.BadPath → path_of_segments (texts parts.now) ≡ None }
{
    if !are_whole(parts) {
        return Err(PathFault::BadPath);
    }
    let text = parts.join(alloc, "/")?;
    if text.len() > MOST_BYTES {
        return Err(PathFault::BadPath);
    }
    Ok(Path::of_text(text))
}

fn are_whole(parts: &[&str]) -> bool
    ensures { result ≡ list_all is_segment (texts parts.now) }
{
    for part in parts {
        if !is_whole(part.as_bytes()) {
            return false;
        }
    }
    true
}
