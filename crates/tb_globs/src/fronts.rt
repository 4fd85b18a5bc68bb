//! What stands in front of the first wildcard of a pattern.
ghost use Rattle.std.specs.Prelude.{◌≡◌, IfOk, IsErrOf, IsFalse};
ghost use Rattle.tb_globs.specs.Fronts.{names_of};
ghost use Rattle.tb_text.specs.Paths.{is_path, path_text};
ghost use Rattle.tb_text.specs.Walks.{texts};

use crate::parts::Part;
use std::alloc::{AllocError, Global};
use tb_text::{Path, PathFault};

/// The path of the segments that stand for themselves, up to the first that does not.
pub fn front_of(alloc: Global, parts: &[Part]) -> Result<Path, PathFault>
    ensures ok { IfOk result (λ front. front ≡ path_text (names_of parts.now)) }
    ensures bad { IsErrOf result PathFault.BadPath → IsFalse (is_path (path_text (names_of parts.now))) }
{
    let names = names_of(alloc, parts)?;
    let text = names.as_slice().join(alloc, "/")?;
    Path::read(alloc, text.as_str())
}

fn names_of<'a>(alloc: Global, parts: &'a [Part]) -> Result<Vec<&'a str>, AllocError>
    ensures { IfOk result (λ names. texts names.items ≡ names_of parts.now) }
{
    let mut names = Vec::new(alloc);
    for part in parts {
        let Part::Literal(name) = part else {
            return Ok(names);
        };
        names.push(name.as_str())?;
    }
    Ok(names)
}
