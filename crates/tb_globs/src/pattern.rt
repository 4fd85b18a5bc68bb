ghost use Rattle.std.specs.Prelude.{◌≡◌};
ghost use Rattle.tb_globs.specs.Globs.{is_match};
ghost use Rattle.tb_globs.specs.Patterns.{pattern_eq, pattern_partial, pattern_equiv};

use crate::UseOf;
use crate::fronts::front_of;
use crate::parts::Part;
use crate::reading::parts_at;
use crate::walk::walk;
use std::alloc::{AllocError, Global};
use std::marker::Model;
use tb_text::{List, Name, Path, PathFault};

/// A pattern of a config. Contracts see the folder that it counts from and the text that it was read from.
#[derive(Debug, Drop)]
pub struct Pattern {
    base: Path,
    text: Name,
    parts: List<Part>,
    folder: Path,
}

impl Model for Pattern {
    ghost use Rattle.std.specs.Prelude.{◌≡◌, List, ℕ};
    ghost use Rattle.tb_globs.specs.Fronts.{AreParts};

    ghost Value = { List ℕ × List ℕ };

    ghost view = { λ p. (p.base, p.text) };

    ghost invariant = { λ p. AreParts p.base p.text p.parts p.folder };
}

impl Pattern {
    ghost use Rattle.std.specs.Prelude.{◌≡◌, IfOk, IsSome, IsErrOf, IsTrue, List, None, ℕ};
    ghost use Rattle.tb_globs.specs.Fronts.{folder_of, is_within};
    ghost use Rattle.tb_globs.specs.Globs.{is_match};
    ghost use Rattle.tb_globs.specs.declared.parts.UseOf.TheVariants.{Include};
    ghost use Rattle.tb_text.specs.Paths.{joined};

    /// The pattern of a text in a config of the folder `base`.
    pub fn read(alloc: Global, base: &Path, text: &str) -> Result<Pattern, PathFault>
        ensures ok { IfOk result (λ p. p ≡ (base.now, text.now)) }
        ensures path { IfOk result (λ _. IsSome (joined base.now text.now)) }
        ensures bad { IsErrOf result PathFault.BadPath → joined base.now text.now ≡ None }
    {
        let path = base.join(alloc, text)?;
        let Ok(parts) = parts_at(alloc, base, text, &path) else {
            return Err(PathFault::NoMemory);
        };
        let Ok(text) = Name::copy_of(alloc, text) else {
            return Err(PathFault::NoMemory);
        };
        let folder = front_of(alloc, parts.as_slice())?;
        Ok(Pattern {
            base: base.clone()?,
            text,
            parts,
            folder,
        })
    }

    /// What stands in front of the first wildcard: the folder, or the one file, where `include` looks for the pattern.
    pub fn folder(&self) -> &Path
        ensures is { result.now ≡ folder_of self.now }
        ensures all { (path : List ℕ) → IsTrue (is_match self.now Include path) → IsTrue (is_within result.now path) }
    {
        &self.folder
    }
}

/// Whether a pattern of this use matches the path. In `exclude` it also matches all that lies in a folder that it matches.
pub fn matches(pattern: &Pattern, use_of: UseOf, path: &Path) -> bool
    ensures { result ≡ is_match pattern.now use_of path.now }
{
    walk(pattern.parts.as_slice(), use_of, path.as_str())
}

impl Clone for Pattern {
    ghost is_clone = { λ a b. b ≡ a };

    fn clone(&self) -> Result<Self, AllocError> {
        Ok(Pattern {
            base: self.base.clone()?,
            text: self.text.clone()?,
            parts: self.parts.clone()?,
            folder: self.folder.clone()?,
        })
    }
}

impl PartialEq for Pattern {
    ghost eq = { pattern_eq };

    ghost laws = { pattern_partial };

    fn eq(&self, other: &Pattern) -> bool {
        self.base == other.base && self.text == other.text
    }
}

impl Eq for Pattern {
    ghost laws = { pattern_equiv };
}
