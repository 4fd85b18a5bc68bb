ghost use Rattle.std.specs.Prelude.{◌≡◌};
ghost use Rattle.std.specs.Ordering.{is_lt};
ghost use Rattle.tb_text.specs.Findings.{code_cmp, diag_cmp, finding_cmp};

use crate::{Name, Path};

/// The code of a kind of finding: a number that TypeScript also gives to this kind of fault, or, where `own` is
/// true, one of this project's own. The first ones come before the others, then the number decides.
#[derive(Clone, Copy, Debug, PartialEq, Eq, PartialOrd, Ord)]
pub struct Code {
    pub own: bool,
    pub number: u16,
}

/// Something wrong at a place of a file. Findings are ordered by their place, then by code, then by arguments.
#[derive(Clone, Debug, PartialEq, Eq, PartialOrd, Ord, Drop)]
pub struct Finding {
    /// Where in the file, in bytes, from the byte after a byte order mark.
    pub offset: u64,
    pub code: Code,
    /// What stands for `{1}` in the text of the code.
    pub first: Name,
    /// What stands for `{2}` in the text of the code.
    pub second: Name,
}

/// A finding in a file of a project. Diagnostics are ordered by project, then by path, then by finding.
#[derive(Clone, Debug, PartialEq, Eq, PartialOrd, Ord, Drop)]
pub struct Diag {
    /// The place of the project in the plan's order.
    pub project: u32,
    pub path: Path,
    pub finding: Finding,
}

impl Code {
    /// Whether findings with this code stand before those with the other, at one place.
    pub fn is_before(&self, other: &Code) -> bool
        ensures { result ≡ is_lt (code_cmp self.now other.now) }
    {
        self < other
    }
}

impl Finding {
    /// Whether this finding stands before the other.
    pub fn is_before(&self, other: &Finding) -> bool
        ensures { result ≡ is_lt (finding_cmp self.now other.now) }
    {
        self < other
    }
}

impl Diag {
    /// Whether this diagnostic is reported before the other.
    pub fn is_before(&self, other: &Diag) -> bool
        ensures { result ≡ is_lt (diag_cmp self.now other.now) }
    {
        self < other
    }
}
