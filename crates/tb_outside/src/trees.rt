ghost use Rattle.std.specs.Prelude.{◌≡◌, ◌≤◌, ℕ, List, take, length, Bool, IsTrue, IfOk};
ghost use Rattle.std.specs.List.Sorted.{IsStrictlySortedBy};
ghost use Rattle.std.specs.FinMap as map;
ghost use Rattle.tb_text.specs.Bytes.{bytes_cmp};
ghost use Rattle.tb_outside.specs.Causes.{Causes, has_fault};
ghost use Rattle.tb_outside.specs.Told.{bytes_at};

use crate::Trouble;
use std::alloc::Global;
use tb_text::{List, Path, Text};

/// The files that are built, which no call here changes.
pub trait Tree {
    /// Whether it tells its files: a constant of the type.
    ghost tells: { Bool };

    /// The bytes at each path.
    ghost texts: { Self → map.FinMap bytes_cmp (List ℕ) };

    /// How often it has failed.
    ghost count: { Self → ℕ };

    /// How often it has failed. The count never falls, and stays at the last value of `u64`.
    fn faults(&self) -> u64
        ensures { result ≡ count self.now };

    /// All files, ascending, each once.
    fn list(&mut self, alloc: Global) -> Result<List<Path>, Trouble>
        ensures paths { IsTrue tells → IfOk result (λ paths. paths ≡ map.keys (texts self.old)) }
        ensures ascending { IsTrue tells → IfOk result (λ paths. IsStrictlySortedBy bytes_cmp paths) }
        ensures same { IsTrue tells → texts self.new ≡ texts self.old }
        ensures cause { Causes (count self.old) (count self.new) (has_fault result) };

    /// The first `most` bytes of a file; no bytes where it is absent.
    fn read(&mut self, alloc: Global, path: &Path, most: u64) -> Result<Text, Trouble>
        ensures text { IsTrue tells → IfOk result (λ text. text ≡ take most (bytes_at (texts self.old) path.now)) }
        ensures short { IfOk result (λ text. length text ≤ most) }
        ensures same { IsTrue tells → texts self.new ≡ texts self.old }
        ensures cause { Causes (count self.old) (count self.new) (has_fault result) };
}
