ghost use Rattle.std.specs.Prelude.{◌≡◌, ◌++◌, ℕ, List, Bool, IsTrue, OnOk, OnErr};
ghost use Rattle.tb_outside.specs.Causes.{Causes, has_failed};
ghost use Rattle.tb_outside.specs.Told.{TakesFront};

use crate::Failed;

/// Where reports go.
pub trait Sink {
    /// Whether it tells what it took: a constant of the type.
    ghost tells: { Bool };

    /// The bytes that it took.
    ghost taken: { Self → List ℕ };

    /// How often it has failed.
    ghost count: { Self → ℕ };

    /// How often it has failed. The count never falls, and stays at the last value of `u64`.
    fn faults(&self) -> u64
        ensures { result ≡ count self.now };

    /// Takes the whole piece, or where it fails a prefix of it.
    fn put(&mut self, bytes: &[u8]) -> Result<(), Failed>
        ensures whole { IsTrue tells → OnOk result (taken self.new ≡ taken self.old ++ bytes.now) }
        ensures front { IsTrue tells → OnErr result (TakesFront (taken self.old) bytes.now (taken self.new)) }
        ensures cause { Causes (count self.old) (count self.new) (has_failed result) };
}
