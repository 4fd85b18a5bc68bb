ghost use Rattle.std.specs.Prelude.{◌≡◌, ℕ, Bool, IsTrue, IfOk, IsErrOf};
ghost use Rattle.tb_outside.specs.Causes.{Causes, has_fault};

use crate::Trouble;
use std::alloc::Global;
use tb_text::{List, Path, Text};

/// What becomes of a file.
#[derive(Clone, Debug, PartialEq, Eq, Drop)]
pub enum Change {
    /// It has this text from now on.
    Put(Text),
    /// It is absent from now on.
    Gone,
}

/// A change of one file.
#[derive(Clone, Debug, PartialEq, Eq, Drop)]
pub struct Edit {
    pub path: Path,
    pub change: Change,
}

/// What a feed answers.
#[derive(Clone, Debug, Drop)]
pub enum Turn {
    /// Edits, which are applied together and in order.
    Batch(List<Edit>),
    /// Nothing changed for now.
    Quiet,
    /// Nothing will change any more.
    End,
}

/// Where the edits of a watched tree come from.
pub trait Feed {
    ghost use Rattle.std.specs.Prelude.{List};
    ghost use Rattle.tb_outside.specs.declared.feeds.Turn.{Turn};
    ghost use Rattle.tb_outside.specs.Told.{TakesTurn};

    /// Whether it tells its turns: a constant of the type.
    ghost tells: { Bool };

    /// The turns that are left.
    ghost turns: { Self → List Turn };

    /// How often it has failed.
    ghost count: { Self → ℕ };

    /// How often it has failed. The count never falls, and stays at the last value of `u64`.
    fn faults(&self) -> u64
        ensures { result ≡ count self.now };

    /// The next turn; `End` where none is left. A call that failed says nothing of what is left.
    fn next(&mut self, alloc: Global) -> Result<Turn, Trouble>
        ensures first { IsTrue tells → IfOk result (λ turn. TakesTurn (turns self.old) turn (turns self.new)) }
        ensures refused { IsTrue tells → IsErrOf result Trouble.NoMemory → turns self.new ≡ turns self.old }
        ensures cause { Causes (count self.old) (count self.new) (has_fault result) };
}
