//! A law over the definitions.

ghost use Rattle.tb_layout.specs.Kept.{RoundsFindAll};

/// The names that the rounds find are those that occur in what the file keeps, which is the least set of its kind.
pub fn kept_names_are_least()
    ensures { RoundsFindAll }
{}
