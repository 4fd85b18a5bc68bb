//! What is wrong in a config, as it is found.
ghost use Rattle.std.specs.Prelude.{◌≡◌, ◌++◌, [], ◌∷◌, OnOk, is_none};
ghost use Rattle.tb_options.specs.Members.{named};
ghost use Rattle.tb_options.specs.Options.{fault, unless, astray};
ghost use Rattle.tb_text.specs.Walks.{texts};

use crate::texts::TextOf;
use std::alloc::Global;
use tb_text::{Name, NoMemory, Path};

/// A fault of a config.
#[derive(Debug, Drop)]
pub struct Fault {
    /// The number of its code.
    pub number: u16,
    /// The member, option, path or text that is at fault.
    pub first: Name,
}

pub fn push_fault(
    alloc: Global,
    faults: &mut Vec<Fault>,
    number: u16,
    first: &str,
) -> Result<(), NoMemory>
    ensures { OnOk result (faults.new.items ≡ faults.old.items ++ fault number first.now ∷ []) }
{
    let first = Name::copy_of(alloc, first)?;
    faults.push(Fault { number, first })?;
    Ok(())
}

/// Adds the fault, unless all is good.
pub fn push_unless(
    alloc: Global,
    faults: &mut Vec<Fault>,
    good: bool,
    number: u16,
    first: &str,
) -> Result<(), NoMemory>
    ensures { OnOk result (faults.new.items ≡ faults.old.items ++ unless good (fault number first.now)) }
{
    if good {
        return Ok(());
    }
    push_fault(alloc, faults, number, first)
}

/// Adds a fault for each text that names no path.
pub fn check_texts(
    alloc: Global,
    faults: &mut Vec<Fault>,
    kind: TextOf,
    folder: &Path,
    from: &[&str],
) -> Result<(), NoMemory>
    ensures { OnOk result (faults.new.items ≡ faults.old.items ++ astray kind folder.now (texts from.now)) }
{
    for text in from {
        if kind.path(alloc, folder, *text)?.is_none() {
            push_fault(alloc, faults, 5014, *text)?;
        }
    }
    Ok(())
}
