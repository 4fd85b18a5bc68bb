ghost use Rattle.std.specs.Prelude.{◌≡◌, ◌++◌, IfOk, OnOk};
ghost use Rattle.tb_plan.specs.Faults.{fault_at, fault_if, own_fault, kept_fault, in_order};

use crate::keys::ascending;
use std::alloc::Global;
use tb_text::{Code, Diag, Finding, List, Name, NoMemory, Path};

/// A fault of a kind of this project's own, about a member, a path or a limit.
pub fn own_fault(alloc: Global, config: &Path, number: u16, first: &str) -> Result<Diag, NoMemory>
    ensures { IfOk result (λ d. d ≡ own_fault config.now number first.now) }
{
    let code = Code { own: true, number };
    fault_at(alloc, config, code, first)
}

/// A fault of a kind that the TypeScript compiler has too.
pub fn kept_fault(alloc: Global, config: &Path, number: u16, first: &str) -> Result<Diag, NoMemory>
    ensures { IfOk result (λ d. d ≡ kept_fault config.now number first.now) }
{
    let code = Code { own: false, number };
    fault_at(alloc, config, code, first)
}

fn fault_at(alloc: Global, config: &Path, code: Code, first: &str) -> Result<Diag, NoMemory>
    ensures { IfOk result (λ d. d ≡ fault_at config.now code first.now) }
{
    let path = config.clone()?;
    let first = Name::copy_of(alloc, first)?;
    let second = Name::from_string(String::new(alloc));
    Ok(Diag {
        project: 0,
        path,
        finding: Finding {
            offset: 0,
            code,
            first,
            second,
        },
    })
}

/// The faults in the order of diagnostics, each once.
#[tactic(auto, unfolding(crate::specs::Faults::in_order))]
pub fn in_order(alloc: Global, faults: Vec<Diag>) -> Result<List<Diag>, NoMemory>
    ensures { IfOk result (λ ds. ds ≡ in_order faults.items) }
{
    Ok(List::from_vec(ascending(alloc, faults)?))
}

/// Adds a fault of a kind of this project's own, where there is one.
pub fn add_if(
    alloc: Global,
    is_fault: bool,
    config: &Path,
    number: u16,
    first: &str,
    faults: &mut Vec<Diag>,
) -> Result<(), NoMemory>
    ensures { OnOk result (faults.new.items ≡ faults.old.items ++ fault_if is_fault config.now number first.now) }
{
    if is_fault {
        faults.push(own_fault(alloc, config, number, first)?)?;
    }
    Ok(())
}
