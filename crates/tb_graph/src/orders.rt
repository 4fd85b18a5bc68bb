ghost use Rattle.std.specs.Prelude.{◌≡◌, [], length, All, IfOk, IfErr, OnOk, ℕ, List as Members};
ghost use Rattle.tb_graph.specs.Graphs.{AreNodes, IsOrder, IsCycle};
ghost use Rattle.tb_graph.specs.Visits.{Outcome, Ordered, Cyclic, Visits, Answers, OfCycle};

use crate::visits::Visit;
use std::alloc::{AllocError, AllocFailed, Global};
use tb_text::{List, NoMemory};
use thiserror::Error;

/// Why nodes have no order.
#[derive(Clone, Debug, PartialEq, Drop, Error)]
pub enum OrderFault {
    /// The first cycle that the visit met: each node references the next, and the last one the first.
    #[error("the references form a cycle")]
    Cycle(List<usize>),
    #[error("out of memory")]
    NoMemory,
}

/// The depth-first post-order of all that is reached from the roots: roots as given, references as written, each node
/// once, after all that it references. `refs` has the references of each node. The work and the memory are linear in
/// the nodes and references.
pub fn order(
    alloc: Global,
    roots: &[usize],
    refs: &[List<usize>],
) -> Result<List<usize>, OrderFault>
    requires roots { AreNodes refs.now roots.now }
    requires refs { All (AreNodes refs.now) refs.now }
    ensures order { IfOk result (λ order. Visits refs.now [] [] roots.now (Ordered order)) }
    ensures cycle { IfErr result (OfCycle (λ cycle. Visits refs.now [] [] roots.now (Cyclic cycle))) }
    ensures only { (outcome : Outcome) → Visits refs.now [] [] roots.now outcome → Answers result outcome }
    ensures is_order { IfOk result (IsOrder refs.now roots.now) }
    ensures is_cycle { IfErr result (OfCycle (IsCycle refs.now roots.now)) }
    ensures no_cycle { OnOk result ((cycle : Members ℕ) → ¬ IsCycle refs.now roots.now cycle) }
{
    let mut visit = Visit::new(alloc, refs.len())?;
    for root in roots {
        visit.visit(alloc, refs, *root)?;
    }
    Ok(List::from_vec(visit.into_finished()))
}

impl From<AllocError> for OrderFault {
    ghost use Rattle.tb_graph.specs.declared.orders.OrderFault.TheVariants.{NoMemory};

    ghost from_gives = { λ _ e. e ≡ NoMemory };

    fn from(_: AllocError) -> Self {
        OrderFault::NoMemory
    }
}

impl<T: Drop> From<AllocFailed<T>> for OrderFault {
    ghost use Rattle.tb_graph.specs.declared.orders.OrderFault.TheVariants.{NoMemory};

    ghost from_gives = { λ _ e. e ≡ NoMemory };

    fn from(_: AllocFailed<T>) -> Self {
        OrderFault::NoMemory
    }
}
