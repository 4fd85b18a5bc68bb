ghost use Rattle.std.specs.Prelude.{All, Contains, IfOk};
ghost use Rattle.tb_graph.specs.Graphs.{AreNodes};
ghost use Rattle.tb_plan.specs.Orders.{visited};
ghost use Rattle.tb_plan.specs.Visits.{IsArrangement, IsVisited};

use crate::reach::{Reach, reached_from};
use std::alloc::Global;
use tb_graph::{OrderFault, order};
use tb_text::{List, NoMemory, Path, Texts};

/// How references put configs in order: the numbers of the configs.
#[derive(Debug, Drop)]
pub enum Arrangement {
    /// All configs, each after those that it references.
    Order(List<usize>),
    /// The first cycle that is met.
    Cycle(List<usize>),
}

/// The configs that are reached, and their order.
#[derive(Debug, Drop)]
pub struct Visited {
    pub reach: Reach,
    pub arrangement: Arrangement,
}

/// Reads all configs that are reached from the roots, and puts them in order.
pub fn visit(alloc: Global, tree: &Texts, roots: &[Path]) -> Result<Visited, NoMemory>
    ensures is { IfOk result (IsVisited tree.now (visited tree.now roots.now)) }
    ensures roots { IfOk result (λ v. All (Contains v.reach.configs.paths.items) roots.now) }
{
    let (reach, starts) = reached_from(alloc, tree, roots)?;
    let arrangement = arranged(alloc, starts.as_slice(), reach.references.as_slice())?;
    Ok(Visited { reach, arrangement })
}

/// The order of nodes, or their first cycle.
fn arranged(
    alloc: Global,
    starts: &[usize],
    references: &[List<usize>],
) -> Result<Arrangement, NoMemory>
    requires starts { AreNodes references.now starts.now }
    requires references { All (AreNodes references.now) references.now }
    ensures { IfOk result (IsArrangement references.now starts.now) }
{
    match order(alloc, starts, references) {
        Ok(order) => Ok(Arrangement::Order(order)),
        Err(OrderFault::Cycle(cycle)) => Ok(Arrangement::Cycle(cycle)),
        Err(OrderFault::NoMemory) => Err(NoMemory),
    }
}
