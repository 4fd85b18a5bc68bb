ghost use Rattle.std.specs.Prelude.{◌≡◌, ◌<◌, [], IfOk, OnOk, List as Members, ℕ, length};
ghost use Rattle.tb_plan.specs.Orders.{Paths};
ghost use Rattle.tb_plan.specs.Searches.{IsNumbering, AreNumbers, IsSearch, AreReached, left};

use crate::numbers::Numbers;
use crate::readings::{Reading, read, references_in};
use std::alloc::Global;
use tb_text::{List, NoMemory, Path, Texts};

/// The configs that are reached from the roots: those that were met, of which the first ones were read.
#[derive(Debug, Drop)]
pub struct Reach {
    pub configs: Numbers,
    pub readings: Vec<Reading>,
    /// The numbers of the configs that each one references, as written.
    pub references: Vec<List<usize>>,
}

/// All configs that are reached from the roots, each read once, and the numbers of the roots.
pub fn reached_from(
    alloc: Global,
    tree: &Texts,
    roots: &[Path],
) -> Result<(Reach, List<usize>), NoMemory>
    ensures numbered { IfOk result (λ r. IsNumbering r.0.configs.paths.items r.0.configs.numbers) }
    ensures search { IfOk result (λ r. IsSearch tree.now r.0.configs.paths.items r.0.readings.items r.0.references.items) }
    ensures whole { IfOk result (λ r. length r.0.readings.items ≡ length r.0.configs.paths.items) }
    ensures reached { IfOk result (λ r. AreReached tree.now roots.now r.0.configs.paths.items) }
    ensures starts { IfOk result (λ r. AreNumbers r.0.configs.paths.items r.1 roots.now) }
{
    let mut reach = Reach::new(alloc);
    let starts = reach.configs.number_all(alloc, roots)?;
    'unread: while reach.readings.len() < reach.configs.paths.len() {
        reach.read_next(alloc, tree)?;
    }
    Ok((reach, starts))
}

impl Reach {
    fn new(alloc: Global) -> Reach
        ensures paths { result.configs.paths.items ≡ [] }
        ensures readings { result.readings.items ≡ [] }
        ensures references { result.references.items ≡ [] }
        ensures numbered { IsNumbering result.configs.paths.items result.configs.numbers }
    {
        Reach {
            configs: Numbers::new(alloc),
            readings: Vec::new(alloc),
            references: Vec::new(alloc),
        }
    }

    /// Reads the next config that was met.
    fn read_next(&mut self, alloc: Global, tree: &Texts) -> Result<(), NoMemory>
        requires numbered { IsNumbering self.old.configs.paths.items self.old.configs.numbers }
        requires search { IsSearch tree.now self.old.configs.paths.items self.old.readings.items self.old.references.items }
        requires more { length self.old.readings.items < length self.old.configs.paths.items }
        ensures numbered { OnOk result (IsNumbering self.new.configs.paths.items self.new.configs.numbers) }
        ensures search { OnOk result (IsSearch tree.now self.new.configs.paths.items self.new.readings.items self.new.references.items) }
        ensures reached { OnOk result ((roots : Paths) → AreReached tree.now roots self.old.configs.paths.items → AreReached tree.now roots self.new.configs.paths.items) }
        ensures keeps { OnOk result ((numbers : Members ℕ) (named : Paths) → AreNumbers self.old.configs.paths.items numbers named → AreNumbers self.new.configs.paths.items numbers named) }
        ensures less { OnOk result (left tree.now self.new.configs.paths.items (length self.new.readings.items) < left tree.now self.old.configs.paths.items (length self.old.readings.items)) }
    {
        let reading = read(alloc, tree, &self.configs.paths[self.readings.len()])?;
        let references = self.configs.number_all(alloc, references_in(&reading))?;
        self.readings.push(reading)?;
        self.references.push(references)?;
        Ok(())
    }
}
