ghost use Rattle.std.specs.Prelude.{◌≡◌, ◌<◌, length, IfOk, OnOk, [], ◌∷◌};
ghost use Rattle.tb_plan.specs.Searches.{path_at, IsNumbering, AreNumbers, Grew};

use std::alloc::Global;
use std::collections::BTreeMap;
use tb_text::{List, NoMemory, Path};

/// Paths, each once, with the number of each: its place.
#[derive(Debug, Drop)]
pub struct Numbers {
    pub paths: Vec<Path>,
    pub numbers: BTreeMap<Path, usize>,
}

impl Numbers {
    pub fn new(alloc: Global) -> Numbers
        ensures paths { result.paths.items ≡ [] }
        ensures numbered { IsNumbering result.paths.items result.numbers }
    {
        Numbers {
            paths: Vec::new(alloc),
            numbers: BTreeMap::new(alloc),
        }
    }

    /// The number of a path, which is the next one where the path is new.
    pub fn number(&mut self, path: &Path) -> Result<usize, NoMemory>
        requires { IsNumbering self.old.paths.items self.old.numbers }
        ensures numbered { OnOk result (IsNumbering self.new.paths.items self.new.numbers) }
        ensures grew { OnOk result (Grew self.old.paths.items self.new.paths.items (path.now ∷ [])) }
        ensures within { IfOk result (λ n. n < length self.new.paths.items) }
        ensures is { IfOk result (λ n. path_at self.new.paths.items n ≡ path.now) }
    {
        if let Some(number) = self.numbers.get(path) {
            return Ok(*number);
        }
        let number = self.paths.len();
        self.numbers.insert(path.clone()?, number)?;
        self.paths.push(path.clone()?)?;
        Ok(number)
    }

    /// The numbers of paths, one after the other.
    pub fn number_all(&mut self, alloc: Global, paths: &[Path]) -> Result<List<usize>, NoMemory>
        requires { IsNumbering self.old.paths.items self.old.numbers }
        ensures numbered { OnOk result (IsNumbering self.new.paths.items self.new.numbers) }
        ensures grew { OnOk result (Grew self.old.paths.items self.new.paths.items paths.now) }
        ensures are { IfOk result (λ numbers. AreNumbers self.new.paths.items numbers paths.now) }
    {
        let mut numbers = Vec::new(alloc);
        for path in paths {
            numbers.push(self.number(path)?)?;
        }
        Ok(List::from_vec(numbers))
    }
}
