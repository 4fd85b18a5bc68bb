//! How many `extends` are on the longest chain.
ghost use Rattle.std.specs.Prelude.{◌≡◌, ◌||◌, ℕ, List as Members, [], ◌∷◌, IfOk, OnOk};
ghost use Rattle.std.specs.BTreeSet.{contains};
ghost use Rattle.std.specs.List.{flat_map};
ghost use Rattle.tb_config.specs.Bases.{bases_at};
ghost use Rattle.tb_config.specs.Seen.{AreRead, IsKept};
ghost use Rattle.tb_config.specs.Walks.{is_in, longest};
ghost use Rattle.tb_text.specs.Bytes.{bytes_cmp};

use crate::configs::Config;
use crate::walks::bases_at;
use std::alloc::Global;
use std::collections::{BTreeMap, BTreeSet};
use tb_text::{List, NoMemory, Path, Texts};

/// How often one can go on from the config at a path to a base, at most `count` times.
pub fn longest(
    alloc: Global,
    tree: &Texts,
    configs: &mut BTreeMap<Path, Config>,
    count: usize,
    path: &Path,
) -> Result<u64, NoMemory>
    requires { AreRead tree.now configs.old }
    ensures longest { IfOk result (λ chain. chain ≡ longest (bases_at tree.now) count (path.now ∷ [])) }
    ensures read { OnOk result (AreRead tree.now configs.new) }
    ensures kept { OnOk result ((p : Members ℕ) → IsKept configs.old p → IsKept configs.new p) }
{
    let mut level = BTreeSet::new(alloc);
    level.insert(path.clone()?)?;
    let mut chain: u64 = 0;
    for i in 0..count {
        let next = bases_of(alloc, tree, configs, &level)?;
        if next.is_empty() {
            return Ok(chain);
        }
        level = next;
        chain += 1;
    }
    Ok(chain)
}

/// The bases of all these configs.
fn bases_of(
    alloc: Global,
    tree: &Texts,
    configs: &mut BTreeMap<Path, Config>,
    level: &BTreeSet<Path>,
) -> Result<BTreeSet<Path>, NoMemory>
    requires { AreRead tree.now configs.old }
    ensures bases { IfOk result (λ bases. (p : Members ℕ) → contains bytes_cmp bases p ≡ is_in (flat_map (bases_at tree.now) level.now.keys) p) }
    ensures read { OnOk result (AreRead tree.now configs.new) }
    ensures kept { OnOk result ((p : Members ℕ) → IsKept configs.old p → IsKept configs.new p) }
{
    let mut all = BTreeSet::new(alloc);
    for path in level {
        let bases = bases_at(alloc, tree, configs, path)?;
        insert_all(&mut all, bases)?;
    }
    Ok(all)
}

fn insert_all(all: &mut BTreeSet<Path>, paths: List<Path>) -> Result<(), NoMemory>
    ensures { OnOk result ((p : Members ℕ) → contains bytes_cmp all.new p ≡ (contains bytes_cmp all.old p || is_in paths p)) }
{
    for path in paths.into_vec() {
        all.insert(path)?;
    }
    Ok(())
}
