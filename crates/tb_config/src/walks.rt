//! From a config to its bases and to theirs, depth first.
ghost use Rattle.std.specs.Prelude.{◌≡◌, ◌<◌, ◌++◌, [], ◌∷◌, ℕ, true, Some, List as Members, reverse, All, IfOk, OnOk};
ghost use Rattle.tb_config.specs.Bases.{bases_at};
ghost use Rattle.tb_config.specs.Seen.{AreRead, IsKept};
ghost use Rattle.tb_config.specs.Stacks.{GoesOn, IsSound, effort, found, steps_of, steps_to, taken};
ghost use Rattle.tb_config.specs.Walks.{Walk as Found, walk_from};
ghost use Rattle.std.specs.BTreeMap as map;
ghost use Rattle.std.specs.BTreeSet.{UpdatesBy};
ghost use Rattle.std.specs.FinMap as tree_map;
ghost use Rattle.tb_text.specs.Bytes.{bytes_cmp};

use crate::configs::Config;
use std::alloc::Global;
use std::collections::{BTreeMap, BTreeSet};
use tb_text::{List, NoMemory, Path, Texts};

/// The order in which the bases of a config are met.
#[derive(Clone, Copy, Debug)]
pub enum Order {
    AsWritten,
    LastFirst,
}

/// A config whose bases are being met.
#[derive(Drop)]
pub struct Frame {
    pub path: Path,
    /// The bases that are left, of which the next one stands last.
    pub left: Vec<Path>,
}

/// A walk that was begun.
#[derive(Drop)]
pub struct Walk {
    /// The configs that were entered, in order.
    pub entered: Vec<Path>,
    /// The configs that were met on the way down from themselves.
    pub circles: Vec<Path>,
    /// The configs that were entered.
    pub known: BTreeSet<Path>,
    /// The configs of the frames.
    pub opened: BTreeSet<Path>,
    /// Each from the one before it.
    pub frames: Vec<Frame>,
}

/// The walk from the config at this path. Each config is read where none is kept at its path yet.
pub fn walk_from(
    alloc: Global,
    tree: &Texts,
    configs: &mut BTreeMap<Path, Config>,
    order: Order,
    path: &Path,
) -> Result<Walk, NoMemory>
    requires { AreRead tree.now configs.old }
    ensures found { IfOk result (λ walk. found walk ≡ walk_from (taken order tree.now) (tree_map.keys tree.now) path.now) }
    ensures read { OnOk result (AreRead tree.now configs.new) }
    ensures kept { IfOk result (λ walk. All (IsKept configs.new) walk.entered.items) }
{
    let mut walk = Walk::new(alloc);
    walk.meet(alloc, tree, configs, order, path.clone()?)?;
    while let Some(frame) = walk.frames.pop() {
        walk.step(alloc, tree, configs, order, frame)?;
    }
    Ok(walk)
}

impl Walk {
    fn new(alloc: Global) -> Walk
        ensures found { found result ≡ record { entered = []; circles = [] } }
        ensures frames { result.frames.items ≡ [] }
        ensures sound { IsSound result.known result.opened [] [] }
    {
        Walk {
            entered: Vec::new(alloc),
            circles: Vec::new(alloc),
            known: BTreeSet::new(alloc),
            opened: BTreeSet::new(alloc),
            frames: Vec::new(alloc),
        }
    }

    /// Goes on at the innermost frame, which was taken off: meets its next base, or leaves its config.
    fn step(
        &mut self,
        alloc: Global,
        tree: &Texts,
        configs: &mut BTreeMap<Path, Config>,
        order: Order,
        frame: Frame,
    ) -> Result<(), NoMemory>
        requires sound { IsSound self.old.known self.old.opened self.old.entered.items (self.old.frames.items ++ frame ∷ []) }
        requires read { AreRead tree.now configs.old }
        requires kept { All (IsKept configs.old) self.old.entered.items }
        ensures goes { OnOk result ((end : Found) → GoesOn order tree.now (found self.old) (steps_of (self.old.frames.items ++ frame ∷ [])) end → GoesOn order tree.now (found self.new) (steps_of self.new.frames.items) end) }
        ensures less { OnOk result (effort order tree.now self.new.entered.items (steps_of self.new.frames.items) self.new.frames.items < effort order tree.now self.old.entered.items (steps_of (self.old.frames.items ++ frame ∷ [])) (self.old.frames.items ++ frame ∷ [])) }
        ensures sound { OnOk result (IsSound self.new.known self.new.opened self.new.entered.items self.new.frames.items) }
        ensures read { OnOk result (AreRead tree.now configs.new) }
        ensures kept { OnOk result (All (IsKept configs.new) self.new.entered.items) }
    {
        let Frame { path, mut left } = frame;
        match left.pop() {
            Some(base) => {
                self.frames.push(Frame { path, left })?;
                self.meet(alloc, tree, configs, order, base)
            }
            None => {
                self.opened.remove(&path);
                Ok(())
            }
        }
    }

    /// Notes a circle, passes over a config that was entered, or enters it.
    fn meet(
        &mut self,
        alloc: Global,
        tree: &Texts,
        configs: &mut BTreeMap<Path, Config>,
        order: Order,
        path: Path,
    ) -> Result<(), NoMemory>
        requires sound { IsSound self.old.known self.old.opened self.old.entered.items self.old.frames.items }
        requires read { AreRead tree.now configs.old }
        requires kept { All (IsKept configs.old) self.old.entered.items }
        ensures goes { OnOk result ((end : Found) → GoesOn order tree.now (found self.old) (steps_to path self.old.frames.items) end → GoesOn order tree.now (found self.new) (steps_of self.new.frames.items) end) }
        ensures less { OnOk result (effort order tree.now self.new.entered.items (steps_of self.new.frames.items) self.new.frames.items < effort order tree.now self.old.entered.items (steps_to path self.old.frames.items) self.old.frames.items) }
        ensures sound { OnOk result (IsSound self.new.known self.new.opened self.new.entered.items self.new.frames.items) }
        ensures read { OnOk result (AreRead tree.now configs.new) }
        ensures kept { OnOk result (All (IsKept configs.new) self.new.entered.items) }
    {
        if self.opened.contains(&path) {
            self.circles.push(path)?;
            return Ok(());
        }
        if self.known.contains(&path) {
            return Ok(());
        }
        let left = left_first(alloc, tree, configs, order, &path)?;
        self.enter(path, left)?;
        Ok(())
    }

    /// Enters a config with these bases to be met.
    fn enter(&mut self, path: Path, left: Vec<Path>) -> Result<(), NoMemory>
        ensures entered { OnOk result (self.new.entered.items ≡ self.old.entered.items ++ path ∷ []) }
        ensures circles { OnOk result (self.new.circles.items ≡ self.old.circles.items) }
        ensures known { OnOk result (UpdatesBy bytes_cmp (bytes_cmp path) self.old.known self.new.known true) }
        ensures opened { OnOk result (UpdatesBy bytes_cmp (bytes_cmp path) self.old.opened self.new.opened true) }
        ensures frames { OnOk result (self.new.frames.items ≡ self.old.frames.items ++ record { path = path; left = left } ∷ []) }
    {
        self.entered.push(path.clone()?)?;
        self.known.insert(path.clone()?)?;
        self.opened.insert(path.clone()?)?;
        self.frames.push(Frame { path, left })?;
        Ok(())
    }
}

/// The bases of the config at a path, of which the one to be met first stands last. The config is kept.
fn left_first(
    alloc: Global,
    tree: &Texts,
    configs: &mut BTreeMap<Path, Config>,
    order: Order,
    path: &Path,
) -> Result<Vec<Path>, NoMemory>
    requires { AreRead tree.now configs.old }
    ensures left { IfOk result (λ left. reverse left.items ≡ taken order tree.now path.now) }
    ensures read { OnOk result (AreRead tree.now configs.new) }
    ensures here { OnOk result (IsKept configs.new path.now) }
    ensures kept { OnOk result ((p : Members ℕ) → IsKept configs.old p → IsKept configs.new p) }
{
    let mut bases = bases_at(alloc, tree, configs, path)?.into_vec();
    if let Order::AsWritten = order {
        bases.as_mut_slice().reverse();
    }
    Ok(bases)
}

/// The bases of the config at a path, which is read where none is kept there yet, and kept.
pub fn bases_at(
    alloc: Global,
    tree: &Texts,
    configs: &mut BTreeMap<Path, Config>,
    path: &Path,
) -> Result<List<Path>, NoMemory>
    requires { AreRead tree.now configs.old }
    ensures bases { IfOk result (λ bases. bases ≡ bases_at tree.now path.now) }
    ensures read { OnOk result (AreRead tree.now configs.new) }
    ensures here { OnOk result (IsKept configs.new path.now) }
    ensures kept { OnOk result ((p : Members ℕ) → IsKept configs.old p → IsKept configs.new p) }
{
    if let Some(config) = configs.get(path) {
        return config.bases(alloc);
    }
    let config = Config::read(alloc, tree, path)?;
    let bases = config.bases(alloc)?;
    keep(configs, path, config)?;
    Ok(bases)
}

fn keep(configs: &mut BTreeMap<Path, Config>, path: &Path, config: Config) -> Result<(), NoMemory>
    ensures { OnOk result (map.UpdatesBy bytes_cmp (bytes_cmp path.now) configs.old configs.new (Some config)) }
{
    configs.insert(path.clone()?, config)?;
    Ok(())
}
