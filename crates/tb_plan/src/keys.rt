//! Values in order, each once; members by number; and numbers by path.
ghost use Rattle.std.specs.Prelude.{◌≡◌, [], ◌∷◌, ◌++◌, cond, fold, slice_get, IfOk, OnOk, List as Members, ℕ};
ghost use Rattle.std.specs.BTreeMap.{is_at};
ghost use Rattle.std.specs.BTreeSet.{insert_key};
ghost use Rattle.std.specs.Option.{option_copied};
ghost use Rattle.tb_text.specs.Bytes.{bytes_cmp};
ghost use Rattle.tb_plan.specs.Owners.{owners_at};

use std::alloc::Global;
use std::collections::{BTreeMap, BTreeSet};
use tb_text::{List, NoMemory, Path};

/// These values, ascending and each once.
pub fn ascending<K: Ord + Drop>(alloc: Global, values: Vec<K>) -> Result<Vec<K>, NoMemory>
    ensures { IfOk result (λ v. v.items ≡ fold (insert_key K.cmp) [] values.items) }
{
    let mut keys = BTreeSet::new(alloc);
    for value in values {
        keys.insert(value)?;
    }
    Ok(keys.into_iter().collect(alloc)?)
}

/// The member of this number, if there is one.
pub fn member_at<X>(members: &[X], number: usize) -> Option<&X>
    ensures { option_copied result ≡ slice_get members.now number }
{
    members.get(number)
}

/// Adds a number to those that are kept for a path.
pub fn add_number(
    alloc: Global,
    path: &Path,
    number: usize,
    numbers: &mut BTreeMap<Path, List<usize>>,
) -> Result<(), NoMemory>
    ensures { OnOk result ((q : Members ℕ) → owners_at numbers.new q ≡ cond (is_at (bytes_cmp path.now) q) (owners_at numbers.old path.now ++ number ∷ []) (owners_at numbers.old q)) }
{
    if let Some(kept) = numbers.get_mut(path) {
        return kept.push(number);
    }
    let mut kept = List::new(alloc);
    kept.push(number)?;
    numbers.insert(path.clone()?, kept)?;
    Ok(())
}

/// The numbers that are kept for a path.
pub fn numbers_at<'a>(numbers: &'a BTreeMap<Path, List<usize>>, path: &Path) -> &'a [usize]
    ensures { result.now ≡ owners_at numbers.now path.now }
{
    match numbers.get(path) {
        Some(kept) => kept.as_slice(),
        None => &[],
    }
}
