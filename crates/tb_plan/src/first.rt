//! The first faults: of the configs themselves, their references and their order.
ghost use Rattle.std.specs.Prelude.{◌≡◌, ◌<◌, [], ◌∷◌, ◌++◌, map, length, All, IfOk, OnOk, string_bytes};
ghost use Rattle.std.specs.List.{filter_map, flat_map};
ghost use Rattle.std.specs.Option.{option_copied};
ghost use Rattle.tb_plan.specs.Faults.{kept_fault};
ghost use Rattle.tb_plan.specs.Members.{HasSame};
ghost use Rattle.tb_plan.specs.Orders.{Tree, Visit};
ghost use Rattle.tb_plan.specs.Plans.{config_faults, cycle_faults, first_faults, listed};
ghost use Rattle.tb_plan.specs.Searches.{path_at};
ghost use Rattle.tb_plan.specs.Visits.{IsRead, IsVisited, between, cycle_of, first_path, lacking, numbers_of, reading_faults};

use crate::faults::kept_fault;
use crate::keys::member_at;
use crate::reach::Reach;
use crate::readings::Reading;
use crate::visit::{Arrangement, Visited};
use std::alloc::Global;
use tb_text::{Diag, NoMemory, Path};

/// What is wrong with the configs that are reached, with their references and with their order.
pub fn first_faults(alloc: Global, visited: &Visited) -> Result<Vec<Diag>, NoMemory>
    ensures { IfOk result (λ faults. (tree : Tree) (visit : Visit) → IsVisited tree visit visited.now → HasSame faults.items (first_faults tree visit)) }
{
    let mut faults = config_faults(alloc, &visited.reach)?;
    let configs = visited.reach.configs.paths.as_slice();
    add_cycle_fault(alloc, configs, &visited.arrangement, &mut faults)?;
    Ok(faults)
}

fn config_faults(alloc: Global, reach: &Reach) -> Result<Vec<Diag>, NoMemory>
    ensures { IfOk result (λ faults. (tree : Tree) → IsRead tree reach.now → faults.items ≡ flat_map (config_faults tree) reach.now.configs.paths.items) }
{
    let mut faults = Vec::new(alloc);
    for number in 0..reach.configs.paths.len() {
        add_config_faults(alloc, reach, number, &mut faults)?;
    }
    Ok(faults)
}

/// The faults of the config of a number: its own, and those of its references.
fn add_config_faults(
    alloc: Global,
    reach: &Reach,
    number: usize,
    faults: &mut Vec<Diag>,
) -> Result<(), NoMemory>
    requires { number < length reach.now.configs.paths.items }
    ensures { OnOk result ((tree : Tree) → IsRead tree reach.now → faults.new.items ≡ faults.old.items ++ config_faults tree (path_at reach.now.configs.paths.items number)) }
{
    let Some(reading) = member_at(reach.readings.as_slice(), number) else {
        return Ok(());
    };
    let Some(numbers) = member_at(reach.references.as_slice(), number) else {
        return Ok(());
    };
    add_reading_faults(alloc, reach, reading, numbers.as_slice(), faults)?;
    Ok(())
}

/// The faults of a config that references the configs of these numbers.
fn add_reading_faults(
    alloc: Global,
    reach: &Reach,
    reading: &Reading,
    numbers: &[usize],
    faults: &mut Vec<Diag>,
) -> Result<(), NoMemory>
    ensures { OnOk result (faults.new.items ≡ faults.old.items ++ reading_faults reach.now reading.now numbers.now) }
{
    match reading {
        Reading::Faulty(own) => add_all(own.as_slice(), faults),
        Reading::Good(setting) => {
            if setting.solution {
                return Ok(());
            }
            add_composite_faults(alloc, reach, &setting.config, numbers, faults)
        }
    }
}

fn add_all(own: &[Diag], faults: &mut Vec<Diag>) -> Result<(), NoMemory>
    ensures { OnOk result (faults.new.items ≡ faults.old.items ++ own.now) }
{
    for fault in own {
        faults.push(fault.clone()?)?;
    }
    Ok(())
}

/// A fault for each config of these numbers that is not composite.
fn add_composite_faults(
    alloc: Global,
    reach: &Reach,
    config: &Path,
    numbers: &[usize],
    faults: &mut Vec<Diag>,
) -> Result<(), NoMemory>
    ensures { OnOk result (faults.new.items ≡ faults.old.items ++ map (kept_fault config.now 6306) (filter_map (lacking reach.now.readings.items reach.now.configs.paths.items) numbers.now)) }
{
    for number in numbers {
        add_composite_fault(alloc, reach, config, *number, faults)?;
    }
    Ok(())
}

fn add_composite_fault(
    alloc: Global,
    reach: &Reach,
    config: &Path,
    number: usize,
    faults: &mut Vec<Diag>,
) -> Result<(), NoMemory>
    ensures { OnOk result (faults.new.items ≡ faults.old.items ++ map (kept_fault config.now 6306) (filter_map (lacking reach.now.readings.items reach.now.configs.paths.items) (number ∷ []))) }
{
    match lacking(reach, number) {
        Some(path) => {
            faults.push(kept_fault(alloc, config, 6306, path.as_str())?)?;
            Ok(())
        }
        None => Ok(()),
    }
}

/// The path of a config that was read without a fault, but is not composite.
fn lacking(reach: &Reach, number: usize) -> Option<&Path>
    ensures { option_copied result ≡ lacking reach.now.readings.items reach.now.configs.paths.items number }
{
    match reach.readings.get(number) {
        Some(Reading::Good(setting)) if !setting.composite => reach.configs.paths.get(number),
        _ => None,
    }
}

/// A fault for the first cycle, at its first config.
fn add_cycle_fault(
    alloc: Global,
    configs: &[Path],
    arrangement: &Arrangement,
    faults: &mut Vec<Diag>,
) -> Result<(), NoMemory>
    ensures { OnOk result (All (λ number. number < length configs.now) (numbers_of arrangement.now) → faults.new.items ≡ faults.old.items ++ cycle_faults (cycle_of configs.now arrangement.now)) }
{
    let Arrangement::Cycle(numbers) = arrangement else {
        return Ok(());
    };
    let Some(config) = first_of(configs, numbers.as_slice()) else {
        return Ok(());
    };
    let text = listed(alloc, configs, numbers.as_slice())?;
    faults.push(kept_fault(alloc, config, 6202, text.as_str())?)?;
    Ok(())
}

fn first_of<'a>(configs: &'a [Path], numbers: &[usize]) -> Option<&'a Path>
    ensures { option_copied result ≡ first_path configs.now numbers.now }
{
    match numbers {
        [] => None,
        [first, ..] => configs.get(*first),
    }
}

/// The paths of these numbers, with `, ` between them.
fn listed(alloc: Global, configs: &[Path], numbers: &[usize]) -> Result<String, NoMemory>
    ensures { IfOk result (λ text. string_bytes text ≡ listed (map (path_at configs.now) numbers.now)) }
{
    let mut text = String::new(alloc);
    for (at, number) in numbers.iter().enumerate() {
        add_listed(&mut text, at == 0, text_at(configs, *number))?;
    }
    Ok(text)
}

fn add_listed(text: &mut String, is_first: bool, path: &str) -> Result<(), NoMemory>
    ensures { OnOk result (string_bytes text.new ≡ between is_first (string_bytes text.old) ++ path.now) }
{
    if !is_first {
        text.push_str(", ")?;
    }
    text.push_str(path)?;
    Ok(())
}

fn text_at(configs: &[Path], number: usize) -> &str
    ensures { result.now ≡ path_at configs.now number }
{
    match configs.get(number) {
        Some(path) => path.as_str(),
        None => "",
    }
}
