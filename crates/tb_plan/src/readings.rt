ghost use Rattle.std.specs.Prelude.{◌≡◌, IfOk};
ghost use Rattle.tb_config.specs.Settings.{setting_of};
ghost use Rattle.tb_plan.specs.Orders.{given_by};
ghost use Rattle.tb_plan.specs.Searches.{reads};

use std::alloc::Global;
use tb_config::{Setting, SettingFault, read_setting};
use tb_text::{Diag, List, NoMemory, Path, Texts};

/// What a config gives.
#[derive(Debug, Drop)]
pub enum Reading {
    Good(Setting),
    Faulty(List<Diag>),
}

/// Reads a config.
pub fn read(alloc: Global, tree: &Texts, config: &Path) -> Result<Reading, NoMemory>
    ensures { IfOk result (λ r. reads r ≡ setting_of tree.now config.now) }
{
    match read_setting(alloc, tree, config) {
        Ok(setting) => Ok(Reading::Good(setting)),
        Err(SettingFault::Faults(faults)) => Ok(Reading::Faulty(faults)),
        Err(SettingFault::NoMemory) => Err(NoMemory),
    }
}

/// The configs that a config references, as written; one with a fault references nothing.
pub fn references_in(reading: &Reading) -> &[Path]
    ensures { result.now ≡ given_by (reads reading.now) }
{
    match reading {
        Reading::Good(setting) => setting.references.as_slice(),
        Reading::Faulty(_) => &[],
    }
}
