//! The settings of the projects, in the plan's order.
ghost use Rattle.std.specs.Prelude.{◌≡◌, ◌++◌, None, IfOk, OnOk};
ghost use Rattle.std.specs.List.{flat_map};
ghost use Rattle.tb_config.specs.Settings.{setting_of};
ghost use Rattle.tb_plan.specs.Orders.{Tree, Visit};
ghost use Rattle.tb_plan.specs.Plans.{setting_in};
ghost use Rattle.tb_plan.specs.Statuses.{setting_by};
ghost use Rattle.tb_plan.specs.Visits.{IsVisited};

use crate::keys::member_at;
use crate::readings::Reading;
use crate::visit::{Arrangement, Visited};
use std::alloc::Global;
use tb_config::Setting;
use tb_text::NoMemory;

/// The settings in order, where there is no cycle.
pub fn settings_of(alloc: Global, visited: &Visited) -> Result<Vec<Setting>, NoMemory>
    ensures { IfOk result (λ settings. (tree : Tree) (visit : Visit) → IsVisited tree visit visited.now → visit.cycle ≡ None → settings.items ≡ flat_map (λ config. setting_in (setting_of tree config)) visit.finished) }
{
    match &visited.arrangement {
        Arrangement::Order(numbers) => {
            let readings = visited.reach.readings.as_slice();
            let settings = settings_by(alloc, readings, numbers.as_slice())?;
            Ok(settings)
        }
        Arrangement::Cycle(_) => Ok(Vec::new(alloc)),
    }
}

/// The settings of the configs of these numbers.
fn settings_by(
    alloc: Global,
    readings: &[Reading],
    numbers: &[usize],
) -> Result<Vec<Setting>, NoMemory>
    ensures { IfOk result (λ settings. settings.items ≡ flat_map (setting_by readings.now) numbers.now) }
{
    let mut settings = Vec::new(alloc);
    for number in numbers {
        add_setting(readings, *number, &mut settings)?;
    }
    Ok(settings)
}

fn add_setting(
    readings: &[Reading],
    number: usize,
    settings: &mut Vec<Setting>,
) -> Result<(), NoMemory>
    ensures { OnOk result (settings.new.items ≡ settings.old.items ++ setting_by readings.now number) }
{
    match member_at(readings, number) {
        Some(Reading::Good(setting)) => {
            settings.push(setting.clone()?)?;
            Ok(())
        }
        _ => Ok(()),
    }
}
