//! The status of a run whose plan has faults.
ghost use Rattle.std.specs.Prelude.{◌≡◌};
ghost use Rattle.std.specs.List.{list_any};
ghost use Rattle.tb_plan.specs.Plans.{is_lost_by};
ghost use Rattle.tb_plan.specs.Statuses.{is_lost_in, status_after};

use crate::keys::member_at;
use crate::reach::Reach;
use crate::readings::Reading;
use crate::visit::{Arrangement, Visited};
use tb_text::{Diag, Path, Status};

/// The status where the configs or their order have faults.
pub fn status_of(visited: &Visited, roots: &[Path]) -> Status
    ensures { result ≡ status_after visited.now.reach visited.now.arrangement roots.now }
{
    match &visited.arrangement {
        Arrangement::Cycle(_) => Status::Cycle,
        Arrangement::Order(_) => {
            if some_lost(&visited.reach, roots) {
                Status::InvalidProject
            } else {
                Status::Skipped
            }
        }
    }
}

fn some_lost(reach: &Reach, roots: &[Path]) -> bool
    ensures { result ≡ list_any (is_lost_in reach.now) roots.now }
{
    for root in roots {
        if is_lost(reach, root) {
            return true;
        }
    }
    false
}

/// Whether a config is missing or unreadable.
fn is_lost(reach: &Reach, root: &Path) -> bool
    ensures { result ≡ is_lost_in reach.now root.now }
{
    let Some(number) = reach.configs.numbers.get(root) else {
        return false;
    };
    match member_at(reach.readings.as_slice(), *number) {
        Some(Reading::Faulty(faults)) => some_loss(root, faults.as_slice()),
        _ => false,
    }
}

fn some_loss(config: &Path, faults: &[Diag]) -> bool
    ensures { result ≡ list_any (is_lost_by config.now) faults.now }
{
    for fault in faults {
        if is_loss(config, fault) {
            return true;
        }
    }
    false
}

/// Whether the fault says that the config itself is missing or unreadable.
fn is_loss(config: &Path, fault: &Diag) -> bool
    ensures { result ≡ is_lost_by config.now fault.now }
{
    let code = fault.finding.code;
    fault.path == *config && code.own && (code.number == 5001 || code.number == 5002)
}
