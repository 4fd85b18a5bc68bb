ghost use Rattle.std.specs.Prelude.{◌≡◌, ◌⊎◌, ℕ, [], List, Some, IfErr, IsTrue, OnOk, is_err};
ghost use Rattle.tb_outside.specs.Causes.{Causes};
ghost use Rattle.tb_outside.specs.Disk.{Same, read_after_all};
ghost use Rattle.tb_outside.specs.Moments.{Within};
ghost use Rattle.tb_session.specs.Publishes.{FailsAt, Publishes, steps_of};

use crate::ended::Ended;
use std::alloc::Global;
use tb_outside::{Disk, DiskStep, Sink, play};
use tb_text::{List, Path, Status, Text, Which};

/// What is done on the disk for one project.
#[derive(Drop)]
pub struct Script {
    /// The project's config, which is named where a call fails.
    pub config: Path,
    pub steps: List<DiskStep>,
}

/// A generation that is ready: what is done on the disk and printed then. All memory that this needs was taken.
#[derive(Drop)]
pub struct Publication {
    /// In plan order.
    pub scripts: List<Script>,
    pub report: Text,
    /// The status of the generation.
    pub status: Status,
    /// The list of the one generation.
    pub settled: List<u64>,
    /// How many inputs there are.
    pub checked: u64,
    /// How many projects have inputs.
    pub built: u64,
}

/// A run that stopped before it settled anything.
pub fn stopped<D, F, O>(alloc: Global, status: Status, disk: D, feed: F, out: O) -> Ended<D, F, O>
    ensures { result ≡ record { status = status; settled = []; checked = 0; built = 0; disk = disk; feed = feed; out = out } }
{
    Ended {
        status,
        settled: List::new(alloc),
        checked: 0,
        built: 0,
        disk,
        feed,
        out,
    }
}

// Does all scripts in order, and has what was written stay. Where a call fails, the config of its project is told.
fn write_all<D: Disk>(disk: &mut D, scripts: List<Script>) -> Result<(), Path>
    ensures done { IsTrue D.tells → OnOk result (Same (read_after_all (steps_of scripts) (D.reads disk.old)) (D.reads disk.new)) }
    ensures stays { IsTrue D.tells → OnOk result ((scripts ≡ []) ⊎ Within (λ q content. content ≡ D.reads disk.new q) (D.left disk.new (D.clock disk.new))) }
    ensures failed { IfErr result (λ config. FailsAt D.tells scripts config (D.reads disk.old) (D.reads disk.new)) }
    ensures cause { Causes (D.count disk.old) (D.count disk.new) (is_err result) }
{
    let mut last = None;
    for script in scripts.into_vec() {
        let Script { config, steps } = script;
        if play(disk, steps.as_slice()).is_err() {
            return Err(config);
        }
        last = Some(config);
    }
    match last {
        Some(config) => match disk.sync() {
            Ok(()) => Ok(()),
            Err(_) => Err(config),
        },
        None => Ok(()),
    }
}

/// Writes all outputs, and then prints the report.
pub fn publish<D: Disk, F, O: Sink>(
    alloc: Global,
    publication: Publication,
    mut disk: D,
    feed: F,
    mut out: O,
) -> Ended<D, F, O>
    ensures published { Publishes D.tells O.tells publication
        (record { files = D.reads disk; printed = O.taken out; disk_count = D.count disk; sink_count = O.count out })
        (record { files = D.reads result.disk; printed = O.taken result.out; disk_count = D.count result.disk; sink_count = O.count result.out })
        (record { status = result.status; settled = result.settled; checked = result.checked; built = result.built }) }
    ensures stays { IsTrue D.tells → ((config : List ℕ) → result.status ≡ Status.Outside Which.Disk (Some config) → ⊥)
        → (publication.scripts ≡ []) ⊎ Within (λ q content. content ≡ D.reads result.disk q) (D.left result.disk (D.clock result.disk)) }
    ensures feed { result.feed ≡ feed }
{
    let Publication {
        scripts,
        report,
        status,
        settled,
        checked,
        built,
    } = publication;
    if let Err(config) = write_all(&mut disk, scripts) {
        let status = Status::Outside {
            which: Which::Disk,
            project: Some(config),
        };
        return stopped(alloc, status, disk, feed, out);
    }
    if out.put(report.as_slice()).is_err() {
        return Ended {
            status: Status::Outside {
                which: Which::Sink,
                project: None,
            },
            settled: List::new(alloc),
            checked,
            built,
            disk,
            feed,
            out,
        };
    }
    Ended {
        status,
        settled,
        checked,
        built,
        disk,
        feed,
        out,
    }
}
