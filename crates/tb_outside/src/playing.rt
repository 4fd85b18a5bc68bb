ghost use Rattle.std.specs.Prelude.{◌≡◌, ℕ, ◌≤◌, ◌<◌, List, IsTrue, OnOk, OnErr, All};
ghost use Rattle.tb_outside.specs.Causes.{Causes, has_failed};
ghost use Rattle.tb_outside.specs.Disk.{Same, read_after, read_after_all, left_after, left_after_all};
ghost use Rattle.tb_outside.specs.Moments.{Within, Elapses};
ghost use Rattle.tb_outside.specs.Playing.{AfterSome, BeforeOrAfter, IsElsewhere, StopsAt};

use crate::{Disk, DiskStep, Failed};

/// Does the steps in order, up to the first that fails.
pub fn play<D: Disk>(disk: &mut D, steps: &[DiskStep]) -> Result<(), Failed>
    ensures done { IsTrue D.tells → OnOk result (Same (read_after_all steps.now (D.reads disk.old)) (D.reads disk.new)) }
    ensures now { IsTrue D.tells → OnOk result (Within (left_after_all steps.now (D.reads disk.old) (D.left disk.old (D.clock disk.old))) (D.left disk.new (D.clock disk.new))) }
    ensures any_moment { IsTrue D.tells → (k : ℕ) → D.clock disk.old ≤ k → k ≤ D.clock disk.new
        → AfterSome steps.now (D.reads disk.old) (D.left disk.old (D.clock disk.old)) (D.left disk.new k) }
    // Where it fails, the steps before the one that failed were done.
    ensures stopped { IsTrue D.tells → OnErr result (StopsAt steps.now (D.reads disk.old) (D.reads disk.new)) }
    // Whatever it answers, a path that no step names reads as before.
    ensures others { IsTrue D.tells → (q : List ℕ) → All (IsElsewhere q) steps.now → D.reads disk.new q ≡ D.reads disk.old q }
    ensures time { Elapses (D.clock disk.old) (D.clock disk.new) (D.left disk.old) (D.left disk.new) }
    ensures cause { Causes (D.count disk.old) (D.count disk.new) (has_failed result) }
{
    for step in steps {
        do_step(disk, step)?;
    }
    Ok(())
}

fn do_step<D: Disk>(disk: &mut D, step: &DiskStep) -> Result<(), Failed>
    ensures done { IsTrue D.tells → OnOk result (Same (read_after step.now (D.reads disk.old)) (D.reads disk.new)) }
    ensures now { IsTrue D.tells → OnOk result (Within (left_after step.now (D.reads disk.old) (D.left disk.old (D.clock disk.old))) (D.left disk.new (D.clock disk.new))) }
    ensures any_moment { IsTrue D.tells → (k : ℕ) → D.clock disk.old < k → k ≤ D.clock disk.new
        → BeforeOrAfter step.now (D.reads disk.old) (D.left disk.old (D.clock disk.old)) (D.left disk.new k) }
    ensures others { IsTrue D.tells → (q : List ℕ) → IsElsewhere q step.now → D.reads disk.new q ≡ D.reads disk.old q }
    ensures time { Elapses (D.clock disk.old) (D.clock disk.new) (D.left disk.old) (D.left disk.new) }
    ensures cause { Causes (D.count disk.old) (D.count disk.new) (has_failed result) }
{
    match step {
        DiskStep::Write(path, text) => disk.write(path, text.as_slice()),
        DiskStep::Rename(from, to) => disk.rename(from, to),
        DiskStep::Remove(path) => disk.remove(path),
        DiskStep::Sync => disk.sync(),
    }
}
