ghost use Rattle.std.specs.Prelude.{◌≡◌, ◌≢◌, ℕ, ◌≤◌, Bool, List, Option, Some, None, IsTrue, IfOk, OnOk};
ghost use Rattle.tb_outside.specs.Causes.{Causes, has_failed, has_fault};

use crate::{Failed, Trouble};
use std::alloc::Global;
use tb_text::{List, Path, Text};

/// One change of a disk.
#[derive(Clone, Debug, PartialEq, Eq, Drop)]
pub enum DiskStep {
    /// The file at this path has this text.
    Write(Path, Text),
    /// The file at the first path stands at the second one instead.
    Rename(Path, Path),
    /// There is no file at this path.
    Remove(Path),
    /// What was changed so far stays, whatever happens.
    Sync,
}

/// A disk that a crash may leave without what no sync has followed.
///
/// Until a sync follows, a crash may leave any bytes or nothing at a path that was written, the old or the new content
/// at each path of a rename, and the old content or nothing at a path that was removed. After a sync it leaves what a
/// read gives. A call that fails leaves at each path that it names what a crash might have left there, and every
/// other path as it was. Moments are numbers, which a clock counts; what a crash might have left at a moment never
/// changes afterwards, so a call that changes what a crash may leave moves the clock on.
pub trait Disk {
    ghost use Rattle.tb_outside.specs.Disk.{Same, SameBut, put_at, moved, AfterWrite, AfterRename, AfterRemove, ListsFolder};
    ghost use Rattle.tb_outside.specs.Moments.{Within, EachMoment, Elapses};

    /// Whether it tells what it reads: a constant of the type.
    ghost tells: { Bool };

    /// Whether it tells what a crash may leave: a constant of the type.
    ghost tells_images: { Bool };

    /// What a read gives at each path.
    ghost reads: { Self → List ℕ → Option (List ℕ) };

    /// The moment, as a number that does not fall.
    ghost clock: { Self → ℕ };

    /// What a crash at a moment may leave at a path, whatever it leaves at others.
    ghost left: { Self → ℕ → List ℕ → Option (List ℕ) → Type 0 };

    /// How often it has failed.
    ghost count: { Self → ℕ };

    /// How often it has failed. The count never falls, and stays at the last value of `u64`.
    fn faults(&self) -> u64
        ensures { result ≡ count self.now };

    /// The text at a path, or none where it is absent.
    fn read(&mut self, alloc: Global, path: &Path) -> Result<Option<Text>, Trouble>
        ensures text { IsTrue tells → IfOk result (λ text. text ≡ reads self.old path.now) }
        ensures same { IsTrue tells → Same (reads self.old) (reads self.new) }
        ensures crash { EachMoment (clock self.old) (clock self.new) (left self.new) (left self.old (clock self.old)) }
        ensures time { Elapses (clock self.old) (clock self.new) (left self.old) (left self.new) }
        ensures cause { Causes (count self.old) (count self.new) (has_fault result) };

    /// All files inside a folder, at any depth, ascending, each once.
    fn list(&mut self, alloc: Global, folder: &Path) -> Result<List<Path>, Trouble>
        ensures paths { IsTrue tells → IfOk result (λ paths. ListsFolder folder.now (reads self.old) paths) }
        ensures same { IsTrue tells → Same (reads self.old) (reads self.new) }
        ensures crash { EachMoment (clock self.old) (clock self.new) (left self.new) (left self.old (clock self.old)) }
        ensures time { Elapses (clock self.old) (clock self.new) (left self.old) (left self.new) }
        ensures cause { Causes (count self.old) (count self.new) (has_fault result) };

    /// Puts a file at a path, in place of what stands there.
    fn write(&mut self, path: &Path, bytes: &[u8]) -> Result<(), Failed>
        ensures written { IsTrue tells → OnOk result (Same (put_at path.now (Some bytes.now) (reads self.old)) (reads self.new)) }
        ensures others { IsTrue tells → SameBut path.now (reads self.old) (reads self.new) }
        ensures crash { EachMoment (clock self.old) (clock self.new) (left self.new) (AfterWrite path.now (left self.old (clock self.old))) }
        ensures time { Elapses (clock self.old) (clock self.new) (left self.old) (left self.new) }
        ensures cause { Causes (count self.old) (count self.new) (has_failed result) };

    /// Moves a file, in place of what stands at the target. Where there is no file to move, `Ok` changes nothing.
    fn rename(&mut self, from: &Path, to: &Path) -> Result<(), Failed>
        ensures moved { IsTrue tells → OnOk result (Same (moved from.now to.now (reads self.old)) (reads self.new)) }
        ensures others { IsTrue tells → (q : List ℕ) → (q ≢ from.now) → (q ≢ to.now) → reads self.new q ≡ reads self.old q }
        ensures crash { EachMoment (clock self.old) (clock self.new) (left self.new) (AfterRename from.now to.now (left self.old (clock self.old))) }
        ensures absent { IsTrue tells → (reads self.old from.now ≡ None) → EachMoment (clock self.old) (clock self.new) (left self.new) (left self.old (clock self.old)) }
        ensures time { Elapses (clock self.old) (clock self.new) (left self.old) (left self.new) }
        ensures cause { Causes (count self.old) (count self.new) (has_failed result) };

    /// Takes a file away. `Ok` also where it is absent.
    fn remove(&mut self, path: &Path) -> Result<(), Failed>
        ensures gone { IsTrue tells → OnOk result (Same (put_at path.now None (reads self.old)) (reads self.new)) }
        ensures others { IsTrue tells → SameBut path.now (reads self.old) (reads self.new) }
        ensures crash { EachMoment (clock self.old) (clock self.new) (left self.new) (AfterRemove path.now (left self.old (clock self.old))) }
        ensures time { Elapses (clock self.old) (clock self.new) (left self.old) (left self.new) }
        ensures cause { Causes (count self.old) (count self.new) (has_failed result) };

    /// After it a crash leaves what a read gives.
    fn sync(&mut self) -> Result<(), Failed>
        ensures durable { IsTrue tells → OnOk result (Within (λ q content. content ≡ reads self.new q) (left self.new (clock self.new))) }
        ensures same { IsTrue tells → Same (reads self.old) (reads self.new) }
        ensures crash { EachMoment (clock self.old) (clock self.new) (left self.new) (left self.old (clock self.old)) }
        ensures time { Elapses (clock self.old) (clock self.new) (left self.old) (left self.new) }
        ensures cause { Causes (count self.old) (count self.new) (has_failed result) };

    /// What it reads may be left by a crash.
    ghost reads_is_left: { (disk : Self) (q : List ℕ) → IsTrue tells → IsTrue tells_images → left disk (clock disk) q (reads disk q) };

    /// No moment is without files that a crash may leave.
    ghost has_image: { (disk : Self) (k : ℕ) → IsTrue tells_images → k ≤ clock disk → (image : List ℕ → Option (List ℕ)) × ((q : List ℕ) → left disk k q (image q)) };
}
