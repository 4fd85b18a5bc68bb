ghost use Rattle.std.specs.Prelude.{◌≡◌, false, None, OnOk, refl};
ghost use Rattle.std.specs.BTreeSet.{btree_set_len};
ghost use Rattle.std.specs.Result.{ForOk};
ghost use Rattle.tb_outside.specs.Causes.{Causes, has_failed};
ghost use Rattle.tb_main.specs.Noted.{IsNoted};

use crate::changes::Changes;
use crate::faults::Faults;
use crate::files::{move_file, read_file, remove_file};
use crate::listings::{Reach, list_files};
use crate::places::{Places, write_file};
use std::alloc::Global;
use std::io;
use std::rt::Files;
use tb_outside::{Disk, Failed, Trouble};
use tb_text::{List, Path, Text};

/// How changes are written out for good. It starts threads, which the methods of a trait cannot do by themselves.
pub type Settle = Box<dyn Fn(&mut Changes) -> io::Result<()> + Send>;

/// The files below the folder where the program starts, to which outputs are written. It tells nothing of them.
#[derive(Drop)]
pub struct RealDisk<'a, R> {
    rt: &'a R,
    changes: Changes,
    settle: Settle,
    faults: Faults,
    ghost settles: { IsAlwaysCallable settle },
    ghost clears: { (changes : _) (answer : _) (left : _) → post settle changes answer left → ForOk answer (λ done. btree_set_len left.now.places ≡ 0) },
}

impl<'a, R> RealDisk<'a, R> {
    pub fn new(rt: &'a R, alloc: Global, settle: Settle) -> RealDisk<'a, R>
        requires settles { IsAlwaysCallable settle }
        requires clears { (changes : _) (answer : _) (left : _) → post settle changes answer left → ForOk answer (λ done. btree_set_len left.now.places ≡ 0) }
    {
        RealDisk {
            rt,
            changes: Changes::none(alloc),
            settle,
            faults: Faults::none(),
        }
    }
}

impl<'a, R: Places> RealDisk<'a, R> {
    fn put(&mut self, path: &str, bytes: &[u8]) -> io::Result<()>
        ensures noted { OnOk result (IsNoted self.new.changes.places path.now) }
        ensures held { OnOk result (R.holds path.now bytes.now) }
        ensures faults { self.new.faults ≡ self.old.faults }
    {
        self.changes.note(path)?;
        write_file(self.rt, self.changes.alloc(), path, bytes)
    }

    fn write_down(&mut self, path: &str, bytes: &[u8]) -> Result<(), Failed>
        ensures cause { Causes self.old.faults.count self.new.faults.count (has_failed result) }
        ensures noted { OnOk result (IsNoted self.new.changes.places path.now) }
        ensures held { OnOk result (R.holds path.now bytes.now) }
    {
        let answer = self.put(path, bytes);
        self.faults.done(answer)
    }

    fn write_out(&mut self) -> Result<(), Failed>
        ensures cause { Causes self.old.faults.count self.new.faults.count (has_failed result) }
        ensures none_left { OnOk result (btree_set_len self.new.changes.places ≡ 0) }
    {
        let answer = (self.settle)(&mut self.changes);
        self.faults.done(answer)
    }
}

impl<'a, R: Files> RealDisk<'a, R> {
    fn shift(&mut self, from: &str, to: &str) -> io::Result<()>
        ensures { self.new.faults ≡ self.old.faults }
    {
        self.changes.note(from)?;
        self.changes.note(to)?;
        move_file(self.rt, from, to)
    }

    fn take_away(&mut self, path: &str) -> io::Result<()>
        ensures { self.new.faults ≡ self.old.faults }
    {
        self.changes.note(path)?;
        remove_file(self.rt, path)
    }
}

impl<'a, R: Files + AllocGlobal + Clone + Drop> Disk for RealDisk<'a, R> {
    ghost tells = { false };

    ghost tells_images = { false };

    ghost reads = { λ d q. None };

    ghost clock = { λ d. 0 };

    ghost left = { λ d k q content. content ≡ None };

    ghost count = { λ d. d.faults.count };

    ghost reads_is_left = { λ d q told told_images. refl };

    ghost has_image = { λ d k told within. (λ q. None, λ q. refl) };

    fn faults(&self) -> u64 {
        self.faults.count()
    }

    fn read(&mut self, alloc: Global, path: &Path) -> Result<Option<Text>, Trouble> {
        let answer = read_file(self.rt, alloc, path.as_str(), u64::MAX);
        self.faults.told(answer)
    }

    fn list(&mut self, alloc: Global, folder: &Path) -> Result<List<Path>, Trouble> {
        let answer = list_files(self.rt, alloc, folder, Reach::All);
        self.faults.told(answer)
    }

    fn write(&mut self, path: &Path, bytes: &[u8]) -> Result<(), Failed> {
        self.write_down(path.as_str(), bytes)
    }

    fn rename(&mut self, from: &Path, to: &Path) -> Result<(), Failed> {
        let answer = self.shift(from.as_str(), to.as_str());
        self.faults.done(answer)
    }

    fn remove(&mut self, path: &Path) -> Result<(), Failed> {
        let answer = self.take_away(path.as_str());
        self.faults.done(answer)
    }

    fn sync(&mut self) -> Result<(), Failed> {
        self.write_out()
    }
}
