ghost use Rattle.std.specs.Prelude.{◌≡◌, ◌≢◌, ◌⊎◌, ◌∷◌, ◌++◌, [], ℕ, ◌<◌, ◌≤◌, ◌+◌, List, Some, None, Ok, take, true, false, if◌then◌else◌, IsTrue, IsFalse, IfOk, OnOk, OnErr, length};
ghost use Rattle.std.specs.Option.{option_copied};
ghost use Rattle.tb_text.specs.Counts.{plus};
ghost use Rattle.tb_outside.specs.Causes.{Causes, Rose, has_failed, has_fault};
ghost use Rattle.tb_outside.specs.Disk.{Same, SameBut, put_at, moved, AfterWrite, AfterRename, AfterRemove, ListsFolder};
ghost use Rattle.tb_outside.specs.Moments.{Within, EachMoment, Elapses, IsImage};
ghost use Rattle.tb_memory.specs.Crashes.{read_of, reads_of, left_of, left_steps, last_sync, halves, is_sync, IsFresh, Stands, StaysOrCuts, Takes, ListsAll};
ghost use Rattle.tb_memory.specs.Plans.{is_due, is_stop, reaches, after_call, FailsWhere};
ghost use Rattle.tb_memory.specs.Laws.{read_is_left, has_image};

use crate::Crash;
use crate::files::{apply, only_inside};
use crate::plans::Plan;
use std::alloc::Global;
use std::marker::Model;
use tb_outside::{Disk, DiskStep, Failed, Trouble};
use tb_text::{List, NoMemory, Path, Text, Texts};

/// A disk in memory, whose calls of given numbers fail, and which can be stopped at a call: from it on all fail. Its
/// calls are numbered from 0, those that read included.
///
/// It keeps each step that it took, and so tells what a crash at each moment may leave; the moment is the number of
/// these steps. A call that fails changes nothing, but for a write, rename or removal at the stop: that one is cut in
/// its midst, so a read gives what it gave before, and a crash may leave whatever it may leave after the step.
#[derive(Drop)]
pub struct MemDisk {
    alloc: Global,
    files: Texts,
    log: Vec<DiskStep>,
    cut: bool,
    refused: u64,
    plan: Plan,
}

impl Model for MemDisk {
    ghost use Rattle.std.specs.Prelude.{◌≡◌, ℕ, List, IsTrue};
    ghost use Rattle.std.specs.FinMap as map;
    ghost use Rattle.tb_memory.specs.Crashes.{DiskState, read_of, done_of};
    ghost use Rattle.tb_memory.specs.Plans.{reaches};

    ghost Value = { DiskState };

    ghost view = { λ d. record { log = d.log.items; cut = d.cut; refused = d.refused; plan = d.plan } };

    ghost invariant = { λ d. ((q : List ℕ) → map.get d.files q ≡ read_of (done_of d.log.items d.cut) q) × (IsTrue d.cut → IsTrue (reaches d.plan.stop d.plan.calls)) };
}

impl MemDisk {
    /// An empty disk, whose calls of these numbers fail, and all from the stop on.
    pub fn new(alloc: Global, failing: List<u64>, stop: Option<u64>) -> MemDisk
        ensures log { result.log ≡ [] }
        ensures cut { result.cut ≡ false }
        ensures refused { result.refused ≡ 0 }
        ensures failing { result.plan.failing ≡ failing }
        ensures stop { result.plan.stop ≡ stop }
        ensures calls { result.plan.calls ≡ 0 }
        ensures faults { result.plan.faults ≡ 0 }
    {
        MemDisk {
            alloc,
            files: Texts::new(alloc),
            log: Vec::new(alloc),
            cut: false,
            refused: 0,
            plan: Plan::new(failing, stop),
        }
    }

    /// The text at a path. This is no call of the outside: it has no number, and never fails.
    pub fn text(&self, path: &Path) -> Option<&Text>
        ensures { option_copied result ≡ reads_of self.now path.now }
    {
        self.files.get(path)
    }

    /// All files, ascending, each once. This is no call of the outside: it has no number, and never fails.
    pub fn paths(&self, alloc: Global) -> Result<List<Path>, NoMemory>
        ensures { IfOk result (λ paths. ListsAll (reads_of self.now) paths) }
    {
        self.files.paths(alloc)
    }

    /// How often a write, rename, removal or sync wanted for memory. These are a part of its faults.
    pub fn refused(&self) -> u64
        ensures { result ≡ self.now.refused }
    {
        self.refused
    }

    /// The number of its next call.
    pub fn calls(&self) -> u64
        ensures { result ≡ self.now.plan.calls }
    {
        self.plan.calls()
    }

    /// The moment: how many steps it took, with the one that was cut in its midst.
    pub fn moment(&self) -> usize
        ensures { result ≡ length self.now.log }
    {
        self.log.len()
    }

    /// The disk that such a crash at a moment leaves. It has no change that no sync has followed, and none of its
    /// calls is to fail.
    pub fn after_crash(
        &self,
        alloc: Global,
        moment: usize,
        crash: Crash,
    ) -> Result<MemDisk, NoMemory>
        requires { moment ≤ length self.now.log }
        ensures log { IfOk result (λ disk. disk.log ≡ left_steps crash self.now.log moment ++ DiskStep.Sync ∷ []) }
        ensures image { IfOk result (λ disk. IsImage (left_of self.now.log moment) (reads_of disk)) }
        ensures synced { IfOk result (λ disk. Within (λ q content. content ≡ reads_of disk q) (left_of disk.log (length disk.log))) }
        ensures fresh { IfOk result (λ disk. IsFresh disk) }
    {
        let mut disk = left_by(alloc, self.log.as_slice(), moment, crash)?;
        disk.add(DiskStep::Sync)?;
        Ok(disk)
    }

    // Takes a step that no call asked for.
    fn add(&mut self, step: DiskStep) -> Result<(), NoMemory>
        requires { self.old.cut ≡ false }
        ensures log { OnOk result (self.new.log ≡ self.old.log ++ step ∷ []) }
        ensures cut { self.new.cut ≡ false }
        ensures err { OnErr result (self.new.log ≡ self.old.log) }
        ensures refused { self.new.refused ≡ self.old.refused }
        ensures plan { self.new.plan ≡ self.old.plan }
    {
        apply(self.alloc, &mut self.files, &mut self.log, step)
    }

    // Counts a call, and fails it where it is to fail.
    fn begin(&mut self) -> Result<(), Failed>
        ensures log { self.new.log ≡ self.old.log }
        ensures cut { self.new.cut ≡ self.old.cut }
        ensures refused { self.new.refused ≡ self.old.refused }
        ensures exact { has_failed result ≡ is_due self.old.plan }
        ensures whole { OnOk result (self.old.cut ≡ false) }
        ensures plan { self.new.plan ≡ after_call self.old.plan (has_failed result) }
        ensures stopped { IsTrue (reaches self.old.plan.stop self.old.plan.calls) → IsTrue (reaches self.new.plan.stop self.new.plan.calls) }
        ensures cause { Causes self.old.plan.faults self.new.plan.faults (has_failed result) }
    {
        self.plan.begin()
    }

    // Does a step, or where the call is to fail, cuts it in its midst at the stop.
    fn take(&mut self, step: Result<DiskStep, NoMemory>) -> Result<(), Failed>
        ensures takes { (s : DiskStep) → IfOk step (λ made. made ≡ s) → Takes self.old s self.new (has_failed result) }
        ensures sync { (step ≡ Ok DiskStep.Sync) → IsTrue (is_stop self.old.plan) → Stands self.old self.new }
        ensures exact { FailsWhere self.old.plan self.old.refused self.new.refused (has_failed result) }
        ensures plan { self.new.plan ≡ after_call self.old.plan (has_failed result) }
        ensures cause { Causes self.old.plan.faults self.new.plan.faults (has_failed result) }
    {
        let is_stop = self.plan.is_stop();
        match self.begin() {
            Ok(()) => self.finish(step),
            Err(Failed) => {
                if is_stop {
                    self.cut_off(step);
                }
                Err(Failed)
            }
        }
    }

    // Does a step of a call that is not to fail. There may be no memory for it.
    fn finish(&mut self, step: Result<DiskStep, NoMemory>) -> Result<(), Failed>
        requires { self.old.cut ≡ false }
        ensures done { (s : DiskStep) → IfOk step (λ made. made ≡ s) → OnOk result (self.new.log ≡ self.old.log ++ s ∷ []) }
        ensures err { OnErr result (self.new.log ≡ self.old.log) }
        ensures cut { self.new.cut ≡ false }
        ensures fine { OnOk result (self.new.refused ≡ self.old.refused) }
        ensures want { OnErr result (Rose self.old.refused self.new.refused) }
        ensures later { self.old.refused ≤ self.new.refused }
        ensures once { self.new.refused ≤ self.old.refused + 1 }
        ensures failing { self.new.plan.failing ≡ self.old.plan.failing }
        ensures stop { self.new.plan.stop ≡ self.old.plan.stop }
        ensures calls { self.new.plan.calls ≡ self.old.plan.calls }
        ensures faults { self.new.plan.faults ≡ (if has_failed result then plus self.old.plan.faults 1 else self.old.plan.faults) }
        ensures cause { Causes self.old.plan.faults self.new.plan.faults (has_failed result) }
    {
        match self.try_add(step) {
            Ok(()) => Ok(()),
            Err(NoMemory) => {
                self.refused = self.refused.saturating_add(1);
                Err(self.plan.fail())
            }
        }
    }

    fn try_add(&mut self, step: Result<DiskStep, NoMemory>) -> Result<(), NoMemory>
        requires { self.old.cut ≡ false }
        ensures done { (s : DiskStep) → IfOk step (λ made. made ≡ s) → OnOk result (self.new.log ≡ self.old.log ++ s ∷ []) }
        ensures err { OnErr result (self.new.log ≡ self.old.log) }
        ensures cut { self.new.cut ≡ false }
        ensures refused { self.new.refused ≡ self.old.refused }
        ensures plan { self.new.plan ≡ self.old.plan }
    {
        let step = step?;
        self.add(step)
    }

    // Cuts the step of the call at the stop in its midst. A sync that is cut does nothing.
    fn cut_off(&mut self, step: Result<DiskStep, NoMemory>)
        requires { IsTrue (reaches self.old.plan.stop self.old.plan.calls) }
        ensures stays { (s : DiskStep) → IfOk step (λ made. made ≡ s) → StaysOrCuts self.old s self.new }
        ensures cuts { (s : DiskStep) → IfOk step (λ made. made ≡ s) → IsFalse (is_sync s) → IsTrue self.new.cut ⊎ Rose self.old.refused self.new.refused }
        ensures sync { (step ≡ Ok DiskStep.Sync) → Stands self.old self.new }
        ensures later { self.old.refused ≤ self.new.refused }
        ensures once { self.new.refused ≤ self.old.refused + 1 }
        ensures plan { self.new.plan ≡ self.old.plan }
    {
        let Ok(step) = step else {
            self.refused = self.refused.saturating_add(1);
            return;
        };
        if self.cut || is_sync(&step) {
            return;
        }
        match self.log.push(step) {
            Ok(()) => {
                self.cut = true;
            }
            Err(_) => {
                self.refused = self.refused.saturating_add(1);
            }
        }
    }
}

// The step that a call asks for.
fn write_step(alloc: Global, path: &Path, bytes: &[u8]) -> Result<DiskStep, NoMemory>
    ensures { IfOk result (λ step. step ≡ DiskStep.Write path.now bytes.now) }
{
    Ok(DiskStep::Write(path.clone()?, Text::copy_of(alloc, bytes)?))
}

fn rename_step(from: &Path, to: &Path) -> Result<DiskStep, NoMemory>
    ensures { IfOk result (λ step. step ≡ DiskStep.Rename from.now to.now) }
{
    Ok(DiskStep::Rename(from.clone()?, to.clone()?))
}

fn remove_step(path: &Path) -> Result<DiskStep, NoMemory>
    ensures { IfOk result (λ step. step ≡ DiskStep.Remove path.now) }
{
    Ok(DiskStep::Remove(path.clone()?))
}

impl Disk for MemDisk {
    ghost tells = { true };

    ghost tells_images = { true };

    ghost reads = { reads_of };

    ghost clock = { λ d. length d.log };

    ghost left = { λ d. left_of d.log };

    ghost count = { λ d. d.plan.faults };

    ghost reads_is_left = { λ d q told told_images. read_is_left d.log d.cut q };

    ghost has_image = { λ d k told within. has_image d.log k };

    fn faults(&self) -> u64 {
        self.plan.faults()
    }

    // The clauses of the trait, just when it fails, and that nothing changes.
    fn read(&mut self, alloc: Global, path: &Path) -> Result<Option<Text>, Trouble>
        ensures text { IfOk result (λ text. text ≡ reads_of self.old path.now) }
        ensures same { Same (reads_of self.old) (reads_of self.new) }
        ensures crash { EachMoment (length self.old.log) (length self.new.log) (left_of self.new.log) (left_of self.old.log (length self.old.log)) }
        ensures time { Elapses (length self.old.log) (length self.new.log) (left_of self.old.log) (left_of self.new.log) }
        ensures cause { Causes self.old.plan.faults self.new.plan.faults (has_fault result) }
        ensures exact { has_fault result ≡ is_due self.old.plan }
        ensures plan { self.new.plan ≡ after_call self.old.plan (has_fault result) }
        ensures log { self.new.log ≡ self.old.log }
        ensures cut { self.new.cut ≡ self.old.cut }
        ensures refused { self.new.refused ≡ self.old.refused }
    {
        self.begin()?;
        match self.files.get(path) {
            Some(text) => Ok(Some(Text::copy_of(alloc, text.as_slice())?)),
            None => Ok(None),
        }
    }

    // The clauses of the trait, just when it fails, and that nothing changes.
    fn list(&mut self, alloc: Global, folder: &Path) -> Result<List<Path>, Trouble>
        ensures paths { IfOk result (λ paths. ListsFolder folder.now (reads_of self.old) paths) }
        ensures same { Same (reads_of self.old) (reads_of self.new) }
        ensures crash { EachMoment (length self.old.log) (length self.new.log) (left_of self.new.log) (left_of self.old.log (length self.old.log)) }
        ensures time { Elapses (length self.old.log) (length self.new.log) (left_of self.old.log) (left_of self.new.log) }
        ensures cause { Causes self.old.plan.faults self.new.plan.faults (has_fault result) }
        ensures exact { has_fault result ≡ is_due self.old.plan }
        ensures plan { self.new.plan ≡ after_call self.old.plan (has_fault result) }
        ensures log { self.new.log ≡ self.old.log }
        ensures cut { self.new.cut ≡ self.old.cut }
        ensures refused { self.new.refused ≡ self.old.refused }
    {
        self.begin()?;
        let paths = self.files.paths(alloc)?;
        Ok(only_inside(alloc, paths.as_slice(), folder)?)
    }

    // The clauses of the trait, just when it fails, and what it takes into the log.
    fn write(&mut self, path: &Path, bytes: &[u8]) -> Result<(), Failed>
        ensures written { OnOk result (Same (put_at path.now (Some bytes.now) (reads_of self.old)) (reads_of self.new)) }
        ensures others { SameBut path.now (reads_of self.old) (reads_of self.new) }
        ensures crash { EachMoment (length self.old.log) (length self.new.log) (left_of self.new.log) (AfterWrite path.now (left_of self.old.log (length self.old.log))) }
        ensures time { Elapses (length self.old.log) (length self.new.log) (left_of self.old.log) (left_of self.new.log) }
        ensures cause { Causes self.old.plan.faults self.new.plan.faults (has_failed result) }
        ensures exact { FailsWhere self.old.plan self.old.refused self.new.refused (has_failed result) }
        ensures plan { self.new.plan ≡ after_call self.old.plan (has_failed result) }
        ensures takes { Takes self.old (DiskStep.Write path.now bytes.now) self.new (has_failed result) }
        ensures same { OnErr result (Same (reads_of self.old) (reads_of self.new)) }
    {
        let step = write_step(self.alloc, path, bytes);
        self.take(step)
    }

    // The clauses of the trait, just when it fails, and what it takes into the log.
    fn rename(&mut self, from: &Path, to: &Path) -> Result<(), Failed>
        ensures moved { OnOk result (Same (moved from.now to.now (reads_of self.old)) (reads_of self.new)) }
        ensures others { (q : List ℕ) → (q ≢ from.now) → (q ≢ to.now) → reads_of self.new q ≡ reads_of self.old q }
        ensures crash { EachMoment (length self.old.log) (length self.new.log) (left_of self.new.log) (AfterRename from.now to.now (left_of self.old.log (length self.old.log))) }
        ensures absent { (reads_of self.old from.now ≡ None) → EachMoment (length self.old.log) (length self.new.log) (left_of self.new.log) (left_of self.old.log (length self.old.log)) }
        ensures time { Elapses (length self.old.log) (length self.new.log) (left_of self.old.log) (left_of self.new.log) }
        ensures cause { Causes self.old.plan.faults self.new.plan.faults (has_failed result) }
        ensures exact { FailsWhere self.old.plan self.old.refused self.new.refused (has_failed result) }
        ensures plan { self.new.plan ≡ after_call self.old.plan (has_failed result) }
        ensures takes { Takes self.old (DiskStep.Rename from.now to.now) self.new (has_failed result) }
        ensures same { OnErr result (Same (reads_of self.old) (reads_of self.new)) }
    {
        let step = rename_step(from, to);
        self.take(step)
    }

    // The clauses of the trait, just when it fails, and what it takes into the log.
    fn remove(&mut self, path: &Path) -> Result<(), Failed>
        ensures gone { OnOk result (Same (put_at path.now None (reads_of self.old)) (reads_of self.new)) }
        ensures others { SameBut path.now (reads_of self.old) (reads_of self.new) }
        ensures crash { EachMoment (length self.old.log) (length self.new.log) (left_of self.new.log) (AfterRemove path.now (left_of self.old.log (length self.old.log))) }
        ensures time { Elapses (length self.old.log) (length self.new.log) (left_of self.old.log) (left_of self.new.log) }
        ensures cause { Causes self.old.plan.faults self.new.plan.faults (has_failed result) }
        ensures exact { FailsWhere self.old.plan self.old.refused self.new.refused (has_failed result) }
        ensures plan { self.new.plan ≡ after_call self.old.plan (has_failed result) }
        ensures takes { Takes self.old (DiskStep.Remove path.now) self.new (has_failed result) }
        ensures same { OnErr result (Same (reads_of self.old) (reads_of self.new)) }
    {
        let step = remove_step(path);
        self.take(step)
    }

    // The clauses of the trait, just when it fails, and what it takes into the log.
    fn sync(&mut self) -> Result<(), Failed>
        ensures durable { OnOk result (Within (λ q content. content ≡ reads_of self.new q) (left_of self.new.log (length self.new.log))) }
        ensures same { Same (reads_of self.old) (reads_of self.new) }
        ensures crash { EachMoment (length self.old.log) (length self.new.log) (left_of self.new.log) (left_of self.old.log (length self.old.log)) }
        ensures time { Elapses (length self.old.log) (length self.new.log) (left_of self.old.log) (left_of self.new.log) }
        ensures cause { Causes self.old.plan.faults self.new.plan.faults (has_failed result) }
        ensures exact { FailsWhere self.old.plan self.old.refused self.new.refused (has_failed result) }
        ensures plan { self.new.plan ≡ after_call self.old.plan (has_failed result) }
        ensures takes { Takes self.old DiskStep.Sync self.new (has_failed result) }
        ensures stopped { IsTrue (is_stop self.old.plan) → Stands self.old self.new }
    {
        self.take(Ok(DiskStep::Sync))
    }
}

// What a crash leaves of the first steps, before it is synced.
fn left_by(
    alloc: Global,
    steps: &[DiskStep],
    moment: usize,
    crash: Crash,
) -> Result<MemDisk, NoMemory>
    requires { moment ≤ length steps.now }
    ensures log { IfOk result (λ disk. disk.log ≡ left_steps crash steps.now moment) }
    ensures fresh { IfOk result (λ disk. IsFresh disk) }
{
    let synced = last_sync(steps, moment);
    match crash {
        Crash::Old => replay(alloc, steps, synced),
        Crash::New => replay(alloc, steps, moment),
        Crash::Half => {
            let mut disk = replay(alloc, steps, moment)?;
            halve(alloc, &steps[synced..moment], &mut disk)?;
            Ok(disk)
        }
    }
}

// A disk that took the first of these steps.
fn replay(alloc: Global, steps: &[DiskStep], count: usize) -> Result<MemDisk, NoMemory>
    requires { count ≤ length steps.now }
    ensures log { IfOk result (λ disk. disk.log ≡ take count steps.now) }
    ensures fresh { IfOk result (λ disk. IsFresh disk) }
{
    let mut disk = MemDisk::new(alloc, List::new(alloc), None);
    for i in 0..count {
        disk.add(steps[i].clone()?)?;
    }
    Ok(disk)
}

// How many of the first steps stand up to the last sync.
fn last_sync(steps: &[DiskStep], count: usize) -> usize
    requires { count ≤ length steps.now }
    ensures value { result ≡ last_sync steps.now count }
    ensures within { result ≤ count }
{
    let mut synced = 0;
    for i in 0..count {
        if is_sync(&steps[i]) {
            synced = i + 1;
        }
    }
    synced
}

fn is_sync(step: &DiskStep) -> bool
    ensures { result ≡ is_sync step.now }
{
    matches!(step, DiskStep::Sync)
}

// Leaves the first half of each file that these steps write.
fn halve(alloc: Global, steps: &[DiskStep], disk: &mut MemDisk) -> Result<(), NoMemory>
    requires { IsFresh disk.old }
    ensures log { OnOk result (disk.new.log ≡ disk.old.log ++ halves steps.now) }
    ensures fresh { IsFresh disk.new }
{
    for step in steps {
        if let DiskStep::Write(path, text) = step {
            let bytes = text.as_slice();
            disk.add(write_step(alloc, path, &bytes[..bytes.len() / 2])?)?;
        }
    }
    Ok(())
}
