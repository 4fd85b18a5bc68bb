// Changes of a map of files, as a disk makes them.
ghost use Rattle.std.specs.Prelude.{◌≡◌, ℕ, List, Option, Some, None, OnOk, OnErr, IfOk, ◌++◌, ◌∷◌, []};
ghost use Rattle.std.specs.List.{filter};
ghost use Rattle.tb_text.specs.Paths.{is_inside};
ghost use Rattle.std.specs.FinMap as map;
ghost use Rattle.tb_outside.specs.Disk.{put_at, moved, read_after, no_files, read_after_all};

use std::alloc::Global;
use tb_outside::DiskStep;
use tb_text::{List, NoMemory, Path, Text, Texts};

fn write_text(files: &mut Texts, path: Path, text: Text) -> Result<(), NoMemory>
    ensures ok { OnOk result ((q : List ℕ) → map.get files.new q ≡ put_at path (Some text) (λ p. map.get files.old p) q) }
    ensures err { OnErr result (files.new ≡ files.old) }
{
    files.insert(path, text)
}

fn remove_text(files: &mut Texts, path: &Path)
    ensures { (q : List ℕ) → map.get files.new q ≡ put_at path.now None (λ p. map.get files.old p) q }
{
    files.remove(path);
}

fn move_text(alloc: Global, files: &mut Texts, from: &Path, to: &Path) -> Result<(), NoMemory>
    ensures ok { OnOk result ((q : List ℕ) → map.get files.new q ≡ moved from.now to.now (λ p. map.get files.old p) q) }
    ensures err { OnErr result (files.new ≡ files.old) }
{
    let Some(text) = files.get(from) else {
        return Ok(());
    };
    let text = Text::copy_of(alloc, text.as_slice())?;
    let path = to.clone()?;
    write_text(files, path, text)?;
    if from != to {
        remove_text(files, from);
    }
    Ok(())
}

/// Does a step.
pub fn change(alloc: Global, files: &mut Texts, step: &DiskStep) -> Result<(), NoMemory>
    ensures ok { OnOk result ((q : List ℕ) → map.get files.new q ≡ read_after step.now (λ p. map.get files.old p) q) }
    ensures err { OnErr result (files.new ≡ files.old) }
{
    match step {
        DiskStep::Write(path, text) => {
            let path = path.clone()?;
            let text = Text::copy_of(alloc, text.as_slice())?;
            write_text(files, path, text)
        }
        DiskStep::Rename(from, to) => move_text(alloc, files, from, to),
        DiskStep::Remove(path) => {
            remove_text(files, path);
            Ok(())
        }
        DiskStep::Sync => Ok(()),
    }
}

/// Does a step and writes it into the log.
pub fn apply(
    alloc: Global,
    files: &mut Texts,
    log: &mut Vec<DiskStep>,
    step: DiskStep,
) -> Result<(), NoMemory>
    requires { (q : List ℕ) → map.get files.old q ≡ read_after_all log.old.items no_files q }
    ensures same { (q : List ℕ) → map.get files.new q ≡ read_after_all log.new.items no_files q }
    ensures ok { OnOk result (log.new.items ≡ log.old.items ++ step ∷ []) }
    ensures err { OnErr result (log.new.items ≡ log.old.items) }
{
    log.reserve(1)?;
    change(alloc, files, &step)?;
    match log.push(step) {
        Ok(()) => Ok(()),
        Err(_) => unreachable!(),
    }
}

/// The paths below a folder.
pub fn only_inside(alloc: Global, paths: &[Path], folder: &Path) -> Result<List<Path>, NoMemory>
    ensures { IfOk result (λ inside. inside ≡ filter (λ path. is_inside folder.now path) paths.now) }
{
    let mut inside = List::new(alloc);
    for path in paths {
        if path.inside(folder) {
            inside.push(path.clone()?)?;
        }
    }
    Ok(inside)
}
