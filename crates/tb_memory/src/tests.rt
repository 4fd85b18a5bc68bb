use crate::{Crash, MemDisk, MemSink, MemTree, OpenGate, ScriptFeed};
use std::alloc::Global;
use std::collections::VecDeque;
use std::test::Fail;
use tb_outside::{
    Change, Disk, DiskStep, Edit, Failed, Feed, Gate, Sink, Tree, Trouble, Turn, play,
};
use tb_text::{List, NoMemory, Path, PathFault, Text, Texts};

fn path(alloc: Global, text: &str) -> Result<Path, PathFault> {
    Path::read(alloc, text)
}

fn numbers(alloc: Global, first: u64, second: u64) -> Result<List<u64>, NoMemory> {
    let mut numbers = List::new(alloc);
    numbers.push(first)?;
    numbers.push(second)?;
    Ok(numbers)
}

// The bytes at a path, or "-" where it is absent.
fn at<'a>(disk: &'a MemDisk, path: &Path) -> &'a [u8] {
    match disk.text(path) {
        Some(text) => text.as_slice(),
        None => b"-",
    }
}

fn two_files(alloc: Global) -> Result<MemTree, Fail> {
    let mut texts = Texts::new(alloc);
    texts.insert(path(alloc, "b.ts")?, Text::copy_of(alloc, b"four")?)?;
    texts.insert(path(alloc, "a.ts")?, Text::copy_of(alloc, b"")?)?;
    Ok(MemTree::new(texts, numbers(alloc, 1, 3)?))
}

// The names in a list of paths, each with a blank behind it.
fn names(alloc: Global, paths: &[Path]) -> Result<Vec<u8>, Fail> {
    let mut names = Vec::new(alloc);
    for path in paths {
        names.extend_from_slice(path.as_str().as_bytes())?;
        names.push(b' ')?;
    }
    Ok(names)
}

#[test]
fn a_tree_lists_its_files_in_order(rt: HostRuntime) -> Result<(), Fail> {
    let alloc = rt.alloc();
    let mut tree = two_files(alloc)?;
    let listed = tree.list(alloc)?;
    assert_eq!(rt;
        names(alloc, listed.as_slice())?.as_slice(),
        b"a.ts b.ts ".as_slice()
    );
    assert!(rt; matches!(tree.list(alloc), Err(Trouble::Failed)));
    assert_eq!(rt; tree.faults(), 1);
    Ok(())
}

#[test]
fn a_tree_gives_the_first_bytes(rt: HostRuntime) -> Result<(), Fail> {
    let alloc = rt.alloc();
    let mut tree = two_files(alloc)?;
    let rows: [(&str, u64, &[u8]); 5] = [
        ("b.ts", 3, b"fou"),
        ("b.ts", 3, b"failed"),
        ("c.ts", 3, b""),
        ("b.ts", 3, b"failed"),
        ("b.ts", 9, b"four"),
    ];
    for (name, most, expected) in rows {
        let read = match tree.read(alloc, &path(alloc, name)?, most) {
            Ok(text) => text.into_vec(),
            Err(_) => b"failed".to_vec(alloc)?,
        };
        assert_eq!(rt; read.as_slice(), expected);
    }
    Ok(())
}

#[test]
fn a_feed_answers_its_turns_and_then_the_end(rt: HostRuntime) -> Result<(), Fail> {
    let alloc = rt.alloc();
    let mut edits = List::new(alloc);
    edits.push(Edit {
        path: path(alloc, "a.ts")?,
        change: Change::Gone,
    })?;
    let mut turns = VecDeque::new(alloc);
    turns.push_back(Turn::Batch(edits))?;
    turns.push_back(Turn::Quiet)?;
    let mut feed = ScriptFeed::new(turns, numbers(alloc, 0, 2)?);
    assert!(rt; matches!(feed.next(alloc), Err(Trouble::Failed)));
    assert!(rt; matches!(feed.next(alloc), Ok(Turn::Batch(_))));
    assert!(rt; matches!(feed.next(alloc), Err(Trouble::Failed)));
    assert!(rt; matches!(feed.next(alloc), Ok(Turn::Quiet)));
    assert!(rt; matches!(feed.next(alloc), Ok(Turn::End)));
    assert!(rt; matches!(feed.next(alloc), Ok(Turn::End)));
    assert_eq!(rt; feed.faults(), 2);
    Ok(())
}

#[test]
fn a_sink_takes_nothing_where_it_fails(rt: HostRuntime) -> Result<(), Fail> {
    let alloc = rt.alloc();
    let mut sink = MemSink::new(alloc, numbers(alloc, 1, 2)?);
    sink.put(b"one")?;
    assert_eq!(rt; sink.put(b"two"), Err(Failed));
    assert_eq!(rt; sink.put(b"three"), Err(Failed));
    sink.put(b"four")?;
    assert_eq!(rt; sink.taken(), b"onefour".as_slice());
    assert_eq!(rt; sink.faults(), 2);
    assert_eq!(rt; sink.refused(), 0);
    OpenGate.enter(&path(alloc, "tsconfig.json")?);
    Ok(())
}

fn script(alloc: Global) -> Result<List<DiskStep>, Fail> {
    let mut steps = List::new(alloc);
    steps.push(DiskStep::Write(path(alloc, "a")?, Text::copy_of(alloc, b"news")?))?;
    steps.push(DiskStep::Remove(path(alloc, "b")?))?;
    steps.push(DiskStep::Rename(path(alloc, "c")?, path(alloc, "d")?))?;
    steps.push(DiskStep::Sync)?;
    Ok(steps)
}

// A disk with three files, whose calls from the stop on fail: the script's first call has the number 4.
fn stopped(alloc: Global, stop: u64) -> Result<(MemDisk, bool), Fail> {
    let mut disk = MemDisk::new(alloc, List::new(alloc), Some(stop));
    disk.write(&path(alloc, "a")?, b"old")?;
    disk.write(&path(alloc, "b")?, b"bee")?;
    disk.write(&path(alloc, "c")?, b"sea")?;
    disk.sync()?;
    let is_done = play(&mut disk, script(alloc)?.as_slice()).is_ok();
    Ok((disk, is_done))
}

// What the four paths hold, one after the other.
fn whole(alloc: Global, disk: &MemDisk) -> Result<Vec<u8>, Fail> {
    let mut whole = Vec::new(alloc);
    for name in ["a", "b", "c", "d"] {
        whole.extend_from_slice(at(disk, &path(alloc, name)?))?;
        whole.push(b' ')?;
    }
    Ok(whole)
}

#[test]
fn a_disk_lists_its_files_in_order(rt: HostRuntime) -> Result<(), Fail> {
    let alloc = rt.alloc();
    let mut disk = MemDisk::new(alloc, List::new(alloc), None);
    for name in ["d/b", "c", "d/a"] {
        disk.write(&path(alloc, name)?, name.as_bytes())?;
    }
    let inside = disk.list(alloc, &path(alloc, "d")?)?;
    assert_eq!(rt;
        names(alloc, inside.as_slice())?.as_slice(),
        b"d/a d/b ".as_slice()
    );
    let all = disk.paths(alloc)?;
    assert_eq!(rt;
        names(alloc, all.as_slice())?.as_slice(),
        b"c d/a d/b ".as_slice()
    );
    let read = disk.read(alloc, &path(alloc, "c")?)?;
    assert!(rt; read.is_some());
    Ok(())
}

#[test]
fn what_is_absent_is_not_moved(rt: HostRuntime) -> Result<(), Fail> {
    let alloc = rt.alloc();
    let (mut disk, is_done) = stopped(alloc, 1000)?;
    assert!(rt; is_done);
    disk.rename(&path(alloc, "c")?, &path(alloc, "a")?)?;
    disk.remove(&path(alloc, "b")?)?;
    assert_eq!(rt;
        whole(alloc, &disk)?.as_slice(),
        b"news - - sea ".as_slice()
    );
    assert_eq!(rt; disk.moment(), 10);
    assert_eq!(rt; disk.calls(), 10);
    Ok(())
}

#[test]
fn a_stopped_script_leaves_three_images(rt: HostRuntime) -> Result<(), Fail> {
    let alloc = rt.alloc();
    let rows: [(u64, &[u8], &[u8], &[u8], &[u8]); 5] = [
        (
            4,
            b"old bee sea - ",
            b"old bee sea - ",
            b"news bee sea - ",
            b"ne bee sea - ",
        ),
        (
            5,
            b"news bee sea - ",
            b"old bee sea - ",
            b"news - sea - ",
            b"ne - sea - ",
        ),
        (
            6,
            b"news - sea - ",
            b"old bee sea - ",
            b"news - - sea ",
            b"ne - - sea ",
        ),
        (
            7,
            b"news - - sea ",
            b"old bee sea - ",
            b"news - - sea ",
            b"ne - - sea ",
        ),
        (
            8,
            b"news - - sea ",
            b"news - - sea ",
            b"news - - sea ",
            b"news - - sea ",
        ),
    ];
    for (stop, read, old, new, half) in rows {
        let (disk, is_done) = stopped(alloc, stop)?;
        assert_eq!(rt; is_done, stop > 7);
        assert_eq!(rt; whole(alloc, &disk)?.as_slice(), read, "stopped at {stop}");
        let moment = disk.moment();
        for (crash, left) in [(Crash::Old, old), (Crash::New, new), (Crash::Half, half)] {
            let next = disk.after_crash(alloc, moment, crash)?;
            assert_eq!(rt;
                whole(alloc, &next)?.as_slice(),
                left,
                "stopped at {stop}, {crash:?}"
            );
            assert_eq!(rt; (next.calls(), next.faults()), (0, 0));
        }
    }
    Ok(())
}

#[test]
fn a_disk_fails_at_each_number(rt: HostRuntime) -> Result<(), Fail> {
    let alloc = rt.alloc();
    let a = path(alloc, "a")?;
    for number in 0..7u64 {
        let mut disk = MemDisk::new(alloc, numbers(alloc, number, number)?, None);
        let failed = [
            disk.write(&a, b"one").is_err(),
            disk.rename(&a, &a).is_err(),
            disk.sync().is_err(),
            disk.read(alloc, &a).is_err(),
            disk.list(alloc, &a).is_err(),
            disk.remove(&a).is_err(),
            disk.write(&a, b"two").is_err(),
        ];
        for (call, has_failed) in failed.iter().enumerate() {
            assert_eq!(rt; *has_failed, call as u64 == number);
        }
        assert_eq!(rt; disk.faults(), 1);
        assert_eq!(rt; disk.refused(), 0);
    }
    Ok(())
}
