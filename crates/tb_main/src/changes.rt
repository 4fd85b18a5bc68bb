ghost use Rattle.std.specs.Prelude.{◌≡◌, ◌<◌, All, IfErr, IfOk, IfSome, IsSome, IsTrue, OnOk, codes, length, map, slice_index, string_bytes, take};
ghost use Rattle.std.specs.BTreeSet.{btree_set_len};
ghost use Rattle.tb_main.specs.Noted.{AreFoldersNoted, IsNoted, KeepsPlaces};

use crate::places::Places;
use std::alloc::Global;
use std::collections::BTreeSet;
use std::io::ErrorKind;
use std::thread::Threads;
use std::{io, thread};

/// The most threads among which the places of one sync are shared out. Each waits for the device and hardly computes,
/// so there may be many more than processors: the system writes out together what many threads wait for.
const MOST_THREADS: usize = 64;

/// The places that were changed since the last sync: files, and the folders above them.
#[derive(Drop)]
pub struct Changes {
    alloc: Global,
    places: BTreeSet<String>,
}

impl Changes {
    pub fn none(alloc: Global) -> Changes {
        Changes {
            alloc,
            places: BTreeSet::new(alloc),
        }
    }

    /// The memory from which the notes are taken.
    pub fn alloc(&self) -> Global {
        self.alloc
    }

    /// Notes that a file is put at a path, or taken from it.
    pub fn note(&mut self, path: &str) -> io::Result<()>
        ensures file { OnOk result (IsNoted self.new.places path.now) }
        ensures root { OnOk result (IsNoted self.new.places (codes ".")) }
        ensures folders { OnOk result (AreFoldersNoted self.new.places path.now) }
        ensures kept { KeepsPlaces self.old.places self.new.places }
    {
        self.note_place(path)?;
        self.note_place(".")?;
        for end in 1..path.len() {
            if let Some(folder) = folder_ending(path, end) {
                self.note_place(folder)?;
            }
        }
        Ok(())
    }

    fn note_place(&mut self, path: &str) -> io::Result<()>
        ensures noted { OnOk result (IsNoted self.new.places path.now) }
        ensures kept { KeepsPlaces self.old.places self.new.places }
    {
        if !self.places.contains(path) {
            self.places.insert(String::from_str(self.alloc, path)?)?;
        }
        Ok(())
    }

    /// Has the system write out all that was changed. Where one place is not written out, all of them stay noted.
    pub fn settle<R: Places + Threads + Sync>(&mut self, rt: &R) -> io::Result<()>
        ensures synced { OnOk result (All (λ place. R.synced (string_bytes place)) self.old.places.keys) }
        ensures none_left { IfOk result (λ done. btree_set_len self.new.places ≡ 0) }
        ensures kept { IfErr result (λ error. self.new ≡ self.old) }
    {
        let mut places = unsynced(self.alloc, &self.places)?;
        let answer = sync_all(rt, places.as_mut_slice());
        drop(places);
        answer?;
        self.places.clear();
        Ok(())
    }
}

/// A place that was changed, and whether the system has written it out.
#[derive(Drop)]
struct Place<'a> {
    path: &'a str,
    is_synced: bool,
}

// These places, none of which is written out yet.
fn unsynced(alloc: Global, paths: &BTreeSet<String>) -> io::Result<Vec<Place<'_>>>
    ensures { IfOk result (λ places. map (λ place. place.path.now) places.items ≡ map string_bytes paths.now.keys) }
{
    let mut places = Vec::new(alloc);
    for path in paths {
        places.push(Place {
            path: path.as_str(),
            is_synced: false,
        })?;
    }
    Ok(places)
}

// Each place is tried, also where another one failed.
fn sync_all<R: Places + Threads + Sync>(rt: &R, places: &mut [Place<'_>]) -> io::Result<()>
    ensures { OnOk result (All (λ place. R.synced place.path.now) places.old) }
{
    thread::for_each_mut(rt, places, MOST_THREADS, &|_, place| sync_one(rt, place));
    if places.iter().all(|place| place.is_synced) {
        Ok(())
    } else {
        Err(io::Error::from(ErrorKind::Other))
    }
}

fn sync_one<R: Places>(rt: &R, place: &mut Place<'_>)
    ensures path { place.new.path.now ≡ place.old.path.now }
    ensures synced { IsTrue place.new.is_synced → R.synced place.old.path.now }
{
    place.is_synced = rt.sync(place.path).is_ok();
}

// The text up to this place, where a `/` follows.
fn folder_ending(path: &str, end: usize) -> Option<&str>
    ensures front { IfSome result (λ folder. folder.now ≡ take end path.now) }
    ensures found { end < length path.now → slice_index path.now end ≡ 47 → IsSome result }
{
    let (folder, rest) = path.split_at_checked(end)?;
    if rest.starts_with('/') {
        Some(folder)
    } else {
        None
    }
}
