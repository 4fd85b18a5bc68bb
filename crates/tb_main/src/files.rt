ghost use Rattle.std.specs.Prelude.{◌≡◌, ◌≤◌, Err, false, IfErr, IfOk, IfSome, MatchResult, None, Ok, Some, length, if◌then◌else◌};
ghost use Rattle.std.specs.IoError.{error_kind};
ghost use Rattle.tb_main.specs.Errors.{is_absence};

use std::alloc::Global;
use std::fs::{Metadata, OpenFile};
use std::io::{ErrorKind, Read};
use std::rt::Files;
use std::{fs, io};
use tb_text::Text;

/// The most bytes of a file that are read: a read that goes past them is a fault.
const MOST_BYTES: u64 = 4_294_967_296;

/// The first `most` bytes of the file at a path, or none where no file stands there. Links are followed.
pub fn read_file<R: Files>(rt: &R, alloc: Global, path: &str, most: u64) -> io::Result<Option<Text>>
    ensures short { IfOk result (λ found. IfSome found (λ text. length text ≤ most)) }
{
    if !is_file(fs::metadata(rt, path))? {
        return Ok(None);
    }
    let text = read_front(rt, alloc, path, most)?;
    Ok(Some(text))
}

/// The same of a file that is there itself, and not by a link. No bytes where it is absent.
pub fn read_own_file<R: Files>(rt: &R, alloc: Global, path: &str, most: u64) -> io::Result<Text>
    ensures short { IfOk result (λ text. length text ≤ most) }
{
    if !is_file(fs::symlink_metadata(rt, path))? {
        return Ok(Text::from_vec(Vec::new(alloc)));
    }
    read_front(rt, alloc, path, most)
}

fn read_front<R: Files>(rt: &R, alloc: Global, path: &str, most: u64) -> io::Result<Text>
    ensures short { IfOk result (λ text. length text ≤ most) }
{
    let mut bytes = Vec::new(alloc);
    // One byte further than may be read shows that there is more.
    let mut front = fs::open(rt, path)?.take(most.min(MOST_BYTES + 1));
    front.read_to_end(&mut bytes)?;
    if bytes.len() as u64 > most.min(MOST_BYTES) {
        return Err(io::Error::from(ErrorKind::FileTooLarge));
    }
    Ok(Text::from_vec(bytes))
}

/// Whether a file stands at a path, by a link too.
pub fn stands<R: Files>(rt: &R, path: &str) -> io::Result<bool> {
    is_file(fs::metadata(rt, path))
}

/// Puts a file at a path, and makes the folders above it.
pub fn put_file<R: Files>(rt: &R, path: &str, bytes: &[u8]) -> io::Result<()> {
    make_folders(rt, path)?;
    fs::write(rt, path, bytes)
}

/// Moves a file, and makes the folders above the target. Nothing is done where there is no file to move.
pub fn move_file<R: Files>(rt: &R, from: &str, to: &str) -> io::Result<()> {
    if !stands(rt, from)? {
        return Ok(());
    }
    make_folders(rt, to)?;
    fs::rename(rt, from, to)
}

/// Takes a file away. Nothing is done where it is absent.
pub fn remove_file<R: Files>(rt: &R, path: &str) -> io::Result<()> {
    unless_absent(fs::remove_file(rt, path))?;
    Ok(())
}

/// Has the system write out what stands at a path, a file or a folder. Nothing is done where it is absent.
pub fn sync_place<R: Files>(rt: &R, path: &str) -> io::Result<()> {
    match unless_absent(fs::open(rt, path))? {
        Some(place) => place.sync_all(),
        None => Ok(()),
    }
}

fn make_folders<R: Files>(rt: &R, path: &str) -> io::Result<()> {
    match path.rsplit_once('/') {
        Some((folder, _)) => fs::create_dir_all(rt, folder),
        None => Ok(()),
    }
}

// Whether what the system says of a path is that a file stands there.
fn is_file(answer: io::Result<Metadata>) -> io::Result<bool>
    ensures { IfErr answer (λ error. result ≡ (if is_absence (error_kind error) then Ok false else Err error)) }
{
    match unless_absent(answer)? {
        Some(metadata) => Ok(metadata.is_file()),
        None => Ok(false),
    }
}

/// What the system answers, or nothing where it says that there is no such file or folder.
pub fn unless_absent<T: Drop>(answer: io::Result<T>) -> io::Result<Option<T>>
    ensures { MatchResult answer (λ value. result ≡ Ok (Some value)) (λ error. result ≡ (if is_absence (error_kind error) then Ok None else Err error)) }
{
    match answer {
        Ok(value) => Ok(Some(value)),
        Err(error) if is_absence(&error) => Ok(None),
        Err(error) => Err(error),
    }
}

// A name that the system does not take, as it is too long or no text, is that of no file.
fn is_absence(error: &io::Error) -> bool
    ensures { result ≡ is_absence (error_kind error.now) }
{
    match error.kind() {
        ErrorKind::NotFound
        | ErrorKind::NotADirectory
        | ErrorKind::IsADirectory
        | ErrorKind::InvalidFilename => true,
        _ => false,
    }
}
