ghost use Rattle.std.specs.Prelude.{◌<◌, ◌≤◌, ℕ, List, IfOk, IfSome, IsTrue, OnOk, length};

use crate::files;
use std::alloc::Global;
use std::io;
use std::rt::Files;
use tb_text::Text;

/// What the system is asked of a place, a file or a folder. What it answers is all that is known of the place: what is
/// decided by its answers is proved of any system, and the real one tells nothing.
pub trait Places {
    /// It said that the file at this path has these bytes and no more.
    ghost holds: { List ℕ → List ℕ → Type 0 };

    /// It said that what stands at this path is written out, or that nothing stands there.
    ghost synced: { List ℕ → Type 0 };

    /// The first `most` bytes of the file at a path, or none where no file stands there. Links are followed.
    fn read(&self, alloc: Global, path: &str, most: u64) -> io::Result<Option<Text>>
        ensures short { IfOk result (λ found. IfSome found (λ text. length text ≤ most)) }
        ensures whole { IfOk result (λ found. IfSome found (λ text. length text < most → holds path.now text)) };

    /// Puts a file at a path, and makes the folders above it.
    fn put(&self, path: &str, bytes: &[u8]) -> io::Result<()>
        ensures { OnOk result (holds path.now bytes.now) };

    /// Has the system write out what stands at a path. Nothing is done where it is absent.
    fn sync(&self, path: &str) -> io::Result<()>
        ensures { OnOk result (synced path.now) };
}

impl<R: Files> Places for R {
    ghost holds = { λ path bytes. Unit {0} };

    ghost synced = { λ path. Unit {0} };

    fn read(&self, alloc: Global, path: &str, most: u64) -> io::Result<Option<Text>> {
        files::read_file(self, alloc, path, most)
    }

    fn put(&self, path: &str, bytes: &[u8]) -> io::Result<()> {
        files::put_file(self, path, bytes)
    }

    fn sync(&self, path: &str) -> io::Result<()> {
        files::sync_place(self, path)
    }
}

/// Puts a file at a path, and makes the folders above it. A file that has these bytes already is left as it is.
pub fn write_file<P: Places>(places: &P, alloc: Global, path: &str, bytes: &[u8]) -> io::Result<()>
    ensures { OnOk result (P.holds path.now bytes.now) }
{
    if holds(places, alloc, path, bytes) {
        return Ok(());
    }
    places.put(path, bytes)
}

// Whether a file at a path is known to have these bytes and no more. One that cannot be read is not known to.
fn holds<P: Places>(places: &P, alloc: Global, path: &str, bytes: &[u8]) -> bool
    ensures { IsTrue result → P.holds path.now bytes.now }
{
    // One byte further than is wanted shows that there is more.
    let most = (bytes.len() as u64).saturating_add(1);
    match places.read(alloc, path, most) {
        Ok(Some(text)) => text.as_slice() == bytes,
        Ok(None) | Err(_) => false,
    }
}
