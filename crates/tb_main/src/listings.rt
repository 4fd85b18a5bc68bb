ghost use Rattle.std.specs.Prelude.{◌≡◌};
ghost use Rattle.tb_main.specs.Folders.{is_left_out};

use crate::files::{read_own_file, unless_absent};
use std::alloc::{AllocError, Global};
use std::fs::DirEntry;
use std::io::ErrorKind;
use std::rt::Files;
use std::{fs, io};
use tb_text::{List, Path, PathFault};

/// The most names that a listing meets: one that goes past them is a fault.
const MOST_NAMES: u32 = 16_777_216;

/// What a build info begins with.
const INFO_START: &[u8] = b"{\"builder\":\"tb";

/// Which folders a listing goes into.
#[derive(Clone, Copy)]
pub enum Reach {
    /// Every folder.
    All,
    /// Those of sources: none that is named `node_modules`, whose name begins with a dot, or that directly holds a
    /// build info.
    Sources,
}

/// All files inside a folder, at any depth, ascending, each once; none where the folder is absent. The folder itself is
/// always listed. Links are not followed, and names that are no paths are left out.
pub fn list_files<R: Files + AllocGlobal + Clone + Drop>(
    rt: &R,
    alloc: Global,
    folder: &Path,
    reach: Reach,
) -> io::Result<List<Path>> {
    let mut listing = Listing::begin(alloc, folder)?;
    // Each folder but the first is a name that was met.
    for _ in 0..=MOST_NAMES {
        let Some(next) = listing.folders.pop() else {
            return Ok(listing.finish());
        };
        listing.visit(rt, alloc, &next, reach)?;
    }
    Err(too_many_names())
}

/// A listing on its way: the files that it found, the folders that it has yet to visit, and how many names it met.
#[derive(Drop)]
struct Listing {
    files: Vec<Path>,
    folders: Vec<Path>,
    met: u32,
}

impl Listing {
    fn begin(alloc: Global, folder: &Path) -> Result<Listing, AllocError> {
        let mut folders = Vec::new(alloc);
        folders.push(folder.clone()?)?;
        Ok(Listing {
            files: Vec::new(alloc),
            folders,
            met: 0,
        })
    }

    fn visit<R: Files + AllocGlobal + Clone + Drop>(
        &mut self,
        rt: &R,
        alloc: Global,
        folder: &Path,
        reach: Reach,
    ) -> io::Result<()> {
        let Some(entries) = unless_absent(fs::read_dir(rt, place(folder)))? else {
            return Ok(());
        };
        for entry in entries {
            self.meet_name()?;
            if let Some(entry) = unless_absent(entry)? {
                self.meet(rt, alloc, folder, &entry, reach)?;
            }
        }
        Ok(())
    }

    fn meet_name(&mut self) -> io::Result<()> {
        if self.met >= MOST_NAMES {
            return Err(too_many_names());
        }
        self.met += 1;
        Ok(())
    }

    fn meet<R: Files + AllocGlobal>(
        &mut self,
        rt: &R,
        alloc: Global,
        folder: &Path,
        entry: &DirEntry<R>,
        reach: Reach,
    ) -> io::Result<()> {
        let Some(path) = path_in(alloc, folder, entry.file_name())? else {
            return Ok(());
        };
        let Some(kind) = unless_absent(entry.file_type())? else {
            return Ok(());
        };
        if kind.is_file() {
            self.files.push(path)?;
        } else if kind.is_dir() && is_reached(rt, alloc, &path, entry.file_name(), reach)? {
            self.folders.push(path)?;
        }
        Ok(())
    }

    fn finish(self) -> List<Path> {
        let mut files = self.files;
        files.sort_unstable();
        files.dedup();
        List::from_vec(files)
    }
}

fn too_many_names() -> io::Error {
    io::Error::from(ErrorKind::FileTooLarge)
}

// How the system names a folder. The root is where the program starts.
fn place(folder: &Path) -> &str {
    match folder.as_str() {
        "" => ".",
        text => text,
    }
}

// The path of a name in a folder, or none where it is no path.
fn path_in(alloc: Global, folder: &Path, name: &str) -> io::Result<Option<Path>> {
    match folder.join(alloc, name) {
        Ok(path) => Ok(Some(path)),
        Err(PathFault::BadPath) => Ok(None),
        Err(PathFault::NoMemory) => Err(io::Error::from(ErrorKind::OutOfMemory)),
    }
}

fn is_reached<R: Files>(
    rt: &R,
    alloc: Global,
    folder: &Path,
    name: &str,
    reach: Reach,
) -> io::Result<bool> {
    match reach {
        Reach::All => Ok(true),
        Reach::Sources if is_left_out(name) => Ok(false),
        Reach::Sources => Ok(!holds_info(rt, alloc, folder)?),
    }
}

// Whether a folder of this name is never one of sources.
fn is_left_out(name: &str) -> bool
    ensures { result ≡ is_left_out name.now }
{
    name == "node_modules" || name.starts_with('.')
}

fn holds_info<R: Files>(rt: &R, alloc: Global, folder: &Path) -> io::Result<bool> {
    let mut info = String::from_str(alloc, folder.as_str())?;
    info.push_str("/tsconfig.tsbuildinfo")?;
    let front = read_own_file(rt, alloc, info.as_str(), INFO_START.len() as u64)?;
    Ok(front.as_slice() == INFO_START)
}
