ghost use Rattle.std.specs.Prelude.{◌≤◌, false};
ghost use Rattle.std.specs.FinMap as map;

use crate::faults::Faults;
use crate::files::read_own_file;
use crate::listings::{Reach, list_files};
use std::alloc::Global;
use std::io;
use std::rt::Files;
use tb_outside::{Tree, Trouble};
use tb_text::{List, Path, PathFault, Text};

/// The sources in the folder where the program starts. It tells nothing of them.
#[derive(Drop)]
pub struct RealTree<'a, R> {
    rt: &'a R,
    faults: Faults,
}

impl<'a, R> RealTree<'a, R> {
    pub fn new(rt: &'a R) -> RealTree<'a, R> {
        RealTree {
            rt,
            faults: Faults::none(),
        }
    }
}

impl<'a, R: Files + AllocGlobal + Clone + Drop> Tree for RealTree<'a, R> {
    ghost tells = { false };

    ghost texts = { λ t. map.empty };

    ghost count = { λ t. t.faults.count };

    fn faults(&self) -> u64 {
        self.faults.count()
    }

    fn list(&mut self, alloc: Global) -> Result<List<Path>, Trouble> {
        let answer = list_sources(self.rt, alloc);
        self.faults.told(answer)
    }

    fn read(&mut self, alloc: Global, path: &Path, most: u64) -> Result<Text, Trouble> {
        let answer = read_own_file(self.rt, alloc, path.as_str(), most);
        self.faults.told(answer)
    }
}

fn list_sources<R: Files + AllocGlobal + Clone + Drop>(
    rt: &R,
    alloc: Global,
) -> io::Result<List<Path>> {
    let root = match Path::read(alloc, "") {
        Ok(root) => root,
        Err(PathFault::BadPath | PathFault::NoMemory) => {
            return Err(io::Error::from(io::ErrorKind::OutOfMemory));
        }
    };
    list_files(rt, alloc, &root, Reach::Sources)
}
