ghost use Rattle.std.specs.Prelude.{false, []};

use std::alloc::Global;
use tb_outside::{Feed, Trouble, Turn};

/// A feed of which no edit comes. It never fails.
#[derive(Clone, Copy)]
pub struct EndFeed;

impl Feed for EndFeed {
    ghost tells = { false };

    ghost turns = { λ f. [] };

    ghost count = { λ f. 0 };

    fn faults(&self) -> u64 {
        0
    }

    fn next(&mut self, _alloc: Global) -> Result<Turn, Trouble> {
        Ok(Turn::End)
    }
}
