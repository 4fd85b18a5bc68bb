ghost use Rattle.std.specs.Prelude.{false, []};

use crate::faults::Faults;
use tb_outside::{Failed, Sink};

/// Standard output. It tells nothing of what it took.
#[derive(Drop)]
pub struct RealSink<'a, R> {
    rt: &'a R,
    faults: Faults,
}

impl<'a, R> RealSink<'a, R> {
    pub fn new(rt: &'a R) -> RealSink<'a, R> {
        RealSink {
            rt,
            faults: Faults::none(),
        }
    }
}

impl<'a, R: Print> Sink for RealSink<'a, R> {
    ghost tells = { false };

    ghost taken = { λ s. [] };

    ghost count = { λ s. s.faults.count };

    fn faults(&self) -> u64 {
        self.faults.count()
    }

    fn put(&mut self, bytes: &[u8]) -> Result<(), Failed> {
        let answer = self.rt.write_all(bytes);
        self.faults.done(answer)
    }
}
