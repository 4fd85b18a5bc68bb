ghost use Rattle.std.specs.Prelude.{true, ◌≡◌, ◌++◌, [], None, OnOk, OnErr};
ghost use Rattle.tb_outside.specs.Causes.{Causes, has_failed};
ghost use Rattle.tb_outside.specs.Told.{TakesFront};
ghost use Rattle.tb_memory.specs.Plans.{FailsWhere, after_call};

use crate::plans::Plan;
use std::alloc::Global;
use std::marker::Model;
use tb_outside::{Failed, Sink};
use tb_text::List;

/// A sink that keeps what it takes, whose calls of given numbers fail. Its calls are numbered from 0. A call that
/// fails takes nothing.
#[derive(Drop)]
pub struct MemSink {
    taken: Vec<u8>,
    refused: u64,
    plan: Plan,
}

impl Model for MemSink {
    ghost use Rattle.tb_memory.specs.States.{SinkState};

    ghost Value = { SinkState };

    ghost view = { λ s. record { taken = s.taken.items; refused = s.refused; plan = s.plan } };
}

impl MemSink {
    pub fn new(alloc: Global, failing: List<u64>) -> MemSink
        ensures taken { result.taken ≡ [] }
        ensures refused { result.refused ≡ 0 }
        ensures failing { result.plan.failing ≡ failing }
        ensures stop { result.plan.stop ≡ None }
        ensures calls { result.plan.calls ≡ 0 }
        ensures faults { result.plan.faults ≡ 0 }
    {
        MemSink {
            taken: Vec::new(alloc),
            refused: 0,
            plan: Plan::new(failing, None),
        }
    }

    /// The bytes that it took. This is no call of the outside: it has no number.
    pub fn taken(&self) -> &[u8]
        ensures { result.now ≡ self.now.taken }
    {
        self.taken.as_slice()
    }

    /// How often a `put` wanted for memory. These are a part of its faults.
    pub fn refused(&self) -> u64
        ensures { result ≡ self.now.refused }
    {
        self.refused
    }
}

impl Sink for MemSink {
    ghost tells = { true };

    ghost taken = { λ s. s.taken };

    ghost count = { λ s. s.plan.faults };

    fn faults(&self) -> u64 {
        self.plan.faults()
    }

    // The clauses of the trait, just when it fails, and that nothing is taken then.
    fn put(&mut self, bytes: &[u8]) -> Result<(), Failed>
        ensures whole { OnOk result (self.new.taken ≡ self.old.taken ++ bytes.now) }
        ensures front { OnErr result (TakesFront self.old.taken bytes.now self.new.taken) }
        ensures nothing { OnErr result (self.new.taken ≡ self.old.taken) }
        ensures cause { Causes self.old.plan.faults self.new.plan.faults (has_failed result) }
        ensures exact { FailsWhere self.old.plan self.old.refused self.new.refused (has_failed result) }
        ensures plan { self.new.plan ≡ after_call self.old.plan (has_failed result) }
    {
        self.plan.begin()?;
        match self.taken.extend_from_slice(bytes) {
            Ok(()) => Ok(()),
            Err(_) => {
                self.refused = self.refused.saturating_add(1);
                Err(self.plan.fail())
            }
        }
    }
}
