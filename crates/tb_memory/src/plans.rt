ghost use Rattle.std.specs.Prelude.{◌≡◌, ◌≤◌, ◌+◌, true, false, IsTrue};
ghost use Rattle.tb_text.specs.Counts.{plus};
ghost use Rattle.tb_outside.specs.Causes.{Causes, Rose, has_failed};
ghost use Rattle.tb_memory.specs.Plans.{is_due, is_stop, reaches, after_call};

use std::marker::Model;
use tb_outside::Failed;
use tb_text::List;

/// The calls that are to fail, by their numbers, and how many did.
#[derive(Drop)]
pub struct Plan {
    failing: List<u64>,
    stop: Option<u64>,
    calls: u64,
    faults: u64,
}

impl Model for Plan {
    ghost use Rattle.tb_memory.specs.Plans as plans;

    ghost Value = { plans.Plan };

    ghost view = { λ p. record { failing = p.failing; stop = p.stop; calls = p.calls; faults = p.faults } };
}

impl Plan {
    pub fn new(failing: List<u64>, stop: Option<u64>) -> Plan
        ensures failing { result.failing ≡ failing }
        ensures stop { result.stop ≡ stop }
        ensures calls { result.calls ≡ 0 }
        ensures faults { result.faults ≡ 0 }
    {
        Plan {
            failing,
            stop,
            calls: 0,
            faults: 0,
        }
    }

    pub fn faults(&self) -> u64
        ensures { result ≡ self.now.faults }
    {
        self.faults
    }

    fn is_due(&self) -> bool
        ensures { result ≡ is_due self.now }
    {
        let is_stopped = match self.stop {
            Some(stop) => stop <= self.calls,
            None => false,
        };
        is_stopped || self.failing.as_slice().contains(&self.calls)
    }

    /// Whether the next call is the one of the stop.
    pub fn is_stop(&self) -> bool
        ensures { result ≡ is_stop self.now }
    {
        match self.stop {
            Some(stop) => stop == self.calls,
            None => false,
        }
    }

    /// The number of the next call.
    pub fn calls(&self) -> u64
        ensures { result ≡ self.now.calls }
    {
        self.calls
    }

    /// Counts a fault of a call that was not to fail.
    pub fn fail(&mut self) -> Failed
        ensures failing { self.new.failing ≡ self.old.failing }
        ensures stop { self.new.stop ≡ self.old.stop }
        ensures calls { self.new.calls ≡ self.old.calls }
        ensures faults { self.new.faults ≡ plus self.old.faults 1 }
        ensures rose { Rose self.old.faults self.new.faults }
        ensures later { self.old.faults ≤ self.new.faults }
    {
        self.faults = self.faults.saturating_add(1);
        Failed
    }

    /// Counts a call, and fails it where it is to fail.
    pub fn begin(&mut self) -> Result<(), Failed>
        ensures exact { has_failed result ≡ is_due self.old }
        ensures plan { self.new ≡ after_call self.old (has_failed result) }
        ensures stopped { IsTrue (reaches self.old.stop self.old.calls) → IsTrue (reaches self.new.stop self.new.calls) }
        ensures cause { Causes self.old.faults self.new.faults (has_failed result) }
    {
        let is_due = self.is_due();
        self.calls = self.calls.saturating_add(1);
        if is_due {
            self.faults = self.faults.saturating_add(1);
            return Err(Failed);
        }
        Ok(())
    }
}
