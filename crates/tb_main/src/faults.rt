ghost use Rattle.std.specs.Prelude.{◌≡◌, ◌≤◌, Err, MatchResult, Ok, is_ok};
ghost use Rattle.std.specs.IoError.{error_kind};
ghost use Rattle.tb_outside.specs.Causes.{Causes, Rose, has_failed, has_fault};
ghost use Rattle.tb_main.specs.Errors.{trouble_of};

use std::io;
use std::io::ErrorKind;
use tb_outside::{Failed, Trouble};

/// How often an object of the outside has failed. The count stays at the last value of `u64`.
#[derive(Drop)]
pub struct Faults {
    count: u64,
}

impl Faults {
    pub fn none() -> Faults
        ensures { result.count ≡ 0 }
    {
        Faults { count: 0 }
    }

    pub fn count(&self) -> u64
        ensures { result ≡ self.now.count }
    {
        self.count
    }

    /// What a call answers where the system answered so. Refused memory is no fault.
    pub fn told<T: Drop>(&mut self, answer: io::Result<T>) -> Result<T, Trouble>
        ensures cause { Causes self.old.count self.new.count (has_fault result) }
        ensures answer { MatchResult answer (λ value. result ≡ Ok value) (λ error. result ≡ Err (trouble_of (error_kind error))) }
    {
        match answer {
            Ok(value) => Ok(value),
            Err(error) if error.kind() == ErrorKind::OutOfMemory => Err(Trouble::NoMemory),
            Err(_) => {
                self.rise();
                Err(Trouble::Failed)
            }
        }
    }

    /// The same of a call that has no answer for want of memory: there it is a fault like any other.
    pub fn done(&mut self, answer: io::Result<()>) -> Result<(), Failed>
        ensures cause { Causes self.old.count self.new.count (has_failed result) }
        ensures answer { is_ok result ≡ is_ok answer }
    {
        match answer {
            Ok(()) => Ok(()),
            Err(_) => {
                self.rise();
                Err(Failed)
            }
        }
    }

    fn rise(&mut self)
        ensures rose { Rose self.old.count self.new.count }
        ensures later { self.old.count ≤ self.new.count }
    {
        self.count = self.count.saturating_add(1);
    }
}
