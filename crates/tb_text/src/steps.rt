ghost use Rattle.std.specs.Prelude.{◌≡◌, ◌<◌, ◌^◌};
ghost use Rattle.tb_text.specs.Counts.{plus};

use std::marker::{Model, PhantomData};

/// A count of steps that can neither be cloned nor be made without a ledger, so that code which is generic over
/// `L` can only raise the counter that it was lent. Contracts see the number. It stays at the last value of `u64`.
#[derive(Drop)]
pub struct Steps<L> {
    count: u64,
    ledger: PhantomData<L>,
}

impl<L> Model for Steps<L> {
    ghost use Rattle.std.specs.Prelude.{ℕ};

    ghost Value = { ℕ };

    ghost view = { λ s. s.count };
}

impl<L: Drop> Steps<L> {
    /// A counter at 0. It takes no memory.
    pub fn new(_ledger: L) -> Steps<L>
        ensures { result ≡ 0 }
    {
        Steps {
            count: 0,
            ledger: PhantomData,
        }
    }
}

impl<L> Steps<L> {
    pub fn count(&self) -> u64
        ensures count { result ≡ self.now }
        ensures fits { self.now < 2 ^ 64 }
    {
        self.count
    }

    /// One more, or the last value of `u64`.
    pub fn tick(&mut self)
        ensures { self.new ≡ plus self.old 1 }
    {
        self.count = self.count.saturating_add(1);
    }
}
