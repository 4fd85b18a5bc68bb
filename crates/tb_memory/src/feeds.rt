ghost use Rattle.std.specs.Prelude.{true, ◌≡◌, None, IfOk, IsErrOf, OnErr};
ghost use Rattle.tb_outside.specs.Causes.{Causes, has_fault};
ghost use Rattle.tb_outside.specs.Told.{TakesTurn};
ghost use Rattle.tb_memory.specs.Plans.{is_due, after_call};

use crate::plans::Plan;
use std::alloc::Global;
use std::collections::VecDeque;
use std::marker::Model;
use tb_outside::{Feed, Trouble, Turn};
use tb_text::List;

/// A feed of given turns, whose calls of given numbers fail. Its calls are numbered from 0. A call that fails takes
/// no turn off.
#[derive(Drop)]
pub struct ScriptFeed {
    turns: VecDeque<Turn>,
    plan: Plan,
}

impl Model for ScriptFeed {
    ghost use Rattle.tb_memory.specs.States.{FeedState};

    ghost Value = { FeedState };

    ghost view = { λ f. record { turns = f.turns.items; plan = f.plan } };
}

impl ScriptFeed {
    pub fn new(turns: VecDeque<Turn>, failing: List<u64>) -> ScriptFeed
        ensures turns { result.turns ≡ turns.items }
        ensures failing { result.plan.failing ≡ failing }
        ensures stop { result.plan.stop ≡ None }
        ensures calls { result.plan.calls ≡ 0 }
        ensures faults { result.plan.faults ≡ 0 }
    {
        ScriptFeed {
            turns,
            plan: Plan::new(failing, None),
        }
    }
}

impl Feed for ScriptFeed {
    ghost tells = { true };

    ghost turns = { λ f. f.turns };

    ghost count = { λ f. f.plan.faults };

    fn faults(&self) -> u64 {
        self.plan.faults()
    }

    // The clauses of the trait, just when it fails, and that nothing is taken off then.
    fn next(&mut self, _alloc: Global) -> Result<Turn, Trouble>
        ensures first { IfOk result (λ turn. TakesTurn self.old.turns turn self.new.turns) }
        ensures refused { OnErr result (self.new.turns ≡ self.old.turns) }
        ensures cause { Causes self.old.plan.faults self.new.plan.faults (has_fault result) }
        ensures exact { has_fault result ≡ is_due self.old.plan }
        ensures plan { self.new.plan ≡ after_call self.old.plan (has_fault result) }
    {
        self.plan.begin()?;
        match self.turns.pop_front() {
            Some(turn) => Ok(turn),
            None => Ok(Turn::End),
        }
    }
}
