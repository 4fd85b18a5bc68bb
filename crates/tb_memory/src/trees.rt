ghost use Rattle.std.specs.Prelude.{true, ◌≡◌, ◌≤◌, [], None, IfOk, take, length, IsTrue};
ghost use Rattle.std.specs.List.Sorted.{IsStrictlySortedBy};
ghost use Rattle.std.specs.FinMap as map;
ghost use Rattle.tb_text.specs.Bytes.{bytes_cmp};
ghost use Rattle.tb_outside.specs.Causes.{Causes, has_fault};
ghost use Rattle.tb_outside.specs.Told.{bytes_at};
ghost use Rattle.tb_memory.specs.Plans.{is_due, after_call};

use crate::plans::Plan;
use std::alloc::Global;
use std::marker::Model;
use tb_outside::{Tree, Trouble};
use tb_text::{List, NoMemory, Path, Text, Texts};

/// A tree of given files, whose calls of given numbers fail. Its calls are numbered from 0.
#[derive(Drop)]
pub struct MemTree {
    texts: Texts,
    plan: Plan,
}

impl Model for MemTree {
    ghost use Rattle.tb_memory.specs.States.{TreeState, coded_tree};

    ghost Value = { TreeState };

    ghost coded = { coded_tree };

    ghost view = { λ t. record { texts = t.texts; plan = t.plan } };
}

impl MemTree {
    pub fn new(texts: Texts, failing: List<u64>) -> MemTree
        ensures texts { result.texts ≡ texts }
        ensures failing { result.plan.failing ≡ failing }
        ensures stop { result.plan.stop ≡ None }
        ensures calls { result.plan.calls ≡ 0 }
        ensures faults { result.plan.faults ≡ 0 }
    {
        MemTree {
            texts,
            plan: Plan::new(failing, None),
        }
    }
}

impl Tree for MemTree {
    ghost tells = { true };

    ghost texts = { λ t. t.texts };

    ghost count = { λ t. t.plan.faults };

    fn faults(&self) -> u64 {
        self.plan.faults()
    }

    // The clauses of the trait, and just when it fails.
    fn list(&mut self, alloc: Global) -> Result<List<Path>, Trouble>
        ensures paths { IfOk result (λ paths. paths ≡ map.keys self.old.texts) }
        ensures ascending { IfOk result (λ paths. IsStrictlySortedBy bytes_cmp paths) }
        ensures same { self.new.texts ≡ self.old.texts }
        ensures cause { Causes self.old.plan.faults self.new.plan.faults (has_fault result) }
        ensures exact { has_fault result ≡ is_due self.old.plan }
        ensures plan { self.new.plan ≡ after_call self.old.plan (has_fault result) }
    {
        self.plan.begin()?;
        Ok(self.texts.paths(alloc)?)
    }

    // The clauses of the trait, and just when it fails.
    fn read(&mut self, alloc: Global, path: &Path, most: u64) -> Result<Text, Trouble>
        ensures text { IfOk result (λ text. text ≡ take most (bytes_at self.old.texts path.now)) }
        ensures short { IfOk result (λ text. length text ≤ most) }
        ensures same { self.new.texts ≡ self.old.texts }
        ensures cause { Causes self.old.plan.faults self.new.plan.faults (has_fault result) }
        ensures exact { has_fault result ≡ is_due self.old.plan }
        ensures plan { self.new.plan ≡ after_call self.old.plan (has_fault result) }
    {
        self.plan.begin()?;
        match self.texts.get(path) {
            Some(text) => Ok(front(alloc, text.as_slice(), most)?),
            None => Ok(Text::from_vec(Vec::new(alloc))),
        }
    }
}

fn front(alloc: Global, bytes: &[u8], most: u64) -> Result<Text, NoMemory>
    ensures text { IfOk result (λ text. text ≡ take most bytes.now) }
    ensures short { IfOk result (λ text. length text ≤ most) }
{
    if most < bytes.len() as u64 {
        Text::copy_of(alloc, &bytes[..most as usize])
    } else {
        Text::copy_of(alloc, bytes)
    }
}
