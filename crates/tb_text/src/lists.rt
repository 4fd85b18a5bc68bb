ghost use Rattle.std.specs.Prelude.{◌≡◌, ◌==◌, ◌<◌, [], ◌∷◌, ◌++◌, length, slice_get, OnOk, OnErr, OnSome};
ghost use Rattle.std.specs.Option.{option_copied};
ghost use Rattle.std.specs.Cmp.Lexicographic.{lists_equiv, lists_per, pointwise};

use crate::NoMemory;
use std::alloc::{AllocError, Global};
use std::marker::Model;

/// A `Vec` that contracts see as the list of its members.
#[derive(Debug, Drop)]
pub struct List<X> {
    members: Vec<X>,
}

impl<X> Model for List<X> {
    ghost use Rattle.std.specs.Prelude.{List as Members};
    ghost use Rattle.std.specs.Coded.{coded_list};

    ghost Value = { Members X };

    ghost coded = { coded_list X.code };

    ghost view = { λ l. l.members.items };
}

impl<X> List<X> {
    pub fn new(alloc: Global) -> List<X>
        ensures { result ≡ [] }
    {
        List {
            members: Vec::new(alloc),
        }
    }

    pub fn from_vec(members: Vec<X>) -> List<X>
        ensures { result ≡ members.items }
    {
        List { members }
    }

    pub fn into_vec(self) -> Vec<X>
        ensures { result.items ≡ self }
    {
        let List { members } = self;
        members
    }

    pub fn as_slice(&self) -> &[X]
        ensures { result.now ≡ self.now }
    {
        self.members.as_slice()
    }

    pub fn len(&self) -> usize
        ensures { result ≡ length self.now }
    {
        self.members.len()
    }

    pub fn is_empty(&self) -> bool
        ensures { result ≡ (length self.now == 0) }
    {
        self.members.is_empty()
    }

    pub fn get(&self, at: usize) -> Option<&X>
        ensures value { option_copied result ≡ slice_get self.now at }
        ensures within { OnSome result (at < length self.now) }
    {
        self.members.get(at)
    }
}

impl<X: Drop> List<X> {
    pub fn push(&mut self, member: X) -> Result<(), NoMemory>
        ensures ok { OnOk result (self.new ≡ self.old ++ member ∷ []) }
        ensures err { OnErr result (self.new ≡ self.old) }
    {
        self.members.push(member)?;
        Ok(())
    }
}

impl<X: PartialEq> PartialEq for List<X> {
    ghost eq = { pointwise X.eq };

    ghost laws = { lists_per X.PartialEq.laws };

    fn eq(&self, other: &List<X>) -> bool {
        self.members.as_slice() == other.members.as_slice()
    }
}

impl<X: Eq> Eq for List<X> {
    ghost laws = { lists_equiv X.Eq.laws };
}

impl<X: Clone> Clone for List<X> {
    ghost is_clone = { λ a b. ((x y : X) → X.is_clone x y → y ≡ x) → b ≡ a };

    fn clone(&self) -> Result<Self, AllocError> {
        let members = self.members.clone()?;
        Ok(List { members })
    }
}
