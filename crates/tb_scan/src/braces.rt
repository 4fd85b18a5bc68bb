ghost use Rattle.std.specs.Prelude.{◌≡◌, [], ◌∷◌, drop, OnOk, OnErr};

use crate::token::Kind;
use std::alloc::Global;
use std::marker::Model;
use tb_text::NoMemory;

/// What a `}` closes.
#[derive(Clone, Copy, Debug, PartialEq, Eq)]
pub enum Bracket {
    /// The mark `{`.
    Brace,
    /// The `${` of a template.
    Hole,
}

/// What is open at a place of a text. Contracts see the list of it, the innermost first.
#[derive(Debug, Drop)]
pub struct Braces {
    open: Vec<Bracket>,
}

impl Model for Braces {
    ghost use Rattle.std.specs.Prelude.{List, reverse};
    ghost use Rattle.tb_scan.specs.declared.braces.Bracket.{Bracket};

    ghost Value = { List Bracket };

    ghost view = { λ b. reverse b.open.items };
}

impl Braces {
    ghost use Rattle.tb_scan.specs.Tokens.{in_hole, after};

    /// Nothing is open. Takes no memory.
    pub fn new(alloc: Global) -> Braces
        ensures { result ≡ [] }
    {
        Braces {
            open: Vec::new(alloc),
        }
    }

    /// Whether a `}` here would close the `${` of a template.
    pub fn in_hole(&self) -> bool
        ensures { result ≡ in_hole self.now }
    {
        match self.open.last() {
            Some(Bracket::Hole) => true,
            _ => false,
        }
    }

    /// Goes past a token.
    pub(crate) fn pass(&mut self, kind: Kind, spelled: &[u8]) -> Result<(), NoMemory>
        ensures ok { OnOk result (self.new ≡ after kind spelled.now self.old) }
        ensures err { OnErr result (self.new ≡ self.old) }
    {
        match kind {
            Kind::Head => self.push(Bracket::Hole),
            Kind::Tail => {
                self.pop();
                Ok(())
            }
            Kind::Mark => self.pass_mark(spelled),
            _ => Ok(()),
        }
    }

    fn pass_mark(&mut self, spelled: &[u8]) -> Result<(), NoMemory>
        ensures ok { OnOk result (self.new ≡ after Kind.Mark spelled.now self.old) }
        ensures err { OnErr result (self.new ≡ self.old) }
    {
        if spelled == b"{".as_slice() {
            return self.push(Bracket::Brace);
        }
        if spelled == b"}".as_slice() {
            self.pop();
        }
        Ok(())
    }

    fn push(&mut self, bracket: Bracket) -> Result<(), NoMemory>
        ensures ok { OnOk result (self.new ≡ bracket ∷ self.old) }
        ensures err { OnErr result (self.new ≡ self.old) }
    {
        self.open.push(bracket)?;
        Ok(())
    }

    fn pop(&mut self)
        ensures { self.new ≡ drop 1 self.old }
    {
        let _ = self.open.pop();
    }
}
