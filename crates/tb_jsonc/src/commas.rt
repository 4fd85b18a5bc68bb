//! A text without comments on its way to a text without trailing commas.
ghost use Rattle.std.specs.Prelude.{◌<◌, vec_len};
ghost use Rattle.std.specs.Option.{ForSome};

use crate::bytes::{is_blank, is_closing, is_opening};
use crate::pieces::{Cell, Kind};
use std::alloc::{AllocError, Global};

/// The bytes so far. A comma that only blanks follow yet is remembered: what comes next decides about it.
#[derive(Drop)]
pub struct Commas {
    out: Vec<u8>,
    /// The last character that is no blank is `,`, `[` or `{`.
    fresh: bool,
    comma: Option<usize>,
    ghost within: { ForSome comma (λ i. i < vec_len out) },
}

impl Commas {
    ghost use Rattle.std.specs.Prelude.{◌≡◌, ◌++◌, ◌==◌, ◌&&◌, not, if◌then◌else◌, [], ◌∷◌, List, false, map, OnOk, IsTrue, IsFalse};
    ghost use Rattle.tb_jsonc.specs.Blanks.{cell, is_blank, uncommaed};
    ghost use Rattle.tb_jsonc.specs.Commas.{finished, settled};
    ghost use Rattle.tb_jsonc.specs.declared.pieces.Cell.{Cell};

    pub fn new(alloc: Global) -> Commas
        ensures { (later : List Cell) → finished result later ≡ uncommaed false later }
    {
        Commas {
            out: Vec::new(alloc),
            fresh: false,
            comma: None,
        }
    }

    /// One byte further.
    pub fn put(&mut self, cell: Cell) -> Result<(), AllocError>
        ensures { OnOk result ((later : List Cell) → finished self.new later ≡ finished self.old (cell ∷ later)) }
    {
        match cell {
            Cell::Quoted(b) => self.put_quoted(b),
            Cell::Free(b) => {
                if is_blank(b) {
                    self.put_blank(b)
                } else {
                    self.put_character(b)
                }
            }
        }
    }

    /// One piece further.
    pub fn put_piece(&mut self, kind: Kind, bytes: &[u8]) -> Result<(), AllocError>
        ensures { OnOk result ((later : List Cell) → finished self.new later
            ≡ finished self.old (map (cell kind) bytes.now ++ later)) }
    {
        for b in bytes {
            self.put(kind.cell(*b))?;
        }
        Ok(())
    }

    /// The bytes where nothing more comes.
    pub fn finish(self) -> Vec<u8>
        ensures { result.items ≡ finished self [] }
    {
        let Commas {
            out,
            fresh: _,
            comma: _,
        } = self;
        out
    }

    fn put_quoted(&mut self, b: u8) -> Result<(), AllocError>
        ensures { OnOk result ((later : List Cell) → finished self.new later ≡ finished self.old (Cell.Quoted b ∷ later)) }
    {
        self.comma = None;
        self.fresh = false;
        self.out.push(b)?;
        Ok(())
    }

    fn put_blank(&mut self, b: u8) -> Result<(), AllocError>
        requires { IsTrue (is_blank b) }
        ensures { OnOk result ((later : List Cell) → finished self.new later ≡ finished self.old (Cell.Free b ∷ later)) }
    {
        self.out.push(b)?;
        Ok(())
    }

    fn put_character(&mut self, b: u8) -> Result<(), AllocError>
        requires { IsFalse (is_blank b) }
        ensures { OnOk result ((later : List Cell) → finished self.new later ≡ finished self.old (Cell.Free b ∷ later)) }
    {
        let comma = self.comma_at_end(b);
        self.settle(is_closing(b));
        self.out.push(b)?;
        self.comma = comma;
        self.fresh = is_opening(b);
        Ok(())
    }

    /// The place of this byte, where it is a comma that may be a trailing one.
    fn comma_at_end(&self, b: u8) -> Option<usize>
        ensures { result ≡ (if b == 44 && not self.now.fresh then Some (vec_len self.now.out) else None) }
    {
        if b == b',' && !self.fresh {
            Some(self.out.len())
        } else {
            None
        }
    }

    /// The remembered comma becomes a space where it is a trailing one, and is forgotten.
    fn settle(&mut self, trailing: bool)
        ensures out { self.new.out.items ≡ settled self.old.out.items self.old.comma trailing }
        ensures fresh { self.new.fresh ≡ self.old.fresh }
        ensures comma { self.new.comma ≡ None }
        ensures len { vec_len self.new.out ≡ vec_len self.old.out }
    {
        if let Some(at) = self.comma {
            if trailing {
                self.out[at] = b' ';
            }
        }
        self.comma = None;
    }
}
