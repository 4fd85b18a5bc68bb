//! Reads source files and declaration files: the tokens of a text as items, each the longest front of the rest that is one.
#![tactic(auto)]

ghost use Rattle.std.specs.Prelude.{◌≡◌};
ghost use Rattle.tb_text.specs.Messages.{without_mark};
ghost use Rattle.tb_parse_file.specs.Files as spec;

mod choice;
mod classes;
mod decl_choice;
mod decl_items;
mod decl_members;
mod declarations;
mod decls;
mod fronts;
mod imports;
mod items;
mod laws;
mod quoting;
mod signatures;

pub use decls::read_decl;
use items::{Reading, items};
pub use laws::readings_are_determined;
use std::alloc::Global;
use std::str;
use tb_parse_type::Reader;
use tb_scan::scan;
use tb_text::{Code, Finding, Name, NoMemory};
use tb_tree::File;
use thiserror::Error;

/// An item has no reading.
pub const NO_ITEM: u16 = 1001;

/// The file is not UTF-8.
pub const NO_TEXT: u16 = 1002;

/// Why a source is not read.
#[derive(Clone, Debug, PartialEq, Eq, Error, Drop)]
pub enum FileFault {
    /// It has no reading, and this is its one finding.
    #[error("the file has no reading")]
    Syntax(Finding),
    #[error("out of memory")]
    NoMemory,
}

impl From<NoMemory> for FileFault {
    ghost use Rattle.tb_parse_file.specs.declared.FileFault.TheVariants.{NoMemory};

    ghost from_gives = { λ _ e. e ≡ NoMemory };

    fn from(_: NoMemory) -> Self {
        FileFault::NoMemory
    }
}

/// Reads a source file, in time that is linear in its bytes. Offsets count from the byte after a byte order mark.
pub fn read_file(alloc: Global, text: &[u8]) -> Result<File, FileFault>
    ensures answers { spec.Answers text.now result }
    ensures file { (file : File) → spec.ReadsFile text.now file → spec.IsFile file result }
    ensures fault { (finding : Finding) → spec.HasFault text.now finding → spec.IsFault finding result }
{
    read_bytes(alloc, text)
}

fn read_bytes(alloc: Global, text: &[u8]) -> Result<File, FileFault>
    ensures { spec.Answers text.now result }
{
    match str::from_utf8(text) {
        Ok(text) => read_text(alloc, text),
        Err(_) => Err(FileFault::Syntax(finding(alloc, 0, NO_TEXT))),
    }
}

fn read_text(alloc: Global, text: &str) -> Result<File, FileFault>
    ensures { spec.Answers text.now result }
{
    let text = without_mark(text);
    let tokens = scan(alloc, text)?;
    let reader = Reader {
        alloc,
        tokens: tokens.as_slice(),
        text,
    };
    match items(reader)? {
        Reading::Items(items) => Ok(File { items }),
        Reading::StopsAt(at) => Err(FileFault::Syntax(finding(alloc, at, NO_ITEM))),
    }
}

fn without_mark(text: &str) -> &str
    ensures { result.now ≡ without_mark text.now }
{
    if text.as_bytes().starts_with(b"\xEF\xBB\xBF".as_slice()) {
        &text[3..]
    } else {
        text
    }
}

/// A finding of this project's own, without arguments.
fn finding(alloc: Global, at: usize, number: u16) -> Finding
    ensures { result ≡ spec.finding at number }
{
    Finding {
        offset: at as u64,
        code: Code { own: true, number },
        first: Name::from_string(String::new(alloc)),
        second: Name::from_string(String::new(alloc)),
    }
}
