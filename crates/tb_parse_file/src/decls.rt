//! Declaration files.

ghost use Rattle.tb_parse_file.specs.Decls as spec;
ghost use Rattle.tb_text.specs.declared.findings.Finding.{Finding};

use crate::decl_items::{DeclReading, decl_items};
use crate::{FileFault, NO_ITEM, NO_TEXT, finding, without_mark};
use std::alloc::Global;
use std::str;
use tb_parse_type::Reader;
use tb_scan::scan;
use tb_tree::Surface;

/// Reads a declaration file, in time that is linear in its bytes. Offsets count from the byte after a byte order mark, and
/// each string of the surface is in double quotes, whatever its spelling in the file.
pub fn read_decl(alloc: Global, text: &[u8]) -> Result<Surface, FileFault>
    ensures answers { spec.DeclAnswers text.now result }
    ensures surface { (surface : Surface) → spec.ReadsDecl text.now surface → spec.IsSurface surface result }
    ensures fault { (finding : Finding) → spec.HasDeclFault text.now finding → spec.IsDeclFault finding result }
{
    decl_bytes(alloc, text)
}

fn decl_bytes(alloc: Global, text: &[u8]) -> Result<Surface, FileFault>
    ensures { spec.DeclAnswers text.now result }
{
    match str::from_utf8(text) {
        Ok(text) => decl_text(alloc, text),
        Err(_) => Err(FileFault::Syntax(finding(alloc, 0, NO_TEXT))),
    }
}

fn decl_text(alloc: Global, text: &str) -> Result<Surface, FileFault>
    ensures { spec.DeclAnswers text.now result }
{
    let text = without_mark(text);
    let tokens = scan(alloc, text)?;
    let reader = Reader {
        alloc,
        tokens: tokens.as_slice(),
        text,
    };
    match decl_items(reader)? {
        DeclReading::Items(items) => Ok(Surface { items }),
        DeclReading::StopsAt(at) => Err(FileFault::Syntax(finding(alloc, at, NO_ITEM))),
    }
}
