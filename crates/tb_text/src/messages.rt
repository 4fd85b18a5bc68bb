ghost use Rattle.std.specs.Prelude.{◌≡◌, ◌≤◌, length, min, IfOk, string_bytes};
ghost use Rattle.tb_text.specs.Messages.{code_text, diag_line, message, without_mark};

use crate::codes::{Place, pieces_of};
use crate::{Code, Diag, NoMemory, Text, line_col};
use std::alloc::{AllocError, Global};

/// The printed line of a diagnostic, without its end: `path(line,column): error CODE: message`. The line and the
/// column are counted in the text of the diagnostic's file without a leading byte order mark; a place beyond the
/// text's end is read as its end.
pub fn diag_text(alloc: Global, diag: &Diag, text: &[u8]) -> Result<Text, NoMemory>
    requires { length (without_mark text.now) ≤ 4194304 }
    ensures { IfOk result (λ t. t ≡ diag_line diag.now text.now) }
{
    let text = without_mark(text);
    let (line, column) = line_col(text, place(diag.finding.offset, text.len()));
    let path = diag.path.as_str();
    let code = code_text(alloc, &diag.finding.code)?;
    let code = code.as_str();
    let message = message(
        alloc,
        &diag.finding.code,
        diag.finding.first.as_str(),
        diag.finding.second.as_str(),
    )?;
    let message = message.as_str();
    let printed = format!(in alloc; "{path}({line},{column}): error {code}: {message}")?;
    Ok(Text::from_vec(printed.into_bytes()))
}

fn place(offset: u64, end: usize) -> usize
    ensures { result ≡ min offset end }
{
    if offset < end as u64 {
        offset as usize
    } else {
        end
    }
}

fn without_mark(text: &[u8]) -> &[u8]
    ensures { result.now ≡ without_mark text.now }
{
    if text.starts_with(b"\xEF\xBB\xBF".as_slice()) {
        &text[3..]
    } else {
        text
    }
}

fn code_text(alloc: Global, code: &Code) -> Result<String, AllocError>
    ensures { IfOk result (λ t. string_bytes t ≡ code_text code.now) }
{
    let number = code.number;
    if code.own {
        format!(in alloc; "TB{number}")
    } else {
        format!(in alloc; "TS{number}")
    }
}

fn message(alloc: Global, code: &Code, first: &str, second: &str) -> Result<String, AllocError>
    ensures { IfOk result (λ t. string_bytes t ≡ message code.now first.now second.now) }
{
    let mut text = String::new(alloc);
    for (words, place) in pieces_of(code) {
        text.push_str(*words)?;
        match place {
            Place::First => text.push_str(first)?,
            Place::Second => text.push_str(second)?,
            Place::Number => write!(text, "{}", code.number)?,
            Place::End => {}
        }
    }
    Ok(text)
}
