ghost use Rattle.std.specs.Prelude.{◌≡◌, Some, None, IfOk, IsErrOf, option_map, false};
ghost use Rattle.tb_jsonc.specs.Blanks.{blanked, uncommaed, uncommented, unmarked};
ghost use Rattle.tb_jsonc.specs.declared.pieces.Kind.TheVariants.{Plain};

use crate::JsonFault;
use crate::commas::Commas;
use crate::pieces::first_piece;
use std::alloc::Global;
use std::str::from_utf8;
use tb_text::Text;

/// The text with spaces in place of its comments and of its trailing commas, without a byte order mark at its front.
/// It is unreadable exactly where a comment has no end or the bytes are not UTF-8. A string without an end goes on to
/// the end of the text.
pub fn blanked(alloc: Global, text: &[u8]) -> Result<Text, JsonFault>
    ensures ok { IfOk result (λ t. blanked text.now ≡ Some t) }
    ensures unreadable { IsErrOf result JsonFault.Unreadable → blanked text.now ≡ None }
{
    let Ok(_) = from_utf8(text) else {
        return Err(JsonFault::Unreadable);
    };
    let bytes = blank(alloc, unmarked(text))?;
    Ok(Text::from_vec(bytes))
}

fn unmarked(text: &[u8]) -> &[u8]
    ensures { result.now ≡ unmarked text.now }
{
    match text {
        [0xEF, 0xBB, 0xBF, rest @ ..] => rest,
        _ => text,
    }
}

fn blank(alloc: Global, text: &[u8]) -> Result<Vec<u8>, JsonFault>
    ensures ok { IfOk result (λ v. option_map (uncommaed false) (uncommented 0 Plain text.now) ≡ Some v.items) }
    ensures unreadable { IsErrOf result JsonFault.Unreadable → uncommented 0 Plain text.now ≡ None }
{
    let mut commas = Commas::new(alloc);
    let mut rest = text;
    while !rest.is_empty() {
        let Some(piece) = first_piece(rest) else {
            return Err(JsonFault::Unreadable);
        };
        let (bytes, after) = rest.split_at(piece.len);
        commas.put_piece(piece.kind, bytes)?;
        rest = after;
    }
    Ok(commas.finish())
}
