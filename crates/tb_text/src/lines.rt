ghost use Rattle.std.specs.Prelude.{◌≡◌, ◌≤◌, length};
ghost use Rattle.tb_text.specs.Lines.{begins_character, column_at, column_of_end, line_at, line_of_end};

/// The line and the column of a place in a text, both from 1. Lines are ended by LF alone; columns count characters,
/// one at each byte that is not `80` to `BF` in hex.
pub fn line_col(text: &[u8], offset: usize) -> (u32, u32)
    requires within { offset ≤ length text.now }
    requires small { length text.now ≤ 4194304 }
    ensures line { result.0 ≡ line_at text.now offset }
    ensures column { result.1 ≡ column_at text.now offset }
{
    end_of(&text[..offset])
}

// The line and the column at which a text ends.
fn end_of(front: &[u8]) -> (u32, u32)
    requires { length front.now ≤ 4194304 }
    ensures line { result.0 ≡ line_of_end front.now }
    ensures column { result.1 ≡ column_of_end front.now }
{
    let mut line: u32 = 1;
    let mut column: u32 = 1;
    for byte in front {
        if *byte == b'\n' {
            line += 1;
            column = 1;
        } else if begins_character(*byte) {
            column += 1;
        }
    }
    (line, column)
}

fn begins_character(byte: u8) -> bool
    ensures { result ≡ begins_character byte }
{
    !(0x80 <= byte && byte < 0xC0)
}
