//! The table of codes and texts.
ghost use Rattle.std.specs.Prelude.{◌≡◌, map};
ghost use Rattle.tb_text.specs.Messages.{covers, pieces_in, rows};
ghost use Rattle.tb_text.specs.Borrows.{plain_pieces, plain_row};

use crate::Code;
use Place::{End, First, Number, Second};

/// What stands behind some words of a text.
#[derive(Clone, Copy)]
pub(crate) enum Place {
    /// The first argument of the finding.
    First,
    /// The second argument of the finding.
    Second,
    /// The number of the code.
    Number,
    /// Nothing: the text ends here.
    End,
}

/// A text with places for the arguments.
pub(crate) type Pieces = &'static [(&'static str, Place)];

// Whether the codes are this project's own, the first and the last of their numbers, and their text. A clause cannot
// name a constant with a struct that holds a reference, so a row is a tuple.
type Row = (bool, u16, u16, Pieces);

const TS: bool = false;

const TB: bool = true;

/// The rows of the table. No code is in two of them.
#[rattlefmt::skip]
pub(crate) const ROWS: [Row; 18] = [
    (TS, 2300, 2300, &[("Duplicate identifier '", First), ("'.", End)]),
    (TS, 2304, 2304, &[("Cannot find name '", First), ("'.", End)]),
    (TS, 2305, 2305, &[("Module '", First), ("' has no exported member '", Second), ("'.", End)]),
    (TS, 2307, 2307, &[("Cannot find module '", First), ("'.", End)]),
    (TS, 2322, 2322, &[("Type '", First), ("' is not assignable to type '", Second), ("'.", End)]),
    (TS, 2339, 2339, &[("Property '", First), ("' does not exist on type '", Second), ("'.", End)]),
    (TS, 2345, 2345, &[("Argument of type '", First), ("' is not assignable to parameter of type '", Second), ("'.", End)]),
    (TS, 2554, 2554, &[("Expected ", First), (" arguments, but got ", Second), (".", End)]),
    (TS, 6202, 6202, &[("Project references form a cycle: ", First), (".", End)]),
    (TS, 6306, 6306, &[("Referenced project '", First), ("' must set composite.", End)]),
    (TS, 6307, 6307, &[("File '", First), ("' is not in the file list of project '", Second), ("'.", End)]),
    (TB, 1001, 1001, &[("This item has no reading.", End)]),
    (TB, 1002, 1002, &[("The file is not UTF-8.", End)]),
    (TB, 2101, 2125, &[("Rule ", Number), (" of section 6 to 9 is broken by '", First), ("'.", End)]),
    (TB, 5001, 5001, &[("Config is unreadable.", End)]),
    (TB, 5002, 5002, &[("Config not found.", End)]),
    (TB, 5003, 5015, &[("Config fault ", Number), (": '", First), ("'.", End)]),
    (TB, 9001, 9003, &[("'", First), ("' needs a type annotation.", End)]),
];

/// The text of a code: of no piece where no row has the code.
pub(crate) fn pieces_of(code: &Code) -> Pieces
    ensures { plain_pieces result.now ≡ pieces_in rows code.now }
{
    first_with(ROWS.as_slice(), code)
}

fn first_with(rows: &[Row], code: &Code) -> Pieces
    ensures { plain_pieces result.now ≡ pieces_in (map plain_row rows.now) code.now }
{
    for row in rows {
        if covers(row, code) {
            return row.3;
        }
    }
    &[]
}

fn covers(row: &Row, code: &Code) -> bool
    ensures { result ≡ covers (plain_row row.now) code.now }
{
    row.0 == code.own && row.1 <= code.number && code.number <= row.2
}
