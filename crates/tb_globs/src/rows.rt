//! One part of a pattern further from its end, for each rest of the segments at once.
ghost use Rattle.std.specs.Prelude.{◌≡◌, ◌+◌, ◌&&◌, ◌||◌, ℕ, List, Bool, length};
ghost use Rattle.tb_globs.specs.Globs.{part_then, through, fits_then};
ghost use Rattle.tb_globs.specs.Rows.{IsRow};
ghost use Rattle.tb_text.specs.Walks.{texts};

use crate::UseOf;
use crate::parts::Part;
use crate::segments::{fits, may_pass};

/// From the answers for what follows a part to the answers for the part and what follows it.
pub fn step(row: &mut [bool], usage: UseOf, part: &Part, segments: &[&str])
    requires { length row.old ≡ length segments.now + 1 }
    ensures { (f : List (List ℕ) → Bool) → IsRow row.old f (texts segments.now)
        → IsRow row.new (part_then usage part.now f) (texts segments.now) }
{
    match part {
        Part::Folders => pass(row, usage, segments),
        Part::Literal(_) | Part::Wild(_) => take(row, usage, part, segments),
    }
}

fn pass(row: &mut [bool], usage: UseOf, segments: &[&str])
    requires { length row.old ≡ length segments.now + 1 }
    ensures { (f : List (List ℕ) → Bool) → IsRow row.old f (texts segments.now)
        → IsRow row.new (through usage f) (texts segments.now) }
{
    for at in (0..segments.len()).rev() {
        let passes = may_pass(usage, segments[at]);
        row[at] = here_or_later(row[at], passes, row[at + 1]);
    }
}

fn take(row: &mut [bool], usage: UseOf, part: &Part, segments: &[&str])
    requires { length row.old ≡ length segments.now + 1 }
    ensures { (f : List (List ℕ) → Bool) → IsRow row.old f (texts segments.now)
        → IsRow row.new (fits_then usage part.now f) (texts segments.now) }
{
    for at in 0..segments.len() {
        let here = fits(usage, part, segments[at]);
        row[at] = both(here, row[at + 1]);
    }
    row[segments.len()] = false;
}

fn here_or_later(here: bool, passes: bool, later: bool) -> bool
    ensures { result ≡ (here || passes && later) }
{
    here || passes && later
}

fn both(here: bool, later: bool) -> bool
    ensures { result ≡ (here && later) }
{
    here && later
}
