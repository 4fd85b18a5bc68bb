//! A path against all parts of a pattern.
ghost use Rattle.std.specs.Prelude.{◌≡◌, ◌+◌, ◌<◌, ◌≤◌, ℕ, List, [], ◌∷◌, length, take};
ghost use Rattle.tb_globs.specs.Globs.{parts_match};
ghost use Rattle.tb_globs.specs.Rows.{IsRow, ends, reaches};
ghost use Rattle.tb_text.specs.Paths.{segments};
ghost use Rattle.tb_text.specs.Walks.{texts};

use crate::UseOf;
use crate::parts::Part;
use crate::rows::step;

/// At least as many as a path has segments, and one more.
const MOST_SEGMENTS: usize = 1025;

const MOST_ANSWERS: usize = 1026;

/// Whether the parts match the path.
pub fn walk(parts: &[Part], usage: UseOf, path: &str) -> bool
    requires { length path.now ≤ 1024 }
    ensures { result ≡ parts_match usage parts.now (segments path.now) }
{
    let mut found = [""; MOST_SEGMENTS];
    let count = cut(path, &mut found);
    follow(parts, usage, &found[..count])
}

/// The segments of a path, from the front. How many they are.
fn cut<'a>(path: &'a str, found: &mut [&'a str]) -> usize
    requires { length path.now < length found.old }
    ensures within { result ≤ length found.new }
    ensures segments { texts (take result found.new) ≡ segments path.now }
{
    if path.is_empty() {
        return 0;
    }
    let mut count = 0;
    for segment in path.split('/') {
        found[count] = segment;
        count += 1;
    }
    count
}

fn follow(parts: &[Part], usage: UseOf, segments: &[&str]) -> bool
    requires { length segments.now ≤ 1025 }
    ensures { result ≡ parts_match usage parts.now (texts segments.now) }
{
    let mut answers = [false; MOST_ANSWERS];
    let row = &mut answers[..segments.len() + 1];
    answer(row, parts, usage, segments);
    row[0]
}

/// The answers of all parts for each rest of the segments.
fn answer(row: &mut [bool], parts: &[Part], usage: UseOf, segments: &[&str])
    requires { length row.old ≡ length segments.now + 1 }
    ensures { IsRow row.new (reaches usage parts.now) (texts segments.now) }
{
    answer_end(row, usage);
    for at in (0..parts.len()).rev() {
        step(row, usage, &parts[at], segments);
    }
}

/// The answers where no parts are left.
fn answer_end(row: &mut [bool], usage: UseOf)
    requires { 0 < length row.old }
    ensures { (ss : List (List ℕ)) → length row.old ≡ length ss + 1 → IsRow row.new (ends usage) ss }
{
    let anywhere = ends_anywhere(usage);
    for slot in row.iter_mut() {
        *slot = anywhere;
    }
    let last = row.len() - 1;
    row[last] = true;
}

/// Whether what follows the segments that are matched may be left over.
fn ends_anywhere(usage: UseOf) -> bool
    ensures { result ≡ ends usage ([] ∷ []) }
{
    match usage {
        UseOf::Include => false,
        UseOf::Exclude => true,
    }
}
