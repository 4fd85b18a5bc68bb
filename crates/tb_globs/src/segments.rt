//! One segment of a path.
ghost use Rattle.std.specs.Prelude.{◌≡◌};
ghost use Rattle.std.specs.List.{list_any};
ghost use Rattle.tb_globs.specs.Covers.{is_wild};
ghost use Rattle.tb_globs.specs.Globs.{fits, may_pass, shows, is_hidden, is_package};
ghost use Rattle.tb_globs.specs.declared.parts.Part.TheVariants.{Wild};
ghost use Rattle.tb_globs.specs.declared.parts.UseOf.TheVariants.{Include};

use crate::UseOf;
use crate::cover::covers;
use crate::parts::Part;

/// Whether a part other than `**` matches the segment.
pub fn fits(usage: UseOf, part: &Part, segment: &str) -> bool
    ensures { result ≡ fits usage part.now segment.now }
{
    match part {
        Part::Folders => false,
        Part::Literal(name) => name.as_str() == segment,
        Part::Wild(pattern) => match usage {
            UseOf::Include => includes(pattern.as_slice(), segment),
            UseOf::Exclude => covers(pattern.as_slice(), segment),
        },
    }
}

fn includes(pattern: &[char], segment: &str) -> bool
    ensures { result ≡ fits Include (Wild pattern.now) segment.now }
{
    shows(pattern, segment) && !(has_wildcard(pattern) && is_package(segment))
}

fn has_wildcard(pattern: &[char]) -> bool
    ensures { result ≡ list_any is_wild pattern.now }
{
    pattern.iter().any(|c| is_wild(*c))
}

fn shows(pattern: &[char], segment: &str) -> bool
    ensures { result ≡ shows pattern.now segment.now }
{
    match pattern {
        [first, rest @ ..] if is_wild(*first) && is_hidden(segment) => {
            *first == '*' && covers(rest, segment)
        }
        _ => covers(pattern, segment),
    }
}

/// Whether `**` may stand for the segment.
pub fn may_pass(usage: UseOf, segment: &str) -> bool
    ensures { result ≡ may_pass usage segment.now }
{
    match usage {
        UseOf::Include => !(is_hidden(segment) || is_package(segment)),
        UseOf::Exclude => true,
    }
}

fn is_wild(c: char) -> bool
    ensures { result ≡ is_wild c }
{
    c == '*' || c == '?'
}

fn is_hidden(segment: &str) -> bool
    ensures { result ≡ is_hidden segment.now }
{
    segment.as_bytes().first() == Some(&b'.')
}

fn is_package(segment: &str) -> bool
    ensures { result ≡ is_package segment.now }
{
    segment == "node_modules" || segment == "bower_components" || segment == "jspm_packages"
}
