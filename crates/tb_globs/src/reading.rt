//! The parts of a pattern, as they are read from its text.
ghost use Rattle.std.specs.Prelude.{◌≡◌, ◌+◌, ◌<◌, ◌^◌, ◌++◌, IfOk, OnOk, map, length, fold};
ghost use Rattle.std.specs.List.{list_any};
ghost use Rattle.std.specs.Str.{chars};
ghost use Rattle.tb_globs.specs.Covers.{is_wild};
ghost use Rattle.tb_globs.specs.Globs.{parts_at, named_parts, own_part, everything, standing, kept, last_of, is_folder_name, is_mark};
ghost use Rattle.tb_globs.specs.declared.parts.Part.TheVariants.{Literal};
ghost use Rattle.tb_text.specs.Paths.{segments};
ghost use Rattle.tb_text.specs.Walks.{texts};

use crate::parts::Part;
use std::alloc::{AllocError, Global};
use tb_text::{List, Name, NoMemory, Path};

/// What the text means that comes from the folder `base` to this path.
pub fn parts_at(alloc: Global, base: &Path, text: &str, path: &Path) -> Result<List<Part>, NoMemory>
    ensures { IfOk result (λ parts. parts ≡ parts_at base.now text.now path.now) }
{
    let segments = segments_of(alloc, path.as_str())?;
    let mut parts = List::new(alloc);
    if path == base || base.inside(path) {
        push_literals(alloc, &mut parts, segments.as_slice())?;
        push_everything(alloc, &mut parts)?;
        return Ok(parts);
    }
    let kept = kept(alloc, base, text)?;
    let mut parts = named_parts(alloc, kept, segments.as_slice())?;
    if is_folder_name(last_of(segments.as_slice())) {
        push_everything(alloc, &mut parts)?;
        return Ok(parts);
    }
    Ok(parts)
}

/// The first segments as literal parts, as many as are kept of the folder, and the others as the text's own.
fn named_parts(alloc: Global, kept: usize, segments: &[&str]) -> Result<List<Part>, NoMemory>
    ensures { IfOk result (λ parts. parts ≡ named_parts kept (texts segments.now)) }
{
    let (literal, own) = segments.split_at(kept.min(segments.len()));
    let mut parts = List::new(alloc);
    push_literals(alloc, &mut parts, literal)?;
    push_own(alloc, &mut parts, own)?;
    Ok(parts)
}

fn segments_of<'a>(alloc: Global, text: &'a str) -> Result<Vec<&'a str>, AllocError>
    ensures { IfOk result (λ v. texts v.items ≡ segments text.now) }
{
    if text.is_empty() {
        return Ok(Vec::new(alloc));
    }
    text.split('/').collect(alloc)
}

fn push_literals(alloc: Global, parts: &mut List<Part>, segments: &[&str]) -> Result<(), NoMemory>
    ensures { OnOk result (parts.new ≡ parts.old ++ map Literal (texts segments.now)) }
{
    for segment in segments {
        parts.push(Part::Literal(Name::copy_of(alloc, *segment)?))?;
    }
    Ok(())
}

fn push_own(alloc: Global, parts: &mut List<Part>, segments: &[&str]) -> Result<(), NoMemory>
    ensures { OnOk result (parts.new ≡ parts.old ++ map own_part (texts segments.now)) }
{
    for segment in segments {
        parts.push(own_part(alloc, *segment)?)?;
    }
    Ok(())
}

fn own_part(alloc: Global, segment: &str) -> Result<Part, NoMemory>
    ensures { IfOk result (λ part. part ≡ own_part segment.now) }
{
    if segment == "**" {
        return Ok(Part::Folders);
    }
    if has_wildcard(segment.as_bytes()) {
        return Ok(Part::Wild(characters_of(alloc, segment)?));
    }
    Ok(Part::Literal(Name::copy_of(alloc, segment)?))
}

fn has_wildcard(segment: &[u8]) -> bool
    ensures { result ≡ list_any is_wild segment.now }
{
    segment.iter().any(|b| is_wild(*b))
}

fn is_wild(b: u8) -> bool
    ensures { result ≡ is_wild b }
{
    b == b'*' || b == b'?'
}

fn characters_of(alloc: Global, segment: &str) -> Result<List<char>, AllocError>
    ensures { IfOk result (λ l. l ≡ chars segment.now) }
{
    let characters: Vec<char> = segment.chars().collect(alloc)?;
    Ok(List::from_vec(characters))
}

fn push_everything(alloc: Global, parts: &mut List<Part>) -> Result<(), NoMemory>
    ensures { OnOk result (parts.new ≡ parts.old ++ everything) }
{
    let mut star = List::new(alloc);
    star.push('*')?;
    parts.push(Part::Folders)?;
    parts.push(Part::Wild(star))?;
    Ok(())
}

/// How many segments of the folder still stand where the text leads.
fn kept(alloc: Global, base: &Path, text: &str) -> Result<usize, AllocError>
    ensures { IfOk result (λ n. n ≡ kept base.now text.now) }
{
    let base = segments_of(alloc, base.as_str())?;
    let way = segments_of(alloc, text)?;
    Ok(standing_after(base.len(), way.as_slice()))
}

fn standing_after(base: usize, way: &[&str]) -> usize
    ensures { result ≡ (fold standing (base, 0) (texts way.now)).0 }
{
    let mut kept = base;
    let mut own = 0;
    for part in way {
        let next = standing(kept, own, *part);
        kept = next.0;
        own = next.1;
    }
    kept
}

fn standing(kept: usize, own: usize, part: &str) -> (usize, usize)
    requires { own + 1 < 2 ^ 64 }
    ensures { result ≡ standing (kept, own) part.now }
{
    if part == "." {
        return (kept, own);
    }
    if part != ".." {
        return (kept, own + 1);
    }
    if own == 0 {
        return (kept.saturating_sub(1), 0);
    }
    (kept, own - 1)
}

fn last_of<'a>(segments: &[&'a str]) -> &'a str
    ensures { result.now ≡ last_of (texts segments.now) }
{
    match segments {
        [] => "",
        [.., last] => *last,
    }
}

fn is_folder_name(segment: &str) -> bool
    ensures { result ≡ is_folder_name segment.now }
{
    !has_mark(segment.as_bytes())
}

fn has_mark(segment: &[u8]) -> bool
    ensures { result ≡ list_any is_mark segment.now }
{
    segment.iter().any(|b| is_mark(*b))
}

fn is_mark(b: u8) -> bool
    ensures { result ≡ is_mark b }
{
    b == b'.' || b == b'*' || b == b'?'
}
