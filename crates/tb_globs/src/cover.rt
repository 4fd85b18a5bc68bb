//! Whether the characters of a pattern's segment match those of a path's segment.
ghost use Rattle.std.specs.Prelude.{◌≡◌, ◌==◌, ◌||◌, ◌∷◌, [], false, MatchOption, IsUtf8};
ghost use Rattle.std.specs.Str.{chars};
ghost use Rattle.tb_globs.specs.Covers.{covers, some_rest};
ghost use Rattle.tb_globs.specs.Chunks.{Begins, Found};

/// Whether the pattern matches the text: `*` stands for zero or more characters, `?` for one.
pub fn covers(pattern: &[char], text: &str) -> bool
    ensures { result ≡ covers pattern.now (chars text.now) }
{
    let Some((mut rest, mut left)) = chunk(pattern, text) else {
        return false;
    };
    loop {
        let Some((_star, after)) = first_of(rest) else {
            return is_end(left);
        };
        let Some((next, still)) = search(after, left) else {
            return false;
        };
        rest = next;
        left = still;
    }
}

/// The first place of the text where the characters up to the next `*` match; those after the last `*` match its end.
/// What follows them of the pattern and of the text.
fn search<'a>(pattern: &'a [char], text: &'a str) -> Option<(&'a [char], &'a str)>
    ensures { MatchOption result (some_rest (covers pattern.now) (chars text.now) ≡ false)
        (λ p. Found pattern.now (chars text.now) p.0.now p.1.now) }
{
    let mut from = text;
    loop {
        if let Some(place) = place_here(pattern, from) {
            return Some(place);
        }
        let (_first, later) = first_character(from)?;
        from = later;
    }
}

fn place_here<'a>(pattern: &'a [char], text: &'a str) -> Option<(&'a [char], &'a str)>
    ensures { MatchOption result (covers pattern.now (chars text.now) ≡ false)
        (λ p. Found pattern.now (chars text.now) p.0.now p.1.now) }
{
    let (rest, left) = chunk(pattern, text)?;
    if !rest.is_empty() {
        return Some((rest, left));
    }
    if is_end(left) {
        return Some((rest, left));
    }
    None
}

/// Matches the characters up to the next `*` at the front of the text. What follows them of the pattern and of the text.
fn chunk<'a>(pattern: &'a [char], text: &'a str) -> Option<(&'a [char], &'a str)>
    ensures { MatchOption result (covers pattern.now (chars text.now) ≡ false)
        (λ p. Begins pattern.now (chars text.now) p.0.now p.1.now) }
{
    let mut rest = pattern;
    let mut left = text;
    loop {
        let Some((wanted, after)) = first_of(rest) else {
            return Some((rest, left));
        };
        if wanted == '*' {
            return Some((rest, left));
        }
        let (first, later) = first_character(left)?;
        if !stands_for(wanted, first) {
            return None;
        }
        rest = after;
        left = later;
    }
}

fn stands_for(wanted: char, character: char) -> bool
    ensures { result ≡ (wanted == 63 || wanted == character) }
{
    wanted == '?' || wanted == character
}

fn first_of(pattern: &[char]) -> Option<(char, &[char])>
    ensures { MatchOption result (pattern.now ≡ []) (λ p. pattern.now ≡ p.0 ∷ p.1.now) }
{
    match pattern {
        [] => None,
        [first, rest @ ..] => Some((*first, rest)),
    }
}

fn first_character(text: &str) -> Option<(char, &str)>
    ensures { MatchOption result (chars text.now ≡ []) (λ p. (chars text.now ≡ p.0 ∷ chars p.1.now) × IsUtf8 p.1.now) }
{
    let mut characters = text.chars();
    let first = characters.next()?;
    Some((first, characters.as_str()))
}

fn is_end(text: &str) -> bool
    ensures { result ≡ covers [] (chars text.now) }
{
    first_character(text).is_none()
}
