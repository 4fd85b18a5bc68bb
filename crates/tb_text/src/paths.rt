ghost use Rattle.std.specs.Prelude.{◌≡◌, ◌↔◌, IfOk, IsErrOf, IsTrue, IsFalse, IsUtf8, string_bytes, refl};
ghost use Rattle.std.specs.declared.option.Option.TheVariants.{Some};
ghost use Rattle.std.specs.Cmp.{on_equiv, on_total, on_po, on_per, partial_equiv_from_equiv};
ghost use Rattle.std.specs.Cmp.Lexicographic.{nat_list_eq_equiv, nat_list_cmp_total, texts_ties, texts_po};
ghost use Rattle.std.specs.Str.{bytes_eq};
ghost use Rattle.std.specs.Prelude.{◌==◌, ◌&&◌, not, nat_le};
ghost use Rattle.std.specs.List.{list_all, slice_split};
ghost use Rattle.tb_text.specs.Bytes.{bytes_cmp};
ghost use Rattle.tb_text.specs.Paths.{is_path, is_segment, is_dots, segments};

use crate::NoMemory;
use std::alloc::{AllocError, Global};
use std::cmp::Ordering;
use std::marker::Model;
use thiserror::Error;

/// The most bytes that the text of a path may have.
pub const MOST_BYTES: usize = 1024;

/// A path relative to the folder where the program starts: segments with a `/` between them, none of them empty, `.`
/// or `..`, without `\\` and characters below a space, in at most 1,024 bytes. The empty path is that folder itself,
/// the root. Contracts see the list of the bytes, by which paths are also ordered.
#[derive(Debug, Drop)]
pub struct Path {
    text: String,
}

impl Model for Path {
    ghost use Rattle.std.specs.Prelude.{List, ℕ, IsTrue, string_bytes};
    ghost use Rattle.tb_text.specs.Paths.{is_path};

    ghost Value = { List ℕ };

    ghost view = { λ p. string_bytes p.text };

    ghost invariant = { λ p. IsTrue (is_path (string_bytes p.text)) };
}

/// Why a text is not taken as a path.
#[derive(Clone, Copy, Debug, PartialEq, Eq, Error)]
pub enum PathFault {
    /// The text, or where the joined text leads, is no path.
    #[error("not a path inside the workspace")]
    BadPath,
    #[error("out of memory")]
    NoMemory,
}

impl From<AllocError> for PathFault {
    ghost use Rattle.tb_text.specs.declared.paths.PathFault.TheVariants.{NoMemory};

    ghost from_gives = { λ _ e. e ≡ NoMemory };

    fn from(_: AllocError) -> Self {
        PathFault::NoMemory
    }
}

impl Path {
    /// The path of this text.
    pub fn read(alloc: Global, text: &str) -> Result<Path, PathFault>
        ensures ok { IfOk result (λ p. p ≡ text.now) }
        ensures bad { IsErrOf result PathFault.BadPath ↔ IsFalse (is_path text.now) }
    {
        if !is_valid(text) {
            return Err(PathFault::BadPath);
        }
        let text = String::from_str(alloc, text)?;
        Ok(Path { text })
    }

    // The path of this text, which is one.
    pub(crate) fn of_text(text: String) -> Path
        requires { IsTrue (is_path (string_bytes text)) }
        ensures { result ≡ string_bytes text }
    {
        Path { text }
    }

    pub fn as_str(&self) -> &str
        ensures text { result.now ≡ self.now }
        ensures path { IsTrue (is_path self.now) }
        ensures utf8 { IsUtf8 self.now }
    {
        self.text.as_str()
    }
}

fn is_valid(text: &str) -> bool
    ensures { result ≡ is_path text.now }
{
    text.len() <= MOST_BYTES && has_segments(text.as_bytes())
}

fn has_segments(text: &[u8]) -> bool
    ensures { result ≡ list_all is_segment (segments text.now) }
{
    match text {
        [] => true,
        [_, ..] => are_segments(text),
    }
}

fn are_segments(text: &[u8]) -> bool
    ensures { result ≡ list_all is_segment (slice_split (λ b. b == 47) text.now) }
{
    text.split(|b| *b == b'/').all(|part| is_whole(part))
}

pub(crate) fn is_whole(segment: &[u8]) -> bool
    ensures { result ≡ is_segment segment.now }
{
    !is_dots(segment) && is_clean(segment)
}

fn is_clean(segment: &[u8]) -> bool
    ensures { result ≡ list_all (λ b. nat_le 32 b && not (b == 92)) segment.now }
{
    for b in segment {
        if *b < 32 || *b == b'\\' {
            return false;
        }
    }
    true
}

fn is_dots(segment: &[u8]) -> bool
    ensures { result ≡ is_dots segment.now }
{
    segment.is_empty() || segment == b".".as_slice() || segment == b"..".as_slice()
}

impl Clone for Path {
    ghost is_clone = { λ a b. b ≡ a };

    fn clone(&self) -> Result<Self, AllocError> {
        let text = self.text.clone()?;
        Ok(Path { text })
    }
}

impl PartialEq for Path {
    ghost eq = { λ a b. bytes_eq a b };

    ghost laws = { partial_equiv_from_equiv nat_list_eq_equiv };

    fn eq(&self, other: &Path) -> bool {
        self.text.as_str() == other.text.as_str()
    }
}

impl Eq for Path {
    ghost laws = { nat_list_eq_equiv };
}

impl PartialOrd for Path {
    ghost partial_cmp = { λ a b. Some (bytes_cmp a b) };

    ghost laws = { texts_po };

    fn partial_cmp(&self, other: &Path) -> Option<Ordering> {
        Some(self.cmp(other))
    }
}

impl Ord for Path {
    ghost cmp = { bytes_cmp };

    ghost total = { nat_list_cmp_total };

    ghost matches_partial_cmp = { λ a b. refl };

    ghost matches_eq = { texts_ties };

    fn cmp(&self, other: &Path) -> Ordering {
        self.text.as_str().cmp(other.text.as_str())
    }
}
