ghost use Rattle.std.specs.Prelude.{◌≡◌, ◌&&◌, ◌<◌, IsTrue, Some, nat_eq, nat_lt, length, slice_index, IfOk};
ghost use Rattle.std.specs.List.{starts_with};
ghost use Rattle.tb_text.specs.Paths.{is_inside, is_path, parent_of};

use crate::{NoMemory, Path};
use std::alloc::Global;

impl Path {
    /// The folder that the path stands in: `None` for the root.
    pub fn parent(&self, alloc: Global) -> Result<Option<Path>, NoMemory>
        ensures { IfOk result (λ p. p ≡ parent_of self.now) }
    {
        let text = self.as_str();
        if text.is_empty() {
            return Ok(None);
        }
        let folder = String::from_str(alloc, folder_text(text))?;
        Ok(Some(Path::of_text(folder)))
    }

    /// Whether the path lies in this folder, at any depth. Every path but the root lies in the root.
    pub fn inside(&self, folder: &Path) -> bool
        ensures { result ≡ is_inside folder.now self.now }
    {
        is_below(self.as_str().as_bytes(), folder.as_str().as_bytes())
    }
}

fn folder_text(text: &str) -> &str
    requires { 0 < length text.now }
    ensures folder { Some result.now ≡ parent_of text.now }
    ensures path { IsTrue (is_path text.now) → IsTrue (is_path result.now) }
{
    match text.rsplit_once('/') {
        Some((front, _)) => front,
        None => "",
    }
}

fn is_below(path: &[u8], folder: &[u8]) -> bool
    ensures { result ≡ is_inside folder.now path.now }
{
    match folder {
        [] => !path.is_empty(),
        [_, ..] => goes_on(path, folder),
    }
}

// Whether the path is the folder's text and then a `/`.
fn goes_on(path: &[u8], folder: &[u8]) -> bool
    ensures { result ≡ (starts_with nat_eq path.now folder.now && nat_lt (length folder.now) (length path.now) && nat_eq (slice_index path.now (length folder.now)) 47) }
{
    path.starts_with(folder) && folder.len() < path.len() && path[folder.len()] == b'/'
}
