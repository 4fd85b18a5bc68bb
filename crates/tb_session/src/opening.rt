ghost use Rattle.std.specs.Prelude.{◌≡◌, ◌||◌, IsTrue, IfOk, OnOk, nat_eq, codes};
ghost use Rattle.std.specs.List.{ends_with};
ghost use Rattle.tb_outside.specs.Causes.{Causes, has_fault};
ghost use Rattle.tb_session.specs.Generations.{is_source, opening};
ghost use Rattle.tb_session.specs.Adding.{with_text};

use std::alloc::Global;
use tb_outside::{Tree, Trouble};
use tb_text::{Path, Texts};

/// So much of a file is read: one byte more than a text may have, so that a longer one is seen to be.
const MOST_BYTES: u64 = 4_194_305;

fn is_source(path: &Path) -> bool
    ensures { result ≡ is_source path.now }
{
    let text = path.as_str().as_bytes();
    text.ends_with(b".ts") || text.ends_with(b".json")
}

/// The texts of generation 0: every listed file that ends in `.ts` or `.json`.
pub fn read_texts<T: Tree>(alloc: Global, tree: &mut T) -> Result<Texts, Trouble>
    ensures texts { IsTrue T.tells → IfOk result (λ texts. texts ≡ opening (T.texts tree.old)) }
    ensures same { IsTrue T.tells → T.texts tree.new ≡ T.texts tree.old }
    ensures cause { Causes (T.count tree.old) (T.count tree.new) (has_fault result) }
{
    let paths = tree.list(alloc)?;
    let mut texts = Texts::new(alloc);
    for path in paths.into_vec() {
        read_text(alloc, tree, path, &mut texts)?;
    }
    Ok(texts)
}

// Adds a file to the texts, where it is a source.
fn read_text<T: Tree>(
    alloc: Global,
    tree: &mut T,
    path: Path,
    texts: &mut Texts,
) -> Result<(), Trouble>
    ensures added { IsTrue T.tells → OnOk result (texts.new ≡ with_text (T.texts tree.old) texts.old path) }
    ensures same { IsTrue T.tells → T.texts tree.new ≡ T.texts tree.old }
    ensures cause { Causes (T.count tree.old) (T.count tree.new) (has_fault result) }
{
    if !is_source(&path) {
        return Ok(());
    }
    let text = tree.read(alloc, &path, MOST_BYTES)?;
    texts.insert(path, text)?;
    Ok(())
}
