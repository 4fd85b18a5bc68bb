ghost use Rattle.std.specs.Prelude.{◌≡◌, ◌==◌, IfOk, OnOk, OnErr};
ghost use Rattle.std.specs.List.Sorted.{IsStrictlySortedBy};
ghost use Rattle.std.specs.BTreeMap.{keys};
ghost use Rattle.std.specs.Option.{option_copied};
ghost use Rattle.std.specs.FinMap as map;
ghost use Rattle.tb_text.specs.Bytes.{bytes_cmp};

use crate::{List, NoMemory, Path, Text};
use std::alloc::Global;
use std::collections::BTreeMap;
use std::marker::Model;

/// Contents of files by their paths, which contracts see as a finite map.
#[derive(Drop)]
pub struct Texts {
    texts: BTreeMap<Path, Text>,
}

impl Model for Texts {
    ghost use Rattle.std.specs.Prelude.{List, ℕ};
    ghost use Rattle.std.specs.Coded.{coded_list, coded_ℕ};
    ghost use Rattle.std.specs.FinMap as map;
    ghost use Rattle.tb_text.specs.Bytes.{bytes_cmp};

    ghost Value = { map.FinMap bytes_cmp (List ℕ) };

    ghost coded = { map.code (coded_list coded_ℕ) (coded_list coded_ℕ) };

    ghost view = { λ t. map.from_entries t.texts.entries };
}

impl Texts {
    pub fn new(alloc: Global) -> Texts
        ensures { result ≡ map.empty }
    {
        Texts {
            texts: BTreeMap::new(alloc),
        }
    }

    /// Takes no memory.
    pub fn from_map(texts: BTreeMap<Path, Text>) -> Texts
        ensures { result ≡ map.from_entries texts.entries }
    {
        Texts { texts }
    }

    /// Takes no memory.
    pub fn into_map(self) -> BTreeMap<Path, Text>
        ensures { map.from_entries result.entries ≡ self }
    {
        let Texts { texts } = self;
        texts
    }

    pub fn as_map(&self) -> &BTreeMap<Path, Text>
        ensures { map.from_entries result.now.entries ≡ self.now }
    {
        &self.texts
    }

    pub fn len(&self) -> usize
        ensures { result ≡ map.len self.now }
    {
        self.texts.len()
    }

    pub fn is_empty(&self) -> bool
        ensures { result ≡ (map.len self.now == 0) }
    {
        self.len() == 0
    }

    pub fn get(&self, path: &Path) -> Option<&Text>
        ensures { option_copied result ≡ map.get self.now path.now }
    {
        self.texts.get(path)
    }

    pub fn insert(&mut self, path: Path, text: Text) -> Result<(), NoMemory>
        ensures ok { OnOk result (self.new ≡ map.insert self.old path text) }
        ensures err { OnErr result (self.new ≡ self.old) }
    {
        let _before = self.texts.insert(path, text)?;
        Ok(())
    }

    /// All paths, ascending.
    pub fn paths(&self, alloc: Global) -> Result<List<Path>, NoMemory>
        ensures paths { IfOk result (λ paths. paths ≡ map.keys self.now) }
        ensures ascending { IfOk result (λ paths. IsStrictlySortedBy bytes_cmp paths) }
    {
        copy_keys(alloc, &self.texts)
    }

    pub fn remove(&mut self, path: &Path)
        ensures { self.new ≡ map.remove self.old path.now }
    {
        let _before = self.texts.remove(path);
    }
}

fn copy_keys(alloc: Global, texts: &BTreeMap<Path, Text>) -> Result<List<Path>, NoMemory>
    ensures paths { IfOk result (λ paths. paths ≡ keys texts.now) }
    ensures ascending { IfOk result (λ paths. IsStrictlySortedBy bytes_cmp (keys texts.now)) }
{
    let mut paths = List::new(alloc);
    for path in texts.keys() {
        paths.push(path.clone()?)?;
    }
    Ok(paths)
}
