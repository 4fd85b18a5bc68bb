ghost use Rattle.std.specs.Prelude.{◌≡◌, length, IfOk, OnOk, List as Members};
ghost use Rattle.tb_config.specs.declared.setting.Setting.{Setting};
ghost use Rattle.tb_plan.specs.Owners.{AreAround, AreOwners, Adds, owners_at};

use crate::keys::{add_number, numbers_at};
use std::alloc::Global;
use std::collections::BTreeMap;
use tb_config::Setting;
use tb_text::{List, NoMemory, Path};

/// The output folders of projects, each with the numbers of the projects that have it.
#[derive(Debug, Drop)]
pub struct Folders {
    pub owners: BTreeMap<Path, List<usize>>,
}

impl Folders {
    /// The output folders of these projects.
    pub fn of_projects(alloc: Global, settings: &[Setting]) -> Result<Folders, NoMemory>
        ensures { IfOk result (λ f. AreOwners settings.now f.owners (length settings.now)) }
    {
        let mut folders = Folders {
            owners: BTreeMap::new(alloc),
        };
        for (number, setting) in settings.iter().enumerate() {
            folders.add_project(alloc, number, setting)?;
        }
        Ok(folders)
    }

    fn add_project(
        &mut self,
        alloc: Global,
        number: usize,
        setting: &Setting,
    ) -> Result<(), NoMemory>
        ensures { OnOk result (Adds self.old.owners setting.now.folder number self.new.owners) }
    {
        match &setting.folder {
            Some(folder) => add_number(alloc, folder, number, &mut self.owners),
            None => Ok(()),
        }
    }

    /// The numbers of the projects that have this output folder.
    pub fn owners(&self, folder: &Path) -> &[usize]
        ensures { result.now ≡ owners_at self.now.owners folder.now }
    {
        numbers_at(&self.owners, folder)
    }

    /// The numbers of the projects inside whose output folders a path lies.
    pub fn around(&self, alloc: Global, path: &Path) -> Result<Vec<usize>, NoMemory>
        ensures { IfOk result (λ numbers. (settings : Members Setting) → AreOwners settings self.now.owners (length settings) → AreAround settings path.now numbers.items) }
    {
        let mut numbers = Vec::new(alloc);
        let mut at = path.parent(alloc)?;
        'up: while let Some(folder) = at {
            numbers.extend_from_slice(self.owners(&folder))?;
            at = folder.parent(alloc)?;
        }
        Ok(numbers)
    }
}
