//! Which names decide what is kept: those in export lists, and those that occur in what is kept. The second are found by going
//! from name to name; each name is followed once.

ghost use Rattle.std.specs.Prelude.{◌≡◌, ◌++◌, ◌+◌, ◌∷◌, ◌||◌, [], List as Members, ℕ, map, flat_map, IfOk, OnOk, vec_len};
ghost use Rattle.std.specs.BTreeMap.{BTreeMap as Map, btree_map_len};
ghost use Rattle.std.specs.BTreeSet.{contains};
ghost use Rattle.tb_text.specs.Bytes.{bytes_cmp};
ghost use Rattle.tb_layout.specs.Parts as parts;
ghost use Rattle.tb_layout.specs.Kept as kept;
ghost use Rattle.tb_surface.specs.Names as spec;

use crate::names::{alias_names, class_names, function_names, interface_names, variable_names};
use std::alloc::Global;
use std::collections::{BTreeMap, BTreeSet};
use tb_text::{List, Name, NoMemory};
use tb_tree::{
    Alias, ClassDeclaration, Declaration, Declarator, ExportList, File, Function, Interface, Item,
    Spec, Var,
};

#[derive(Drop)]
pub(crate) struct Known {
    pub(crate) listed: BTreeSet<Name>,
    pub(crate) occurring: BTreeSet<Name>,
}

/// The names of a file.
pub(crate) fn known_names(alloc: Global, file: &File) -> Result<Known, NoMemory>
    ensures { IfOk result (λ known. spec.Knows known.listed known.occurring (kept.known_names file.now)) }
{
    let listed = listed_names(alloc, file)?;
    let mut leads = Leads::new(alloc);
    leads.add_items(alloc, &listed, file.items.as_slice())?;
    let occurring = leads.reached(alloc)?;
    Ok(Known { listed, occurring })
}

/// The names that export lists without `from` name.
pub(crate) fn listed_names(alloc: Global, file: &File) -> Result<BTreeSet<Name>, NoMemory>
    ensures { IfOk result (λ listed. spec.HasNames listed (parts.listed_names file.now)) }
{
    let mut listed = BTreeSet::new(alloc);
    for item in file.items.as_slice() {
        add_item(&mut listed, item)?;
    }
    Ok(listed)
}

fn add_item(listed: &mut BTreeSet<Name>, item: &Item) -> Result<(), NoMemory>
    ensures { OnOk result (spec.Gained listed.old listed.new (parts.item_listed item.now)) }
{
    match item {
        Item::Import(_) => Ok(()),
        Item::ExportList(list) => add_list(listed, list),
        Item::Declaration { .. } => Ok(()),
        Item::Stmt(_) => Ok(()),
    }
}

fn add_list(listed: &mut BTreeSet<Name>, list: &ExportList) -> Result<(), NoMemory>
    ensures { OnOk result (spec.Gained listed.old listed.new (parts.names_listed list.now.specs list.now.from)) }
{
    match &list.from {
        Some(_) => Ok(()),
        None => add_specs(listed, list.specs.as_slice()),
    }
}

fn add_specs(listed: &mut BTreeSet<Name>, specs: &[Spec]) -> Result<(), NoMemory>
    ensures { OnOk result (spec.Gained listed.old listed.new (map parts.exported_name specs.now)) }
{
    for of in specs {
        listed.insert(of.name.name.clone()?)?;
    }
    Ok(())
}

/// What is exported or listed is kept in any case.
pub(crate) fn is_kept(listed: &BTreeSet<Name>, exported: bool, name: &Name) -> bool
    ensures { result ≡ (exported || contains bytes_cmp listed.now name.now) }
{
    exported || listed.contains(name)
}

/// Where names lead: what occurs in the declarations that are kept in any case, and for each name what occurs in the classes,
/// interfaces and aliases that have it.
#[derive(Drop)]
struct Leads {
    starts: List<Name>,
    further: BTreeMap<Name, List<Name>>,
}

impl Leads {
    fn new(alloc: Global) -> Leads
        ensures { (listed : Members (Members ℕ)) → spec.Leads listed [] result.starts result.further }
    {
        Leads {
            starts: List::new(alloc),
            further: BTreeMap::new(alloc),
        }
    }

    fn add_items(
        &mut self,
        alloc: Global,
        listed: &BTreeSet<Name>,
        all: &[Item],
    ) -> Result<(), NoMemory>
        ensures { OnOk result (spec.LeadsOn listed.now self.old.starts self.old.further self.new.starts self.new.further (flat_map spec.item_parts all.now)) }
    {
        for item in all {
            self.add_item(alloc, listed, item)?;
        }
        Ok(())
    }

    fn add_item(
        &mut self,
        alloc: Global,
        listed: &BTreeSet<Name>,
        item: &Item,
    ) -> Result<(), NoMemory>
        ensures { OnOk result (spec.LeadsOn listed.now self.old.starts self.old.further self.new.starts self.new.further (spec.item_parts item.now)) }
    {
        match item {
            Item::Import(_) => Ok(()),
            Item::ExportList(_) => Ok(()),
            Item::Declaration {
                exported,
                declaration,
            } => self.add_declaration(alloc, listed, *exported, declaration),
            Item::Stmt(_) => Ok(()),
        }
    }

    fn add_declaration(
        &mut self,
        alloc: Global,
        listed: &BTreeSet<Name>,
        exported: bool,
        declaration: &Declaration,
    ) -> Result<(), NoMemory>
        ensures { OnOk result (spec.LeadsOn listed.now self.old.starts self.old.further self.new.starts self.new.further (spec.all_with exported (parts.parts_of declaration.now))) }
    {
        match declaration {
            Declaration::Var(var) => self.add_variables(alloc, listed, exported, var),
            Declaration::Function(function) => {
                self.add_function(alloc, listed, exported, function)
            }
            Declaration::Class(class) => self.add_class(alloc, listed, exported, class),
            Declaration::Interface(interface) => {
                self.add_interface(alloc, listed, exported, interface)
            }
            Declaration::Alias(alias) => self.add_alias(alloc, listed, exported, alias),
        }
    }

    fn add_variables(
        &mut self,
        alloc: Global,
        listed: &BTreeSet<Name>,
        exported: bool,
        var: &Var,
    ) -> Result<(), NoMemory>
        ensures { OnOk result (spec.LeadsOn listed.now self.old.starts self.old.further self.new.starts self.new.further (spec.all_with exported (spec.variables_of var.now))) }
    {
        for declarator in var.declarators.as_slice() {
            self.add_variable(alloc, listed, exported, declarator)?;
        }
        Ok(())
    }

    fn add_variable(
        &mut self,
        alloc: Global,
        listed: &BTreeSet<Name>,
        exported: bool,
        of: &Declarator,
    ) -> Result<(), NoMemory>
        ensures starts { OnOk result (self.new.starts ≡ self.old.starts ++ spec.if_kept listed.now exported (parts.variable_name of.now) (parts.variable_names of.now)) }
        ensures same { self.new.further ≡ self.old.further }
    {
        let names = variable_names(alloc, of)?;
        self.add_start(listed, exported, &of.name, names.as_slice())
    }

    fn add_function(
        &mut self,
        alloc: Global,
        listed: &BTreeSet<Name>,
        exported: bool,
        of: &Function,
    ) -> Result<(), NoMemory>
        ensures { OnOk result (spec.LeadsOn listed.now self.old.starts self.old.further self.new.starts self.new.further (spec.paired exported (parts.FunctionPart of.now) ∷ [])) }
    {
        let names = function_names(alloc, of)?;
        self.add_start(listed, exported, &of.name, names.as_slice())?;
        Ok(())
    }

    fn add_class(
        &mut self,
        alloc: Global,
        listed: &BTreeSet<Name>,
        exported: bool,
        of: &ClassDeclaration,
    ) -> Result<(), NoMemory>
        ensures { OnOk result (spec.LeadsOn listed.now self.old.starts self.old.further self.new.starts self.new.further (spec.paired exported (parts.ClassPart of.now) ∷ [])) }
    {
        let names = class_names(alloc, of)?;
        self.add_type(alloc, listed, exported, &of.name, names.as_slice())?;
        Ok(())
    }

    fn add_interface(
        &mut self,
        alloc: Global,
        listed: &BTreeSet<Name>,
        exported: bool,
        of: &Interface,
    ) -> Result<(), NoMemory>
        ensures { OnOk result (spec.LeadsOn listed.now self.old.starts self.old.further self.new.starts self.new.further (spec.paired exported (parts.InterfacePart of.now) ∷ [])) }
    {
        let names = interface_names(alloc, of)?;
        self.add_type(alloc, listed, exported, &of.name, names.as_slice())?;
        Ok(())
    }

    fn add_alias(
        &mut self,
        alloc: Global,
        listed: &BTreeSet<Name>,
        exported: bool,
        of: &Alias,
    ) -> Result<(), NoMemory>
        ensures { OnOk result (spec.LeadsOn listed.now self.old.starts self.old.further self.new.starts self.new.further (spec.paired exported (parts.AliasPart of.now) ∷ [])) }
    {
        let names = alias_names(alloc, of)?;
        self.add_type(alloc, listed, exported, &of.name, names.as_slice())?;
        Ok(())
    }

    fn add_start(
        &mut self,
        listed: &BTreeSet<Name>,
        exported: bool,
        name: &Name,
        names: &[Name],
    ) -> Result<(), NoMemory>
        ensures starts { OnOk result (self.new.starts ≡ self.old.starts ++ spec.if_kept listed.now exported name.now names.now) }
        ensures same { self.new.further ≡ self.old.further }
    {
        if !is_kept(listed, exported, name) {
            return Ok(());
        }
        add_names(&mut self.starts, names)
    }

    /// A class, an interface or an alias is also kept where its name occurs.
    fn add_type(
        &mut self,
        alloc: Global,
        listed: &BTreeSet<Name>,
        exported: bool,
        name: &Name,
        names: &[Name],
    ) -> Result<(), NoMemory>
        ensures starts { OnOk result (self.new.starts ≡ self.old.starts ++ spec.if_kept listed.now exported name.now names.now) }
        ensures further { OnOk result (spec.LedOn self.old.further self.new.further name.now names.now) }
    {
        self.add_start(listed, exported, name, names)?;
        add_further(alloc, &mut self.further, name, names)?;
        Ok(())
    }

    /// All names that are led to.
    fn reached(self, alloc: Global) -> Result<BTreeSet<Name>, NoMemory>
        ensures { IfOk result (spec.AreReached self.starts self.further) }
    {
        let Leads { starts, further } = self;
        let mut search = Search::new(alloc, further);
        search.meet_all(starts.as_slice())?;
        search.follow_all()?;
        Ok(search.into_met())
    }
}

fn add_further(
    alloc: Global,
    further: &mut BTreeMap<Name, List<Name>>,
    name: &Name,
    names: &[Name],
) -> Result<(), NoMemory>
    ensures { OnOk result (spec.LedOn further.old further.new name.now names.now) }
{
    let mut all = taken(alloc, further, name);
    add_names(&mut all, names)?;
    further.insert(name.clone()?, all)?;
    Ok(())
}

/// Takes out where the name led.
fn taken(alloc: Global, further: &mut BTreeMap<Name, List<Name>>, name: &Name) -> List<Name>
    ensures led { result ≡ spec.led_to further.old name.now }
    ensures others { spec.LacksOnly further.old further.new name.now }
{
    match further.remove(name) {
        Some(all) => all,
        None => List::new(alloc),
    }
}

fn add_names(all: &mut List<Name>, names: &[Name]) -> Result<(), NoMemory>
    ensures { OnOk result (all.new ≡ all.old ++ names.now) }
{
    for name in names {
        all.push(name.clone()?)?;
    }
    Ok(())
}

/// A name that is met is taken out of `left`, and where it leads waits in `pending`.
#[derive(Drop)]
struct Search {
    left: BTreeMap<Name, List<Name>>,
    met: BTreeSet<Name>,
    pending: Vec<List<Name>>,
}

impl Search {
    fn new(alloc: Global, further: BTreeMap<Name, List<Name>>) -> Search
        ensures { (starts : Members (Members ℕ)) → spec.IsSearch starts further result.left result.met (spec.waiting result.pending.items starts) }
    {
        Search {
            left: further,
            met: BTreeSet::new(alloc),
            pending: Vec::new(alloc),
        }
    }

    fn meet(&mut self, name: &Name) -> Result<(), NoMemory>
        ensures search { OnOk result ((rest : Members (Members ℕ)) → spec.SearchesOn self.old.left self.old.met (spec.waiting self.old.pending.items (name.now ∷ rest)) self.new.left self.new.met (spec.waiting self.new.pending.items rest)) }
        ensures size { OnOk result (btree_map_len self.new.left + vec_len self.new.pending ≡ btree_map_len self.old.left + vec_len self.old.pending) }
    {
        self.met.insert(name.clone()?)?;
        match self.left.remove(name) {
            Some(names) => {
                self.pending.push(names)?;
                Ok(())
            }
            None => Ok(()),
        }
    }

    fn meet_all(&mut self, names: &[Name]) -> Result<(), NoMemory>
        ensures search { OnOk result (spec.SearchesOn self.old.left self.old.met (spec.waiting self.old.pending.items names.now) self.new.left self.new.met (spec.waiting self.new.pending.items [])) }
        ensures size { OnOk result (btree_map_len self.new.left + vec_len self.new.pending ≡ btree_map_len self.old.left + vec_len self.old.pending) }
    {
        for name in names {
            self.meet(name)?;
        }
        Ok(())
    }

    fn follow_all(&mut self) -> Result<(), NoMemory>
        ensures { OnOk result (spec.SearchesOn self.old.left self.old.met (spec.waiting self.old.pending.items []) self.new.left self.new.met []) }
    {
        'following: while let Some(names) = self.pending.pop() {
            self.meet_all(names.as_slice())?;
        }
        Ok(())
    }

    fn into_met(self) -> BTreeSet<Name>
        ensures { result ≡ self.met }
    {
        let Search { met, .. } = self;
        met
    }
}
