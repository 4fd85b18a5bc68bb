//! What is kept of a file, in the order of the source.

ghost use Rattle.std.specs.Prelude.{◌≡◌, ◌++◌, ◌∷◌, ◌||◌, [], if◌then◌else◌, map, flat_map, filter, IfOk, OnOk};
ghost use Rattle.std.specs.BTreeSet.{contains};
ghost use Rattle.tb_text.specs.Bytes.{bytes_cmp};
ghost use Rattle.tb_tree.specs.declared.items.SurfaceItem.TheVariants as surface_item;
ghost use Rattle.tb_tree.specs.Surfaces as listed;
ghost use Rattle.tb_layout.specs.Parts as parts;
ghost use Rattle.tb_layout.specs.Kept as kept;
ghost use Rattle.tb_layout.specs.Quoted.{quoted_specifier, quoted_origin, quoted_surface_item};
ghost use Rattle.tb_layout.specs.Surface as spec;
ghost use Rattle.tb_surface.specs.Names.{Knows, variables_of};

use crate::declaring::{
    declared_alias, declared_class, declared_function, declared_interface, declared_variable,
};
use crate::known::{Known, is_kept, known_names};
use crate::names::imported_name;
use sqlite_items::Items;
use std::alloc::Global;
use tb_show::quoted;
use tb_text::{Name, NoMemory};
use tb_tree::{
    Alias, ClassDeclaration, Declaration, Declarator, Declared, ExportList, File, Function, Import,
    Interface, Item, Spec, Specifier, Surface, SurfaceItem, Var, VarKind,
};

/// What others see of a file: its exported declarations, what its export lists name, and, as far as these name them, its other
/// interfaces, aliases and classes and what it imports; without bodies and initializers. A missing annotation is `any`,
/// but for the type of a literal.
pub fn surface(alloc: Global, file: &File) -> Result<Surface, NoMemory>
    ensures { IfOk result (λ surface. surface ≡ spec.surface file.now) }
{
    let known = known_names(alloc, file)?;
    let mut items = Items::new(alloc);
    keep_items(alloc, &mut items, &known, file.items.as_slice())?;
    Ok(Surface { items })
}

fn keep_items(
    alloc: Global,
    items: &mut Items<SurfaceItem>,
    known: &Known,
    all: &[Item],
) -> Result<(), NoMemory>
    ensures { (names : kept.Known) → Knows known.now.listed known.now.occurring names
        → OnOk result (items.new ≡ items.old ++ flat_map (spec.surface_item_of names) all.now) }
{
    for item in all {
        keep_item(alloc, items, known, item)?;
    }
    Ok(())
}

fn keep_item(
    alloc: Global,
    items: &mut Items<SurfaceItem>,
    known: &Known,
    item: &Item,
) -> Result<(), NoMemory>
    ensures { (names : kept.Known) → Knows known.now.listed known.now.occurring names
        → OnOk result (items.new ≡ items.old ++ spec.surface_item_of names item.now) }
{
    match item {
        Item::Import(import) => keep_import(alloc, items, known, import),
        Item::ExportList(list) => keep_list(alloc, items, list),
        Item::Declaration {
            exported,
            declaration,
        } => keep_declaration(alloc, items, known, *exported, declaration),
        Item::Stmt(_) => Ok(()),
    }
}

/// A string in its one spelling.
fn quoted_from(alloc: Global, of: &Specifier) -> Result<Specifier, NoMemory>
    ensures { IfOk result (λ from. from ≡ quoted_specifier of.now) }
{
    let spelled = quoted(alloc, of.spelled.as_str())?;
    Ok(Specifier { at: of.at, spelled })
}

fn quoted_from_any(alloc: Global, of: &Option<Specifier>) -> Result<Option<Specifier>, NoMemory>
    ensures { IfOk result (λ from. from ≡ quoted_origin of.now) }
{
    match of {
        Some(from) => Ok(Some(quoted_from(alloc, from)?)),
        None => Ok(None),
    }
}

/// An import stays with the names that are kept, where there are some.
fn keep_import(
    alloc: Global,
    items: &mut Items<SurfaceItem>,
    known: &Known,
    import: &Import,
) -> Result<(), NoMemory>
    ensures { (names : kept.Known) → Knows known.now.listed known.now.occurring names
        → OnOk result (items.new ≡ items.old ++ spec.surface_import names import.now) }
{
    match import {
        Import::List {
            at,
            type_only,
            specs,
            from,
        } => {
            let specs = kept_specs(alloc, known, specs.as_slice())?;
            keep_specs(alloc, items, *at, *type_only, specs, from)?;
            Ok(())
        }
        Import::Bare { .. } => Ok(()),
    }
}

fn keep_specs(
    alloc: Global,
    items: &mut Items<SurfaceItem>,
    at: usize,
    type_only: bool,
    specs: Items<Spec>,
    from: &Specifier,
) -> Result<(), NoMemory>
    ensures { OnOk result (items.new ≡ items.old ++ spec.import_with at type_only specs from.now) }
{
    if specs.is_empty() {
        return Ok(());
    }
    let from = quoted_from(alloc, from)?;
    items.push(SurfaceItem::Import(Import::List {
        at,
        type_only,
        specs,
        from,
    }))?;
    Ok(())
}

fn kept_specs(alloc: Global, known: &Known, all: &[Spec]) -> Result<Items<Spec>, NoMemory>
    ensures { (names : kept.Known) → Knows known.now.listed known.now.occurring names
        → IfOk result (λ specs. specs ≡ filter (kept.keeps_spec names) all.now) }
{
    let mut specs = Items::new(alloc);
    for of in all {
        add_spec(&mut specs, known, of)?;
    }
    Ok(specs)
}

fn add_spec(specs: &mut Items<Spec>, known: &Known, of: &Spec) -> Result<(), NoMemory>
    ensures { (names : kept.Known) → Knows known.now.listed known.now.occurring names
        → OnOk result (specs.new ≡ specs.old ++ (if kept.keeps_spec names of.now then (of.now ∷ []) else [])) }
{
    if !known.keeps_type(false, imported_name(of)) {
        return Ok(());
    }
    specs.push(copied_spec(of)?)?;
    Ok(())
}

fn copied_spec(of: &Spec) -> Result<Spec, NoMemory>
    ensures { IfOk result (λ spec. spec ≡ of.now) }
{
    Ok(of.clone()?)
}

/// An export list without names and without `from` is not kept.
fn is_kept_list(list: &ExportList) -> bool
    ensures { result ≡ (listed.is_spec list.now.specs || listed.is_origin list.now.from) }
{
    has_specs(list.specs.as_slice()) || has_origin(&list.from)
}

fn has_specs(all: &[Spec]) -> bool
    ensures { result ≡ listed.is_spec all.now }
{
    !all.is_empty()
}

fn has_origin(from: &Option<Specifier>) -> bool
    ensures { result ≡ listed.is_origin from.now }
{
    match from {
        Some(_) => true,
        None => false,
    }
}

fn keep_list(
    alloc: Global,
    items: &mut Items<SurfaceItem>,
    list: &ExportList,
) -> Result<(), NoMemory>
    ensures { OnOk result (items.new ≡ items.old ++ map quoted_surface_item (listed.kept list.now)) }
{
    if !is_kept_list(list) {
        return Ok(());
    }
    let specs = copied_specs(alloc, list.specs.as_slice())?;
    let from = quoted_from_any(alloc, &list.from)?;
    items.push(SurfaceItem::ExportList(ExportList {
        at: list.at,
        type_only: list.type_only,
        specs,
        from,
    }))?;
    Ok(())
}

fn copied_specs(alloc: Global, all: &[Spec]) -> Result<Items<Spec>, NoMemory>
    ensures { IfOk result (λ specs. specs ≡ all.now) }
{
    let mut specs = Items::new(alloc);
    for spec in all {
        specs.push(copied_spec(spec)?)?;
    }
    Ok(specs)
}

fn keep_declaration(
    alloc: Global,
    items: &mut Items<SurfaceItem>,
    known: &Known,
    exported: bool,
    declaration: &Declaration,
) -> Result<(), NoMemory>
    ensures { (names : kept.Known) → Knows known.now.listed known.now.occurring names
        → OnOk result (items.new ≡ items.old ++ flat_map (spec.surface_part names exported) (parts.parts_of declaration.now)) }
{
    match declaration {
        Declaration::Var(var) => {
            keep_variables(alloc, items, known, exported, var)?;
            Ok(())
        }
        Declaration::Function(function) => {
            keep_function(alloc, items, known, exported, function)?;
            Ok(())
        }
        Declaration::Class(class) => {
            keep_class(alloc, items, known, exported, class)?;
            Ok(())
        }
        Declaration::Interface(interface) => {
            keep_interface(alloc, items, known, exported, interface)?;
            Ok(())
        }
        Declaration::Alias(alias) => {
            keep_alias(alloc, items, known, exported, alias)?;
            Ok(())
        }
    }
}

/// Each declarator becomes an item by itself.
fn keep_variables(
    alloc: Global,
    items: &mut Items<SurfaceItem>,
    known: &Known,
    exported: bool,
    var: &Var,
) -> Result<(), NoMemory>
    ensures { (names : kept.Known) → Knows known.now.listed known.now.occurring names
        → OnOk result (items.new ≡ items.old ++ flat_map (spec.surface_part names exported) (variables_of var.now)) }
{
    for declarator in var.declarators.as_slice() {
        keep_variable(alloc, items, known, exported, var.kind, declarator)?;
    }
    Ok(())
}

fn keep_variable(
    alloc: Global,
    items: &mut Items<SurfaceItem>,
    known: &Known,
    exported: bool,
    kind: VarKind,
    of: &Declarator,
) -> Result<(), NoMemory>
    ensures { (names : kept.Known) → Knows known.now.listed known.now.occurring names
        → OnOk result (items.new ≡ items.old ++ spec.surface_part names exported (parts.VariablePart kind of.now)) }
{
    if !known.keeps_value(exported, &of.name) {
        return Ok(());
    }
    let declared = declared_variable(alloc, kind, of)?;
    keep(items, exported, declared)?;
    Ok(())
}

fn keep_function(
    alloc: Global,
    items: &mut Items<SurfaceItem>,
    known: &Known,
    exported: bool,
    of: &Function,
) -> Result<(), NoMemory>
    ensures { (names : kept.Known) → Knows known.now.listed known.now.occurring names
        → OnOk result (items.new ≡ items.old ++ spec.surface_part names exported (parts.FunctionPart of.now)) }
{
    if !known.keeps_value(exported, &of.name) {
        return Ok(());
    }
    let declared = declared_function(alloc, of)?;
    keep(items, exported, declared)?;
    Ok(())
}

fn keep_class(
    alloc: Global,
    items: &mut Items<SurfaceItem>,
    known: &Known,
    exported: bool,
    of: &ClassDeclaration,
) -> Result<(), NoMemory>
    ensures { (names : kept.Known) → Knows known.now.listed known.now.occurring names
        → OnOk result (items.new ≡ items.old ++ spec.surface_part names exported (parts.ClassPart of.now)) }
{
    if !known.keeps_type(exported, &of.name) {
        return Ok(());
    }
    let declared = Declared::Class(declared_class(alloc, of)?);
    keep(items, exported, declared)?;
    Ok(())
}

fn keep_interface(
    alloc: Global,
    items: &mut Items<SurfaceItem>,
    known: &Known,
    exported: bool,
    of: &Interface,
) -> Result<(), NoMemory>
    ensures { (names : kept.Known) → Knows known.now.listed known.now.occurring names
        → OnOk result (items.new ≡ items.old ++ spec.surface_part names exported (parts.InterfacePart of.now)) }
{
    if !known.keeps_type(exported, &of.name) {
        return Ok(());
    }
    let declared = Declared::Interface(declared_interface(alloc, of)?);
    keep(items, exported, declared)?;
    Ok(())
}

fn keep_alias(
    alloc: Global,
    items: &mut Items<SurfaceItem>,
    known: &Known,
    exported: bool,
    of: &Alias,
) -> Result<(), NoMemory>
    ensures { (names : kept.Known) → Knows known.now.listed known.now.occurring names
        → OnOk result (items.new ≡ items.old ++ spec.surface_part names exported (parts.AliasPart of.now)) }
{
    if !known.keeps_type(exported, &of.name) {
        return Ok(());
    }
    let declared = Declared::Alias(declared_alias(alloc, of)?);
    keep(items, exported, declared)?;
    Ok(())
}

fn keep(items: &mut Items<SurfaceItem>, exported: bool, declared: Declared) -> Result<(), NoMemory>
    ensures { OnOk result (items.new ≡ items.old ++ surface_item.Declaration exported declared ∷ []) }
{
    items.push(SurfaceItem::Declaration { exported, declared })?;
    Ok(())
}

impl Known {
    /// Whether a variable or a function of this name is kept.
    fn keeps_value(&self, exported: bool, name: &Name) -> bool
        ensures { result ≡ (exported || contains bytes_cmp self.now.listed name.now) }
    {
        is_kept(&self.listed, exported, name)
    }

    /// Whether a class, an interface, an alias or an imported name is kept.
    fn keeps_type(&self, exported: bool, name: &Name) -> bool
        ensures { result ≡ ((exported || contains bytes_cmp self.now.listed name.now) || contains bytes_cmp self.now.occurring name.now) }
    {
        self.keeps_value(exported, name) || self.occurring.contains(name)
    }
}
