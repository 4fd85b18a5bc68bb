//! Items of surfaces with each of their strings in its one spelling.

ghost use Rattle.std.specs.Prelude.{◌≡◌, map, IfOk};
ghost use Rattle.tb_layout.specs.Quoted as spec;

use sqlite_items::Items;
use std::alloc::Global;
use tb_show::{quoted, quoted_bases, quoted_members, quoted_type, quoted_type_params};
use tb_text::NoMemory;
use tb_tree::{
    Alias, Declared, DeclaredClass, DeclaredMember, ExportList, Import, Interface, Specifier,
    SurfaceItem,
};

fn quoted_specifier(alloc: Global, of: Specifier) -> Result<Specifier, NoMemory>
    ensures { IfOk result (λ specifier. specifier ≡ spec.quoted_specifier of) }
{
    let spelled = quoted(alloc, of.spelled.as_str())?;
    Ok(Specifier { at: of.at, spelled })
}

fn quoted_origin(alloc: Global, of: Option<Specifier>) -> Result<Option<Specifier>, NoMemory>
    ensures { IfOk result (λ origin. origin ≡ spec.quoted_origin of) }
{
    match of {
        Some(specifier) => Ok(Some(quoted_specifier(alloc, specifier)?)),
        None => Ok(None),
    }
}

fn quoted_import(alloc: Global, of: Import) -> Result<Import, NoMemory>
    ensures { IfOk result (λ import. import ≡ spec.quoted_import of) }
{
    match of {
        Import::List {
            at,
            type_only,
            specs,
            from,
        } => {
            let from = quoted_specifier(alloc, from)?;
            Ok(Import::List {
                at,
                type_only,
                specs,
                from,
            })
        }
        Import::Bare { at, from } => {
            let from = quoted_specifier(alloc, from)?;
            Ok(Import::Bare { at, from })
        }
    }
}

fn quoted_export_list(alloc: Global, of: ExportList) -> Result<ExportList, NoMemory>
    ensures { IfOk result (λ list. list ≡ spec.quoted_export_list of) }
{
    let from = quoted_origin(alloc, of.from)?;
    Ok(ExportList {
        at: of.at,
        type_only: of.type_only,
        specs: of.specs,
        from,
    })
}

fn quoted_interface(alloc: Global, of: Interface) -> Result<Interface, NoMemory>
    ensures { IfOk result (λ interface. interface ≡ spec.quoted_interface of) }
{
    let extends = quoted_bases(alloc, of.extends.as_slice())?;
    let members = quoted_members(alloc, of.members.as_slice())?;
    Ok(Interface {
        at: of.at,
        name: of.name,
        variables: of.variables,
        extends,
        members,
    })
}

fn quoted_alias(alloc: Global, of: Alias) -> Result<Alias, NoMemory>
    ensures { IfOk result (λ alias. alias ≡ spec.quoted_alias of) }
{
    let shape = quoted_type(alloc, &of.shape)?;
    Ok(Alias {
        at: of.at,
        name: of.name,
        variables: of.variables,
        shape,
    })
}

fn quoted_declared_member(alloc: Global, of: &DeclaredMember) -> Result<DeclaredMember, NoMemory>
    ensures { IfOk result (λ member. member ≡ spec.quoted_declared_member of.now) }
{
    match of {
        DeclaredMember::Field {
            at,
            is_static,
            read_only,
            name,
            optional,
            shape,
        } => {
            let name = name.clone()?;
            let shape = quoted_type(alloc, shape)?;
            Ok(DeclaredMember::Field {
                at: *at,
                is_static: *is_static,
                read_only: *read_only,
                name,
                optional: *optional,
                shape,
            })
        }
        DeclaredMember::Constructor { at, params } => {
            let params = quoted_type_params(alloc, params.as_slice())?;
            Ok(DeclaredMember::Constructor { at: *at, params })
        }
        DeclaredMember::Method {
            at,
            is_static,
            name,
            params,
            result,
        } => {
            let name = name.clone()?;
            let params = quoted_type_params(alloc, params.as_slice())?;
            let result = quoted_type(alloc, result)?;
            Ok(DeclaredMember::Method {
                at: *at,
                is_static: *is_static,
                name,
                params,
                result,
            })
        }
    }
}

fn quoted_declared_members(
    alloc: Global,
    all: &[DeclaredMember],
) -> Result<Items<DeclaredMember>, NoMemory>
    ensures { IfOk result (λ members. members ≡ map spec.quoted_declared_member all.now) }
{
    let mut members = Items::new(alloc);
    for member in all {
        members.push(quoted_declared_member(alloc, member)?)?;
    }
    Ok(members)
}

fn quoted_class(alloc: Global, of: DeclaredClass) -> Result<DeclaredClass, NoMemory>
    ensures { IfOk result (λ class. class ≡ spec.quoted_class of) }
{
    let implements = quoted_bases(alloc, of.implements.as_slice())?;
    let members = quoted_declared_members(alloc, of.members.as_slice())?;
    Ok(DeclaredClass {
        at: of.at,
        name: of.name,
        implements,
        members,
    })
}

fn quoted_declared(alloc: Global, of: Declared) -> Result<Declared, NoMemory>
    ensures { IfOk result (λ declared. declared ≡ spec.quoted_declared of) }
{
    match of {
        Declared::Variable {
            at,
            kind,
            name,
            shape,
        } => {
            let shape = quoted_type(alloc, &shape)?;
            Ok(Declared::Variable {
                at,
                kind,
                name,
                shape,
            })
        }
        Declared::Function {
            at,
            name,
            variables,
            params,
            result,
        } => {
            let params = quoted_type_params(alloc, params.as_slice())?;
            let result = quoted_type(alloc, &result)?;
            Ok(Declared::Function {
                at,
                name,
                variables,
                params,
                result,
            })
        }
        Declared::Class(class) => Ok(Declared::Class(quoted_class(alloc, class)?)),
        Declared::Interface(interface) => {
            Ok(Declared::Interface(quoted_interface(alloc, interface)?))
        }
        Declared::Alias(alias) => Ok(Declared::Alias(quoted_alias(alloc, alias)?)),
    }
}

/// The item with each of its strings, specifiers and keys included, in double quotes.
pub fn quoted_item(alloc: Global, of: SurfaceItem) -> Result<SurfaceItem, NoMemory>
    ensures { IfOk result (λ item. item ≡ spec.quoted_surface_item of) }
{
    match of {
        SurfaceItem::Import(import) => Ok(SurfaceItem::Import(quoted_import(alloc, import)?)),
        SurfaceItem::ExportList(list) => {
            Ok(SurfaceItem::ExportList(quoted_export_list(alloc, list)?))
        }
        SurfaceItem::Declaration { exported, declared } => {
            let declared = quoted_declared(alloc, declared)?;
            Ok(SurfaceItem::Declaration { exported, declared })
        }
    }
}
