//! Tests of `tb_emit_dts`.

use sqlite_items::Items;
use std::alloc::Global;
use std::rt::HostRuntime;
use std::test::Fail;
use tb_emit_dts::dts;
use tb_text::{Name, NoMemory};
use tb_tree::{Alias, Declared, Surface, SurfaceItem, TypeExpr, TypeKeyword, VarKind};

fn number_type() -> TypeExpr {
    TypeExpr::Keyword {
        at: 0,
        keyword: TypeKeyword::Number,
    }
}

// `type A = number;`
fn alias(alloc: Global, exported: bool) -> Result<SurfaceItem, NoMemory> {
    let alias = Alias {
        at: 0,
        name: Name::copy_of(alloc, "A")?,
        variables: Items::new(alloc),
        shape: number_type(),
    };
    Ok(SurfaceItem::Declaration {
        exported,
        declared: Declared::Alias(alias),
    })
}

// `const own: number;`
fn own(alloc: Global) -> Result<SurfaceItem, NoMemory> {
    Ok(SurfaceItem::Declaration {
        exported: false,
        declared: Declared::Variable {
            at: 0,
            kind: VarKind::Const,
            name: Name::copy_of(alloc, "own")?,
            shape: number_type(),
        },
    })
}

#[test]
fn a_surface_without_items_is_a_module(rt: HostRuntime) -> Result<(), Fail> {
    let alloc = rt.alloc();
    let items = Items::new(alloc);
    let text = dts(alloc, &Surface { items })?;
    assert_eq!(rt; text.as_slice(), b"export {};\n".as_slice());
    Ok(())
}

#[test]
fn where_all_is_exported_nothing_is_added(rt: HostRuntime) -> Result<(), Fail> {
    let alloc = rt.alloc();
    let mut items = Items::new(alloc);
    items.push(alias(alloc, true)?)?;
    let text = dts(alloc, &Surface { items })?;
    assert_eq!(rt; text.as_slice(), b"export type A = number;\n".as_slice());
    Ok(())
}

// A surface may have what is not exported: then the file says so.
#[test]
fn a_declaration_that_is_not_exported_has_no_export(rt: HostRuntime) -> Result<(), Fail> {
    let alloc = rt.alloc();
    let mut items = Items::new(alloc);
    items.push(alias(alloc, true)?)?;
    items.push(own(alloc)?)?;
    let text = dts(alloc, &Surface { items })?;
    assert_eq!(rt;
        text.as_slice(),
        b"export type A = number;\ndeclare const own: number;\nexport {};\n".as_slice()
    );
    Ok(())
}
