//! Tests of the depths of `tb_tree`.

use sqlite_items::{Boxed, Items};
use std::alloc::Global;
use std::rt::HostRuntime;
use std::test::Fail;
use tb_text::{Name, NoMemory};
use tb_tree::{
    Alias, ArrowBody, Block, BlockItem, Declaration, Expr, Item, Param, Stmt, TypeExpr,
    TypeKeyword, TypeParam, depth,
};

// `1`, in that many parentheses
fn one(alloc: Global, parens: usize) -> Result<Expr, NoMemory> {
    let mut expr = Expr::Number {
        at: 0,
        spelled: Name::copy_of(alloc, "1")?,
    };
    for _ in 0..parens {
        let inner = Boxed::new(alloc, expr)?;
        expr = Expr::Parens { at: 0, inner };
    }
    Ok(expr)
}

fn statement(alloc: Global, expr: Expr) -> Result<Item, NoMemory> {
    let value = Boxed::new(alloc, expr)?;
    Ok(Item::Stmt(Stmt::Expr { at: 0, value }))
}

// `1;`, in that many parentheses
fn number(alloc: Global, parens: usize) -> Result<Item, NoMemory> {
    let expr = one(alloc, parens)?;
    statement(alloc, expr)
}

// `(x: number) => string[]`
fn function(alloc: Global) -> Result<TypeExpr, NoMemory> {
    let number = TypeExpr::Keyword {
        at: 0,
        keyword: TypeKeyword::Number,
    };
    let string = TypeExpr::Keyword {
        at: 0,
        keyword: TypeKeyword::String,
    };
    let array = TypeExpr::Array {
        at: 0,
        read_only: false,
        element: Boxed::new(alloc, string)?,
    };
    let mut params = Items::new(alloc);
    params.push(TypeParam {
        at: 0,
        name: Name::copy_of(alloc, "x")?,
        optional: false,
        shape: Boxed::new(alloc, number)?,
    })?;
    let result = Boxed::new(alloc, array)?;
    Ok(TypeExpr::Function {
        at: 0,
        params,
        result,
    })
}

// `type A = (x: number) => string[];`
fn alias(alloc: Global) -> Result<Item, NoMemory> {
    let alias = Alias {
        at: 0,
        name: Name::copy_of(alloc, "A")?,
        variables: Items::new(alloc),
        shape: function(alloc)?,
    };
    Ok(Item::Declaration {
        exported: false,
        declaration: Declaration::Alias(alias),
    })
}

// `{ }`, with or without `return 1;` in it
fn block(alloc: Global, returns: bool) -> Result<Block, NoMemory> {
    let mut items = Items::new(alloc);
    if returns {
        let value = Boxed::new(alloc, one(alloc, 0)?)?;
        let stmt = Boxed::new(
            alloc,
            Stmt::Return {
                at: 0,
                value: Some(value),
            },
        )?;
        items.push(BlockItem::Stmt(stmt))?;
    }
    Ok(Block { at: 0, items })
}

// `(x: (x: number) => string[]) => { return 1; };`
fn arrow(alloc: Global) -> Result<Item, NoMemory> {
    let mut params = Items::new(alloc);
    params.push(Param {
        at: 0,
        name: Name::copy_of(alloc, "x")?,
        optional: false,
        annotation: Some(function(alloc)?),
        value: None,
    })?;
    let body = Boxed::new(alloc, block(alloc, true)?)?;
    let arrow = Expr::Arrow {
        at: 0,
        params,
        result: None,
        body: ArrowBody::Block(body),
    };
    statement(alloc, arrow)
}

// `if (1) ; else { }`
fn condition(alloc: Global) -> Result<Item, NoMemory> {
    let condition = Boxed::new(alloc, one(alloc, 0)?)?;
    let then = Boxed::new(alloc, Stmt::Empty { at: 0 })?;
    let body = Boxed::new(alloc, block(alloc, false)?)?;
    let otherwise = Boxed::new(alloc, Stmt::Block(body))?;
    Ok(Item::Stmt(Stmt::If {
        at: 0,
        condition,
        then,
        otherwise: Some(otherwise),
    }))
}

#[test]
fn measures_items(rt: HostRuntime) -> Result<(), Fail> {
    let alloc = rt.alloc();
    assert_eq!(rt; depth(&number(alloc, 0)?), 1);
    assert_eq!(rt; depth(&number(alloc, 300)?), 301);
    assert_eq!(rt; depth(&alias(alloc)?), 3);
    assert_eq!(rt; depth(&arrow(alloc)?), 4);
    assert_eq!(rt; depth(&condition(alloc)?), 2);
    Ok(())
}
