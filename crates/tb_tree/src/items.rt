//! The trees of files and of surfaces, which are what others see of a file.

use crate::exprs::{Block, Expr, Function, Identifier, Param, Stmt, Var, VarKind};
use crate::types::{TypeExpr, TypeMember, TypeParam};
use sqlite_items::Items;
use tb_text::Name;

/// A source file.
#[derive(Drop)]
pub struct File {
    pub items: Items<Item>,
}

#[derive(Drop)]
pub enum Item {
    Import(Import),
    ExportList(ExportList),
    Declaration {
        exported: bool,
        declaration: Declaration,
    },
    Stmt(Stmt),
}

#[derive(Drop)]
pub enum Declaration {
    Var(Var),
    Function(Function),
    Class(ClassDeclaration),
    Interface(Interface),
    Alias(Alias),
}

#[derive(Drop)]
pub enum Import {
    List {
        at: usize,
        type_only: bool,
        specs: Items<Spec>,
        from: Specifier,
    },
    /// `import "m";`
    Bare {
        at: usize,
        from: Specifier,
    },
}

#[derive(Drop)]
pub struct ExportList {
    pub at: usize,
    pub type_only: bool,
    pub specs: Items<Spec>,
    pub from: Option<Specifier>,
}

/// The text that names a module, as it is spelled.
#[derive(Clone, Debug, Drop)]
#[derive_where(PartialEq, Eq)]
pub struct Specifier {
    #[derive_where(skip(EqHashOrd))]
    pub at: usize,
    pub spelled: Name,
}

/// A name that is imported or exported, and the name that it has on the other side.
#[derive(Clone, Debug, Drop)]
#[derive_where(PartialEq, Eq)]
pub struct Spec {
    #[derive_where(skip(EqHashOrd))]
    pub at: usize,
    pub type_only: bool,
    pub name: Identifier,
    pub renamed: Option<Identifier>,
}

#[derive(Drop)]
pub struct ClassDeclaration {
    pub at: usize,
    pub name: Name,
    pub implements: Items<Base>,
    pub members: Items<ClassMember>,
}

/// A name after `implements` or `extends`, with its type arguments.
#[derive(Drop)]
pub struct Base {
    pub at: usize,
    pub name: Name,
    pub arguments: Items<TypeExpr>,
}

#[derive(Drop)]
pub enum ClassMember {
    Field {
        at: usize,
        is_static: bool,
        read_only: bool,
        name: Name,
        optional: bool,
        annotation: Option<TypeExpr>,
        value: Option<Expr>,
    },
    Constructor {
        at: usize,
        params: Items<Param>,
        body: Block,
    },
    Method {
        at: usize,
        is_static: bool,
        name: Name,
        params: Items<Param>,
        result: Option<TypeExpr>,
        body: Block,
    },
}

#[derive(Drop)]
pub struct Interface {
    pub at: usize,
    pub name: Name,
    pub variables: Items<Identifier>,
    pub extends: Items<Base>,
    pub members: Items<TypeMember>,
}

#[derive(Drop)]
pub struct Alias {
    pub at: usize,
    pub name: Name,
    pub variables: Items<Identifier>,
    pub shape: TypeExpr,
}

/// What others see of a file: its declarations without bodies and initializers.
#[derive(Drop)]
pub struct Surface {
    pub items: Items<SurfaceItem>,
}

#[derive(Drop)]
pub enum SurfaceItem {
    Import(Import),
    ExportList(ExportList),
    Declaration { exported: bool, declared: Declared },
}

#[derive(Drop)]
pub enum Declared {
    Variable {
        at: usize,
        kind: VarKind,
        name: Name,
        shape: TypeExpr,
    },
    Function {
        at: usize,
        name: Name,
        variables: Items<Identifier>,
        params: Items<TypeParam>,
        result: TypeExpr,
    },
    Class(DeclaredClass),
    Interface(Interface),
    Alias(Alias),
}

#[derive(Drop)]
pub struct DeclaredClass {
    pub at: usize,
    pub name: Name,
    pub implements: Items<Base>,
    pub members: Items<DeclaredMember>,
}

#[derive(Drop)]
pub enum DeclaredMember {
    Field {
        at: usize,
        is_static: bool,
        read_only: bool,
        name: Name,
        optional: bool,
        shape: TypeExpr,
    },
    Constructor {
        at: usize,
        params: Items<TypeParam>,
    },
    Method {
        at: usize,
        is_static: bool,
        name: Name,
        params: Items<TypeParam>,
        result: TypeExpr,
    },
}
