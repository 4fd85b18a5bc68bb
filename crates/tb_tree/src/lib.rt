//! The alphabet of the language, its trees and its grammar.
#![tactic(auto)]

mod depths;
mod expr_depths;
mod exprs;
mod items;
mod marks;
mod numbers;
mod spellings;
mod type_depths;
mod types;
mod words;

pub use depths::depth;
pub use exprs::{
    ArrowBody, AssignOperator, BinaryOperator, Block, BlockItem, Clause, Declarator, Expr,
    ForStart, Function, Identifier, Param, Prop, Stmt, TemplateSpan, UnaryOperator, UpdateOperator,
    Var, VarKind,
};
pub use items::{
    Alias, Base, ClassDeclaration, ClassMember, Declaration, Declared, DeclaredClass,
    DeclaredMember, ExportList, File, Import, Interface, Item, Spec, Specifier, Surface,
    SurfaceItem,
};
pub use marks::Mark;
pub use spellings::{is_name, is_type_name, mark_of, word_of};
pub use types::{Key, TypeExpr, TypeKeyword, TypeMember, TypeParam};
pub use words::{Class, Template, Word};
