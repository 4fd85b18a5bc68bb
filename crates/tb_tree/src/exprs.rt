//! The trees of expressions and statements. They have the parts of what was written, in order. The field `at` is an
//! offset in bytes: for a declaration or a parameter that of its name, else that of the first token. Numbers, strings
//! and the texts of templates keep their spelling. Parentheses round an expression are a node.

use crate::types::{Key, TypeExpr};
use sqlite_items::{Boxed, Items};
use tb_text::Name;

/// A name that declares or refers to something.
#[derive(Clone, Debug, Drop)]
#[derive_where(PartialEq, Eq)]
pub struct Identifier {
    #[derive_where(skip(EqHashOrd))]
    pub at: usize,
    pub name: Name,
}

#[derive(Clone, Copy, Debug, PartialEq, Eq)]
pub enum UnaryOperator {
    Not,
    Minus,
    Plus,
    Typeof,
}

#[derive(Clone, Copy, Debug, PartialEq, Eq)]
pub enum UpdateOperator {
    Increment,
    Decrement,
}

#[derive(Clone, Copy, Debug, PartialEq, Eq)]
pub enum BinaryOperator {
    Or,
    Nullish,
    And,
    Same,
    NotSame,
    Less,
    Greater,
    LessEqual,
    GreaterEqual,
    Plus,
    Minus,
    Times,
    Divided,
    Remainder,
}

/// The operators that write a target: `=`, and those that first join the old value with another.
#[derive(Clone, Copy, Debug, PartialEq, Eq)]
pub enum AssignOperator {
    Assign,
    Plus,
    Minus,
    Times,
    Divided,
    Remainder,
}

#[derive(Clone, Copy, Debug, PartialEq, Eq)]
pub enum VarKind {
    Const,
    Let,
}

#[cycle(trees)]
#[derive(Drop)]
pub enum Expr {
    Name {
        at: usize,
        name: Name,
    },
    This {
        at: usize,
    },
    Null {
        at: usize,
    },
    Undefined {
        at: usize,
    },
    Boolean {
        at: usize,
        value: bool,
    },
    Number {
        at: usize,
        spelled: Name,
    },
    String {
        at: usize,
        spelled: Name,
    },
    /// The text before the first `${`, or the whole, and each expression with the text that follows it.
    Template {
        at: usize,
        head: Name,
        spans: Items<TemplateSpan>,
    },
    Parens {
        at: usize,
        inner: Boxed<Expr>,
    },
    Array {
        at: usize,
        elements: Items<Expr>,
    },
    Object {
        at: usize,
        props: Items<Prop>,
    },
    New {
        at: usize,
        class: Identifier,
        arguments: Items<Expr>,
    },
    Member {
        at: usize,
        base: Boxed<Expr>,
        member: Name,
    },
    Index {
        at: usize,
        base: Boxed<Expr>,
        index: Boxed<Expr>,
    },
    Call {
        at: usize,
        callee: Boxed<Expr>,
        type_arguments: Items<TypeExpr>,
        arguments: Items<Expr>,
    },
    Unary {
        at: usize,
        operator: UnaryOperator,
        operand: Boxed<Expr>,
    },
    /// `++` or `--`, before its target or after it.
    Update {
        at: usize,
        operator: UpdateOperator,
        before: bool,
        target: Boxed<Expr>,
    },
    Binary {
        at: usize,
        left: Boxed<Expr>,
        operator: BinaryOperator,
        right: Boxed<Expr>,
    },
    As {
        at: usize,
        value: Boxed<Expr>,
        shape: TypeExpr,
    },
    Conditional {
        at: usize,
        condition: Boxed<Expr>,
        then: Boxed<Expr>,
        otherwise: Boxed<Expr>,
    },
    Assign {
        at: usize,
        target: Boxed<Expr>,
        operator: AssignOperator,
        value: Boxed<Expr>,
    },
    Arrow {
        at: usize,
        params: Items<Param>,
        result: Option<TypeExpr>,
        body: ArrowBody,
    },
}

#[cycle(trees)]
#[derive(Drop)]
pub struct TemplateSpan {
    pub value: Boxed<Expr>,
    /// From `}` to the next `${`, or to the end.
    pub text: Name,
}

/// A property of an object.
#[cycle(trees)]
#[derive(Drop)]
pub enum Prop {
    Valued {
        at: usize,
        key: Key,
        value: Boxed<Expr>,
    },
    /// A name alone, which is key and value.
    Short {
        at: usize,
        name: Name,
    },
}

#[cycle(trees)]
#[derive(Drop)]
pub enum ArrowBody {
    Block(Boxed<Block>),
    Expr(Boxed<Expr>),
}

/// A parameter of a function, a method, a constructor or an arrow.
#[cycle(trees)]
#[derive(Drop)]
pub struct Param {
    pub at: usize,
    pub name: Name,
    pub optional: bool,
    pub annotation: Option<TypeExpr>,
    pub value: Option<Boxed<Expr>>,
}

#[cycle(trees)]
#[derive(Drop)]
pub struct Block {
    pub at: usize,
    pub items: Items<BlockItem>,
}

/// What stands in a block or a clause.
#[cycle(trees)]
#[derive(Drop)]
pub enum BlockItem {
    Var(Boxed<Var>),
    Function(Boxed<Function>),
    Stmt(Boxed<Stmt>),
}

/// `const` or `let`, and what it declares.
#[cycle(trees)]
#[derive(Drop)]
pub struct Var {
    pub kind: VarKind,
    pub declarators: Items<Declarator>,
}

/// A name with its annotation and its initializer.
#[cycle(trees)]
#[derive(Drop)]
pub struct Declarator {
    pub at: usize,
    pub name: Name,
    pub annotation: Option<TypeExpr>,
    pub value: Option<Boxed<Expr>>,
}

#[cycle(trees)]
#[derive(Drop)]
pub struct Function {
    pub at: usize,
    pub name: Name,
    pub variables: Items<Identifier>,
    pub params: Items<Param>,
    pub result: Option<TypeExpr>,
    pub body: Boxed<Block>,
}

#[cycle(trees)]
#[derive(Drop)]
pub enum Stmt {
    Block(Boxed<Block>),
    If {
        at: usize,
        condition: Boxed<Expr>,
        then: Boxed<Stmt>,
        otherwise: Option<Boxed<Stmt>>,
    },
    While {
        at: usize,
        condition: Boxed<Expr>,
        body: Boxed<Stmt>,
    },
    Do {
        at: usize,
        body: Boxed<Stmt>,
        condition: Boxed<Expr>,
    },
    For {
        at: usize,
        start: ForStart,
        condition: Option<Boxed<Expr>>,
        update: Option<Boxed<Expr>>,
        body: Boxed<Stmt>,
    },
    ForOf {
        at: usize,
        kind: VarKind,
        element: Identifier,
        subject: Boxed<Expr>,
        body: Boxed<Stmt>,
    },
    Return {
        at: usize,
        value: Option<Boxed<Expr>>,
    },
    Break {
        at: usize,
    },
    Continue {
        at: usize,
    },
    Throw {
        at: usize,
        value: Boxed<Expr>,
    },
    Switch {
        at: usize,
        subject: Boxed<Expr>,
        clauses: Items<Clause>,
    },
    Expr {
        at: usize,
        value: Boxed<Expr>,
    },
    Empty {
        at: usize,
    },
}

/// What a `for` begins with.
#[cycle(trees)]
#[derive(Drop)]
pub enum ForStart {
    Var(Boxed<Var>),
    Expr(Boxed<Expr>),
    Nothing,
}

#[cycle(trees)]
#[derive(Drop)]
pub enum Clause {
    Case {
        at: usize,
        value: Boxed<Expr>,
        items: Items<BlockItem>,
    },
    Default {
        at: usize,
        items: Items<BlockItem>,
    },
}
