//! The trees of types. They have the parts of what was written, in order, but no parentheses, no leading `|`, and no
//! union as a part of a union. The field `at` is an offset in bytes: for a member or a parameter that of its name, else
//! that of the first token. The last four forms are in no text: what a name stands for, once it is found.

use sqlite_items::{Boxed, Items};
use tb_text::{Name, Path};

/// The types that are words.
#[derive(Clone, Copy, Debug, PartialEq, Eq)]
pub enum TypeKeyword {
    Any,
    Unknown,
    Never,
    Number,
    String,
    Boolean,
    Void,
    Null,
    Undefined,
}

#[cycle(types)]
#[derive(Drop)]
pub enum TypeExpr {
    Keyword {
        at: usize,
        keyword: TypeKeyword,
    },
    /// `true` or `false`.
    Boolean {
        at: usize,
        value: bool,
    },
    /// A string, as it is spelled.
    String {
        at: usize,
        spelled: Name,
    },
    /// An integer: its digits, and whether a minus stands before them.
    Integer {
        at: usize,
        minus: bool,
        digits: Name,
    },
    /// A name with its type arguments.
    Written {
        at: usize,
        name: Name,
        arguments: Items<TypeExpr>,
    },
    Array {
        at: usize,
        read_only: bool,
        element: Boxed<TypeExpr>,
    },
    Function {
        at: usize,
        params: Items<TypeParam>,
        result: Boxed<TypeExpr>,
    },
    Object {
        at: usize,
        members: Items<TypeMember>,
    },
    Union {
        at: usize,
        parts: Items<TypeExpr>,
    },
    /// An interface, an alias or the instances of a class, by the path of its file and its name there, with its type
    /// arguments.
    Named {
        path: Path,
        name: Name,
        arguments: Items<TypeExpr>,
    },
    /// A class as a value.
    Class {
        path: Path,
        name: Name,
    },
    /// A type variable of the declaration `owner`.
    Param {
        owner: Name,
        name: Name,
    },
    /// A function with type variables.
    Generic {
        path: Path,
        name: Name,
    },
}

/// A parameter of a function type.
#[cycle(types)]
#[derive(Drop)]
pub struct TypeParam {
    pub at: usize,
    pub name: Name,
    pub optional: bool,
    pub shape: Boxed<TypeExpr>,
}

/// A member of an interface or of an object type.
#[cycle(types)]
#[derive(Drop)]
pub enum TypeMember {
    Property {
        at: usize,
        read_only: bool,
        key: Key,
        optional: bool,
        shape: Boxed<TypeExpr>,
    },
    Method {
        at: usize,
        key: Key,
        optional: bool,
        params: Items<TypeParam>,
        result: Boxed<TypeExpr>,
    },
}

/// The key of a member or a property, as it is written.
#[derive(Clone, Debug, Drop)]
#[derive_where(PartialEq, Eq)]
pub enum Key {
    Word(Name),
    String(Name),
}
