//! What the rules answer.

use sqlite_items::{Boxed, Items};
use tb_text::Name;
use tb_tree::{Expr, Stmt};

/// What was read, how deep it is, and the first place behind it.
#[derive(Drop)]
pub struct Front<T> {
    pub tree: T,
    pub depth: usize,
    pub next: usize,
}

/// A statement that was read.
#[derive(Drop)]
pub struct StmtFront {
    pub tree: Stmt,
    pub depth: usize,
    pub next: usize,
    /// Whether it may stand before an `else` of an outer `if`: it does not end in an `if` without one.
    pub closed: bool,
}

/// What surrounds a statement: whether it stands in a body, a loop and a switch.
#[derive(Clone, Copy, Debug, PartialEq, Eq)]
pub struct Around {
    pub in_body: bool,
    pub in_loop: bool,
    pub in_switch: bool,
}

/// What is found out where an expression may begin with an arrow.
#[derive(Drop)]
pub enum Start {
    /// It is an arrow.
    Arrow(Front<Expr>),
    /// It is none; this is the primary that it begins with.
    Primary(Front<Expr>),
    /// No expression begins here.
    Neither,
    /// No arrow begins here.
    Open,
}

/// What may follow an expression in a chain.
#[derive(Drop)]
pub enum Link {
    Member(Name),
    Index(Boxed<Expr>),
    Call(Items<Expr>),
}

/// A chain, and where its last target ends.
#[derive(Drop)]
pub struct Stem {
    pub chain: Expr,
    /// How many calls it has behind its last member or index or, where it has none, behind its primary.
    pub calls: usize,
    /// How deep it is without these calls.
    pub depth: usize,
    /// Where these calls begin.
    pub next: usize,
}
