//! Chains: a primary with what follows it.

ghost use Rattle.std.specs.Prelude.{◌≡◌, ◌≤◌, ◌<◌, ◌+◌, true, length, IfOk};
ghost use Rattle.tb_tree.specs.Longest.{Never};
ghost use Rattle.tb_parse_type.specs.Reading.{rest, start_at};
ghost use Rattle.tb_parse_body.specs.Nests.{NestsExpr};
ghost use Rattle.tb_parse_body.specs.Reading.{Reads, ReadsOne};
ghost use Rattle.tb_parse_body.specs.Links as links;
ghost use Rattle.tb_parse_body.specs.Stems.{ReadsStem};
ghost use Rattle.tb_parse_body.specs.Rules as rules;

use crate::fronts::{Front, Link, Stem};
use crate::nests::Grammar;
use crate::operators::{is_number, is_target, larger};
use sqlite_items::{Boxed, Items};
use std::alloc::Global;
use tb_parse_type::Reader;
use tb_text::NoMemory;
use tb_tree::{Expr, Mark};

/// An expression with a link behind it. `at` is where it begins.
fn linked(alloc: Global, at: usize, base: Expr, link: Link) -> Result<Expr, NoMemory>
    ensures { IfOk result (λ tree. tree ≡ links.linked at base link) }
{
    match link {
        Link::Member(member) => Ok(Expr::Member {
            at,
            base: Boxed::new(alloc, base)?,
            member,
        }),
        Link::Index(index) => Ok(Expr::Index {
            at,
            base: Boxed::new(alloc, base)?,
            index,
        }),
        Link::Call(arguments) => Ok(Expr::Call {
            at,
            callee: Boxed::new(alloc, base)?,
            type_arguments: Items::new(alloc),
            arguments,
        }),
    }
}

fn is_call(link: &Link) -> bool
    ensures { result ≡ links.is_call link.now }
{
    match link {
        Link::Call(_) => true,
        _ => false,
    }
}

/// What is called, where an expression is a call.
fn callee_of(of: Expr) -> Expr
    ensures { result ≡ links.callee_of of }
{
    match of {
        Expr::Call { callee, .. } => callee.into_inner(),
        other => other,
    }
}

/// An expression without so many calls at its end.
fn without_calls(of: Expr, calls: usize) -> Expr
    ensures { result ≡ links.strip calls of }
{
    let mut tree = of;
    for _ in 0..calls {
        tree = callee_of(tree);
    }
    tree
}

impl<E: Fn(Reader<'_>, usize, bool, usize) -> Result<Option<Front<Expr>>, NoMemory>, B, S> Grammar<
    '_,
    E,
    B,
    S,
> {
    /// `. Word`.
    fn member_at(&self, at: usize) -> Result<Option<Front<Link>>, NoMemory>
        ensures { IfOk result (λ o. Reads links.MemberRule Never self.now.reader at o) }
    {
        if !self.reader.is_mark(at, Mark::Dot) {
            return Ok(None);
        }
        let Some(_word) = self.reader.word_at(at + 1) else {
            return Ok(None);
        };
        let name = self.reader.text_at(at + 1)?;
        Ok(Some(Front {
            tree: Link::Member(name),
            depth: 0,
            next: at + 2,
        }))
    }

    /// `[ Expr ]`.
    fn index_at(&self, at: usize, limit: usize) -> Result<Option<Front<Link>>, NoMemory>
        requires exprs { NestsExpr self.now.bound (E.pre self.now.expr) (E.post self.now.expr) }
        requires below { limit ≤ self.now.bound }
        ensures { IfOk result (λ o. Reads (links.IndexUpto limit) Never self.now.reader at o) }
    {
        if !self.reader.is_mark(at, Mark::OpenBracket) {
            return Ok(None);
        }
        let Some(index) = self.expr_inside(at + 1, true, limit)? else {
            return Ok(None);
        };
        if !self.reader.is_mark(index.next, Mark::CloseBracket) {
            return Ok(None);
        }
        Ok(Some(Front {
            tree: Link::Index(Boxed::new(self.reader.alloc, index.tree)?),
            depth: index.depth,
            next: index.next + 1,
        }))
    }

    /// `( Expr,* )`.
    fn call_at(&self, at: usize, limit: usize) -> Result<Option<Front<Link>>, NoMemory>
        requires exprs { NestsExpr self.now.bound (E.pre self.now.expr) (E.post self.now.expr) }
        requires below { limit ≤ self.now.bound }
        ensures { IfOk result (λ o. Reads (links.CallUpto limit) Never self.now.reader at o) }
    {
        if !self.reader.is_mark(at, Mark::OpenParen) {
            return Ok(None);
        }
        let arguments = self.exprs_at(at + 1, limit)?;
        if !self.reader.is_mark(arguments.next, Mark::CloseParen) {
            return Ok(None);
        }
        Ok(Some(Front {
            tree: Link::Call(arguments.tree),
            depth: arguments.depth,
            next: arguments.next + 1,
        }))
    }

    /// A link behind an expression, which is a number or not: a number has no members.
    fn link_at(
        &self,
        at: usize,
        number: bool,
        limit: usize,
    ) -> Result<Option<Front<Link>>, NoMemory>
        requires exprs { NestsExpr self.now.bound (E.pre self.now.expr) (E.post self.now.expr) }
        requires below { limit ≤ self.now.bound }
        ensures { IfOk result (λ o. Reads (links.LinkUpto number limit) Never self.now.reader at o) }
    {
        if let Some(index) = self.index_at(at, limit)? {
            return Ok(Some(index));
        }
        if let Some(call) = self.call_at(at, limit)? {
            return Ok(Some(call));
        }
        if number {
            return Ok(None);
        }
        let member = self.member_at(at)?;
        Ok(member)
    }

    /// A chain, of which the primary was read.
    pub(crate) fn chain_from(
        &self,
        at: usize,
        first: Front<Expr>,
        limit: usize,
    ) -> Result<Front<Expr>, NoMemory>
        requires exprs { NestsExpr self.now.bound (E.pre self.now.expr) (E.post self.now.expr) }
        requires below { limit ≤ self.now.bound + 1 }
        requires first { ReadsOne (rules.PrimaryUpto limit) Never self.now.reader at first }
        ensures { IfOk result (λ x. ReadsOne (rules.ChainUpto limit) rules.InChain self.now.reader at x) }
    {
        let start = self.reader.start_at(at);
        let mut left = first;
        while left.depth < limit {
            let number = is_number(&left.tree);
            let Some(link) = self.link_at(left.next, number, limit - 1)? else {
                return Ok(left);
            };
            let Front { tree, depth, .. } = left;
            left = Front {
                tree: linked(self.reader.alloc, start, tree, link.tree)?,
                depth: larger(depth, link.depth) + 1,
                next: link.next,
            };
        }
        Ok(left)
    }

    /// A chain of which the primary was read, as far as it goes, and where it has no call behind its last target.
    fn stem_from(&self, at: usize, first: Front<Expr>, limit: usize) -> Result<Stem, NoMemory>
        requires exprs { NestsExpr self.now.bound (E.pre self.now.expr) (E.post self.now.expr) }
        requires below { limit ≤ self.now.bound + 1 }
        requires first { ReadsOne (rules.PrimaryUpto limit) Never self.now.reader at first }
        ensures { IfOk result (λ s. ReadsStem limit self.now.reader at s) }
    {
        let start = self.reader.start_at(at);
        let mut calls = 0;
        let mut base_depth = first.depth;
        let mut base_next = first.next;
        let mut left = first;
        while left.depth < limit {
            let number = is_number(&left.tree);
            let Some(link) = self.link_at(left.next, number, limit - 1)? else {
                return Ok(Stem {
                    chain: left.tree,
                    calls,
                    depth: base_depth,
                    next: base_next,
                });
            };
            let call = is_call(&link.tree);
            let Front { tree, depth, .. } = left;
            left = Front {
                tree: linked(self.reader.alloc, start, tree, link.tree)?,
                depth: larger(depth, link.depth) + 1,
                next: link.next,
            };
            if call {
                calls += 1;
            } else {
                calls = 0;
                base_depth = left.depth;
                base_next = left.next;
            }
        }
        Ok(Stem {
            chain: left.tree,
            calls,
            depth: base_depth,
            next: base_next,
        })
    }

    /// The longest chain that is a target.
    pub(crate) fn target_at(&self, at: usize, limit: usize) -> Result<Option<Front<Expr>>, NoMemory>
        requires exprs { NestsExpr self.now.bound (E.pre self.now.expr) (E.post self.now.expr) }
        requires within { at ≤ length self.now.reader.tokens.now }
        requires below { limit ≤ self.now.bound + 1 }
        ensures { IfOk result (λ o. Reads (rules.TargetUpto limit) rules.InChain self.now.reader at o) }
    {
        let Some(first) = self.primary_at(at, limit)? else {
            return Ok(None);
        };
        let stem = self.stem_from(at, first, limit)?;
        let Stem {
            chain,
            calls,
            depth,
            next,
        } = stem;
        let tree = without_calls(chain, calls);
        if !is_target(&tree) {
            return Ok(None);
        }
        Ok(Some(Front { tree, depth, next }))
    }
}
