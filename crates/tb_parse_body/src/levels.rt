//! Operators: before an operand, after a target, and between operands, from the strongest to the weakest.

ghost use Rattle.std.specs.Prelude.{◌≡◌, ◌≤◌, ◌<◌, ◌+◌, suc, true, length, IfOk};
ghost use Rattle.tb_tree.specs.declared.exprs.Expr.TheVariants as expr;
ghost use Rattle.tb_tree.specs.Sym as sym;
ghost use Rattle.tb_tree.specs.Longest.{Lacks};
ghost use Rattle.tb_parse_type.specs.Rules.{InType};
ghost use Rattle.tb_parse_type.specs.Reading.{rest, start_at, Stands};
ghost use Rattle.tb_parse_body.specs.Nests.{NestsExpr};
ghost use Rattle.tb_parse_body.specs.Reading.{Reads, ReadsOne};
ghost use Rattle.tb_parse_body.specs.Rules as rules;
ghost use Rattle.tb_parse_body.specs.Joins as joins;

use crate::fronts::Front;
use crate::nests::Grammar;
use crate::operators::{assign_at, binary_at, is_target, larger, unary_at, update_at};
use sqlite_items::Boxed;
use std::alloc::Global;
use tb_parse_type::{Limits, MAX_COUNT, Reader, type_at};
use tb_text::NoMemory;
use tb_tree::{
    AssignOperator, BinaryOperator, Expr, Mark, TypeExpr, UnaryOperator, UpdateOperator, Word,
};

/// The levels of joins, by how strongly they join; above them stand operators on one operand.
const OR: usize = 1;

const AND: usize = 2;

const EQUALITY: usize = 3;

const RELATION: usize = 4;

const SUM: usize = 5;

const PRODUCT: usize = 6;

const UNARY: usize = 7;

/// What may follow an operand: an operator with a further operand, or `as` with a type.
#[derive(Drop)]
pub enum Join {
    Operator(BinaryOperator, Boxed<Expr>),
    As(TypeExpr),
}

/// A condition with its branches.
fn conditional(
    alloc: Global,
    at: usize,
    condition: Expr,
    then: Boxed<Expr>,
    otherwise: Boxed<Expr>,
) -> Result<Expr, NoMemory>
    ensures { IfOk result (λ tree. tree ≡ expr.Conditional at condition then otherwise) }
{
    let condition = Boxed::new(alloc, condition)?;
    Ok(Expr::Conditional {
        at,
        condition,
        then,
        otherwise,
    })
}

/// An operand with an operator before it.
fn unary(alloc: Global, at: usize, operator: UnaryOperator, operand: Expr) -> Result<Expr, NoMemory>
    ensures { IfOk result (λ tree. tree ≡ expr.Unary at operator operand) }
{
    let operand = Boxed::new(alloc, operand)?;
    Ok(Expr::Unary {
        at,
        operator,
        operand,
    })
}

/// A target with `++` or `--` before or behind it.
fn update(
    alloc: Global,
    at: usize,
    operator: UpdateOperator,
    before: bool,
    target: Expr,
) -> Result<Expr, NoMemory>
    ensures { IfOk result (λ tree. tree ≡ expr.Update at operator before target) }
{
    let target = Boxed::new(alloc, target)?;
    Ok(Expr::Update {
        at,
        operator,
        before,
        target,
    })
}

/// A target that is written.
fn written(
    alloc: Global,
    at: usize,
    target: Expr,
    operator: AssignOperator,
    value: Boxed<Expr>,
) -> Result<Expr, NoMemory>
    ensures { IfOk result (λ tree. tree ≡ expr.Assign at target operator value) }
{
    let target = Boxed::new(alloc, target)?;
    Ok(Expr::Assign {
        at,
        target,
        operator,
        value,
    })
}

/// An operand with what joins a further one to it, or with a type. `at` is where it begins.
fn joined(alloc: Global, at: usize, left: Expr, join: Join) -> Result<Expr, NoMemory>
    ensures { IfOk result (λ tree. tree ≡ joins.joined at left join) }
{
    let left = Boxed::new(alloc, left)?;
    match join {
        Join::Operator(operator, right) => Ok(Expr::Binary {
            at,
            left,
            operator,
            right,
        }),
        Join::As(shape) => Ok(Expr::As {
            at,
            value: left,
            shape,
        }),
    }
}

impl<E: Fn(Reader<'_>, usize, bool, usize) -> Result<Option<Front<Expr>>, NoMemory>, B, S> Grammar<
    '_,
    E,
    B,
    S,
> {
    /// A chain that was read, with `++` or `--` behind it where it is a target.
    pub(crate) fn update_from(
        &self,
        at: usize,
        chain: Front<Expr>,
        limit: usize,
    ) -> Result<Front<Expr>, NoMemory>
        requires chain { ReadsOne (rules.ChainUpto limit) rules.InChain self.now.reader at chain }
        ensures { IfOk result (λ x. ReadsOne (rules.UnaryUpto limit) rules.InUnary self.now.reader at x) }
    {
        if !is_target(&chain.tree) || chain.depth >= limit {
            return Ok(chain);
        }
        let Some(operator) = update_at(&self.reader, chain.next) else {
            return Ok(chain);
        };
        let start = self.reader.start_at(at);
        Ok(Front {
            tree: update(self.reader.alloc, start, operator, false, chain.tree)?,
            depth: chain.depth + 1,
            next: chain.next + 1,
        })
    }

    pub(crate) fn prefixed_at(
        &self,
        at: usize,
        limit: usize,
    ) -> Result<Option<Front<Expr>>, NoMemory>
        requires exprs { NestsExpr self.now.bound (E.pre self.now.expr) (E.post self.now.expr) }
        requires within { at ≤ length self.now.reader.tokens.now }
        requires below { limit ≤ self.now.bound + 1 }
        ensures { IfOk result (λ o. Reads (rules.UnaryUpto limit) rules.InUnary self.now.reader at o) }
    {
        if limit == 0 {
            return Ok(None);
        }
        if let Some(operator) = unary_at(&self.reader, at) {
            let Some(operand) = self.prefixed_at(at + 1, limit - 1)? else {
                return Ok(None);
            };
            let start = self.reader.start_at(at);
            return Ok(Some(Front {
                tree: unary(self.reader.alloc, start, operator, operand.tree)?,
                depth: operand.depth + 1,
                next: operand.next,
            }));
        }
        if let Some(operator) = update_at(&self.reader, at) {
            let Some(target) = self.target_at(at + 1, limit - 1)? else {
                return Ok(None);
            };
            let start = self.reader.start_at(at);
            return Ok(Some(Front {
                tree: update(self.reader.alloc, start, operator, true, target.tree)?,
                depth: target.depth + 1,
                next: target.next,
            }));
        }
        let Some(first) = self.primary_at(at, limit)? else {
            return Ok(None);
        };
        let chain = self.chain_from(at, first, limit)?;
        let updated = self.update_from(at, chain, limit)?;
        Ok(Some(updated))
    }

    #[cycle(levels)]
    fn level_at(
        &self,
        level: usize,
        at: usize,
        limit: usize,
    ) -> Result<Option<Front<Expr>>, NoMemory>
        requires exprs { NestsExpr self.now.bound (E.pre self.now.expr) (E.post self.now.expr) }
        requires within { at ≤ length self.now.reader.tokens.now }
        requires below { limit ≤ self.now.bound + 1 }
        requires level { (0 < level) × (level ≤ 7) }
        ensures { IfOk result (λ o. Reads (rules.LevelUpto level limit) (rules.InLevel level) self.now.reader at o) }
    {
        if level == UNARY {
            let unary = self.prefixed_at(at, limit)?;
            return Ok(unary);
        }
        let Some(first) = self.level_at(level + 1, at, limit)? else {
            return Ok(None);
        };
        let whole = self.level_from(level, at, first, limit)?;
        Ok(Some(whole))
    }

    /// `as Type`, where a level has it.
    fn cast_at(
        &self,
        level: usize,
        at: usize,
        limit: usize,
    ) -> Result<Option<Front<TypeExpr>>, NoMemory>
        ensures { IfOk result (λ o. Reads (joins.CastUpto level limit) InType self.now.reader at o) }
    {
        if level != RELATION {
            return Ok(None);
        }
        if !self.reader.is_word(at, Word::As) {
            return Ok(None);
        }
        let limits = Limits {
            own: MAX_COUNT,
            depth: limit,
        };
        let Some(shape) = type_at(self.reader, at + 1, limits)? else {
            return Ok(None);
        };
        Ok(Some(Front {
            tree: shape.tree,
            depth: shape.depth,
            next: shape.next,
        }))
    }

    /// An operator of a level, and the operand behind it.
    #[cycle(levels)]
    fn operation_at(
        &self,
        level: usize,
        at: usize,
        limit: usize,
    ) -> Result<Option<Front<(BinaryOperator, Boxed<Expr>)>>, NoMemory>
        requires exprs { NestsExpr self.now.bound (E.pre self.now.expr) (E.post self.now.expr) }
        requires below { limit ≤ self.now.bound }
        requires level { (0 < level) × (level < 7) }
        ensures { IfOk result (λ o. Reads (joins.OperationUpto level limit) (rules.InLevel (suc level)) self.now.reader at o) }
    {
        let Some(operator) = binary_at(&self.reader, at, level) else {
            return Ok(None);
        };
        let Some(right) = self.level_at(level + 1, at + 1, limit)? else {
            return Ok(None);
        };
        let operand = Boxed::new(self.reader.alloc, right.tree)?;
        Ok(Some(Front {
            tree: (operator, operand),
            depth: right.depth,
            next: right.next,
        }))
    }

    /// What may follow an operand of a level.
    #[cycle(levels)]
    fn join_at(
        &self,
        level: usize,
        at: usize,
        limit: usize,
    ) -> Result<Option<Front<Join>>, NoMemory>
        requires exprs { NestsExpr self.now.bound (E.pre self.now.expr) (E.post self.now.expr) }
        requires below { limit ≤ self.now.bound }
        requires level { (0 < level) × (level < 7) }
        ensures { IfOk result (λ o. joins.ReadsJoin level limit self.now.reader at o) }
    {
        if let Some(cast) = self.cast_at(level, at, limit)? {
            return Ok(Some(Front {
                tree: Join::As(cast.tree),
                depth: cast.depth,
                next: cast.next,
            }));
        }
        let Some(operation) = self.operation_at(level, at, limit)? else {
            return Ok(None);
        };
        let (operator, operand) = operation.tree;
        Ok(Some(Front {
            tree: Join::Operator(operator, operand),
            depth: operation.depth,
            next: operation.next,
        }))
    }

    /// Operands of a level, of which the first was read, joined from the left to the right.
    #[cycle(levels)]
    fn level_from(
        &self,
        level: usize,
        at: usize,
        first: Front<Expr>,
        limit: usize,
    ) -> Result<Front<Expr>, NoMemory>
        requires exprs { NestsExpr self.now.bound (E.pre self.now.expr) (E.post self.now.expr) }
        requires below { limit ≤ self.now.bound + 1 }
        requires level { (0 < level) × (level < 7) }
        requires first { ReadsOne (rules.LevelUpto (suc level) limit) (rules.InLevel (suc level)) self.now.reader at first }
        ensures { IfOk result (λ x. ReadsOne (rules.LevelUpto level limit) (rules.InLevel level) self.now.reader at x) }
    {
        let start = self.reader.start_at(at);
        let mut left = first;
        while left.depth < limit {
            let Some(join) = self.join_at(level, left.next, limit - 1)? else {
                return Ok(left);
            };
            let Front { tree, depth, .. } = left;
            left = Front {
                tree: joined(self.reader.alloc, start, tree, join.tree)?,
                depth: larger(depth, join.depth) + 1,
                next: join.next,
            };
        }
        Ok(left)
    }

    /// `??`, and the operand behind it.
    fn nullish_at(&self, at: usize, limit: usize) -> Result<Option<Front<Join>>, NoMemory>
        requires exprs { NestsExpr self.now.bound (E.pre self.now.expr) (E.post self.now.expr) }
        requires below { limit ≤ self.now.bound }
        ensures { IfOk result (λ o. Reads (joins.NullishUpto limit) (rules.InLevel 3) self.now.reader at o) }
    {
        if !self.reader.is_mark(at, Mark::Nullish) {
            return Ok(None);
        }
        let Some(right) = self.level_at(EQUALITY, at + 1, limit)? else {
            return Ok(None);
        };
        let operand = Boxed::new(self.reader.alloc, right.tree)?;
        Ok(Some(Front {
            tree: Join::Operator(BinaryOperator::Nullish, operand),
            depth: right.depth,
            next: right.next,
        }))
    }

    /// Operands joined by `??`, of which the first was read.
    fn nullish_from(
        &self,
        at: usize,
        first: Front<Expr>,
        limit: usize,
    ) -> Result<Front<Expr>, NoMemory>
        requires exprs { NestsExpr self.now.bound (E.pre self.now.expr) (E.post self.now.expr) }
        requires below { limit ≤ self.now.bound + 1 }
        requires first { ReadsOne (rules.LevelUpto 3 limit) (rules.InLevel 3) self.now.reader at first }
        requires stands { Stands self.now.reader first.next (sym.Mark Mark.Nullish (start_at self.now.reader first.next)) }
        ensures { IfOk result (λ x. ReadsOne (rules.OrUpto limit) rules.InOr self.now.reader at x) }
    {
        let start = self.reader.start_at(at);
        let mut left = first;
        while left.depth < limit {
            let Some(join) = self.nullish_at(left.next, limit - 1)? else {
                return Ok(left);
            };
            let Front { tree, depth, .. } = left;
            left = Front {
                tree: joined(self.reader.alloc, start, tree, join.tree)?,
                depth: larger(depth, join.depth) + 1,
                next: join.next,
            };
        }
        Ok(left)
    }

    /// Operands joined by `||` and what joins more strongly, or by `??`; of which the first, a unary, was read.
    fn or_from(&self, at: usize, first: Front<Expr>, limit: usize) -> Result<Front<Expr>, NoMemory>
        requires exprs { NestsExpr self.now.bound (E.pre self.now.expr) (E.post self.now.expr) }
        requires below { limit ≤ self.now.bound + 1 }
        requires first { ReadsOne (rules.UnaryUpto limit) rules.InUnary self.now.reader at first }
        ensures { IfOk result (λ x. ReadsOne (rules.OrUpto limit) rules.InOr self.now.reader at x) }
    {
        let product = self.level_from(PRODUCT, at, first, limit)?;
        let sum = self.level_from(SUM, at, product, limit)?;
        let relation = self.level_from(RELATION, at, sum, limit)?;
        let equality = self.level_from(EQUALITY, at, relation, limit)?;
        if self.reader.is_mark(equality.next, Mark::Nullish) {
            let nullish = self.nullish_from(at, equality, limit)?;
            return Ok(nullish);
        }
        let and = self.level_from(AND, at, equality, limit)?;
        let or = self.level_from(OR, at, and, limit)?;
        Ok(or)
    }

    /// An expression inside, on the heap.
    fn boxed_inside(
        &self,
        at: usize,
        typed: bool,
        limit: usize,
    ) -> Result<Option<Front<Boxed<Expr>>>, NoMemory>
        requires exprs { NestsExpr self.now.bound (E.pre self.now.expr) (E.post self.now.expr) }
        requires within { at ≤ length self.now.reader.tokens.now }
        requires below { limit ≤ self.now.bound }
        ensures { IfOk result (λ o. Reads (rules.ExprUpto typed limit) (rules.InExpr typed) self.now.reader at o) }
    {
        let Some(of) = self.expr_inside(at, typed, limit)? else {
            return Ok(None);
        };
        Ok(Some(Front {
            tree: Boxed::new(self.reader.alloc, of.tree)?,
            depth: of.depth,
            next: of.next,
        }))
    }

    /// What follows a condition: `? Expr : Expr`.
    fn branches_at(
        &self,
        at: usize,
        typed: bool,
        limit: usize,
    ) -> Result<Option<Front<(Boxed<Expr>, Boxed<Expr>)>>, NoMemory>
        requires exprs { NestsExpr self.now.bound (E.pre self.now.expr) (E.post self.now.expr) }
        requires below { limit ≤ self.now.bound }
        ensures { IfOk result (λ o. Reads (rules.BranchesUpto typed limit) (rules.InExpr typed) self.now.reader at o) }
    {
        if !self.reader.is_mark(at, Mark::Question) {
            return Ok(None);
        }
        let Some(then) = self.boxed_inside(at + 1, false, limit)? else {
            return Ok(None);
        };
        if !self.reader.is_mark(then.next, Mark::Colon) {
            return Ok(None);
        }
        let Some(otherwise) = self.boxed_inside(then.next + 1, typed, limit)? else {
            return Ok(None);
        };
        Ok(Some(Front {
            tree: (then.tree, otherwise.tree),
            depth: larger(then.depth, otherwise.depth),
            next: otherwise.next,
        }))
    }

    /// A condition that was read, with what follows it.
    fn cond_from(
        &self,
        at: usize,
        typed: bool,
        condition: Front<Expr>,
        limit: usize,
    ) -> Result<Front<Expr>, NoMemory>
        requires exprs { NestsExpr self.now.bound (E.pre self.now.expr) (E.post self.now.expr) }
        requires below { limit ≤ self.now.bound + 1 }
        requires condition { ReadsOne (rules.OrUpto limit) rules.InOr self.now.reader at condition }
        ensures { IfOk result (λ x. ReadsOne (rules.CondUpto typed limit) (rules.InExpr typed) self.now.reader at x) }
    {
        if condition.depth >= limit {
            return Ok(condition);
        }
        let Some(branches) = self.branches_at(condition.next, typed, limit - 1)? else {
            return Ok(condition);
        };
        let start = self.reader.start_at(at);
        let (then, otherwise) = branches.tree;
        Ok(Front {
            tree: conditional(self.reader.alloc, start, condition.tree, then, otherwise)?,
            depth: larger(condition.depth, branches.depth) + 1,
            next: branches.next,
        })
    }

    /// What follows a target: an operator that writes it, and Expr.
    fn assigned_at(
        &self,
        at: usize,
        typed: bool,
        limit: usize,
    ) -> Result<Option<Front<(AssignOperator, Boxed<Expr>)>>, NoMemory>
        requires exprs { NestsExpr self.now.bound (E.pre self.now.expr) (E.post self.now.expr) }
        requires below { limit ≤ self.now.bound }
        ensures { IfOk result (λ o. Reads (rules.AssignedUpto typed limit) (rules.InExpr typed) self.now.reader at o) }
    {
        let Some(operator) = assign_at(&self.reader, at) else {
            return Ok(None);
        };
        let Some(value) = self.boxed_inside(at + 1, typed, limit)? else {
            return Ok(None);
        };
        Ok(Some(Front {
            tree: (operator, value.tree),
            depth: value.depth,
            next: value.next,
        }))
    }

    /// An expression that is no arrow, of which the first operand, a unary, was read.
    pub(crate) fn expr_from(
        &self,
        at: usize,
        typed: bool,
        first: Front<Expr>,
        limit: usize,
    ) -> Result<Front<Expr>, NoMemory>
        requires exprs { NestsExpr self.now.bound (E.pre self.now.expr) (E.post self.now.expr) }
        requires below { limit ≤ self.now.bound + 1 }
        requires no_arrow { Lacks (rules.ArrowUpto typed limit) (rest self.now.reader at) }
        requires first { ReadsOne (rules.UnaryUpto limit) rules.InUnary self.now.reader at first }
        ensures { IfOk result (λ x. ReadsOne (rules.ExprUpto typed limit) (rules.InExpr typed) self.now.reader at x) }
    {
        let target = self.or_from(at, first, limit)?;
        if !is_target(&target.tree) || target.depth >= limit {
            let cond = self.cond_from(at, typed, target, limit)?;
            return Ok(cond);
        }
        let Some(assigned) = self.assigned_at(target.next, typed, limit - 1)? else {
            let cond = self.cond_from(at, typed, target, limit)?;
            return Ok(cond);
        };
        let (operator, value) = assigned.tree;
        let start = self.reader.start_at(at);
        Ok(Front {
            tree: written(self.reader.alloc, start, target.tree, operator, value)?,
            depth: larger(target.depth, assigned.depth) + 1,
            next: assigned.next,
        })
    }
}
