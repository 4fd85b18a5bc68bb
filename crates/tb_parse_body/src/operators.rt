//! The symbols that are operators, and what stands at a place.

ghost use Rattle.std.specs.Prelude.{◌≡◌, ◌≤◌, ℕ, true, List, length, max, MatchBool, MatchOption, Some};
ghost use Rattle.tb_tree.specs.Sym as sym;
ghost use Rattle.tb_tree.specs.Words as words;
ghost use Rattle.tb_tree.specs.Shapes as shapes;
ghost use Rattle.tb_tree.specs.Exprs as exprs;
ghost use Rattle.tb_parse_type.specs.Symbols.{placed};
ghost use Rattle.tb_parse_type.specs.Reading.{rest, text_at, start_at, Stands, LacksSym};
ghost use Rattle.tb_parse_body.specs.Rules as rules;

use tb_parse_type::{Reader, Symbol};
use tb_tree::{
    AssignOperator, BinaryOperator, Class, Expr, Mark, UnaryOperator, UpdateOperator, VarKind,
    Word, is_name,
};

/// The larger of two depths.
pub fn larger(a: usize, b: usize) -> usize
    ensures { result ≡ max a b }
{
    if a < b { b } else { a }
}

/// Whether an expression may be written to: a name, a member or an index.
pub(crate) fn is_target(of: &Expr) -> bool
    ensures { result ≡ exprs.is_target of.now }
{
    match of {
        Expr::Name { .. } => true,
        Expr::Member { .. } => true,
        Expr::Index { .. } => true,
        _ => false,
    }
}

pub(crate) fn is_number(of: &Expr) -> bool
    ensures { result ≡ exprs.is_number of.now }
{
    match of {
        Expr::Number { .. } => true,
        _ => false,
    }
}

fn unary_mark(mark: Mark) -> Option<UnaryOperator>
    ensures { (o : ℕ) → exprs.unary_of (sym.Mark mark o) ≡ result }
{
    match mark {
        Mark::Not => Some(UnaryOperator::Not),
        Mark::Minus => Some(UnaryOperator::Minus),
        Mark::Plus => Some(UnaryOperator::Plus),
        _ => None,
    }
}

fn unary_symbol(symbol: Symbol) -> Option<UnaryOperator>
    ensures { (w : List ℕ) (o : ℕ) → exprs.unary_of (placed symbol w o) ≡ result }
{
    match symbol {
        Symbol::Mark(mark) => unary_mark(mark),
        Symbol::Class(Class::Word(Word::Typeof)) => Some(UnaryOperator::Typeof),
        _ => None,
    }
}

fn update_symbol(symbol: Symbol) -> Option<UpdateOperator>
    ensures { (w : List ℕ) (o : ℕ) → exprs.update_of (placed symbol w o) ≡ result }
{
    match symbol {
        Symbol::Mark(Mark::PlusPlus) => Some(UpdateOperator::Increment),
        Symbol::Mark(Mark::MinusMinus) => Some(UpdateOperator::Decrement),
        _ => None,
    }
}

fn assign_symbol(symbol: Symbol) -> Option<AssignOperator>
    ensures { (w : List ℕ) (o : ℕ) → exprs.assign_of (placed symbol w o) ≡ result }
{
    match symbol {
        Symbol::Mark(Mark::Assign) => Some(AssignOperator::Assign),
        Symbol::Mark(Mark::PlusAssign) => Some(AssignOperator::Plus),
        Symbol::Mark(Mark::MinusAssign) => Some(AssignOperator::Minus),
        Symbol::Mark(Mark::StarAssign) => Some(AssignOperator::Times),
        Symbol::Mark(Mark::SlashAssign) => Some(AssignOperator::Divided),
        Symbol::Mark(Mark::PercentAssign) => Some(AssignOperator::Remainder),
        _ => None,
    }
}

fn binary_symbol(symbol: Symbol) -> Option<BinaryOperator>
    ensures { (w : List ℕ) (o : ℕ) → exprs.binary_of (placed symbol w o) ≡ result }
{
    match symbol {
        Symbol::Mark(Mark::Or) => Some(BinaryOperator::Or),
        Symbol::Mark(Mark::And) => Some(BinaryOperator::And),
        Symbol::Mark(Mark::Same) => Some(BinaryOperator::Same),
        Symbol::Mark(Mark::NotSame) => Some(BinaryOperator::NotSame),
        Symbol::Mark(Mark::Less) => Some(BinaryOperator::Less),
        Symbol::Mark(Mark::Greater) => Some(BinaryOperator::Greater),
        Symbol::Mark(Mark::LessEqual) => Some(BinaryOperator::LessEqual),
        Symbol::Mark(Mark::GreaterEqual) => Some(BinaryOperator::GreaterEqual),
        Symbol::Mark(Mark::Plus) => Some(BinaryOperator::Plus),
        Symbol::Mark(Mark::Minus) => Some(BinaryOperator::Minus),
        Symbol::Mark(Mark::Star) => Some(BinaryOperator::Times),
        Symbol::Mark(Mark::Slash) => Some(BinaryOperator::Divided),
        Symbol::Mark(Mark::Percent) => Some(BinaryOperator::Remainder),
        _ => None,
    }
}

/// How strongly an operator joins.
fn strength(operator: BinaryOperator) -> usize
    ensures { result ≡ exprs.strength operator }
{
    match operator {
        BinaryOperator::Or => 1,
        BinaryOperator::And => 2,
        BinaryOperator::Same => 3,
        BinaryOperator::NotSame => 3,
        BinaryOperator::Plus => 5,
        BinaryOperator::Minus => 5,
        BinaryOperator::Times => 6,
        BinaryOperator::Divided => 6,
        BinaryOperator::Remainder => 6,
        _ => 4,
    }
}

/// The operator before an operand at a place.
pub(crate) fn unary_at(reader: &Reader<'_>, at: usize) -> Option<UnaryOperator>
    ensures { MatchOption result
        ((s : sym.Sym) (operator : UnaryOperator) → exprs.unary_of s ≡ Some operator → LacksSym reader.now at s)
        (λ operator. (s : sym.Sym) × Stands reader.now at s × (exprs.unary_of s ≡ Some operator) × (sym.at_of s ≡ start_at reader.now at)) }
{
    let Some(symbol) = reader.symbol(at) else {
        return None;
    };
    unary_symbol(symbol)
}

/// `++` or `--` at a place.
pub(crate) fn update_at(reader: &Reader<'_>, at: usize) -> Option<UpdateOperator>
    ensures { MatchOption result
        ((s : sym.Sym) (operator : UpdateOperator) → exprs.update_of s ≡ Some operator → LacksSym reader.now at s)
        (λ operator. (s : sym.Sym) × Stands reader.now at s × (exprs.update_of s ≡ Some operator) × (sym.at_of s ≡ start_at reader.now at)) }
{
    let Some(symbol) = reader.symbol(at) else {
        return None;
    };
    update_symbol(symbol)
}

/// The operator that writes a target at a place.
pub(crate) fn assign_at(reader: &Reader<'_>, at: usize) -> Option<AssignOperator>
    ensures { MatchOption result
        ((s : sym.Sym) (operator : AssignOperator) → exprs.assign_of s ≡ Some operator → LacksSym reader.now at s)
        (λ operator. (s : sym.Sym) × Stands reader.now at s × (exprs.assign_of s ≡ Some operator)) }
{
    let Some(symbol) = reader.symbol(at) else {
        return None;
    };
    assign_symbol(symbol)
}

/// The operator of a level that joins at a place.
pub(crate) fn binary_at(reader: &Reader<'_>, at: usize, level: usize) -> Option<BinaryOperator>
    ensures { MatchOption result
        ((s : sym.Sym) (operator : BinaryOperator) → exprs.binary_of s ≡ Some operator → exprs.strength operator ≡ level → LacksSym reader.now at s)
        (λ operator. (s : sym.Sym) × Stands reader.now at s × (exprs.binary_of s ≡ Some operator) × (exprs.strength operator ≡ level)) }
{
    let Some(symbol) = reader.symbol(at) else {
        return None;
    };
    let Some(operator) = binary_symbol(symbol) else {
        return None;
    };
    if strength(operator) == level {
        Some(operator)
    } else {
        None
    }
}

/// The word at a place, if it may name something.
pub fn name_at(reader: &Reader<'_>, at: usize) -> Option<Word>
    ensures { MatchOption result
        ((k : Word) (w : List ℕ) (o : ℕ) → words.is_name k ≡ true → LacksSym reader.now at (shapes.word k w o))
        (λ k. (words.is_name k ≡ true) × Stands reader.now at (shapes.word k (text_at reader.now at) (start_at reader.now at))) }
{
    let Some(word) = reader.word_at(at) else {
        return None;
    };
    if is_name(word) { Some(word) } else { None }
}

fn kind_of(word: Word) -> Option<VarKind>
    ensures { result ≡ exprs.kind_of word }
{
    match word {
        Word::Const => Some(VarKind::Const),
        Word::Let => Some(VarKind::Let),
        _ => None,
    }
}

/// `const` or `let` at a place.
pub(crate) fn kind_at(reader: &Reader<'_>, at: usize) -> Option<VarKind>
    ensures { MatchOption result
        ((k : Word) (kind : VarKind) (w : List ℕ) (o : ℕ) → exprs.kind_of k ≡ Some kind → LacksSym reader.now at (shapes.word k w o))
        (λ kind. (k : Word) × (exprs.kind_of k ≡ Some kind) × Stands reader.now at (shapes.word k (text_at reader.now at) (start_at reader.now at))) }
{
    let Some(word) = reader.word_at(at) else {
        return None;
    };
    kind_of(word)
}
