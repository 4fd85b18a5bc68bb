//! What an expression begins with, as far as an operator before it has to know.

ghost use Rattle.std.specs.Prelude.{◌≡◌};
ghost use Rattle.tb_layout.specs.Js.{update_mark};
ghost use Rattle.tb_layout.specs.Pieces.{mark_text};
ghost use Rattle.tb_layout.proofs.Written.{js_expr};
ghost use Rattle.tb_emit_js.specs.Signs as spec;

use tb_tree::{Expr, UnaryOperator, UpdateOperator};

/// The character that an expression begins with, where it is one of these.
#[derive(Clone, Copy)]
pub enum Sign {
    Plus,
    Minus,
    Other,
}

/// Goes down to the expression that is written first: a few steps, since an operator before it ends the walk.
#[tactic(auto, using(crate::proofs::Firsts::name_sign, crate::proofs::Firsts::this_sign, crate::proofs::Firsts::null_sign, crate::proofs::Firsts::undefined_sign, crate::proofs::Firsts::boolean_sign, crate::proofs::Firsts::number_sign, crate::proofs::Firsts::string_sign, crate::proofs::Firsts::template_sign, crate::proofs::Firsts::parens_sign, crate::proofs::Firsts::array_sign, crate::proofs::Firsts::object_sign, crate::proofs::Firsts::new_sign, crate::proofs::Firsts::member_sign, crate::proofs::Firsts::index_sign, crate::proofs::Firsts::call_sign, crate::proofs::Firsts::unary_sign, crate::proofs::Firsts::binary_sign, crate::proofs::Firsts::as_sign, crate::proofs::Firsts::conditional_sign, crate::proofs::Firsts::assign_sign, crate::proofs::Firsts::arrow_sign))]
pub(crate) fn first_sign(of: &Expr) -> Sign
    ensures { spec.BeginsWith result (js_expr of.now) }
{
    match of {
        Expr::Name { .. } => Sign::Other,
        Expr::This { .. } => Sign::Other,
        Expr::Null { .. } => Sign::Other,
        Expr::Undefined { .. } => Sign::Other,
        Expr::Boolean { .. } => Sign::Other,
        Expr::Number { .. } => Sign::Other,
        Expr::String { .. } => Sign::Other,
        Expr::Template { .. } => Sign::Other,
        Expr::Parens { .. } => Sign::Other,
        Expr::Array { .. } => Sign::Other,
        Expr::Object { .. } => Sign::Other,
        Expr::New { .. } => Sign::Other,
        Expr::Member { base, .. } => first_sign(base.get()),
        Expr::Index { base, .. } => first_sign(base.get()),
        Expr::Call { callee, .. } => first_sign(callee.get()),
        Expr::Unary { operator, .. } => sign_of_unary(*operator),
        Expr::Update {
            operator,
            before,
            target,
            ..
        } => sign_of_update(*operator, *before, first_sign(target.get())),
        Expr::Binary { left, .. } => first_sign(left.get()),
        Expr::As { value, .. } => first_sign(value.get()),
        Expr::Conditional { condition, .. } => first_sign(condition.get()),
        Expr::Assign { target, .. } => first_sign(target.get()),
        Expr::Arrow { .. } => Sign::Other,
    }
}

fn sign_of_unary(operator: UnaryOperator) -> Sign
    ensures { result ≡ spec.sign_of_unary operator }
{
    match operator {
        UnaryOperator::Not => Sign::Other,
        UnaryOperator::Minus => Sign::Minus,
        UnaryOperator::Plus => Sign::Plus,
        UnaryOperator::Typeof => Sign::Other,
    }
}

/// An operator before its target stands first, and else the target does.
fn sign_of_update(operator: UpdateOperator, before: bool, target: Sign) -> Sign
    ensures { result ≡ spec.sign_of_update operator before target }
{
    if !before {
        return target;
    }
    match operator {
        UpdateOperator::Increment => Sign::Plus,
        UpdateOperator::Decrement => Sign::Minus,
    }
}

/// An operator before an operand, with the space that has to stand between.
pub(crate) fn prefix_text(operator: UnaryOperator, operand: Sign) -> &'static str
    ensures { result.now ≡ spec.prefix_text operator operand }
{
    match operator {
        UnaryOperator::Not => "!",
        UnaryOperator::Typeof => "typeof ",
        UnaryOperator::Minus => match operand {
            Sign::Minus => "- ",
            Sign::Plus => "-",
            Sign::Other => "-",
        },
        UnaryOperator::Plus => match operand {
            Sign::Plus => "+ ",
            Sign::Minus => "+",
            Sign::Other => "+",
        },
    }
}

fn update_text(operator: UpdateOperator) -> &'static str
    ensures { result.now ≡ mark_text (update_mark operator) }
{
    match operator {
        UpdateOperator::Increment => "++",
        UpdateOperator::Decrement => "--",
    }
}

/// `++` or `--` where it stands before its target.
pub(crate) fn before_text(operator: UpdateOperator, before: bool) -> &'static str
    ensures { result.now ≡ spec.before_text operator before }
{
    if before { update_text(operator) } else { "" }
}

/// The same where it stands behind it.
pub(crate) fn behind_text(operator: UpdateOperator, before: bool) -> &'static str
    ensures { result.now ≡ spec.behind_text operator before }
{
    if before { "" } else { update_text(operator) }
}
