//! How deep a type is.

ghost use Rattle.std.specs.Prelude.{◌≡◌};
ghost use Rattle.tb_tree.specs.Depth as spec;

use crate::numbers::{deeper, larger};
use crate::types::{TypeExpr, TypeMember, TypeParam};

#[cycle(types)]
#[tactic(auto, using(crate::proofs::TypeLayers::type_out, crate::proofs::TypeLayers::written_type, crate::proofs::TypeLayers::named_type, crate::proofs::TypeLayers::array_type, crate::proofs::TypeLayers::function_type, crate::proofs::TypeLayers::object_type, crate::proofs::TypeLayers::union_type))]
pub(crate) fn type_depth(shape: &TypeExpr) -> u32
    ensures { result ≡ spec.capped (spec.type_depth shape.now) }
{
    match shape {
        TypeExpr::Written { arguments, .. } => deeper(types_depth(arguments.as_slice())),
        TypeExpr::Named { arguments, .. } => deeper(types_depth(arguments.as_slice())),
        TypeExpr::Array { element, .. } => deeper(type_depth(element.get())),
        TypeExpr::Function { params, result, .. } => deeper(larger(
            type_params_depth(params.as_slice()),
            type_depth(result.get()),
        )),
        TypeExpr::Object { members, .. } => deeper(members_depth(members.as_slice())),
        TypeExpr::Union { parts, .. } => deeper(types_depth(parts.as_slice())),
        _ => 1,
    }
}

#[cycle(types)]
pub(crate) fn types_depth(shapes: &[TypeExpr]) -> u32
    ensures { result ≡ spec.capped (spec.types_depth shapes.now) }
{
    let mut depth = 0;
    for shape in shapes {
        depth = larger(depth, type_depth(shape));
    }
    depth
}

#[cycle(types)]
#[tactic(auto, using(crate::proofs::TypeLayers::type_param_out))]
fn type_param_depth(param: &TypeParam) -> u32
    ensures { result ≡ spec.capped (spec.type_param_depth param.now) }
{
    type_depth(param.shape.get())
}

#[cycle(types)]
fn type_params_depth(params: &[TypeParam]) -> u32
    ensures { result ≡ spec.capped (spec.type_params_depth params.now) }
{
    let mut depth = 0;
    for param in params {
        depth = larger(depth, type_param_depth(param));
    }
    depth
}

#[cycle(types)]
pub(crate) fn members_depth(members: &[TypeMember]) -> u32
    ensures { result ≡ spec.capped (spec.members_depth members.now) }
{
    let mut depth = 0;
    for member in members {
        depth = larger(depth, member_depth(member));
    }
    depth
}

#[cycle(types)]
#[tactic(auto, using(crate::proofs::TypeLayers::property_member, crate::proofs::TypeLayers::method_member))]
fn member_depth(member: &TypeMember) -> u32
    ensures { result ≡ spec.capped (spec.member_depth member.now) }
{
    match member {
        TypeMember::Property { shape, .. } => type_depth(shape.get()),
        TypeMember::Method { params, result, .. } => larger(
            type_params_depth(params.as_slice()),
            type_depth(result.get()),
        ),
    }
}
