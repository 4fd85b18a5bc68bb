//! How deep an item is.

ghost use Rattle.std.specs.Prelude.{◌≡◌, ℕ, Bool, List, min, ◌^◌, ◌-◌};
ghost use Rattle.tb_tree.specs.Sym.{Sym};
ghost use Rattle.tb_tree.specs.Items.{IsItem};
ghost use Rattle.tb_tree.specs.Depth as spec;

use crate::expr_depths::{
    annotation_depth, block_depth, function_depth, params_depth, stmt_depth, value_depth, var_depth,
};
use crate::items::{Base, ClassDeclaration, ClassMember, Declaration, Interface, Item};
use crate::numbers::larger;
use crate::type_depths::{members_depth, type_depth, types_depth};

/// How deep an item is: the depth of each of its derivations, which is the greatest number, on a way downward, of
/// expression nodes, type nodes, blocks, `if`, `while`, `do`, `for` and `switch`. It stays at the last value of `u32`.
#[tactic(auto, using(crate::proofs::Deep::item_deep))]
pub fn depth(item: &Item) -> u32
    ensures depth { result ≡ min (spec.depth_of item.now) (2 ^ 32 - 1) }
    ensures derived { (ordered : Bool) (xs : List Sym) (depth : ℕ) → IsItem ordered xs item.now depth → result ≡ min depth (2 ^ 32 - 1) }
{
    match item {
        Item::Import(_) => 0,
        Item::ExportList(_) => 0,
        Item::Declaration { declaration, .. } => declaration_depth(declaration),
        Item::Stmt(stmt) => stmt_depth(stmt),
    }
}

fn declaration_depth(declaration: &Declaration) -> u32
    ensures { result ≡ spec.capped (spec.declaration_depth declaration.now) }
{
    match declaration {
        Declaration::Var(var) => var_depth(var),
        Declaration::Function(function) => function_depth(function),
        Declaration::Class(class) => class_depth(class),
        Declaration::Interface(interface) => interface_depth(interface),
        Declaration::Alias(alias) => type_depth(&alias.shape),
    }
}

fn bases_depth(bases: &[Base]) -> u32
    ensures { result ≡ spec.capped (spec.bases_depth bases.now) }
{
    let mut depth = 0;
    for base in bases {
        depth = larger(depth, types_depth(base.arguments.as_slice()));
    }
    depth
}

fn interface_depth(interface: &Interface) -> u32
    ensures { result ≡ spec.capped (spec.interface_depth interface.now) }
{
    larger(
        bases_depth(interface.extends.as_slice()),
        members_depth(interface.members.as_slice()),
    )
}

fn class_depth(class: &ClassDeclaration) -> u32
    ensures { result ≡ spec.capped (spec.class_depth class.now) }
{
    larger(
        bases_depth(class.implements.as_slice()),
        class_members_depth(class.members.as_slice()),
    )
}

fn class_members_depth(members: &[ClassMember]) -> u32
    ensures { result ≡ spec.capped (spec.class_members_depth members.now) }
{
    let mut depth = 0;
    for member in members {
        depth = larger(depth, class_member_depth(member));
    }
    depth
}

fn class_member_depth(member: &ClassMember) -> u32
    ensures { result ≡ spec.capped (spec.class_member_depth member.now) }
{
    match member {
        ClassMember::Field {
            annotation,
            value,
            ..
        } => { larger(annotation_depth(annotation), value_depth(value)) }
        ClassMember::Constructor { params, body, .. } => {
            larger(params_depth(params.as_slice()), block_depth(body))
        }
        ClassMember::Method {
            params,
            result,
            body,
            ..
        } => larger(
            params_depth(params.as_slice()),
            larger(annotation_depth(result), block_depth(body)),
        ),
    }
}
