//! The members of interfaces.

ghost use Rattle.std.specs.Prelude.{◌≡◌, map, IfOk};
ghost use Rattle.std.specs.List.{list_all};
ghost use Rattle.tb_plain.specs.Plain as spec;

use crate::constants::is_base_type;
use crate::differing::all_differ;
use std::alloc::Global;
use tb_text::NoMemory;
use tb_tree::{Key, TypeExpr, TypeMember};

fn is_property(key: &Key, shape: &TypeExpr) -> bool
    ensures { result ≡ spec.is_property key.now shape.now }
{
    match key {
        Key::Word(_) => is_base_type(shape),
        Key::String(_) => false,
    }
}

fn is_plain_member(member: &TypeMember) -> bool
    ensures { result ≡ spec.is_plain_member member.now }
{
    match member {
        TypeMember::Property {
            read_only,
            key,
            optional,
            shape,
            ..
        } => {
            if *read_only || *optional {
                return false;
            }
            is_property(key, shape.get())
        }
        TypeMember::Method { .. } => false,
    }
}

/// Whether all members are properties with words as keys and with base types, and neither `readonly` nor with `?`.
pub fn are_plain_members(members: &[TypeMember]) -> bool
    ensures { result ≡ list_all spec.is_plain_member members.now }
{
    for member in members {
        if !is_plain_member(member) {
            return false;
        }
    }
    true
}

/// Whether no key occurs twice.
pub fn have_keys_once(alloc: Global, members: &[TypeMember]) -> Result<bool, NoMemory>
    ensures { IfOk result (λ b. b ≡ spec.all_differ (map spec.member_key members.now)) }
{
    let keys = member_keys(alloc, members)?;
    all_differ(alloc, keys.as_slice())
}

fn member_keys(alloc: Global, members: &[TypeMember]) -> Result<Vec<&str>, NoMemory>
    ensures { IfOk result (λ keys. map (λ key. key.now) keys.items ≡ map spec.member_key members.now) }
{
    let mut keys = Vec::new(alloc);
    for member in members {
        keys.push(member_key(member))?;
    }
    Ok(keys)
}

fn member_key(member: &TypeMember) -> &str
    ensures { result.now ≡ spec.member_key member.now }
{
    match member {
        TypeMember::Property { key, .. } => key_text(key),
        TypeMember::Method { key, .. } => key_text(key),
    }
}

fn key_text(key: &Key) -> &str
    ensures { result.now ≡ spec.key_text key.now }
{
    match key {
        Key::Word(name) => name.as_str(),
        Key::String(spelled) => spelled.as_str(),
    }
}
