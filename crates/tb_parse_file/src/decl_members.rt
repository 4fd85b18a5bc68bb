//! Members of classes without bodies, and such classes.

ghost use Rattle.std.specs.Prelude.{◌≤◌, false, length, IfOk};
ghost use Rattle.tb_tree.specs.Longest.{Never};
ghost use Rattle.tb_parse_file.specs.Classes.{head_of};
ghost use Rattle.tb_parse_file.specs.DeclRules as rules;
ghost use Rattle.tb_parse_file.specs.Reading.{ReadsPart};
ghost use Rattle.tb_parse_file.specs.Rules.{InMembers};
ghost use Rattle.tb_parse_type.specs.Reading.{FoundAt};

use crate::classes::{MemberHead, either, head_at, is_member_name};
use crate::declarations::{bases_at, has_type_name};
use crate::fronts::Part;
use crate::signatures::{params_at, shape_at, signature_at};
use sqlite_items::Items;
use tb_parse_body::question_at;
use tb_parse_type::Reader;
use tb_text::NoMemory;
use tb_tree::{DeclaredClass, DeclaredMember, Mark, Word};

/// What stands behind the head of a method: `( TypeParam,* ) : Type ;`.
fn method_at(reader: Reader<'_>, head: MemberHead) -> Result<Option<Part<DeclaredMember>>, NoMemory>
    ensures { IfOk result (λ o. ReadsPart (rules.MethodRule (head_of reader.entry head)) Never reader.entry head.next o) }
{
    if head.read_only {
        return Ok(None);
    }
    let Some(signature) = signature_at(reader, head.next)? else {
        return Ok(None);
    };
    let (params, shape) = signature.tree;
    let name = reader.text_at(head.named)?;
    Ok(Some(Part {
        tree: DeclaredMember::Method {
            at: reader.start_at(head.named),
            is_static: head.is_static,
            name,
            params,
            result: shape,
        },
        next: signature.next,
    }))
}

/// What stands behind the head of a field: optional `?`, `: Type ;`.
fn field_at(reader: Reader<'_>, head: MemberHead) -> Result<Option<Part<DeclaredMember>>, NoMemory>
    requires { head.next ≤ length reader.tokens.now }
    ensures { IfOk result (λ o. ReadsPart (rules.FieldRule (head_of reader.entry head)) Never reader.entry head.next o) }
{
    let (optional, behind) = question_at(&reader, head.next);
    let Some(shape) = shape_at(reader, behind)? else {
        return Ok(None);
    };
    let name = reader.text_at(head.named)?;
    Ok(Some(Part {
        tree: DeclaredMember::Field {
            at: reader.start_at(head.named),
            is_static: head.is_static,
            read_only: head.read_only,
            name,
            optional,
            shape: shape.tree,
        },
        next: shape.next,
    }))
}

/// A field or a method.
fn plain_member_at(reader: Reader<'_>, at: usize) -> Result<Option<Part<DeclaredMember>>, NoMemory>
    requires { at ≤ length reader.tokens.now }
    ensures { IfOk result (λ o. ReadsPart rules.PlainRule Never reader.entry at o) }
{
    let Some(head) = head_at(&reader, at) else {
        return Ok(None);
    };
    if !is_member_name(head.word) {
        return Ok(None);
    }
    if let Some(method) = method_at(reader, head)? {
        return Ok(Some(method));
    }
    let Some(field) = field_at(reader, head)? else {
        return Ok(None);
    };
    Ok(Some(field))
}

/// `constructor ( TypeParam,* ) ;`.
fn constructor_at(reader: Reader<'_>, at: usize) -> Result<Option<Part<DeclaredMember>>, NoMemory>
    ensures { IfOk result (λ o. ReadsPart rules.ConstructorRule Never reader.entry at o) }
{
    if !reader.is_word(at, Word::Constructor) {
        return Ok(None);
    }
    let Some(params) = params_at(reader, at + 1)? else {
        return Ok(None);
    };
    if !reader.is_mark(params.next, Mark::Semicolon) {
        return Ok(None);
    }
    Ok(Some(Part {
        tree: DeclaredMember::Constructor {
            at: reader.start_at(at),
            params: params.tree,
        },
        next: params.next + 1,
    }))
}

/// A member, and whether it is a constructor; that it may be only where none was before.
fn member_at(
    reader: Reader<'_>,
    at: usize,
    before: bool,
) -> Result<Option<Part<(DeclaredMember, bool)>>, NoMemory>
    requires { at ≤ length reader.tokens.now }
    ensures { IfOk result (λ o. ReadsPart (rules.MemberRule before) Never reader.entry at o) }
{
    if let Some(member) = plain_member_at(reader, at)? {
        return Ok(Some(Part {
            tree: (member.tree, false),
            next: member.next,
        }));
    }
    if before {
        return Ok(None);
    }
    let Some(constructor) = constructor_at(reader, at)? else {
        return Ok(None);
    };
    Ok(Some(Part {
        tree: (constructor.tree, true),
        next: constructor.next,
    }))
}

/// Members, of which one may be a constructor.
fn members_at(reader: Reader<'_>, at: usize) -> Result<Part<Items<DeclaredMember>>, NoMemory>
    requires { at ≤ length reader.tokens.now }
    ensures { IfOk result (λ x. FoundAt (rules.MembersRule false) InMembers reader.entry at x.tree x.next) }
{
    let mut members = Items::new(reader.alloc);
    let mut constructed = false;
    let mut next = at;
    while let Some(member) = member_at(reader, next, constructed)? {
        let (tree, constructs) = member.tree;
        members.push(tree)?;
        constructed = either(constructed, constructs);
        next = member.next;
    }
    Ok(Part {
        tree: members,
        next,
    })
}

/// Members in braces.
fn members_in_braces_at(
    reader: Reader<'_>,
    at: usize,
) -> Result<Option<Part<Items<DeclaredMember>>>, NoMemory>
    ensures { IfOk result (λ o. ReadsPart rules.BracedMembersRule Never reader.entry at o) }
{
    if !reader.is_mark(at, Mark::OpenBrace) {
        return Ok(None);
    }
    let members = members_at(reader, at + 1)?;
    if !reader.is_mark(members.next, Mark::CloseBrace) {
        return Ok(None);
    }
    Ok(Some(Part {
        tree: members.tree,
        next: members.next + 1,
    }))
}

/// `class Name`, optional `implements` with names, and members in braces.
pub fn class_at(reader: Reader<'_>, at: usize) -> Result<Option<Part<DeclaredClass>>, NoMemory>
    ensures { IfOk result (λ o. ReadsPart rules.ClassRule Never reader.entry at o) }
{
    if !reader.is_word(at, Word::Class) {
        return Ok(None);
    }
    if !has_type_name(&reader, at + 1) {
        return Ok(None);
    }
    let bases = bases_at(&reader, at + 2, Word::Implements)?;
    let Some(members) = members_in_braces_at(reader, bases.next)? else {
        return Ok(None);
    };
    let name = reader.text_at(at + 1)?;
    Ok(Some(Part {
        tree: DeclaredClass {
            at: reader.start_at(at + 1),
            name,
            implements: bases.tree,
            members: members.tree,
        },
        next: members.next,
    }))
}
