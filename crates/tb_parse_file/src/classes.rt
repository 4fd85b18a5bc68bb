//! Classes and their members.

ghost use Rattle.std.specs.Prelude.{◌≡◌, ◌≤◌, ◌||◌, false, length, IfOk};
ghost use Rattle.tb_tree.specs.Items as items;
ghost use Rattle.tb_tree.specs.Longest.{Never};
ghost use Rattle.tb_parse_type.specs.Reading.{rest};
ghost use Rattle.tb_parse_body.specs.Reading.{Reads, ReadsOne};
ghost use Rattle.tb_parse_body.specs.Rules.{InBody};
ghost use Rattle.tb_parse_file.specs.Classes as spec;
ghost use Rattle.tb_parse_file.specs.Rules as rules;

use crate::declarations::{bases_at, has_type_name};
use sqlite_items::{Boxed, Items};
use tb_parse_body::{
    Around, Front, annotation_at, block_at, body_at, larger, question_at, signature_at, value_at,
};
use tb_parse_type::Reader;
use tb_text::NoMemory;
use tb_tree::{ClassDeclaration, ClassMember, Expr, Mark, Word};

/// What surrounds the statements of a constructor.
const BODY: Around = Around {
    in_body: true,
    in_loop: false,
    in_switch: false,
};

/// What a field or a method begins with: its modifiers, and the word that names it.
#[derive(Clone, Copy, Debug, PartialEq, Eq)]
pub struct MemberHead {
    pub is_static: bool,
    pub read_only: bool,
    pub word: Word,
    /// The place of the word.
    pub named: usize,
    /// The place behind it.
    pub next: usize,
}

/// Whether a modifier stands at a place, and the place behind it. The word is a modifier exactly where a word follows it.
fn modifier_at(reader: &Reader<'_>, at: usize, word: Word) -> (bool, usize)
    requires { at ≤ length reader.now.tokens.now }
    ensures within { result.1 ≤ length reader.now.tokens.now }
    ensures modified { spec.IsModified word (rest reader.now at) result.0 (rest reader.now result.1) }
{
    if !reader.is_word(at, word) {
        return (false, at);
    }
    match reader.word_at(at + 1) {
        Some(_) => (true, at + 1),
        None => (false, at),
    }
}

/// `static? readonly? Word`.
pub(crate) fn head_at(reader: &Reader<'_>, at: usize) -> Option<MemberHead>
    requires { at ≤ length reader.now.tokens.now }
    ensures { spec.ReadsHead reader.now at result }
{
    let (is_static, behind) = modifier_at(reader, at, Word::Static);
    let (read_only, named) = modifier_at(reader, behind, Word::Readonly);
    let Some(word) = reader.word_at(named) else {
        return None;
    };
    Some(MemberHead {
        is_static,
        read_only,
        word,
        named,
        next: named + 1,
    })
}

/// Whether a word may name a field or a method.
pub(crate) fn is_member_name(word: Word) -> bool
    ensures { result ≡ items.is_member_name word }
{
    match word {
        Word::Constructor => false,
        _ => true,
    }
}

/// What stands behind the head of a method: `( Param,* )`, optional `: Type`, and the body.
fn method_at(
    reader: Reader<'_>,
    head: MemberHead,
    limit: usize,
) -> Result<Option<Front<ClassMember>>, NoMemory>
    ensures { IfOk result (λ o. Reads (spec.MethodUpto limit (spec.head_of reader.entry head)) InBody reader.entry head.next o) }
{
    if head.read_only {
        return Ok(None);
    }
    let Some(params) = signature_at(reader, head.next, limit)? else {
        return Ok(None);
    };
    let Some(body) = body_at(reader, params.next, limit)? else {
        return Ok(None);
    };
    let (shape, block) = body.tree;
    let name = reader.text_at(head.named)?;
    Ok(Some(Front {
        tree: ClassMember::Method {
            at: reader.start_at(head.named),
            is_static: head.is_static,
            name,
            params: params.tree,
            result: shape,
            body: block,
        },
        depth: larger(params.depth, body.depth),
        next: body.next,
    }))
}

/// A value out of its box.
fn unboxed(value: Option<Boxed<Expr>>) -> Option<Expr>
    ensures { result ≡ value }
{
    match value {
        Some(value) => Some(value.into_inner()),
        None => None,
    }
}

/// What stands behind the head of a field: optional `?`, optional `: Type`, optional `= Expr`, `;`.
fn field_at(
    reader: Reader<'_>,
    head: MemberHead,
    limit: usize,
) -> Result<Option<Front<ClassMember>>, NoMemory>
    requires { head.next ≤ length reader.tokens.now }
    ensures { IfOk result (λ o. Reads (spec.FieldUpto limit (spec.head_of reader.entry head)) Never reader.entry head.next o) }
{
    let name = reader.text_at(head.named)?;
    let (optional, behind) = question_at(&reader, head.next);
    let annotation = annotation_at(reader, behind, limit)?;
    let value = value_at(reader, annotation.next, limit)?;
    if !reader.is_mark(value.next, Mark::Semicolon) {
        return Ok(None);
    }
    Ok(Some(Front {
        tree: ClassMember::Field {
            at: reader.start_at(head.named),
            is_static: head.is_static,
            read_only: head.read_only,
            name,
            optional,
            annotation: annotation.tree,
            value: unboxed(value.tree),
        },
        depth: larger(annotation.depth, value.depth),
        next: value.next + 1,
    }))
}

/// A field or a method.
fn plain_member_at(
    reader: Reader<'_>,
    at: usize,
    limit: usize,
) -> Result<Option<Front<ClassMember>>, NoMemory>
    requires { at ≤ length reader.tokens.now }
    ensures { IfOk result (λ o. Reads (spec.PlainUpto limit) InBody reader.entry at o) }
{
    let Some(head) = head_at(&reader, at) else {
        return Ok(None);
    };
    if !is_member_name(head.word) {
        return Ok(None);
    }
    if let Some(method) = method_at(reader, head, limit)? {
        return Ok(Some(method));
    }
    let Some(field) = field_at(reader, head, limit)? else {
        return Ok(None);
    };
    Ok(Some(field))
}

/// `constructor ( Param,* )`, and the body.
fn constructor_at(
    reader: Reader<'_>,
    at: usize,
    limit: usize,
) -> Result<Option<Front<ClassMember>>, NoMemory>
    ensures { IfOk result (λ o. Reads (spec.ConstructorUpto limit) Never reader.entry at o) }
{
    if !reader.is_word(at, Word::Constructor) {
        return Ok(None);
    }
    let Some(params) = signature_at(reader, at + 1, limit)? else {
        return Ok(None);
    };
    let Some(body) = block_at(reader, params.next, BODY, limit)? else {
        return Ok(None);
    };
    Ok(Some(Front {
        tree: ClassMember::Constructor {
            at: reader.start_at(at),
            params: params.tree,
            body: body.tree,
        },
        depth: larger(params.depth, body.depth),
        next: body.next,
    }))
}

/// A member, and whether it is a constructor; that it may be only where none was before.
fn class_member_at(
    reader: Reader<'_>,
    at: usize,
    before: bool,
    limit: usize,
) -> Result<Option<Front<(ClassMember, bool)>>, NoMemory>
    requires { at ≤ length reader.tokens.now }
    ensures { IfOk result (λ o. Reads (rules.MemberUpto before limit) InBody reader.entry at o) }
{
    if let Some(member) = plain_member_at(reader, at, limit)? {
        return Ok(Some(Front {
            tree: (member.tree, false),
            depth: member.depth,
            next: member.next,
        }));
    }
    if before {
        return Ok(None);
    }
    let Some(constructor) = constructor_at(reader, at, limit)? else {
        return Ok(None);
    };
    Ok(Some(Front {
        tree: (constructor.tree, true),
        depth: constructor.depth,
        next: constructor.next,
    }))
}

/// One of both.
pub(crate) fn either(a: bool, b: bool) -> bool
    ensures { result ≡ (a || b) }
{
    a || b
}

/// Members, of which one may be a constructor.
fn class_members_at(
    reader: Reader<'_>,
    at: usize,
    limit: usize,
) -> Result<Front<Items<ClassMember>>, NoMemory>
    requires { at ≤ length reader.tokens.now }
    ensures { IfOk result (λ x. ReadsOne (rules.MembersUpto false limit) rules.InMembers reader.entry at x) }
{
    let mut members = Items::new(reader.alloc);
    let mut constructed = false;
    let mut depth = 0;
    let mut next = at;
    while let Some(member) = class_member_at(reader, next, constructed, limit)? {
        let (tree, constructs) = member.tree;
        members.push(tree)?;
        constructed = either(constructed, constructs);
        depth = larger(depth, member.depth);
        next = member.next;
    }
    Ok(Front {
        tree: members,
        depth,
        next,
    })
}

/// Members in braces.
fn members_in_braces_at(
    reader: Reader<'_>,
    at: usize,
    limit: usize,
) -> Result<Option<Front<Items<ClassMember>>>, NoMemory>
    ensures { IfOk result (λ o. Reads (spec.BracedMembersUpto limit) Never reader.entry at o) }
{
    if !reader.is_mark(at, Mark::OpenBrace) {
        return Ok(None);
    }
    let members = class_members_at(reader, at + 1, limit)?;
    if !reader.is_mark(members.next, Mark::CloseBrace) {
        return Ok(None);
    }
    Ok(Some(Front {
        tree: members.tree,
        depth: members.depth,
        next: members.next + 1,
    }))
}

/// `class Name`, optional `implements` with names, and members in braces.
pub fn class_at(
    reader: Reader<'_>,
    at: usize,
    limit: usize,
) -> Result<Option<Front<ClassDeclaration>>, NoMemory>
    ensures { IfOk result (λ o. Reads (rules.ClassUpto limit) Never reader.entry at o) }
{
    if !reader.is_word(at, Word::Class) {
        return Ok(None);
    }
    if !has_type_name(&reader, at + 1) {
        return Ok(None);
    }
    let bases = bases_at(&reader, at + 2, Word::Implements)?;
    let Some(members) = members_in_braces_at(reader, bases.next, limit)? else {
        return Ok(None);
    };
    let name = reader.text_at(at + 1)?;
    Ok(Some(Front {
        tree: ClassDeclaration {
            at: reader.start_at(at + 1),
            name,
            implements: bases.tree,
            members: members.tree,
        },
        depth: members.depth,
        next: members.next,
    }))
}
