//! The rules that hold types. Each reads the longest front that the rule derives within the limits.

ghost use Rattle.std.specs.Prelude.{◌≡◌, ℕ, true, List, ◌+◌, ◌≤◌, ◌<◌, ◌∷◌, length, MatchBool, MatchOption, IfOk};
ghost use Rattle.tb_tree.specs.Sym as sym;
ghost use Rattle.tb_tree.specs.Words as words;
ghost use Rattle.tb_tree.specs.Shapes as shapes;
ghost use Rattle.tb_tree.specs.Types as types;
ghost use Rattle.tb_tree.specs.Longest.{Never};
ghost use Rattle.tb_parse_type.specs.Nests.{Nests};
ghost use Rattle.tb_parse_type.specs.Reading.{rest, text_at, start_at, Stands, LacksSym, Reads, head_of};
ghost use Rattle.tb_parse_type.specs.Rules as rules;

use crate::parts::{MemberHead, larger, part_count, parts_of};
use crate::reader::{Limits, Read, Reader};
use crate::symbols::Symbol;
use sqlite_items::{Boxed, Items};
use tb_text::NoMemory;
use tb_tree::{Mark, TypeExpr, TypeMember, TypeParam, Word, is_name};

impl Reader<'_> {
    /// The word at a place, if it may name a parameter.
    fn name_at(&self, at: usize) -> Option<Word>
        ensures { MatchOption result
            ((k : Word) (w : List ℕ) (o : ℕ) → words.is_name k ≡ true → LacksSym self.now at (shapes.word k w o))
            (λ k. (words.is_name k ≡ true) × Stands self.now at (shapes.word k (text_at self.now at) (start_at self.now at))) }
    {
        let Some(word) = self.word_at(at) else {
            return None;
        };
        if is_name(word) { Some(word) } else { None }
    }

    /// Whether what ends a member stands at a place.
    fn has_member_end(&self, at: usize) -> bool
        ensures { MatchBool result
            ((k : Mark) × (o : ℕ) × Stands self.now at (sym.Mark k o) × (types.ends_member k ≡ true))
            ((k : Mark) (o : ℕ) → types.ends_member k ≡ true → LacksSym self.now at (sym.Mark k o)) }
    {
        self.is_mark(at, Mark::Semicolon) || self.is_mark(at, Mark::Comma)
    }
}

/// The rules that hold types take the reader of those as a parameter, so that each is proved by itself.
#[derive(Clone, Copy)]
pub struct Grammar<'a, F> {
    pub reader: Reader<'a>,
    /// How great the own counts of the types inside may be.
    pub bound: usize,
    pub inner: F,
}

impl<F: Fn(Reader<'_>, usize, Limits) -> Result<Option<Read<TypeExpr>>, NoMemory>> Grammar<'_, F> {
    fn inner_at(&self, at: usize, limits: Limits) -> Result<Option<Read<TypeExpr>>, NoMemory>
        requires nests { Nests self.now.bound (F.pre self.now.inner) (F.post self.now.inner) }
        requires within { at ≤ length self.now.reader.tokens.now }
        requires below { limits.own ≤ self.now.bound }
        ensures { IfOk result (λ o. Reads (rules.TypeUpto limits) rules.InType self.now.reader at o) }
    {
        (self.inner)(self.reader, at, limits)
    }

    /// A type in parentheses.
    fn paren_at(&self, at: usize, limits: Limits) -> Result<Option<Read<TypeExpr>>, NoMemory>
        requires nests { Nests self.now.bound (F.pre self.now.inner) (F.post self.now.inner) }
        requires own { 0 < limits.own }
        requires below { limits.own ≤ self.now.bound + 1 }
        requires open { Stands self.now.reader at (sym.Mark Mark.OpenParen (start_at self.now.reader at)) }
        ensures { IfOk result (λ o. Reads (rules.AtomUpto limits) Never self.now.reader at o) }
    {
        let Some(of) = self.inner_at(at + 1, limits.in_parens())? else {
            return Ok(None);
        };
        if !self.reader.is_mark(of.next, Mark::CloseParen) {
            return Ok(None);
        }
        Ok(Some(Read {
            tree: of.tree,
            own: of.own + 1,
            depth: of.depth,
            next: of.next + 1,
        }))
    }

    /// Members in braces.
    fn object_at(&self, at: usize, limits: Limits) -> Result<Option<Read<TypeExpr>>, NoMemory>
        requires nests { Nests self.now.bound (F.pre self.now.inner) (F.post self.now.inner) }
        requires own { 0 < limits.own }
        requires depth { 0 < limits.depth }
        requires below { limits.own ≤ self.now.bound + 1 }
        requires open { Stands self.now.reader at (sym.Mark Mark.OpenBrace (start_at self.now.reader at)) }
        ensures { IfOk result (λ o. Reads (rules.AtomUpto limits) Never self.now.reader at o) }
    {
        let members = self.members_at(at + 1, limits.inside())?;
        if !self.reader.is_mark(members.next, Mark::CloseBrace) {
            return Ok(None);
        }
        Ok(Some(Read {
            tree: TypeExpr::Object {
                at: self.reader.start_at(at),
                members: members.tree,
            },
            own: members.own + 1,
            depth: members.depth + 1,
            next: members.next + 1,
        }))
    }

    /// An atom that begins with a mark.
    fn mark_at(
        &self,
        at: usize,
        mark: Mark,
        limits: Limits,
    ) -> Result<Option<Read<TypeExpr>>, NoMemory>
        requires nests { Nests self.now.bound (F.pre self.now.inner) (F.post self.now.inner) }
        requires own { 0 < limits.own }
        requires depth { 0 < limits.depth }
        requires below { limits.own ≤ self.now.bound + 1 }
        requires stands { Stands self.now.reader at (sym.Mark mark (start_at self.now.reader at)) }
        ensures { IfOk result (λ o. Reads (rules.AtomUpto limits) Never self.now.reader at o) }
    {
        match mark {
            Mark::Minus => self.reader.minus_at(at, limits),
            Mark::OpenParen => self.paren_at(at, limits),
            Mark::OpenBrace => self.object_at(at, limits),
            _ => Ok(None),
        }
    }

    fn atom_at(&self, at: usize, limits: Limits) -> Result<Option<Read<TypeExpr>>, NoMemory>
        requires nests { Nests self.now.bound (F.pre self.now.inner) (F.post self.now.inner) }
        requires within { at ≤ length self.now.reader.tokens.now }
        requires below { limits.own ≤ self.now.bound + 1 }
        ensures { IfOk result (λ o. Reads (rules.AtomUpto limits) Never self.now.reader at o) }
    {
        if !limits.has_room(0, 0) {
            return Ok(None);
        }
        match self.reader.symbol(at) {
            Some(Symbol::Class(class)) => self.reader.single_at(at, class, limits),
            Some(Symbol::Mark(mark)) => self.mark_at(at, mark, limits),
            None => Ok(None),
        }
    }

    /// A read-only array.
    fn read_only_at(&self, at: usize, limits: Limits) -> Result<Option<Read<TypeExpr>>, NoMemory>
        requires nests { Nests self.now.bound (F.pre self.now.inner) (F.post self.now.inner) }
        requires within { at ≤ length self.now.reader.tokens.now }
        requires below { limits.own ≤ self.now.bound + 1 }
        ensures { IfOk result (λ o. Reads (rules.ReadOnlyUpto limits) rules.InElement self.now.reader at o) }
    {
        if !self.reader.is_word(at, Word::Readonly) {
            return Ok(None);
        }
        let Some(atom) = self.atom_at(at + 1, limits)? else {
            return Ok(None);
        };
        let room = limits.room(atom.own, atom.depth);
        let (count, next) = self.reader.brackets(atom.next, room);
        if count == 0 {
            return Ok(None);
        }
        let start = self.reader.start_at(at + 1);
        let inner = self.reader.arrays(start, atom.tree, count - 1)?;
        Ok(Some(Read {
            tree: TypeExpr::Array {
                at: self.reader.start_at(at),
                read_only: true,
                element: Boxed::new(self.reader.alloc, inner)?,
            },
            own: atom.own + count,
            depth: atom.depth + count,
            next,
        }))
    }

    /// An element within the limits; a union in parentheses, which may be read flat, within the limits `flat`.
    fn element_at(
        &self,
        at: usize,
        limits: Limits,
        flat: Limits,
    ) -> Result<Option<Read<TypeExpr>>, NoMemory>
        requires nests { Nests self.now.bound (F.pre self.now.inner) (F.post self.now.inner) }
        requires within { at ≤ length self.now.reader.tokens.now }
        requires below { flat.own ≤ self.now.bound + 1 }
        requires flat { rules.IsBelow limits flat }
        ensures { IfOk result (λ o. Reads (rules.ElementUpto limits flat) rules.InElement self.now.reader at o) }
    {
        if let Some(found) = self.read_only_at(at, limits)? {
            return Ok(Some(found));
        }
        let Some(atom) = self.atom_at(at, flat)? else {
            return Ok(None);
        };
        if limits.is_beyond(&atom.tree, atom.own, atom.depth) {
            return Ok(None);
        }
        let room = limits.room(atom.own, atom.depth);
        let (count, next) = self.reader.brackets(atom.next, room);
        let start = self.reader.start_at(at);
        let tree = self.reader.arrays(start, atom.tree, count)?;
        Ok(Some(Read {
            tree,
            own: atom.own + count,
            depth: atom.depth + count,
            next,
        }))
    }

    /// `|` with an element, as parts of a union of which `limits` are the limits.
    fn next_at(&self, at: usize, limits: Limits) -> Result<Option<Read<Items<TypeExpr>>>, NoMemory>
        requires nests { Nests self.now.bound (F.pre self.now.inner) (F.post self.now.inner) }
        requires own { 0 < limits.own }
        requires depth { 0 < limits.depth }
        requires within { at ≤ length self.now.reader.tokens.now }
        requires below { limits.own ≤ self.now.bound + 1 }
        ensures { IfOk result (λ o. Reads (rules.NextUpto (rules.inside limits)) rules.InElement self.now.reader at o) }
    {
        if !self.reader.is_mark(at, Mark::Bar) {
            return Ok(None);
        }
        let Some(part) = self.element_at(at + 1, limits.inside(), limits)? else {
            return Ok(None);
        };
        let own = part_count(&part.tree, part.own);
        let depth = part_count(&part.tree, part.depth);
        Ok(Some(Read {
            tree: parts_of(self.reader.alloc, part.tree)?,
            own,
            depth,
            next: part.next,
        }))
    }

    /// Any number of `|` with an element.
    fn tail_at(&self, at: usize, limits: Limits) -> Result<Read<Items<TypeExpr>>, NoMemory>
        requires nests { Nests self.now.bound (F.pre self.now.inner) (F.post self.now.inner) }
        requires own { 0 < limits.own }
        requires depth { 0 < limits.depth }
        requires within { at ≤ length self.now.reader.tokens.now }
        requires below { limits.own ≤ self.now.bound + 1 }
        ensures { IfOk result (λ x. Reads (rules.TailUpto (rules.inside limits)) rules.InType self.now.reader at (Some x)) }
    {
        let mut parts = Items::new(self.reader.alloc);
        let mut own = 0;
        let mut depth = 0;
        let mut next = at;
        while let Some(part) = self.next_at(next, limits)? {
            parts.append(part.tree)?;
            own = larger(own, part.own);
            depth = larger(depth, part.depth);
            next = part.next;
        }
        Ok(Read {
            tree: parts,
            own,
            depth,
            next,
        })
    }

    fn union_at(&self, at: usize, limits: Limits) -> Result<Option<Read<TypeExpr>>, NoMemory>
        requires nests { Nests self.now.bound (F.pre self.now.inner) (F.post self.now.inner) }
        requires within { at ≤ length self.now.reader.tokens.now }
        requires below { limits.own ≤ self.now.bound + 1 }
        ensures { IfOk result (λ o. Reads (rules.UnionUpto limits) rules.InType self.now.reader at o) }
    {
        let Some(first) = self.element_at(at, limits, limits)? else {
            return Ok(None);
        };
        let own = part_count(&first.tree, first.own);
        let depth = part_count(&first.tree, first.depth);
        if !limits.has_room(own, depth) {
            return Ok(Some(first));
        }
        let Some(second) = self.next_at(first.next, limits)? else {
            return Ok(Some(first));
        };
        let tail = self.tail_at(second.next, limits)?;
        let mut parts = parts_of(self.reader.alloc, first.tree)?;
        parts.append(second.tree)?;
        parts.append(tail.tree)?;
        Ok(Some(Read {
            tree: TypeExpr::Union {
                at: self.reader.start_at(at),
                parts,
            },
            own: larger(own, larger(second.own, tail.own)) + 1,
            depth: larger(depth, larger(second.depth, tail.depth)) + 1,
            next: tail.next,
        }))
    }

    /// `: Type`.
    fn shape_at(&self, at: usize, limits: Limits) -> Result<Option<Read<TypeExpr>>, NoMemory>
        requires nests { Nests self.now.bound (F.pre self.now.inner) (F.post self.now.inner) }
        requires below { limits.own ≤ self.now.bound }
        ensures { IfOk result (λ o. Reads (rules.ShapeUpto limits) rules.InType self.now.reader at o) }
    {
        if !self.reader.is_mark(at, Mark::Colon) {
            return Ok(None);
        }
        let shape = self.inner_at(at + 1, limits)?;
        Ok(shape)
    }

    fn param_at(&self, at: usize, limits: Limits) -> Result<Option<Read<TypeParam>>, NoMemory>
        requires nests { Nests self.now.bound (F.pre self.now.inner) (F.post self.now.inner) }
        requires below { limits.own ≤ self.now.bound }
        ensures { IfOk result (λ o. Reads (rules.ParamUpto limits) rules.InType self.now.reader at o) }
    {
        let Some(_word) = self.reader.name_at(at) else {
            return Ok(None);
        };
        let (optional, next) = self.reader.question(at + 1);
        let Some(shape) = self.shape_at(next, limits)? else {
            return Ok(None);
        };
        let name = self.reader.text_at(at)?;
        Ok(Some(Read {
            tree: TypeParam {
                at: self.reader.start_at(at),
                name,
                optional,
                shape: Boxed::new(self.reader.alloc, shape.tree)?,
            },
            own: shape.own,
            depth: shape.depth,
            next: shape.next,
        }))
    }

    /// Parameters with commas, and an optional last comma.
    pub fn params_at(&self, at: usize, limits: Limits) -> Result<Read<Items<TypeParam>>, NoMemory>
        requires nests { Nests self.now.bound (F.pre self.now.inner) (F.post self.now.inner) }
        requires within { at ≤ length self.now.reader.tokens.now }
        requires below { limits.own ≤ self.now.bound }
        ensures { IfOk result (λ x. Reads (rules.ParamsUpto limits) rules.InParams self.now.reader at (Some x)) }
    {
        let mut params = Items::new(self.reader.alloc);
        let mut own = 0;
        let mut depth = 0;
        let mut next = at;
        while let Some(param) = self.param_at(next, limits)? {
            params.push(param.tree)?;
            own = larger(own, param.own);
            depth = larger(depth, param.depth);
            if !self.reader.is_mark(param.next, Mark::Comma) {
                return Ok(Read {
                    tree: params,
                    own,
                    depth,
                    next: param.next,
                });
            }
            next = param.next + 1;
        }
        Ok(Read {
            tree: params,
            own,
            depth,
            next,
        })
    }

    /// Parameters in parentheses.
    fn parens_at(
        &self,
        at: usize,
        limits: Limits,
    ) -> Result<Option<Read<Items<TypeParam>>>, NoMemory>
        requires nests { Nests self.now.bound (F.pre self.now.inner) (F.post self.now.inner) }
        requires below { limits.own ≤ self.now.bound }
        ensures { IfOk result (λ o. Reads (rules.ParensUpto limits) Never self.now.reader at o) }
    {
        if !self.reader.is_mark(at, Mark::OpenParen) {
            return Ok(None);
        }
        let params = self.params_at(at + 1, limits)?;
        if !self.reader.is_mark(params.next, Mark::CloseParen) {
            return Ok(None);
        }
        Ok(Some(Read {
            tree: params.tree,
            own: params.own,
            depth: params.depth,
            next: params.next + 1,
        }))
    }

    fn function_at(&self, at: usize, limits: Limits) -> Result<Option<Read<TypeExpr>>, NoMemory>
        requires nests { Nests self.now.bound (F.pre self.now.inner) (F.post self.now.inner) }
        requires below { limits.own ≤ self.now.bound + 1 }
        ensures { IfOk result (λ o. Reads (rules.FunctionUpto limits) rules.InType self.now.reader at o) }
    {
        let Some(params) = self.parens_at(at, limits.inside())? else {
            return Ok(None);
        };
        if !self.reader.is_mark(params.next, Mark::Arrow) {
            return Ok(None);
        }
        let Some(of) = self.inner_at(params.next + 1, limits.inside())? else {
            return Ok(None);
        };
        Ok(Some(Read {
            tree: TypeExpr::Function {
                at: self.reader.start_at(at),
                params: params.tree,
                result: Boxed::new(self.reader.alloc, of.tree)?,
            },
            own: larger(params.own, of.own) + 1,
            depth: larger(params.depth, of.depth) + 1,
            next: of.next,
        }))
    }

    /// `: Type` behind the head of a member.
    fn property_at(
        &self,
        at: usize,
        head: MemberHead,
        optional: bool,
        limits: Limits,
    ) -> Result<Option<Read<TypeMember>>, NoMemory>
        requires nests { Nests self.now.bound (F.pre self.now.inner) (F.post self.now.inner) }
        requires below { limits.own ≤ self.now.bound }
        ensures { IfOk result (λ o. Reads (rules.PropertyRest limits (head_of head) optional) rules.InType self.now.reader at o) }
    {
        let Some(shape) = self.shape_at(at, limits)? else {
            return Ok(None);
        };
        Ok(Some(Read {
            tree: TypeMember::Property {
                at: head.at,
                read_only: head.read_only,
                key: head.key,
                optional,
                shape: Boxed::new(self.reader.alloc, shape.tree)?,
            },
            own: shape.own,
            depth: shape.depth,
            next: shape.next,
        }))
    }

    /// Parameters and `: Type` behind the head of a member.
    fn method_at(
        &self,
        at: usize,
        head: MemberHead,
        optional: bool,
        limits: Limits,
    ) -> Result<Option<Read<TypeMember>>, NoMemory>
        requires nests { Nests self.now.bound (F.pre self.now.inner) (F.post self.now.inner) }
        requires below { limits.own ≤ self.now.bound }
        ensures { IfOk result (λ o. Reads (rules.MethodRest limits (head_of head) optional) rules.InType self.now.reader at o) }
    {
        let Some(params) = self.parens_at(at, limits)? else {
            return Ok(None);
        };
        let Some(shape) = self.shape_at(params.next, limits)? else {
            return Ok(None);
        };
        Ok(Some(Read {
            tree: TypeMember::Method {
                at: head.at,
                key: head.key,
                optional,
                params: params.tree,
                result: Boxed::new(self.reader.alloc, shape.tree)?,
            },
            own: larger(params.own, shape.own),
            depth: larger(params.depth, shape.depth),
            next: shape.next,
        }))
    }

    /// What follows the head of a member.
    fn member_rest_at(
        &self,
        at: usize,
        head: MemberHead,
        optional: bool,
        limits: Limits,
    ) -> Result<Option<Read<TypeMember>>, NoMemory>
        requires nests { Nests self.now.bound (F.pre self.now.inner) (F.post self.now.inner) }
        requires below { limits.own ≤ self.now.bound }
        ensures { IfOk result (λ o. Reads (rules.MemberRest limits (head_of head) optional) rules.InType self.now.reader at o) }
    {
        if self.reader.has_method(at, head.read_only) {
            let method = self.method_at(at, head, optional, limits)?;
            return Ok(method);
        }
        let property = self.property_at(at, head, optional, limits)?;
        Ok(property)
    }

    fn member_at(&self, at: usize, limits: Limits) -> Result<Option<Read<TypeMember>>, NoMemory>
        requires nests { Nests self.now.bound (F.pre self.now.inner) (F.post self.now.inner) }
        requires below { limits.own ≤ self.now.bound }
        ensures { IfOk result (λ o. Reads (rules.MemberUpto limits) rules.InType self.now.reader at o) }
    {
        let Some(head) = self.reader.head_at(at)? else {
            return Ok(None);
        };
        let (optional, next) = self.reader.question(head.next);
        let member = self.member_rest_at(next, head, optional, limits)?;
        Ok(member)
    }

    /// Members, each with `;` or `,` behind it, which may be left out after the last.
    pub fn members_at(&self, at: usize, limits: Limits) -> Result<Read<Items<TypeMember>>, NoMemory>
        requires nests { Nests self.now.bound (F.pre self.now.inner) (F.post self.now.inner) }
        requires within { at ≤ length self.now.reader.tokens.now }
        requires below { limits.own ≤ self.now.bound }
        ensures { IfOk result (λ x. Reads (rules.MembersUpto limits) rules.InMembers self.now.reader at (Some x)) }
    {
        let mut members = Items::new(self.reader.alloc);
        let mut own = 0;
        let mut depth = 0;
        let mut next = at;
        while let Some(member) = self.member_at(next, limits)? {
            members.push(member.tree)?;
            own = larger(own, member.own);
            depth = larger(depth, member.depth);
            if !self.reader.has_member_end(member.next) {
                return Ok(Read {
                    tree: members,
                    own,
                    depth,
                    next: member.next,
                });
            }
            next = member.next + 1;
        }
        Ok(Read {
            tree: members,
            own,
            depth,
            next,
        })
    }

    /// A type, whose own count is one more than that of the types inside at most.
    fn level_at(&self, at: usize, limits: Limits) -> Result<Option<Read<TypeExpr>>, NoMemory>
        requires nests { Nests self.now.bound (F.pre self.now.inner) (F.post self.now.inner) }
        requires within { at ≤ length self.now.reader.tokens.now }
        requires below { limits.own ≤ self.now.bound + 1 }
        ensures { IfOk result (λ o. Reads (rules.TypeUpto limits) rules.InType self.now.reader at o) }
    {
        if self.reader.is_mark(at, Mark::Bar) {
            let lead = self.union_at(at + 1, limits)?;
            return Ok(lead);
        }
        if let Some(function) = self.function_at(at, limits)? {
            return Ok(Some(function));
        }
        let bare = self.union_at(at, limits)?;
        Ok(bare)
    }
}

/// Reads a type within limits, and says its counts beside its tree: for what reads types in expressions and items, whose
/// depth counts the type's. The own count of a type is at most 200 (`MAX_COUNT`), so that is the limit there; the other
/// limit is what the item has left.
pub fn type_at(
    reader: Reader<'_>,
    at: usize,
    limits: Limits,
) -> Result<Option<Read<TypeExpr>>, NoMemory>
    requires { at ≤ length reader.tokens.now }
    ensures { IfOk result (λ o. Reads (rules.TypeUpto limits) rules.InType reader.entry at o) }
{
    if limits.own == 0 {
        return Ok(None);
    }
    Grammar {
        reader,
        bound: limits.own - 1,
        inner: type_at,
    }
    .level_at(at, limits)
}

/// Reads the members of an interface, which stand in no type: what is between its braces.
pub fn type_members_at(
    reader: Reader<'_>,
    at: usize,
    limits: Limits,
) -> Result<Read<Items<TypeMember>>, NoMemory>
    requires { at ≤ length reader.tokens.now }
    ensures { IfOk result (λ x. Reads (rules.MembersUpto limits) rules.InMembers reader.entry at (Some x)) }
{
    Grammar {
        reader,
        bound: limits.own,
        inner: type_at,
    }
    .members_at(at, limits)
}

/// Reads the parameters of a signature that stands in no type: what is between its parentheses.
pub fn type_params_at(
    reader: Reader<'_>,
    at: usize,
    limits: Limits,
) -> Result<Read<Items<TypeParam>>, NoMemory>
    requires { at ≤ length reader.tokens.now }
    ensures { IfOk result (λ x. Reads (rules.ParamsUpto limits) rules.InParams reader.entry at (Some x)) }
{
    Grammar {
        reader,
        bound: limits.own,
        inner: type_at,
    }
    .params_at(at, limits)
}
