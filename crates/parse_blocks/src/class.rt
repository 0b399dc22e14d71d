ghost use Rattle.std.specs.Prelude.{◌≡◌, ◌+◌, ◌-◌, ◌∷◌, ◌++◌, [], length, min, IfOk};
ghost use Rattle.parse_laws.specs.Parser.{sees, and_then, pure, expect, take_by, repeat};
ghost use Rattle.grammar_rules.specs.Modules.{fields_among};
ghost use Rattle.grammar_rules.specs.Words.{is_newline, node_at};
ghost use Rattle.parse_expressions.specs.Reading.{text_at};
ghost use Rattle.parse_expressions.specs.Code.{Reads};
ghost use Rattle.parse_statements.specs.Code.{readers};
ghost use Rattle.parse_blocks.specs.Functions as spec;
ghost use Rattle.parse_blocks.specs.Code.{text_member, class_after, class_rest};

use crate::function::read_function;
use crate::mark::{expect_dedent, expect_indent};
use codon_base::Text;
use indent_lexer::{Token, TokenKind};
use parse_expressions::{Cursor, ParseError, node_at, read_type};
use parse_laws::Cause;
use parse_statements::{MOST_ITEMS, expect_newline};
use source_trees::{Class, Member, Name, Node};
use sqlite_items::Items;
use std::alloc::{AllocError, Global};
use std::marker::Model;

/// The members of a class, and how many of them are fields, up to the greatest number of its type. Contracts see the list of them.
#[derive(Drop)]
pub struct Members {
    items: Items<Member>,
    fields: usize,
}

impl Model for Members {
    ghost use Rattle.std.specs.Prelude.{◌≡◌, min, List};
    ghost use Rattle.std.below.core.specs.declared.int.usize.TheConstants.{MAX};
    ghost use Rattle.source_trees.specs.declared.item.Member.{Member};
    ghost use Rattle.source_trees.specs.contracts.item.Member as e;
    ghost use Rattle.std.specs.Coded.{codes};
    ghost use Rattle.grammar_rules.specs.Modules.{fields_among};

    ghost Value = { List Member };

    ghost coded = { Prim.hlevel (codes, e.the_row.coded) };

    ghost view = { λ m. m.items };

    ghost invariant = { λ m. m.fields ≡ min (fields_among m.items) MAX };
}

/// How many fields stand where this member follows so many of them.
fn fields_with(fields: usize, member: &Member) -> usize
    ensures { result ≡ min (fields + fields_among (member.now ∷ [])) usize.MAX }
{
    match member {
        Member::Field(_, _, _) => fields.saturating_add(1),
        _ => fields,
    }
}

impl Members {
    fn new(alloc: Global) -> Members
        ensures { result ≡ [] }
    {
        Members {
            items: Items::new(alloc),
            fields: 0,
        }
    }

    /// Whether one more field may follow.
    fn takes_field(&self) -> bool
        ensures { result ≡ spec.takes_field self.now }
    {
        self.fields < MOST_ITEMS
    }

    /// Puts a member at the end.
    #[tactic(auto, using(crate::proofs::Counted::counted_push))]
    fn push(self, member: Member) -> Result<Members, AllocError>
        ensures { IfOk result (λ r. r ≡ self ++ member ∷ []) }
    {
        let Members { mut items, fields } = self;
        let fields = fields_with(fields, &member);
        items.push(member)?;
        Ok(Members { items, fields })
    }

    fn into_items(self) -> Items<Member>
        ensures { result ≡ self }
    {
        self.items
    }
}

/// A field with its type, on a line.
#[tactic(auto, unfolding(crate::specs::Functions::field))]
fn field(alloc: Global, cursor: &mut Cursor<'_>, room: u32) -> Result<Member, ParseError>
    ensures { Reads (spec.field readers room cursor.old) result cursor.new }
{
    let name = cursor.take_name(alloc)?;
    cursor.expect_op(b":".as_slice())?;
    let annotation = read_type(alloc, cursor, room.saturating_sub(1))?;
    expect_newline(cursor)?;
    Ok(Member::Field(name.node, name, annotation))
}

/// Takes a text with its place.
fn take_text(cursor: &mut Cursor<'_>) -> Result<(Node, Text), ParseError>
    ensures { Reads (take_by text_at cursor.old) result cursor.new }
{
    let Some(first) = cursor.first() else {
        return Err(ParseError::Refused(Cause::Unexpected));
    };
    let TokenKind::Text(value) = &first.kind else {
        return Err(ParseError::Refused(Cause::Unexpected));
    };
    let value = value.try_clone()?;
    cursor.skip();
    Ok((node_at(first), value))
}

/// A text on a line of its own.
#[tactic(auto, unfolding(crate::specs::Code::text_member))]
fn text_member(cursor: &mut Cursor<'_>) -> Result<Member, ParseError>
    ensures { Reads (text_member cursor.old) result cursor.new }
{
    let (node, value) = take_text(cursor)?;
    expect_newline(cursor)?;
    Ok(Member::Text(node, value))
}

/// `pass` on a line.
fn pass_member(cursor: &mut Cursor<'_>) -> Result<Member, ParseError>
    ensures { Reads (and_then (expect spec.is_pass cursor.old) (λ t ts. and_then (expect is_newline ts) (λ _. pure (Member.Pass (node_at t))))) result cursor.new }
{
    let token = cursor.expect_keyword(b"pass".as_slice())?;
    expect_newline(cursor)?;
    Ok(Member::Pass(node_at(token)))
}

#[tactic(auto, unfolding(crate::specs::Functions::one_member, crate::specs::Code::text_member))]
fn read_member(alloc: Global, cursor: &mut Cursor<'_>, room: u32) -> Result<Member, ParseError>
    ensures { Reads (spec.one_member readers room cursor.old) result cursor.new }
{
    if cursor.sees_name() {
        return field(alloc, cursor, room);
    }
    if cursor.sees_text() {
        return text_member(cursor);
    }
    if cursor.sees_keyword(b"pass".as_slice()) {
        return pass_member(cursor);
    }
    let method = read_function(alloc, cursor, room)?;
    Ok(Member::Method(method))
}

/// Whether a member begins with the next token that may follow these.
fn goes_on(cursor: &Cursor<'_>, members: &Members) -> bool
    ensures { result ≡ sees (spec.starts_member members.now) cursor.now }
{
    if members.takes_field() && cursor.sees_name() {
        return true;
    }
    cursor.sees_text()
        || cursor.sees_keyword(b"pass".as_slice())
        || cursor.sees_keyword(b"def".as_slice())
}

/// One more member behind those that stand.
fn member_turn(
    alloc: Global,
    cursor: &mut Cursor<'_>,
    room: u32,
    members: Members,
) -> Result<Members, ParseError>
    ensures { Reads (and_then (spec.one_member readers room cursor.old) (λ y. pure (members ++ y ∷ []))) result cursor.new }
{
    let member = read_member(alloc, cursor, room)?;
    Ok(members.push(member)?)
}

/// The members behind those that stand.
fn more_members(
    alloc: Global,
    cursor: &mut Cursor<'_>,
    room: u32,
    first: Members,
) -> Result<Members, ParseError>
    ensures { Reads (repeat spec.starts_member (λ ms ts. and_then (spec.one_member readers room ts) (λ y. pure (ms ++ y ∷ []))) (length cursor.old) first cursor.old) result cursor.new }
{
    let mut members = first;
    'turn: for _turn in 0..cursor.left() {
        if !goes_on(cursor, &members) {
            return Ok(members);
        }
        members = member_turn(alloc, cursor, room, members)?;
    }
    Ok(members)
}

/// One member or more.
#[tactic(auto, unfolding(crate::specs::Functions::members))]
fn read_members(
    alloc: Global,
    cursor: &mut Cursor<'_>,
    room: u32,
) -> Result<Items<Member>, ParseError>
    ensures { Reads (spec.members readers room cursor.old) result cursor.new }
{
    let first = read_member(alloc, cursor, room)?;
    let members = Members::new(alloc).push(first)?;
    let members = more_members(alloc, cursor, room, members)?;
    Ok(members.into_items())
}

/// The members of a class, to the end of its block.
#[tactic(auto, unfolding(crate::specs::Code::class_rest))]
fn class_rest(
    alloc: Global,
    cursor: &mut Cursor<'_>,
    room: u32,
    token: &Token,
    name: Name,
) -> Result<Class, ParseError>
    ensures { Reads (class_rest room token.now name cursor.old) result cursor.new }
{
    let members = read_members(alloc, cursor, room.saturating_sub(1))?;
    expect_dedent(cursor)?;
    Ok(Class {
        node: node_at(token),
        name,
        members,
    })
}

/// What follows the name of a class.
#[tactic(auto, unfolding(crate::specs::Code::class_after))]
fn class_after(
    alloc: Global,
    cursor: &mut Cursor<'_>,
    room: u32,
    token: &Token,
    name: Name,
) -> Result<Class, ParseError>
    ensures { Reads (class_after room token.now name cursor.old) result cursor.new }
{
    cursor.expect_op(b":".as_slice())?;
    expect_newline(cursor)?;
    expect_indent(cursor)?;
    class_rest(alloc, cursor, room, token, name)
}

/// A class that is at most `room` high.
#[tactic(auto, unfolding(crate::specs::Functions::class, crate::specs::Code::class_after, crate::specs::Code::class_rest))]
pub fn read_class(alloc: Global, cursor: &mut Cursor<'_>, room: u32) -> Result<Class, ParseError>
    ensures { Reads (spec.class readers room cursor.old) result cursor.new }
{
    let token = cursor.expect_keyword(b"class".as_slice())?;
    let name = cursor.take_name(alloc)?;
    class_after(alloc, cursor, room, token, name)
}
