ghost use Rattle.std.specs.Prelude.{◌≡◌, IfOk};
ghost use Rattle.parse_laws.specs.Parser.{sees, take_by, and_then};
ghost use Rattle.grammar_rules.specs.Types.{is_list_word, is_tuple_word};
ghost use Rattle.parse_expressions.specs.TypeReading as spec;
ghost use Rattle.parse_expressions.specs.Code.{Reads, TypeSubs};

use crate::Cursor;
use crate::cursor::{ParseError, is_op, is_word, node_at, spells};
use crate::reader::MOST_ITEMS;
use crate::start::{TypeStart, type_start_of};
use codon_base::Spelling;
use indent_lexer::{Token, TokenKind};
use parse_laws::Cause;
use source_trees::{Annotation, Name, Node};
use sqlite_items::{Boxed, Items};
use std::alloc::{AllocError, Global};

/// The type that a name spells by itself.
fn named_type(alloc: Global, node: Node, spelling: &Spelling) -> Result<Annotation, AllocError>
    ensures { IfOk result (λ x. x ≡ spec.named_type node spelling.now) }
{
    if spells(spelling, b"int".as_slice()) {
        Ok(Annotation::Int(node))
    } else if spells(spelling, b"bool".as_slice()) {
        Ok(Annotation::Bool(node))
    } else if spells(spelling, b"str".as_slice()) {
        Ok(Annotation::Str(node))
    } else {
        let spelling = Items::from_slice(alloc, spelling.as_slice())?;
        Ok(Annotation::Class(node, spelling))
    }
}

/// The type that one token is, if it is one.
fn simple_type(alloc: Global, token: &Token) -> Result<Option<Annotation>, AllocError>
    ensures { IfOk result (λ x. x ≡ spec.simple_type token.now) }
{
    let node = node_at(token);
    match &token.kind {
        TokenKind::Name(spelling) => {
            let named = named_type(alloc, node, spelling)?;
            Ok(Some(named))
        }
        TokenKind::Keyword(spelling) => {
            if spells(spelling, b"None".as_slice()) {
                Ok(Some(Annotation::None(node)))
            } else {
                Ok(None)
            }
        }
        _ => Ok(None),
    }
}

/// A class's type by its name.
fn class_tree(name: Name) -> Annotation
    ensures { result ≡ spec.class_tree name }
{
    let Name { node, spelling } = name;
    Annotation::Class(node, spelling)
}

fn list_tree(alloc: Global, node: Node, item: Annotation) -> Result<Annotation, AllocError>
    ensures { IfOk result (λ x. x ≡ Annotation.List node item) }
{
    Ok(Annotation::List(node, Boxed::new(alloc, item)?))
}

impl<'a> Cursor<'a> {
    /// Takes a type of one token.
    fn take_simple_type(&mut self, alloc: Global) -> Result<Annotation, ParseError>
        ensures { Reads (take_by spec.simple_type self.old) result self.new }
    {
        let Some(first) = self.first() else {
            return Err(ParseError::Refused(Cause::Unexpected));
        };
        let Some(tree) = simple_type(alloc, first)? else {
            return Err(ParseError::Refused(Cause::Unexpected));
        };
        self.skip();
        Ok(tree)
    }

    /// Takes `list` or `List`.
    fn take_list_word(&mut self, alloc: Global) -> Result<Name, ParseError>
        ensures { Reads (take_by (spec.named_if is_list_word) self.old) result self.new }
    {
        let Some(first) = self.first() else {
            return Err(ParseError::Refused(Cause::Unexpected));
        };
        if !(is_word(first, b"list".as_slice()) || is_word(first, b"List".as_slice())) {
            return Err(ParseError::Refused(Cause::Unexpected));
        }
        self.take_name(alloc)
    }

    /// Takes `tuple` or `Tuple`.
    fn take_tuple_word(&mut self, alloc: Global) -> Result<Name, ParseError>
        ensures { Reads (take_by (spec.named_if is_tuple_word) self.old) result self.new }
    {
        let Some(first) = self.first() else {
            return Err(ParseError::Refused(Cause::Unexpected));
        };
        if !(is_word(first, b"tuple".as_slice()) || is_word(first, b"Tuple".as_slice())) {
            return Err(ParseError::Refused(Cause::Unexpected));
        }
        self.take_name(alloc)
    }

    /// Whether the next token begins a type.
    pub fn begins_type(&self) -> bool
        ensures { result ≡ sees spec.type_begins self.now }
    {
        match self.first() {
            None => false,
            Some(first) => match &first.kind {
                TokenKind::Name(_) => true,
                TokenKind::Keyword(spelling) => spells(spelling, b"None".as_slice()),
                _ => false,
            },
        }
    }
}

/// Whether a comma is next and one more type may follow these.
fn goes_on(cursor: &Cursor<'_>, types: &Items<Annotation>) -> bool
    ensures { result ≡ sees (spec.more_types types.now) cursor.now }
{
    match cursor.first() {
        None => false,
        Some(first) => types.len() < MOST_ITEMS && is_op(first, b",".as_slice()),
    }
}

/// What reads types: the memory, how high the parts of a type may be, and what reads the parts.
#[derive(Clone, Copy)]
pub struct Types<F> {
    pub alloc: Global,
    /// The greatest height of a part. The type may be one higher.
    pub room: u32,
    pub sub: F,
}

impl<F: Fn(Global, &mut Cursor<'_>, u32) -> Result<Annotation, ParseError>> Types<F> {
    /// A part of the type.
    fn sub(&self, cursor: &mut Cursor<'_>) -> Result<Annotation, ParseError>
        requires { TypeSubs self.now.room (F.pre self.now.sub) (F.post self.now.sub) }
        ensures { Reads (spec.read_type self.now.room cursor.old) result cursor.new }
    {
        (self.sub)(self.alloc, cursor, self.room)
    }

    /// The item of a list in square brackets, or the name alone.
    #[tactic(auto, unfolding(crate::specs::TypeReading::list_rest))]
    fn list_rest(&self, cursor: &mut Cursor<'_>, name: Name) -> Result<Annotation, ParseError>
        requires { TypeSubs self.now.room (F.pre self.now.sub) (F.post self.now.sub) }
        ensures { Reads (spec.list_rest self.now.room (spec.read_type self.now.room) name cursor.old) result cursor.new }
    {
        if !cursor.sees_op(b"[".as_slice()) {
            return Ok(class_tree(name));
        }
        if self.room < 1 {
            return Err(ParseError::Refused(Cause::TooDeep));
        }
        cursor.expect_op(b"[".as_slice())?;
        let item = self.sub(cursor)?;
        cursor.expect_op(b"]".as_slice())?;
        let tree = list_tree(self.alloc, name.node, item)?;
        Ok(tree)
    }

    /// A comma and one more type behind those that stand.
    fn turn(
        &self,
        cursor: &mut Cursor<'_>,
        types: Items<Annotation>,
    ) -> Result<Items<Annotation>, ParseError>
        requires { TypeSubs self.now.room (F.pre self.now.sub) (F.post self.now.sub) }
        ensures { Reads (spec.one_more_type self.now.room (spec.read_type self.now.room) types cursor.old) result cursor.new }
    {
        cursor.expect_op(b",".as_slice())?;
        let item = self.sub(cursor)?;
        let mut types = types;
        types.push(item)?;
        Ok(types)
    }

    /// Types with commas between.
    #[tactic(auto, unfolding(crate::specs::TypeReading::types))]
    fn types(&self, cursor: &mut Cursor<'_>) -> Result<Items<Annotation>, ParseError>
        requires { TypeSubs self.now.room (F.pre self.now.sub) (F.post self.now.sub) }
        ensures { Reads (spec.types self.now.room (spec.read_type self.now.room) cursor.old) result cursor.new }
    {
        let first = self.sub(cursor)?;
        let mut types = Items::new(self.alloc);
        types.push(first)?;
        self.more(cursor, types)
    }

    /// The types behind those that stand.
    fn more(
        &self,
        cursor: &mut Cursor<'_>,
        first: Items<Annotation>,
    ) -> Result<Items<Annotation>, ParseError>
        requires { TypeSubs self.now.room (F.pre self.now.sub) (F.post self.now.sub) }
        ensures { Reads (spec.types_after self.now.room (spec.read_type self.now.room) first cursor.old) result cursor.new }
    {
        let mut types = first;
        'turn: for _turn in 0..cursor.left() {
            if !goes_on(cursor, &types) {
                return Ok(types);
            }
            types = self.turn(cursor, types)?;
        }
        Ok(types)
    }

    /// The types of a tuple in square brackets, or the name alone.
    #[tactic(auto, unfolding(crate::specs::TypeReading::tuple_rest))]
    fn tuple_rest(&self, cursor: &mut Cursor<'_>, name: Name) -> Result<Annotation, ParseError>
        requires { TypeSubs self.now.room (F.pre self.now.sub) (F.post self.now.sub) }
        ensures { Reads (spec.tuple_rest self.now.room (spec.read_type self.now.room) name cursor.old) result cursor.new }
    {
        if !cursor.sees_op(b"[".as_slice()) {
            return Ok(class_tree(name));
        }
        if self.room < 1 {
            return Err(ParseError::Refused(Cause::TooDeep));
        }
        cursor.expect_op(b"[".as_slice())?;
        let types = self.types(cursor)?;
        cursor.expect_op(b"]".as_slice())?;
        Ok(Annotation::Tuple(name.node, types))
    }

    fn list(&self, cursor: &mut Cursor<'_>) -> Result<Annotation, ParseError>
        requires { TypeSubs self.now.room (F.pre self.now.sub) (F.post self.now.sub) }
        ensures { Reads (and_then (take_by (spec.named_if is_list_word) cursor.old) (spec.list_rest self.now.room (spec.read_type self.now.room))) result cursor.new }
    {
        let name = cursor.take_list_word(self.alloc)?;
        self.list_rest(cursor, name)
    }

    fn tuple(&self, cursor: &mut Cursor<'_>) -> Result<Annotation, ParseError>
        requires { TypeSubs self.now.room (F.pre self.now.sub) (F.post self.now.sub) }
        ensures { Reads (and_then (take_by (spec.named_if is_tuple_word) cursor.old) (spec.tuple_rest self.now.room (spec.read_type self.now.room))) result cursor.new }
    {
        let name = cursor.take_tuple_word(self.alloc)?;
        self.tuple_rest(cursor, name)
    }

    /// A type by what it begins with.
    #[tactic(auto, unfolding(crate::specs::TypeReading::type_at, crate::specs::TypeReading::type_from))]
    pub fn type_at(&self, cursor: &mut Cursor<'_>) -> Result<Annotation, ParseError>
        requires { TypeSubs self.now.room (F.pre self.now.sub) (F.post self.now.sub) }
        ensures { Reads (spec.type_at self.now.room (spec.read_type self.now.room) cursor.old) result cursor.new }
    {
        match type_start_of(cursor) {
            TypeStart::Simple => cursor.take_simple_type(self.alloc),
            TypeStart::ListWord => self.list(cursor),
            TypeStart::TupleWord => self.tuple(cursor),
            TypeStart::Nowhere => Err(ParseError::Refused(Cause::Unexpected)),
        }
    }
}

/// A type that is at most `room` high. Where there is no room at all, what begins one is too deep.
#[tactic(auto, using(crate::proofs::Rooms::type_none, crate::proofs::Rooms::type_some))]
pub fn read_type(
    alloc: Global,
    cursor: &mut Cursor<'_>,
    room: u32,
) -> Result<Annotation, ParseError>
    ensures { Reads (spec.read_type room cursor.old) result cursor.new }
{
    if room == 0 {
        if cursor.begins_type() {
            return Err(ParseError::Refused(Cause::TooDeep));
        }
        return Err(ParseError::Refused(Cause::Unexpected));
    }
    let reader = Types {
        alloc,
        room: room - 1,
        sub: read_type,
    };
    reader.type_at(cursor)
}
