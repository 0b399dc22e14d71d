ghost use Rattle.std.specs.Prelude.{◌≡◌, IfOk};
ghost use Rattle.parse_laws.specs.Parser.{and_then, take_by};
ghost use Rattle.parse_expressions.specs.Reading as spec;
ghost use Rattle.parse_expressions.specs.Splits.{filtered, iterated};
ghost use Rattle.parse_expressions.specs.Code.{Reads, Subs};

use crate::cursor::node_at;
use crate::measured::{self, Measured, Row};
use crate::reader::Expressions;
use crate::start::{Start, start_of};
use crate::{Cursor, Form, ParseError};
use grammar_rules::Junction;
use indent_lexer::Token;
use parse_laws::Cause;
use source_trees::{Commas, LoopNames, Name, Node};
use std::alloc::{AllocError, Global};

/// One expression in brackets, or a tuple where a comma stands.
#[tactic(auto, using(crate::proofs::Counting::round_many))]
fn round_tree(alloc: Global, first: &Token, row: Row, more: bool) -> Result<Measured, AllocError>
    ensures { IfOk result (λ x. x ≡ spec.round_tree first.now (row, more)) }
{
    if more {
        return Ok(measured::tuple(alloc, node_at(first), Commas::Bracketed, row)?);
    }
    match row.single(alloc)? {
        Ok(inner) => Ok(measured::bracketed(alloc, node_at(first), inner)?),
        Err(row) => Ok(measured::tuple(alloc, node_at(first), Commas::Bracketed, row)?),
    }
}

impl<F: Fn(Global, &mut Cursor<'_>, u32, Form) -> Result<Measured, ParseError>> Expressions<F> {
    /// A name, or a call of it.
    #[tactic(auto, unfolding(crate::specs::Reading::named_rest))]
    pub fn named_rest(&self, cursor: &mut Cursor<'_>, name: Name) -> Result<Measured, ParseError>
        requires { Subs self.now.room (F.pre self.now.sub) (F.post self.now.sub) }
        ensures { Reads (spec.named_rest self.now.room (spec.read self.now.room) name cursor.old) result cursor.new }
    {
        if !cursor.sees_op(b"(".as_slice()) {
            let tree = measured::name_tree(self.alloc, name)?;
            return Ok(tree);
        }
        if self.room < 1 {
            return Err(ParseError::Refused(Cause::TooDeep));
        }
        let row = self.arguments(cursor)?;
        let tree = measured::call(self.alloc, name, row)?;
        Ok(tree)
    }

    /// What stands in round brackets.
    #[tactic(auto, unfolding(crate::specs::Reading::round))]
    fn round(&self, cursor: &mut Cursor<'_>) -> Result<Measured, ParseError>
        requires { Subs self.now.room (F.pre self.now.sub) (F.post self.now.sub) }
        ensures { Reads (spec.round self.now.room (spec.read self.now.room) cursor.old) result cursor.new }
    {
        if self.room < 1 {
            return Err(ParseError::Refused(Cause::TooDeep));
        }
        let first = cursor.expect_op(b"(".as_slice())?;
        let (row, more) = self.row(cursor, true)?;
        cursor.expect_op(b")".as_slice())?;
        let tree = round_tree(self.alloc, first, row, more)?;
        Ok(tree)
    }

    /// The condition of a comprehension, if it has one.
    #[tactic(auto, unfolding(crate::specs::Reading::filter))]
    fn filter(&self, cursor: &mut Cursor<'_>) -> Result<Option<Measured>, ParseError>
        requires { Subs self.now.room (F.pre self.now.sub) (F.post self.now.sub) }
        ensures { Reads (spec.filter self.now.room (spec.read self.now.room) cursor.old) result cursor.new }
    {
        if !cursor.sees_keyword(b"if".as_slice()) {
            return Ok(None);
        }
        cursor.expect_keyword(b"if".as_slice())?;
        let condition = self.sub(cursor, Form::Joined(Junction::Or))?;
        Ok(Some(condition))
    }

    /// What follows the iterable of a comprehension.
    #[tactic(auto, unfolding(crate::specs::Splits::filtered))]
    fn filtered(
        &self,
        cursor: &mut Cursor<'_>,
        first: &Token,
        item: Measured,
        names: LoopNames,
        iterable: Measured,
    ) -> Result<Measured, ParseError>
        requires { Subs self.now.room (F.pre self.now.sub) (F.post self.now.sub) }
        ensures { Reads (filtered self.now.room (spec.read self.now.room) first.now item names iterable cursor.old) result cursor.new }
    {
        let condition = self.filter(cursor)?;
        cursor.expect_op(b"]".as_slice())?;
        let node = node_at(first);
        let tree = measured::comprehension(self.alloc, node, item, names, iterable, condition)?;
        Ok(tree)
    }

    /// What follows the names of a comprehension.
    #[tactic(auto, unfolding(crate::specs::Splits::iterated))]
    fn iterated(
        &self,
        cursor: &mut Cursor<'_>,
        first: &Token,
        item: Measured,
        names: LoopNames,
    ) -> Result<Measured, ParseError>
        requires { Subs self.now.room (F.pre self.now.sub) (F.post self.now.sub) }
        ensures { Reads (iterated self.now.room (spec.read self.now.room) first.now item names cursor.old) result cursor.new }
    {
        cursor.expect_keyword(b"in".as_slice())?;
        let iterable = self.sub(cursor, Form::Joined(Junction::Or))?;
        self.filtered(cursor, first, item, names, iterable)
    }

    /// What follows the item of a comprehension.
    #[tactic(auto, unfolding(crate::specs::Reading::comprehension, crate::specs::Splits::iterated, crate::specs::Splits::filtered))]
    fn comprehension(
        &self,
        cursor: &mut Cursor<'_>,
        first: &Token,
        item: Measured,
    ) -> Result<Measured, ParseError>
        requires { Subs self.now.room (F.pre self.now.sub) (F.post self.now.sub) }
        ensures { Reads (spec.comprehension self.now.room (spec.read self.now.room) first.now item cursor.old) result cursor.new }
    {
        cursor.expect_keyword(b"for".as_slice())?;
        let names = cursor.names(self.alloc)?;
        self.iterated(cursor, first, item, names)
    }

    /// What follows the first item of a list.
    #[tactic(auto, unfolding(crate::specs::Reading::items))]
    fn items(
        &self,
        cursor: &mut Cursor<'_>,
        first: &Token,
        item: Measured,
    ) -> Result<Measured, ParseError>
        requires { Subs self.now.room (F.pre self.now.sub) (F.post self.now.sub) }
        ensures { Reads (spec.items self.now.room (spec.read self.now.room) first.now item cursor.old) result cursor.new }
    {
        let items = Row::new(self.alloc).push(item)?;
        let (row, _more) = self.rest(cursor, items, false)?;
        cursor.expect_op(b"]".as_slice())?;
        let tree = measured::list(self.alloc, node_at(first), row)?;
        Ok(tree)
    }

    /// What stands in square brackets.
    #[tactic(auto, unfolding(crate::specs::Reading::square))]
    fn square(&self, cursor: &mut Cursor<'_>) -> Result<Measured, ParseError>
        requires { Subs self.now.room (F.pre self.now.sub) (F.post self.now.sub) }
        ensures { Reads (spec.square self.now.room (spec.read self.now.room) cursor.old) result cursor.new }
    {
        let first = cursor.expect_op(b"[".as_slice())?;
        if cursor.sees_op(b"]".as_slice()) {
            cursor.expect_op(b"]".as_slice())?;
            let tree = measured::list(self.alloc, node_at(first), Row::new(self.alloc))?;
            return Ok(tree);
        }
        let item = self.sub(cursor, Form::Whole)?;
        if cursor.sees_keyword(b"for".as_slice()) {
            self.comprehension(cursor, first, item)
        } else {
            self.items(cursor, first, item)
        }
    }

    /// A name and what follows it.
    fn named(&self, cursor: &mut Cursor<'_>) -> Result<Measured, ParseError>
        requires { Subs self.now.room (F.pre self.now.sub) (F.post self.now.sub) }
        ensures { Reads (and_then (take_by spec.plain_at cursor.old) (spec.named_rest self.now.room (spec.read self.now.room))) result cursor.new }
    {
        let name = cursor.take_plain_name(self.alloc)?;
        self.named_rest(cursor, name)
    }

    /// What needs nothing before it.
    #[tactic(auto, unfolding(crate::specs::Reading::atom, crate::specs::Reading::atom_from))]
    pub fn atom(&self, cursor: &mut Cursor<'_>) -> Result<Measured, ParseError>
        requires { Subs self.now.room (F.pre self.now.sub) (F.post self.now.sub) }
        ensures { Reads (spec.atom self.now.room (spec.read self.now.room) cursor.old) result cursor.new }
    {
        match start_of(cursor) {
            Start::Named => self.named(cursor),
            Start::Leaf => cursor.take_leaf(self.alloc),
            Start::Texts => cursor.texts(self.alloc),
            Start::Round => self.round(cursor),
            Start::Square => self.square(cursor),
            Start::Nowhere => Err(ParseError::Refused(Cause::Unexpected)),
        }
    }
}
