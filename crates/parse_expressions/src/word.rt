ghost use Rattle.std.specs.Prelude.{◌≡◌, ◌∷◌, ◌++◌, [], cond, false, IfOk, length};
ghost use Rattle.grammar_rules.specs.Expressions.{loop_names};
ghost use Rattle.grammar_rules.specs.Words.{is_comma, name_of, name_at, text_of};
ghost use Rattle.parse_laws.specs.Parser.{sees, take_by, row_turn, and_then, pure};
ghost use Rattle.parse_laws.specs.Loops.{row_test, starts_in, rest_of, finished};
ghost use Rattle.parse_expressions.specs.Reading as spec;
ghost use Rattle.parse_expressions.specs.Code.{Reads};

use crate::Cursor;
use crate::cursor::{ParseError, is_op, node_at};
use crate::measured::{self, Measured};
use codon_base::{Memory, Spelling, Text};
use indent_lexer::TokenKind;
use parse_laws::Cause;
use source_trees::{LoopNames, Name};
use sqlite_items::Items;
use std::alloc::Global;

/// Names and whether one may follow without a comma.
type OpenNames = (Items<Name>, bool);

impl From<Memory> for ParseError {
    ghost use Rattle.std.specs.Prelude.{◌≡◌};
    ghost use Rattle.parse_expressions.specs.declared.cursor.ParseError.TheVariants.{Memory};

    ghost from_gives = { λ _ e. e ≡ Memory };

    fn from(_: Memory) -> ParseError {
        ParseError::Memory
    }
}

/// The names of a loop: several where a comma stands.
#[tactic(auto, using(crate::proofs::Counting::names_made, crate::proofs::Counting::several_is))]
fn loop_names(names: Items<Name>, more: bool) -> LoopNames
    ensures { result ≡ loop_names (finished (names, more)) }
{
    if more || names.len() != 1 {
        return LoopNames::Several(names);
    }
    let mut names = names;
    match names.pop() {
        Some(name) => LoopNames::One(name),
        None => LoopNames::Several(names),
    }
}

impl<'a> Cursor<'a> {
    /// Whether the next token begins a trailer.
    pub fn sees_trailer(&self) -> bool
        ensures { result ≡ sees spec.is_trailer self.now }
    {
        match self.first() {
            None => false,
            Some(first) => is_op(first, b".".as_slice()) || is_op(first, b"[".as_slice()),
        }
    }

    /// Whether the next token is a text.
    pub fn sees_text(&self) -> bool
        ensures { result ≡ sees spec.is_text self.now }
    {
        match self.first() {
            None => false,
            Some(first) => matches!(first.kind, TokenKind::Text(_)),
        }
    }

    /// Takes a name for its spelling.
    pub fn take_spelling(&mut self, alloc: Global) -> Result<Spelling, ParseError>
        ensures { Reads (take_by name_of self.old) result self.new }
    {
        let Some(first) = self.first() else {
            return Err(ParseError::Refused(Cause::Unexpected));
        };
        match &first.kind {
            TokenKind::Name(spelling) => {
                let spelling = Items::from_slice(alloc, spelling.as_slice())?;
                self.skip();
                Ok(spelling)
            }
            _ => Err(ParseError::Refused(Cause::Unexpected)),
        }
    }

    /// Takes a text and puts its value behind another.
    fn join_text(&mut self, before: Text) -> Result<Text, ParseError>
        ensures { Reads (and_then (take_by text_of self.old) (λ value. pure (before ++ value))) result self.new }
    {
        let Some(first) = self.first() else {
            return Err(ParseError::Refused(Cause::Unexpected));
        };
        match &first.kind {
            TokenKind::Text(value) => {
                let mut joined = before;
                joined.append(value)?;
                self.skip();
                Ok(joined)
            }
            _ => Err(ParseError::Refused(Cause::Unexpected)),
        }
    }

    /// The texts that stand beside a first one, behind it.
    fn more_texts(&mut self, first: Text) -> Result<Text, ParseError>
        ensures { Reads (spec.more_texts first self.old) result self.new }
    {
        let mut text = first;
        'turn: for _turn in 0..self.left() {
            if !self.sees_text() {
                return Ok(text);
            }
            text = self.join_text(text)?;
        }
        Ok(text)
    }

    /// The first text and those beside it, as one.
    #[tactic(auto, unfolding(crate::specs::Reading::texts))]
    pub fn texts(&mut self, alloc: Global) -> Result<Measured, ParseError>
        ensures { Reads (spec.texts self.old) result self.new }
    {
        let Some(first) = self.first() else {
            return Err(ParseError::Refused(Cause::Unexpected));
        };
        let TokenKind::Text(value) = &first.kind else {
            return Err(ParseError::Refused(Cause::Unexpected));
        };
        let value = value.try_clone()?;
        self.skip();
        let text = self.more_texts(value)?;
        let tree = measured::text(alloc, node_at(first), text)?;
        Ok(tree)
    }

    /// Whether the next token is a comma, or a name where one may follow.
    fn names_go_on(&self, row: &OpenNames) -> bool
        ensures { result ≡ sees (row_test is_comma (starts_in spec.any_number spec.is_name) row.now) self.now }
    {
        match self.first() {
            None => false,
            Some(first) => {
                if row.1 {
                    matches!(first.kind, TokenKind::Name(_))
                } else {
                    is_op(first, b",".as_slice())
                }
            }
        }
    }

    /// A name where one may follow, and else a comma.
    fn name_turn(&mut self, alloc: Global, row: OpenNames) -> Result<OpenNames, ParseError>
        ensures { Reads (row_turn is_comma (λ _. take_by name_at) (λ v y. v ++ y ∷ []) row self.old) result self.new }
    {
        let (mut names, is_open) = row;
        if !is_open {
            self.expect_op(b",".as_slice())?;
            return Ok((names, true));
        }
        let name = self.take_name(alloc)?;
        names.push(name)?;
        Ok((names, false))
    }

    /// The names after those that stand.
    fn more_names(&mut self, alloc: Global, first: Items<Name>) -> Result<OpenNames, ParseError>
        ensures { Reads (rest_of is_comma spec.is_name spec.any_number (take_by name_at) first self.old) result self.new }
    {
        let mut row = (first, false);
        'turn: for _turn in 0..self.left() {
            if !self.names_go_on(&row) {
                return Ok(row);
            }
            row = self.name_turn(alloc, row)?;
        }
        Ok(row)
    }

    /// The names of a loop.
    #[tactic(auto, unfolding(crate::specs::Reading::names, parse_laws::specs::Loops::listed), using(crate::proofs::Counting::names_made))]
    pub fn names(&mut self, alloc: Global) -> Result<LoopNames, ParseError>
        ensures { Reads (spec.names self.old) result self.new }
    {
        let name = self.take_name(alloc)?;
        let mut first = Items::new(alloc);
        first.push(name)?;
        let (names, is_open) = self.more_names(alloc, first)?;
        Ok(loop_names(names, is_open))
    }
}
