ghost use Rattle.std.specs.Prelude.{◌≡◌, ◌-◌, ◌∷◌, ◌++◌, [], ◌<◌, ◌^◌, length, reverse, slice_get, Some, IfOk, IfErr};
ghost use Rattle.std.specs.List.{list_any};
ghost use Rattle.std.specs.Str.{bytes_eq};
ghost use Rattle.parse_laws.specs.Parser.{sees, and_then, pure};
ghost use Rattle.grammar_rules.specs.Modules.{most_height};
ghost use Rattle.grammar_rules.specs.Refusals.{kind_of, is_left_out};
ghost use Rattle.parse_expressions.specs.Code.{Reads};
ghost use Rattle.parse_statements.specs.Code.{readers};
ghost use Rattle.parse_blocks.specs.Gather.{gather};
ghost use Rattle.parse_blocks.specs.Functions.{function, class};
ghost use Rattle.parse_blocks.specs.Answers.{HoldsEnd, DerivesLow, IsPlaceOf};
ghost use Rattle.parse_blocks.specs.Code.{early, late, refusal_at};
ghost use Rattle.parse_blocks.specs.Sources as spec;

use crate::block::{read_statement, starts_statement};
use crate::class::read_class;
use crate::function::read_function;
use crate::mark::expect_end;
use codon_base::{Or, Span};
use grammar_rules::{ParseKind, ParseRefusal};
use indent_lexer::{Token, TokenKind};
use parse_expressions::{Cursor, ParseError, is_op};
use parse_laws::Cause;
use parse_statements::spells;
use source_trees::{Item, Module, Stmt};
use sqlite_items::Items;
use std::alloc::{AllocError, Global};

/// The most height of what stands at the top.
const MOST_HEIGHT: u32 = 100;

/// These statements, from the last to the first.
#[tactic(auto, using(crate::proofs::Reversed::turned_on))]
fn statements_back(alloc: Global, statements: Items<Stmt>) -> Result<Items<Stmt>, AllocError>
    ensures { IfOk result (λ r. r ≡ reverse statements) }
{
    let mut left = statements;
    let mut turned = Items::new(alloc);
    'turn: for _turn in 0..left.len() {
        let Some(statement) = left.pop() else {
            return Ok(turned);
        };
        turned.push(statement)?;
    }
    Ok(turned)
}

/// These statements as items, behind those that stand.
#[tactic(auto, using(crate::proofs::Reversed::items_on, crate::proofs::Reversed::twice))]
fn push_statements(
    alloc: Global,
    items: Items<Item>,
    statements: Items<Stmt>,
) -> Result<Items<Item>, AllocError>
    ensures { IfOk result (λ r. r ≡ items ++ spec.as_items statements) }
{
    let mut left = statements_back(alloc, statements)?;
    let mut items = items;
    'turn: for _turn in 0..left.len() {
        let Some(statement) = left.pop() else {
            return Ok(items);
        };
        items.push(Item::Stmt(statement))?;
    }
    Ok(items)
}

/// A function behind the items that stand.
fn function_turn(
    alloc: Global,
    cursor: &mut Cursor<'_>,
    items: Items<Item>,
) -> Result<Items<Item>, ParseError>
    ensures { Reads (and_then (function readers most_height cursor.old) (λ f. pure (items ++ Item.Function f ∷ []))) result cursor.new }
{
    let function = read_function(alloc, cursor, MOST_HEIGHT)?;
    let mut items = items;
    items.push(Item::Function(function))?;
    Ok(items)
}

/// A class behind the items that stand.
fn class_turn(
    alloc: Global,
    cursor: &mut Cursor<'_>,
    items: Items<Item>,
) -> Result<Items<Item>, ParseError>
    ensures { Reads (and_then (class readers most_height cursor.old) (λ c. pure (items ++ Item.Class c ∷ []))) result cursor.new }
{
    let class = read_class(alloc, cursor, MOST_HEIGHT)?;
    let mut items = items;
    items.push(Item::Class(class))?;
    Ok(items)
}

/// What stands at the top, behind the items that stand.
#[tactic(auto, unfolding(crate::specs::Sources::top))]
fn turn(
    alloc: Global,
    cursor: &mut Cursor<'_>,
    items: Items<Item>,
) -> Result<Items<Item>, ParseError>
    ensures { Reads (and_then (spec.top readers most_height cursor.old) (λ ys. pure (items ++ ys))) result cursor.new }
{
    if cursor.sees_keyword(b"def".as_slice()) {
        return function_turn(alloc, cursor, items);
    }
    if cursor.sees_keyword(b"class".as_slice()) {
        return class_turn(alloc, cursor, items);
    }
    let statements = read_statement(alloc, cursor, MOST_HEIGHT)?;
    Ok(push_statements(alloc, items, statements)?)
}

/// Whether what may stand at the top begins with the next token.
fn starts_top(cursor: &Cursor<'_>) -> bool
    ensures { result ≡ sees spec.starts_top cursor.now }
{
    cursor.sees_keyword(b"def".as_slice())
        || cursor.sees_keyword(b"class".as_slice())
        || starts_statement(cursor)
}

/// All that stands at the top.
#[tactic(auto, unfolding(crate::specs::Sources::tops))]
fn read_items(alloc: Global, cursor: &mut Cursor<'_>) -> Result<Items<Item>, ParseError>
    ensures { Reads (spec.tops readers most_height cursor.old) result cursor.new }
{
    let mut items = Items::new(alloc);
    'turn: for _turn in 0..cursor.left() {
        if !starts_top(cursor) {
            return Ok(items);
        }
        items = turn(alloc, cursor, items)?;
    }
    Ok(items)
}

/// A whole source: nothing follows its end.
#[tactic(auto, unfolding(crate::specs::Sources::source, crate::specs::Sources::source_at))]
fn read_all(alloc: Global, cursor: &mut Cursor<'_>) -> Result<Module, ParseError>
    ensures { Reads (spec.source readers cursor.old) result cursor.new }
{
    let items = read_items(alloc, cursor)?;
    expect_end(cursor)?;
    if cursor.left() > 0 {
        return Err(ParseError::Refused(Cause::Unexpected));
    }
    Ok(Module { items })
}

/// Whether the keyword is one of Python's from `as` to `except` that are left out.
fn is_left_out_early(word: &[u8]) -> bool
    ensures { result ≡ list_any (bytes_eq word.now) early }
{
    word == b"as".as_slice()
        || word == b"async".as_slice()
        || word == b"await".as_slice()
        || word == b"class".as_slice()
        || word == b"def".as_slice()
        || word == b"del".as_slice()
        || word == b"except".as_slice()
}

/// Whether the keyword is one of Python's from `finally` on that are left out.
fn is_left_out_late(word: &[u8]) -> bool
    ensures { result ≡ list_any (bytes_eq word.now) late }
{
    word == b"finally".as_slice()
        || word == b"from".as_slice()
        || word == b"global".as_slice()
        || word == b"import".as_slice()
        || word == b"is".as_slice()
        || word == b"lambda".as_slice()
        || word == b"nonlocal".as_slice()
        || word == b"try".as_slice()
        || word == b"with".as_slice()
}

/// Whether the token is one that this language leaves out.
fn is_left_out(token: &Token) -> bool
    ensures { result ≡ is_left_out token.now }
{
    match &token.kind {
        TokenKind::Op(spelling) => spells(spelling, b"{".as_slice()),
        TokenKind::Keyword(word) => {
            is_left_out_early(word.as_slice()) || is_left_out_late(word.as_slice())
        }
        _ => false,
    }
}

fn kind_of(cause: Cause, token: &Token) -> ParseKind
    ensures { result ≡ kind_of cause token.now }
{
    match cause {
        Cause::TooDeep => ParseKind::TooDeep,
        Cause::Unexpected => {
            if is_left_out(token) {
                ParseKind::NotInProfile
            } else {
                ParseKind::Unexpected
            }
        }
    }
}

/// The place of a token, up to the greatest number of its type.
fn place_of(place: usize) -> u32
    ensures { place < 2 ^ 32 → result ≡ place }
{
    if place > u32::MAX as usize {
        return u32::MAX;
    }
    place as u32
}

/// The refusal of the first of the tokens that are left, so many.
fn refusal(tokens: &[Token], left: usize, cause: Cause) -> ParseRefusal
    ensures { (t : Token) → slice_get tokens.now (length tokens.now - left) ≡ Some t → length tokens.now < 2 ^ 32 → result ≡ refusal_at (length tokens.now - left) cause t }
{
    let place = tokens.len().saturating_sub(left);
    match tokens.get(place) {
        Some(token) => ParseRefusal {
            kind: kind_of(cause, token),
            token: place_of(place),
            at: token.span,
        },
        None => ParseRefusal {
            kind: ParseKind::Unexpected,
            token: place_of(place),
            at: Span {
                start: 0,
                line: 1,
                column: 1,
            },
        },
    }
}

/// The tree of a whole source, whose nodes have the number 0, or the first bad token.
#[tactic(auto, using(crate::proofs::Answered::tree_is, crate::proofs::Answered::place_is))]
pub fn read_source(alloc: Global, tokens: &[Token]) -> Result<Module, Or<ParseRefusal>>
    ensures tree { IfOk result (λ m. DerivesLow tokens.now m) }
    ensures refusal { HoldsEnd tokens.now → length tokens.now < 2 ^ 32 → IfErr result (IsPlaceOf tokens.now) }
{
    let mut cursor = Cursor::new(tokens);
    match read_all(alloc, &mut cursor) {
        Ok(module) => Ok(module),
        Err(ParseError::Memory) => Err(Or::Memory),
        Err(ParseError::Refused(cause)) => Err(Or::No(refusal(tokens, cursor.left(), cause))),
    }
}
