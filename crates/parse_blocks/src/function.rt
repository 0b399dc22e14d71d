ghost use Rattle.std.specs.Prelude.{◌≡◌, ◌-◌, ◌∷◌, ◌++◌, [], None, Some};
ghost use Rattle.parse_laws.specs.Parser.{sees, row_turn};
ghost use Rattle.parse_laws.specs.Loops.{row_test, starts_in, rest_of};
ghost use Rattle.grammar_rules.specs.Words.{is_comma};
ghost use Rattle.parse_expressions.specs.Reading.{is_name};
ghost use Rattle.parse_expressions.specs.Code.{Reads};
ghost use Rattle.parse_statements.specs.Readers.{has_room};
ghost use Rattle.parse_statements.specs.Code.{readers};
ghost use Rattle.parse_blocks.specs.Functions as spec;
ghost use Rattle.parse_blocks.specs.Code.{function_after};

use crate::block::{Blocks, read_statement};
use indent_lexer::Token;
use parse_expressions::{Cursor, ParseError, node_at, read_expression, read_type};
use parse_statements::MOST_ITEMS;
use source_trees::{Annotation, Expr, Function, Name, Param};
use sqlite_items::Items;
use std::alloc::Global;

/// Parameters and whether one may follow without a comma.
type OpenParams = (Items<Param>, bool);

/// A type after this operator, if the operator is next.
#[tactic(auto, unfolding(crate::specs::Functions::marked))]
fn marked(
    alloc: Global,
    cursor: &mut Cursor<'_>,
    room: u32,
    mark: &[u8],
) -> Result<Option<Annotation>, ParseError>
    ensures { Reads (spec.marked readers room mark.now cursor.old) result cursor.new }
{
    if !cursor.sees_op(mark) {
        return Ok(None);
    }
    cursor.expect_op(mark)?;
    let annotation = read_type(alloc, cursor, room)?;
    Ok(Some(annotation))
}

/// `=` and the default of a parameter, or nothing.
#[tactic(auto, unfolding(crate::specs::Functions::default))]
fn default(alloc: Global, cursor: &mut Cursor<'_>, room: u32) -> Result<Option<Expr>, ParseError>
    ensures { Reads (spec.default readers room cursor.old) result cursor.new }
{
    if !cursor.sees_op(b"=".as_slice()) {
        return Ok(None);
    }
    cursor.expect_op(b"=".as_slice())?;
    let value = read_expression(alloc, cursor, room)?;
    Ok(Some(value.into_tree()))
}

#[tactic(auto, unfolding(crate::specs::Functions::param))]
fn param(alloc: Global, cursor: &mut Cursor<'_>, room: u32) -> Result<Param, ParseError>
    ensures { Reads (spec.param readers room cursor.old) result cursor.new }
{
    let low = room.saturating_sub(1);
    let Name { node, spelling } = cursor.take_name(alloc)?;
    let annotation = marked(alloc, cursor, low, b":".as_slice())?;
    let default = default(alloc, cursor, low)?;
    Ok(Param {
        node,
        name: spelling,
        annotation,
        default,
    })
}

/// Whether the next token is a comma, or begins a parameter where one may follow.
fn goes_on(cursor: &Cursor<'_>, row: &OpenParams) -> bool
    ensures { result ≡ sees (row_test is_comma (starts_in has_room is_name) row.now) cursor.now }
{
    if row.1 {
        row.0.len() < MOST_ITEMS && cursor.sees_name()
    } else {
        cursor.sees_op(b",".as_slice())
    }
}

/// A parameter where one may follow, and else a comma.
fn param_turn(
    alloc: Global,
    cursor: &mut Cursor<'_>,
    room: u32,
    row: OpenParams,
) -> Result<OpenParams, ParseError>
    ensures { Reads (row_turn is_comma (λ _. spec.param readers room) (λ v y. v ++ y ∷ []) row cursor.old) result cursor.new }
{
    let (params, is_open) = row;
    if !is_open {
        cursor.expect_op(b",".as_slice())?;
        return Ok((params, true));
    }
    let item = param(alloc, cursor, room)?;
    let mut params = params;
    params.push(item)?;
    Ok((params, false))
}

/// The parameters after the first.
fn more_params(
    alloc: Global,
    cursor: &mut Cursor<'_>,
    room: u32,
    first: Items<Param>,
) -> Result<OpenParams, ParseError>
    ensures { Reads (rest_of is_comma is_name has_room (spec.param readers room) first cursor.old) result cursor.new }
{
    let mut row = (first, false);
    'turn: for _turn in 0..cursor.left() {
        if !goes_on(cursor, &row) {
            return Ok(row);
        }
        row = param_turn(alloc, cursor, room, row)?;
    }
    Ok(row)
}

/// The parameters of a function.
#[tactic(auto, unfolding(crate::specs::Functions::params, parse_laws::specs::Loops::listed))]
fn read_params(
    alloc: Global,
    cursor: &mut Cursor<'_>,
    room: u32,
) -> Result<Items<Param>, ParseError>
    ensures { Reads (spec.params readers room cursor.old) result cursor.new }
{
    let mut params = Items::new(alloc);
    if !cursor.sees_name() {
        return Ok(params);
    }
    let first = param(alloc, cursor, room)?;
    params.push(first)?;
    let (params, _is_open) = more_params(alloc, cursor, room, params)?;
    Ok(params)
}

/// What follows the parameters of a function.
#[tactic(auto, unfolding(crate::specs::Functions::function_rest))]
fn function_rest(
    alloc: Global,
    cursor: &mut Cursor<'_>,
    room: u32,
    token: &Token,
    name: Name,
    params: Items<Param>,
) -> Result<Function, ParseError>
    ensures { Reads (spec.function_rest readers room token.now name params cursor.old) result cursor.new }
{
    let result = marked(alloc, cursor, room.saturating_sub(1), b"->".as_slice())?;
    let blocks = Blocks {
        alloc,
        room,
        sub: read_statement,
    };
    let body = blocks.block(cursor)?;
    Ok(Function {
        node: node_at(token),
        name,
        params,
        result,
        body,
    })
}

/// What follows the name of a function.
#[tactic(auto, unfolding(crate::specs::Code::function_after))]
fn function_after(
    alloc: Global,
    cursor: &mut Cursor<'_>,
    room: u32,
    token: &Token,
    name: Name,
) -> Result<Function, ParseError>
    ensures { Reads (function_after room token.now name cursor.old) result cursor.new }
{
    cursor.expect_op(b"(".as_slice())?;
    let params = read_params(alloc, cursor, room.saturating_sub(1))?;
    cursor.expect_op(b")".as_slice())?;
    function_rest(alloc, cursor, room, token, name, params)
}

/// A function that is at most `room` high.
#[tactic(auto, unfolding(crate::specs::Functions::function, crate::specs::Code::function_after))]
pub fn read_function(
    alloc: Global,
    cursor: &mut Cursor<'_>,
    room: u32,
) -> Result<Function, ParseError>
    ensures { Reads (spec.function readers room cursor.old) result cursor.new }
{
    let token = cursor.expect_keyword(b"def".as_slice())?;
    let name = cursor.take_name(alloc)?;
    function_after(alloc, cursor, room, token, name)
}
