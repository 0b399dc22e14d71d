ghost use Rattle.std.specs.Prelude.{◌≡◌, ◌∷◌, ◌++◌, [], true, length, IfOk};
ghost use Rattle.parse_laws.specs.Parser.{sees, repeat, row_turn};
ghost use Rattle.parse_laws.specs.Loops.{row_test, starts_in};
ghost use Rattle.grammar_rules.specs.Words.{is_comma};
ghost use Rattle.parse_expressions.specs.declared.form.Form.TheVariants.{Whole};
ghost use Rattle.parse_expressions.specs.Reading.{read};
ghost use Rattle.parse_expressions.specs.Code.{Reads};
ghost use Rattle.parse_statements.specs.Readers.{starts_expr, has_room};
ghost use Rattle.parse_statements.specs.Items as spec;
ghost use Rattle.parse_statements.specs.Code.{readers};

use crate::token::MOST_ITEMS;
use parse_expressions::{Cursor, Measured, ParseError, read_expression};
use parse_laws::Cause;
use source_trees::{Commas, Expr};
use sqlite_items::Items;
use std::alloc::{AllocError, Global};

/// Expressions and whether one may follow without a comma.
type OpenItems = (Items<Expr>, bool);

/// The expression as the only item.
fn only(alloc: Global, item: Measured) -> Result<Items<Expr>, AllocError>
    ensures { IfOk result (λ items. items ≡ item ∷ []) }
{
    let mut items = Items::new(alloc);
    items.push(item.into_tree())?;
    Ok(items)
}

/// Whether the next token is a comma, or begins an expression where one may follow.
fn goes_on(cursor: &Cursor<'_>, row: &OpenItems) -> bool
    ensures { result ≡ sees (row_test is_comma (starts_in has_room starts_expr) row.now) cursor.now }
{
    if row.1 {
        row.0.len() < MOST_ITEMS && cursor.begins(3)
    } else {
        cursor.sees_op(b",".as_slice())
    }
}

/// An expression where one may follow, and else a comma.
fn item_turn(
    alloc: Global,
    cursor: &mut Cursor<'_>,
    room: u32,
    row: OpenItems,
) -> Result<OpenItems, ParseError>
    ensures { Reads (row_turn is_comma (λ _. read room Whole) (λ v y. v ++ y ∷ []) row cursor.old) result cursor.new }
{
    let (items, is_open) = row;
    if !is_open {
        cursor.expect_op(b",".as_slice())?;
        return Ok((items, true));
    }
    let item = read_expression(alloc, cursor, room)?;
    let mut items = items;
    items.push(item.into_tree())?;
    Ok((items, false))
}

/// The expressions after the first one and a comma.
fn more_items(
    alloc: Global,
    cursor: &mut Cursor<'_>,
    room: u32,
    first: Items<Expr>,
) -> Result<OpenItems, ParseError>
    ensures { Reads (repeat (row_test is_comma (starts_in has_room starts_expr)) (row_turn is_comma (λ _. read room Whole) (λ v y. v ++ y ∷ [])) (length cursor.old) (first, true) cursor.old) result cursor.new }
{
    let mut row = (first, true);
    'turn: for _turn in 0..cursor.left() {
        if !goes_on(cursor, &row) {
            return Ok(row);
        }
        row = item_turn(alloc, cursor, room, row)?;
    }
    Ok(row)
}

/// The tuple that begins with this expression, from its first comma on.
#[tactic(auto, unfolding(crate::specs::Items::tuple_after))]
fn tuple_after(
    alloc: Global,
    cursor: &mut Cursor<'_>,
    room: u32,
    first: Measured,
) -> Result<Expr, ParseError>
    ensures { Reads (spec.tuple_after readers room first cursor.old) result cursor.new }
{
    cursor.expect_op(b",".as_slice())?;
    let node = first.node();
    let items = only(alloc, first)?;
    let (items, _is_open) = more_items(alloc, cursor, room, items)?;
    Ok(Expr::Tuple(node, Commas::Bare, items))
}

/// One expression, or a tuple where a comma follows.
#[tactic(auto, unfolding(crate::specs::Items::items))]
pub fn read_items(alloc: Global, cursor: &mut Cursor<'_>, room: u32) -> Result<Expr, ParseError>
    ensures { Reads (spec.items readers room cursor.old) result cursor.new }
{
    let first = read_expression(alloc, cursor, room)?;
    if !cursor.sees_op(b",".as_slice()) {
        return Ok(first.into_tree());
    }
    if first.height() >= room as usize {
        return Err(ParseError::Refused(Cause::TooDeep));
    }
    tuple_after(alloc, cursor, room.saturating_sub(1), first)
}
