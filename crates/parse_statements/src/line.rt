ghost use Rattle.std.specs.Prelude.{◌≡◌, ◌∷◌, ◌++◌, []};
ghost use Rattle.parse_laws.specs.Parser.{sees, row_turn};
ghost use Rattle.parse_laws.specs.Loops.{row_test, starts_in, rest_of};
ghost use Rattle.parse_expressions.specs.Reading.{any_number};
ghost use Rattle.parse_expressions.specs.Code.{Reads};
ghost use Rattle.parse_statements.specs.Simple.{simple};
ghost use Rattle.parse_statements.specs.Lines as spec;
ghost use Rattle.parse_statements.specs.Code.{readers};

use crate::lead::{Lead, lead_of};
use crate::simple::read_simple;
use crate::token::expect_newline;
use parse_expressions::{Cursor, ParseError};
use source_trees::Stmt;
use sqlite_items::Items;
use std::alloc::Global;

/// Statements and whether one may follow without a semicolon.
type OpenLine = (Items<Stmt>, bool);

/// Whether a simple statement begins with the next token.
#[tactic(auto, using(crate::proofs::Goes::sees_led))]
pub fn starts_simple(cursor: &Cursor<'_>) -> bool
    ensures { result ≡ sees spec.starts_simple cursor.now }
{
    !matches!(lead_of(cursor), Lead::Value) || cursor.begins(3)
}

/// Whether the next token is a semicolon, or begins a statement where one may follow.
fn goes_on(cursor: &Cursor<'_>, row: &OpenLine) -> bool
    ensures { result ≡ sees (row_test spec.is_semicolon (starts_in any_number spec.starts_simple) row.now) cursor.now }
{
    if row.1 {
        starts_simple(cursor)
    } else {
        cursor.sees_op(b";".as_slice())
    }
}

/// A statement where one may follow, and else a semicolon.
fn line_turn(
    alloc: Global,
    cursor: &mut Cursor<'_>,
    room: u32,
    row: OpenLine,
) -> Result<OpenLine, ParseError>
    ensures { Reads (row_turn spec.is_semicolon (λ _. simple readers room) (λ v y. v ++ y ∷ []) row cursor.old) result cursor.new }
{
    let (statements, is_open) = row;
    if !is_open {
        cursor.expect_op(b";".as_slice())?;
        return Ok((statements, true));
    }
    let statement = read_simple(alloc, cursor, room)?;
    let mut statements = statements;
    statements.push(statement)?;
    Ok((statements, false))
}

/// The statements after the first.
fn line_rest(
    alloc: Global,
    cursor: &mut Cursor<'_>,
    room: u32,
    first: Items<Stmt>,
) -> Result<OpenLine, ParseError>
    ensures { Reads (rest_of spec.is_semicolon spec.starts_simple any_number (simple readers room) first cursor.old) result cursor.new }
{
    let mut row = (first, false);
    'turn: for _turn in 0..cursor.left() {
        if !goes_on(cursor, &row) {
            return Ok(row);
        }
        row = line_turn(alloc, cursor, room, row)?;
    }
    Ok(row)
}

/// Simple statements with semicolons between, and the end of the line. Each is at most `room` high.
#[tactic(auto, unfolding(crate::specs::Lines::line, parse_laws::specs::Loops::listed))]
pub fn read_line(
    alloc: Global,
    cursor: &mut Cursor<'_>,
    room: u32,
) -> Result<Items<Stmt>, ParseError>
    ensures { Reads (spec.line readers room cursor.old) result cursor.new }
{
    let first = read_simple(alloc, cursor, room)?;
    let mut statements = Items::new(alloc);
    statements.push(first)?;
    let (statements, _is_open) = line_rest(alloc, cursor, room, statements)?;
    expect_newline(cursor)?;
    Ok(statements)
}
