ghost use Rattle.std.specs.Prelude.{◌≡◌, ◌-◌, ◌+◌, nat_le, not, None, Some};
ghost use Rattle.parse_laws.specs.Parser.{choose, refuse, within};
ghost use Rattle.grammar_rules.specs.Expressions.{node_of};
ghost use Rattle.source_trees.specs.Heights.{height_of_expr};
ghost use Rattle.grammar_rules.specs.Words.{is_keyword, node_at};
ghost use Rattle.parse_expressions.specs.Code.{Reads};
ghost use Rattle.parse_statements.specs.Targets.{is_print, target_of};
ghost use Rattle.parse_statements.specs.Simple as spec;
ghost use Rattle.parse_statements.specs.Heads as heads;
ghost use Rattle.parse_statements.specs.Code.{readers};

use crate::head::{assign_one, row_after, update_one};
use crate::lead::{Follow, Lead, follow_of, lead_of};
use crate::print::read_printed;
use crate::row::read_items;
use crate::stage::read_stages;
use crate::target::{is_print, target_of};
use crate::token::expect_word;
use codon_base::Spelling;
use indent_lexer::Token;
use parse_expressions::{Cursor, ParseError, node_at, read_expression, read_type};
use parse_laws::Cause;
use source_trees::{Annotation, Expr, Name, Node, Stmt, Target};
use sqlite_items::Items;
use std::alloc::Global;

/// `=` and the value of an annotated name, or nothing.
#[tactic(auto, unfolding(crate::specs::Simple::annotated_value))]
fn annotated_value(
    alloc: Global,
    cursor: &mut Cursor<'_>,
    room: u32,
    name: Name,
    annotation: Annotation,
) -> Result<Stmt, ParseError>
    ensures { Reads (spec.annotated_value readers room name.node name.spelling annotation cursor.old) result cursor.new }
{
    let node = name.node;
    if !cursor.sees_op(b"=".as_slice()) {
        return Ok(Stmt::Annotated(node, name, annotation, None));
    }
    cursor.expect_op(b"=".as_slice())?;
    let value = read_items(alloc, cursor, room.saturating_sub(1))?;
    Ok(Stmt::Annotated(node, name, annotation, Some(value)))
}

/// A colon and a type behind a name, and perhaps a value.
#[tactic(auto, unfolding(crate::specs::Simple::annotate))]
fn annotate_name(
    alloc: Global,
    cursor: &mut Cursor<'_>,
    room: u32,
    name: Name,
) -> Result<Stmt, ParseError>
    ensures { Reads (spec.annotate readers room (Some (Target.Name name.node name.spelling)) cursor.old) result cursor.new }
{
    cursor.expect_op(b":".as_slice())?;
    let annotation = read_type(alloc, cursor, room.saturating_sub(1))?;
    annotated_value(alloc, cursor, room, name, annotation)
}

/// The same where what stands before the colon is a name, and else the colon is refused.
#[tactic(auto, unfolding(crate::specs::Simple::annotate))]
fn annotate(
    alloc: Global,
    cursor: &mut Cursor<'_>,
    room: u32,
    target: Option<Target>,
) -> Result<Stmt, ParseError>
    ensures { Reads (spec.annotate readers room target cursor.old) result cursor.new }
{
    let Some(target) = target else {
        return Err(ParseError::Refused(Cause::Unexpected));
    };
    match target {
        Target::Name(node, spelling) => {
            annotate_name(alloc, cursor, room, Name { node, spelling })
        }
        Target::Index(_, _, _) => Err(ParseError::Refused(Cause::Unexpected)),
        Target::Field(_, _, _) => Err(ParseError::Refused(Cause::Unexpected)),
    }
}

/// The stages of a pipeline whose head is this expression.
#[tactic(auto, unfolding(crate::specs::Simple::pipe))]
fn pipe(
    alloc: Global,
    cursor: &mut Cursor<'_>,
    room: u32,
    node: Node,
    tree: Expr,
) -> Result<Stmt, ParseError>
    requires { node ≡ node_of tree }
    ensures { Reads (spec.pipe readers room tree cursor.old) result cursor.new }
{
    if is_print(&tree) {
        return Err(ParseError::Refused(Cause::Unexpected));
    }
    let stages = read_stages(alloc, cursor, room.saturating_sub(2))?;
    Ok(Stmt::Pipeline(node, tree, stages))
}

/// The expression as a statement.
#[tactic(auto, unfolding(crate::specs::Heads::evaluate))]
fn evaluate(cursor: &Cursor<'_>, node: Node, tree: Expr) -> Result<Stmt, ParseError>
    requires { node ≡ node_of tree }
    ensures { Reads (heads.evaluate readers (not (is_print tree)) tree cursor.now) result cursor.now }
{
    if is_print(&tree) {
        return Err(ParseError::Refused(Cause::Unexpected));
    }
    Ok(Stmt::Evaluate(node, tree))
}

/// A row of items, where it may be as high.
fn row(
    alloc: Global,
    cursor: &mut Cursor<'_>,
    room: u32,
    node: Node,
    tree: Expr,
    fits: bool,
) -> Result<Stmt, ParseError>
    requires node { node ≡ node_of tree }
    requires fits { fits ≡ nat_le (height_of_expr tree + 2) room }
    ensures { Reads (within (nat_le (height_of_expr tree + 2) room) (heads.row_after readers room tree) cursor.old) result cursor.new }
{
    if !fits {
        return Err(ParseError::Refused(Cause::TooDeep));
    }
    row_after(alloc, cursor, room, node, tree)
}

/// What follows an expression or a target that a statement begins with. `fits` says that a row may begin with it.
#[tactic(auto, unfolding(crate::specs::Simple::tail, crate::specs::Simple::tail_of))]
fn tail(
    alloc: Global,
    cursor: &mut Cursor<'_>,
    room: u32,
    node: Node,
    tree: Expr,
    fits: bool,
) -> Result<Stmt, ParseError>
    requires node { node ≡ node_of tree }
    requires fits { fits ≡ nat_le (height_of_expr tree + 2) room }
    ensures { Reads (spec.tail readers room tree cursor.old) result cursor.new }
{
    match follow_of(cursor) {
        Follow::Comma => row(alloc, cursor, room, node, tree, fits),
        Follow::Equals => assign_one(alloc, cursor, room, tree),
        Follow::Augmented => update_one(alloc, cursor, room, tree),
        Follow::Piped => pipe(alloc, cursor, room, node, tree),
        Follow::Colon => annotate(alloc, cursor, room, target_of(tree)),
        Follow::Over => evaluate(cursor, node, tree),
    }
}

/// `print(..)` after its name.
#[tactic(auto, unfolding(crate::specs::Simple::print_call))]
fn print_call(
    alloc: Global,
    cursor: &mut Cursor<'_>,
    room: u32,
    token: &Token,
) -> Result<Stmt, ParseError>
    ensures { Reads (spec.print_call readers room token.now cursor.old) result cursor.new }
{
    cursor.expect_op(b"(".as_slice())?;
    let printed = read_printed(alloc, cursor, room.saturating_sub(1))?;
    cursor.expect_op(b")".as_slice())?;
    Ok(Stmt::Print(node_at(token), printed.into_printed()))
}

/// The name `print` as a target, and what follows it.
#[tactic(auto, using(crate::proofs::Goes::sees_goes, crate::proofs::Named::name_fits, crate::proofs::Ended::name_node), unfolding(grammar_rules::specs::Expressions::node_of))]
fn print_target(
    alloc: Global,
    cursor: &mut Cursor<'_>,
    room: u32,
    token: &Token,
) -> Result<Stmt, ParseError>
    ensures { Reads (choose spec.print_goes (within (nat_le 2 room) (spec.tail readers room (spec.print_tree token.now))) refuse cursor.old) result cursor.new }
{
    if matches!(follow_of(cursor), Follow::Piped | Follow::Over) {
        return Err(ParseError::Refused(Cause::Unexpected));
    }
    if room < 2 {
        return Err(ParseError::Refused(Cause::TooDeep));
    }
    let spelling = Items::from_slice(alloc, b"print".as_slice())?;
    let node = node_at(token);
    tail(
        alloc,
        cursor,
        room,
        node,
        Expr::Name(node, spelling),
        room >= 3,
    )
}

/// A statement that begins with the name `print`.
#[tactic(auto, unfolding(crate::specs::Simple::lead, crate::specs::Simple::after_print))]
fn print_lead(alloc: Global, cursor: &mut Cursor<'_>, room: u32) -> Result<Stmt, ParseError>
    ensures { Reads (spec.lead readers room spec.Print cursor.old) result cursor.new }
{
    let token = expect_word(cursor, b"print".as_slice())?;
    if cursor.sees_op(b"(".as_slice()) {
        print_call(alloc, cursor, room, token)
    } else {
        print_target(alloc, cursor, room, token)
    }
}

#[tactic(auto, unfolding(crate::specs::Simple::lead))]
fn pass_lead(cursor: &mut Cursor<'_>) -> Result<Stmt, ParseError>
    ensures { Reads (spec.lead readers 0 spec.Pass cursor.old) result cursor.new }
{
    let token = cursor.expect_keyword(b"pass".as_slice())?;
    Ok(Stmt::Pass(node_at(token)))
}

#[tactic(auto, unfolding(crate::specs::Simple::lead))]
fn break_lead(cursor: &mut Cursor<'_>) -> Result<Stmt, ParseError>
    ensures { Reads (spec.lead readers 0 spec.Break cursor.old) result cursor.new }
{
    let token = cursor.expect_keyword(b"break".as_slice())?;
    Ok(Stmt::Break(node_at(token)))
}

#[tactic(auto, unfolding(crate::specs::Simple::lead))]
fn continue_lead(cursor: &mut Cursor<'_>) -> Result<Stmt, ParseError>
    ensures { Reads (spec.lead readers 0 spec.Continue cursor.old) result cursor.new }
{
    let token = cursor.expect_keyword(b"continue".as_slice())?;
    Ok(Stmt::Continue(node_at(token)))
}

#[tactic(auto, unfolding(crate::specs::Simple::lead))]
fn return_lead(alloc: Global, cursor: &mut Cursor<'_>, room: u32) -> Result<Stmt, ParseError>
    ensures { Reads (spec.lead readers room spec.Return cursor.old) result cursor.new }
{
    let token = cursor.expect_keyword(b"return".as_slice())?;
    if !cursor.begins(3) {
        return Ok(Stmt::Return(node_at(token), None));
    }
    let value = read_items(alloc, cursor, room.saturating_sub(1))?;
    Ok(Stmt::Return(node_at(token), Some(value)))
}

#[tactic(auto, unfolding(crate::specs::Simple::lead))]
fn yield_lead(alloc: Global, cursor: &mut Cursor<'_>, room: u32) -> Result<Stmt, ParseError>
    ensures { Reads (spec.lead readers room spec.Yield cursor.old) result cursor.new }
{
    if room < 2 {
        return Err(ParseError::Refused(Cause::TooDeep));
    }
    let token = cursor.expect_keyword(b"yield".as_slice())?;
    let value = read_items(alloc, cursor, room - 1)?;
    Ok(Stmt::Yield(node_at(token), value))
}

/// The text in the brackets after the name of a fault, which may be empty.
#[tactic(auto, unfolding(crate::specs::Simple::fault_text))]
fn fault_text(
    alloc: Global,
    cursor: &mut Cursor<'_>,
    room: u32,
    token: &Token,
    name: Name,
) -> Result<Stmt, ParseError>
    ensures { Reads (spec.fault_text readers room token.now name cursor.old) result cursor.new }
{
    cursor.expect_op(b"(".as_slice())?;
    if !cursor.begins(3) {
        cursor.expect_op(b")".as_slice())?;
        return Ok(Stmt::Raise(node_at(token), name, None));
    }
    let text = read_expression(alloc, cursor, room.saturating_sub(1))?;
    cursor.expect_op(b")".as_slice())?;
    Ok(Stmt::Raise(node_at(token), name, Some(text.into_tree())))
}

#[tactic(auto, unfolding(crate::specs::Simple::lead))]
fn raise_lead(alloc: Global, cursor: &mut Cursor<'_>, room: u32) -> Result<Stmt, ParseError>
    ensures { Reads (spec.lead readers room spec.Raise cursor.old) result cursor.new }
{
    if room < 2 {
        return Err(ParseError::Refused(Cause::TooDeep));
    }
    let token = cursor.expect_keyword(b"raise".as_slice())?;
    let name = cursor.take_name(alloc)?;
    if cursor.sees_op(b"(".as_slice()) {
        fault_text(alloc, cursor, room, token, name)
    } else {
        Ok(Stmt::Raise(node_at(token), name, None))
    }
}

/// A comma and the text of `assert`, or nothing.
#[tactic(auto, unfolding(crate::specs::Simple::message))]
fn message(
    alloc: Global,
    cursor: &mut Cursor<'_>,
    room: u32,
    token: &Token,
    condition: Expr,
) -> Result<Stmt, ParseError>
    ensures { Reads (spec.message readers room token.now condition cursor.old) result cursor.new }
{
    if !cursor.sees_op(b",".as_slice()) {
        return Ok(Stmt::Assert(node_at(token), condition, None));
    }
    cursor.expect_op(b",".as_slice())?;
    let text = read_expression(alloc, cursor, room.saturating_sub(1))?;
    Ok(Stmt::Assert(node_at(token), condition, Some(text.into_tree())))
}

#[tactic(auto, unfolding(crate::specs::Simple::lead))]
fn assert_lead(alloc: Global, cursor: &mut Cursor<'_>, room: u32) -> Result<Stmt, ParseError>
    ensures { Reads (spec.lead readers room spec.Assert cursor.old) result cursor.new }
{
    if room < 2 {
        return Err(ParseError::Refused(Cause::TooDeep));
    }
    let token = cursor.expect_keyword(b"assert".as_slice())?;
    let condition = read_expression(alloc, cursor, room - 1)?;
    message(alloc, cursor, room, token, condition.into_tree())
}

/// A statement that begins with an expression.
#[tactic(auto, unfolding(crate::specs::Simple::lead))]
fn value_lead(alloc: Global, cursor: &mut Cursor<'_>, room: u32) -> Result<Stmt, ParseError>
    ensures { Reads (spec.lead readers room spec.Value cursor.old) result cursor.new }
{
    let first = read_expression(alloc, cursor, room.saturating_sub(1))?;
    let node = first.node();
    let fits = room >= 2 && first.height() <= room as usize - 2;
    tail(alloc, cursor, room, node, first.into_tree(), fits)
}

/// A simple statement that is at most `room` high. The cursor stands after it, or at the token that is refused.
#[tactic(auto, unfolding(crate::specs::Simple::simple, crate::specs::Simple::lead))]
pub fn read_simple(alloc: Global, cursor: &mut Cursor<'_>, room: u32) -> Result<Stmt, ParseError>
    ensures { Reads (spec.simple readers room cursor.old) result cursor.new }
{
    match lead_of(cursor) {
        Lead::Pass => pass_lead(cursor),
        Lead::Break => break_lead(cursor),
        Lead::Continue => continue_lead(cursor),
        Lead::Return => return_lead(alloc, cursor, room),
        Lead::Yield => yield_lead(alloc, cursor, room),
        Lead::Raise => raise_lead(alloc, cursor, room),
        Lead::Assert => assert_lead(alloc, cursor, room),
        Lead::Print => print_lead(alloc, cursor, room),
        Lead::Value => value_lead(alloc, cursor, room),
    }
}
