ghost use Rattle.std.specs.Prelude.{◌≡◌, ◌-◌, ◌∷◌, ◌++◌, [], true, length, IfOk, Some};
ghost use Rattle.parse_laws.specs.Parser.{sees, repeat, row_turn};
ghost use Rattle.parse_laws.specs.Loops.{row_test};
ghost use Rattle.source_trees.specs.declared.expression.Commas.TheVariants.{Bare};
ghost use Rattle.grammar_rules.specs.Expressions.{node_of};
ghost use Rattle.grammar_rules.specs.Simple.{node_of_target, node_of_targets};
ghost use Rattle.grammar_rules.specs.Words.{is_comma};
ghost use Rattle.parse_expressions.specs.Code.{Reads};
ghost use Rattle.parse_statements.specs.Targets.{is_pointed, is_print, target_of, targets_of};
ghost use Rattle.parse_statements.specs.Heads as spec;
ghost use Rattle.parse_statements.specs.Code.{readers};

use crate::operator::take_update;
use crate::row::read_items;
use crate::target::{
    boxed_target, is_pointed, is_print, node_of_target, node_of_targets, one_target,
    several_targets,
};
use crate::token::{MOST_ITEMS, expect_word, sees_word};
use parse_expressions::{Cursor, Measured, ParseError, node_at, read_expression, read_target};
use parse_laws::Cause;
use source_trees::{BinaryOp, Commas, Expr, Node, Stmt, Target, Targets};
use sqlite_items::{Boxed, Items};
use std::alloc::{AllocError, Global};
use std::marker::Model;

/// Items before `=` or the end of a statement, and whether each is a target and none the name `print`. Contracts see the list of them.
#[derive(Drop)]
pub struct Heads {
    items: Items<Expr>,
    /// Each is a target.
    pointed: bool,
    /// None is the name `print`.
    valued: bool,
}

impl Model for Heads {
    ghost use Rattle.std.specs.Prelude.{◌≡◌, List};
    ghost use Rattle.source_trees.specs.declared.expression.Expr.{Expr};
    ghost use Rattle.source_trees.specs.contracts.expression.Expr as e;
    ghost use Rattle.std.specs.Coded.{codes};
    ghost use Rattle.parse_statements.specs.Heads.{all_pointed, no_print};

    ghost Value = { List Expr };

    ghost coded = { Prim.hlevel (codes, e.the_row.coded) };

    ghost view = { λ h. h.items };

    ghost invariant = { λ h. (h.pointed ≡ all_pointed h.items) × (h.valued ≡ no_print h.items) };
}

impl Heads {
    fn new(alloc: Global) -> Heads
        ensures { result ≡ [] }
    {
        Heads {
            items: Items::new(alloc),
            pointed: true,
            valued: true,
        }
    }

    /// Puts an item at the end.
    #[tactic(auto, using(crate::proofs::Pushed::pointed_push, crate::proofs::Pushed::print_push))]
    fn push(self, item: Expr) -> Result<Heads, AllocError>
        ensures { IfOk result (λ r. r ≡ self ++ item ∷ []) }
    {
        let Heads {
            mut items,
            pointed,
            valued,
        } = self;
        let pointed = pointed && is_pointed(&item);
        let valued = valued && !is_print(&item);
        items.push(item)?;
        Ok(Heads {
            items,
            pointed,
            valued,
        })
    }

    /// Whether each is a target.
    fn all_pointed(&self) -> bool
        ensures { result ≡ spec.all_pointed self.now }
    {
        self.pointed
    }

    /// Whether they make a tuple, and one more expression may follow.
    fn takes_value(&self) -> bool
        ensures { result ≡ spec.takes_value self.now }
    {
        self.items.len() < MOST_ITEMS && self.valued
    }

    /// Whether they make a tuple.
    fn is_value(&self) -> bool
        ensures { result ≡ spec.is_value self.now }
    {
        self.items.len() <= MOST_ITEMS && self.valued
    }

    fn into_items(self) -> Items<Expr>
        ensures { result ≡ self }
    {
        self.items
    }
}

/// Items and whether one may follow without a comma.
type OpenHeads = (Heads, bool);

/// The name `print`, which is a target and no expression.
#[tactic(auto, unfolding(crate::specs::Heads::print_name))]
pub fn print_name(alloc: Global, cursor: &mut Cursor<'_>) -> Result<Expr, ParseError>
    ensures { Reads (spec.print_name readers cursor.old) result cursor.new }
{
    let token = expect_word(cursor, b"print".as_slice())?;
    let spelling = Items::from_slice(alloc, b"print".as_slice())?;
    Ok(Expr::Name(node_at(token), spelling))
}

/// An item after these.
#[tactic(auto, unfolding(crate::specs::Heads::head_item))]
fn head_item(
    alloc: Global,
    cursor: &mut Cursor<'_>,
    room: u32,
    heads: &Heads,
) -> Result<Expr, ParseError>
    ensures { Reads (spec.head_item readers room heads.now cursor.old) result cursor.new }
{
    let is_printed = sees_word(cursor, b"print".as_slice());
    if heads.takes_value() {
        if heads.all_pointed() && is_printed {
            return print_name(alloc, cursor);
        }
        let tree = read_expression(alloc, cursor, room)?;
        return Ok(tree.into_tree());
    }
    if is_printed {
        return print_name(alloc, cursor);
    }
    let tree = read_target(alloc, cursor, room)?;
    Ok(tree.into_tree())
}

/// Whether the next token is a comma, or begins an item where one may follow.
fn goes_on(cursor: &Cursor<'_>, row: &OpenHeads) -> bool
    ensures { result ≡ sees (row_test is_comma spec.starts_head row.now) cursor.now }
{
    if !row.1 {
        return cursor.sees_op(b",".as_slice());
    }
    if row.0.takes_value() && cursor.begins(3) {
        return true;
    }
    row.0.all_pointed() && (cursor.begins(1) || sees_word(cursor, b"print".as_slice()))
}

/// An item where one may follow, and else a comma.
fn head_turn(
    alloc: Global,
    cursor: &mut Cursor<'_>,
    room: u32,
    row: OpenHeads,
) -> Result<OpenHeads, ParseError>
    ensures { Reads (row_turn is_comma (spec.head_item readers room) (λ v y. v ++ y ∷ []) row cursor.old) result cursor.new }
{
    let (heads, is_open) = row;
    if !is_open {
        cursor.expect_op(b",".as_slice())?;
        return Ok((heads, true));
    }
    let item = head_item(alloc, cursor, room, &heads)?;
    Ok((heads.push(item)?, false))
}

/// The items after the first one and a comma.
fn more_heads(
    alloc: Global,
    cursor: &mut Cursor<'_>,
    room: u32,
    first: Heads,
) -> Result<OpenHeads, ParseError>
    ensures { Reads (repeat (row_test is_comma spec.starts_head) (row_turn is_comma (spec.head_item readers room) (λ v y. v ++ y ∷ [])) (length cursor.old) (first, true) cursor.old) result cursor.new }
{
    let mut row = (first, true);
    'turn: for _turn in 0..cursor.left() {
        if !goes_on(cursor, &row) {
            return Ok(row);
        }
        row = head_turn(alloc, cursor, room, row)?;
    }
    Ok(row)
}

/// The assignment of a value to these targets.
fn assigned(targets: Boxed<Targets>, value: Expr) -> Stmt
    ensures { result ≡ Stmt.Assign (node_of_targets targets) targets value }
{
    let node = node_of_targets(targets.get());
    Stmt::Assign(node, targets.into_inner(), value)
}

/// `=` and what is assigned to these targets.
#[tactic(auto, unfolding(crate::specs::Heads::assign))]
fn assign_to(
    alloc: Global,
    cursor: &mut Cursor<'_>,
    room: u32,
    targets: Boxed<Targets>,
) -> Result<Stmt, ParseError>
    ensures { Reads (spec.assign readers room (Some targets) cursor.old) result cursor.new }
{
    cursor.expect_op(b"=".as_slice())?;
    let low = room.saturating_sub(1);
    let value = read_items(alloc, cursor, low)?;
    let statement = assigned(targets, value);
    Ok(statement)
}

/// The same where what stands before `=` may be assigned to.
#[tactic(auto, unfolding(crate::specs::Heads::assign))]
fn assign(
    alloc: Global,
    cursor: &mut Cursor<'_>,
    room: u32,
    targets: Option<Boxed<Targets>>,
) -> Result<Stmt, ParseError>
    ensures { Reads (spec.assign readers room targets cursor.old) result cursor.new }
{
    match targets {
        Some(targets) => assign_to(alloc, cursor, room, targets),
        None => Err(ParseError::Refused(Cause::Unexpected)),
    }
}

/// The assignment whose left side is this expression.
pub fn assign_one(
    alloc: Global,
    cursor: &mut Cursor<'_>,
    room: u32,
    tree: Expr,
) -> Result<Stmt, ParseError>
    ensures { Reads (spec.assign readers room (spec.one_target (target_of tree)) cursor.old) result cursor.new }
{
    let targets = one_target(alloc, tree)?;
    assign(alloc, cursor, room, targets)
}

/// The update of this target by an operator and its right side.
fn updated(target: Boxed<Target>, op: BinaryOp, value: Expr) -> Stmt
    ensures { result ≡ Stmt.Update (node_of_target target) target op value }
{
    let node = node_of_target(target.get());
    Stmt::Update(node, target.into_inner(), op, value)
}

/// An operator with `=` and its right side, behind this target.
#[tactic(auto, unfolding(crate::specs::Heads::update))]
fn update_to(
    alloc: Global,
    cursor: &mut Cursor<'_>,
    room: u32,
    target: Boxed<Target>,
) -> Result<Stmt, ParseError>
    ensures { Reads (spec.update readers room (Some target) cursor.old) result cursor.new }
{
    let op = take_update(cursor)?;
    let low = room.saturating_sub(1);
    let value = read_items(alloc, cursor, low)?;
    let statement = updated(target, op, value);
    Ok(statement)
}

/// The same where what stands before the operator may be assigned to.
#[tactic(auto, unfolding(crate::specs::Heads::update))]
fn update(
    alloc: Global,
    cursor: &mut Cursor<'_>,
    room: u32,
    target: Option<Boxed<Target>>,
) -> Result<Stmt, ParseError>
    ensures { Reads (spec.update readers room target cursor.old) result cursor.new }
{
    match target {
        Some(target) => update_to(alloc, cursor, room, target),
        None => Err(ParseError::Refused(Cause::Unexpected)),
    }
}

/// The update of what this expression is.
pub fn update_one(
    alloc: Global,
    cursor: &mut Cursor<'_>,
    room: u32,
    tree: Expr,
) -> Result<Stmt, ParseError>
    ensures { Reads (spec.update readers room (target_of tree) cursor.old) result cursor.new }
{
    let target = boxed_target(alloc, tree)?;
    update(alloc, cursor, room, target)
}

/// The tuple of these items, where they make one, as a statement.
#[tactic(auto, using(crate::proofs::Ended::row_tuple), unfolding(crate::specs::Heads::evaluate, grammar_rules::specs::Expressions::node_of))]
fn evaluate_row(cursor: &Cursor<'_>, node: Node, heads: Heads) -> Result<Stmt, ParseError>
    ensures { Reads (spec.evaluate readers (spec.is_value heads) (Expr.Tuple node Bare heads) cursor.now) result cursor.now }
{
    if !heads.is_value() {
        return Err(ParseError::Refused(Cause::Unexpected));
    }
    let tree = Expr::Tuple(node, Commas::Bare, heads.into_items());
    Ok(Stmt::Evaluate(node, tree))
}

/// The end of items with commas, the first of which has this node.
#[tactic(auto, using(crate::proofs::Ended::row_value, crate::proofs::Ended::row_targets))]
fn row_end(
    alloc: Global,
    cursor: &mut Cursor<'_>,
    room: u32,
    node: Node,
    heads: Heads,
) -> Result<Stmt, ParseError>
    ensures { (x : Expr) → node_of x ≡ node → Reads (spec.row_end readers room x heads cursor.old) result cursor.new }
{
    if !cursor.sees_op(b"=".as_slice()) {
        return evaluate_row(cursor, node, heads);
    }
    let targets = several_targets(alloc, heads.into_items())?;
    assign(alloc, cursor, room, targets)
}

/// The statement that begins with this item, from its first comma on.
#[tactic(auto, unfolding(crate::specs::Heads::row_after))]
pub fn row_after(
    alloc: Global,
    cursor: &mut Cursor<'_>,
    room: u32,
    node: Node,
    first: Expr,
) -> Result<Stmt, ParseError>
    requires { node ≡ node_of first }
    ensures { Reads (spec.row_after readers room first cursor.old) result cursor.new }
{
    let heads = Heads::new(alloc).push(first)?;
    cursor.expect_op(b",".as_slice())?;
    let low = room.saturating_sub(2);
    let (heads, _is_open) = more_heads(alloc, cursor, low, heads)?;
    row_end(alloc, cursor, room, node, heads)
}
