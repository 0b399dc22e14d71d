ghost use Rattle.std.specs.Prelude.{◌≡◌, ◌∷◌, ◌++◌, [], true, false, nat_lt, length, IfOk, None, Some};
ghost use Rattle.parse_laws.specs.Parser.{sees, has, repeat, row_turn, and_then, pure};
ghost use Rattle.parse_laws.specs.Loops.{row_test};
ghost use Rattle.grammar_rules.specs.Words.{is_comma, most_items};
ghost use Rattle.parse_expressions.specs.Code.{Reads};
ghost use Rattle.parse_statements.specs.Stages as spec;
ghost use Rattle.grammar_rules.specs.Simple.{joints};
ghost use Rattle.grammar_rules.specs.Words.{look_up};
ghost use Rattle.parse_statements.specs.Many.{many};
ghost use Rattle.parse_statements.specs.Views.{bare_stage};
ghost use Rattle.parse_statements.specs.Code.{readers};

use crate::operator::{sees_joint, take_joint};
use crate::print::{nothing, read_printed};
use crate::token::{MOST_ITEMS, spells};
use codon_base::Spelling;
use parse_expressions::{Cursor, ParseError, read_expression};
use source_trees::{Expr, Name, Stage, StageForm};
use sqlite_items::Items;
use std::alloc::{AllocError, Global};
use std::marker::Model;

/// The arguments of a stage. Contracts see the list of them, with `None` for the piped value.
#[derive(Drop)]
pub struct Arguments {
    before: Items<Expr>,
    /// `...` stands.
    is_placed: bool,
    after: Items<Expr>,
}

impl Model for Arguments {
    ghost use Rattle.std.specs.Prelude.{◌≡◌, List, Option};
    ghost use Rattle.source_trees.specs.declared.expression.Expr.{Expr};
    ghost use Rattle.source_trees.specs.contracts.expression.Expr as e;
    ghost use Rattle.std.specs.Coded.{codes};
    ghost use Rattle.parse_statements.specs.Settings.{placed, IsPlaced};

    ghost Value = { List (Option Expr) };

    ghost coded = { Prim.hlevel (codes, e.the_row.coded) };

    ghost view = { λ a. placed a.before a.is_placed a.after };

    ghost invariant = { λ a. IsPlaced a.is_placed a.after };
}

impl Arguments {
    fn new(alloc: Global) -> Arguments
        ensures { result ≡ [] }
    {
        Arguments {
            before: Items::new(alloc),
            is_placed: false,
            after: Items::new(alloc),
        }
    }

    /// Whether one more written argument may follow.
    #[tactic(auto, using(crate::proofs::Placed::written_is))]
    fn takes_one(&self) -> bool
        ensures { result ≡ nat_lt (length (spec.filled self.now)) most_items }
    {
        self.before.len() <= MOST_ITEMS && self.after.len() < MOST_ITEMS - self.before.len()
    }

    /// Whether the piped value stands.
    #[tactic(auto, using(crate::proofs::Placed::piped_is))]
    fn has_piped(&self) -> bool
        ensures { result ≡ spec.has_piped self.now }
    {
        self.is_placed
    }

    /// Puts an argument at the end. The piped value stands once at most.
    #[tactic(auto, using(crate::proofs::Placed::push_before, crate::proofs::Placed::push_after, crate::proofs::Placed::push_piped, crate::proofs::Placed::piped_is))]
    fn push(self, item: Option<Expr>) -> Result<Arguments, AllocError>
        requires { item ≡ None → spec.has_piped self ≡ false }
        ensures { IfOk result (λ r. r ≡ self ++ item ∷ []) }
    {
        let Arguments {
            mut before,
            is_placed,
            mut after,
        } = self;
        let Some(tree) = item else {
            return Ok(Arguments {
                before,
                is_placed: true,
                after,
            });
        };
        if is_placed {
            after.push(tree)?;
        } else {
            before.push(tree)?;
        }
        Ok(Arguments {
            before,
            is_placed,
            after,
        })
    }

    /// The call of this name with these arguments and the piped value between them, which comes first where it is not written.
    #[tactic(auto, using(crate::proofs::Placed::cut_unplaced, crate::proofs::Placed::cut_placed))]
    fn called(self, alloc: Global, spelling: Spelling) -> StageForm
        ensures { result ≡ spec.called spelling self }
    {
        let Arguments {
            before,
            is_placed,
            after,
        } = self;
        if is_placed {
            StageForm::Call(spelling, before, after)
        } else {
            StageForm::Call(spelling, Items::new(alloc), before)
        }
    }
}

/// Arguments and whether one may follow without a comma.
type OpenArguments = (Arguments, bool);

/// An argument: an expression, or none where `...` stands.
#[tactic(auto, unfolding(crate::specs::Stages::argument))]
fn argument(alloc: Global, cursor: &mut Cursor<'_>, room: u32) -> Result<Option<Expr>, ParseError>
    ensures { Reads (spec.argument readers room cursor.old) result cursor.new }
{
    if cursor.sees_op(b"...".as_slice()) {
        cursor.expect_op(b"...".as_slice())?;
        return Ok(None);
    }
    let tree = read_expression(alloc, cursor, room)?;
    Ok(Some(tree.into_tree()))
}

/// Whether the next token is a comma, or begins an argument where one may follow.
fn goes_on(cursor: &Cursor<'_>, row: &OpenArguments) -> bool
    ensures { result ≡ sees (row_test is_comma spec.starts_argument row.now) cursor.now }
{
    if !row.1 {
        return cursor.sees_op(b",".as_slice());
    }
    if row.0.takes_one() && cursor.begins(3) {
        return true;
    }
    !row.0.has_piped() && cursor.sees_op(b"...".as_slice())
}

/// An argument where one may follow, and else a comma.
#[tactic(auto, using(crate::proofs::Piped::turn_piped))]
fn argument_turn(
    alloc: Global,
    cursor: &mut Cursor<'_>,
    room: u32,
    row: OpenArguments,
) -> Result<OpenArguments, ParseError>
    requires { sees (row_test is_comma spec.starts_argument row) cursor.old ≡ true }
    ensures { Reads (row_turn is_comma (λ _. spec.argument readers room) (λ v z. v ++ z ∷ []) row cursor.old) result cursor.new }
{
    let (arguments, is_open) = row;
    if !is_open {
        cursor.expect_op(b",".as_slice())?;
        return Ok((arguments, true));
    }
    let item = argument(alloc, cursor, room)?;
    Ok((arguments.push(item)?, false))
}

/// The arguments after the first one and a comma.
fn arguments_on(
    alloc: Global,
    cursor: &mut Cursor<'_>,
    room: u32,
    first: Arguments,
) -> Result<OpenArguments, ParseError>
    ensures { Reads (repeat (row_test is_comma spec.starts_argument) (row_turn is_comma (λ _. spec.argument readers room) (λ v z. v ++ z ∷ [])) (length cursor.old) (first, true) cursor.old) result cursor.new }
{
    let mut row = (first, true);
    'turn: for _turn in 0..cursor.left() {
        if !goes_on(cursor, &row) {
            return Ok(row);
        }
        row = argument_turn(alloc, cursor, room, row)?;
    }
    Ok(row)
}

/// The arguments, the first of which stands.
#[tactic(auto, unfolding(crate::specs::Stages::more_arguments))]
fn more_arguments(
    alloc: Global,
    cursor: &mut Cursor<'_>,
    room: u32,
    first: Option<Expr>,
) -> Result<Arguments, ParseError>
    ensures { Reads (spec.more_arguments readers room first cursor.old) result cursor.new }
{
    let arguments = Arguments::new(alloc).push(first)?;
    if !cursor.sees_op(b",".as_slice()) {
        return Ok(arguments);
    }
    cursor.expect_op(b",".as_slice())?;
    let (arguments, _is_open) = arguments_on(alloc, cursor, room, arguments)?;
    Ok(arguments)
}

/// The arguments of a stage in its brackets.
#[tactic(auto, unfolding(crate::specs::Stages::stage_arguments))]
fn stage_arguments(
    alloc: Global,
    cursor: &mut Cursor<'_>,
    room: u32,
) -> Result<Arguments, ParseError>
    ensures { Reads (spec.stage_arguments readers room cursor.old) result cursor.new }
{
    if !cursor.begins(3) && !cursor.sees_op(b"...".as_slice()) {
        return Ok(Arguments::new(alloc));
    }
    let first = argument(alloc, cursor, room)?;
    more_arguments(alloc, cursor, room, first)
}

#[tactic(auto, unfolding(crate::specs::Stages::call_stage))]
fn call_stage(
    alloc: Global,
    cursor: &mut Cursor<'_>,
    room: u32,
    spelling: Spelling,
) -> Result<StageForm, ParseError>
    ensures { Reads (spec.call_stage readers room spelling cursor.old) result cursor.new }
{
    cursor.expect_op(b"(".as_slice())?;
    let arguments = stage_arguments(alloc, cursor, room)?;
    cursor.expect_op(b")".as_slice())?;
    Ok(arguments.called(alloc, spelling))
}

#[tactic(auto, unfolding(crate::specs::Stages::print_stage))]
fn print_stage(alloc: Global, cursor: &mut Cursor<'_>, room: u32) -> Result<StageForm, ParseError>
    ensures { Reads (spec.print_stage readers room cursor.old) result cursor.new }
{
    cursor.expect_op(b"(".as_slice())?;
    let printed = read_printed(alloc, cursor, room)?;
    cursor.expect_op(b")".as_slice())?;
    Ok(StageForm::Print(printed.into_printed()))
}

/// The stage that a name makes without brackets.
fn bare_stage(alloc: Global, spelling: Spelling) -> StageForm
    ensures { result ≡ bare_stage spelling }
{
    if spells(&spelling, b"print".as_slice()) {
        StageForm::Print(nothing(alloc))
    } else if spells(&spelling, b"iter".as_slice()) {
        StageForm::Iter
    } else {
        StageForm::Call(spelling, Items::new(alloc), Items::new(alloc))
    }
}

/// What follows the name of a stage.
#[tactic(auto, unfolding(crate::specs::Stages::stage_after), using(crate::proofs::Bare::stage_bare))]
fn stage_after(
    alloc: Global,
    cursor: &mut Cursor<'_>,
    room: u32,
    spelling: Spelling,
) -> Result<StageForm, ParseError>
    ensures { Reads (spec.stage_after readers room spelling cursor.old) result cursor.new }
{
    if !cursor.sees_op(b"(".as_slice()) {
        return Ok(bare_stage(alloc, spelling));
    }
    if spells(&spelling, b"print".as_slice()) {
        print_stage(alloc, cursor, room)
    } else {
        call_stage(alloc, cursor, room, spelling)
    }
}

/// A stage with its operator.
#[tactic(auto, unfolding(crate::specs::Stages::stage))]
fn stage(alloc: Global, cursor: &mut Cursor<'_>, room: u32) -> Result<Stage, ParseError>
    ensures { Reads (spec.stage readers room cursor.old) result cursor.new }
{
    let joint = take_joint(cursor)?;
    let Name { node, spelling } = cursor.take_name(alloc)?;
    let form = stage_after(alloc, cursor, room, spelling)?;
    Ok(Stage { node, joint, form })
}

/// One more stage behind those that stand.
fn stage_turn(
    alloc: Global,
    cursor: &mut Cursor<'_>,
    room: u32,
    stages: Items<Stage>,
) -> Result<Items<Stage>, ParseError>
    ensures { Reads (and_then (spec.stage readers room cursor.old) (λ y. pure (stages ++ y ∷ []))) result cursor.new }
{
    let one = stage(alloc, cursor, room)?;
    let mut stages = stages;
    stages.push(one)?;
    Ok(stages)
}

/// The stages that follow, as long as an operator stands.
fn more_stages(
    alloc: Global,
    cursor: &mut Cursor<'_>,
    room: u32,
) -> Result<Items<Stage>, ParseError>
    ensures { Reads (many (has (look_up joints)) (spec.stage readers room) cursor.old) result cursor.new }
{
    let mut stages = Items::new(alloc);
    'turn: for _turn in 0..cursor.left() {
        if !sees_joint(cursor) {
            return Ok(stages);
        }
        stages = stage_turn(alloc, cursor, room, stages)?;
    }
    Ok(stages)
}

/// One stage or more.
#[tactic(auto, unfolding(crate::specs::Stages::stages, crate::specs::Many::one_or_more))]
pub fn read_stages(
    alloc: Global,
    cursor: &mut Cursor<'_>,
    room: u32,
) -> Result<Items<Stage>, ParseError>
    ensures { Reads (spec.stages readers room cursor.old) result cursor.new }
{
    let first = stage(alloc, cursor, room)?;
    let mut stages = Items::new(alloc);
    stages.push(first)?;
    let more = more_stages(alloc, cursor, room)?;
    stages.append(more)?;
    Ok(stages)
}
