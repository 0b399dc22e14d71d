ghost use Rattle.std.specs.Prelude.{◌≡◌, ◌∷◌, ◌++◌, [], IfOk};
ghost use Rattle.parse_laws.specs.Parser.{within, pure, and_then};
ghost use Rattle.grammar_rules.specs.Levels.{word_of};
ghost use Rattle.grammar_rules.specs.Words.{is_keyword};
ghost use Rattle.parse_expressions.specs.Reading as spec;
ghost use Rattle.parse_expressions.specs.Splits.{otherwise};
ghost use Rattle.parse_expressions.specs.Code.{Reads, Subs};

use crate::cursor::node_at;
use crate::measured::{self, Comparisons, Measured, Row};
use crate::reader::Expressions;
use crate::{Cursor, Form, ParseError};
use grammar_rules::{Junction, Rank};
use parse_laws::Cause;
use source_trees::Comparator;
use std::alloc::{AllocError, Global};

/// A first operand and the operands beside it.
type Operands = (Measured, Row);

/// A first operand and the comparisons beside it.
type Compared = (Measured, Comparisons);

/// The keyword of a junction.
fn word_of(junction: Junction) -> &'static [u8]
    ensures { result.now ≡ word_of junction }
{
    match junction {
        Junction::Or => b"or".as_slice(),
        Junction::And => b"and".as_slice(),
    }
}

/// The first operand alone, or the node of several.
#[tactic(auto, using(crate::proofs::Beside::joined_none, crate::proofs::Beside::joined_some))]
fn join_all(
    alloc: Global,
    junction: Junction,
    first: Measured,
    row: Row,
) -> Result<Measured, AllocError>
    ensures { IfOk result (λ x. x ≡ spec.join_all junction (first, row)) }
{
    if row.len() == 0 {
        return Ok(first);
    }
    let node = first.node();
    let all = Row::new(alloc).push(first)?.append(row)?;
    Ok(measured::joined(alloc, junction, node, all)?)
}

/// The first operand alone, or the node of a chain of comparisons.
#[tactic(auto, using(crate::proofs::Beside::compared_none, crate::proofs::Beside::compared_some))]
fn compare_all(
    alloc: Global,
    first: Measured,
    comparisons: Comparisons,
) -> Result<Measured, AllocError>
    ensures { IfOk result (λ x. x ≡ spec.compare_all (first, comparisons)) }
{
    if comparisons.is_empty() {
        return Ok(first);
    }
    let node = first.node();
    Ok(measured::compare(alloc, node, first, comparisons)?)
}

impl<'a> Cursor<'a> {
    /// Takes a comparator.
    #[tactic(auto, unfolding(crate::specs::Reading::comparator))]
    fn comparator(&mut self) -> Result<Comparator, ParseError>
        ensures { Reads (spec.comparator self.old) result self.new }
    {
        if !self.sees_keyword(b"not".as_slice()) {
            return self.take_symbol();
        }
        self.expect_keyword(b"not".as_slice())?;
        self.expect_keyword(b"in".as_slice())?;
        Ok(Comparator::NotIn)
    }
}

impl<F: Fn(Global, &mut Cursor<'_>, u32, Form) -> Result<Measured, ParseError>> Expressions<F> {
    /// A comparator and its right operand beside those that stand, if there is room.
    #[tactic(auto, unfolding(crate::specs::Reading::comparison), using(crate::proofs::Beside::first_fits, crate::proofs::Beside::next_fits))]
    fn comparison_turn(
        &self,
        cursor: &mut Cursor<'_>,
        beside: Compared,
    ) -> Result<Compared, ParseError>
        requires { Subs self.now.room (F.pre self.now.sub) (F.post self.now.sub) }
        ensures { Reads (within (spec.fits_more self.now.room (spec.read self.now.room) beside) (λ ts. and_then (spec.comparison self.now.room (spec.read self.now.room) ts) (λ y. pure (beside.0, beside.1 ++ y ∷ []))) cursor.old) result cursor.new }
    {
        let (first, comparisons) = beside;
        if comparisons.is_empty() && first.height() > self.room as usize {
            return Err(ParseError::Refused(Cause::TooDeep));
        }
        let comparator = cursor.comparator()?;
        let right = self.sub(cursor, Form::Ranked(Rank::BitOr))?;
        let comparisons = comparisons.push(comparator, right)?;
        Ok((first, comparisons))
    }

    /// The comparisons beside a first operand.
    fn comparisons(&self, cursor: &mut Cursor<'_>, first: Measured) -> Result<Compared, ParseError>
        requires { Subs self.now.room (F.pre self.now.sub) (F.post self.now.sub) }
        ensures { Reads (spec.several self.now.room (spec.read self.now.room) spec.compares (spec.comparison self.now.room (spec.read self.now.room)) first cursor.old) result cursor.new }
    {
        let mut beside = (first, Comparisons::new(self.alloc));
        'turn: for _turn in 0..cursor.left() {
            if !cursor.compares() {
                return Ok(beside);
            }
            beside = self.comparison_turn(cursor, beside)?;
        }
        Ok(beside)
    }

    /// A chain of comparisons.
    #[tactic(auto, unfolding(crate::specs::Reading::compared))]
    pub fn compared(&self, cursor: &mut Cursor<'_>) -> Result<Measured, ParseError>
        requires { Subs self.now.room (F.pre self.now.sub) (F.post self.now.sub) }
        ensures { Reads (spec.compared self.now.room (spec.read self.now.room) cursor.old) result cursor.new }
    {
        let first = self.bit_or(cursor)?;
        let (first, comparisons) = self.comparisons(cursor, first)?;
        let tree = compare_all(self.alloc, first, comparisons)?;
        Ok(tree)
    }

    /// `not` and what it negates.
    #[tactic(auto, unfolding(crate::specs::Reading::negation))]
    pub fn negation(&self, cursor: &mut Cursor<'_>) -> Result<Measured, ParseError>
        requires { Subs self.now.room (F.pre self.now.sub) (F.post self.now.sub) }
        ensures { Reads (spec.negation self.now.room (spec.read self.now.room) cursor.old) result cursor.new }
    {
        if !cursor.sees_keyword(b"not".as_slice()) {
            return self.compared(cursor);
        }
        if self.room < 1 {
            return Err(ParseError::Refused(Cause::TooDeep));
        }
        let token = cursor.expect_keyword(b"not".as_slice())?;
        let operand = self.sub(cursor, Form::Negation)?;
        let tree = measured::inverse(self.alloc, node_at(token), operand)?;
        Ok(tree)
    }

    /// The word of a junction and an operand beside those that stand, if there is room.
    #[tactic(auto, unfolding(crate::specs::Reading::joint_after), using(crate::proofs::Beside::first_joint_fits, crate::proofs::Beside::next_joint_fits))]
    fn joint_turn(
        &self,
        cursor: &mut Cursor<'_>,
        junction: Junction,
        beside: Operands,
    ) -> Result<Operands, ParseError>
        requires { Subs self.now.room (F.pre self.now.sub) (F.post self.now.sub) }
        ensures { Reads (within (spec.fits_more self.now.room (spec.read self.now.room) beside) (λ ts. and_then (spec.joint_after self.now.room (spec.read self.now.room) junction ts) (λ y. pure (beside.0, beside.1 ++ y ∷ []))) cursor.old) result cursor.new }
    {
        let (first, row) = beside;
        if row.len() == 0 && first.height() > self.room as usize {
            return Err(ParseError::Refused(Cause::TooDeep));
        }
        cursor.expect_keyword(word_of(junction))?;
        let operand = self.sub(cursor, Form::Joint(junction))?;
        let row = row.push(operand)?;
        Ok((first, row))
    }

    /// The operands beside a first one.
    fn joints(
        &self,
        cursor: &mut Cursor<'_>,
        junction: Junction,
        first: Measured,
    ) -> Result<Operands, ParseError>
        requires { Subs self.now.room (F.pre self.now.sub) (F.post self.now.sub) }
        ensures { Reads (spec.several self.now.room (spec.read self.now.room) (is_keyword (word_of junction)) (spec.joint_after self.now.room (spec.read self.now.room) junction) first cursor.old) result cursor.new }
    {
        let mut beside = (first, Row::new(self.alloc));
        'turn: for _turn in 0..cursor.left() {
            if !cursor.sees_keyword(word_of(junction)) {
                return Ok(beside);
            }
            beside = self.joint_turn(cursor, junction, beside)?;
        }
        Ok(beside)
    }

    /// Operands with `and` between.
    #[tactic(auto, unfolding(crate::specs::Reading::conjunction))]
    pub fn conjunction(&self, cursor: &mut Cursor<'_>) -> Result<Measured, ParseError>
        requires { Subs self.now.room (F.pre self.now.sub) (F.post self.now.sub) }
        ensures { Reads (spec.conjunction self.now.room (spec.read self.now.room) cursor.old) result cursor.new }
    {
        let first = self.negation(cursor)?;
        let (first, row) = self.joints(cursor, Junction::And, first)?;
        let tree = join_all(self.alloc, Junction::And, first, row)?;
        Ok(tree)
    }

    /// Operands with `or` between.
    #[tactic(auto, unfolding(crate::specs::Reading::disjunction))]
    pub fn disjunction(&self, cursor: &mut Cursor<'_>) -> Result<Measured, ParseError>
        requires { Subs self.now.room (F.pre self.now.sub) (F.post self.now.sub) }
        ensures { Reads (spec.disjunction self.now.room (spec.read self.now.room) cursor.old) result cursor.new }
    {
        let first = self.conjunction(cursor)?;
        let (first, row) = self.joints(cursor, Junction::Or, first)?;
        let tree = join_all(self.alloc, Junction::Or, first, row)?;
        Ok(tree)
    }

    /// What follows the condition of a conditional expression.
    #[tactic(auto, unfolding(crate::specs::Splits::otherwise))]
    fn otherwise(
        &self,
        cursor: &mut Cursor<'_>,
        value: Measured,
        condition: Measured,
    ) -> Result<Measured, ParseError>
        requires { Subs self.now.room (F.pre self.now.sub) (F.post self.now.sub) }
        ensures { Reads (otherwise self.now.room (spec.read self.now.room) value condition cursor.old) result cursor.new }
    {
        cursor.expect_keyword(b"else".as_slice())?;
        let other = self.sub(cursor, Form::Whole)?;
        let node = value.node();
        let tree = measured::conditional(self.alloc, node, value, condition, other)?;
        Ok(tree)
    }

    /// What follows the value of a conditional expression.
    #[tactic(auto, unfolding(crate::specs::Reading::conditional, crate::specs::Splits::otherwise))]
    fn conditional(&self, cursor: &mut Cursor<'_>, value: Measured) -> Result<Measured, ParseError>
        requires { Subs self.now.room (F.pre self.now.sub) (F.post self.now.sub) }
        ensures { Reads (spec.conditional self.now.room (spec.read self.now.room) value cursor.old) result cursor.new }
    {
        cursor.expect_keyword(b"if".as_slice())?;
        let condition = self.sub(cursor, Form::Joined(Junction::Or))?;
        self.otherwise(cursor, value, condition)
    }

    /// Any expression.
    #[tactic(auto, unfolding(crate::specs::Reading::whole))]
    pub fn whole(&self, cursor: &mut Cursor<'_>) -> Result<Measured, ParseError>
        requires { Subs self.now.room (F.pre self.now.sub) (F.post self.now.sub) }
        ensures { Reads (spec.whole self.now.room (spec.read self.now.room) cursor.old) result cursor.new }
    {
        let value = self.disjunction(cursor)?;
        if !cursor.sees_keyword(b"if".as_slice()) {
            return Ok(value);
        }
        if value.height() > self.room as usize {
            return Err(ParseError::Refused(Cause::TooDeep));
        }
        self.conditional(cursor, value)
    }

    /// An expression of a form.
    pub fn at_form(&self, cursor: &mut Cursor<'_>, form: Form) -> Result<Measured, ParseError>
        requires { Subs self.now.room (F.pre self.now.sub) (F.post self.now.sub) }
        ensures { Reads (spec.at_form self.now.room (spec.read self.now.room) form cursor.old) result cursor.new }
    {
        match form {
            Form::Whole => self.whole(cursor),
            Form::Joined(Junction::Or) => self.disjunction(cursor),
            Form::Joined(Junction::And) => self.conjunction(cursor),
            Form::Joint(Junction::Or) => self.conjunction(cursor),
            Form::Joint(Junction::And) => self.negation(cursor),
            Form::Negation => self.negation(cursor),
            Form::Compared => self.compared(cursor),
            Form::Ranked(rank) => self.ranked(cursor, rank),
            Form::Operand(rank) => self.operand(cursor, rank),
            Form::Factor => self.factor(cursor),
            Form::Postfix => self.postfix(cursor),
        }
    }
}
