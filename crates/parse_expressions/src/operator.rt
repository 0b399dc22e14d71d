ghost use Rattle.std.specs.Prelude.{◌≡◌, IfOk};
ghost use Rattle.parse_laws.specs.Parser.{turn, and_then};
ghost use Rattle.grammar_rules.specs.Levels.{operators};
ghost use Rattle.grammar_rules.specs.Words.{look_up};
ghost use Rattle.parse_expressions.specs.declared.form.Form.TheVariants.{Operand};
ghost use Rattle.parse_expressions.specs.Reading as spec;
ghost use Rattle.parse_expressions.specs.Code.{Reads, Subs};

use crate::measured::{self, Measured};
use crate::reader::Expressions;
use crate::{Cursor, Form, ParseError};
use grammar_rules::Rank;
use parse_laws::Cause;
use source_trees::BinaryOp;
use std::alloc::{AllocError, Global};

/// An operator between two operands. It stands where the left one does.
fn operation(
    alloc: Global,
    op: BinaryOp,
    left: Measured,
    right: Measured,
) -> Result<Measured, AllocError>
    ensures { IfOk result (λ x. x ≡ spec.operation op left right) }
{
    let node = left.node();
    Ok(measured::binary(alloc, node, op, left, right)?)
}

impl<F: Fn(Global, &mut Cursor<'_>, u32, Form) -> Result<Measured, ParseError>> Expressions<F> {
    /// The power of a base, if one follows.
    #[tactic(auto, unfolding(crate::specs::Reading::power))]
    fn power(&self, cursor: &mut Cursor<'_>, base: Measured) -> Result<Measured, ParseError>
        requires { Subs self.now.room (F.pre self.now.sub) (F.post self.now.sub) }
        ensures { Reads (spec.power self.now.room (spec.read self.now.room) base cursor.old) result cursor.new }
    {
        if !cursor.sees_op(b"**".as_slice()) {
            return Ok(base);
        }
        if base.height() > self.room as usize {
            return Err(ParseError::Refused(Cause::TooDeep));
        }
        cursor.expect_op(b"**".as_slice())?;
        let exponent = self.sub(cursor, Form::Factor)?;
        let tree = operation(self.alloc, BinaryOp::Power, base, exponent)?;
        Ok(tree)
    }

    /// A sign and its operand.
    #[tactic(auto, unfolding(crate::specs::Reading::signed))]
    fn signed(&self, cursor: &mut Cursor<'_>) -> Result<Measured, ParseError>
        requires { Subs self.now.room (F.pre self.now.sub) (F.post self.now.sub) }
        ensures { Reads (spec.signed self.now.room (spec.read self.now.room) cursor.old) result cursor.new }
    {
        if self.room < 1 {
            return Err(ParseError::Refused(Cause::TooDeep));
        }
        let (node, sign) = cursor.take_sign()?;
        let operand = self.sub(cursor, Form::Factor)?;
        let tree = measured::unary(self.alloc, node, sign, operand)?;
        Ok(tree)
    }

    /// What a sign may stand before.
    #[tactic(auto, unfolding(crate::specs::Reading::factor))]
    pub fn factor(&self, cursor: &mut Cursor<'_>) -> Result<Measured, ParseError>
        requires { Subs self.now.room (F.pre self.now.sub) (F.post self.now.sub) }
        ensures { Reads (spec.factor self.now.room (spec.read self.now.room) cursor.old) result cursor.new }
    {
        if cursor.sees_sign() {
            return self.signed(cursor);
        }
        let base = self.postfix(cursor)?;
        self.power(cursor, base)
    }

    /// An operator of a rank and its right operand, if there is room.
    fn operation_turn(
        &self,
        cursor: &mut Cursor<'_>,
        rank: Rank,
        left: Measured,
    ) -> Result<Measured, ParseError>
        requires { Subs self.now.room (F.pre self.now.sub) (F.post self.now.sub) }
        ensures { Reads (turn (λ _. look_up (operators rank)) (spec.fits self.now.room (spec.read self.now.room)) spec.operation (λ _. spec.read self.now.room (Operand rank)) left cursor.old) result cursor.new }
    {
        if left.height() > self.room as usize {
            return Err(ParseError::Refused(Cause::TooDeep));
        }
        let op = cursor.take_operator(rank)?;
        let right = self.sub(cursor, Form::Operand(rank))?;
        let tree = operation(self.alloc, op, left, right)?;
        Ok(tree)
    }

    /// The operators of a rank behind a first operand.
    fn operations(
        &self,
        cursor: &mut Cursor<'_>,
        rank: Rank,
        first: Measured,
    ) -> Result<Measured, ParseError>
        requires { Subs self.now.room (F.pre self.now.sub) (F.post self.now.sub) }
        ensures { Reads (spec.operations self.now.room (spec.read self.now.room) rank first cursor.old) result cursor.new }
    {
        let mut tree = first;
        'turn: for _turn in 0..cursor.left() {
            if !cursor.sees_operator(rank) {
                return Ok(tree);
            }
            tree = self.operation_turn(cursor, rank, tree)?;
        }
        Ok(tree)
    }

    /// `*`, `//` and `%` between factors.
    #[tactic(auto, unfolding(crate::specs::Reading::term))]
    fn term(&self, cursor: &mut Cursor<'_>) -> Result<Measured, ParseError>
        requires { Subs self.now.room (F.pre self.now.sub) (F.post self.now.sub) }
        ensures { Reads (spec.term self.now.room (spec.read self.now.room) cursor.old) result cursor.new }
    {
        let first = self.factor(cursor)?;
        self.operations(cursor, Rank::Term, first)
    }

    /// `+` and `-` between terms.
    #[tactic(auto, unfolding(crate::specs::Reading::sum))]
    fn sum(&self, cursor: &mut Cursor<'_>) -> Result<Measured, ParseError>
        requires { Subs self.now.room (F.pre self.now.sub) (F.post self.now.sub) }
        ensures { Reads (spec.sum self.now.room (spec.read self.now.room) cursor.old) result cursor.new }
    {
        let first = self.term(cursor)?;
        self.operations(cursor, Rank::Sum, first)
    }

    /// `<<` and `>>` between sums.
    #[tactic(auto, unfolding(crate::specs::Reading::shift))]
    fn shift(&self, cursor: &mut Cursor<'_>) -> Result<Measured, ParseError>
        requires { Subs self.now.room (F.pre self.now.sub) (F.post self.now.sub) }
        ensures { Reads (spec.shift self.now.room (spec.read self.now.room) cursor.old) result cursor.new }
    {
        let first = self.sum(cursor)?;
        self.operations(cursor, Rank::Shift, first)
    }

    /// `&` between shifts.
    #[tactic(auto, unfolding(crate::specs::Reading::bit_and))]
    fn bit_and(&self, cursor: &mut Cursor<'_>) -> Result<Measured, ParseError>
        requires { Subs self.now.room (F.pre self.now.sub) (F.post self.now.sub) }
        ensures { Reads (spec.bit_and self.now.room (spec.read self.now.room) cursor.old) result cursor.new }
    {
        let first = self.shift(cursor)?;
        self.operations(cursor, Rank::BitAnd, first)
    }

    /// `^` between conjunctions of bits.
    #[tactic(auto, unfolding(crate::specs::Reading::bit_xor))]
    fn bit_xor(&self, cursor: &mut Cursor<'_>) -> Result<Measured, ParseError>
        requires { Subs self.now.room (F.pre self.now.sub) (F.post self.now.sub) }
        ensures { Reads (spec.bit_xor self.now.room (spec.read self.now.room) cursor.old) result cursor.new }
    {
        let first = self.bit_and(cursor)?;
        self.operations(cursor, Rank::BitXor, first)
    }

    /// `|` between exclusive disjunctions of bits.
    #[tactic(auto, unfolding(crate::specs::Reading::bit_or))]
    pub fn bit_or(&self, cursor: &mut Cursor<'_>) -> Result<Measured, ParseError>
        requires { Subs self.now.room (F.pre self.now.sub) (F.post self.now.sub) }
        ensures { Reads (spec.bit_or self.now.room (spec.read self.now.room) cursor.old) result cursor.new }
    {
        let first = self.bit_xor(cursor)?;
        self.operations(cursor, Rank::BitOr, first)
    }

    /// The operators of a rank and tighter ones.
    pub fn ranked(&self, cursor: &mut Cursor<'_>, rank: Rank) -> Result<Measured, ParseError>
        requires { Subs self.now.room (F.pre self.now.sub) (F.post self.now.sub) }
        ensures { Reads (spec.ranked self.now.room (spec.read self.now.room) rank cursor.old) result cursor.new }
    {
        match rank {
            Rank::Term => self.term(cursor),
            Rank::Sum => self.sum(cursor),
            Rank::Shift => self.shift(cursor),
            Rank::BitAnd => self.bit_and(cursor),
            Rank::BitXor => self.bit_xor(cursor),
            Rank::BitOr => self.bit_or(cursor),
        }
    }

    /// An operand of a rank.
    pub fn operand(&self, cursor: &mut Cursor<'_>, rank: Rank) -> Result<Measured, ParseError>
        requires { Subs self.now.room (F.pre self.now.sub) (F.post self.now.sub) }
        ensures { Reads (spec.operand self.now.room (spec.read self.now.room) rank cursor.old) result cursor.new }
    {
        match rank {
            Rank::Term => self.factor(cursor),
            Rank::Sum => self.term(cursor),
            Rank::Shift => self.sum(cursor),
            Rank::BitAnd => self.shift(cursor),
            Rank::BitXor => self.bit_and(cursor),
            Rank::BitOr => self.bit_xor(cursor),
        }
    }
}
