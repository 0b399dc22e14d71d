ghost use Rattle.std.specs.Prelude.{◌≡◌};
ghost use Rattle.parse_laws.specs.Parser.{sees, has, take_by};
ghost use Rattle.grammar_rules.specs.Levels.{updates};
ghost use Rattle.grammar_rules.specs.Simple.{joints};
ghost use Rattle.grammar_rules.specs.Words.{look_up, entry};
ghost use Rattle.parse_expressions.specs.Code.{Reads};

use crate::token::spells;
use codon_base::Spelling;
use indent_lexer::{Token, TokenKind};
use parse_expressions::{Cursor, ParseError};
use parse_laws::Cause;
use source_trees::{BinaryOp, Joint};

/// The operator that a spelling with `=` is.
pub fn update_in(spelling: &Spelling) -> Option<BinaryOp>
    ensures { result ≡ entry spelling.now updates }
{
    if spells(spelling, b"+=".as_slice()) {
        Some(BinaryOp::Add)
    } else if spells(spelling, b"-=".as_slice()) {
        Some(BinaryOp::Subtract)
    } else if spells(spelling, b"*=".as_slice()) {
        Some(BinaryOp::Multiply)
    } else if spells(spelling, b"//=".as_slice()) {
        Some(BinaryOp::FloorDivide)
    } else if spells(spelling, b"%=".as_slice()) {
        Some(BinaryOp::Modulo)
    } else if spells(spelling, b"**=".as_slice()) {
        Some(BinaryOp::Power)
    } else if spells(spelling, b"<<=".as_slice()) {
        Some(BinaryOp::ShiftLeft)
    } else if spells(spelling, b">>=".as_slice()) {
        Some(BinaryOp::ShiftRight)
    } else if spells(spelling, b"&=".as_slice()) {
        Some(BinaryOp::And)
    } else if spells(spelling, b"|=".as_slice()) {
        Some(BinaryOp::Or)
    } else if spells(spelling, b"^=".as_slice()) {
        Some(BinaryOp::Xor)
    } else {
        None
    }
}

/// The joint that a spelling is.
pub fn joint_in(spelling: &Spelling) -> Option<Joint>
    ensures { result ≡ entry spelling.now joints }
{
    if spells(spelling, b"|>".as_slice()) {
        Some(Joint::InTurn)
    } else if spells(spelling, b"||>".as_slice()) {
        Some(Joint::InParallel)
    } else {
        None
    }
}

fn update_of(token: &Token) -> Option<BinaryOp>
    ensures { result ≡ look_up updates token.now }
{
    match &token.kind {
        TokenKind::Op(spelling) => update_in(spelling),
        _ => None,
    }
}

fn joint_of(token: &Token) -> Option<Joint>
    ensures { result ≡ look_up joints token.now }
{
    match &token.kind {
        TokenKind::Op(spelling) => joint_in(spelling),
        _ => None,
    }
}

/// Takes an operator with `=`.
pub fn take_update(cursor: &mut Cursor<'_>) -> Result<BinaryOp, ParseError>
    ensures { Reads (take_by (look_up updates) cursor.old) result cursor.new }
{
    let Some(first) = cursor.first() else {
        return Err(ParseError::Refused(Cause::Unexpected));
    };
    let Some(op) = update_of(first) else {
        return Err(ParseError::Refused(Cause::Unexpected));
    };
    cursor.skip();
    Ok(op)
}

/// Takes the operator before a stage.
pub fn take_joint(cursor: &mut Cursor<'_>) -> Result<Joint, ParseError>
    ensures { Reads (take_by (look_up joints) cursor.old) result cursor.new }
{
    let Some(first) = cursor.first() else {
        return Err(ParseError::Refused(Cause::Unexpected));
    };
    let Some(joint) = joint_of(first) else {
        return Err(ParseError::Refused(Cause::Unexpected));
    };
    cursor.skip();
    Ok(joint)
}

/// Whether the next token is the operator before a stage.
pub fn sees_joint(cursor: &Cursor<'_>) -> bool
    ensures { result ≡ sees (has (look_up joints)) cursor.now }
{
    match cursor.first() {
        None => false,
        Some(first) => joint_of(first).is_some(),
    }
}
