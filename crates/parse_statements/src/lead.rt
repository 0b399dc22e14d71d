ghost use Rattle.std.specs.Prelude.{◌≡◌};
ghost use Rattle.parse_laws.specs.Parser.{class_of};
ghost use Rattle.parse_statements.specs.Simple as spec;
ghost use Rattle.parse_statements.specs.Views.{lead_view, follow_view};

use crate::operator::{joint_in, update_in};
use crate::token::spells;
use codon_base::Spelling;
use indent_lexer::TokenKind;
use parse_expressions::Cursor;

/// What a simple statement is, by its first token.
#[derive(Clone, Copy, Debug, PartialEq, Eq)]
pub enum Lead {
    Pass,
    Break,
    Continue,
    Return,
    Yield,
    Raise,
    Assert,
    Print,
    /// An expression or a target begins it.
    Value,
}

/// What follows an expression or a target at the beginning of a statement.
#[derive(Clone, Copy, Debug, PartialEq, Eq)]
pub enum Follow {
    Comma,
    Equals,
    /// An operator with `=`.
    Augmented,
    Piped,
    Colon,
    /// Nothing that belongs to the statement.
    Over,
}

fn lead_word(word: &Spelling) -> Lead
    ensures { lead_view result ≡ spec.lead_word word.now }
{
    if spells(word, b"pass".as_slice()) {
        Lead::Pass
    } else if spells(word, b"break".as_slice()) {
        Lead::Break
    } else if spells(word, b"continue".as_slice()) {
        Lead::Continue
    } else if spells(word, b"return".as_slice()) {
        Lead::Return
    } else if spells(word, b"yield".as_slice()) {
        Lead::Yield
    } else if spells(word, b"raise".as_slice()) {
        Lead::Raise
    } else if spells(word, b"assert".as_slice()) {
        Lead::Assert
    } else {
        Lead::Value
    }
}

fn lead_in(kind: &TokenKind) -> Lead
    ensures { lead_view result ≡ spec.lead_in kind.now }
{
    match kind {
        TokenKind::Keyword(word) => lead_word(word),
        TokenKind::Name(word) => {
            if spells(word, b"print".as_slice()) {
                Lead::Print
            } else {
                Lead::Value
            }
        }
        _ => Lead::Value,
    }
}

/// What the simple statement is that begins with the next token.
pub fn lead_of(cursor: &Cursor<'_>) -> Lead
    ensures { lead_view result ≡ class_of spec.lead_of spec.Value cursor.now }
{
    match cursor.first() {
        None => Lead::Value,
        Some(first) => lead_in(&first.kind),
    }
}

fn follow_op(word: &Spelling) -> Follow
    ensures { follow_view result ≡ spec.follow_op word.now }
{
    if spells(word, b",".as_slice()) {
        Follow::Comma
    } else if spells(word, b"=".as_slice()) {
        Follow::Equals
    } else if spells(word, b":".as_slice()) {
        Follow::Colon
    } else if update_in(word).is_some() {
        Follow::Augmented
    } else if joint_in(word).is_some() {
        Follow::Piped
    } else {
        Follow::Over
    }
}

fn follow_in(kind: &TokenKind) -> Follow
    ensures { follow_view result ≡ spec.follow_in kind.now }
{
    match kind {
        TokenKind::Op(word) => follow_op(word),
        _ => Follow::Over,
    }
}

/// What follows an expression or a target, by the next token.
pub fn follow_of(cursor: &Cursor<'_>) -> Follow
    ensures { follow_view result ≡ class_of spec.follow_of spec.Over cursor.now }
{
    match cursor.first() {
        None => Follow::Over,
        Some(first) => follow_in(&first.kind),
    }
}
