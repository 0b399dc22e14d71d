ghost use Rattle.std.specs.Prelude.{◌≡◌};
ghost use Rattle.parse_laws.specs.Parser.{class_of};
ghost use Rattle.parse_expressions.specs.Reading.{start_in, start_of};
ghost use Rattle.parse_expressions.specs.TypeReading.{type_start_in, type_start};
ghost use Rattle.parse_expressions.specs.declared.start.Start.TheVariants.{Nowhere};
ghost use Rattle.parse_expressions.specs.declared.start.TypeStart.TheVariants as types;

use crate::Cursor;
use crate::cursor::spells;
use indent_lexer::TokenKind;

/// What an atom is, by its first token.
#[derive(Clone, Copy, Debug, PartialEq, Eq)]
pub enum Start {
    /// A name, or a call of it.
    Named,
    /// A number or a constant.
    Leaf,
    /// Texts side by side.
    Texts,
    /// What begins with a round bracket.
    Round,
    /// What begins with a square bracket.
    Square,
    /// No atom begins with the token.
    Nowhere,
}

/// What a type is, by its first token.
#[derive(Clone, Copy, Debug, PartialEq, Eq)]
pub enum TypeStart {
    /// One token: a name, or `None`.
    Simple,
    /// `list` or `List`.
    ListWord,
    /// `tuple` or `Tuple`.
    TupleWord,
    /// No type begins with the token.
    Nowhere,
}

fn start_of_kind(kind: &TokenKind) -> Start
    ensures { result ≡ start_in kind.now }
{
    match kind {
        TokenKind::Name(spelling) => {
            if spells(spelling, b"print".as_slice()) {
                Start::Nowhere
            } else {
                Start::Named
            }
        }
        TokenKind::Number(_) => Start::Leaf,
        TokenKind::Text(_) => Start::Texts,
        TokenKind::Op(spelling) => {
            if spells(spelling, b"(".as_slice()) {
                Start::Round
            } else if spells(spelling, b"[".as_slice()) {
                Start::Square
            } else {
                Start::Nowhere
            }
        }
        TokenKind::Keyword(spelling) => {
            if spells(spelling, b"True".as_slice())
                || spells(spelling, b"False".as_slice())
                || spells(spelling, b"None".as_slice())
            {
                Start::Leaf
            } else {
                Start::Nowhere
            }
        }
        _ => Start::Nowhere,
    }
}

fn type_start_of_kind(kind: &TokenKind) -> TypeStart
    ensures { result ≡ type_start_in kind.now }
{
    match kind {
        TokenKind::Name(spelling) => {
            if spells(spelling, b"list".as_slice()) || spells(spelling, b"List".as_slice()) {
                TypeStart::ListWord
            } else if spells(spelling, b"tuple".as_slice())
                || spells(spelling, b"Tuple".as_slice())
            {
                TypeStart::TupleWord
            } else {
                TypeStart::Simple
            }
        }
        TokenKind::Keyword(spelling) => {
            if spells(spelling, b"None".as_slice()) {
                TypeStart::Simple
            } else {
                TypeStart::Nowhere
            }
        }
        _ => TypeStart::Nowhere,
    }
}

/// What the atom is that begins with the next token.
pub fn start_of(cursor: &Cursor<'_>) -> Start
    ensures { result ≡ class_of start_of Nowhere cursor.now }
{
    match cursor.first() {
        None => Start::Nowhere,
        Some(first) => start_of_kind(&first.kind),
    }
}

/// What the type is that begins with the next token.
pub fn type_start_of(cursor: &Cursor<'_>) -> TypeStart
    ensures { result ≡ class_of type_start types.Nowhere cursor.now }
{
    match cursor.first() {
        None => TypeStart::Nowhere,
        Some(first) => type_start_of_kind(&first.kind),
    }
}
