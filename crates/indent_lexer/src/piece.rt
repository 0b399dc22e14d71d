ghost use Rattle.std.specs.Prelude.{◌≡◌, ◌≤◌, ◌<◌, IfOk, length, take, slice_index, if◌then◌else◌};
ghost use Rattle.std.specs.List.{position_or_len};
ghost use Rattle.indent_lexer.specs.Piece.{piece_of, comment_len, ends_comment, after_backslash, number_at, text_piece, name_at, operator_at, number_or_word, is_digit, is_line_end, is_quote, IsPiece};
ghost use Rattle.indent_lexer.specs.Literal.{literal_of};
ghost use Rattle.indent_lexer.specs.Name.{starts_name, word_len};
ghost use Rattle.indent_lexer.specs.Word.{operator_len};

use crate::name::{starts_name, word_len};
use crate::number::numeral;
use crate::place::{after, begins_with, line_end_len};
use crate::text::{Literal, literal_of};
use crate::token::{LexKind, TokenKind};
use crate::word::{is_keyword, operator_len};
use codon_base::{Memory, Spelling};
use sqlite_items::Items;
use std::alloc::Global;

/// What a text begins with. Each number is one of bytes.
#[derive(Debug, Drop)]
pub enum Piece {
    Space,
    Tab,
    /// A comment, or a backslash that joins two lines.
    Skip(usize),
    LineEnd(usize),
    Token(TokenKind, usize),
    /// What is refused, and how many bytes stand before its place.
    Bad(LexKind, usize),
}

/// The piece that a text begins with.
pub fn piece_of(alloc: Global, text: &[u8]) -> Result<Piece, Memory>
    requires { 0 < length text.now }
    ensures value { IfOk result (λ piece. piece ≡ piece_of text.now) }
    ensures within { IfOk result (λ piece. IsPiece piece (length text.now)) }
{
    let first = text[0];
    if first == b' ' {
        Ok(Piece::Space)
    } else if first == b'\t' {
        Ok(Piece::Tab)
    } else if is_line_end(first) {
        Ok(Piece::LineEnd(line_end_len(text)))
    } else if first == b'#' {
        Ok(Piece::Skip(comment_len(text)))
    } else if first == b'\\' {
        Ok(after_backslash(line_end_len(after(text, 1))))
    } else if is_quote(first) {
        quoted(alloc, text)
    } else {
        number_or_word(alloc, text)
    }
}

fn is_line_end(byte: u8) -> bool
    ensures { result ≡ is_line_end byte }
{
    byte == b'\n' || byte == b'\r'
}

fn is_quote(byte: u8) -> bool
    ensures { result ≡ is_quote byte }
{
    byte == b'"' || byte == b'\''
}

/// How many bytes the comment takes that stands here.
fn comment_len(text: &[u8]) -> usize
    ensures value { result ≡ comment_len text.now }
    ensures within { result ≤ length text.now }
{
    let mut len: usize = 0;
    let mut rest = text;
    'bytes: while let [byte, after @ ..] = rest {
        if *byte == b'\n' || *byte == b'\r' || *byte == 0 {
            return len;
        }
        len += 1;
        rest = after;
    }
    len
}

fn after_backslash(line_end: usize) -> Piece
    requires { line_end ≤ 2 }
    ensures { result ≡ after_backslash line_end }
{
    if line_end == 0 {
        Piece::Bad(LexKind::BadChar, 0)
    } else {
        Piece::Skip(1 + line_end)
    }
}

/// The number that the name characters from a digit on spell.
fn number_at(len: usize, text: &[u8]) -> Piece
    requires within { len ≤ length text.now }
    requires some { 0 < len }
    ensures value { result ≡ number_at len text.now }
    ensures within { IsPiece result (length text.now) }
{
    if begins_with(b'.', after(text, len)) {
        return Piece::Bad(LexKind::BadNumber, 0);
    }
    match numeral(&text[..len]) {
        Some(value) => Piece::Token(TokenKind::Number(value), len),
        None => Piece::Bad(LexKind::BadNumber, 0),
    }
}

/// The text in quotes that stands here.
fn quoted(alloc: Global, text: &[u8]) -> Result<Piece, Memory>
    requires { 0 < length text.now }
    ensures value { IfOk result (λ piece. piece ≡ text_piece (literal_of (slice_index text.now 0) text.now)) }
    ensures within { IfOk result (λ piece. IsPiece piece (length text.now)) }
{
    Ok(match literal_of(alloc, text[0], text)? {
        Literal::Closed(value, len) => Piece::Token(TokenKind::Text(value), len),
        Literal::Open => Piece::Bad(LexKind::OpenString, 0),
        Literal::Fault(kind, len) => Piece::Bad(kind, len),
    })
}

fn is_digit(byte: u8) -> bool
    ensures { result ≡ is_digit byte }
{
    byte >= b'0' && byte < b':'
}

/// A number, a name, a keyword or an operator.
fn number_or_word(alloc: Global, text: &[u8]) -> Result<Piece, Memory>
    requires { 0 < length text.now }
    ensures value { IfOk result (λ piece. piece ≡ number_or_word (slice_index text.now 0) text.now) }
    ensures within { IfOk result (λ piece. IsPiece piece (length text.now)) }
{
    if is_digit(text[0]) {
        Ok(number_at(word_len(text), text))
    } else if starts_name(text) {
        name_at(alloc, word_len(text), text)
    } else {
        operator_at(alloc, operator_len(text), text)
    }
}

fn name_at(alloc: Global, len: usize, text: &[u8]) -> Result<Piece, Memory>
    requires within { len ≤ length text.now }
    requires some { 0 < len }
    ensures value { IfOk result (λ piece. piece ≡ name_at len text.now) }
    ensures within { IfOk result (λ piece. IsPiece piece (length text.now)) }
{
    let spelling = &text[..len];
    let word: Spelling = Items::from_slice(alloc, spelling)?;
    let kind = if is_keyword(spelling) {
        TokenKind::Keyword(word)
    } else {
        TokenKind::Name(word)
    };
    Ok(Piece::Token(kind, len))
}

fn operator_at(alloc: Global, len: usize, text: &[u8]) -> Result<Piece, Memory>
    requires { len ≤ length text.now }
    ensures value { IfOk result (λ piece. piece ≡ operator_at len text.now) }
    ensures within { IfOk result (λ piece. IsPiece piece (length text.now)) }
{
    if len == 0 {
        return Ok(Piece::Bad(LexKind::BadChar, 0));
    }
    let spelling: Spelling = Items::from_slice(alloc, &text[..len])?;
    Ok(Piece::Token(TokenKind::Op(spelling), len))
}
