ghost use Rattle.std.specs.Prelude.{◌≡◌, ◌≤◌, ◌<◌, ◌+◌, IfOk, length, true, false};
ghost use Rattle.std.specs.Prelude.{if◌then◌else◌};
ghost use Rattle.indent_lexer.specs.Literal.{begins_with_three, hex_escape, escape, closes, part, prefixed, inside, literal_of, IsPart, IsLiteral};

use crate::number::digit_value;
use crate::place::{after, line_end_len};
use crate::token::LexKind;
use codon_base::{Memory, Text};
use std::alloc::Global;

/// What stands at a place inside a text. The numbers of bytes are counted from this place.
#[derive(Clone, Copy, Debug, PartialEq, Eq)]
pub enum Part {
    /// A byte of the value, and how many bytes it is spelled with.
    Holds(u8, usize),
    /// Joined lines, which give nothing.
    Joins(usize),
    /// The closing quotes.
    Closes(usize),
    /// The text is not closed.
    Open,
    /// What cannot stand here.
    Fault(LexKind),
}

/// A text in quotes, or what is refused in it. The numbers of bytes are counted from its quote.
#[derive(Debug, Drop)]
pub enum Literal {
    Closed(Text, usize),
    Open,
    Fault(LexKind, usize),
}

/// Whether a text begins with three of the quote.
fn begins_with_three(quote: u8, text: &[u8]) -> bool
    ensures value { result ≡ begins_with_three quote text.now }
{
    match text {
        [first, second, third, ..] => *first == quote && *second == quote && *third == quote,
        _ => false,
    }
}

/// What the two digits after `\x` stand for.
fn hex_escape(digits: &[u8]) -> Part
    ensures value { result ≡ hex_escape digits.now }
    ensures within { IsPart result (length digits.now + 2) }
{
    let [high, low, ..] = digits else {
        return Part::Fault(LexKind::BadChar);
    };
    let (high, low) = (digit_value(*high), digit_value(*low));
    if high >= 16 || low >= 16 {
        return Part::Fault(LexKind::BadChar);
    }
    if high >= 8 {
        return Part::Fault(LexKind::NonAsciiText);
    }
    Part::Holds((high * 16 + low) as u8, 4)
}

/// What a backslash stands for with the bytes after it.
fn escape(after: &[u8]) -> Part
    ensures value { result ≡ escape after.now }
    ensures within { IsPart result (length after.now + 1) }
{
    match after {
        [b'\\', ..] => Part::Holds(b'\\', 2),
        [b'\'', ..] => Part::Holds(b'\'', 2),
        [b'"', ..] => Part::Holds(b'"', 2),
        [b'n', ..] => Part::Holds(b'\n', 2),
        [b'r', ..] => Part::Holds(b'\r', 2),
        [b't', ..] => Part::Holds(b'\t', 2),
        [b'x', digits @ ..] => hex_escape(digits),
        [b'\n' | b'\r', ..] => Part::Joins(1 + line_end_len(after)),
        _ => Part::Fault(LexKind::BadChar),
    }
}

/// Whether the closing quotes stand here.
fn closes(quote: u8, long: bool, text: &[u8]) -> bool
    requires { 0 < length text.now }
    ensures { result ≡ closes quote long text.now }
{
    if long {
        begins_with_three(quote, text)
    } else {
        text[0] == quote
    }
}

/// What stands at a place inside a text.
fn part_at(quote: u8, long: bool, text: &[u8]) -> Part
    ensures value { result ≡ part quote long text.now }
    ensures within { IsPart result (length text.now) }
{
    let [first, after @ ..] = text else {
        return Part::Open;
    };
    if closes(quote, long, text) {
        return Part::Closes(if long { 3 } else { 1 });
    }
    match *first {
        b'\\' => escape(after),
        b'\n' | b'\r' => line_end_part(long, line_end_len(text)),
        128..=255 => Part::Fault(LexKind::NonAsciiText),
        0 => Part::Fault(LexKind::BadChar),
        byte => Part::Holds(byte, 1),
    }
}

/// A line end inside a text, which is a line feed of its value where three quotes close it.
fn line_end_part(long: bool, len: usize) -> Part
    ensures { result ≡ (if long then Part.Holds 10 len else Part.Open) }
{
    if long {
        Part::Holds(b'\n', len)
    } else {
        Part::Open
    }
}

/// The text that begins with this quote.
pub fn literal_of(alloc: Global, quote: u8, text: &[u8]) -> Result<Literal, Memory>
    requires some { 0 < length text.now }
    ensures value { IfOk result (λ literal. literal ≡ literal_of quote text.now) }
    ensures within { IfOk result (λ literal. IsLiteral literal (length text.now)) }
{
    if begins_with_three(quote, text) {
        inside(alloc, quote, true, 3, text)
    } else {
        inside(alloc, quote, false, 1, text)
    }
}

/// What follows the opening quotes.
fn inside(
    alloc: Global,
    quote: u8,
    long: bool,
    opening: usize,
    text: &[u8],
) -> Result<Literal, Memory>
    requires { opening ≤ length text.now }
    ensures value { IfOk result (λ literal. literal ≡ inside quote long opening text.now) }
    ensures within { IfOk result (λ literal. IsLiteral literal (length text.now)) }
{
    let mut value = Vec::new(alloc);
    let mut len = opening;
    let mut rest = after(text, opening);
    'parts: loop {
        match part_at(quote, long, rest) {
            Part::Holds(byte, size) => {
                value.push(byte)?;
                len += size;
                rest = after(rest, size);
            }
            Part::Joins(size) => {
                len += size;
                rest = after(rest, size);
            }
            Part::Closes(size) => {
                let text = Text::from_slice(alloc, value.as_slice())?;
                return Ok(Literal::Closed(text, len + size));
            }
            Part::Open => return Ok(Literal::Open),
            Part::Fault(kind) => return Ok(Literal::Fault(kind, len)),
        }
    }
}
