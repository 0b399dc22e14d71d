ghost use Rattle.std.specs.Prelude.{◌≡◌};
ghost use Rattle.std.specs.Str.{bytes_eq};
ghost use Rattle.parse_laws.specs.Parser.{sees, expect};
ghost use Rattle.grammar_rules.specs.Words as words;
ghost use Rattle.parse_expressions.specs.Code.{ReadsToken};

use codon_base::Spelling;
use indent_lexer::{Token, TokenKind};
use parse_expressions::{Cursor, ParseError, is_word};
use parse_laws::Cause;

/// How many items a tuple, a call, parameters or printed values may have.
pub const MOST_ITEMS: usize = 255;

/// Whether the spelling is this word.
pub fn spells(spelling: &Spelling, word: &[u8]) -> bool
    ensures { result ≡ bytes_eq spelling.now word.now }
{
    spelling.as_slice() == word
}

/// Whether the next token is a name with this spelling.
pub fn sees_word(cursor: &Cursor<'_>, word: &[u8]) -> bool
    ensures { result ≡ sees (words.is_word word.now) cursor.now }
{
    match cursor.first() {
        None => false,
        Some(first) => is_word(first, word),
    }
}

/// Takes a name with this spelling, or refuses the next token.
pub fn expect_word<'a>(cursor: &mut Cursor<'a>, word: &[u8]) -> Result<&'a Token, ParseError>
    ensures { ReadsToken (expect (words.is_word word.now) cursor.old) result cursor.new }
{
    let Some(first) = cursor.first() else {
        return Err(ParseError::Refused(Cause::Unexpected));
    };
    if !is_word(first, word) {
        return Err(ParseError::Refused(Cause::Unexpected));
    }
    cursor.skip();
    Ok(first)
}

/// Whether the next token is the end of a line.
pub fn sees_newline(cursor: &Cursor<'_>) -> bool
    ensures { result ≡ sees words.is_newline cursor.now }
{
    match cursor.first() {
        None => false,
        Some(first) => matches!(first.kind, TokenKind::Newline),
    }
}

/// Takes the end of a line, or refuses the next token.
pub fn expect_newline<'a>(cursor: &mut Cursor<'a>) -> Result<&'a Token, ParseError>
    ensures { ReadsToken (expect words.is_newline cursor.old) result cursor.new }
{
    let Some(first) = cursor.first() else {
        return Err(ParseError::Refused(Cause::Unexpected));
    };
    if !matches!(first.kind, TokenKind::Newline) {
        return Err(ParseError::Refused(Cause::Unexpected));
    }
    cursor.skip();
    Ok(first)
}
