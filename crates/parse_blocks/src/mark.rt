ghost use Rattle.std.specs.Prelude.{◌≡◌};
ghost use Rattle.parse_laws.specs.Parser.{sees, expect};
ghost use Rattle.grammar_rules.specs.Words.{is_indent, is_dedent, is_end};
ghost use Rattle.parse_expressions.specs.Code.{ReadsToken};

use indent_lexer::{Token, TokenKind};
use parse_expressions::{Cursor, ParseError};
use parse_laws::Cause;

/// Takes the beginning of a block, or refuses the next token.
pub fn expect_indent<'a>(cursor: &mut Cursor<'a>) -> Result<&'a Token, ParseError>
    ensures { ReadsToken (expect is_indent cursor.old) result cursor.new }
{
    let Some(first) = cursor.first() else {
        return Err(ParseError::Refused(Cause::Unexpected));
    };
    if !matches!(first.kind, TokenKind::Indent) {
        return Err(ParseError::Refused(Cause::Unexpected));
    }
    cursor.skip();
    Ok(first)
}

/// Takes the end of a block, or refuses the next token.
pub fn expect_dedent<'a>(cursor: &mut Cursor<'a>) -> Result<&'a Token, ParseError>
    ensures { ReadsToken (expect is_dedent cursor.old) result cursor.new }
{
    let Some(first) = cursor.first() else {
        return Err(ParseError::Refused(Cause::Unexpected));
    };
    if !matches!(first.kind, TokenKind::Dedent) {
        return Err(ParseError::Refused(Cause::Unexpected));
    }
    cursor.skip();
    Ok(first)
}

/// Takes the end of the text, or refuses the next token.
pub fn expect_end<'a>(cursor: &mut Cursor<'a>) -> Result<&'a Token, ParseError>
    ensures { ReadsToken (expect is_end cursor.old) result cursor.new }
{
    let Some(first) = cursor.first() else {
        return Err(ParseError::Refused(Cause::Unexpected));
    };
    if !matches!(first.kind, TokenKind::End) {
        return Err(ParseError::Refused(Cause::Unexpected));
    }
    cursor.skip();
    Ok(first)
}
