ghost use Rattle.std.specs.Prelude.{◌≡◌, ◌++◌, take, drop, IfOk};
ghost use Rattle.std.specs.Option.{option_map};
ghost use Rattle.codon_front.specs.Refusals.{refusal, lex_line, lex_code, lex_name, parse_line, parse_code, parse_name, detail, shown_at, shown_token, shown_kind, unbuilt_line, too_long_line};

use codon_base::{Memory, Span};
use grammar_rules::{ParseKind, ParseRefusal};
use indent_lexer::{LexKind, LexRefusal, Token, TokenKind, Tokens};
use std::alloc::Global;

/// The line on err that tells why a text has no tokens.
pub fn lex_line(alloc: Global, why: &LexRefusal) -> Result<Vec<u8>, Memory>
    ensures { IfOk result (λ line. line.items ≡ lex_line why.now) }
{
    let mut line = refusal(alloc, lex_code(why.kind), why.at, lex_name(why.kind))?;
    line.push(b'\n')?;
    Ok(line)
}

/// The line on err that tells why the tokens of a text have no tree.
pub fn parse_line(
    alloc: Global,
    text: &[u8],
    tokens: &Tokens,
    why: &ParseRefusal,
) -> Result<Vec<u8>, Memory>
    ensures { IfOk result (λ line. line.items ≡ parse_line text.now tokens.now why.now) }
{
    let mut line = refusal(alloc, parse_code(why.kind), why.at, parse_name(why.kind))?;
    push_detail(
        &mut line,
        why.kind,
        shown_at(text, tokens.get(why.token as usize)),
    )?;
    line.push(b'\n')?;
    Ok(line)
}

/// The line on err that tells of a node that is not built yet.
pub fn unbuilt_line(alloc: Global, at: Span) -> Result<Vec<u8>, Memory>
    ensures { IfOk result (λ line. line.items ≡ unbuilt_line at) }
{
    let mut line = refusal(alloc, "U1", at, "NotYet")?;
    line.push(b'\n')?;
    Ok(line)
}

/// The line on err that tells of a file that is longer than a source may be.
pub fn too_long_line(alloc: Global) -> Result<Vec<u8>, Memory>
    ensures { IfOk result (λ line. line.items ≡ too_long_line) }
{
    let line = b"refused L8 1:1 TooLong\n".to_vec(alloc)?;
    Ok(line)
}

/// `refused CODE LINE:COLUMN NAME`.
fn refusal(alloc: Global, code: &str, at: Span, name: &str) -> Result<Vec<u8>, Memory>
    ensures { IfOk result (λ line. line.items ≡ refusal code.now at name.now) }
{
    let line = format!(in alloc; "refused {code} {}:{} {name}", at.line, at.column)?;
    Ok(line.into_bytes())
}

/// Appends the token that is refused, but where only the height is at fault.
fn push_detail(line: &mut Vec<u8>, kind: ParseKind, shown: &[u8]) -> Result<(), Memory>
    ensures { IfOk result (λ _. line.new.items ≡ line.old.items ++ detail kind shown.now) }
{
    match kind {
        ParseKind::TooDeep => Ok(()),
        ParseKind::Unexpected | ParseKind::NotInProfile => {
            line.extend_from_slice(b": ")?;
            line.extend_from_slice(shown)?;
            Ok(())
        }
    }
}

/// How a token of a text is shown.
fn shown_at<'a>(text: &'a [u8], token: Option<&Token>) -> &'a [u8]
    ensures { result.now ≡ shown_at text.now (option_map (λ t. t.now) token.entry) }
{
    match token {
        None => &[],
        Some(token) => match &token.kind {
            TokenKind::Newline => b"NEWLINE",
            TokenKind::Indent => b"INDENT",
            TokenKind::Dedent => b"DEDENT",
            TokenKind::End => b"END",
            _ => part(text, token.span.start as usize, token.len as usize),
        },
    }
}

/// So many bytes of a text from a place on, or as many as there are.
fn part(text: &[u8], start: usize, len: usize) -> &[u8]
    ensures { result.now ≡ take len (drop start text.now) }
{
    let rest = match text.get(start..) {
        Some(rest) => rest,
        None => &[],
    };
    match rest.get(..len) {
        Some(part) => part,
        None => rest,
    }
}

fn lex_code(kind: LexKind) -> &'static str
    ensures { result.now ≡ lex_code kind }
{
    match kind {
        LexKind::NotUtf8 => "L1",
        LexKind::BadChar => "L2",
        LexKind::Tab => "L3",
        LexKind::BadDedent => "L4",
        LexKind::BadNumber => "L5",
        LexKind::OpenString => "L6",
        LexKind::NonAsciiText => "L7",
        LexKind::TooLong => "L8",
        LexKind::OpenBracket => "L9",
    }
}

fn lex_name(kind: LexKind) -> &'static str
    ensures { result.now ≡ lex_name kind }
{
    match kind {
        LexKind::NotUtf8 => "NotUtf8",
        LexKind::BadChar => "BadChar",
        LexKind::Tab => "Tab",
        LexKind::BadDedent => "BadDedent",
        LexKind::BadNumber => "BadNumber",
        LexKind::OpenString => "OpenString",
        LexKind::NonAsciiText => "NonAsciiText",
        LexKind::TooLong => "TooLong",
        LexKind::OpenBracket => "OpenBracket",
    }
}

fn parse_code(kind: ParseKind) -> &'static str
    ensures { result.now ≡ parse_code kind }
{
    match kind {
        ParseKind::Unexpected => "P1",
        ParseKind::TooDeep => "P2",
        ParseKind::NotInProfile => "P3",
    }
}

fn parse_name(kind: ParseKind) -> &'static str
    ensures { result.now ≡ parse_name kind }
{
    match kind {
        ParseKind::Unexpected => "Unexpected",
        ParseKind::TooDeep => "TooDeep",
        ParseKind::NotInProfile => "NotInProfile",
    }
}
