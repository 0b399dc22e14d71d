mod layout;
mod quotes;
mod spellings;

use super::*;
use codon_base::{Or, Span};
use std::alloc::{AllocError, Global};
use std::process::Abort;
use std::test::Fail;

fn kind_name(kind: &TokenKind) -> &'static str {
    match kind {
        TokenKind::Name(_) => "name",
        TokenKind::Number(_) => "number",
        TokenKind::Text(_) => "text",
        TokenKind::Keyword(_) => "keyword",
        TokenKind::Op(_) => "op",
        TokenKind::Newline => "newline",
        TokenKind::Indent => "indent",
        TokenKind::Dedent => "dedent",
        TokenKind::End => "end",
    }
}

fn refusal_name(kind: LexKind) -> &'static str {
    match kind {
        LexKind::NotUtf8 => "L1",
        LexKind::BadChar => "L2",
        LexKind::Tab => "L3",
        LexKind::BadDedent => "L4",
        LexKind::BadNumber => "L5",
        LexKind::OpenString => "L6",
        LexKind::NonAsciiText => "L7",
        LexKind::TooLong => "L8",
        LexKind::OpenBracket => "L9",
    }
}

fn push_place(shown: &mut Vec<u8>, alloc: Global, at: Span) -> Result<(), AllocError> {
    let text = format!(in alloc; " {}:{} {}", at.line, at.column, at.start)?;
    shown.extend_from_slice(text.as_str().as_bytes())
}

fn push_value(shown: &mut Vec<u8>, alloc: Global, kind: &TokenKind) -> Result<(), AllocError> {
    match kind {
        TokenKind::Name(spelling) => shown.extend_from_slice(spelling.as_slice()),
        TokenKind::Keyword(spelling) => shown.extend_from_slice(spelling.as_slice()),
        TokenKind::Op(spelling) => shown.extend_from_slice(spelling.as_slice()),
        TokenKind::Text(text) => shown.extend_from_slice(text.as_bytes()),
        TokenKind::Number(number) => {
            let text = format!(in alloc; "{number}")?;
            shown.extend_from_slice(text.as_str().as_bytes())
        }
        _ => Ok(()),
    }
}

/// Each token as `KIND LINE:COLUMN START+LEN VALUE`.
fn shown_tokens(alloc: Global, tokens: &Tokens) -> Result<Vec<u8>, AllocError> {
    let mut shown = Vec::new(alloc);
    for token in tokens.as_slice() {
        if !shown.is_empty() {
            shown.extend_from_slice(b"|")?;
        }
        shown.extend_from_slice(kind_name(&token.kind).as_bytes())?;
        push_place(&mut shown, alloc, token.span)?;
        let len = format!(in alloc; "+{} ", token.len)?;
        shown.extend_from_slice(len.as_str().as_bytes())?;
        push_value(&mut shown, alloc, &token.kind)?;
    }
    Ok(shown)
}

/// A refusal as `NAME LINE:COLUMN START`.
fn shown_refusal(alloc: Global, refusal: LexRefusal) -> Result<Vec<u8>, AllocError> {
    let mut shown = Vec::from_slice(alloc, refusal_name(refusal.kind).as_bytes())?;
    push_place(&mut shown, alloc, refusal.at)?;
    Ok(shown)
}

fn shown(alloc: Global, text: &[u8]) -> Result<Vec<u8>, AllocError> {
    match lex(alloc, text) {
        Ok(tokens) => shown_tokens(alloc, &tokens),
        Err(Or::No(refusal)) => shown_refusal(alloc, refusal),
        Err(Or::Memory) => Vec::from_slice(alloc, b"memory"),
    }
}

fn shows(rt: &impl Abort, alloc: Global, text: &[u8], want: &[u8]) -> Result<(), AllocError> {
    let found = shown(alloc, text)?;
    assert!(rt; found.as_slice() == want);
    Ok(())
}

#[test]
fn the_longest_text(rt: HostRuntime) -> Result<(), Fail> {
    let alloc = rt.alloc();
    let mut text: Vec<u8> = Vec::new(alloc);
    text.resize(1_048_576, b' ')?;
    shows(
        &rt,
        alloc,
        text.as_slice(),
        b"end 1:1048577 1048576+0 ".as_slice(),
    )?;
    text.push(b'\n')?;
    shows(&rt, alloc, text.as_slice(), b"L8 1:1 0".as_slice())?;
    let mut long: Vec<u8> = Vec::new(alloc);
    long.resize(1_048_577, 0xff)?;
    shows(&rt, alloc, long.as_slice(), b"L8 1:1 0".as_slice())?;
    Ok(())
}
