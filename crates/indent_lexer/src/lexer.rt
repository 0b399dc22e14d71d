ghost use Rattle.std.specs.Prelude.{◌≡◌, ◌≤◌, ◌<◌, ◌+◌, ◌-◌, ◌++◌, ◌∷◌, [], IfOk, IfErr, OnOk, length, drop, take, map, cond, replicate, nat_eq};
ghost use Rattle.indent_lexer.specs.Tokens.{Tokens, IsRefusalOf, AreTokens, IsFaultOf, IsStopOf, GoesOn, EndsWith, HeadGives, IsHeadFaultOf, next, at_end, first_state, first_place, mark_len, place_at, marks, head, at_column, passed, after_space, after_tab, ends_line, after_line_end, opens, closes, is_opening, is_closing, depth_after, raised_after, last_newline, new_line, IsState, spaces_of};
ghost use Rattle.indent_lexer.specs.Place.{IsPlace, moved};
ghost use Rattle.indent_lexer.specs.Indentation.{indentation};

use crate::brackets::{depth_after, raised_after};
use crate::columns::Columns;
use crate::fault::Fault;
use crate::line::{Line, after_line_end, after_space, after_tab, ends_line};
use crate::marks::{push_last, push_mark, start_line};
use crate::piece::{Piece, piece_of};
use crate::place::{after, moved};
use crate::token::{LexKind, LexRefusal, Token, TokenKind, Tokens};
use codon_base::{Memory, Or, Span};
use sqlite_items::Items;
use std::alloc::Global;

const MAX_BYTES: usize = 1_048_576;

/// What is known at a place of a text from the text before it.
#[derive(Debug, Drop)]
pub struct State {
    pub at: Span,
    pub line: Line,
    /// The columns at which blocks stand.
    pub columns: Columns,
    /// How many brackets are open.
    pub depth: u32,
    /// The bracket that last raised the depth from 0.
    pub raised: Span,
}

/// The tokens of a text in UTF-8 of at most 1,048,576 bytes, by chapter 2 of the Python reference; or the kind
/// and the place of the first refusal.
pub fn lex(alloc: Global, bytes: &[u8]) -> Result<Tokens, Or<LexRefusal>>
    ensures tokens { IfOk result (Tokens bytes.now) }
    ensures refusal { IfErr result (IsRefusalOf bytes.now) }
{
    if bytes.len() > MAX_BYTES {
        let at = Span {
            start: 0,
            line: 1,
            column: 1,
        };
        return Err(Or::No(LexRefusal {
            kind: LexKind::TooLong,
            at,
        }));
    }
    match str::from_utf8(bytes) {
        Ok(_) => match tokens_of(alloc, bytes) {
            Ok(tokens) => Ok(tokens),
            Err(Fault::Refused(refusal)) => Err(Or::No(refusal)),
            Err(Fault::Memory) => Err(Or::Memory),
        },
        Err(fault) => Err(Or::No(LexRefusal {
            kind: LexKind::NotUtf8,
            at: place_at(bytes, fault.valid_up_to()),
        })),
    }
}

/// How many bytes a leading U+FEFF takes.
fn mark_len(bytes: &[u8]) -> usize
    ensures value { result ≡ mark_len bytes.now }
    ensures within { result ≤ length bytes.now }
    ensures few { result ≤ 3 }
{
    match bytes {
        [0xef, 0xbb, 0xbf, ..] => 3,
        _ => 0,
    }
}

/// The place of the first character that is not skipped.
fn first_place(bytes: &[u8]) -> Span
    requires { length bytes.now ≤ 1_048_576 }
    ensures value { result ≡ first_place bytes.now }
    ensures place { IsPlace result (length bytes.now - mark_len bytes.now) }
{
    Span {
        start: mark_len(bytes) as u32,
        line: 1,
        column: 1,
    }
}

/// The place of the byte with this number, from 0.
fn place_at(bytes: &[u8], number: usize) -> Span
    requires short { length bytes.now ≤ 1_048_576 }
    requires within { number ≤ length bytes.now }
    ensures { result ≡ place_at bytes.now number }
{
    let mark = mark_len(bytes);
    let rest = after(bytes, mark);
    let front = &rest[..number.saturating_sub(mark)];
    moved(first_place(bytes), front)
}

/// What is known where a text begins.
fn first_state(alloc: Global, bytes: &[u8]) -> State
    requires { length bytes.now ≤ 1_048_576 }
    ensures value { result ≡ first_state bytes.now }
    ensures state { IsState result (length bytes.now - mark_len bytes.now) }
{
    let first = first_place(bytes);
    State {
        at: first,
        line: Line::Lead(0, None),
        columns: Columns::new(alloc),
        depth: 0,
        raised: first,
    }
}

/// The tokens of a text in UTF-8, or its first refusal.
fn tokens_of(alloc: Global, bytes: &[u8]) -> Result<Tokens, Fault>
    requires { length bytes.now ≤ 1_048_576 }
    ensures tokens { IfOk result (AreTokens bytes.now) }
    ensures refusal { IfErr result (IsFaultOf bytes.now) }
{
    let mut state = first_state(alloc, bytes);
    let mut tokens: Tokens = Items::new(alloc);
    let mut rest = after(bytes, mark_len(bytes));
    'pieces: while !rest.is_empty() {
        match step(alloc, &mut state, rest, &mut tokens) {
            Ok(len) => rest = after(rest, len),
            Err(fault) => return Err(fault),
        }
    }
    match finish(&state, &mut tokens) {
        Ok(()) => Ok(tokens),
        Err(fault) => Err(fault),
    }
}

/// Reads the piece that the rest of a text begins with, and tells how many bytes it takes.
fn step(alloc: Global, state: &mut State, rest: &[u8], tokens: &mut Tokens) -> Result<usize, Fault>
    requires some { 0 < length rest.now }
    requires state { IsState state.old (length rest.now) }
    ensures goes { IfOk result (GoesOn (next state.old rest.now) state.new tokens.old tokens.new) }
    ensures within { IfOk result (λ len. (0 < len) × (len ≤ length rest.now)) }
    ensures state { IfOk result (λ len. IsState state.new (length rest.now - len)) }
    ensures stops { IfErr result (IsStopOf (next state.old rest.now)) }
{
    match piece_of(alloc, rest)? {
        Piece::Space => {
            let line = after_space(state.line);
            pass(state, rest, 1, line);
            Ok(1)
        }
        Piece::Tab => {
            let line = after_tab(state.line, state.at);
            pass(state, rest, 1, line);
            Ok(1)
        }
        Piece::Skip(len) => {
            let line = state.line;
            pass(state, rest, len, line);
            Ok(len)
        }
        Piece::LineEnd(len) => {
            end_line(state, rest, tokens, len)?;
            Ok(len)
        }
        Piece::Token(kind, len) => match start_line(
            &mut state.columns,
            state.line,
            state.at,
            tokens,
        ) {
            Ok(()) => {
                push_token(state, rest, tokens, kind, len)?;
                Ok(len)
            }
            Err(fault) => Err(fault),
        },
        Piece::Bad(kind, len) => match start_line(
            &mut state.columns,
            state.line,
            state.at,
            tokens,
        ) {
            Ok(()) => Err(Fault::Refused(LexRefusal {
                kind,
                at: moved(state.at, &rest[..len]),
            })),
            Err(fault) => Err(fault),
        },
    }
}

/// Passes a piece that gives no token.
fn pass(state: &mut State, rest: &[u8], len: usize, line: Line)
    requires within { len ≤ length rest.now }
    requires place { IsPlace state.old.at (length rest.now) }
    ensures state { state.new ≡ passed state.old rest.now len line }
    ensures place { IsPlace state.new.at (length rest.now - len) }
    ensures start { state.new.at.start ≡ state.old.at.start + len }
{
    state.at = moved(state.at, &rest[..len]);
    state.line = line;
}

/// Passes a line end, which may end the logical line.
fn end_line(state: &mut State, rest: &[u8], tokens: &mut Tokens, len: usize) -> Result<(), Memory>
    requires within { len ≤ length rest.now }
    requires place { IsPlace state.old.at (length rest.now) }
    ensures tokens { OnOk result (tokens.new ≡ tokens.old ++ cond (ends_line state.old.line state.old.depth) (marks state.old.at (TokenKind.Newline ∷ [])) []) }
    ensures state { OnOk result (state.new ≡ passed state.old rest.now len (after_line_end state.old.line state.old.depth)) }
    ensures place { OnOk result (IsPlace state.new.at (length rest.now - len)) }
    ensures start { OnOk result (state.new.at.start ≡ state.old.at.start + len) }
{
    if ends_line(state.line, state.depth) {
        push_mark(tokens, TokenKind::Newline, state.at)?;
    }
    let line = after_line_end(state.line, state.depth);
    pass(state, rest, len, line);
    Ok(())
}

/// The token that stands here, and what is known after it.
fn push_token(
    state: &mut State,
    rest: &[u8],
    tokens: &mut Tokens,
    kind: TokenKind,
    len: usize,
) -> Result<(), Memory>
    requires within { len ≤ length rest.now }
    requires place { IsPlace state.old.at (length rest.now) }
    requires depth { state.old.depth ≤ 1_048_576 }
    ensures tokens { OnOk result (tokens.new ≡ tokens.old ++ record { kind = kind; span = state.old.at; len = len } ∷ []) }
    ensures state { OnOk result (state.new ≡ record { at = moved state.old.at (take len rest.now); line = Line.Within; columns = state.old.columns; depth = depth_after kind state.old.depth; raised = raised_after kind state.old.depth state.old.at state.old.raised }) }
    ensures place { OnOk result (IsPlace state.new.at (length rest.now - len)) }
    ensures start { OnOk result (state.new.at.start ≡ state.old.at.start + len) }
{
    state.raised = raised_after(&kind, state.depth, state.at, state.raised);
    state.depth = depth_after(&kind, state.depth);
    tokens.push(Token {
        kind,
        span: state.at,
        len: len as u32,
    })?;
    pass(state, rest, len, Line::Within);
    Ok(())
}

/// What stands at the end of a text.
fn finish(state: &State, tokens: &mut Tokens) -> Result<(), Fault>
    ensures ends { OnOk result (EndsWith (at_end state.now) tokens.old tokens.new) }
    ensures stops { IfErr result (IsStopOf (at_end state.now)) }
{
    if state.depth > 0 {
        return Err(Fault::Refused(LexRefusal {
            kind: LexKind::OpenBracket,
            at: state.raised,
        }));
    }
    push_last(state.line, state.at, state.columns.len(), tokens)?;
    Ok(())
}
