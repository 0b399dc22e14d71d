ghost use Rattle.std.specs.Prelude.{◌≡◌, ◌≤◌, ◌+◌};
ghost use Rattle.indent_lexer.specs.Tokens.{opens, closes, is_opening, is_closing, depth_after, raised_after};

use crate::token::TokenKind;
use codon_base::Span;

fn opens(kind: &TokenKind) -> bool
    ensures { result ≡ opens kind.now }
{
    match kind {
        TokenKind::Op(spelling) => is_opening(spelling.as_slice()),
        _ => false,
    }
}

fn closes(kind: &TokenKind) -> bool
    ensures { result ≡ closes kind.now }
{
    match kind {
        TokenKind::Op(spelling) => is_closing(spelling.as_slice()),
        _ => false,
    }
}

fn is_opening(spelling: &[u8]) -> bool
    ensures { result ≡ is_opening spelling.now }
{
    match spelling {
        [byte] => *byte == b'(' || *byte == b'[' || *byte == b'{',
        _ => false,
    }
}

fn is_closing(spelling: &[u8]) -> bool
    ensures { result ≡ is_closing spelling.now }
{
    match spelling {
        [byte] => *byte == b')' || *byte == b']' || *byte == b'}',
        _ => false,
    }
}

/// How many brackets are open after a token.
pub fn depth_after(kind: &TokenKind, depth: u32) -> u32
    requires { depth ≤ 1_048_576 }
    ensures value { result ≡ depth_after kind.now depth }
    ensures one { result ≤ depth + 1 }
{
    if opens(kind) {
        depth + 1
    } else if closes(kind) {
        depth.saturating_sub(1)
    } else {
        depth
    }
}

/// The bracket that last raised the depth from 0, after a token.
pub fn raised_after(kind: &TokenKind, depth: u32, at: Span, raised: Span) -> Span
    ensures { result ≡ raised_after kind.now depth at raised }
{
    if opens(kind) && depth == 0 {
        at
    } else {
        raised
    }
}
