ghost use Rattle.std.specs.Prelude.{◌≡◌, ◌≤◌, ◌+◌, length, drop};
ghost use Rattle.indent_lexer.specs.Place.{moved, stepped, line_end_len, begins_with, IsPlace};

use codon_base::Span;

/// How many bytes the line end takes that a text begins with, 0 where it begins with none.
pub fn line_end_len(text: &[u8]) -> usize
    ensures value { result ≡ line_end_len text.now }
    ensures within { result ≤ length text.now }
{
    match text {
        [b'\n', ..] => 1,
        [b'\r', b'\n', ..] => 2,
        [b'\r', ..] => 1,
        _ => 0,
    }
}

/// The place after a piece of text.
pub fn moved(at: Span, piece: &[u8]) -> Span
    requires { IsPlace at (length piece.now) }
    ensures value { result ≡ moved at piece.now }
    ensures place { IsPlace result 0 }
    ensures start { result.start ≡ at.start + length piece.now }
{
    let mut place = at;
    let mut rest = piece;
    'bytes: while let [byte, after @ ..] = rest {
        place = stepped(place, *byte, after);
        rest = after;
    }
    place
}

/// The place after one byte.
fn stepped(at: Span, byte: u8, after: &[u8]) -> Span
    requires { IsPlace at (length after.now + 1) }
    ensures value { result ≡ stepped at byte after.now }
    ensures place { IsPlace result (length after.now) }
    ensures start { result.start ≡ at.start + 1 }
{
    let start = at.start + 1;
    if byte == b'\n' || (byte == b'\r' && !begins_with(b'\n', after)) {
        return Span {
            start,
            line: at.line + 1,
            column: 1,
        };
    }
    if byte == b'\r' || (byte >= 128 && byte < 192) {
        return Span {
            start,
            line: at.line,
            column: at.column,
        };
    }
    Span {
        start,
        line: at.line,
        column: at.column + 1,
    }
}

/// Whether a text begins with this byte.
pub fn begins_with(byte: u8, text: &[u8]) -> bool
    ensures { result ≡ begins_with byte text.now }
{
    match text {
        [first, ..] => *first == byte,
        [] => false,
    }
}

/// What is left of a text after its first bytes.
pub fn after(text: &[u8], len: usize) -> &[u8]
    requires { len ≤ length text.now }
    ensures value { result.now ≡ drop len text.now }
    ensures len { length result.now + len ≡ length text.now }
{
    &text[len..]
}
