ghost use Rattle.std.specs.Prelude.{◌≡◌, ◌≤◌, ◌<◌, ◌+◌, zero, length};
ghost use Rattle.std.specs.Str.{continuation_len, lead_bits};
ghost use Rattle.indent_lexer.specs.Name.{first_code, code_after, starts_name, continues_name, name_len, word_len};

use crate::place::after;
use unicode_ident::{is_xid_continue, is_xid_start};

/// How many bytes go on with the character that begins with this byte.
fn continuation_len(byte: u8) -> usize
    ensures value { result ≡ continuation_len byte }
    ensures few { result ≤ 3 }
{
    if byte < 128 {
        0
    } else if byte < 224 {
        1
    } else if byte < 240 {
        2
    } else {
        3
    }
}

/// The bits of a character that its first byte holds.
fn lead_bits(byte: u8) -> u32
    ensures value { result ≡ lead_bits byte }
    ensures small { result < 256 }
{
    if byte < 128 {
        u32::from(byte)
    } else if byte < 224 {
        u32::from(byte.saturating_sub(192))
    } else if byte < 240 {
        u32::from(byte - 224)
    } else {
        u32::from(byte - 240)
    }
}

/// The code of the character that a text begins with, 0 where the text is empty.
fn first_code(text: &[u8]) -> u32
    ensures { result ≡ first_code text.now }
{
    let [first, after @ ..] = text else {
        return 0;
    };
    let mut code = lead_bits(*first);
    let mut left = continuation_len(*first);
    let mut rest = after;
    'bytes: while left > 0 {
        let [byte, after @ ..] = rest else {
            return code;
        };
        code = code * 64 + u32::from(byte.saturating_sub(128));
        left -= 1;
        rest = after;
    }
    code
}

/// Whether a text begins with a character that may begin a name.
pub fn starts_name(text: &[u8]) -> bool
    ensures { result ≡ starts_name text.now }
{
    match char::from_u32(first_code(text)) {
        Some(character) => character == '_' || is_xid_start(character),
        None => false,
    }
}

/// Whether a text begins with a character that may go on with a name.
fn continues_name(text: &[u8]) -> bool
    ensures { result ≡ continues_name text.now }
{
    match char::from_u32(first_code(text)) {
        Some(character) => is_xid_continue(character),
        None => false,
    }
}

/// How many bytes the longest front of a text takes whose characters all go on with a name.
fn name_len(text: &[u8]) -> usize
    ensures value { result ≡ name_len 0 text.now }
    ensures within { result ≤ length text.now }
{
    let mut len: usize = 0;
    let mut rest = text;
    'characters: while let [first, ..] = rest {
        if !continues_name(rest) {
            return len;
        }
        let size = rest.len().min(continuation_len(*first) + 1);
        len += size;
        rest = after(rest, size);
    }
    len
}

/// How many bytes the first character of a text takes with the name characters after it.
pub fn word_len(text: &[u8]) -> usize
    ensures value { result ≡ word_len text.now }
    ensures within { result ≤ length text.now }
    ensures some { 0 < length text.now → 0 < result }
{
    let [first, ..] = text else {
        return 0;
    };
    let size = text.len().min(continuation_len(*first) + 1);
    size + name_len(after(text, size))
}
