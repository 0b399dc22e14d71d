ghost use Rattle.std.specs.Prelude.{◌≡◌, ◌<◌, ◌++◌, OnOk};
ghost use Rattle.codon_base.specs.Printed.{quote_of, hex_digit, escaped, quoted};

use crate::{Memory, Text};

/// Writes a text in quotes at the end, as it stands in a list or a tuple.
pub(crate) fn push_quoted(to: &mut Text, text: &Text) -> Result<(), Memory>
    ensures { OnOk result (to.new ≡ to.old ++ quoted text.now) }
{
    let quote = quote_for(text.as_bytes());
    to.push(quote)?;
    'quoted: for byte in text.as_bytes() {
        push_escaped(to, quote, *byte)?;
    }
    to.push(quote)?;
    Ok(())
}

/// The quote round a text: `"` where it holds `'` and no `"`, and else `'`.
fn quote_for(text: &[u8]) -> u8
    ensures value { result ≡ quote_of text.now }
    ensures ascii { result < 128 }
{
    if text.contains(&39) && !text.contains(&34) {
        34
    } else {
        39
    }
}

/// Writes a byte of a quoted text.
fn push_escaped(to: &mut Text, quote: u8, byte: u8) -> Result<(), Memory>
    requires quote { quote < 128 }
    requires byte { byte < 128 }
    ensures { OnOk result (to.new ≡ to.old ++ escaped quote byte) }
{
    if byte == quote || byte == b'\\' {
        to.push(b'\\')?;
        to.push(byte)?;
    } else if byte == b'\n' {
        to.append_bytes(b"\\n")?;
    } else if byte == b'\r' {
        to.append_bytes(b"\\r")?;
    } else if byte == b'\t' {
        to.append_bytes(b"\\t")?;
    } else if byte < 32 || byte == 127 {
        to.append_bytes(b"\\x")?;
        to.push(hex_digit(byte / 16))?;
        to.push(hex_digit(byte % 16))?;
    } else {
        to.push(byte)?;
    }
    Ok(())
}

/// A digit of base 16, with small letters.
fn hex_digit(n: u8) -> u8
    requires { n < 16 }
    ensures value { result ≡ hex_digit n }
    ensures ascii { result < 128 }
{
    if n < 10 { b'0' + n } else { b'a' + (n - 10) }
}
