ghost use Rattle.std.specs.Prelude.{◌≡◌, ◌≤◌, length, map};
ghost use Rattle.std.specs.List.{list_any};
ghost use Rattle.std.specs.Str.{bytes_eq};
ghost use Rattle.indent_lexer.specs.Word.{is_keyword, operator_len, longest_in, fitting_len};

const KEYWORDS: [&[u8]; 35] = [
    b"False",
    b"None",
    b"True",
    b"and",
    b"as",
    b"assert",
    b"async",
    b"await",
    b"break",
    b"class",
    b"continue",
    b"def",
    b"del",
    b"elif",
    b"else",
    b"except",
    b"finally",
    b"for",
    b"from",
    b"global",
    b"if",
    b"import",
    b"in",
    b"is",
    b"lambda",
    b"nonlocal",
    b"not",
    b"or",
    b"pass",
    b"raise",
    b"return",
    b"try",
    b"while",
    b"with",
    b"yield",
];

/// Operators and delimiters, those of more bytes first.
const OPERATORS: [&[u8]; 45] = [
    b"||>", b"...", b"**=", b"//=", b"<<=", b">>=", b"|>", b"**", b"//", b"<<", b">>", b"==",
    b"!=", b"<=", b">=", b"+=", b"-=", b"*=", b"%=", b"&=", b"|=", b"^=", b"->", b"+", b"-", b"*",
    b"%", b"&", b"|", b"^", b"~", b"<", b">", b"=", b"(", b")", b"[", b"]", b"{", b"}", b",", b":",
    b".", b";", b"@",
];

/// Whether a spelling is a keyword.
pub fn is_keyword(spelling: &[u8]) -> bool
    ensures { result ≡ is_keyword spelling.now }
{
    is_among(spelling, KEYWORDS.as_slice())
}

/// The length of the longest operator that a text begins with, 0 where it begins with none.
pub fn operator_len(text: &[u8]) -> usize
    ensures value { result ≡ operator_len text.now }
    ensures within { result ≤ length text.now }
{
    longest_in(OPERATORS.as_slice(), text)
}

fn is_among(spelling: &[u8], table: &[&[u8]]) -> bool
    ensures { result ≡ list_any (λ w. bytes_eq spelling.now w.now) table.now }
{
    let mut rest = table;
    'entries: while let [entry, after @ ..] = rest {
        if spelling == *entry {
            return true;
        }
        rest = after;
    }
    false
}

/// The length of the longest entry that a text begins with, 0 where it begins with none.
fn longest_in(table: &[&[u8]], text: &[u8]) -> usize
    ensures value { result ≡ longest_in (map (λ w. w.now) table.now) text.now }
    ensures within { result ≤ length text.now }
{
    let mut longest: usize = 0;
    let mut rest = table;
    'entries: while let [entry, after @ ..] = rest {
        longest = longest.max(fitting_len(entry, text));
        rest = after;
    }
    longest
}

/// The length of an entry that a text begins with, else 0.
fn fitting_len(entry: &[u8], text: &[u8]) -> usize
    ensures value { result ≡ fitting_len entry.now text.now }
    ensures within { result ≤ length text.now }
{
    if text.starts_with(entry) {
        entry.len()
    } else {
        0
    }
}
