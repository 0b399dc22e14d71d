use codon_base::{Span, Spelling, Text};
use sqlite_items::Items;

/// The tokens of a text in order. Contracts see the list of them.
pub type Tokens = Items<Token>;

/// What a token is.
#[derive(Debug, Drop)]
pub enum TokenKind {
    /// A name that is no keyword, with its spelling in UTF-8.
    Name(Spelling),
    /// A number, with its value from 0 to 2^63 - 1.
    Number(i64),
    /// A text, with its value: without quotes, and with what each escape stands for.
    Text(Text),
    /// A keyword, with its spelling.
    Keyword(Spelling),
    /// An operator or a delimiter, with its spelling.
    Op(Spelling),
    /// The end of a logical line.
    Newline,
    /// The line that begins here stands further in than the one before.
    Indent,
    /// The line that begins here has left one indented block.
    Dedent,
    /// The end of the text.
    End,
}

/// A token and where it stands.
#[derive(Debug, Drop)]
pub struct Token {
    pub kind: TokenKind,
    /// Its first character, or the place of a `Newline`, `Indent`, `Dedent` or `End`.
    pub span: Span,
    /// How many bytes it is spelled with, 0 for the last four kinds.
    pub len: u32,
}

/// Why a text has no tokens.
#[derive(Clone, Copy, Debug, PartialEq, Eq)]
pub enum LexKind {
    /// It is not UTF-8.
    NotUtf8,
    /// A character that begins no token, an unknown escape, or a backslash that joins no lines.
    BadChar,
    /// A tab before the first token of a line.
    Tab,
    /// A line stands further out than the one before, and at no column of an outer line.
    BadDedent,
    /// A number out of form, too large, or right before a name or a dot.
    BadNumber,
    /// A text that is not closed.
    OpenString,
    /// A text that holds a character past ASCII.
    NonAsciiText,
    /// The text has more than 1,048,576 bytes.
    TooLong,
    /// A bracket that is not closed.
    OpenBracket,
}

/// Why and where a text has no tokens.
#[derive(Clone, Copy, Debug, PartialEq, Eq)]
pub struct LexRefusal {
    pub kind: LexKind,
    pub at: Span,
}
