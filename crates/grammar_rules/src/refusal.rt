use codon_base::Span;

/// Why a list of tokens is no source.
#[derive(Clone, Copy, Debug, PartialEq, Eq)]
pub enum ParseKind {
    /// No source goes on with the token.
    Unexpected,
    /// Sources go on with the token, and each of them has a tree that is higher than the limit.
    TooDeep,
    /// No source goes on with the token, and it is a word of Python that this language leaves out, or one that stands where it may not.
    NotInProfile,
}

/// The first token that no source goes on with.
#[derive(Clone, Copy, Debug, PartialEq, Eq)]
pub struct ParseRefusal {
    pub kind: ParseKind,
    /// Its place in the list of tokens, from 0.
    pub token: u32,
    /// Where its first character stands.
    pub at: Span,
}
