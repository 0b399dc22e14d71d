ghost use Rattle.std.specs.Prelude.{◌≡◌, List, [], ◌∷◌, length, drop, MatchOption};
ghost use Rattle.std.specs.Str.{bytes_eq};
ghost use Rattle.grammar_rules.specs.Words.{is_op, is_keyword, is_word, node_at};
ghost use Rattle.parse_laws.specs.Parser.{sees, expect};
ghost use Rattle.parse_expressions.specs.Code.{ReadsToken};

use codon_base::{NodeId, Spelling};
use indent_lexer::{Token, TokenKind};
use parse_laws::Cause;
use source_trees::Node;
use std::alloc::AllocError;
use std::marker::Model;

/// Why a parser stopped.
#[derive(Clone, Copy, Debug, PartialEq, Eq)]
pub enum ParseError {
    /// Memory ran out.
    Memory,
    /// The token at the cursor is the first that no text goes on with.
    Refused(Cause),
}

impl From<AllocError> for ParseError {
    ghost use Rattle.std.specs.Prelude.{◌≡◌};
    ghost use Rattle.parse_expressions.specs.declared.cursor.ParseError.TheVariants.{Memory};

    ghost from_gives = { λ _ e. e ≡ Memory };

    fn from(_: AllocError) -> ParseError {
        ParseError::Memory
    }
}

/// The tokens that are left to read. Contracts see the list of them.
#[derive(Drop)]
pub struct Cursor<'a> {
    rest: &'a [Token],
}

impl<'a> Model for Cursor<'a> {
    ghost use Rattle.std.specs.Prelude.{List};
    ghost use Rattle.indent_lexer.specs.declared.token.Token.{Token};

    ghost Value = { List Token };

    ghost view = { λ t. t.rest.now };
}

impl<'a> Cursor<'a> {
    /// A cursor at the first of these tokens.
    pub fn new(rest: &'a [Token]) -> Cursor<'a>
        ensures { result ≡ rest.now }
    {
        Cursor { rest }
    }

    /// How many tokens are left.
    pub fn left(&self) -> usize
        ensures { result ≡ length self.now }
    {
        self.rest.len()
    }

    /// The next token.
    pub fn first(&self) -> Option<&'a Token>
        ensures { MatchOption result (self.now ≡ []) (λ t. (rest : List Token) × (self.now ≡ t.now ∷ rest)) }
    {
        self.rest.first()
    }

    /// Passes the next token, if there is one.
    pub fn skip(&mut self)
        ensures { self.new ≡ drop 1 self.old }
    {
        if let [_, rest @ ..] = self.rest {
            self.rest = rest;
        }
    }

    /// Whether the next token is this operator.
    pub fn sees_op(&self, word: &[u8]) -> bool
        ensures { result ≡ sees (is_op word.now) self.now }
    {
        match self.rest {
            [] => false,
            [first, ..] => is_op(first, word),
        }
    }

    /// Whether the next token is this keyword.
    pub fn sees_keyword(&self, word: &[u8]) -> bool
        ensures { result ≡ sees (is_keyword word.now) self.now }
    {
        match self.rest {
            [] => false,
            [first, ..] => is_keyword(first, word),
        }
    }

    /// Takes this operator, or refuses the next token.
    pub fn expect_op(&mut self, word: &[u8]) -> Result<&'a Token, ParseError>
        ensures { ReadsToken (expect (is_op word.now) self.old) result self.new }
    {
        match self.rest {
            [] => Err(ParseError::Refused(Cause::Unexpected)),
            [first, rest @ ..] => {
                if is_op(first, word) {
                    self.rest = rest;
                    Ok(first)
                } else {
                    Err(ParseError::Refused(Cause::Unexpected))
                }
            }
        }
    }

    /// Takes this keyword, or refuses the next token.
    pub fn expect_keyword(&mut self, word: &[u8]) -> Result<&'a Token, ParseError>
        ensures { ReadsToken (expect (is_keyword word.now) self.old) result self.new }
    {
        match self.rest {
            [] => Err(ParseError::Refused(Cause::Unexpected)),
            [first, rest @ ..] => {
                if is_keyword(first, word) {
                    self.rest = rest;
                    Ok(first)
                } else {
                    Err(ParseError::Refused(Cause::Unexpected))
                }
            }
        }
    }
}

/// Whether the spelling is this word.
pub fn spells(spelling: &Spelling, word: &[u8]) -> bool
    ensures { result ≡ bytes_eq spelling.now word.now }
{
    spelling.as_slice() == word
}

/// Whether the token is this operator.
pub fn is_op(token: &Token, word: &[u8]) -> bool
    ensures { result ≡ is_op word.now token.now }
{
    match &token.kind {
        TokenKind::Op(spelling) => spells(spelling, word),
        _ => false,
    }
}

/// Whether the token is this keyword.
pub fn is_keyword(token: &Token, word: &[u8]) -> bool
    ensures { result ≡ is_keyword word.now token.now }
{
    match &token.kind {
        TokenKind::Keyword(spelling) => spells(spelling, word),
        _ => false,
    }
}

/// Whether the token is a name with this spelling.
pub fn is_word(token: &Token, word: &[u8]) -> bool
    ensures { result ≡ is_word word.now token.now }
{
    match &token.kind {
        TokenKind::Name(spelling) => spells(spelling, word),
        _ => false,
    }
}

/// The node that begins at the token, without its number.
pub fn node_at(token: &Token) -> Node
    ensures { result ≡ node_at token.now }
{
    Node {
        id: NodeId(0),
        at: token.span,
    }
}
