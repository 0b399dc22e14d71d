ghost use Rattle.std.specs.Prelude.{◌≡◌, cond, Some, None, IfOk};
ghost use Rattle.std.specs.Str.{bytes_eq};
ghost use Rattle.grammar_rules.specs.Levels.{operators, signs, comparators};
ghost use Rattle.grammar_rules.specs.Words.{node_at, name_of, name_at, text_of, look_up, entry};
ghost use Rattle.parse_laws.specs.Parser.{sees, has, take_by};
ghost use Rattle.parse_expressions.specs.Forms.{row_of, opening_ops, opening_words, opened_by, begins};
ghost use Rattle.parse_expressions.specs.Reading.{plain_at, constant, leaf_of, text_at, sign_at, in_or_symbol, compares, is_name, is_text};
ghost use Rattle.parse_expressions.specs.Code.{Reads};

use crate::Cursor;
use crate::cursor::{ParseError, is_keyword, is_word, node_at, spells};
use crate::measured::{self, Measured};
use codon_base::Spelling;
use grammar_rules::Rank;
use indent_lexer::{Token, TokenKind};
use parse_laws::Cause;
use source_trees::{BinaryOp, Comparator, Name, Node, UnaryOp};
use sqlite_items::Items;
use std::alloc::{AllocError, Global};

/// A name with its place, where the token is one.
fn name_at(alloc: Global, token: &Token) -> Result<Option<Name>, AllocError>
    ensures { IfOk result (λ name. name ≡ name_at token.now) }
{
    match &token.kind {
        TokenKind::Name(spelling) => {
            let spelling = Items::from_slice(alloc, spelling.as_slice())?;
            Ok(Some(Name {
                node: node_at(token),
                spelling,
            }))
        }
        _ => Ok(None),
    }
}

/// The tree of a number or a constant, where the token is one.
fn leaf_of(alloc: Global, token: &Token) -> Result<Option<Measured>, AllocError>
    ensures { IfOk result (λ leaf. leaf ≡ leaf_of token.now) }
{
    let node = node_at(token);
    match &token.kind {
        TokenKind::Number(value) => {
            let leaf = measured::number(alloc, node, *value)?;
            Ok(Some(leaf))
        }
        TokenKind::Keyword(spelling) => {
            let leaf = constant(alloc, node, spelling)?;
            Ok(leaf)
        }
        _ => Ok(None),
    }
}

/// The tree of a constant, where the keyword is one.
fn constant(alloc: Global, node: Node, spelling: &Spelling) -> Result<Option<Measured>, AllocError>
    ensures { IfOk result (λ leaf. leaf ≡ constant node spelling.now) }
{
    if spells(spelling, b"True".as_slice()) {
        let leaf = measured::truth(alloc, node)?;
        Ok(Some(leaf))
    } else if spells(spelling, b"False".as_slice()) {
        let leaf = measured::falsity(alloc, node)?;
        Ok(Some(leaf))
    } else if spells(spelling, b"None".as_slice()) {
        let leaf = measured::nothing(alloc, node)?;
        Ok(Some(leaf))
    } else {
        Ok(None)
    }
}

/// The sign that the token is.
fn sign_of(token: &Token) -> Option<UnaryOp>
    ensures { result ≡ look_up signs token.now }
{
    let TokenKind::Op(spelling) = &token.kind else {
        return None;
    };
    if spells(spelling, b"+".as_slice()) {
        Some(UnaryOp::Plus)
    } else if spells(spelling, b"-".as_slice()) {
        Some(UnaryOp::Minus)
    } else if spells(spelling, b"~".as_slice()) {
        Some(UnaryOp::Invert)
    } else {
        None
    }
}

/// The operator of this rank that a spelling is.
fn operator_in(rank: Rank, spelling: &Spelling) -> Option<BinaryOp>
    ensures { result ≡ entry spelling.now (operators rank) }
{
    match rank {
        Rank::BitOr => only(spelling, b"|".as_slice(), BinaryOp::Or),
        Rank::BitXor => only(spelling, b"^".as_slice(), BinaryOp::Xor),
        Rank::BitAnd => only(spelling, b"&".as_slice(), BinaryOp::And),
        Rank::Shift => {
            if spells(spelling, b"<<".as_slice()) {
                Some(BinaryOp::ShiftLeft)
            } else {
                only(spelling, b">>".as_slice(), BinaryOp::ShiftRight)
            }
        }
        Rank::Sum => {
            if spells(spelling, b"+".as_slice()) {
                Some(BinaryOp::Add)
            } else {
                only(spelling, b"-".as_slice(), BinaryOp::Subtract)
            }
        }
        Rank::Term => {
            if spells(spelling, b"*".as_slice()) {
                Some(BinaryOp::Multiply)
            } else if spells(spelling, b"//".as_slice()) {
                Some(BinaryOp::FloorDivide)
            } else {
                only(spelling, b"%".as_slice(), BinaryOp::Modulo)
            }
        }
    }
}

fn only(spelling: &Spelling, word: &[u8], op: BinaryOp) -> Option<BinaryOp>
    ensures { result ≡ cond (bytes_eq spelling.now word.now) (Some op) None }
{
    if spells(spelling, word) {
        Some(op)
    } else {
        None
    }
}

/// The operator of this rank that the token is.
fn operator_of(rank: Rank, token: &Token) -> Option<BinaryOp>
    ensures { result ≡ look_up (operators rank) token.now }
{
    match &token.kind {
        TokenKind::Op(spelling) => operator_in(rank, spelling),
        _ => None,
    }
}

/// The comparator that the token is.
fn symbol_of(token: &Token) -> Option<Comparator>
    ensures { result ≡ look_up comparators token.now }
{
    let TokenKind::Op(spelling) = &token.kind else {
        return None;
    };
    if spells(spelling, b"==".as_slice()) {
        Some(Comparator::Equal)
    } else if spells(spelling, b"!=".as_slice()) {
        Some(Comparator::NotEqual)
    } else if spells(spelling, b"<".as_slice()) {
        Some(Comparator::Less)
    } else if spells(spelling, b"<=".as_slice()) {
        Some(Comparator::LessEqual)
    } else if spells(spelling, b">".as_slice()) {
        Some(Comparator::Greater)
    } else if spells(spelling, b">=".as_slice()) {
        Some(Comparator::GreaterEqual)
    } else {
        None
    }
}

/// The comparator that the token is, or `in`.
fn in_or_symbol(token: &Token) -> Option<Comparator>
    ensures { result ≡ in_or_symbol token.now }
{
    if is_keyword(token, b"in".as_slice()) {
        Some(Comparator::In)
    } else {
        symbol_of(token)
    }
}

/// How tight a form is that begins with a token of this kind: 1 for an atom, 2 for a sign, 3 for `not`, and 100 where none begins.
fn opened_by(kind: &TokenKind) -> u8
    ensures { result ≡ opened_by kind.now }
{
    match kind {
        TokenKind::Name(spelling) => {
            if spells(spelling, b"print".as_slice()) {
                100
            } else {
                1
            }
        }
        TokenKind::Number(_) => 1,
        TokenKind::Text(_) => 1,
        TokenKind::Op(spelling) => opened_by_op(spelling),
        TokenKind::Keyword(spelling) => opened_by_word(spelling),
        _ => 100,
    }
}

fn opened_by_op(spelling: &Spelling) -> u8
    ensures { result ≡ row_of opening_ops spelling.now }
{
    if spells(spelling, b"(".as_slice()) {
        1
    } else if spells(spelling, b"[".as_slice()) {
        1
    } else if spells(spelling, b"+".as_slice()) {
        2
    } else if spells(spelling, b"-".as_slice()) {
        2
    } else if spells(spelling, b"~".as_slice()) {
        2
    } else {
        100
    }
}

fn opened_by_word(spelling: &Spelling) -> u8
    ensures { result ≡ row_of opening_words spelling.now }
{
    if spells(spelling, b"True".as_slice()) {
        1
    } else if spells(spelling, b"False".as_slice()) {
        1
    } else if spells(spelling, b"None".as_slice()) {
        1
    } else if spells(spelling, b"not".as_slice()) {
        3
    } else {
        100
    }
}

/// Whether the token begins an expression of this tightness: 1 for an atom, 2 with signs, 3 with `not`.
pub fn begins(token: &Token, opening: u8) -> bool
    ensures { result ≡ begins opening token.now }
{
    opened_by(&token.kind) <= opening
}

impl<'a> Cursor<'a> {
    /// Whether the next token begins an expression of this tightness.
    pub fn begins(&self, opening: u8) -> bool
        ensures { result ≡ sees (begins opening) self.now }
    {
        match self.first() {
            None => false,
            Some(first) => begins(first, opening),
        }
    }

    /// Takes a name.
    pub fn take_name(&mut self, alloc: Global) -> Result<Name, ParseError>
        ensures { Reads (take_by name_at self.old) result self.new }
    {
        let Some(first) = self.first() else {
            return Err(ParseError::Refused(Cause::Unexpected));
        };
        let Some(name) = name_at(alloc, first)? else {
            return Err(ParseError::Refused(Cause::Unexpected));
        };
        self.skip();
        Ok(name)
    }

    /// Takes a name that is no `print`.
    pub fn take_plain_name(&mut self, alloc: Global) -> Result<Name, ParseError>
        ensures { Reads (take_by plain_at self.old) result self.new }
    {
        let Some(first) = self.first() else {
            return Err(ParseError::Refused(Cause::Unexpected));
        };
        if is_word(first, b"print".as_slice()) {
            return Err(ParseError::Refused(Cause::Unexpected));
        }
        let Some(name) = name_at(alloc, first)? else {
            return Err(ParseError::Refused(Cause::Unexpected));
        };
        self.skip();
        Ok(name)
    }

    /// Takes a number or a constant.
    pub fn take_leaf(&mut self, alloc: Global) -> Result<Measured, ParseError>
        ensures { Reads (take_by leaf_of self.old) result self.new }
    {
        let Some(first) = self.first() else {
            return Err(ParseError::Refused(Cause::Unexpected));
        };
        let Some(leaf) = leaf_of(alloc, first)? else {
            return Err(ParseError::Refused(Cause::Unexpected));
        };
        self.skip();
        Ok(leaf)
    }

    /// Takes a comparator of one token.
    pub fn take_symbol(&mut self) -> Result<Comparator, ParseError>
        ensures { Reads (take_by in_or_symbol self.old) result self.new }
    {
        let Some(first) = self.first() else {
            return Err(ParseError::Refused(Cause::Unexpected));
        };
        let Some(op) = in_or_symbol(first) else {
            return Err(ParseError::Refused(Cause::Unexpected));
        };
        self.skip();
        Ok(op)
    }

    /// Takes an operator of this rank.
    pub fn take_operator(&mut self, rank: Rank) -> Result<BinaryOp, ParseError>
        ensures { Reads (take_by (look_up (operators rank)) self.old) result self.new }
    {
        let Some(first) = self.first() else {
            return Err(ParseError::Refused(Cause::Unexpected));
        };
        let Some(op) = operator_of(rank, first) else {
            return Err(ParseError::Refused(Cause::Unexpected));
        };
        self.skip();
        Ok(op)
    }

    /// Takes a sign, with its place.
    pub fn take_sign(&mut self) -> Result<(Node, UnaryOp), ParseError>
        ensures { Reads (take_by sign_at self.old) result self.new }
    {
        let Some(first) = self.first() else {
            return Err(ParseError::Refused(Cause::Unexpected));
        };
        let Some(op) = sign_of(first) else {
            return Err(ParseError::Refused(Cause::Unexpected));
        };
        self.skip();
        Ok((node_at(first), op))
    }

    /// Whether the next token is a name.
    pub fn sees_name(&self) -> bool
        ensures { result ≡ sees is_name self.now }
    {
        match self.first() {
            None => false,
            Some(first) => matches!(first.kind, TokenKind::Name(_)),
        }
    }

    /// Whether the next token is a sign.
    pub fn sees_sign(&self) -> bool
        ensures { result ≡ sees (has sign_at) self.now }
    {
        match self.first() {
            None => false,
            Some(first) => sign_of(first).is_some(),
        }
    }

    /// Whether the next token is an operator of this rank.
    pub fn sees_operator(&self, rank: Rank) -> bool
        ensures { result ≡ sees (has (look_up (operators rank))) self.now }
    {
        match self.first() {
            None => false,
            Some(first) => operator_of(rank, first).is_some(),
        }
    }

    /// Whether a comparison begins with the next token.
    pub fn compares(&self) -> bool
        ensures { result ≡ sees compares self.now }
    {
        match self.first() {
            None => false,
            Some(first) => is_keyword(first, b"not".as_slice()) || in_or_symbol(first).is_some(),
        }
    }
}
