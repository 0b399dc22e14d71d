//! The tokens of a source text.
//!
//! `lex` answers the list of tokens of a text in UTF-8, or the first place at which it has none, both exactly
//! as `specs/Tokens.antt` says it after chapter 2 of the Python reference. It knows nothing of the grammar
//! above tokens.
#![tactic(auto)]

mod brackets;
mod columns;
mod fault;
mod laws;
mod lexer;
mod line;
mod marks;
mod name;
mod number;
mod piece;
mod place;
mod text;
mod token;
mod word;

pub use laws::at_most_one_reading;
pub use lexer::lex;
pub use token::{LexKind, LexRefusal, Token, TokenKind, Tokens};

#[cfg(test)]
mod tests;
