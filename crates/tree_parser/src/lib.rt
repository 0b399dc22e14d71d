//! The parser: the syntax tree of a list of tokens, or the first token that no source goes on with.
//!
//! `parse` promises both ways what the grammar says (`grammar_rules`): the tree that it answers is the one that the tokens
//! have within the limit of height, with its nodes numbered in preorder, and the token that it refuses is the first one that
//! no source goes on with. It stands on the parsers of expressions, statements and blocks, and gives the nodes their
//! numbers. It knows nothing of characters, nor of what a tree means.
#![tactic(auto)]

mod law;
mod read;

pub use grammar_rules::{ParseKind, ParseRefusal};
pub use law::{law_of_lexed_tokens, law_of_parsing};
pub use read::parse;

#[cfg(test)]
mod tests;
