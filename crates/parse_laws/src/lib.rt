//! Laws of parsers over tokens of any type: how a parser is proved to answer exactly what a grammar says, with the
//! first token that no text goes on with.
//!
//! A parser is a function on a list of tokens. It meets one law: what it read is the only reading, and what it refused
//! is the first bad token. Each form that grammars are made of (sequence, choice by the next token, brackets, rows with
//! commas, chains of operators, a limit of height) has one lemma that gives the law of the whole from the laws of its
//! parts. It knows nothing of any grammar and of any token.
#![tactic(auto)]

mod cause;
mod place;
#[cfg(test)]
mod tests;

pub use cause::Cause;
pub use place::{BadToken, Grammar, bad_token};
