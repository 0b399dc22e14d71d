//! The parser of statements with blocks, functions, classes and whole sources: for each form the language of its tokens is the grammar's, and the parser, a function on lists of tokens, meets the one law of parsers at every limit of height.
//!
//! The laws stand on parsers of expressions and types that meet their own laws, and know nothing of how these read. The code reads a whole source from its tokens, and answers as those functions do.
#![tactic(auto)]

mod block;
mod class;
mod function;
mod law;
mod mark;
mod source;

pub use block::{Blocks, read_statement};
pub use law::{law_of_readers, law_of_sources, law_of_statements, law_of_texts, law_of_trees};
pub use source::read_source;
