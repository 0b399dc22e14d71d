//! The parser of statements: for each form the language of its tokens is the grammar's, and the parser, a function on lists of tokens, meets the one law of parsers at every limit of height. What it reads is the only tree, and what it refuses is the first token that no statement goes on with, within the limit or at all.
//!
//! The laws stand on parsers of expressions and types that meet their own laws (`Exact`), and know nothing of how these read. The code reads simple statements and lines from a cursor over the tokens, and answers as those functions do.
#![tactic(auto)]

mod head;
mod law;
mod lead;
mod line;
mod operator;
mod option;
mod print;
mod row;
mod simple;
mod stage;
mod target;
mod token;

pub use law::{law_of_lines, law_of_simple_statements};
pub use lead::{Follow, Lead};
pub use line::{read_line, starts_simple};
pub use option::{Setting, read_options};
pub use print::PrintOption;
pub use row::read_items;
pub use simple::read_simple;
pub use token::{MOST_ITEMS, expect_newline, expect_word, sees_newline, sees_word, spells};
