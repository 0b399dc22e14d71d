//! The parser of types and expressions, as functions on lists of tokens with their law, and what it is made of in code.
//!
//! `specs/Reading`, `specs/TypeReading` and `specs/TargetReading` say how tokens are read one after the other.
//! `law_of_expressions`, `law_of_types` and `law_of_targets` promise that they answer exactly what the grammar says, at
//! every limit of height. `read_expression`, `read_type` and `read_target` read from a cursor over the tokens, which are not
//! copied, and answer as those functions do; a refused token is the one at which the cursor stands. Each tree keeps its
//! height, so that no tree is walked. It knows nothing of statements.
#![tactic(auto)]

mod annotation;
mod atom;
mod condition;
mod cursor;
mod form;
mod laws;
mod leaf;
mod measured;
mod operator;
mod postfix;
mod read;
mod reader;
mod start;
mod target;
mod word;

pub use annotation::read_type;
pub use cursor::{Cursor, ParseError, is_keyword, is_op, is_word, node_at};
pub use form::Form;
pub use laws::{law_of_expressions, law_of_targets, law_of_types};
pub use measured::{Comparisons, Measured, Row};
pub use read::read_expression;
pub use start::{Start, TypeStart, start_of, type_start_of};
pub use target::read_target;
