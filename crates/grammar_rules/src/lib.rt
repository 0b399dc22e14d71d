//! The grammar: which lists of tokens derive which tree, the limit on the height of trees, and the first token that a list of tokens does not go on with.
//!
//! The rules stand in `specs/`, one case for each way to write a form: `Types`, `Expressions`, `Simple`, `Statements` and `Modules`. Here stand the ranks of operators and what a refusal holds. It knows nothing of how tokens are read one after the other.
#![tactic(auto)]

mod level;
mod refusal;

pub use level::{Junction, Rank};
pub use refusal::{ParseKind, ParseRefusal};
