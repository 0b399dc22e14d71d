//! Trees and their numbers: what the grammar derives has no numbers yet, so that it is its own bare tree; and a tree is told by its bare tree and the numbers of its nodes.
#![tactic(auto)]

mod law;

pub use law::{law_of_bare_heights, law_of_derived_trees, law_of_numbered_trees, law_of_numbering};
