//! Gives the nodes of a syntax tree their numbers 0, 1, 2 and so on in preorder. It stands between what reads a source, whose nodes have no numbers yet, and what tells nodes apart by them.
#![tactic(auto)]

mod annotation;
mod both;
mod expression;
mod item;
mod node;
mod pipeline;
mod statement;
mod target;
mod turned;

pub use item::number_nodes;
