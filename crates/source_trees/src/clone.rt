//! Equal copies of trees.

mod annotation;
mod expression;
mod item;
mod node;
mod pipeline;
mod statement;
mod target;
