//! How high trees are.

mod annotation;
mod expression;
mod item;
mod part;
mod pipeline;
mod statement;
mod target;
