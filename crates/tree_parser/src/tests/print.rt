//! Trees as source: each statement on a line of its own, blocks four blanks further in, one blank round operators.

mod expression;
mod item;
mod statement;

pub(super) use item::print_module;
