//! What a source means: the laws of the definitions of `meaning_rules` and the interpreter of `plain_interpreter`, which is proved to give that meaning. Nothing of its own stands here but the tests over whole trees.
#![tactic(auto)]

pub use meaning_rules::{keeps_waiting, law_of_fuel, prints_more};
pub use plain_interpreter::{Plain, PlainEnd, run_plain};

#[cfg(test)]
mod tests;
