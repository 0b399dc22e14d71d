//! A loop that runs the instructions of a module.

mod runner;
mod stack;

pub use runner::{RunStop, run};
