//! Compiles sources in straight lines, which assign sums and print them, from their trees to instructions. What the code prints is what the reference meaning of the tree prints, `compile`; of any other source it tells the first node that is not built yet. It knows nothing of tokens, files, or of how a machine is built.
#![tactic(auto)]

mod compiler;
mod emitter;
mod fault;
mod item;
mod names;
mod statement;
mod sum;

pub use compiler::compile;
pub use fault::NotCompiled;
