//! What a source means, by definitions over its tree: what it prints, how it ends, and which regions it runs, on so much fuel; and the laws of these definitions. It knows nothing of types, of code that runs, of machine code or of threads.
#![tactic(auto)]

mod law;

pub use law::{keeps_waiting, law_of_fuel, prints_more};
