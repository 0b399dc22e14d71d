//! The syntax trees of sources: one variant for each form of the grammar, each node with its number in preorder and its place, and the walks over trees that later crates share. It knows nothing of tokens, nor of what a tree means.
#![tactic(auto)]

mod clone;
mod expression;
mod height;
mod item;
mod node;
mod operator;
mod pipeline;
mod prelude_tree;
mod statement;

pub use expression::{Commas, Comparison, Expr};
pub use item::{Annotation, Class, Function, Item, Member, Module, Param};
pub use node::{Name, Node};
pub use operator::{BinaryOp, Comparator, UnaryOp};
pub use pipeline::{Joint, PrintOptions, Printed, Stage, StageForm};
pub use prelude_tree::prelude;
pub use statement::{Arm, For, LoopNames, ParOptions, Schedule, Stmt, Target, Targets};
