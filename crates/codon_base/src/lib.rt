//! Values of a program, the heap that they live on, whole numbers of 64 bits and the bytes that values are printed as; and the places, numbers and types by which the crates above name things. It promises what each operator on whole numbers gives, what a heap holds after each change and what values are printed as, exactly, and knows nothing of syntax trees or machine code.
#![tactic(auto)]

mod bytes;
mod cell_op;
mod fault;
mod heap;
mod memory;
mod number;
mod object;
mod print;
mod quote;
mod show;
mod sighted;
mod source;
mod text;
mod ty;
mod value;
mod walk;

pub use bytes::{Bytes, Spelling};
pub use cell_op::{CellOp, combine, combine_laws, neutral};
pub use fault::{Ending, Fault, FaultKind};
pub use heap::{Heap, Holder};
pub use memory::{Memory, Or};
pub use number::{
    floor_div, floor_mod, shift_left, shift_right, wrap_add, wrap_mul, wrap_neg, wrap_pow, wrap_sub,
};
pub use object::Object;
pub use print::push_shown;
pub use show::{ShowRefusal, show_value, show_whole};
pub use sighted::{Sighted, Unlent};
pub use source::{FuncId, NodeId, Span};
pub use text::Text;
pub use ty::{Ty, Tys};
pub use value::{Ref, Value, Values};
pub use walk::{NESTING_LIMIT, VALUE_LIMIT, WalkEnd, items_at, whole_items};

#[cfg(test)]
mod tests;
