//! What the operators and builtins make of values: a value, the items of a new list, or a fault. It promises for each of them exactly what the definitions of `codon_base` say, and knows nothing of syntax trees, names or the order in which operands are evaluated.
#![tactic(auto)]

mod change;
mod compare;
mod conditions;
mod contain;
mod convert;
mod extreme;
mod join;
mod made;
mod numeral;
mod numeric;
mod order;
mod place;
mod repeat;
mod slices;
mod text_search;

pub use change::{ChangeRefusal, cleared, extended, field_set, item_popped, item_pushed, item_set};
pub use compare::{is_equal, is_unequal};
pub use conditions::{negation, truth, truth_of};
pub use contain::{is_in, is_not_in};
pub use convert::{character_from, code_of, int_from, length_of, text_from};
pub use extreme::{greatest_item, least_item};
pub use join::plus;
pub use made::Made;
pub use numeric::{
    bits_and, bits_or, bits_xor, complemented, floor_divided, minus, modulo, negated, shifted_left,
    shifted_right, to_the_power, unchanged,
};
pub use order::{greater, greater_equal, greatest, least, less, less_equal};
pub use place::{indexed, place_of, tuple_item};
pub use repeat::times;
pub use slices::{bound_of, sliced};

#[cfg(test)]
mod tests;
