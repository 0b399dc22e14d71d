use crate::prepared::Called;
use codon_base::{Value, Values};

/// A range by its start, stop and step.
#[derive(Drop)]
pub(crate) struct Numbers {
    pub(crate) start: Value,
    pub(crate) stop: Value,
    pub(crate) step: Value,
}

/// What a loop goes over: the numbers of a range, the items of a list or a text, or those of a call of a generator.
#[derive(Drop)]
pub(crate) enum Iterable<'m> {
    Numbers(Box<Numbers>),
    Items(Value),
    Generated(Called<'m>, Values),
}

/// Where a loop stands in what it goes over.
#[derive(Drop)]
pub(crate) enum Cursor {
    /// Past the end of the range of int, where no range goes on.
    Ended,
    /// A range at a number, with its stop and step.
    Number(i64, i64, i64),
    /// A list or a text at a place.
    Item(Value, u64),
}
