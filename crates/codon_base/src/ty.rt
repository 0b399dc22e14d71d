use sqlite_items::{Boxed, Items};

/// Types in order.
pub type Tys = Items<Ty>;

/// The type of a value, without variables.
#[derive(Drop)]
pub enum Ty {
    Int,
    Bool,
    Text,
    Unit,
    Tuple(Tys),
    /// A list and the type of its items.
    List(Boxed<Ty>),
    /// A class, by its number in the program, from 0.
    Class(u32),
}
