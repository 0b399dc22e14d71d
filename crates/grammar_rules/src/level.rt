/// The words that join conditions (the Python reference, section 6.11). The operands of one stand side by side under one node.
#[derive(Clone, Copy, Debug, PartialEq, Eq)]
pub enum Junction {
    Or,
    And,
}

/// The ranks of the operators that group to the left, from the loosest to the tightest (sections 6.6 to 6.9 and 6.17).
#[derive(Clone, Copy, Debug, PartialEq, Eq)]
pub enum Rank {
    BitOr,
    BitXor,
    BitAnd,
    Shift,
    Sum,
    Term,
}
