use grammar_rules::{Junction, Rank};

/// The forms of expressions, from the loosest to the tightest.
#[derive(Clone, Copy, Debug, PartialEq, Eq)]
pub enum Form {
    /// Any expression.
    Whole,
    /// What a junction joins, and the junction itself.
    Joined(Junction),
    /// An operand of a junction.
    Joint(Junction),
    /// An operand of `not`.
    Negation,
    /// A chain of comparisons.
    Compared,
    /// Operators of a rank, or tighter ones.
    Ranked(Rank),
    /// An operand of the operators of a rank.
    Operand(Rank),
    /// What a sign may stand before.
    Factor,
    /// An atom with indices, fields and calls.
    Postfix,
}
