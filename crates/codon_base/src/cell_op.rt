ghost use Rattle.std.specs.Prelude.{◌≡◌};
ghost use Rattle.codon_base.specs.Cells.{combined, neutral_of};

use crate::number::{wrap_add, wrap_mul};

/// An operator of a reduction: it combines two whole numbers, and the order in which numbers are combined does not show.
#[derive(Clone, Copy, Debug, PartialEq, Eq)]
pub enum CellOp {
    /// The sum modulo 2^64.
    Sum,
    /// The product modulo 2^64.
    Product,
    /// `&` on the two's complement.
    And,
    /// `|` on the two's complement.
    Or,
    /// `^` on the two's complement.
    Xor,
    Least,
    Greatest,
}

/// The two numbers combined.
pub fn combine(op: CellOp, a: i64, b: i64) -> i64
    ensures { result ≡ combined op a b }
{
    match op {
        CellOp::Sum => wrap_add(a, b),
        CellOp::Product => wrap_mul(a, b),
        CellOp::And => a & b,
        CellOp::Or => a | b,
        CellOp::Xor => a ^ b,
        CellOp::Least => a.min(b),
        CellOp::Greatest => a.max(b),
    }
}

/// The number that changes no other when it is combined with it.
pub fn neutral(op: CellOp) -> i64
    ensures { result ≡ neutral_of op }
{
    match op {
        CellOp::Sum | CellOp::Or | CellOp::Xor => 0,
        CellOp::Product => 1,
        CellOp::And => -1,
        CellOp::Least => i64::MAX,
        CellOp::Greatest => i64::MIN,
    }
}

/// The laws of `combine`: parts may be combined in any order and grouping, and from the neutral number on.
pub fn combine_laws(op: CellOp, a: i64, b: i64, c: i64)
    ensures associative { combined op (combined op a b) c ≡ combined op a (combined op b c) }
    ensures commutative { combined op a b ≡ combined op b a }
    ensures neutral { combined op (neutral_of op) a ≡ a }
{}
