use crate::{BinaryOp, Comparator, LoopNames, Name, Node, UnaryOp};
use codon_base::{Spelling, Text};
use sqlite_items::{Boxed, Items};

/// How a tuple is written.
#[derive(Clone, Copy, Debug, PartialEq, Eq)]
pub enum Commas {
    /// With commas alone, `a, b`.
    Bare,
    /// In round brackets, `(a, b)`.
    Bracketed,
}

/// An expression (the Python reference, chapter 6).
#[cycle(expr)]
#[derive(Drop)]
pub enum Expr {
    Name(Node, Spelling),
    /// A number from 0 to 2^63 - 1.
    Number(Node, i64),
    /// One text, or several side by side that are one.
    Text(Node, Text),
    True(Node),
    False(Node),
    None(Node),
    /// An expression in round brackets.
    Bracketed(Node, Boxed<Expr>),
    Tuple(Node, Commas, Items<Expr>),
    List(Node, Items<Expr>),
    /// `[item for names in iterable]`, or with `if condition`.
    Comprehension(Node, Boxed<Expr>, LoopNames, Boxed<Expr>, Option<Boxed<Expr>>),
    /// The value, the condition and the other value of `value if condition else other`.
    Conditional(Node, Boxed<Expr>, Boxed<Expr>, Boxed<Expr>),
    /// Two operands or more.
    Or(Node, Items<Expr>),
    /// Two operands or more.
    And(Node, Items<Expr>),
    Not(Node, Boxed<Expr>),
    /// The first operand, and one comparison or more.
    Compare(Node, Boxed<Expr>, Items<Comparison>),
    Unary(Node, UnaryOp, Boxed<Expr>),
    Binary(Node, BinaryOp, Boxed<Expr>, Boxed<Expr>),
    /// `name(arguments)`.
    Call(Node, Name, Items<Expr>),
    /// `object.name(arguments)`: the node of the call, the node of `object.name`, the object, the method's name.
    MethodCall(Node, Node, Boxed<Expr>, Spelling, Items<Expr>),
    /// `object[index]`.
    Index(Node, Boxed<Expr>, Boxed<Expr>),
    /// `object[from:to]`.
    Slice(Node, Boxed<Expr>, Option<Boxed<Expr>>, Option<Boxed<Expr>>),
    /// `object.name`.
    Field(Node, Boxed<Expr>, Spelling),
}

/// A comparison in a chain, with the operand on its right.
#[cycle(expr)]
#[derive(Drop)]
pub struct Comparison {
    pub comparator: Comparator,
    pub right: Expr,
}
