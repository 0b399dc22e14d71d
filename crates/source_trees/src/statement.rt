use crate::{Annotation, BinaryOp, Expr, Name, Node, Printed, Stage};
use codon_base::Spelling;
use sqlite_items::Items;

/// The names that a loop or a comprehension sets.
#[derive(Drop)]
pub enum LoopNames {
    One(Name),
    /// Names with commas, which an item that is a tuple is unpacked to. They are no node besides.
    Several(Items<Name>),
}

/// What an assignment writes to.
#[derive(Drop)]
pub enum Target {
    Name(Node, Spelling),
    /// `object[index]`.
    Index(Node, Expr, Expr),
    /// `object.name`.
    Field(Node, Expr, Spelling),
}

/// The left side of an assignment.
#[derive(Drop)]
pub enum Targets {
    One(Target),
    /// Targets with commas, which a tuple is unpacked to. They are one tuple node.
    Several(Node, Items<Target>),
}

/// The word of `schedule`, which has no effect.
#[derive(Clone, Copy, Debug, PartialEq, Eq)]
pub enum Schedule {
    Static,
    Dynamic,
    Guided,
}

/// The options of `@par`.
#[derive(Clone, Copy, Debug, PartialEq, Eq)]
pub struct ParOptions {
    /// At least 1. It has no effect.
    pub num_threads: Option<u64>,
    /// How many items a worker claims at once, from 1 to 65,536.
    pub chunk_size: Option<u32>,
    pub schedule: Option<Schedule>,
}

/// A statement (the Python reference, chapters 7 and 8).
#[cycle(stmt)]
#[derive(Drop)]
pub enum Stmt {
    Pass(Node),
    Break(Node),
    Continue(Node),
    Return(Node, Option<Expr>),
    Yield(Node, Expr),
    /// `raise name` or `raise name(text)`.
    Raise(Node, Name, Option<Expr>),
    /// `assert condition` or `assert condition, text`.
    Assert(Node, Expr, Option<Expr>),
    /// `name: annotation` or `name: annotation = value`.
    Annotated(Node, Name, Annotation, Option<Expr>),
    Assign(Node, Targets, Expr),
    /// `target op= value`.
    Update(Node, Target, BinaryOp, Expr),
    /// An expression whose value is dropped.
    Evaluate(Node, Expr),
    Print(Node, Printed),
    /// The head and one stage or more.
    Pipeline(Node, Expr, Items<Stage>),
    /// The arms of `if` and `elif` in order, at least one, and the statements of `else`, none where it is not written.
    If(Node, Items<Arm>, Items<Stmt>),
    While(Node, Expr, Items<Stmt>),
    For(For),
    /// `@par` and its loop.
    Par(Node, ParOptions, For),
}

/// A condition and what is executed where it holds.
#[cycle(stmt)]
#[derive(Drop)]
pub struct Arm {
    pub condition: Expr,
    pub body: Items<Stmt>,
}

/// `for names in iterable: body`.
#[cycle(stmt)]
#[derive(Drop)]
pub struct For {
    pub node: Node,
    pub names: LoopNames,
    pub iterable: Expr,
    pub body: Items<Stmt>,
}
