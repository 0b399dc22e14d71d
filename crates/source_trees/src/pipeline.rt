use crate::{Expr, Node};
use codon_base::Spelling;
use sqlite_items::Items;

/// The options of `print`, in the order in which they are written.
#[derive(Drop)]
pub enum PrintOptions {
    Neither,
    Sep(Expr),
    End(Expr),
    SepEnd(Expr, Expr),
    EndSep(Expr, Expr),
}

/// What stands in the brackets of `print(..)`.
#[derive(Drop)]
pub struct Printed {
    pub values: Items<Expr>,
    pub options: PrintOptions,
}

/// How a stage is joined to what is piped into it.
#[derive(Clone, Copy, Debug, PartialEq, Eq)]
pub enum Joint {
    /// By `|>`.
    InTurn,
    /// By `||>`: the items that it sends may be processed in parallel.
    InParallel,
}

/// What a stage does with a piped value.
#[derive(Drop)]
pub enum StageForm {
    /// `iter`: sends on the items of the piped list or text.
    Iter,
    /// A call of this name with the piped value between these arguments: before it and after it. The value comes first where no `...` is written.
    Call(Spelling, Items<Expr>, Items<Expr>),
    Print(Printed),
}

/// A stage of a pipeline. It is one node, with its name.
#[derive(Drop)]
pub struct Stage {
    pub node: Node,
    pub joint: Joint,
    pub form: StageForm,
}
