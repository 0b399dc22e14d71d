use crate::scope::Scope;
use codon_base::{Ref, Spelling, Value};
use source_trees::{Expr, LoopNames, Stage, Stmt};
use sqlite_items::{Boxed, Items};

/// What a region is when it begins: the lists that it lends, the instances that its captured names hold, and its private names, those of the body that runs and those of the module.
#[derive(Drop)]
pub(crate) struct Region {
    pub(crate) lent: Items<Ref>,
    pub(crate) targets: Items<Ref>,
    pub(crate) own: Items<Spelling>,
    pub(crate) own_globals: Items<Spelling>,
}

/// What takes the items of a generator.
#[derive(Clone, Copy)]
pub(crate) enum Consumer<'a> {
    /// The body of a loop.
    Body(Scope<'a>, &'a LoopNames, &'a Items<Stmt>),
    /// The body of a parallel loop.
    Parallel(&'a Region, Scope<'a>, &'a LoopNames, &'a Items<Stmt>),
    /// A list that gathers them.
    Gathered(&'a Value),
    /// A comprehension with its condition, its item and its list.
    Comprehension(Scope<'a>, &'a LoopNames, &'a Option<Boxed<Expr>>, &'a Boxed<Expr>, &'a Value),
    /// The stages of a pipeline from this place on, with the region whose `||>` is among them.
    Stages(Scope<'a>, Option<&'a Region>, &'a Items<Stage>, usize),
}

/// A body that is entered, or a turn with an item.
#[derive(Drop)]
pub(crate) enum Task<'a> {
    Enter(Scope<'a>, &'a Items<Stmt>),
    Turn(Consumer<'a>, Value),
}
