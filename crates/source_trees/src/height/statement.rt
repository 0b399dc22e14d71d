ghost use Rattle.std.specs.Prelude.{◌≡◌, map};
ghost use Rattle.std.specs.List.{flat_map};
ghost use Rattle.source_trees.specs.Parts.{of_arm};
ghost use Rattle.source_trees.specs.Heights.{capped, height_of_arm, height_of_for, height_of_stmt, highest, over_parts};

use super::expression::optional_expr_height;
use super::part::above;
use super::pipeline::{highest_printed, highest_stage};
use super::target::highest_name;
use crate::{Arm, For, Stmt};
use sqlite_items::Items;

impl Stmt {
    /// The height of the tree, or 2^32 - 1 where it is more. `pass` has height 1.
    #[cycle(statement_height)]
    #[tactic(auto, using(crate::proofs::Equations::stmt_rules, crate::proofs::Highest::highest_rules))]
    pub fn height(&self) -> u32
        ensures { result ≡ capped (height_of_stmt self.now) }
    {
        match self {
            Stmt::Pass(_) => 1,
            Stmt::Break(_) => 1,
            Stmt::Continue(_) => 1,
            Stmt::Return(_, value) => above(optional_expr_height(value)),
            Stmt::Yield(_, value) => above(value.height()),
            Stmt::Raise(_, _, text) => above(optional_expr_height(text).max(1)),
            Stmt::Assert(_, condition, text) => {
                let condition = condition.height();
                above(condition.max(optional_expr_height(text)))
            }
            Stmt::Annotated(_, _, annotation, value) => {
                let annotation = annotation.height();
                let value = optional_expr_height(value);
                above(annotation.max(value).max(1))
            }
            Stmt::Assign(_, targets, value) => {
                let targets = targets.height();
                above(targets.max(value.height()))
            }
            Stmt::Update(_, target, _, value) => {
                let target = target.height();
                above(target.max(value.height()))
            }
            Stmt::Evaluate(_, value) => above(value.height()),
            Stmt::Print(_, printed) => above(highest_printed(printed)),
            Stmt::Pipeline(_, head, stages) => {
                let head = head.height();
                above(head.max(highest_stage(stages)))
            }
            Stmt::If(_, arms, otherwise) => {
                let arms = highest_arm(arms);
                above(arms.max(highest_stmt(otherwise)))
            }
            Stmt::While(_, condition, body) => {
                let condition = condition.height();
                above(condition.max(highest_stmt(body)))
            }
            Stmt::For(each) => for_height(each),
            Stmt::Par(_, _, each) => above(for_height(each)),
        }
    }
}

/// The greatest of their heights, capped alike, 0 where there are none.
#[cycle(statement_height)]
pub(crate) fn highest_stmt(stmts: &Items<Stmt>) -> u32
    ensures { result ≡ capped (highest (map height_of_stmt stmts.now)) }
{
    let mut highest = 0u32;
    'stmts: for stmt in stmts.as_slice() {
        highest = highest.max(stmt.height());
    }
    highest
}

#[cycle(statement_height)]
#[tactic(auto, using(crate::proofs::Equations::arm_is))]
fn arm_height(arm: &Arm) -> u32
    ensures { result ≡ capped (height_of_arm arm.now) }
{
    let condition = arm.condition.height();
    condition.max(highest_stmt(&arm.body))
}

#[cycle(statement_height)]
fn highest_arm(arms: &Items<Arm>) -> u32
    ensures { result ≡ capped (highest (flat_map (λ arm. arm) (map (of_arm over_parts) arms.now))) }
{
    let mut highest = 0u32;
    'arms: for arm in arms.as_slice() {
        highest = highest.max(arm_height(arm));
    }
    highest
}

#[cycle(statement_height)]
#[tactic(auto, using(crate::proofs::HeightForms::for_height))]
fn for_height(each: &For) -> u32
    ensures { result ≡ capped (height_of_for each.now) }
{
    let names = highest_name(&each.names);
    let iterable = each.iterable.height();
    let body = highest_stmt(&each.body);
    above(names.max(iterable).max(body))
}
