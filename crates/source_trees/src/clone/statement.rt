ghost use Rattle.std.specs.Prelude.{◌≡◌, IfOk};

use super::expression::clone_optional_expr;
use super::pipeline::clone_stages;
use crate::{Arm, For, Stmt};
use codon_base::Memory;
use sqlite_items::Items;
use std::alloc::Global;

impl Stmt {
    /// An equal statement.
    #[cycle(clone_statement)]
    pub fn try_clone(&self, alloc: Global) -> Result<Stmt, Memory>
        ensures { IfOk result (λ copy. copy ≡ self.now) }
    {
        match self {
            Stmt::Pass(node) => Ok(Stmt::Pass(*node)),
            Stmt::Break(node) => Ok(Stmt::Break(*node)),
            Stmt::Continue(node) => Ok(Stmt::Continue(*node)),
            Stmt::Return(node, value) => {
                Ok(Stmt::Return(*node, clone_optional_expr(alloc, value)?))
            }
            Stmt::Yield(node, value) => Ok(Stmt::Yield(*node, value.try_clone(alloc)?)),
            Stmt::Raise(node, name, text) => {
                let name = name.try_clone(alloc)?;
                let text = clone_optional_expr(alloc, text)?;
                Ok(Stmt::Raise(*node, name, text))
            }
            Stmt::Assert(node, condition, text) => {
                let condition = condition.try_clone(alloc)?;
                let text = clone_optional_expr(alloc, text)?;
                Ok(Stmt::Assert(*node, condition, text))
            }
            Stmt::Annotated(node, name, annotation, value) => {
                let name = name.try_clone(alloc)?;
                let annotation = annotation.try_clone(alloc)?;
                let value = clone_optional_expr(alloc, value)?;
                Ok(Stmt::Annotated(*node, name, annotation, value))
            }
            Stmt::Assign(node, targets, value) => {
                let targets = targets.try_clone(alloc)?;
                let value = value.try_clone(alloc)?;
                Ok(Stmt::Assign(*node, targets, value))
            }
            Stmt::Update(node, target, op, value) => {
                let target = target.try_clone(alloc)?;
                let value = value.try_clone(alloc)?;
                Ok(Stmt::Update(*node, target, *op, value))
            }
            Stmt::Evaluate(node, value) => Ok(Stmt::Evaluate(*node, value.try_clone(alloc)?)),
            Stmt::Print(node, printed) => Ok(Stmt::Print(*node, printed.try_clone(alloc)?)),
            Stmt::Pipeline(node, head, stages) => {
                let head = head.try_clone(alloc)?;
                let stages = clone_stages(alloc, stages)?;
                Ok(Stmt::Pipeline(*node, head, stages))
            }
            Stmt::If(node, arms, otherwise) => {
                let arms = clone_arms(alloc, arms)?;
                let otherwise = clone_stmts(alloc, otherwise)?;
                Ok(Stmt::If(*node, arms, otherwise))
            }
            Stmt::While(node, condition, body) => {
                let condition = condition.try_clone(alloc)?;
                let body = clone_stmts(alloc, body)?;
                Ok(Stmt::While(*node, condition, body))
            }
            Stmt::For(loop_) => Ok(Stmt::For(clone_for(alloc, loop_)?)),
            Stmt::Par(node, options, loop_) => {
                Ok(Stmt::Par(*node, *options, clone_for(alloc, loop_)?))
            }
        }
    }
}

/// Equal statements in the same order.
#[cycle(clone_statement)]
pub(crate) fn clone_stmts(alloc: Global, stmts: &Items<Stmt>) -> Result<Items<Stmt>, Memory>
    ensures { IfOk result (λ copy. copy ≡ stmts.now) }
{
    let mut copy = Items::new(alloc);
    'stmts: for stmt in stmts.as_slice() {
        copy.push(stmt.try_clone(alloc)?)?;
    }
    Ok(copy)
}

#[cycle(clone_statement)]
fn clone_arm(alloc: Global, arm: &Arm) -> Result<Arm, Memory>
    ensures { IfOk result (λ copy. copy ≡ arm.now) }
{
    Ok(Arm {
        condition: arm.condition.try_clone(alloc)?,
        body: clone_stmts(alloc, &arm.body)?,
    })
}

#[cycle(clone_statement)]
fn clone_arms(alloc: Global, arms: &Items<Arm>) -> Result<Items<Arm>, Memory>
    ensures { IfOk result (λ copy. copy ≡ arms.now) }
{
    let mut copy = Items::new(alloc);
    'arms: for arm in arms.as_slice() {
        copy.push(clone_arm(alloc, arm)?)?;
    }
    Ok(copy)
}

#[cycle(clone_statement)]
fn clone_for(alloc: Global, loop_: &For) -> Result<For, Memory>
    ensures { IfOk result (λ copy. copy ≡ loop_.now) }
{
    let names = loop_.names.try_clone(alloc)?;
    let iterable = loop_.iterable.try_clone(alloc)?;
    let body = clone_stmts(alloc, &loop_.body)?;
    Ok(For {
        node: loop_.node,
        names,
        iterable,
        body,
    })
}
