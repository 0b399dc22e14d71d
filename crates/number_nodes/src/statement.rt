ghost use Rattle.std.specs.Prelude.{IfOk};
ghost use Rattle.number_nodes.specs.Numbers.{NumbersArms, NumbersFor, NumbersStmt, NumbersStmts};

use crate::annotation::number_annotation;
use crate::both::both;
use crate::expression::{number_expr, number_optional_expr};
use crate::node::{number_name, number_node};
use crate::pipeline::{number_printed, number_stages};
use crate::target::{number_loop_names, number_target, number_targets};
use crate::turned::turned;
use codon_base::Memory;
use source_trees::{
    Annotation, Arm, BinaryOp, Expr, For, Name, Node, Printed, Stage, Stmt, Target, Targets,
};
use sqlite_items::Items;
use std::alloc::Global;

/// `return value`
fn number_return(
    alloc: Global,
    next: &mut u64,
    node: Node,
    value: Option<Expr>,
) -> Result<Stmt, Memory>
    ensures { IfOk result (λ numbered. NumbersStmt next.old (Stmt.Return node value) numbered next.new) }
{
    let node = number_node(next, node);
    let value = number_optional_expr(alloc, next, value);
    let (node, value) = both(node, value)?;
    Ok(Stmt::Return(node, value))
}

/// `yield value`
fn number_yield(alloc: Global, next: &mut u64, node: Node, value: Expr) -> Result<Stmt, Memory>
    ensures { IfOk result (λ numbered. NumbersStmt next.old (Stmt.Yield node value) numbered next.new) }
{
    let node = number_node(next, node);
    let value = number_expr(alloc, next, value);
    let (node, value) = both(node, value)?;
    Ok(Stmt::Yield(node, value))
}

/// `raise name(text)`
fn number_raise(
    alloc: Global,
    next: &mut u64,
    node: Node,
    name: Name,
    text: Option<Expr>,
) -> Result<Stmt, Memory>
    ensures { IfOk result (λ numbered. NumbersStmt next.old (Stmt.Raise node name text) numbered next.new) }
{
    let node = number_node(next, node);
    let name = number_name(next, name);
    let text = number_optional_expr(alloc, next, text);
    let parts = both(name, text);
    let (node, (name, text)) = both(node, parts)?;
    Ok(Stmt::Raise(node, name, text))
}

/// `assert condition, text`
fn number_assert(
    alloc: Global,
    next: &mut u64,
    node: Node,
    condition: Expr,
    text: Option<Expr>,
) -> Result<Stmt, Memory>
    ensures { IfOk result (λ numbered. NumbersStmt next.old (Stmt.Assert node condition text) numbered next.new) }
{
    let node = number_node(next, node);
    let condition = number_expr(alloc, next, condition);
    let text = number_optional_expr(alloc, next, text);
    let parts = both(condition, text);
    let (node, (condition, text)) = both(node, parts)?;
    Ok(Stmt::Assert(node, condition, text))
}

/// `name: annotation = value`
fn number_annotated(
    alloc: Global,
    next: &mut u64,
    node: Node,
    name: Name,
    annotation: Annotation,
    value: Option<Expr>,
) -> Result<Stmt, Memory>
    ensures { IfOk result (λ numbered. NumbersStmt next.old (Stmt.Annotated node name annotation value) numbered next.new) }
{
    let node = number_node(next, node);
    let name = number_name(next, name);
    let annotation = number_annotation(alloc, next, annotation);
    let value = number_optional_expr(alloc, next, value);
    let end_parts = both(annotation, value);
    let parts = both(name, end_parts);
    let (node, (name, (annotation, value))) = both(node, parts)?;
    Ok(Stmt::Annotated(node, name, annotation, value))
}

/// `targets = value`
fn number_assign(
    alloc: Global,
    next: &mut u64,
    node: Node,
    targets: Targets,
    value: Expr,
) -> Result<Stmt, Memory>
    ensures { IfOk result (λ numbered. NumbersStmt next.old (Stmt.Assign node targets value) numbered next.new) }
{
    let node = number_node(next, node);
    let targets = number_targets(alloc, next, targets);
    let value = number_expr(alloc, next, value);
    let parts = both(targets, value);
    let (node, (targets, value)) = both(node, parts)?;
    Ok(Stmt::Assign(node, targets, value))
}

/// `target op= value`
fn number_update(
    alloc: Global,
    next: &mut u64,
    node: Node,
    target: Target,
    op: BinaryOp,
    value: Expr,
) -> Result<Stmt, Memory>
    ensures { IfOk result (λ numbered. NumbersStmt next.old (Stmt.Update node target op value) numbered next.new) }
{
    let node = number_node(next, node);
    let target = number_target(alloc, next, target);
    let value = number_expr(alloc, next, value);
    let parts = both(target, value);
    let (node, (target, value)) = both(node, parts)?;
    Ok(Stmt::Update(node, target, op, value))
}

/// An expression whose value is dropped.
fn number_evaluate(alloc: Global, next: &mut u64, node: Node, value: Expr) -> Result<Stmt, Memory>
    ensures { IfOk result (λ numbered. NumbersStmt next.old (Stmt.Evaluate node value) numbered next.new) }
{
    let node = number_node(next, node);
    let value = number_expr(alloc, next, value);
    let (node, value) = both(node, value)?;
    Ok(Stmt::Evaluate(node, value))
}

/// `print(..)`
fn number_print(alloc: Global, next: &mut u64, node: Node, printed: Printed) -> Result<Stmt, Memory>
    ensures { IfOk result (λ numbered. NumbersStmt next.old (Stmt.Print node printed) numbered next.new) }
{
    let node = number_node(next, node);
    let printed = number_printed(alloc, next, printed);
    let (node, printed) = both(node, printed)?;
    Ok(Stmt::Print(node, printed))
}

/// `head |> ..`
fn number_pipeline(
    alloc: Global,
    next: &mut u64,
    node: Node,
    head: Expr,
    stages: Items<Stage>,
) -> Result<Stmt, Memory>
    ensures { IfOk result (λ numbered. NumbersStmt next.old (Stmt.Pipeline node head stages) numbered next.new) }
{
    let node = number_node(next, node);
    let head = number_expr(alloc, next, head);
    let stages = number_stages(alloc, next, stages);
    let parts = both(head, stages);
    let (node, (head, stages)) = both(node, parts)?;
    Ok(Stmt::Pipeline(node, head, stages))
}

#[cycle(number_statement)]
pub(crate) fn number_stmt(alloc: Global, next: &mut u64, stmt: Stmt) -> Result<Stmt, Memory>
    ensures { IfOk result (λ numbered. NumbersStmt next.old stmt numbered next.new) }
{
    match stmt {
        Stmt::Pass(node) => Ok(Stmt::Pass(number_node(next, node)?)),
        Stmt::Break(node) => Ok(Stmt::Break(number_node(next, node)?)),
        Stmt::Continue(node) => Ok(Stmt::Continue(number_node(next, node)?)),
        Stmt::Return(node, value) => number_return(alloc, next, node, value),
        Stmt::Yield(node, value) => number_yield(alloc, next, node, value),
        Stmt::Raise(node, name, text) => number_raise(alloc, next, node, name, text),
        Stmt::Assert(node, condition, text) => number_assert(alloc, next, node, condition, text),
        Stmt::Annotated(node, name, annotation, value) => number_annotated(
            alloc, next, node, name, annotation, value,
        ),
        Stmt::Assign(node, targets, value) => number_assign(alloc, next, node, targets, value),
        Stmt::Update(node, target, op, value) => number_update(
            alloc, next, node, target, op, value,
        ),
        Stmt::Evaluate(node, value) => number_evaluate(alloc, next, node, value),
        Stmt::Print(node, printed) => number_print(alloc, next, node, printed),
        Stmt::Pipeline(node, head, stages) => number_pipeline(alloc, next, node, head, stages),
        Stmt::If(node, arms, otherwise) => {
            let node = number_node(next, node)?;
            let arms = number_arms(alloc, next, arms)?;
            Ok(Stmt::If(node, arms, number_stmts(alloc, next, otherwise)?))
        }
        Stmt::While(node, condition, body) => {
            let own = number_node(next, node);
            let test = number_expr(alloc, next, condition);
            let inner = number_stmts(alloc, next, body);
            let parts = both(test, inner);
            let (node, (condition, body)) = both(own, parts)?;
            Ok(Stmt::While(node, condition, body))
        }
        Stmt::For(each) => Ok(Stmt::For(number_for(alloc, next, each)?)),
        Stmt::Par(node, options, each) => {
            let mark = number_node(next, node);
            let repeated = number_for(alloc, next, each);
            let (node, each) = both(mark, repeated)?;
            Ok(Stmt::Par(node, options, each))
        }
    }
}

#[cycle(number_statement)]
pub(crate) fn number_stmts(
    alloc: Global,
    next: &mut u64,
    stmts: Items<Stmt>,
) -> Result<Items<Stmt>, Memory>
    ensures { IfOk result (λ numbered. NumbersStmts next.old stmts numbered next.new) }
{
    let mut rest = turned(alloc, stmts)?;
    let mut numbered = Items::new(alloc);
    'stmts: while let Some(stmt) = rest.pop() {
        numbered.push(number_stmt(alloc, next, stmt)?)?;
    }
    Ok(numbered)
}

#[cycle(number_statement)]
fn number_arms(alloc: Global, next: &mut u64, arms: Items<Arm>) -> Result<Items<Arm>, Memory>
    ensures { IfOk result (λ numbered. NumbersArms next.old arms numbered next.new) }
{
    let mut rest = turned(alloc, arms)?;
    let mut numbered = Items::new(alloc);
    'arms: while let Some(Arm { condition, body }) = rest.pop() {
        let condition = number_expr(alloc, next, condition);
        let body = number_stmts(alloc, next, body);
        let (condition, body) = both(condition, body)?;
        numbered.push(Arm { condition, body })?;
    }
    Ok(numbered)
}

#[cycle(number_statement)]
fn number_for(alloc: Global, next: &mut u64, each: For) -> Result<For, Memory>
    ensures { IfOk result (λ numbered. NumbersFor next.old each numbered next.new) }
{
    let For {
        node,
        names,
        iterable,
        body,
    } = each;
    let node = number_node(next, node);
    let names = number_loop_names(alloc, next, names);
    let iterable = number_expr(alloc, next, iterable);
    let body = number_stmts(alloc, next, body);
    let end_parts = both(iterable, body);
    let parts = both(names, end_parts);
    let (node, (names, (iterable, body))) = both(node, parts)?;
    Ok(For {
        node,
        names,
        iterable,
        body,
    })
}
