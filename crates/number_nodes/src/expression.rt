ghost use Rattle.std.specs.Prelude.{IfOk};
ghost use Rattle.number_nodes.specs.Numbers.{NumbersComparisons, NumbersExpr, NumbersExprs, NumbersOptionalExpr};

use crate::node::{number_name, number_node};
use crate::target::number_loop_names;
use crate::turned::turned;
use codon_base::Memory;
use source_trees::{Comparison, Expr};
use sqlite_items::{Boxed, Items};
use std::alloc::Global;

#[cycle(number_expression)]
pub(crate) fn number_expr(alloc: Global, next: &mut u64, expr: Expr) -> Result<Expr, Memory>
    ensures { IfOk result (λ numbered. NumbersExpr next.old expr numbered next.new) }
{
    match expr {
        Expr::Name(node, spelling) => Ok(Expr::Name(number_node(next, node)?, spelling)),
        Expr::Number(node, number) => Ok(Expr::Number(number_node(next, node)?, number)),
        Expr::Text(node, text) => Ok(Expr::Text(number_node(next, node)?, text)),
        Expr::True(node) => Ok(Expr::True(number_node(next, node)?)),
        Expr::False(node) => Ok(Expr::False(number_node(next, node)?)),
        Expr::None(node) => Ok(Expr::None(number_node(next, node)?)),
        Expr::Bracketed(node, inner) => {
            let node = number_node(next, node)?;
            Ok(Expr::Bracketed(node, number_boxed(alloc, next, inner)?))
        }
        Expr::Tuple(node, commas, items) => {
            let node = number_node(next, node)?;
            Ok(Expr::Tuple(node, commas, number_exprs(alloc, next, items)?))
        }
        Expr::List(node, items) => {
            let node = number_node(next, node)?;
            Ok(Expr::List(node, number_exprs(alloc, next, items)?))
        }
        Expr::Comprehension(node, item, names, iterable, condition) => {
            let node = number_node(next, node)?;
            let item = number_boxed(alloc, next, item)?;
            let names = number_loop_names(alloc, next, names)?;
            let iterable = number_boxed(alloc, next, iterable)?;
            let condition = number_optional(alloc, next, condition)?;
            Ok(Expr::Comprehension(node, item, names, iterable, condition))
        }
        Expr::Conditional(node, value, condition, other) => {
            let node = number_node(next, node)?;
            let value = number_boxed(alloc, next, value)?;
            let condition = number_boxed(alloc, next, condition)?;
            let other = number_boxed(alloc, next, other)?;
            Ok(Expr::Conditional(node, value, condition, other))
        }
        Expr::Or(node, operands) => {
            let node = number_node(next, node)?;
            Ok(Expr::Or(node, number_exprs(alloc, next, operands)?))
        }
        Expr::And(node, operands) => {
            let node = number_node(next, node)?;
            Ok(Expr::And(node, number_exprs(alloc, next, operands)?))
        }
        Expr::Not(node, operand) => {
            let node = number_node(next, node)?;
            Ok(Expr::Not(node, number_boxed(alloc, next, operand)?))
        }
        Expr::Compare(node, first, others) => {
            let node = number_node(next, node)?;
            let first = number_boxed(alloc, next, first)?;
            Ok(Expr::Compare(node, first, number_comparisons(alloc, next, others)?))
        }
        Expr::Unary(node, op, operand) => {
            let node = number_node(next, node)?;
            Ok(Expr::Unary(node, op, number_boxed(alloc, next, operand)?))
        }
        Expr::Binary(node, op, left, right) => {
            let node = number_node(next, node)?;
            let left = number_boxed(alloc, next, left)?;
            Ok(Expr::Binary(node, op, left, number_boxed(alloc, next, right)?))
        }
        Expr::Call(node, name, arguments) => {
            let node = number_node(next, node)?;
            let name = number_name(next, name)?;
            Ok(Expr::Call(node, name, number_exprs(alloc, next, arguments)?))
        }
        Expr::MethodCall(node, method, object, name, arguments) => {
            let node = number_node(next, node)?;
            let method = number_node(next, method)?;
            let object = number_boxed(alloc, next, object)?;
            let arguments = number_exprs(alloc, next, arguments)?;
            Ok(Expr::MethodCall(node, method, object, name, arguments))
        }
        Expr::Index(node, object, index) => {
            let node = number_node(next, node)?;
            let object = number_boxed(alloc, next, object)?;
            Ok(Expr::Index(node, object, number_boxed(alloc, next, index)?))
        }
        Expr::Slice(node, object, from, to) => {
            let node = number_node(next, node)?;
            let object = number_boxed(alloc, next, object)?;
            let from = number_optional(alloc, next, from)?;
            let to = number_optional(alloc, next, to)?;
            Ok(Expr::Slice(node, object, from, to))
        }
        Expr::Field(node, object, name) => {
            let node = number_node(next, node)?;
            Ok(Expr::Field(node, number_boxed(alloc, next, object)?, name))
        }
    }
}

#[cycle(number_expression)]
fn number_boxed(alloc: Global, next: &mut u64, expr: Boxed<Expr>) -> Result<Boxed<Expr>, Memory>
    ensures { IfOk result (λ numbered. NumbersExpr next.old expr numbered next.new) }
{
    let numbered = number_expr(alloc, next, expr.into_inner())?;
    Ok(Boxed::new(alloc, numbered)?)
}

#[cycle(number_expression)]
fn number_optional(
    alloc: Global,
    next: &mut u64,
    expr: Option<Boxed<Expr>>,
) -> Result<Option<Boxed<Expr>>, Memory>
    ensures { IfOk result (λ numbered. NumbersOptionalExpr next.old expr numbered next.new) }
{
    match expr {
        Some(expr) => {
            let numbered = number_expr(alloc, next, expr.into_inner())?;
            Ok(Some(Boxed::new(alloc, numbered)?))
        }
        None => Ok(None),
    }
}

#[cycle(number_expression)]
pub(crate) fn number_exprs(
    alloc: Global,
    next: &mut u64,
    exprs: Items<Expr>,
) -> Result<Items<Expr>, Memory>
    ensures { IfOk result (λ numbered. NumbersExprs next.old exprs numbered next.new) }
{
    let mut rest = turned(alloc, exprs)?;
    let mut numbered = Items::new(alloc);
    'exprs: while let Some(expr) = rest.pop() {
        numbered.push(number_expr(alloc, next, expr)?)?;
    }
    Ok(numbered)
}

#[cycle(number_expression)]
fn number_comparisons(
    alloc: Global,
    next: &mut u64,
    comparisons: Items<Comparison>,
) -> Result<Items<Comparison>, Memory>
    ensures { IfOk result (λ numbered. NumbersComparisons next.old comparisons numbered next.new) }
{
    let mut rest = turned(alloc, comparisons)?;
    let mut numbered = Items::new(alloc);
    'comparisons: while let Some(Comparison { comparator, right }) = rest.pop() {
        let right = number_expr(alloc, next, right)?;
        numbered.push(Comparison { comparator, right })?;
    }
    Ok(numbered)
}

/// Where there is an expression.
pub(crate) fn number_optional_expr(
    alloc: Global,
    next: &mut u64,
    expr: Option<Expr>,
) -> Result<Option<Expr>, Memory>
    ensures { IfOk result (λ numbered. NumbersOptionalExpr next.old expr numbered next.new) }
{
    match expr {
        Some(expr) => Ok(Some(number_expr(alloc, next, expr)?)),
        None => Ok(None),
    }
}
