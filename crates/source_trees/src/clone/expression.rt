ghost use Rattle.std.specs.Prelude.{◌≡◌, IfOk};

use super::node::clone_spelling;
use crate::{Comparison, Expr};
use codon_base::Memory;
use sqlite_items::{Boxed, Items};
use std::alloc::Global;

impl Expr {
    /// An equal expression.
    #[cycle(clone_expression)]
    pub fn try_clone(&self, alloc: Global) -> Result<Expr, Memory>
        ensures { IfOk result (λ copy. copy ≡ self.now) }
    {
        match self {
            Expr::Name(node, spelling) => Ok(Expr::Name(*node, clone_spelling(alloc, spelling)?)),
            Expr::Number(node, number) => Ok(Expr::Number(*node, *number)),
            Expr::Text(node, text) => Ok(Expr::Text(*node, text.try_clone()?)),
            Expr::True(node) => Ok(Expr::True(*node)),
            Expr::False(node) => Ok(Expr::False(*node)),
            Expr::None(node) => Ok(Expr::None(*node)),
            Expr::Bracketed(node, inner) => Ok(Expr::Bracketed(*node, clone_boxed(alloc, inner)?)),
            Expr::Tuple(node, commas, items) => {
                Ok(Expr::Tuple(*node, *commas, clone_exprs(alloc, items)?))
            }
            Expr::List(node, items) => Ok(Expr::List(*node, clone_exprs(alloc, items)?)),
            Expr::Comprehension(node, item, names, iterable, condition) => {
                let item = clone_boxed(alloc, item)?;
                let names = names.try_clone(alloc)?;
                let iterable = clone_boxed(alloc, iterable)?;
                let condition = clone_optional(alloc, condition)?;
                Ok(Expr::Comprehension(*node, item, names, iterable, condition))
            }
            Expr::Conditional(node, value, condition, other) => {
                let value = clone_boxed(alloc, value)?;
                let condition = clone_boxed(alloc, condition)?;
                let other = clone_boxed(alloc, other)?;
                Ok(Expr::Conditional(*node, value, condition, other))
            }
            Expr::Or(node, operands) => Ok(Expr::Or(*node, clone_exprs(alloc, operands)?)),
            Expr::And(node, operands) => Ok(Expr::And(*node, clone_exprs(alloc, operands)?)),
            Expr::Not(node, operand) => Ok(Expr::Not(*node, clone_boxed(alloc, operand)?)),
            Expr::Compare(node, first, others) => {
                let first = clone_boxed(alloc, first)?;
                let others = clone_comparisons(alloc, others)?;
                Ok(Expr::Compare(*node, first, others))
            }
            Expr::Unary(node, op, operand) => {
                Ok(Expr::Unary(*node, *op, clone_boxed(alloc, operand)?))
            }
            Expr::Binary(node, op, left, right) => {
                let left = clone_boxed(alloc, left)?;
                let right = clone_boxed(alloc, right)?;
                Ok(Expr::Binary(*node, *op, left, right))
            }
            Expr::Call(node, name, arguments) => {
                let name = name.try_clone(alloc)?;
                let arguments = clone_exprs(alloc, arguments)?;
                Ok(Expr::Call(*node, name, arguments))
            }
            Expr::MethodCall(node, method, object, name, arguments) => {
                let object = clone_boxed(alloc, object)?;
                let name = clone_spelling(alloc, name)?;
                let arguments = clone_exprs(alloc, arguments)?;
                Ok(Expr::MethodCall(*node, *method, object, name, arguments))
            }
            Expr::Index(node, object, index) => {
                let object = clone_boxed(alloc, object)?;
                let index = clone_boxed(alloc, index)?;
                Ok(Expr::Index(*node, object, index))
            }
            Expr::Slice(node, object, from, to) => {
                let object = clone_boxed(alloc, object)?;
                let from = clone_optional(alloc, from)?;
                let to = clone_optional(alloc, to)?;
                Ok(Expr::Slice(*node, object, from, to))
            }
            Expr::Field(node, object, name) => {
                let object = clone_boxed(alloc, object)?;
                let name = clone_spelling(alloc, name)?;
                Ok(Expr::Field(*node, object, name))
            }
        }
    }
}

#[cycle(clone_expression)]
fn clone_boxed(alloc: Global, expr: &Boxed<Expr>) -> Result<Boxed<Expr>, Memory>
    ensures { IfOk result (λ copy. copy ≡ expr.now) }
{
    Ok(Boxed::new(alloc, expr.get().try_clone(alloc)?)?)
}

#[cycle(clone_expression)]
fn clone_optional(alloc: Global, expr: &Option<Boxed<Expr>>) -> Result<Option<Boxed<Expr>>, Memory>
    ensures { IfOk result (λ copy. copy ≡ expr.now) }
{
    match expr {
        Some(expr) => Ok(Some(Boxed::new(alloc, expr.get().try_clone(alloc)?)?)),
        None => Ok(None),
    }
}

/// Equal expressions in the same order.
#[cycle(clone_expression)]
pub(crate) fn clone_exprs(alloc: Global, exprs: &Items<Expr>) -> Result<Items<Expr>, Memory>
    ensures { IfOk result (λ copy. copy ≡ exprs.now) }
{
    let mut copy = Items::new(alloc);
    'exprs: for expr in exprs.as_slice() {
        copy.push(expr.try_clone(alloc)?)?;
    }
    Ok(copy)
}

#[cycle(clone_expression)]
fn clone_comparison(alloc: Global, comparison: &Comparison) -> Result<Comparison, Memory>
    ensures { IfOk result (λ copy. copy ≡ comparison.now) }
{
    Ok(Comparison {
        comparator: comparison.comparator,
        right: comparison.right.try_clone(alloc)?,
    })
}

#[cycle(clone_expression)]
fn clone_comparisons(
    alloc: Global,
    comparisons: &Items<Comparison>,
) -> Result<Items<Comparison>, Memory>
    ensures { IfOk result (λ copy. copy ≡ comparisons.now) }
{
    let mut copy = Items::new(alloc);
    'comparisons: for comparison in comparisons.as_slice() {
        copy.push(clone_comparison(alloc, comparison)?)?;
    }
    Ok(copy)
}

/// An equal expression, where there is one.
pub(crate) fn clone_optional_expr(
    alloc: Global,
    expr: &Option<Expr>,
) -> Result<Option<Expr>, Memory>
    ensures { IfOk result (λ copy. copy ≡ expr.now) }
{
    match expr {
        Some(expr) => Ok(Some(expr.try_clone(alloc)?)),
        None => Ok(None),
    }
}
