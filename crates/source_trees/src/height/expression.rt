ghost use Rattle.std.specs.Prelude.{◌≡◌, map};
ghost use Rattle.std.specs.Option.{option_map};
ghost use Rattle.source_trees.specs.Parts.{optional, of_exprs, of_comparison, of_optional_expr};
ghost use Rattle.source_trees.specs.Heights.{capped, height_of_expr, highest, over_parts};

use super::part::above;
use super::target::highest_name;
use crate::{Comparison, Expr};
use sqlite_items::{Boxed, Items};

impl Expr {
    /// The height of the tree, or 2^32 - 1 where it is more. A name alone has height 1.
    #[cycle(expression_height)]
    #[tactic(auto, using(crate::proofs::Equations::expr_rules))]
    pub fn height(&self) -> u32
        ensures { result ≡ capped (height_of_expr self.now) }
    {
        match self {
            Expr::Name(..) => 1,
            Expr::Number(..) => 1,
            Expr::Text(..) => 1,
            Expr::True(_) => 1,
            Expr::False(_) => 1,
            Expr::None(_) => 1,
            Expr::Bracketed(_, inner) => above(inner.get().height()),
            Expr::Tuple(_, _, items) => above(highest_expr(items)),
            Expr::List(_, items) => above(highest_expr(items)),
            Expr::Comprehension(_, item, names, iterable, condition) => {
                let item = item.get().height();
                let names = highest_name(names);
                let iterable = iterable.get().height();
                let condition = optional_height(condition);
                above(item.max(names).max(iterable).max(condition))
            }
            Expr::Conditional(_, value, condition, other) => {
                let value = value.get().height();
                let condition = condition.get().height();
                let other = other.get().height();
                above(value.max(condition).max(other))
            }
            Expr::Or(_, operands) => above(highest_expr(operands)),
            Expr::And(_, operands) => above(highest_expr(operands)),
            Expr::Not(_, operand) => above(operand.get().height()),
            Expr::Compare(_, first, others) => {
                let first = first.get().height();
                above(first.max(highest_comparison(others)))
            }
            Expr::Unary(_, _, operand) => above(operand.get().height()),
            Expr::Binary(_, _, left, right) => {
                let left = left.get().height();
                above(left.max(right.get().height()))
            }
            Expr::Call(_, _, arguments) => above(highest_expr(arguments).max(1)),
            Expr::MethodCall(_, _, object, _, arguments) => {
                let method = above(object.get().height());
                above(method.max(highest_expr(arguments)))
            }
            Expr::Index(_, object, index) => {
                let object = object.get().height();
                above(object.max(index.get().height()))
            }
            Expr::Slice(_, object, from, to) => {
                let object = object.get().height();
                let from = optional_height(from);
                let to = optional_height(to);
                above(object.max(from).max(to))
            }
            Expr::Field(_, object, _) => above(object.get().height()),
        }
    }
}

#[cycle(expression_height)]
fn optional_height(expr: &Option<Boxed<Expr>>) -> u32
    ensures { result ≡ capped (highest (optional (option_map height_of_expr expr.now))) }
{
    match expr {
        Some(expr) => expr.get().height(),
        None => 0,
    }
}

/// The greatest of their heights, capped alike, 0 where there are none.
#[cycle(expression_height)]
pub(crate) fn highest_expr(exprs: &Items<Expr>) -> u32
    ensures { result ≡ capped (highest (of_exprs over_parts exprs.now)) }
{
    let mut highest = 0u32;
    'exprs: for expr in exprs.as_slice() {
        highest = highest.max(expr.height());
    }
    highest
}

#[cycle(expression_height)]
fn highest_comparison(comparisons: &Items<Comparison>) -> u32
    ensures { result ≡ capped (highest (map (of_comparison over_parts) comparisons.now)) }
{
    let mut highest = 0u32;
    'comparisons: for comparison in comparisons.as_slice() {
        highest = highest.max(comparison.right.height());
    }
    highest
}

/// The height of an expression, 0 where there is none.
pub(crate) fn optional_expr_height(expr: &Option<Expr>) -> u32
    ensures { result ≡ capped (highest (of_optional_expr over_parts expr.now)) }
{
    match expr {
        Some(expr) => expr.height(),
        None => 0,
    }
}
