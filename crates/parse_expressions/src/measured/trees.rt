//! One builder for each form of expression. The height of a tree is one more than that of its highest part.
#![tactic(auto, using(crate::proofs::Heights::known_heights))]

ghost use Rattle.std.specs.Prelude.{◌≡◌, IfOk, min};
ghost use Rattle.source_trees.specs.Heights.{highest};
ghost use Rattle.grammar_rules.specs.Levels.{joined};
ghost use Rattle.parse_expressions.specs.Reading.{heights};
ghost use Rattle.parse_expressions.specs.Reading as spec;

use super::{Comparisons, Measured, Row};
use codon_base::{Spelling, Text};
use grammar_rules::Junction;
use source_trees::{BinaryOp, Commas, Expr, LoopNames, Name, Node, UnaryOp};
use sqlite_items::Boxed;
use std::alloc::{AllocError, Global};

/// A name by itself.
pub fn name_tree(alloc: Global, name: Name) -> Result<Measured, AllocError>
    ensures { IfOk result (λ x. x ≡ spec.name_tree name) }
{
    let Name { node, spelling } = name;
    let tree = Boxed::new(alloc, Expr::Name(node, spelling))?;
    Ok(Measured { tree, height: 1 })
}

/// A number.
pub fn number(alloc: Global, node: Node, value: i64) -> Result<Measured, AllocError>
    ensures { IfOk result (λ x. x ≡ Expr.Number node value) }
{
    let tree = Boxed::new(alloc, Expr::Number(node, value))?;
    Ok(Measured { tree, height: 1 })
}

/// A text.
pub fn text(alloc: Global, node: Node, value: Text) -> Result<Measured, AllocError>
    ensures { IfOk result (λ x. x ≡ Expr.Text node value) }
{
    let tree = Boxed::new(alloc, Expr::Text(node, value))?;
    Ok(Measured { tree, height: 1 })
}

/// `True`.
pub fn truth(alloc: Global, node: Node) -> Result<Measured, AllocError>
    ensures { IfOk result (λ x. x ≡ Expr.True node) }
{
    let tree = Boxed::new(alloc, Expr::True(node))?;
    Ok(Measured { tree, height: 1 })
}

/// `False`.
pub fn falsity(alloc: Global, node: Node) -> Result<Measured, AllocError>
    ensures { IfOk result (λ x. x ≡ Expr.False node) }
{
    let tree = Boxed::new(alloc, Expr::False(node))?;
    Ok(Measured { tree, height: 1 })
}

/// `None`.
pub fn nothing(alloc: Global, node: Node) -> Result<Measured, AllocError>
    ensures { IfOk result (λ x. x ≡ Expr.None node) }
{
    let tree = Boxed::new(alloc, Expr::None(node))?;
    Ok(Measured { tree, height: 1 })
}

/// An expression in round brackets.
pub fn bracketed(alloc: Global, node: Node, inner: Measured) -> Result<Measured, AllocError>
    ensures { IfOk result (λ x. x ≡ Expr.Bracketed node inner) }
{
    let height = inner.height().saturating_add(1);
    let tree = Boxed::new(alloc, Expr::Bracketed(node, inner.into_part()))?;
    Ok(Measured { tree, height })
}

/// `not operand`.
pub fn inverse(alloc: Global, node: Node, operand: Measured) -> Result<Measured, AllocError>
    ensures { IfOk result (λ x. x ≡ Expr.Not node operand) }
{
    let height = operand.height().saturating_add(1);
    let tree = Boxed::new(alloc, Expr::Not(node, operand.into_part()))?;
    Ok(Measured { tree, height })
}

/// An operand with a sign before it.
pub fn unary(
    alloc: Global,
    node: Node,
    op: UnaryOp,
    operand: Measured,
) -> Result<Measured, AllocError>
    ensures { IfOk result (λ x. x ≡ Expr.Unary node op operand) }
{
    let height = operand.height().saturating_add(1);
    let tree = Boxed::new(alloc, Expr::Unary(node, op, operand.into_part()))?;
    Ok(Measured { tree, height })
}

/// `object.name`.
pub fn field(
    alloc: Global,
    node: Node,
    object: Measured,
    name: Spelling,
) -> Result<Measured, AllocError>
    ensures { IfOk result (λ x. x ≡ Expr.Field node object name) }
{
    let height = object.height().saturating_add(1);
    let tree = Boxed::new(alloc, Expr::Field(node, object.into_part(), name))?;
    Ok(Measured { tree, height })
}

/// An operator with its operands.
pub fn binary(
    alloc: Global,
    node: Node,
    op: BinaryOp,
    left: Measured,
    right: Measured,
) -> Result<Measured, AllocError>
    ensures { IfOk result (λ x. x ≡ Expr.Binary node op left right) }
{
    let height = left.height().max(right.height()).saturating_add(1);
    let tree = Boxed::new(
        alloc,
        Expr::Binary(node, op, left.into_part(), right.into_part()),
    )?;
    Ok(Measured { tree, height })
}

/// `object[place]`.
pub fn index(
    alloc: Global,
    node: Node,
    object: Measured,
    place: Measured,
) -> Result<Measured, AllocError>
    ensures { IfOk result (λ x. x ≡ Expr.Index node object place) }
{
    let height = object.height().max(place.height()).saturating_add(1);
    let tree = Boxed::new(
        alloc,
        Expr::Index(node, object.into_part(), place.into_part()),
    )?;
    Ok(Measured { tree, height })
}

/// `value if condition else other`.
pub fn conditional(
    alloc: Global,
    node: Node,
    value: Measured,
    condition: Measured,
    other: Measured,
) -> Result<Measured, AllocError>
    ensures { IfOk result (λ x. x ≡ Expr.Conditional node value condition other) }
{
    let height = value
        .height()
        .max(condition.height())
        .max(other.height())
        .saturating_add(1);
    let value = value.into_part();
    let condition = condition.into_part();
    let other = other.into_part();
    let tree = Boxed::new(alloc, Expr::Conditional(node, value, condition, other))?;
    Ok(Measured { tree, height })
}

/// A list.
pub fn list(alloc: Global, node: Node, row: Row) -> Result<Measured, AllocError>
    ensures { IfOk result (λ x. x ≡ Expr.List node row) }
{
    let Row { items, height } = row;
    let height = height.saturating_add(1);
    let tree = Boxed::new(alloc, Expr::List(node, items))?;
    Ok(Measured { tree, height })
}

/// A tuple.
pub fn tuple(alloc: Global, node: Node, commas: Commas, row: Row) -> Result<Measured, AllocError>
    ensures { IfOk result (λ x. x ≡ Expr.Tuple node commas row) }
{
    let Row { items, height } = row;
    let height = height.saturating_add(1);
    let tree = Boxed::new(alloc, Expr::Tuple(node, commas, items))?;
    Ok(Measured { tree, height })
}

/// The operands of a junction, two or more.
pub fn joined(
    alloc: Global,
    junction: Junction,
    node: Node,
    row: Row,
) -> Result<Measured, AllocError>
    ensures { IfOk result (λ x. x ≡ joined junction node row) }
{
    let Row { items, height } = row;
    let height = height.saturating_add(1);
    match junction {
        Junction::Or => {
            let tree = Boxed::new(alloc, Expr::Or(node, items))?;
            Ok(Measured { tree, height })
        }
        Junction::And => {
            let tree = Boxed::new(alloc, Expr::And(node, items))?;
            Ok(Measured { tree, height })
        }
    }
}

/// `name(arguments)`.
pub fn call(alloc: Global, name: Name, row: Row) -> Result<Measured, AllocError>
    ensures { IfOk result (λ x. x ≡ spec.call_tree name row) }
{
    let Row { items, height } = row;
    let height = height.max(1).saturating_add(1);
    let tree = Boxed::new(alloc, Expr::Call(name.node, name, items))?;
    Ok(Measured { tree, height })
}

/// `object.name(arguments)`.
pub fn method(
    alloc: Global,
    node: Node,
    object: Measured,
    name: Spelling,
    row: Row,
) -> Result<Measured, AllocError>
    ensures { IfOk result (λ x. x ≡ Expr.MethodCall node node object name row) }
{
    let Row { items, height } = row;
    let height = height
        .max(object.height().saturating_add(1))
        .saturating_add(1);
    let tree = Expr::MethodCall(node, node, object.into_part(), name, items);
    let tree = Boxed::new(alloc, tree)?;
    Ok(Measured { tree, height })
}

/// A first operand and the comparisons beside it.
#[tactic(auto, using(crate::proofs::Heights::compare_known))]
pub fn compare(
    alloc: Global,
    node: Node,
    first: Measured,
    comparisons: Comparisons,
) -> Result<Measured, AllocError>
    ensures { IfOk result (λ x. x ≡ Expr.Compare node first comparisons) }
{
    let Comparisons { items, height } = comparisons;
    let height = first.height().max(height).saturating_add(1);
    let tree = Boxed::new(alloc, Expr::Compare(node, first.into_part(), items))?;
    Ok(Measured { tree, height })
}

/// `object[from:to]`.
#[tactic(auto, using(crate::proofs::Heights::slice_height))]
pub fn slice(
    alloc: Global,
    node: Node,
    object: Measured,
    from: Option<Measured>,
    to: Option<Measured>,
) -> Result<Measured, AllocError>
    ensures { IfOk result (λ x. x ≡ Expr.Slice node object from to) }
{
    let bounds = height_of(&from).max(height_of(&to));
    let height = object.height().max(bounds).saturating_add(1);
    let tree = Expr::Slice(node, object.into_part(), part_of(from), part_of(to));
    let tree = Boxed::new(alloc, tree)?;
    Ok(Measured { tree, height })
}

/// The height of a tree that may be absent, 0 where it is.
pub fn height_of(tree: &Option<Measured>) -> usize
    ensures { result ≡ min (highest (heights tree.now)) usize.MAX }
{
    match tree {
        None => 0,
        Some(tree) => tree.height(),
    }
}

/// A tree that may be absent, as a part of another.
fn part_of(tree: Option<Measured>) -> Option<Boxed<Expr>>
    ensures { result ≡ tree }
{
    match tree {
        None => None,
        Some(tree) => Some(tree.into_part()),
    }
}

/// `[item for names in iterable]`, or with a condition.
#[tactic(auto, using(crate::proofs::Lows::comprehension_height))]
pub fn comprehension(
    alloc: Global,
    node: Node,
    item: Measured,
    names: LoopNames,
    iterable: Measured,
    condition: Option<Measured>,
) -> Result<Measured, AllocError>
    ensures { IfOk result (λ x. x ≡ Expr.Comprehension node item names iterable condition) }
{
    let parts = item
        .height()
        .max(iterable.height())
        .max(height_of(&condition));
    let height = parts.saturating_add(1);
    let item = item.into_part();
    let iterable = iterable.into_part();
    let condition = part_of(condition);
    let tree = Expr::Comprehension(node, item, names, iterable, condition);
    let tree = Boxed::new(alloc, tree)?;
    Ok(Measured { tree, height })
}
