ghost use Rattle.std.specs.Prelude.{◌≡◌, [], ◌∷◌, IfOk};
ghost use Rattle.source_trees.specs.Prelude as prelude;

use crate::{
    Annotation, Arm, BinaryOp, Comparator, Comparison, Expr, For, LoopNames, Name, Node, Param,
    Stmt, Target, UnaryOp,
};
use codon_base::{Memory, NodeId, Span};
use sqlite_items::{Boxed, Items};
use std::alloc::Global;

pub(crate) fn single<T: Drop>(alloc: Global, only: T) -> Result<Items<T>, Memory>
    ensures { IfOk result (λ items. items ≡ only ∷ []) }
{
    let mut items = Items::new(alloc);
    items.push(only)?;
    Ok(items)
}

pub(crate) fn pair<T: Drop>(alloc: Global, first: T, second: T) -> Result<Items<T>, Memory>
    ensures { IfOk result (λ items. items ≡ first ∷ second ∷ []) }
{
    let mut items = Items::new(alloc);
    items.push(first)?;
    items.push(second)?;
    Ok(items)
}

pub(crate) fn triple<T: Drop>(
    alloc: Global,
    first: T,
    second: T,
    third: T,
) -> Result<Items<T>, Memory>
    ensures { IfOk result (λ items. items ≡ first ∷ second ∷ third ∷ []) }
{
    let mut items = Items::new(alloc);
    items.push(first)?;
    items.push(second)?;
    items.push(third)?;
    Ok(items)
}

/// A node by its number, the bytes before it, its line and its column.
pub(crate) fn node(number: u32, start: u32, line: u32, column: u32) -> Node
    ensures { result ≡ prelude.node number start line column }
{
    Node {
        id: NodeId(number),
        at: Span {
            start,
            line,
            column,
        },
    }
}

pub(crate) fn name(alloc: Global, node: Node, spelling: &[u8]) -> Result<Name, Memory>
    ensures { IfOk result (λ made. made ≡ prelude.named node spelling.now) }
{
    let spelling = Items::from_slice(alloc, spelling)?;
    Ok(Name { node, spelling })
}

pub(crate) fn variable(alloc: Global, node: Node, spelling: &[u8]) -> Result<Expr, Memory>
    ensures { IfOk result (λ made. made ≡ prelude.variable node spelling.now) }
{
    Ok(Expr::Name(node, Items::from_slice(alloc, spelling)?))
}

pub(crate) fn target(alloc: Global, node: Node, spelling: &[u8]) -> Result<Target, Memory>
    ensures { IfOk result (λ made. made ≡ Target.Name node spelling.now) }
{
    Ok(Target::Name(node, Items::from_slice(alloc, spelling)?))
}

pub(crate) fn unary(alloc: Global, node: Node, op: UnaryOp, operand: Expr) -> Result<Expr, Memory>
    ensures { IfOk result (λ made. made ≡ Expr.Unary node op operand) }
{
    Ok(Expr::Unary(node, op, Boxed::new(alloc, operand)?))
}

/// `not operand`.
pub(crate) fn negation(alloc: Global, node: Node, operand: Expr) -> Result<Expr, Memory>
    ensures { IfOk result (λ made. made ≡ Expr.Not node operand) }
{
    Ok(Expr::Not(node, Boxed::new(alloc, operand)?))
}

pub(crate) fn binary(
    alloc: Global,
    node: Node,
    op: BinaryOp,
    left: Expr,
    right: Expr,
) -> Result<Expr, Memory>
    ensures { IfOk result (λ made. made ≡ Expr.Binary node op left right) }
{
    let left = Boxed::new(alloc, left)?;
    let right = Boxed::new(alloc, right)?;
    Ok(Expr::Binary(node, op, left, right))
}

/// One comparison.
pub(crate) fn comparison(
    alloc: Global,
    node: Node,
    left: Expr,
    comparator: Comparator,
    right: Expr,
) -> Result<Expr, Memory>
    ensures { IfOk result (λ made. made ≡ prelude.comparison node left comparator right) }
{
    let left = Boxed::new(alloc, left)?;
    let others = single(alloc, Comparison { comparator, right })?;
    Ok(Expr::Compare(node, left, others))
}

pub(crate) fn conditional(
    alloc: Global,
    node: Node,
    value: Expr,
    condition: Expr,
    other: Expr,
) -> Result<Expr, Memory>
    ensures { IfOk result (λ made. made ≡ Expr.Conditional node value condition other) }
{
    let value = Boxed::new(alloc, value)?;
    let condition = Boxed::new(alloc, condition)?;
    let other = Boxed::new(alloc, other)?;
    Ok(Expr::Conditional(node, value, condition, other))
}

/// `object[index]`.
pub(crate) fn element(alloc: Global, node: Node, object: Expr, index: Expr) -> Result<Expr, Memory>
    ensures { IfOk result (λ made. made ≡ Expr.Index node object index) }
{
    let object = Boxed::new(alloc, object)?;
    let index = Boxed::new(alloc, index)?;
    Ok(Expr::Index(node, object, index))
}

/// A loop with one name.
pub(crate) fn for_each(node: Node, name: Name, iterable: Expr, body: Items<Stmt>) -> Stmt
    ensures { result ≡ prelude.for_each node name iterable body }
{
    Stmt::For(For {
        node,
        names: LoopNames::One(name),
        iterable,
        body,
    })
}

/// An `if` with one arm and no `else`.
pub(crate) fn if_true(
    alloc: Global,
    node: Node,
    condition: Expr,
    body: Items<Stmt>,
) -> Result<Stmt, Memory>
    ensures { IfOk result (λ made. made ≡ prelude.if_true node condition body) }
{
    let arms = single(alloc, Arm { condition, body })?;
    Ok(Stmt::If(node, arms, Items::new(alloc)))
}

/// The type `list[int]`, whose two nodes are these.
pub(crate) fn list_of_int(alloc: Global, list: Node, int: Node) -> Result<Annotation, Memory>
    ensures { IfOk result (λ made. made ≡ Annotation.List list (Annotation.Int int)) }
{
    let item = Boxed::new(alloc, Annotation::Int(int))?;
    Ok(Annotation::List(list, item))
}

/// A parameter without a default.
pub(crate) fn parameter(
    alloc: Global,
    node: Node,
    spelling: &[u8],
    annotation: Option<Annotation>,
) -> Result<Param, Memory>
    ensures { IfOk result (λ made. made ≡ prelude.parameter node spelling.now annotation) }
{
    let name = Items::from_slice(alloc, spelling)?;
    Ok(Param {
        node,
        name,
        annotation,
        default: None,
    })
}
