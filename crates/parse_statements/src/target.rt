ghost use Rattle.std.specs.Prelude.{◌≡◌, ◌∷◌, ◌++◌, [], IfOk, reverse};
ghost use Rattle.parse_statements.specs.Settings.{turned};
ghost use Rattle.grammar_rules.specs.Simple.{node_of_target, node_of_targets};
ghost use Rattle.parse_statements.specs.Targets as spec;
ghost use Rattle.parse_statements.specs.Heads.{one_target, several_targets};

use crate::token::spells;
use source_trees::{Expr, Node, Target, Targets};
use sqlite_items::{Boxed, Items};
use std::alloc::{AllocError, Global};

/// The target that the expression is, if it is one.
#[tactic(auto, unfolding(crate::specs::Targets::target_of))]
pub fn target_of(tree: Expr) -> Option<Target>
    ensures { result ≡ spec.target_of tree }
{
    match tree {
        Expr::Name(node, spelling) => Some(Target::Name(node, spelling)),
        Expr::Index(node, object, place) => Some(Target::Index(
            node,
            object.into_inner(),
            place.into_inner(),
        )),
        Expr::Field(node, object, spelling) => {
            Some(Target::Field(node, object.into_inner(), spelling))
        }
        _ => None,
    }
}

/// Whether the expression is a target.
#[tactic(auto, unfolding(crate::specs::Targets::target_of))]
pub fn is_pointed(tree: &Expr) -> bool
    ensures { result ≡ spec.is_pointed tree.now }
{
    match tree {
        Expr::Name(_, _) => true,
        Expr::Index(_, _, _) => true,
        Expr::Field(_, _, _) => true,
        _ => false,
    }
}

/// Whether the expression is the name `print`.
#[tactic(auto, unfolding(crate::specs::Targets::is_print))]
pub fn is_print(tree: &Expr) -> bool
    ensures { result ≡ spec.is_print tree.now }
{
    match tree {
        Expr::Name(_, spelling) => spells(spelling, b"print".as_slice()),
        _ => false,
    }
}

/// The node that a target begins with.
pub fn node_of_target(target: &Target) -> Node
    ensures { result ≡ node_of_target target.now }
{
    match target {
        Target::Name(node, _) => *node,
        Target::Index(node, _, _) => *node,
        Target::Field(node, _, _) => *node,
    }
}

/// The node that the left side of an assignment begins with.
pub fn node_of_targets(targets: &Targets) -> Node
    ensures { result ≡ node_of_targets targets.now }
{
    match targets {
        Targets::One(target) => node_of_target(target),
        Targets::Several(node, _) => *node,
    }
}

/// The expression as a target in a box, if it is one.
pub fn boxed_target(alloc: Global, tree: Expr) -> Result<Option<Boxed<Target>>, AllocError>
    ensures { IfOk result (λ o. o ≡ spec.target_of tree) }
{
    match target_of(tree) {
        Some(target) => Ok(Some(Boxed::new(alloc, target)?)),
        None => Ok(None),
    }
}

/// The expression as the only target, if it is one.
pub fn one_target(alloc: Global, tree: Expr) -> Result<Option<Boxed<Targets>>, AllocError>
    ensures { IfOk result (λ o. o ≡ one_target (spec.target_of tree)) }
{
    match target_of(tree) {
        Some(target) => Ok(Some(Boxed::new(alloc, Targets::One(target))?)),
        None => Ok(None),
    }
}

/// The targets that the expressions are, from the last to the first, if each is one.
#[tactic(auto, using(crate::proofs::Turned::turn_some, crate::proofs::Turned::turn_none, crate::proofs::Turned::begun, crate::proofs::Turned::ended))]
fn targets_back(alloc: Global, items: Items<Expr>) -> Result<Option<Items<Target>>, AllocError>
    ensures { IfOk result (λ o. o ≡ turned (spec.targets_of items)) }
{
    let mut left = items;
    let mut targets = Items::new(alloc);
    'turn: for _turn in 0..left.len() {
        let Some(tree) = left.pop() else {
            return Ok(Some(targets));
        };
        let Some(target) = target_of(tree) else {
            return Ok(None);
        };
        targets.push(target)?;
    }
    Ok(Some(targets))
}

/// These targets, from the last to the first.
#[tactic(auto, using(crate::proofs::Turned::turned_on))]
fn reversed(alloc: Global, targets: Items<Target>) -> Result<Items<Target>, AllocError>
    ensures { IfOk result (λ r. r ≡ reverse targets) }
{
    let mut left = targets;
    let mut turned = Items::new(alloc);
    'turn: for _turn in 0..left.len() {
        let Some(target) = left.pop() else {
            return Ok(turned);
        };
        turned.push(target)?;
    }
    Ok(turned)
}

/// The expressions as targets with commas, if each is one.
pub fn several_targets(
    alloc: Global,
    items: Items<Expr>,
) -> Result<Option<Boxed<Targets>>, AllocError>
    ensures { IfOk result (λ o. o ≡ several_targets (spec.targets_of items)) }
{
    let Some(back) = targets_back(alloc, items)? else {
        return Ok(None);
    };
    let targets = reversed(alloc, back)?;
    let Some(first) = targets.get(0) else {
        return Ok(None);
    };
    let node = node_of_target(first);
    Ok(Some(Boxed::new(alloc, Targets::Several(node, targets))?))
}
