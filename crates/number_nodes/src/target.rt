ghost use Rattle.std.specs.Prelude.{IfOk};
ghost use Rattle.number_nodes.specs.Numbers.{NumbersLoopNames, NumbersNames, NumbersTarget, NumbersTargetList, NumbersTargets};

use crate::both::both;
use crate::expression::number_expr;
use crate::node::{number_name, number_node};
use crate::turned::turned;
use codon_base::{Memory, Spelling};
use source_trees::{Expr, LoopNames, Name, Node, Target, Targets};
use sqlite_items::Items;
use std::alloc::Global;

fn number_names(alloc: Global, next: &mut u64, names: Items<Name>) -> Result<Items<Name>, Memory>
    ensures { IfOk result (λ numbered. NumbersNames next.old names numbered next.new) }
{
    let mut rest = turned(alloc, names)?;
    let mut numbered = Items::new(alloc);
    'names: while let Some(name) = rest.pop() {
        numbered.push(number_name(next, name)?)?;
    }
    Ok(numbered)
}

pub(crate) fn number_loop_names(
    alloc: Global,
    next: &mut u64,
    names: LoopNames,
) -> Result<LoopNames, Memory>
    ensures { IfOk result (λ numbered. NumbersLoopNames next.old names numbered next.new) }
{
    match names {
        LoopNames::One(name) => Ok(LoopNames::One(number_name(next, name)?)),
        LoopNames::Several(names) => Ok(LoopNames::Several(number_names(alloc, next, names)?)),
    }
}

/// `object[index]`
fn number_place(
    alloc: Global,
    next: &mut u64,
    node: Node,
    object: Expr,
    index: Expr,
) -> Result<Target, Memory>
    ensures { IfOk result (λ numbered. NumbersTarget next.old (Target.Index node object index) numbered next.new) }
{
    let node = number_node(next, node);
    let object = number_expr(alloc, next, object);
    let index = number_expr(alloc, next, index);
    let parts = both(object, index);
    let (node, (object, index)) = both(node, parts)?;
    Ok(Target::Index(node, object, index))
}

/// `object.name`
fn number_field(
    alloc: Global,
    next: &mut u64,
    node: Node,
    object: Expr,
    name: Spelling,
) -> Result<Target, Memory>
    ensures { IfOk result (λ numbered. NumbersTarget next.old (Target.Field node object name) numbered next.new) }
{
    let node = number_node(next, node);
    let object = number_expr(alloc, next, object);
    let (node, object) = both(node, object)?;
    Ok(Target::Field(node, object, name))
}

pub(crate) fn number_target(alloc: Global, next: &mut u64, target: Target) -> Result<Target, Memory>
    ensures { IfOk result (λ numbered. NumbersTarget next.old target numbered next.new) }
{
    match target {
        Target::Name(node, spelling) => Ok(Target::Name(number_node(next, node)?, spelling)),
        Target::Index(node, object, index) => number_place(alloc, next, node, object, index),
        Target::Field(node, object, name) => number_field(alloc, next, node, object, name),
    }
}

fn number_target_list(
    alloc: Global,
    next: &mut u64,
    targets: Items<Target>,
) -> Result<Items<Target>, Memory>
    ensures { IfOk result (λ numbered. NumbersTargetList next.old targets numbered next.new) }
{
    let mut rest = turned(alloc, targets)?;
    let mut numbered = Items::new(alloc);
    'targets: while let Some(target) = rest.pop() {
        numbered.push(number_target(alloc, next, target)?)?;
    }
    Ok(numbered)
}

pub(crate) fn number_targets(
    alloc: Global,
    next: &mut u64,
    targets: Targets,
) -> Result<Targets, Memory>
    ensures { IfOk result (λ numbered. NumbersTargets next.old targets numbered next.new) }
{
    match targets {
        Targets::One(only) => Ok(Targets::One(number_target(alloc, next, only)?)),
        Targets::Several(node, all) => {
            let node = number_node(next, node)?;
            Ok(Targets::Several(node, number_target_list(alloc, next, all)?))
        }
    }
}
