ghost use Rattle.std.specs.Prelude.{◌≡◌, IfOk};
ghost use Rattle.source_trees.specs.Bare.{bare_module};
ghost use Rattle.source_trees.specs.Nodes.{IsNumbered};
ghost use Rattle.number_nodes.specs.Numbers.{NumbersClass, NumbersFunction, NumbersItem, NumbersItems, NumbersMember, NumbersMembers, NumbersParam, NumbersParams};

use crate::annotation::{number_annotation, number_optional_annotation};
use crate::both::both;
use crate::expression::number_optional_expr;
use crate::node::{number_name, number_node};
use crate::statement::{number_stmt, number_stmts};
use crate::turned::turned;
use codon_base::Memory;
use source_trees::{Class, Function, Item, Member, Module, Param};
use sqlite_items::Items;
use std::alloc::Global;

fn number_param(alloc: Global, next: &mut u64, param: Param) -> Result<Param, Memory>
    ensures { IfOk result (λ numbered. NumbersParam next.old param numbered next.new) }
{
    let Param {
        node,
        name,
        annotation,
        default,
    } = param;
    let node = number_node(next, node);
    let annotation = number_optional_annotation(alloc, next, annotation);
    let default = number_optional_expr(alloc, next, default);
    let parts = both(annotation, default);
    let (node, (annotation, default)) = both(node, parts)?;
    Ok(Param {
        node,
        name,
        annotation,
        default,
    })
}

fn number_params(
    alloc: Global,
    next: &mut u64,
    params: Items<Param>,
) -> Result<Items<Param>, Memory>
    ensures { IfOk result (λ numbered. NumbersParams next.old params numbered next.new) }
{
    let mut rest = turned(alloc, params)?;
    let mut numbered = Items::new(alloc);
    'params: while let Some(param) = rest.pop() {
        numbered.push(number_param(alloc, next, param)?)?;
    }
    Ok(numbered)
}

fn number_function(alloc: Global, next: &mut u64, function: Function) -> Result<Function, Memory>
    ensures { IfOk result (λ numbered. NumbersFunction next.old function numbered next.new) }
{
    let Function {
        node,
        name,
        params,
        result,
        body,
    } = function;
    let node = number_node(next, node)?;
    let name = number_name(next, name)?;
    let params = number_params(alloc, next, params)?;
    let result = number_optional_annotation(alloc, next, result)?;
    let body = number_stmts(alloc, next, body)?;
    Ok(Function {
        node,
        name,
        params,
        result,
        body,
    })
}

fn number_member(alloc: Global, next: &mut u64, member: Member) -> Result<Member, Memory>
    ensures { IfOk result (λ numbered. NumbersMember next.old member numbered next.new) }
{
    match member {
        Member::Field(node, name, annotation) => {
            let node = number_node(next, node)?;
            let name = number_name(next, name)?;
            Ok(Member::Field(node, name, number_annotation(alloc, next, annotation)?))
        }
        Member::Text(node, text) => Ok(Member::Text(number_node(next, node)?, text)),
        Member::Pass(node) => Ok(Member::Pass(number_node(next, node)?)),
        Member::Method(function) => Ok(Member::Method(number_function(alloc, next, function)?)),
    }
}

fn number_members(
    alloc: Global,
    next: &mut u64,
    members: Items<Member>,
) -> Result<Items<Member>, Memory>
    ensures { IfOk result (λ numbered. NumbersMembers next.old members numbered next.new) }
{
    let mut rest = turned(alloc, members)?;
    let mut numbered = Items::new(alloc);
    'members: while let Some(member) = rest.pop() {
        numbered.push(number_member(alloc, next, member)?)?;
    }
    Ok(numbered)
}

fn number_class(alloc: Global, next: &mut u64, class: Class) -> Result<Class, Memory>
    ensures { IfOk result (λ numbered. NumbersClass next.old class numbered next.new) }
{
    let Class {
        node,
        name,
        members,
    } = class;
    let node = number_node(next, node)?;
    let name = number_name(next, name)?;
    let members = number_members(alloc, next, members)?;
    Ok(Class {
        node,
        name,
        members,
    })
}

fn number_item(alloc: Global, next: &mut u64, item: Item) -> Result<Item, Memory>
    ensures { IfOk result (λ numbered. NumbersItem next.old item numbered next.new) }
{
    match item {
        Item::Stmt(stmt) => Ok(Item::Stmt(number_stmt(alloc, next, stmt)?)),
        Item::Function(function) => Ok(Item::Function(number_function(alloc, next, function)?)),
        Item::Class(class) => Ok(Item::Class(number_class(alloc, next, class)?)),
    }
}

fn number_items(alloc: Global, next: &mut u64, items: Items<Item>) -> Result<Items<Item>, Memory>
    ensures { IfOk result (λ numbered. NumbersItems next.old items numbered next.new) }
{
    let mut rest = turned(alloc, items)?;
    let mut numbered = Items::new(alloc);
    'items: while let Some(item) = rest.pop() {
        numbered.push(number_item(alloc, next, item)?)?;
    }
    Ok(numbered)
}

/// The module with the numbers 0, 1, 2 and so on at its nodes, in preorder. What stood there before does not matter. Texts and names are moved, not copied. A module with more than 2^32 nodes is answered like want of memory, since its nodes have no such numbers.
pub fn number_nodes(alloc: Global, source: Module) -> Result<Module, Memory>
    // It is the same module but for its numbers.
    ensures bare { IfOk result (λ numbered. bare_module numbered ≡ bare_module source) }
    // Its nodes have the numbers 0, 1, 2 and so on.
    ensures numbered { IfOk result IsNumbered }
{
    let Module { items } = source;
    let mut next = 0;
    Ok(Module {
        items: number_items(alloc, &mut next, items)?,
    })
}
