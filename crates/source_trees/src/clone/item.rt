ghost use Rattle.std.specs.Prelude.{◌≡◌, IfOk};

use super::annotation::clone_optional_annotation;
use super::expression::clone_optional_expr;
use super::node::clone_spelling;
use super::statement::clone_stmts;
use crate::{Class, Function, Item, Member, Module, Param};
use codon_base::Memory;
use sqlite_items::Items;
use std::alloc::Global;

impl Param {
    /// An equal parameter.
    pub fn try_clone(&self, alloc: Global) -> Result<Param, Memory>
        ensures { IfOk result (λ copy. copy ≡ self.now) }
    {
        Ok(Param {
            node: self.node,
            name: clone_spelling(alloc, &self.name)?,
            annotation: clone_optional_annotation(alloc, &self.annotation)?,
            default: clone_optional_expr(alloc, &self.default)?,
        })
    }
}

fn clone_params(alloc: Global, params: &Items<Param>) -> Result<Items<Param>, Memory>
    ensures { IfOk result (λ copy. copy ≡ params.now) }
{
    let mut copy = Items::new(alloc);
    'params: for param in params.as_slice() {
        copy.push(param.try_clone(alloc)?)?;
    }
    Ok(copy)
}

impl Function {
    /// An equal function.
    pub fn try_clone(&self, alloc: Global) -> Result<Function, Memory>
        ensures { IfOk result (λ copy. copy ≡ self.now) }
    {
        let name = self.name.try_clone(alloc)?;
        let params = clone_params(alloc, &self.params)?;
        let returned = clone_optional_annotation(alloc, &self.result)?;
        let body = clone_stmts(alloc, &self.body)?;
        Ok(Function {
            node: self.node,
            name,
            params,
            result: returned,
            body,
        })
    }
}

impl Member {
    /// An equal member.
    pub fn try_clone(&self, alloc: Global) -> Result<Member, Memory>
        ensures { IfOk result (λ copy. copy ≡ self.now) }
    {
        match self {
            Member::Field(node, name, annotation) => {
                let name = name.try_clone(alloc)?;
                let annotation = annotation.try_clone(alloc)?;
                Ok(Member::Field(*node, name, annotation))
            }
            Member::Text(node, text) => Ok(Member::Text(*node, text.try_clone()?)),
            Member::Pass(node) => Ok(Member::Pass(*node)),
            Member::Method(function) => Ok(Member::Method(function.try_clone(alloc)?)),
        }
    }
}

fn clone_members(alloc: Global, members: &Items<Member>) -> Result<Items<Member>, Memory>
    ensures { IfOk result (λ copy. copy ≡ members.now) }
{
    let mut copy = Items::new(alloc);
    'members: for member in members.as_slice() {
        copy.push(member.try_clone(alloc)?)?;
    }
    Ok(copy)
}

impl Class {
    /// An equal class.
    pub fn try_clone(&self, alloc: Global) -> Result<Class, Memory>
        ensures { IfOk result (λ copy. copy ≡ self.now) }
    {
        Ok(Class {
            node: self.node,
            name: self.name.try_clone(alloc)?,
            members: clone_members(alloc, &self.members)?,
        })
    }
}

impl Item {
    /// An equal item.
    pub fn try_clone(&self, alloc: Global) -> Result<Item, Memory>
        ensures { IfOk result (λ copy. copy ≡ self.now) }
    {
        match self {
            Item::Stmt(stmt) => Ok(Item::Stmt(stmt.try_clone(alloc)?)),
            Item::Function(function) => Ok(Item::Function(function.try_clone(alloc)?)),
            Item::Class(class) => Ok(Item::Class(class.try_clone(alloc)?)),
        }
    }
}

fn clone_items(alloc: Global, items: &Items<Item>) -> Result<Items<Item>, Memory>
    ensures { IfOk result (λ copy. copy ≡ items.now) }
{
    let mut copy = Items::new(alloc);
    'items: for item in items.as_slice() {
        copy.push(item.try_clone(alloc)?)?;
    }
    Ok(copy)
}

impl Module {
    /// An equal source.
    pub fn try_clone(&self, alloc: Global) -> Result<Module, Memory>
        ensures { IfOk result (λ copy. copy ≡ self.now) }
    {
        Ok(Module {
            items: clone_items(alloc, &self.items)?,
        })
    }
}
