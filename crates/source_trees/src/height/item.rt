ghost use Rattle.std.specs.Prelude.{◌≡◌, map};
ghost use Rattle.source_trees.specs.Heights.{capped, height_of, height_of_class, height_of_function, height_of_item, height_of_member, height_of_param, highest};

use super::annotation::optional_annotation_height;
use super::expression::optional_expr_height;
use super::part::above;
use super::statement::highest_stmt;
use crate::{Class, Function, Item, Member, Module, Param};
use sqlite_items::Items;

impl Param {
    /// The height of the tree, or 2^32 - 1 where it is more. A parameter is one node with its name.
    #[tactic(auto, using(crate::proofs::Highest::highest_rules))]
    pub fn height(&self) -> u32
        ensures { result ≡ capped (height_of_param self.now) }
    {
        let annotation = optional_annotation_height(&self.annotation);
        above(annotation.max(optional_expr_height(&self.default)))
    }
}

fn highest_param(params: &Items<Param>) -> u32
    ensures { result ≡ capped (highest (map height_of_param params.now)) }
{
    let mut highest = 0u32;
    'params: for param in params.as_slice() {
        highest = highest.max(param.height());
    }
    highest
}

impl Function {
    /// The height of the tree, or 2^32 - 1 where it is more.
    #[tactic(auto, using(crate::proofs::HeightForms::function_height))]
    pub fn height(&self) -> u32
        ensures { result ≡ capped (height_of_function self.now) }
    {
        let params = highest_param(&self.params);
        let returned = optional_annotation_height(&self.result);
        let body = highest_stmt(&self.body);
        above(params.max(returned).max(body).max(1))
    }
}

impl Member {
    /// The height of the tree, or 2^32 - 1 where it is more.
    pub fn height(&self) -> u32
        ensures { result ≡ capped (height_of_member self.now) }
    {
        match self {
            Member::Field(_, _, annotation) => above(annotation.height().max(1)),
            Member::Text(..) => 1,
            Member::Pass(_) => 1,
            Member::Method(function) => function.height(),
        }
    }
}

fn highest_member(members: &Items<Member>) -> u32
    ensures { result ≡ capped (highest (map height_of_member members.now)) }
{
    let mut highest = 0u32;
    'members: for member in members.as_slice() {
        highest = highest.max(member.height());
    }
    highest
}

impl Class {
    /// The height of the tree, or 2^32 - 1 where it is more.
    pub fn height(&self) -> u32
        ensures { result ≡ capped (height_of_class self.now) }
    {
        above(highest_member(&self.members).max(1))
    }
}

impl Item {
    /// The height of the tree, or 2^32 - 1 where it is more.
    pub fn height(&self) -> u32
        ensures { result ≡ capped (height_of_item self.now) }
    {
        match self {
            Item::Stmt(stmt) => stmt.height(),
            Item::Function(function) => function.height(),
            Item::Class(class) => class.height(),
        }
    }
}

fn highest_item(items: &Items<Item>) -> u32
    ensures { result ≡ capped (highest (map height_of_item items.now)) }
{
    let mut highest = 0u32;
    'items: for item in items.as_slice() {
        highest = highest.max(item.height());
    }
    highest
}

impl Module {
    /// The height of the highest item, or 2^32 - 1 where it is more; 0 where there is no item.
    pub fn height(&self) -> u32
        ensures { result ≡ capped (height_of self.now) }
    {
        highest_item(&self.items)
    }
}
