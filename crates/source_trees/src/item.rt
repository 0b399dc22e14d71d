use crate::{Expr, Name, Node, Stmt};
use codon_base::{Spelling, Text};
use sqlite_items::{Boxed, Items};

/// A type as it is written.
#[derive(Drop)]
pub enum Annotation {
    Int(Node),
    Bool(Node),
    Str(Node),
    None(Node),
    /// A class.
    Class(Node, Spelling),
    /// `list[item]`.
    List(Node, Boxed<Annotation>),
    /// `tuple[item, ..]`, one item or more.
    Tuple(Node, Items<Annotation>),
}

/// A parameter of a function. It is one node, with its name.
#[derive(Drop)]
pub struct Param {
    pub node: Node,
    pub name: Spelling,
    pub annotation: Option<Annotation>,
    pub default: Option<Expr>,
}

/// `def name(params) -> result: body`.
#[derive(Drop)]
pub struct Function {
    pub node: Node,
    pub name: Name,
    pub params: Items<Param>,
    pub result: Option<Annotation>,
    pub body: Items<Stmt>,
}

/// What stands in a class.
#[derive(Drop)]
pub enum Member {
    /// `name: annotation`.
    Field(Node, Name, Annotation),
    /// A text on a line of its own, which does nothing.
    Text(Node, Text),
    Pass(Node),
    /// A function whose first parameter is the instance.
    Method(Function),
}

/// `class name: members`.
#[derive(Drop)]
pub struct Class {
    pub node: Node,
    pub name: Name,
    pub members: Items<Member>,
}

/// What stands at the top of a source.
#[derive(Drop)]
pub enum Item {
    Stmt(Stmt),
    Function(Function),
    Class(Class),
}

/// A source.
#[derive(Drop)]
pub struct Module {
    pub items: Items<Item>,
}
