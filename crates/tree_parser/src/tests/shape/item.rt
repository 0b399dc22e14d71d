use super::Shape;
use source_trees::{Class, Function, Item, Member, Module, Param};
use std::alloc::{AllocError, Global};

impl Shape {
    fn param(&mut self, written: &Param) -> Result<(), AllocError> {
        self.open("param", written.node)?;
        self.spelled(written.name.as_slice())?;
        if let Some(kind) = &written.annotation {
            self.leaf(":")?;
            self.annotation(kind)?;
        }
        if let Some(value) = &written.default {
            self.leaf("=")?;
            self.expr(value)?;
        }
        self.close()
    }

    fn function(&mut self, written: &Function) -> Result<(), AllocError> {
        self.open("def", written.node)?;
        self.name(&written.name)?;
        'params: for each in written.params.as_slice() {
            self.param(each)?;
        }
        if let Some(kind) = &written.result {
            self.leaf("->")?;
            self.annotation(kind)?;
        }
        self.body("do", &written.body)?;
        self.close()
    }

    fn member(&mut self, written: &Member) -> Result<(), AllocError> {
        match written {
            Member::Method(method) => self.function(method),
            Member::Field(node, field, kind) => {
                self.open("field", *node)?;
                self.name(field)?;
                self.annotation(kind)?;
                self.close()
            }
            Member::Text(node, text) => self.text(*node, text.as_bytes()),
            Member::Pass(node) => {
                self.open("pass", *node)?;
                self.close()
            }
        }
    }

    fn class(&mut self, written: &Class) -> Result<(), AllocError> {
        self.open("class", written.node)?;
        self.name(&written.name)?;
        'members: for each in written.members.as_slice() {
            self.member(each)?;
        }
        self.close()
    }

    fn item(&mut self, written: &Item) -> Result<(), AllocError> {
        match written {
            Item::Stmt(stmt) => self.statement(stmt),
            Item::Function(function) => self.function(function),
            Item::Class(class) => self.class(class),
        }
    }

    fn module(&mut self, module: &Module) -> Result<(), AllocError> {
        'items: for each in module.items.as_slice() {
            self.item(each)?;
        }
        Ok(())
    }

    /// The shape of a tree, in the whole form or in the short one, without places.
    pub(in super::super) fn of(
        alloc: Global,
        module: &Module,
        whole: bool,
    ) -> Result<Shape, AllocError> {
        let mut shape = Shape::new(alloc, whole, false);
        shape.module(module)?;
        Ok(shape)
    }

    /// The whole shape of a tree, with places.
    pub(in super::super) fn placed(alloc: Global, module: &Module) -> Result<Shape, AllocError> {
        let mut shape = Shape::new(alloc, true, true);
        shape.module(module)?;
        Ok(shape)
    }
}
