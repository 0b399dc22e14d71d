use super::super::words::{binary_word, comparator_word, number, quoted, unary_word, word};
use super::Shape;
use source_trees::{Annotation, Commas, Comparison, Expr, LoopNames, Name, Node};
use sqlite_items::{Boxed, Items};
use std::alloc::AllocError;

impl Shape {
    pub(super) fn name(&mut self, name: &Name) -> Result<(), AllocError> {
        self.spelled(name.spelling.as_slice())?;
        self.number(name.node)
    }

    pub(super) fn names(&mut self, names: &LoopNames) -> Result<(), AllocError> {
        match names {
            LoopNames::One(one) => self.name(one),
            LoopNames::Several(several) => {
                self.group("tuple")?;
                'names: for each in several.as_slice() {
                    self.name(each)?;
                }
                self.close()
            }
        }
    }

    pub(super) fn text(&mut self, node: Node, bytes: &[u8]) -> Result<(), AllocError> {
        word(&mut self.out, " ")?;
        quoted(&mut self.out, bytes)?;
        self.number(node)
    }

    /// An expression that is one token, or several texts.
    fn simple(&mut self, e: &Expr) -> Result<(), AllocError> {
        match e {
            Expr::Name(node, spelling) => {
                self.spelled(spelling.as_slice())?;
                self.number(*node)
            }
            Expr::Number(node, value) => {
                word(&mut self.out, " ")?;
                number(&mut self.out, *value)?;
                self.number(*node)
            }
            Expr::Text(node, value) => self.text(*node, value.as_bytes()),
            Expr::True(node) => {
                self.leaf("True")?;
                self.number(*node)
            }
            Expr::False(node) => {
                self.leaf("False")?;
                self.number(*node)
            }
            Expr::None(node) => {
                self.leaf("None")?;
                self.number(*node)
            }
            _ => Ok(()),
        }
    }

    #[cycle(shape_expression)]
    pub(super) fn expr(&mut self, e: &Expr) -> Result<(), AllocError> {
        match e {
            Expr::Bracketed(node, inner) => {
                if !self.whole {
                    return self.expr(inner.get());
                }
                self.open("brackets", *node)?;
                self.expr(inner.get())?;
                self.close()
            }
            Expr::Tuple(node, commas, items) => {
                let bare = self.whole && *commas == Commas::Bare;
                self.open(if bare { "commas" } else { "tuple" }, *node)?;
                self.row(items)?;
                self.close()
            }
            Expr::List(node, items) => {
                self.open("list", *node)?;
                self.row(items)?;
                self.close()
            }
            Expr::Comprehension(node, item, names, iterable, condition) => {
                self.open("each", *node)?;
                self.expr(item.get())?;
                self.names(names)?;
                self.expr(iterable.get())?;
                self.boxed(condition, "")?;
                self.close()
            }
            Expr::Conditional(node, value, condition, other) => {
                self.open("if", *node)?;
                self.expr(value.get())?;
                self.expr(condition.get())?;
                self.expr(other.get())?;
                self.close()
            }
            Expr::Or(node, operands) => {
                self.open("or", *node)?;
                self.row(operands)?;
                self.close()
            }
            Expr::And(node, operands) => {
                self.open("and", *node)?;
                self.row(operands)?;
                self.close()
            }
            Expr::Not(node, operand) => {
                self.open("not", *node)?;
                self.expr(operand.get())?;
                self.close()
            }
            Expr::Compare(node, first, others) => {
                self.open("compare", *node)?;
                self.expr(first.get())?;
                self.comparisons(others)?;
                self.close()
            }
            Expr::Unary(node, op, operand) => {
                self.open(unary_word(*op), *node)?;
                self.expr(operand.get())?;
                self.close()
            }
            Expr::Binary(node, op, left, right) => {
                self.open(binary_word(*op), *node)?;
                self.expr(left.get())?;
                self.expr(right.get())?;
                self.close()
            }
            Expr::Call(node, callee, arguments) => {
                self.open("call", *node)?;
                self.name(callee)?;
                self.row(arguments)?;
                self.close()
            }
            Expr::MethodCall(node, field, object, spelling, arguments) => {
                self.open("method", *node)?;
                self.number(*field)?;
                self.expr(object.get())?;
                self.spelled(spelling.as_slice())?;
                self.row(arguments)?;
                self.close()
            }
            Expr::Index(node, object, index) => {
                self.open("index", *node)?;
                self.expr(object.get())?;
                self.expr(index.get())?;
                self.close()
            }
            Expr::Slice(node, object, from, to) => {
                self.open("slice", *node)?;
                self.expr(object.get())?;
                self.boxed(from, "_")?;
                self.boxed(to, "_")?;
                self.close()
            }
            Expr::Field(node, object, spelling) => {
                self.open("field", *node)?;
                self.expr(object.get())?;
                self.spelled(spelling.as_slice())?;
                self.close()
            }
            _ => self.simple(e),
        }
    }

    /// An expression, or a word where it is not written, if that is not empty.
    #[cycle(shape_expression)]
    fn boxed(&mut self, e: &Option<Boxed<Expr>>, none: &str) -> Result<(), AllocError> {
        match e {
            Some(e) => self.expr(e.get()),
            None => {
                if none.is_empty() {
                    return Ok(());
                }
                self.leaf(none)
            }
        }
    }

    #[cycle(shape_expression)]
    pub(super) fn row(&mut self, items: &Items<Expr>) -> Result<(), AllocError> {
        'items: for e in items.as_slice() {
            self.expr(e)?;
        }
        Ok(())
    }

    #[cycle(shape_expression)]
    fn comparisons(&mut self, others: &Items<Comparison>) -> Result<(), AllocError> {
        'others: for other in others.as_slice() {
            self.leaf(comparator_word(other.comparator))?;
            self.expr(&other.right)?;
        }
        Ok(())
    }

    fn word_of_type(&mut self, node: Node, text: &str) -> Result<(), AllocError> {
        self.leaf(text)?;
        self.number(node)
    }

    #[cycle(shape_annotation)]
    pub(super) fn annotation(&mut self, written: &Annotation) -> Result<(), AllocError> {
        match written {
            Annotation::Int(node) => self.word_of_type(*node, "int"),
            Annotation::Bool(node) => self.word_of_type(*node, "bool"),
            Annotation::Str(node) => self.word_of_type(*node, "str"),
            Annotation::None(node) => self.word_of_type(*node, "None"),
            Annotation::Class(node, spelling) => {
                self.spelled(spelling.as_slice())?;
                self.number(*node)
            }
            Annotation::List(node, item) => {
                self.open("list", *node)?;
                self.annotation(item.get())?;
                self.close()
            }
            Annotation::Tuple(node, items) => {
                self.open("tuple", *node)?;
                self.annotations(items)?;
                self.close()
            }
        }
    }

    #[cycle(shape_annotation)]
    fn annotations(&mut self, items: &Items<Annotation>) -> Result<(), AllocError> {
        'items: for item in items.as_slice() {
            self.annotation(item)?;
        }
        Ok(())
    }
}
