//! Small functions that make trees, so that a row of a table reads like its source.

use codon_base::{NodeId, Span, Spelling, Text};
use source_trees::*;
use sqlite_items::{Boxed, Items};
use std::alloc::Global;
use std::process::Abort;

/// Makes trees whose nodes all have one number and one place, which no meaning depends on.
#[derive(Clone, Copy)]
pub struct Trees<'a, R> {
    pub rt: &'a R,
    pub alloc: Global,
}

pub const NODE: Node = Node {
    id: NodeId(0),
    at: Span {
        start: 0,
        line: 1,
        column: 1,
    },
};

/// The parts that every tree is made of.
impl<'a, R: Abort> Trees<'a, R> {
    pub fn spelling(&self, text: &str) -> Spelling {
        Items::from_slice(self.alloc, text.as_bytes()).expect(self.rt, "memory")
    }

    pub fn named(&self, text: &str) -> Name {
        Name {
            node: NODE,
            spelling: self.spelling(text),
        }
    }

    pub fn list_of<T: Drop, const N: usize>(&self, parts: [T; N]) -> Items<T> {
        Items::from_vec(Vec::from_array(self.alloc, parts).expect(self.rt, "memory"))
    }

    pub fn part(&self, e: Expr) -> Boxed<Expr> {
        Boxed::new(self.alloc, e).expect(self.rt, "memory")
    }

    fn text_of(&self, text: &str) -> Text {
        let text = Text::from_bytes(self.alloc, text.as_bytes()).expect(self.rt, "memory");
        text.expect(self.rt, "ASCII")
    }
}

/// Expressions.
impl<'a, R: Abort> Trees<'a, R> {
    pub fn name(&self, text: &str) -> Expr {
        Expr::Name(NODE, self.spelling(text))
    }

    pub fn int(&self, number: i64) -> Expr {
        Expr::Number(NODE, number)
    }

    pub fn text(&self, text: &str) -> Expr {
        Expr::Text(NODE, self.text_of(text))
    }

    pub fn truth(&self, truth: bool) -> Expr {
        if truth {
            Expr::True(NODE)
        } else {
            Expr::False(NODE)
        }
    }

    pub fn none(&self) -> Expr {
        Expr::None(NODE)
    }

    pub fn bracketed(&self, inner: Expr) -> Expr {
        Expr::Bracketed(NODE, self.part(inner))
    }

    /// `x` in so many pairs of brackets.
    pub fn in_brackets(&self, pairs: u32) -> Expr {
        let mut e = self.name("x");
        'pairs: for _ in 0..pairs {
            e = self.bracketed(e);
        }
        e
    }

    pub fn tuple<const N: usize>(&self, items: [Expr; N]) -> Expr {
        Expr::Tuple(NODE, Commas::Bracketed, self.list_of(items))
    }

    pub fn list<const N: usize>(&self, items: [Expr; N]) -> Expr {
        Expr::List(NODE, self.list_of(items))
    }

    pub fn each(&self, item: Expr, names: LoopNames, iterable: Expr) -> Expr {
        Expr::Comprehension(NODE, self.part(item), names, self.part(iterable), None)
    }

    pub fn each_if(&self, item: Expr, names: LoopNames, iterable: Expr, condition: Expr) -> Expr {
        let condition = self.part(condition);
        Expr::Comprehension(
            NODE,
            self.part(item),
            names,
            self.part(iterable),
            Some(condition),
        )
    }

    pub fn conditional(&self, value: Expr, condition: Expr, other: Expr) -> Expr {
        Expr::Conditional(
            NODE,
            self.part(value),
            self.part(condition),
            self.part(other),
        )
    }

    pub fn any_of<const N: usize>(&self, operands: [Expr; N]) -> Expr {
        Expr::Or(NODE, self.list_of(operands))
    }

    pub fn all_of<const N: usize>(&self, operands: [Expr; N]) -> Expr {
        Expr::And(NODE, self.list_of(operands))
    }

    pub fn not(&self, operand: Expr) -> Expr {
        Expr::Not(NODE, self.part(operand))
    }

    pub fn compare<const N: usize>(&self, first: Expr, more: [Comparison; N]) -> Expr {
        Expr::Compare(NODE, self.part(first), self.list_of(more))
    }

    pub fn unary(&self, op: UnaryOp, operand: Expr) -> Expr {
        Expr::Unary(NODE, op, self.part(operand))
    }

    pub fn binary(&self, op: BinaryOp, left: Expr, right: Expr) -> Expr {
        Expr::Binary(NODE, op, self.part(left), self.part(right))
    }

    pub fn call<const N: usize>(&self, name: &str, given: [Expr; N]) -> Expr {
        Expr::Call(NODE, self.named(name), self.list_of(given))
    }

    pub fn method<const N: usize>(&self, object: Expr, name: &str, given: [Expr; N]) -> Expr {
        Expr::MethodCall(
            NODE,
            NODE,
            self.part(object),
            self.spelling(name),
            self.list_of(given),
        )
    }

    pub fn index(&self, object: Expr, index: Expr) -> Expr {
        Expr::Index(NODE, self.part(object), self.part(index))
    }

    pub fn slice(&self, object: Expr, from: Option<Expr>, to: Option<Expr>) -> Expr {
        Expr::Slice(NODE, self.part(object), self.bound(from), self.bound(to))
    }

    fn bound(&self, bound: Option<Expr>) -> Option<Boxed<Expr>> {
        match bound {
            Some(e) => Some(self.part(e)),
            None => None,
        }
    }

    pub fn field(&self, object: Expr, name: &str) -> Expr {
        Expr::Field(NODE, self.part(object), self.spelling(name))
    }
}

/// A comparison of a chain.
pub fn than(comparator: Comparator, right: Expr) -> Comparison {
    Comparison { comparator, right }
}

/// Statements.
impl<'a, R: Abort> Trees<'a, R> {
    pub fn to_name(&self, name: &str) -> Target {
        Target::Name(NODE, self.spelling(name))
    }

    pub fn to_index(&self, object: Expr, index: Expr) -> Target {
        Target::Index(NODE, object, index)
    }

    pub fn to_field(&self, object: Expr, name: &str) -> Target {
        Target::Field(NODE, object, self.spelling(name))
    }

    pub fn set(&self, target: Target, value: Expr) -> Stmt {
        Stmt::Assign(NODE, Targets::One(target), value)
    }

    pub fn unpack<const N: usize>(&self, targets: [Target; N], value: Expr) -> Stmt {
        Stmt::Assign(NODE, Targets::Several(NODE, self.list_of(targets)), value)
    }

    pub fn update(&self, target: Target, op: BinaryOp, value: Expr) -> Stmt {
        Stmt::Update(NODE, target, op, value)
    }

    pub fn print<const N: usize>(&self, values: [Expr; N]) -> Stmt {
        self.print_with(values, PrintOptions::Neither)
    }

    pub fn print_with<const N: usize>(&self, values: [Expr; N], options: PrintOptions) -> Stmt {
        Stmt::Print(NODE, self.printed(values, options))
    }

    pub fn printed<const N: usize>(&self, values: [Expr; N], options: PrintOptions) -> Printed {
        Printed {
            values: self.list_of(values),
            options,
        }
    }

    pub fn raise(&self, kind: &str, text: Option<Expr>) -> Stmt {
        Stmt::Raise(NODE, self.named(kind), text)
    }

    pub fn pipeline<const N: usize>(&self, head: Expr, stages: [Stage; N]) -> Stmt {
        Stmt::Pipeline(NODE, head, self.list_of(stages))
    }

    pub fn stage<const N: usize, const M: usize>(
        &self,
        joint: Joint,
        name: &str,
        before: [Expr; N],
        after: [Expr; M],
    ) -> Stage {
        let form = StageForm::Call(
            self.spelling(name),
            self.list_of(before),
            self.list_of(after),
        );
        Stage {
            node: NODE,
            joint,
            form,
        }
    }

    pub fn when<const N: usize>(&self, condition: Expr, body: [Stmt; N]) -> Arm {
        Arm {
            condition,
            body: self.list_of(body),
        }
    }

    pub fn choose<const N: usize, const M: usize>(&self, arms: [Arm; N], other: [Stmt; M]) -> Stmt {
        Stmt::If(NODE, self.list_of(arms), self.list_of(other))
    }

    pub fn repeat<const N: usize>(&self, condition: Expr, body: [Stmt; N]) -> Stmt {
        Stmt::While(NODE, condition, self.list_of(body))
    }

    pub fn one(&self, name: &str) -> LoopNames {
        LoopNames::One(self.named(name))
    }

    pub fn several<const N: usize>(&self, names: [Name; N]) -> LoopNames {
        LoopNames::Several(self.list_of(names))
    }

    fn loop_of<const N: usize>(&self, names: LoopNames, iterable: Expr, body: [Stmt; N]) -> For {
        For {
            node: NODE,
            names,
            iterable,
            body: self.list_of(body),
        }
    }

    pub fn over<const N: usize>(&self, names: LoopNames, iterable: Expr, body: [Stmt; N]) -> Stmt {
        Stmt::For(self.loop_of(names, iterable, body))
    }

    pub fn par<const N: usize>(&self, names: LoopNames, iterable: Expr, body: [Stmt; N]) -> Stmt {
        let options = ParOptions {
            num_threads: None,
            chunk_size: None,
            schedule: None,
        };
        self.par_with(options, names, iterable, body)
    }

    pub fn par_with<const N: usize>(
        &self,
        options: ParOptions,
        names: LoopNames,
        iterable: Expr,
        body: [Stmt; N],
    ) -> Stmt {
        Stmt::Par(NODE, options, self.loop_of(names, iterable, body))
    }
}

/// A stage `iter`.
pub fn iter(joint: Joint) -> Stage {
    Stage {
        node: NODE,
        joint,
        form: StageForm::Iter,
    }
}

/// A stage `print`.
pub fn print_stage(joint: Joint, printed: Printed) -> Stage {
    Stage {
        node: NODE,
        joint,
        form: StageForm::Print(printed),
    }
}

/// Types.
impl<'a, R: Abort> Trees<'a, R> {
    pub fn class_type(&self, name: &str) -> Annotation {
        Annotation::Class(NODE, self.spelling(name))
    }

    pub fn list_type(&self, item: Annotation) -> Annotation {
        Annotation::List(NODE, Boxed::new(self.alloc, item).expect(self.rt, "memory"))
    }

    pub fn tuple_type<const N: usize>(&self, items: [Annotation; N]) -> Annotation {
        Annotation::Tuple(NODE, self.list_of(items))
    }
}

/// Functions, classes and modules.
impl<'a, R: Abort> Trees<'a, R> {
    pub fn param(&self, name: &str) -> Param {
        self.param_with(name, None, None)
    }

    pub fn param_or(&self, name: &str, default: Expr) -> Param {
        self.param_with(name, None, Some(default))
    }

    pub fn param_with(
        &self,
        name: &str,
        annotation: Option<Annotation>,
        default: Option<Expr>,
    ) -> Param {
        Param {
            node: NODE,
            name: self.spelling(name),
            annotation,
            default,
        }
    }

    pub fn function_of<const N: usize, const M: usize>(
        &self,
        name: &str,
        params: [Param; N],
        returned: Option<Annotation>,
        body: [Stmt; M],
    ) -> Function {
        Function {
            node: NODE,
            name: self.named(name),
            params: self.list_of(params),
            result: returned,
            body: self.list_of(body),
        }
    }

    pub fn function<const N: usize, const M: usize>(
        &self,
        name: &str,
        params: [Param; N],
        body: [Stmt; M],
    ) -> Item {
        Item::Function(self.function_of(name, params, None, body))
    }

    pub fn member<const N: usize, const M: usize>(
        &self,
        name: &str,
        params: [Param; N],
        body: [Stmt; M],
    ) -> Member {
        Member::Method(self.function_of(name, params, None, body))
    }

    /// A field, by its name alone: no meaning depends on its annotation.
    pub fn int_field(&self, name: &str) -> Member {
        Member::Field(NODE, self.named(name), Annotation::Int(NODE))
    }

    /// A text on a line of its own in a class.
    pub fn text_member(&self, text: &str) -> Member {
        Member::Text(NODE, self.text_of(text))
    }

    pub fn class<const N: usize>(&self, name: &str, members: [Member; N]) -> Item {
        Item::Class(Class {
            node: NODE,
            name: self.named(name),
            members: self.list_of(members),
        })
    }

    pub fn module<const N: usize>(&self, items: [Item; N]) -> Module {
        Module {
            items: self.list_of(items),
        }
    }
}
