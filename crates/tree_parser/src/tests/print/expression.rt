use super::super::words::{Out, binary_word, comparator_word, number, quoted, unary_word, word};
use source_trees::{Annotation, Commas, Comparison, Expr, LoopNames, Name};
use sqlite_items::{Boxed, Items};
use std::alloc::AllocError;

#[cycle(print_expression)]
pub(super) fn expr(out: &mut Out, e: &Expr) -> Result<(), AllocError> {
    match e {
        Expr::Name(_, spelling) => out.extend_from_slice(spelling.as_slice()),
        Expr::Number(_, value) => number(out, *value),
        Expr::Text(_, value) => quoted(out, value.as_bytes()),
        Expr::True(_) => word(out, "True"),
        Expr::False(_) => word(out, "False"),
        Expr::None(_) => word(out, "None"),
        Expr::Bracketed(_, inner) => {
            word(out, "(")?;
            expr(out, inner.get())?;
            word(out, ")")
        }
        Expr::Tuple(_, Commas::Bare, items) => tuple_items(out, items),
        Expr::Tuple(_, Commas::Bracketed, items) => {
            word(out, "(")?;
            tuple_items(out, items)?;
            word(out, ")")
        }
        Expr::List(_, items) => {
            word(out, "[")?;
            row(out, items)?;
            word(out, "]")
        }
        Expr::Comprehension(_, item, names, iterable, condition) => {
            word(out, "[")?;
            expr(out, item.get())?;
            word(out, " for ")?;
            loop_names(out, names)?;
            word(out, " in ")?;
            expr(out, iterable.get())?;
            filter(out, condition)?;
            word(out, "]")
        }
        Expr::Conditional(_, value, condition, other) => {
            expr(out, value.get())?;
            word(out, " if ")?;
            expr(out, condition.get())?;
            word(out, " else ")?;
            expr(out, other.get())
        }
        Expr::Or(_, operands) => joined(out, operands, " or "),
        Expr::And(_, operands) => joined(out, operands, " and "),
        Expr::Not(_, operand) => {
            word(out, "not ")?;
            expr(out, operand.get())
        }
        Expr::Compare(_, first, others) => {
            expr(out, first.get())?;
            comparisons(out, others)
        }
        Expr::Unary(_, op, operand) => {
            word(out, unary_word(*op))?;
            expr(out, operand.get())
        }
        Expr::Binary(_, op, left, right) => {
            expr(out, left.get())?;
            word(out, " ")?;
            word(out, binary_word(*op))?;
            word(out, " ")?;
            expr(out, right.get())
        }
        Expr::Call(_, callee, arguments) => {
            name(out, callee)?;
            word(out, "(")?;
            row(out, arguments)?;
            word(out, ")")
        }
        Expr::MethodCall(_, _, object, spelling, arguments) => {
            before_dot(out, object)?;
            out.extend_from_slice(spelling.as_slice())?;
            word(out, "(")?;
            row(out, arguments)?;
            word(out, ")")
        }
        Expr::Index(_, object, index) => {
            expr(out, object.get())?;
            word(out, "[")?;
            expr(out, index.get())?;
            word(out, "]")
        }
        Expr::Slice(_, object, from, to) => {
            expr(out, object.get())?;
            word(out, "[")?;
            bound(out, from)?;
            word(out, ":")?;
            bound(out, to)?;
            word(out, "]")
        }
        Expr::Field(_, object, spelling) => {
            before_dot(out, object)?;
            out.extend_from_slice(spelling.as_slice())
        }
    }
}

/// An object and the dot after it, with a blank between, since no number stands right before a dot.
#[cycle(print_expression)]
fn before_dot(out: &mut Out, object: &Boxed<Expr>) -> Result<(), AllocError> {
    expr(out, object.get())?;
    word(out, " .")
}

#[cycle(print_expression)]
fn bound(out: &mut Out, bound: &Option<Boxed<Expr>>) -> Result<(), AllocError> {
    match bound {
        Some(e) => expr(out, e.get()),
        None => Ok(()),
    }
}

#[cycle(print_expression)]
fn filter(out: &mut Out, condition: &Option<Boxed<Expr>>) -> Result<(), AllocError> {
    match condition {
        Some(e) => {
            word(out, " if ")?;
            expr(out, e.get())
        }
        None => Ok(()),
    }
}

#[cycle(print_expression)]
fn joined(out: &mut Out, items: &Items<Expr>, between: &str) -> Result<(), AllocError> {
    let mut first = true;
    'items: for e in items.as_slice() {
        if !first {
            word(out, between)?;
        }
        first = false;
        expr(out, e)?;
    }
    Ok(())
}

#[cycle(print_expression)]
pub(super) fn row(out: &mut Out, items: &Items<Expr>) -> Result<(), AllocError> {
    joined(out, items, ", ")
}

/// The items of a tuple, with a comma after one alone.
#[cycle(print_expression)]
fn tuple_items(out: &mut Out, items: &Items<Expr>) -> Result<(), AllocError> {
    row(out, items)?;
    if items.len() == 1 {
        word(out, ",")?;
    }
    Ok(())
}

#[cycle(print_expression)]
fn comparisons(out: &mut Out, others: &Items<Comparison>) -> Result<(), AllocError> {
    'others: for other in others.as_slice() {
        word(out, " ")?;
        word(out, comparator_word(other.comparator))?;
        word(out, " ")?;
        expr(out, &other.right)?;
    }
    Ok(())
}

pub(super) fn name(out: &mut Out, name: &Name) -> Result<(), AllocError> {
    out.extend_from_slice(name.spelling.as_slice())
}

pub(super) fn loop_names(out: &mut Out, names: &LoopNames) -> Result<(), AllocError> {
    match names {
        LoopNames::One(one) => name(out, one),
        LoopNames::Several(several) => {
            'names: for each in several.as_slice() {
                name(out, each)?;
                word(out, ",")?;
            }
            Ok(())
        }
    }
}

#[cycle(print_annotation)]
pub(super) fn annotation(out: &mut Out, written: &Annotation) -> Result<(), AllocError> {
    match written {
        Annotation::Int(_) => word(out, "int"),
        Annotation::Bool(_) => word(out, "bool"),
        Annotation::Str(_) => word(out, "str"),
        Annotation::None(_) => word(out, "None"),
        Annotation::Class(_, spelling) => out.extend_from_slice(spelling.as_slice()),
        Annotation::List(_, item) => {
            word(out, "list[")?;
            annotation(out, item.get())?;
            word(out, "]")
        }
        Annotation::Tuple(_, items) => {
            word(out, "tuple[")?;
            annotations(out, items)?;
            word(out, "]")
        }
    }
}

#[cycle(print_annotation)]
fn annotations(out: &mut Out, items: &Items<Annotation>) -> Result<(), AllocError> {
    let mut first = true;
    'items: for item in items.as_slice() {
        if !first {
            word(out, ", ")?;
        }
        first = false;
        annotation(out, item)?;
    }
    Ok(())
}
