use super::super::words::{Out, quoted, word};
use super::expression::{annotation, expr, name};
use super::statement::{body, indent, statement};
use source_trees::{Class, Function, Item, Member, Module, Param};
use sqlite_items::Items;
use std::alloc::{AllocError, Global};

fn param(out: &mut Out, written: &Param) -> Result<(), AllocError> {
    out.extend_from_slice(written.name.as_slice())?;
    if let Some(kind) = &written.annotation {
        word(out, ": ")?;
        annotation(out, kind)?;
    }
    if let Some(value) = &written.default {
        word(out, " = ")?;
        expr(out, value)?;
    }
    Ok(())
}

fn params(out: &mut Out, several: &Items<Param>) -> Result<(), AllocError> {
    let mut first = true;
    'params: for each in several.as_slice() {
        if !first {
            word(out, ", ")?;
        }
        first = false;
        param(out, each)?;
    }
    Ok(())
}

fn function(out: &mut Out, depth: u32, written: &Function) -> Result<(), AllocError> {
    indent(out, depth)?;
    word(out, "def ")?;
    name(out, &written.name)?;
    word(out, "(")?;
    params(out, &written.params)?;
    word(out, ")")?;
    if let Some(kind) = &written.result {
        word(out, " -> ")?;
        annotation(out, kind)?;
    }
    word(out, ":\n")?;
    body(out, depth, &written.body)
}

fn member(out: &mut Out, written: &Member) -> Result<(), AllocError> {
    match written {
        Member::Method(method) => function(out, 1, method),
        Member::Field(_, field, kind) => {
            indent(out, 1)?;
            name(out, field)?;
            word(out, ": ")?;
            annotation(out, kind)?;
            word(out, "\n")
        }
        Member::Text(_, text) => {
            indent(out, 1)?;
            quoted(out, text.as_bytes())?;
            word(out, "\n")
        }
        Member::Pass(_) => {
            indent(out, 1)?;
            word(out, "pass\n")
        }
    }
}

fn class(out: &mut Out, written: &Class) -> Result<(), AllocError> {
    word(out, "class ")?;
    name(out, &written.name)?;
    word(out, ":\n")?;
    'members: for each in written.members.as_slice() {
        member(out, each)?;
    }
    Ok(())
}

fn item(out: &mut Out, written: &Item) -> Result<(), AllocError> {
    match written {
        Item::Stmt(stmt) => statement(out, 0, stmt),
        Item::Function(written) => function(out, 0, written),
        Item::Class(written) => class(out, written),
    }
}

/// The tree as source.
pub(crate) fn print_module(alloc: Global, module: &Module) -> Result<Vec<u8>, AllocError> {
    let mut out = Vec::new(alloc);
    'items: for each in module.items.as_slice() {
        item(&mut out, each)?;
    }
    Ok(out)
}
