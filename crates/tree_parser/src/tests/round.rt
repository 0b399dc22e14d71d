//! Trees that are printed as source and read again are the same trees, with the same numbers, but for the places.

use super::parsed;
use super::print::print_module;
use super::shape::Shape;
use source_trees::Module;
use std::alloc::{AllocError, Global};

/// The tree of a text, if it has one.
pub(super) fn tree(alloc: Global, text: &str) -> Option<Module> {
    match parsed(alloc, text) {
        Some(Ok(module)) => Some(module),
        _ => None,
    }
}

/// The tree that the printed tree has, if it has one.
fn tree_again(alloc: Global, printed: &[u8]) -> Option<Module> {
    match std::str::from_utf8(printed) {
        Ok(text) => tree(alloc, text),
        Err(_) => None,
    }
}

fn is_same(alloc: Global, module: &Module, printed: &[u8]) -> Result<bool, AllocError> {
    let Some(again) = tree_again(alloc, printed) else {
        return Ok(false);
    };
    let shape = Shape::of(alloc, module, true)?;
    let second = Shape::of(alloc, &again, true)?;
    Ok(second.as_bytes() == shape.as_bytes() && again.height() == module.height())
}

/// What is told of a source whose tree is another one after it was printed and read, nothing else.
pub(super) fn told_round(alloc: Global, text: &str) -> Result<String, AllocError> {
    let Some(module) = tree(alloc, text) else {
        return format!(in alloc; "{text}has no tree\n");
    };
    let printed = print_module(alloc, &module)?;
    if is_same(alloc, &module, printed.as_slice())? {
        return format!(in alloc; "");
    }
    let shown = std::str::from_utf8(printed.as_slice()).unwrap_or("?");
    format!(in alloc; "{text}is printed as {shown}")
}
