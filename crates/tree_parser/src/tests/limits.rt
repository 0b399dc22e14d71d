//! The limits on the height of trees and on the number of parts.

mod counts;
mod nested;
mod nested_blocks;
mod parts;
mod room;

use super::{Wrong, parsed, places, shown};
use std::alloc::{AllocError, Global};

/// The height of the tree of a text as `height N`, or its refusal.
fn shown_height(alloc: Global, text: &str) -> Result<String, AllocError> {
    match parsed(alloc, text) {
        Some(Ok(module)) => {
            let height = module.height();
            format!(in alloc; "height {height}")
        }
        _ => shown(alloc, text),
    }
}

/// Adds a line where the answer for the text is not the one that is wanted.
fn judge(wrong: &mut Wrong, form: &str, text: &str, want: &str) -> Result<(), AllocError> {
    let found = shown_height(wrong.alloc, text)?;
    if found.as_str() == want {
        return Ok(());
    }
    let line = format!(in wrong.alloc; "{form}: {found}, not {want}\n")?;
    wrong.add(line.as_str())
}

fn repeat(out: &mut String, text: &str, times: u32) -> Result<(), AllocError> {
    'times: for _ in 0..times {
        out.push_str(text)?;
    }
    Ok(())
}

/// A form round itself: a source begins with `before`, then `open` so many times, `inside`, `close` as many times, `after`.
#[derive(Clone, Copy)]
struct Nest<'a> {
    before: &'a str,
    open: &'a str,
    inside: &'a str,
    close: &'a str,
    after: &'a str,
}

fn nest_text(alloc: Global, nest: Nest<'_>, times: u32) -> Result<String, AllocError> {
    let mut text = String::new(alloc);
    text.push_str(nest.before)?;
    repeat(&mut text, nest.open, times)?;
    text.push_str(nest.inside)?;
    repeat(&mut text, nest.close, times)?;
    text.push_str(nest.after)?;
    Ok(text)
}

/// So many times make a tree of this height.
fn has_height(
    wrong: &mut Wrong,
    nest: Nest<'_>,
    times: u32,
    height: u32,
) -> Result<(), AllocError> {
    let text = nest_text(wrong.alloc, nest, times)?;
    let want = format!(in wrong.alloc; "height {height}")?;
    judge(wrong, nest.open, text.as_str(), want.as_str())
}

/// So many times are refused in the first line at this column.
fn is_refused(
    wrong: &mut Wrong,
    nest: Nest<'_>,
    times: u32,
    kind: &str,
    column: u32,
) -> Result<(), AllocError> {
    let text = nest_text(wrong.alloc, nest, times)?;
    let want = places(wrong.alloc, kind, 1, column)?;
    judge(wrong, nest.open, text.as_str(), want.as_str())
}

/// A form that adds one to the height: so many times make a tree of height 100, one less one of 99, and one more is too deep at this column of the first line.
fn limit(wrong: &mut Wrong, nest: Nest<'_>, times: u32, column: u32) -> Result<(), AllocError> {
    has_height(wrong, nest, times.saturating_sub(1), 99)?;
    has_height(wrong, nest, times, 100)?;
    is_refused(wrong, nest, times.saturating_add(1), "P2", column)
}
