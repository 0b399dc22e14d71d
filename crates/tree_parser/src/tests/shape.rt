//! Trees as nested lists: each node is a word and its parts, in round brackets, a name or a value is written as it is.
//!
//! In the short form brackets, the ways to write a tuple, and `elif` in place of an `if` within `else` do not show, so that
//! it is the tree that CPython's `ast` has. The whole form shows them, and the numbers of the nodes, and their places where
//! those are asked for.

mod expression;
mod item;
mod statement;

use super::words::{Out, count, word};
use source_trees::Node;
use std::alloc::{AllocError, Global};

/// A tree that is being written.
#[derive(Drop)]
pub(super) struct Shape {
    out: Out,
    whole: bool,
    placed: bool,
}

impl Shape {
    fn new(alloc: Global, whole: bool, placed: bool) -> Shape {
        Shape {
            out: Vec::new(alloc),
            whole,
            placed,
        }
    }

    pub(super) fn as_bytes(&self) -> &[u8] {
        self.out.as_slice()
    }

    /// A part that is no node.
    fn leaf(&mut self, text: &str) -> Result<(), AllocError> {
        word(&mut self.out, " ")?;
        word(&mut self.out, text)
    }

    fn spelled(&mut self, spelling: &[u8]) -> Result<(), AllocError> {
        word(&mut self.out, " ")?;
        self.out.extend_from_slice(spelling)
    }

    /// The number of a node, in the whole form, and its place where places are shown.
    fn number(&mut self, node: Node) -> Result<(), AllocError> {
        if !self.whole {
            return Ok(());
        }
        word(&mut self.out, "#")?;
        count(&mut self.out, u64::from(node.id.0))?;
        if self.placed {
            word(&mut self.out, "@")?;
            count(&mut self.out, u64::from(node.at.start))?;
            word(&mut self.out, ":")?;
            count(&mut self.out, u64::from(node.at.line))?;
            word(&mut self.out, ":")?;
            count(&mut self.out, u64::from(node.at.column))?;
        }
        Ok(())
    }

    fn open(&mut self, text: &str, node: Node) -> Result<(), AllocError> {
        word(&mut self.out, " (")?;
        word(&mut self.out, text)?;
        self.number(node)
    }

    /// A group of parts that is no node.
    fn group(&mut self, text: &str) -> Result<(), AllocError> {
        word(&mut self.out, " (")?;
        word(&mut self.out, text)
    }

    fn close(&mut self) -> Result<(), AllocError> {
        word(&mut self.out, ")")
    }
}
