//! Sources and their trees, as CPython's `ast` has them.
//!
//! A row is two lines: the source, in which `⏎` is a line end, and its tree in the short form, with a blank before it. `scripts/compare_trees.py`
//! makes the trees anew.

mod atoms;
mod blocks;
mod conditions;
mod operators;
mod statements;

use super::Wrong;
use super::round::{told_round, tree};
use super::shape::Shape;
use std::alloc::{AllocError, Global};
use std::process::Abort;

/// What has been read of a row.
#[derive(Drop)]
struct Pair {
    alloc: Global,
    source: Vec<u8>,
    tree: Vec<u8>,
    source_ends: bool,
}

impl Pair {
    fn new(alloc: Global) -> Pair {
        Pair {
            alloc,
            source: Vec::new(alloc),
            tree: Vec::new(alloc),
            source_ends: false,
        }
    }

    fn push(&mut self, byte: u8) -> Result<(), AllocError> {
        if self.source_ends {
            self.tree.push(byte)?;
            return Ok(());
        }
        match byte {
            // The first byte of `⏎`.
            0xe2 => self.source.push(b'\n')?,
            0x80..=0xbf => {}
            _ => self.source.push(byte)?,
        }
        Ok(())
    }

    /// What is told of the row where its tree is another one.
    fn told(&self) -> Result<String, AllocError> {
        let source = std::str::from_utf8(self.source.as_slice()).unwrap_or("?");
        let Some(module) = tree(self.alloc, source) else {
            return format!(in self.alloc; "{source}has no tree\n");
        };
        let shape = Shape::of(self.alloc, &module, false)?;
        if shape.as_bytes() == self.tree.as_slice() {
            return told_round(self.alloc, source);
        }
        let shown = std::str::from_utf8(shape.as_bytes()).unwrap_or("?");
        format!(in self.alloc; "{source}is{shown}\n")
    }
}

/// Each row of the table has its tree.
fn check(rt: &impl Abort, alloc: Global, rows: &str) -> Result<(), AllocError> {
    let mut wrong = Wrong::new(alloc);
    let mut pair = Pair::new(alloc);
    'bytes: for byte in rows.as_bytes() {
        if *byte != b'\n' {
            pair.push(*byte)?;
        } else if !pair.source_ends {
            pair.source.push(b'\n')?;
            pair.source_ends = true;
        } else {
            let told = pair.told()?;
            wrong.add(told.as_str())?;
            pair = Pair::new(alloc);
        }
    }
    wrong.end(rt);
    Ok(())
}
