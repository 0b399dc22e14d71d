//! Tables of sources as text.
//!
//! A row is the wanted answer, a blank and a source, in which `⏎` is a line end and `$`, which begins no token, stands right
//! before the token that is refused. A source ends with a line end, whether one is written or not. The answer is `ok` for a
//! tree, which is then printed and read again.

use super::round::told_round;
use super::{Wrong, places};
use std::alloc::{AllocError, Global};
use std::process::Abort;

/// What has been read of a row.
#[derive(Drop)]
struct Row {
    alloc: Global,
    levels: u32,
    kind: Vec<u8>,
    kind_ends: bool,
    source: Vec<u8>,
    line: u32,
    column: u32,
    /// The line and the column of the mark.
    marked: Option<(u32, u32)>,
}

fn indent(source: &mut Vec<u8>, blanks: u32) -> Result<(), AllocError> {
    'blanks: for _ in 0..blanks {
        source.push(b' ')?;
    }
    Ok(())
}

impl Row {
    /// The source stands under so many `if`, each one blank further in.
    fn new(alloc: Global, levels: u32) -> Result<Row, AllocError> {
        let mut row = Row {
            alloc,
            levels,
            kind: Vec::new(alloc),
            kind_ends: false,
            source: Vec::new(alloc),
            line: levels.saturating_add(1),
            column: levels.saturating_add(1),
            marked: None,
        };
        'levels: for level in 0..levels {
            indent(&mut row.source, level)?;
            row.source.extend_from_slice(b"if x:\n")?;
        }
        indent(&mut row.source, levels)?;
        Ok(row)
    }

    fn end_line(&mut self) -> Result<(), AllocError> {
        self.line = self.line.saturating_add(1);
        self.column = self.levels.saturating_add(1);
        self.source.push(b'\n')?;
        indent(&mut self.source, self.levels)
    }

    fn push_source(&mut self, byte: u8) -> Result<(), AllocError> {
        match byte {
            b'$' => {
                self.marked = Some((self.line, self.column));
                Ok(())
            }
            // The first byte of `⏎`.
            0xe2 => self.end_line(),
            0x80..=0xbf => Ok(()),
            _ => {
                self.column = self.column.saturating_add(1);
                self.source.push(byte)?;
                Ok(())
            }
        }
    }

    fn push(&mut self, byte: u8) -> Result<(), AllocError> {
        if self.kind_ends {
            return self.push_source(byte);
        }
        if byte == b' ' {
            self.kind_ends = true;
            return Ok(());
        }
        self.kind.push(byte)?;
        Ok(())
    }

    /// The answer that is wanted.
    fn want(&self) -> Result<String, AllocError> {
        let kind = std::str::from_utf8(self.kind.as_slice()).unwrap_or("?");
        match self.marked {
            None => format!(in self.alloc; "{kind}"),
            Some((line, column)) => places(self.alloc, kind, line, column),
        }
    }

    fn judge(&mut self, wrong: &mut Wrong) -> Result<(), AllocError> {
        let want = self.want()?;
        if self.source.as_slice().last() != Some(&b'\n') {
            self.source.push(b'\n')?;
        }
        let source = std::str::from_utf8(self.source.as_slice()).unwrap_or("?");
        wrong.row(source, want.as_str())?;
        if self.marked.is_none() && self.levels == 0 {
            wrong.add(told_round(self.alloc, source)?.as_str())?;
        }
        Ok(())
    }
}

/// Each row of the table has the answer that it wants.
pub(super) fn check(rt: &impl Abort, alloc: Global, rows: &str) -> Result<(), AllocError> {
    check_in(rt, alloc, 0, rows)
}

/// Each row of the table has the answer that it wants where its source stands under so many `if`.
pub(super) fn check_in(
    rt: &impl Abort,
    alloc: Global,
    levels: u32,
    rows: &str,
) -> Result<(), AllocError> {
    let mut wrong = Wrong::new(alloc);
    let mut row = Row::new(alloc, levels)?;
    'bytes: for byte in rows.as_bytes() {
        if *byte == b'\n' {
            row.judge(&mut wrong)?;
            row = Row::new(alloc, levels)?;
        } else {
            row.push(*byte)?;
        }
    }
    wrong.end(rt);
    Ok(())
}
