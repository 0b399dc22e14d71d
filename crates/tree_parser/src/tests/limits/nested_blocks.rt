//! Blocks in blocks, at heights 99, 100 and 101.

use super::super::{Wrong, places};
use super::{judge, repeat};
use std::alloc::{AllocError, Global};
use std::test::Fail;

/// Blocks in each other: what comes before them, how far in the outermost stands, and the lines of each.
#[derive(Clone, Copy)]
struct Blocks {
    before: &'static str,
    depth: u32,
    /// A line that stands right above the head, empty where there is none.
    above: &'static str,
    head: &'static str,
}

fn line(out: &mut String, depth: u32, text: &str) -> Result<(), AllocError> {
    repeat(out, " ", depth)?;
    out.push_str(text)?;
    out.push_str("\n")
}

/// So many blocks, `pass` in the innermost.
fn block_text(alloc: Global, blocks: Blocks, times: u32) -> Result<String, AllocError> {
    let mut text = String::new(alloc);
    text.push_str(blocks.before)?;
    let mut depth = blocks.depth;
    'blocks: for _ in 0..times {
        if !blocks.above.is_empty() {
            line(&mut text, depth, blocks.above)?;
        }
        line(&mut text, depth, blocks.head)?;
        depth = depth.saturating_add(1);
    }
    line(&mut text, depth, "pass")?;
    Ok(text)
}

fn has_height(
    wrong: &mut Wrong,
    blocks: Blocks,
    times: u32,
    height: u32,
) -> Result<(), AllocError> {
    let text = block_text(wrong.alloc, blocks, times)?;
    let want = format!(in wrong.alloc; "height {height}")?;
    judge(wrong, blocks.head, text.as_str(), want.as_str())
}

fn is_too_deep(
    wrong: &mut Wrong,
    blocks: Blocks,
    times: u32,
    line: u32,
    column: u32,
) -> Result<(), AllocError> {
    let text = block_text(wrong.alloc, blocks, times)?;
    let want = places(wrong.alloc, "P2", line, column)?;
    judge(wrong, blocks.head, text.as_str(), want.as_str())
}

/// Blocks that add one to the height: so many make a height of 100, and one more is too deep at this line and column.
fn limit(
    wrong: &mut Wrong,
    blocks: Blocks,
    times: u32,
    line: u32,
    column: u32,
) -> Result<(), AllocError> {
    has_height(wrong, blocks, times.saturating_sub(1), 99)?;
    has_height(wrong, blocks, times, 100)?;
    is_too_deep(wrong, blocks, times.saturating_add(1), line, column)
}

const fn at_top(above: &'static str, head: &'static str) -> Blocks {
    Blocks {
        before: "",
        depth: 0,
        above,
        head,
    }
}

#[test]
fn blocks_at_the_top(rt: HostRuntime) -> Result<(), Fail> {
    let mut wrong = Wrong::new(rt.alloc());
    limit(&mut wrong, at_top("", "if x:"), 99, 100, 100)?;
    limit(&mut wrong, at_top("", "while x:"), 99, 100, 100)?;
    limit(&mut wrong, at_top("", "for x in y:"), 99, 100, 100)?;
    limit(&mut wrong, at_top("if x: pass", "else:"), 99, 199, 100)?;
    limit(&mut wrong, at_top("if x: pass", "elif y:"), 99, 199, 100)?;
    wrong.end(&rt);
    Ok(())
}

#[test]
fn blocks_of_functions(rt: HostRuntime) -> Result<(), Fail> {
    let mut wrong = Wrong::new(rt.alloc());
    let function = Blocks {
        before: "def f():\n",
        depth: 1,
        above: "",
        head: "if x:",
    };
    limit(&mut wrong, function, 98, 100, 100)?;
    let method = Blocks {
        before: "class A:\n def f(self):\n",
        depth: 2,
        above: "",
        head: "while x:",
    };
    limit(&mut wrong, method, 97, 100, 100)?;
    wrong.end(&rt);
    Ok(())
}

/// A parallel loop adds two: its own node, and that of its loop.
#[test]
fn parallel_loops(rt: HostRuntime) -> Result<(), Fail> {
    let mut wrong = Wrong::new(rt.alloc());
    let par = at_top("@par", "for x in y:");
    has_height(&mut wrong, par, 49, 99)?;
    is_too_deep(&mut wrong, par, 50, 99, 50)?;
    let inside = Blocks {
        before: "if x:\n",
        depth: 1,
        above: "@par",
        head: "for x in y:",
    };
    has_height(&mut wrong, inside, 49, 100)?;
    is_too_deep(&mut wrong, inside, 50, 100, 51)?;
    wrong.end(&rt);
    Ok(())
}
