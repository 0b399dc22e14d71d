//! What stands in 98 brackets may have a height of 1: what is too deep there, and what is refused for another cause.

use super::super::{Wrong, places};
use super::{Nest, has_height, is_refused, judge, nest_text, repeat};
use std::alloc::AllocError;
use std::test::Fail;

const fn in_brackets(inside: &'static str) -> Nest<'static> {
    Nest {
        before: "",
        open: "(",
        inside,
        close: ")",
        after: "\n",
    }
}

fn fits(wrong: &mut Wrong, inside: &'static str) -> Result<(), AllocError> {
    has_height(wrong, in_brackets(inside), 98, 100)
}

/// The column is counted from the first character in the brackets.
fn refused(
    wrong: &mut Wrong,
    inside: &'static str,
    kind: &str,
    column: u32,
) -> Result<(), AllocError> {
    is_refused(
        wrong,
        in_brackets(inside),
        98,
        kind,
        column.saturating_add(98),
    )
}

#[test]
fn what_fits(rt: HostRuntime) -> Result<(), Fail> {
    let mut wrong = Wrong::new(rt.alloc());
    fits(&mut wrong, "x")?;
    fits(&mut wrong, "'a' 'b'")?;
    fits(&mut wrong, "[]")?;
    // A tuple is the node of its brackets.
    fits(&mut wrong, "x, y")?;
    fits(&mut wrong, "x,")?;
    wrong.end(&rt);
    Ok(())
}

#[test]
fn what_is_too_deep(rt: HostRuntime) -> Result<(), Fail> {
    let mut wrong = Wrong::new(rt.alloc());
    refused(&mut wrong, "x + y", "P2", 3)?;
    refused(&mut wrong, "x ** y", "P2", 3)?;
    refused(&mut wrong, "x.y", "P2", 2)?;
    refused(&mut wrong, "x[0]", "P2", 2)?;
    refused(&mut wrong, "f()", "P2", 2)?;
    refused(&mut wrong, "not x", "P2", 1)?;
    refused(&mut wrong, "-x", "P2", 1)?;
    refused(&mut wrong, "x if y else z", "P2", 3)?;
    refused(&mut wrong, "x and y", "P2", 3)?;
    wrong.end(&rt);
    Ok(())
}

#[test]
fn what_else_is_too_deep(rt: HostRuntime) -> Result<(), Fail> {
    let mut wrong = Wrong::new(rt.alloc());
    refused(&mut wrong, "x or y", "P2", 3)?;
    refused(&mut wrong, "x < y", "P2", 3)?;
    refused(&mut wrong, "x not in y", "P2", 3)?;
    refused(&mut wrong, "[x]", "P2", 2)?;
    refused(&mut wrong, "[[]]", "P2", 2)?;
    refused(&mut wrong, "(x)", "P2", 1)?;
    refused(&mut wrong, "x, -y", "P2", 4)?;
    // What is wrong after the token that is too deep does not show.
    refused(&mut wrong, "x + import", "P2", 3)?;
    refused(&mut wrong, "f(1 2)", "P2", 2)?;
    wrong.end(&rt);
    Ok(())
}

#[test]
fn what_is_wrong_at_any_height(rt: HostRuntime) -> Result<(), Fail> {
    let mut wrong = Wrong::new(rt.alloc());
    refused(&mut wrong, "import", "P3", 1)?;
    refused(&mut wrong, "{}", "P3", 1)?;
    refused(&mut wrong, "x is y", "P3", 3)?;
    refused(&mut wrong, ")", "P1", 1)?;
    refused(&mut wrong, "print", "P1", 1)?;
    refused(&mut wrong, "x y", "P1", 3)?;
    refused(&mut wrong, "x = y", "P1", 3)?;
    refused(&mut wrong, "x,, y", "P1", 3)?;
    // One bracket more is too deep, whatever stands in it.
    is_refused(&mut wrong, in_brackets("import"), 99, "P2", 99)?;
    wrong.end(&rt);
    Ok(())
}

/// A method call adds two: the node of the call, and that of the field.
#[test]
fn method_calls(rt: HostRuntime) -> Result<(), Fail> {
    let mut wrong = Wrong::new(rt.alloc());
    let alone = Nest {
        before: "x",
        open: "",
        inside: "",
        close: ".f()",
        after: "\n",
    };
    has_height(&mut wrong, alone, 49, 100)?;
    is_refused(&mut wrong, alone, 50, "P2", 198)?;
    let bracketed = Nest {
        before: "(x)",
        ..alone
    };
    has_height(&mut wrong, bracketed, 48, 99)?;
    is_refused(&mut wrong, bracketed, 49, "P2", 198)?;
    let inside = Nest {
        before: "",
        open: "x.f(",
        inside: "1",
        close: ")",
        after: "\n",
    };
    has_height(&mut wrong, inside, 97, 100)?;
    wrong.end(&rt);
    Ok(())
}

/// Arms, comparisons, operands of one word, texts side by side and statements of a line stand side by side.
#[test]
fn flat_forms(rt: HostRuntime) -> Result<(), Fail> {
    let mut wrong = Wrong::new(rt.alloc());
    let words = Nest {
        before: "x",
        open: "",
        inside: "",
        close: " and x",
        after: "\n",
    };
    has_height(&mut wrong, words, 300, 3)?;
    has_height(
        &mut wrong,
        Nest {
            close: " or x",
            ..words
        },
        300,
        3,
    )?;
    has_height(
        &mut wrong,
        Nest {
            close: " < x",
            ..words
        },
        300,
        3,
    )?;
    has_height(
        &mut wrong,
        Nest {
            close: "; x",
            ..words
        },
        300,
        2,
    )?;
    has_height(
        &mut wrong,
        Nest {
            close: "\nx",
            ..words
        },
        300,
        2,
    )?;
    let texts = Nest {
        before: "'a'",
        close: " 'a'",
        ..words
    };
    has_height(&mut wrong, texts, 300, 2)?;
    let mut arms = nest_text(
        rt.alloc(),
        Nest {
            before: "if x: pass",
            close: "",
            ..words
        },
        0,
    )?;
    repeat(&mut arms, "elif x: pass\n", 300)?;
    judge(&mut wrong, "elif", arms.as_str(), "height 2")?;
    arms.push_str("elif: pass\n")?;
    let want = places(rt.alloc(), "P1", 302, 5)?;
    judge(&mut wrong, "elif", arms.as_str(), want.as_str())?;
    wrong.end(&rt);
    Ok(())
}
