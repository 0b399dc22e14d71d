//! Rows of 255 parts and of 256.

use super::super::{Wrong, places};
use super::{Nest, has_height, judge, nest_text};
use std::alloc::{AllocError, Global};
use std::test::Fail;

/// So many items, at least one, with commas between.
fn row_text(
    alloc: Global,
    before: &str,
    item: &str,
    times: u32,
    after: &str,
) -> Result<String, AllocError> {
    let mut text = String::new(alloc);
    text.push_str(before)?;
    text.push_str(item)?;
    'items: for _ in 1..times {
        text.push_str(", ")?;
        text.push_str(item)?;
    }
    text.push_str(after)?;
    Ok(text)
}

/// So many items make a tree.
fn fits(
    wrong: &mut Wrong,
    before: &str,
    item: &str,
    times: u32,
    after: &str,
) -> Result<(), AllocError> {
    let text = row_text(wrong.alloc, before, item, times, after)?;
    wrong.row(text.as_str(), "ok")
}

/// So many items are refused at this column.
fn refused(
    wrong: &mut Wrong,
    before: &str,
    item: &str,
    times: u32,
    after: &str,
    column: u32,
) -> Result<(), AllocError> {
    let text = row_text(wrong.alloc, before, item, times, after)?;
    let want = places(wrong.alloc, "P1", 1, column)?;
    wrong.row(text.as_str(), want.as_str())
}

/// 255 items make a tree, and 256 are refused at this column.
fn most(
    wrong: &mut Wrong,
    before: &str,
    item: &str,
    after: &str,
    column: u32,
) -> Result<(), AllocError> {
    fits(wrong, before, item, 255, after)?;
    refused(wrong, before, item, 256, after, column)
}

#[test]
fn calls_and_tuples(rt: HostRuntime) -> Result<(), Fail> {
    let mut wrong = Wrong::new(rt.alloc());
    most(&mut wrong, "f(", "1", ")\n", 768)?;
    most(&mut wrong, "x.f(", "1", ")\n", 770)?;
    most(&mut wrong, "(", "1", ")\n", 767)?;
    most(&mut wrong, "x = ", "1", "\n", 770)?;
    most(&mut wrong, "", "1", "\n", 766)?;
    most(&mut wrong, "return ", "1", "\n", 773)?;
    most(&mut wrong, "yield ", "1", "\n", 772)?;
    most(&mut wrong, "for x in ", "1", ": pass\n", 775)?;
    most(&mut wrong, "x += ", "1", "\n", 771)?;
    most(&mut wrong, "x: int = ", "1", "\n", 775)?;
    wrong.end(&rt);
    Ok(())
}

#[test]
fn other_rows(rt: HostRuntime) -> Result<(), Fail> {
    let mut wrong = Wrong::new(rt.alloc());
    most(&mut wrong, "print(", "1", ")\n", 772)?;
    most(&mut wrong, "x |> print(", "1", ")\n", 777)?;
    most(&mut wrong, "def f(", "x", "): pass\n", 772)?;
    most(&mut wrong, "x: tuple[", "A", "]\n", 773)?;
    most(&mut wrong, "x |> f(", "1", ")\n", 773)?;
    most(&mut wrong, "x |> f(..., ", "1", ")\n", 778)?;
    most(&mut wrong, "x |> f(", "1", ", ...)\n", 773)?;
    most(&mut wrong, "def f() -> Tuple[", "A", "]: pass\n", 781)?;
    wrong.end(&rt);
    Ok(())
}

/// A comma may still follow the last argument, tuple item and parameter; not the last printed value, after which only an
/// option stands.
#[test]
fn what_follows_the_last(rt: HostRuntime) -> Result<(), Fail> {
    let mut wrong = Wrong::new(rt.alloc());
    fits(&mut wrong, "f(", "1", 255, ",)\n")?;
    fits(&mut wrong, "(", "1", 255, ",)\n")?;
    fits(&mut wrong, "x = ", "1", 255, ",\n")?;
    fits(&mut wrong, "def f(", "x", 255, ",): pass\n")?;
    fits(&mut wrong, "print(", "1", 255, ", sep=1, end=2)\n")?;
    // `sep` may be the name of an option, until what follows it tells.
    refused(&mut wrong, "print(", "1", 255, ", sep)\n", 775)?;
    refused(&mut wrong, "print(", "1", 255, ", end, sep=1)\n", 775)?;
    wrong.end(&rt);
    Ok(())
}

/// Targets, the items of lists, the names of loops and the members of classes that are no fields have no limit.
#[test]
fn rows_without_a_limit(rt: HostRuntime) -> Result<(), Fail> {
    let mut wrong = Wrong::new(rt.alloc());
    fits(&mut wrong, "", "x", 300, " = 1\n")?;
    fits(&mut wrong, "[", "1", 300, "]\n")?;
    fits(&mut wrong, "for ", "x", 300, " in y: pass\n")?;
    fits(&mut wrong, "[x for ", "x", 300, " in y]\n")?;
    // Names may still be targets at the 256th: the line end shows that they are none.
    refused(&mut wrong, "", "x", 256, "\n", 767)?;
    refused(&mut wrong, "", "x", 255, ", 1\n", 767)?;
    refused(&mut wrong, "", "x", 255, ", -1\n", 766)?;
    refused(&mut wrong, "", "x", 256, " += 1\n", 768)?;
    wrong.end(&rt);
    Ok(())
}

/// A class: so many fields, and the lines after them.
fn class_with(after: &'static str) -> Nest<'static> {
    Nest {
        before: "class A:\n",
        open: " x: int\n",
        inside: "",
        close: "",
        after,
    }
}

#[test]
fn fields(rt: HostRuntime) -> Result<(), Fail> {
    let mut wrong = Wrong::new(rt.alloc());
    has_height(&mut wrong, class_with(""), 255, 3)?;
    has_height(
        &mut wrong,
        class_with(" pass\n 'a'\n def f(): pass\n"),
        255,
        3,
    )?;
    let text = nest_text(rt.alloc(), class_with(""), 256)?;
    let want = places(rt.alloc(), "P1", 257, 2)?;
    judge(&mut wrong, "fields", text.as_str(), want.as_str())?;
    let text = nest_text(rt.alloc(), class_with(" pass\n x: int\n"), 255)?;
    let want = places(rt.alloc(), "P1", 258, 2)?;
    judge(&mut wrong, "fields", text.as_str(), want.as_str())?;
    wrong.end(&rt);
    Ok(())
}
