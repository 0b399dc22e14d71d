//! Every form that stands in itself, at heights 99, 100 and 101.

use super::super::Wrong;
use super::{Nest, limit};
use std::alloc::AllocError;
use std::test::Fail;

/// A row: the parts of a nest, how often it stands in itself for a height of 100, and the column at which once more is too deep.
fn row(
    wrong: &mut Wrong,
    parts: [&'static str; 5],
    times: u32,
    column: u32,
) -> Result<(), AllocError> {
    let [before, open, inside, close, after] = parts;
    let nest = Nest {
        before,
        open,
        inside,
        close,
        after,
    };
    limit(wrong, nest, times, column)
}

#[test]
fn brackets_and_signs(rt: HostRuntime) -> Result<(), Fail> {
    let mut wrong = Wrong::new(rt.alloc());
    row(&mut wrong, ["", "(", "x", ")", "\n"], 98, 99)?;
    row(&mut wrong, ["x = ", "(", "1", ")", "\n"], 98, 103)?;
    row(&mut wrong, ["", "not ", "x", "", "\n"], 98, 393)?;
    row(&mut wrong, ["", "-", "x", "", "\n"], 98, 99)?;
    row(&mut wrong, ["", "~", "x", "", "\n"], 98, 99)?;
    row(&mut wrong, ["", "(", "x", ",)", "\n"], 98, 99)?;
    row(&mut wrong, ["print(", "(", "1", ")", ")\n"], 98, 105)?;
    row(&mut wrong, ["return ", "(", "1", ")", "\n"], 98, 106)?;
    wrong.end(&rt);
    Ok(())
}

#[test]
fn brackets_and_signs_more(rt: HostRuntime) -> Result<(), Fail> {
    let mut wrong = Wrong::new(rt.alloc());
    row(&mut wrong, ["yield ", "(", "1", ")", "\n"], 98, 105)?;
    row(&mut wrong, ["raise E(", "(", "1", ")", ")\n"], 98, 107)?;
    row(&mut wrong, ["assert ", "(", "1", ")", "\n"], 98, 106)?;
    row(&mut wrong, ["assert x, ", "(", "1", ")", "\n"], 98, 109)?;
    row(&mut wrong, ["x += ", "(", "1", ")", "\n"], 98, 104)?;
    row(&mut wrong, ["print(x, sep=", "(", "1", ")", ")\n"], 98, 112)?;
    row(&mut wrong, ["print(x, end=", "(", "1", ")", ")\n"], 98, 112)?;
    wrong.end(&rt);
    Ok(())
}

#[test]
fn chains(rt: HostRuntime) -> Result<(), Fail> {
    let mut wrong = Wrong::new(rt.alloc());
    row(&mut wrong, ["x", "", "", " ** x", "\n"], 98, 493)?;
    row(&mut wrong, ["x", "", "", " + x", "\n"], 98, 395)?;
    row(&mut wrong, ["x", "", "", " - x", "\n"], 98, 395)?;
    row(&mut wrong, ["x", "", "", " * x", "\n"], 98, 395)?;
    row(&mut wrong, ["x", "", "", " // x", "\n"], 98, 493)?;
    row(&mut wrong, ["x", "", "", " << x", "\n"], 98, 493)?;
    row(&mut wrong, ["x", "", "", " & x", "\n"], 98, 395)?;
    row(&mut wrong, ["x", "", "", " ^ x", "\n"], 98, 395)?;
    wrong.end(&rt);
    Ok(())
}

#[test]
fn chains_more(rt: HostRuntime) -> Result<(), Fail> {
    let mut wrong = Wrong::new(rt.alloc());
    row(&mut wrong, ["x", "", "", " | x", "\n"], 98, 395)?;
    row(&mut wrong, ["x", "", "", " if x else x", "\n"], 98, 1179)?;
    row(&mut wrong, ["x", "", "", "[0]", "\n"], 98, 296)?;
    row(&mut wrong, ["x", "", "", "[:]", "\n"], 98, 296)?;
    row(&mut wrong, ["x", "", "", ".y", "\n"], 98, 198)?;
    row(&mut wrong, ["x", "", "", "[0]", " = 1\n"], 98, 296)?;
    row(&mut wrong, ["x", "", "", ".y", " += 1\n"], 98, 198)?;
    wrong.end(&rt);
    Ok(())
}

#[test]
fn lists_and_calls(rt: HostRuntime) -> Result<(), Fail> {
    let mut wrong = Wrong::new(rt.alloc());
    row(&mut wrong, ["", "[", "x", "]", "\n"], 98, 100)?;
    row(&mut wrong, ["", "[", "", "]", "\n"], 99, 100)?;
    row(&mut wrong, ["", "f(", "x", ")", "\n"], 98, 198)?;
    row(&mut wrong, ["", "f(", "f()", ")", "\n"], 97, 198)?;
    row(&mut wrong, ["", "x[", "0", "]", "\n"], 98, 198)?;
    row(&mut wrong, ["", "x[", "0", ":]", "\n"], 98, 198)?;
    row(&mut wrong, ["", "x[:", "0", "]", "\n"], 98, 296)?;
    row(&mut wrong, ["", "[", "x", " for y in z]", "\n"], 98, 100)?;
    wrong.end(&rt);
    Ok(())
}

#[test]
fn lists_and_calls_more(rt: HostRuntime) -> Result<(), Fail> {
    let mut wrong = Wrong::new(rt.alloc());
    row(&mut wrong, ["", "[x for x in ", "y", "]", "\n"], 98, 1178)?;
    row(
        &mut wrong,
        ["", "[x for x in y if ", "z", "]", "\n"],
        98,
        1668,
    )?;
    row(&mut wrong, ["x[", "(", "0", ")", "] = 1\n"], 97, 100)?;
    wrong.end(&rt);
    Ok(())
}

#[test]
fn types(rt: HostRuntime) -> Result<(), Fail> {
    let mut wrong = Wrong::new(rt.alloc());
    row(&mut wrong, ["x: ", "list[", "int", "]", "\n"], 98, 498)?;
    row(&mut wrong, ["x: ", "tuple[", "int", "]", "\n"], 98, 597)?;
    row(
        &mut wrong,
        ["x: ", "tuple[int, ", "A", "]", " = 1\n"],
        98,
        1087,
    )?;
    row(
        &mut wrong,
        ["def f() -> ", "List[", "int", "]", ": pass\n"],
        98,
        506,
    )?;
    row(
        &mut wrong,
        ["def f(x: ", "list[", "int", "]", "): pass\n"],
        97,
        499,
    )?;
    row(
        &mut wrong,
        ["def f(x=", "(", "1", ")", "): pass\n"],
        97,
        106,
    )?;
    row(
        &mut wrong,
        ["def f(x: int = ", "-", "1", "", "): pass\n"],
        97,
        113,
    )?;
    wrong.end(&rt);
    Ok(())
}

#[test]
fn headers(rt: HostRuntime) -> Result<(), Fail> {
    let mut wrong = Wrong::new(rt.alloc());
    row(&mut wrong, ["if ", "(", "x", ")", ": pass\n"], 98, 102)?;
    row(&mut wrong, ["while ", "(", "x", ")", ": pass\n"], 98, 105)?;
    row(
        &mut wrong,
        ["for x in ", "(", "y", ")", ": pass\n"],
        98,
        108,
    )?;
    row(&mut wrong, ["x |> f(", "(", "1", ")", ")\n"], 97, 105)?;
    row(&mut wrong, ["x |> print(", "(", "1", ")", ")\n"], 97, 109)?;
    row(&mut wrong, ["", "(", "x", ")", " |> f\n"], 98, 99)?;
    row(&mut wrong, ["x, ", "(", "1", ")", "\n"], 97, 101)?;
    row(&mut wrong, ["x = ", "(", "1", ")", ", 2\n"], 97, 202)?;
    wrong.end(&rt);
    Ok(())
}

#[test]
fn headers_more(rt: HostRuntime) -> Result<(), Fail> {
    let mut wrong = Wrong::new(rt.alloc());
    row(&mut wrong, ["a, ", "", "x", ".y", " = 1\n"], 97, 199)?;
    row(&mut wrong, ["if x: y = ", "(", "1", ")", "\n"], 97, 108)?;
    wrong.end(&rt);
    Ok(())
}
