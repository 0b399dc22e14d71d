use super::build::*;
use super::{Case, Wanted, expect, fault};
use codon_base::FaultKind;
use source_trees::*;
use std::process::Abort;
use std::test::Fail;

#[test]
fn bodies_that_are_entered_and_not_left_are_counted(rt: HostRuntime) -> Result<(), Fail> {
    let t = Trees {
        rt: &rt,
        alloc: rt.alloc(),
    };
    // def f(n):
    //     return 0 if n == 0 else f(n - 1)
    // print('begin')
    // print(f(99))
    expect(
        &t,
        t.module([
            t.function(
                "f",
                [t.param("n")],
                [Stmt::Return(
                    NODE,
                    Some(t.conditional(
                        t.int(0),
                        t.compare(t.name("n"), [than(Comparator::Equal, t.int(0))]),
                        t.call("f", [t.binary(BinaryOp::Subtract, t.name("n"), t.int(1))]),
                    )),
                )],
            ),
            Item::Stmt(t.print([t.text("begin")])),
            Item::Stmt(t.print([t.call("f", [t.int(99)])])),
        ]),
        Case {
            fuel: 1000000,
            depth: 100,
            out: b"begin\n0\n",
            end: Wanted::Done,
        },
    )?;
    // def f(n):
    //     return 0 if n == 0 else f(n - 1)
    // print('begin')
    // print(f(100))
    expect(
        &t,
        t.module([
            t.function(
                "f",
                [t.param("n")],
                [Stmt::Return(
                    NODE,
                    Some(t.conditional(
                        t.int(0),
                        t.compare(t.name("n"), [than(Comparator::Equal, t.int(0))]),
                        t.call("f", [t.binary(BinaryOp::Subtract, t.name("n"), t.int(1))]),
                    )),
                )],
            ),
            Item::Stmt(t.print([t.text("begin")])),
            Item::Stmt(t.print([t.call("f", [t.int(100)])])),
        ]),
        Case {
            fuel: 1000000,
            depth: 100,
            out: b"begin\n",
            end: Wanted::TooDeep,
        },
    )?;
    // def f(n):
    //     return 0 if n == 0 else f(n - 1)
    // print('begin')
    // print(f(200))
    expect(
        &t,
        t.module([
            t.function(
                "f",
                [t.param("n")],
                [Stmt::Return(
                    NODE,
                    Some(t.conditional(
                        t.int(0),
                        t.compare(t.name("n"), [than(Comparator::Equal, t.int(0))]),
                        t.call("f", [t.binary(BinaryOp::Subtract, t.name("n"), t.int(1))]),
                    )),
                )],
            ),
            Item::Stmt(t.print([t.text("begin")])),
            Item::Stmt(t.print([t.call("f", [t.int(200)])])),
        ]),
        Case {
            fuel: 1000000,
            depth: 100,
            out: b"begin\n",
            end: Wanted::TooDeep,
        },
    )?;
    // def f(n):
    //     return 0 if n == 0 else f(n - 1)
    // print('begin')
    // print(f(100))
    expect(
        &t,
        t.module([
            t.function(
                "f",
                [t.param("n")],
                [Stmt::Return(
                    NODE,
                    Some(t.conditional(
                        t.int(0),
                        t.compare(t.name("n"), [than(Comparator::Equal, t.int(0))]),
                        t.call("f", [t.binary(BinaryOp::Subtract, t.name("n"), t.int(1))]),
                    )),
                )],
            ),
            Item::Stmt(t.print([t.text("begin")])),
            Item::Stmt(t.print([t.call("f", [t.int(100)])])),
        ]),
        Case {
            fuel: 100,
            depth: 100,
            out: b"begin\n",
            end: Wanted::OutOfFuel,
        },
    )?;
    // def f(n):
    //     return 0 if n == 0 else f(n - 1)
    // print('begin')
    // print(f(100))
    expect(
        &t,
        t.module([
            t.function(
                "f",
                [t.param("n")],
                [Stmt::Return(
                    NODE,
                    Some(t.conditional(
                        t.int(0),
                        t.compare(t.name("n"), [than(Comparator::Equal, t.int(0))]),
                        t.call("f", [t.binary(BinaryOp::Subtract, t.name("n"), t.int(1))]),
                    )),
                )],
            ),
            Item::Stmt(t.print([t.text("begin")])),
            Item::Stmt(t.print([t.call("f", [t.int(100)])])),
        ]),
        Case {
            fuel: 101,
            depth: 100,
            out: b"begin\n",
            end: Wanted::TooDeep,
        },
    )?;
    Ok(())
}

#[test]
fn a_generator_and_the_body_of_its_loop_are_two(rt: HostRuntime) -> Result<(), Fail> {
    let t = Trees {
        rt: &rt,
        alloc: rt.alloc(),
    };
    // def g():
    //     yield 1
    // for x in g():
    //     print(x)
    expect(
        &t,
        t.module([
            t.function("g", [], [Stmt::Yield(NODE, t.int(1))]),
            Item::Stmt(t.over(t.one("x"), t.call("g", []), [t.print([t.name("x")])])),
        ]),
        Case {
            fuel: 1000000,
            depth: 2,
            out: b"1\n",
            end: Wanted::Done,
        },
    )?;
    // def g():
    //     yield 1
    // for x in g():
    //     print(x)
    expect(
        &t,
        t.module([
            t.function("g", [], [Stmt::Yield(NODE, t.int(1))]),
            Item::Stmt(t.over(t.one("x"), t.call("g", []), [t.print([t.name("x")])])),
        ]),
        Case {
            fuel: 1000000,
            depth: 1,
            out: b"",
            end: Wanted::TooDeep,
        },
    )?;
    // def g():
    //     yield 1
    // print(list(g()))
    expect(
        &t,
        t.module([
            t.function("g", [], [Stmt::Yield(NODE, t.int(1))]),
            Item::Stmt(t.print([t.call("list", [t.call("g", [])])])),
        ]),
        Case {
            fuel: 1000000,
            depth: 1,
            out: b"",
            end: Wanted::TooDeep,
        },
    )?;
    // def g():
    //     yield 1
    // print([x for x in g()])
    expect(
        &t,
        t.module([
            t.function("g", [], [Stmt::Yield(NODE, t.int(1))]),
            Item::Stmt(t.print([t.each(t.name("x"), t.one("x"), t.call("g", []))])),
        ]),
        Case {
            fuel: 1000000,
            depth: 2,
            out: b"[1]\n",
            end: Wanted::Done,
        },
    )?;
    // def g(x):
    //     yield 1
    // 1 |> g
    expect(
        &t,
        t.module([
            t.function("g", [t.param("x")], [Stmt::Yield(NODE, t.int(1))]),
            Item::Stmt(t.pipeline(t.int(1), [t.stage(Joint::InTurn, "g", [], [])])),
        ]),
        Case {
            fuel: 1000000,
            depth: 1,
            out: b"",
            end: Wanted::TooDeep,
        },
    )?;
    // def g(x):
    //     yield 1
    // 1 |> g
    expect(
        &t,
        t.module([
            t.function("g", [t.param("x")], [Stmt::Yield(NODE, t.int(1))]),
            Item::Stmt(t.pipeline(t.int(1), [t.stage(Joint::InTurn, "g", [], [])])),
        ]),
        Case {
            fuel: 1000000,
            depth: 2,
            out: b"",
            end: Wanted::Done,
        },
    )?;
    // def g():
    //     yield 1
    // def f():
    //     return 7
    // for x in g():
    //     print(f())
    expect(
        &t,
        t.module([
            t.function("g", [], [Stmt::Yield(NODE, t.int(1))]),
            t.function("f", [], [Stmt::Return(NODE, Some(t.int(7)))]),
            Item::Stmt(t.over(t.one("x"), t.call("g", []), [t.print([t.call("f", [])])])),
        ]),
        Case {
            fuel: 1000000,
            depth: 3,
            out: b"7\n",
            end: Wanted::Done,
        },
    )?;
    // def g():
    //     yield 1
    // def f():
    //     return 7
    // for x in g():
    //     print(f())
    expect(
        &t,
        t.module([
            t.function("g", [], [Stmt::Yield(NODE, t.int(1))]),
            t.function("f", [], [Stmt::Return(NODE, Some(t.int(7)))]),
            Item::Stmt(t.over(t.one("x"), t.call("g", []), [t.print([t.call("f", [])])])),
        ]),
        Case {
            fuel: 1000000,
            depth: 2,
            out: b"",
            end: Wanted::TooDeep,
        },
    )?;
    Ok(())
}
