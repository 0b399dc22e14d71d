use super::build::*;
use super::{Case, Wanted, expect, fault};
use codon_base::FaultKind;
use source_trees::*;
use std::process::Abort;
use std::test::Fail;

#[test]
fn a_loop_over_a_generator(rt: HostRuntime) -> Result<(), Fail> {
    let t = Trees {
        rt: &rt,
        alloc: rt.alloc(),
    };
    // def g(n):
    //     print('begin')
    //     for i in range(n):
    //         yield i
    //     print('end')
    // for x in g(2):
    //     print(x)
    expect(
        &t,
        t.module([
            t.function(
                "g",
                [t.param("n")],
                [
                    t.print([t.text("begin")]),
                    t.over(
                        t.one("i"),
                        t.call("range", [t.name("n")]),
                        [Stmt::Yield(NODE, t.name("i"))],
                    ),
                    t.print([t.text("end")]),
                ],
            ),
            Item::Stmt(t.over(
                t.one("x"),
                t.call("g", [t.int(2)]),
                [t.print([t.name("x")])],
            )),
        ]),
        Case {
            fuel: 1000000,
            depth: 100,
            out: b"begin\n0\n1\nend\n",
            end: Wanted::Done,
        },
    )?;
    // def g():
    //     yield 1
    //     print('after')
    //     yield 2
    // for x in g():
    //     print(x)
    //     break
    // print('out')
    expect(
        &t,
        t.module([
            t.function(
                "g",
                [],
                [
                    Stmt::Yield(NODE, t.int(1)),
                    t.print([t.text("after")]),
                    Stmt::Yield(NODE, t.int(2)),
                ],
            ),
            Item::Stmt(t.over(
                t.one("x"),
                t.call("g", []),
                [t.print([t.name("x")]), Stmt::Break(NODE)],
            )),
            Item::Stmt(t.print([t.text("out")])),
        ]),
        Case {
            fuel: 1000000,
            depth: 100,
            out: b"1\nout\n",
            end: Wanted::Done,
        },
    )?;
    // def g():
    //     yield 1
    //     yield 2
    //     yield 3
    // for x in g():
    //     if x == 2:
    //         continue
    //     print(x)
    expect(
        &t,
        t.module([
            t.function(
                "g",
                [],
                [
                    Stmt::Yield(NODE, t.int(1)),
                    Stmt::Yield(NODE, t.int(2)),
                    Stmt::Yield(NODE, t.int(3)),
                ],
            ),
            Item::Stmt(t.over(
                t.one("x"),
                t.call("g", []),
                [
                    t.choose(
                        [t.when(
                            t.compare(t.name("x"), [than(Comparator::Equal, t.int(2))]),
                            [Stmt::Continue(NODE)],
                        )],
                        [],
                    ),
                    t.print([t.name("x")]),
                ],
            )),
        ]),
        Case {
            fuel: 1000000,
            depth: 100,
            out: b"1\n3\n",
            end: Wanted::Done,
        },
    )?;
    Ok(())
}

#[test]
fn a_return_and_a_fault_leave_the_generator(rt: HostRuntime) -> Result<(), Fail> {
    let t = Trees {
        rt: &rt,
        alloc: rt.alloc(),
    };
    // def g():
    //     yield 1
    //     print('after')
    // def f():
    //     for x in g():
    //         for y in g():
    //             return x + y
    // print(f())
    expect(
        &t,
        t.module([
            t.function(
                "g",
                [],
                [Stmt::Yield(NODE, t.int(1)), t.print([t.text("after")])],
            ),
            t.function(
                "f",
                [],
                [t.over(
                    t.one("x"),
                    t.call("g", []),
                    [t.over(
                        t.one("y"),
                        t.call("g", []),
                        [Stmt::Return(
                            NODE,
                            Some(t.binary(BinaryOp::Add, t.name("x"), t.name("y"))),
                        )],
                    )],
                )],
            ),
            Item::Stmt(t.print([t.call("f", [])])),
        ]),
        Case {
            fuel: 1000000,
            depth: 100,
            out: b"2\n",
            end: Wanted::Done,
        },
    )?;
    // def g():
    //     yield 1
    //     print('after')
    // for x in g():
    //     print(x // 0)
    expect(
        &t,
        t.module([
            t.function(
                "g",
                [],
                [Stmt::Yield(NODE, t.int(1)), t.print([t.text("after")])],
            ),
            Item::Stmt(t.over(
                t.one("x"),
                t.call("g", []),
                [t.print([t.binary(BinaryOp::FloorDivide, t.name("x"), t.int(0))])],
            )),
        ]),
        Case {
            fuel: 1000000,
            depth: 100,
            out: b"",
            end: fault(FaultKind::ZeroDivision, b"division by zero"),
        },
    )?;
    // def g():
    //     for i in range(3):
    //         if i == 1:
    //             return
    //         yield i
    // for x in g():
    //     print(x)
    // print('out')
    expect(
        &t,
        t.module([
            t.function(
                "g",
                [],
                [t.over(
                    t.one("i"),
                    t.call("range", [t.int(3)]),
                    [
                        t.choose(
                            [t.when(
                                t.compare(t.name("i"), [than(Comparator::Equal, t.int(1))]),
                                [Stmt::Return(NODE, None)],
                            )],
                            [],
                        ),
                        Stmt::Yield(NODE, t.name("i")),
                    ],
                )],
            ),
            Item::Stmt(t.over(t.one("x"), t.call("g", []), [t.print([t.name("x")])])),
            Item::Stmt(t.print([t.text("out")])),
        ]),
        Case {
            fuel: 1000000,
            depth: 100,
            out: b"0\nout\n",
            end: Wanted::Done,
        },
    )?;
    Ok(())
}

#[test]
fn each_generator_and_each_loop_has_names_of_its_own(rt: HostRuntime) -> Result<(), Fail> {
    let t = Trees {
        rt: &rt,
        alloc: rt.alloc(),
    };
    // def g(n):
    //     x = 10
    //     for i in range(n):
    //         yield x + i
    //         x += 1
    // x = 0
    // for y in g(2):
    //     x += y
    //     for z in g(y - 9):
    //         x += z
    // print(x)
    expect(
        &t,
        t.module([
            t.function(
                "g",
                [t.param("n")],
                [
                    t.set(t.to_name("x"), t.int(10)),
                    t.over(
                        t.one("i"),
                        t.call("range", [t.name("n")]),
                        [
                            Stmt::Yield(NODE, t.binary(BinaryOp::Add, t.name("x"), t.name("i"))),
                            t.update(t.to_name("x"), BinaryOp::Add, t.int(1)),
                        ],
                    ),
                ],
            ),
            Item::Stmt(t.set(t.to_name("x"), t.int(0))),
            Item::Stmt(t.over(
                t.one("y"),
                t.call("g", [t.int(2)]),
                [
                    t.update(t.to_name("x"), BinaryOp::Add, t.name("y")),
                    t.over(
                        t.one("z"),
                        t.call("g", [t.binary(BinaryOp::Subtract, t.name("y"), t.int(9))]),
                        [t.update(t.to_name("x"), BinaryOp::Add, t.name("z"))],
                    ),
                ],
            )),
            Item::Stmt(t.print([t.name("x")])),
        ]),
        Case {
            fuel: 1000000,
            depth: 100,
            out: b"68\n",
            end: Wanted::Done,
        },
    )?;
    // def inner():
    //     yield 1
    //     yield 2
    // def outer():
    //     for x in inner():
    //         yield x * 10
    //         yield x
    // print([y for y in outer()], list(outer()))
    expect(
        &t,
        t.module([
            t.function(
                "inner",
                [],
                [Stmt::Yield(NODE, t.int(1)), Stmt::Yield(NODE, t.int(2))],
            ),
            t.function(
                "outer",
                [],
                [t.over(
                    t.one("x"),
                    t.call("inner", []),
                    [
                        Stmt::Yield(NODE, t.binary(BinaryOp::Multiply, t.name("x"), t.int(10))),
                        Stmt::Yield(NODE, t.name("x")),
                    ],
                )],
            ),
            Item::Stmt(t.print([
                t.each(t.name("y"), t.one("y"), t.call("outer", [])),
                t.call("list", [t.call("outer", [])]),
            ])),
        ]),
        Case {
            fuel: 1000000,
            depth: 100,
            out: b"[10, 1, 20, 2] [10, 1, 20, 2]\n",
            end: Wanted::Done,
        },
    )?;
    Ok(())
}

#[test]
fn the_prelude_has_generators(rt: HostRuntime) -> Result<(), Fail> {
    let t = Trees {
        rt: &rt,
        alloc: rt.alloc(),
    };
    // for i, c in enumerate('ab'):
    //     print(i, c)
    // for x in reversed([1, 2]):
    //     print(x)
    // print([a + b for a, b in zip([1, 2], [3, 4, 5])])
    expect(
        &t,
        t.module([
            Item::Stmt(t.over(
                t.several([t.named("i"), t.named("c")]),
                t.call("enumerate", [t.text("ab")]),
                [t.print([t.name("i"), t.name("c")])],
            )),
            Item::Stmt(t.over(
                t.one("x"),
                t.call("reversed", [t.list([t.int(1), t.int(2)])]),
                [t.print([t.name("x")])],
            )),
            Item::Stmt(t.print([t.each(
                t.binary(BinaryOp::Add, t.name("a"), t.name("b")),
                t.several([t.named("a"), t.named("b")]),
                t.call(
                    "zip",
                    [
                        t.list([t.int(1), t.int(2)]),
                        t.list([t.int(3), t.int(4), t.int(5)]),
                    ],
                ),
            )])),
        ]),
        Case {
            fuel: 1000000,
            depth: 100,
            out: b"0 a\n1 b\n2\n1\n[4, 6]\n",
            end: Wanted::Done,
        },
    )?;
    Ok(())
}
