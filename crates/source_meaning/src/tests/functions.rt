use super::build::*;
use super::{Case, Wanted, expect, fault};
use codon_base::FaultKind;
use source_trees::*;
use std::process::Abort;
use std::test::Fail;

#[test]
fn defaults_and_results(rt: HostRuntime) -> Result<(), Fail> {
    let t = Trees {
        rt: &rt,
        alloc: rt.alloc(),
    };
    // def f(a, b=-2, c='x'):
    //     return (a, b, c)
    // print(f(1), f(1, 2), f(1, 2, 'y'))
    expect(
        &t,
        t.module([
            t.function(
                "f",
                [
                    t.param("a"),
                    t.param_or("b", t.unary(UnaryOp::Minus, t.int(2))),
                    t.param_or("c", t.text("x")),
                ],
                [Stmt::Return(NODE, Some(t.tuple([t.name("a"), t.name("b"), t.name("c")])))],
            ),
            Item::Stmt(t.print([
                t.call("f", [t.int(1)]),
                t.call("f", [t.int(1), t.int(2)]),
                t.call("f", [t.int(1), t.int(2), t.text("y")]),
            ])),
        ]),
        Case {
            fuel: 1000000,
            depth: 100,
            out: b"(1, -2, 'x') (1, 2, 'x') (1, 2, 'y')\n",
            end: Wanted::Done,
        },
    )?;
    // def f():
    //     pass
    // print(f())
    expect(
        &t,
        t.module([
            t.function("f", [], [Stmt::Pass(NODE)]),
            Item::Stmt(t.print([t.call("f", [])])),
        ]),
        Case {
            fuel: 1000000,
            depth: 100,
            out: b"None\n",
            end: Wanted::Done,
        },
    )?;
    // def f(n):
    //     return n if n < 2 else f(n - 1) + f(n - 2)
    // print(f(15))
    expect(
        &t,
        t.module([
            t.function(
                "f",
                [t.param("n")],
                [Stmt::Return(
                    NODE,
                    Some(t.conditional(
                        t.name("n"),
                        t.compare(t.name("n"), [than(Comparator::Less, t.int(2))]),
                        t.binary(
                            BinaryOp::Add,
                            t.call("f", [t.binary(BinaryOp::Subtract, t.name("n"), t.int(1))]),
                            t.call("f", [t.binary(BinaryOp::Subtract, t.name("n"), t.int(2))]),
                        ),
                    )),
                )],
            ),
            Item::Stmt(t.print([t.call("f", [t.int(15)])])),
        ]),
        Case {
            fuel: 1000000,
            depth: 100,
            out: b"610\n",
            end: Wanted::Done,
        },
    )?;
    Ok(())
}

#[test]
fn a_function_with_a_value_has_to_return_one(rt: HostRuntime) -> Result<(), Fail> {
    let t = Trees {
        rt: &rt,
        alloc: rt.alloc(),
    };
    // def f(x):
    //     if x:
    //         return 1
    // print(f(1))
    // f(0)
    expect(
        &t,
        t.module([
            t.function(
                "f",
                [t.param("x")],
                [t.choose(
                    [t.when(t.name("x"), [Stmt::Return(NODE, Some(t.int(1)))])],
                    [],
                )],
            ),
            Item::Stmt(t.print([t.call("f", [t.int(1)])])),
            Item::Stmt(Stmt::Evaluate(NODE, t.call("f", [t.int(0)]))),
        ]),
        Case {
            fuel: 1000000,
            depth: 100,
            out: b"1\n",
            end: fault(FaultKind::Runtime, b"no value returned"),
        },
    )?;
    // def f(x):
    //     if x:
    //         return
    //     print('end')
    // f(1)
    // f(0)
    expect(
        &t,
        t.module([
            t.function(
                "f",
                [t.param("x")],
                [
                    t.choose([t.when(t.name("x"), [Stmt::Return(NODE, None)])], []),
                    t.print([t.text("end")]),
                ],
            ),
            Item::Stmt(Stmt::Evaluate(NODE, t.call("f", [t.int(1)]))),
            Item::Stmt(Stmt::Evaluate(NODE, t.call("f", [t.int(0)]))),
        ]),
        Case {
            fuel: 1000000,
            depth: 100,
            out: b"end\n",
            end: Wanted::Done,
        },
    )?;
    Ok(())
}

#[test]
fn instances_are_shared(rt: HostRuntime) -> Result<(), Fail> {
    let t = Trees {
        rt: &rt,
        alloc: rt.alloc(),
    };
    // class Point:
    //     x: int
    //     y: int
    //     def sum(self):
    //         return self.x + self.y
    // p = Point(1, 2)
    // q = p
    // q.x += 5
    // print(p.x, p.sum())
    expect(
        &t,
        t.module([
            t.class(
                "Point",
                [
                    t.int_field("x"),
                    t.int_field("y"),
                    t.member(
                        "sum",
                        [t.param("self")],
                        [Stmt::Return(
                            NODE,
                            Some(t.binary(
                                BinaryOp::Add,
                                t.field(t.name("self"), "x"),
                                t.field(t.name("self"), "y"),
                            )),
                        )],
                    ),
                ],
            ),
            Item::Stmt(t.set(t.to_name("p"), t.call("Point", [t.int(1), t.int(2)]))),
            Item::Stmt(t.set(t.to_name("q"), t.name("p"))),
            Item::Stmt(t.update(t.to_field(t.name("q"), "x"), BinaryOp::Add, t.int(5))),
            Item::Stmt(t.print([t.field(t.name("p"), "x"), t.method(t.name("p"), "sum", [])])),
        ]),
        Case {
            fuel: 1000000,
            depth: 100,
            out: b"6 8\n",
            end: Wanted::Done,
        },
    )?;
    // class Counter:
    //     n: int
    //     def __init__(self, start=3):
    //         self.n = start
    //     def up(self):
    //         self.n += 1
    //         return self
    // c = Counter()
    // print(c.up().up().n, Counter(7).n)
    expect(
        &t,
        t.module([
            t.class(
                "Counter",
                [
                    t.int_field("n"),
                    t.member(
                        "__init__",
                        [t.param("self"), t.param_or("start", t.int(3))],
                        [t.set(t.to_field(t.name("self"), "n"), t.name("start"))],
                    ),
                    t.member(
                        "up",
                        [t.param("self")],
                        [
                            t.update(t.to_field(t.name("self"), "n"), BinaryOp::Add, t.int(1)),
                            Stmt::Return(NODE, Some(t.name("self"))),
                        ],
                    ),
                ],
            ),
            Item::Stmt(t.set(t.to_name("c"), t.call("Counter", []))),
            Item::Stmt(t.print([
                t.field(t.method(t.method(t.name("c"), "up", []), "up", []), "n"),
                t.field(t.call("Counter", [t.int(7)]), "n"),
            ])),
        ]),
        Case {
            fuel: 1000000,
            depth: 100,
            out: b"5 7\n",
            end: Wanted::Done,
        },
    )?;
    Ok(())
}

#[test]
fn a_field_without_a_value_is_a_fault(rt: HostRuntime) -> Result<(), Fail> {
    let t = Trees {
        rt: &rt,
        alloc: rt.alloc(),
    };
    // class A:
    //     n: int
    //     def __init__(self):
    //         pass
    // a = A()
    // print(a.n)
    expect(
        &t,
        t.module([
            t.class(
                "A",
                [
                    t.int_field("n"),
                    t.member("__init__", [t.param("self")], [Stmt::Pass(NODE)]),
                ],
            ),
            Item::Stmt(t.set(t.to_name("a"), t.call("A", []))),
            Item::Stmt(t.print([t.field(t.name("a"), "n")])),
        ]),
        Case {
            fuel: 1000000,
            depth: 100,
            out: b"",
            end: fault(FaultKind::Runtime, b"field is not set"),
        },
    )?;
    Ok(())
}
