use super::build::*;
use super::{Case, Wanted, expect, fault};
use codon_base::FaultKind;
use source_trees::*;
use std::process::Abort;
use std::test::Fail;

#[test]
fn an_entry_takes_one_after_its_arguments(rt: HostRuntime) -> Result<(), Fail> {
    let t = Trees {
        rt: &rt,
        alloc: rt.alloc(),
    };
    // def f(x):
    //     return x
    // f(1 // 0)
    expect(
        &t,
        t.module([
            t.function("f", [t.param("x")], [Stmt::Return(NODE, Some(t.name("x")))]),
            Item::Stmt(Stmt::Evaluate(
                NODE,
                t.call("f", [t.binary(BinaryOp::FloorDivide, t.int(1), t.int(0))]),
            )),
        ]),
        Case {
            fuel: 0,
            depth: 100,
            out: b"",
            end: fault(FaultKind::ZeroDivision, b"division by zero"),
        },
    )?;
    // def f(x):
    //     return x
    // print(f(f(1)))
    expect(
        &t,
        t.module([
            t.function("f", [t.param("x")], [Stmt::Return(NODE, Some(t.name("x")))]),
            Item::Stmt(t.print([t.call("f", [t.call("f", [t.int(1)])])])),
        ]),
        Case {
            fuel: 2,
            depth: 100,
            out: b"1\n",
            end: Wanted::Done,
        },
    )?;
    // def f(x):
    //     return x
    // print(f(f(1)))
    expect(
        &t,
        t.module([
            t.function("f", [t.param("x")], [Stmt::Return(NODE, Some(t.name("x")))]),
            Item::Stmt(t.print([t.call("f", [t.call("f", [t.int(1)])])])),
        ]),
        Case {
            fuel: 1,
            depth: 100,
            out: b"",
            end: Wanted::OutOfFuel,
        },
    )?;
    // print(len('a'), min(1, 2), abs(1))
    expect(
        &t,
        t.module([Item::Stmt(t.print([
            t.call("len", [t.text("a")]),
            t.call("min", [t.int(1), t.int(2)]),
            t.call("abs", [t.int(1)]),
        ]))]),
        Case {
            fuel: 1,
            depth: 100,
            out: b"1 1 1\n",
            end: Wanted::Done,
        },
    )?;
    // print(sum([1, 2]))
    expect(
        &t,
        t.module([Item::Stmt(t.print([t.call("sum", [t.list([t.int(1), t.int(2)])])]))]),
        Case {
            fuel: 3,
            depth: 100,
            out: b"3\n",
            end: Wanted::Done,
        },
    )?;
    // print(sum([1, 2]))
    expect(
        &t,
        t.module([Item::Stmt(t.print([t.call("sum", [t.list([t.int(1), t.int(2)])])]))]),
        Case {
            fuel: 2,
            depth: 100,
            out: b"",
            end: Wanted::OutOfFuel,
        },
    )?;
    Ok(())
}

#[test]
fn a_class_takes_one_for_its_first_method_alone(rt: HostRuntime) -> Result<(), Fail> {
    let t = Trees {
        rt: &rt,
        alloc: rt.alloc(),
    };
    // class A:
    //     n: int
    // print(A(3).n)
    expect(
        &t,
        t.module([
            t.class("A", [t.int_field("n")]),
            Item::Stmt(t.print([t.field(t.call("A", [t.int(3)]), "n")])),
        ]),
        Case {
            fuel: 0,
            depth: 100,
            out: b"3\n",
            end: Wanted::Done,
        },
    )?;
    // class A:
    //     n: int
    //     def __init__(self):
    //         self.n = 1
    // print(A().n)
    expect(
        &t,
        t.module([
            t.class(
                "A",
                [
                    t.int_field("n"),
                    t.member(
                        "__init__",
                        [t.param("self")],
                        [t.set(t.to_field(t.name("self"), "n"), t.int(1))],
                    ),
                ],
            ),
            Item::Stmt(t.print([t.field(t.call("A", []), "n")])),
        ]),
        Case {
            fuel: 1,
            depth: 100,
            out: b"1\n",
            end: Wanted::Done,
        },
    )?;
    // class A:
    //     n: int
    //     def __init__(self):
    //         self.n = 1
    // print(A().n)
    expect(
        &t,
        t.module([
            t.class(
                "A",
                [
                    t.int_field("n"),
                    t.member(
                        "__init__",
                        [t.param("self")],
                        [t.set(t.to_field(t.name("self"), "n"), t.int(1))],
                    ),
                ],
            ),
            Item::Stmt(t.print([t.field(t.call("A", []), "n")])),
        ]),
        Case {
            fuel: 0,
            depth: 100,
            out: b"",
            end: Wanted::OutOfFuel,
        },
    )?;
    Ok(())
}

#[test]
fn an_iteration_has_a_fuel_of_its_own(rt: HostRuntime) -> Result<(), Fail> {
    let t = Trees {
        rt: &rt,
        alloc: rt.alloc(),
    };
    // def f():
    //     return 1
    // @par
    // for i in range(3):
    //     f()
    expect(
        &t,
        t.module([
            t.function("f", [], [Stmt::Return(NODE, Some(t.int(1)))]),
            Item::Stmt(t.par(
                t.one("i"),
                t.call("range", [t.int(3)]),
                [Stmt::Evaluate(NODE, t.call("f", []))],
            )),
        ]),
        Case {
            fuel: 3,
            depth: 100,
            out: b"",
            end: Wanted::OutOfFuel,
        },
    )?;
    // def f():
    //     return 1
    // @par
    // for i in range(3):
    //     f()
    expect(
        &t,
        t.module([
            t.function("f", [], [Stmt::Return(NODE, Some(t.int(1)))]),
            Item::Stmt(t.par(
                t.one("i"),
                t.call("range", [t.int(3)]),
                [Stmt::Evaluate(NODE, t.call("f", []))],
            )),
        ]),
        Case {
            fuel: 4,
            depth: 100,
            out: b"",
            end: Wanted::Done,
        },
    )?;
    // @par
    // for i in range(3):
    //     pass
    expect(
        &t,
        t.module([Item::Stmt(t.par(t.one("i"), t.call("range", [t.int(3)]), [Stmt::Pass(NODE)]))]),
        Case {
            fuel: 3,
            depth: 100,
            out: b"",
            end: Wanted::Done,
        },
    )?;
    // @par
    // for i in range(3):
    //     pass
    expect(
        &t,
        t.module([Item::Stmt(t.par(t.one("i"), t.call("range", [t.int(3)]), [Stmt::Pass(NODE)]))]),
        Case {
            fuel: 2,
            depth: 100,
            out: b"",
            end: Wanted::OutOfFuel,
        },
    )?;
    // def f(x):
    //     return x
    // [1, 2] |> iter ||> f
    expect(
        &t,
        t.module([
            t.function("f", [t.param("x")], [Stmt::Return(NODE, Some(t.name("x")))]),
            Item::Stmt(t.pipeline(
                t.list([t.int(1), t.int(2)]),
                [iter(Joint::InTurn), t.stage(Joint::InParallel, "f", [], [])],
            )),
        ]),
        Case {
            fuel: 5,
            depth: 100,
            out: b"",
            end: Wanted::Done,
        },
    )?;
    // def f(x):
    //     return x
    // [1, 2] |> iter ||> f
    expect(
        &t,
        t.module([
            t.function("f", [t.param("x")], [Stmt::Return(NODE, Some(t.name("x")))]),
            Item::Stmt(t.pipeline(
                t.list([t.int(1), t.int(2)]),
                [iter(Joint::InTurn), t.stage(Joint::InParallel, "f", [], [])],
            )),
        ]),
        Case {
            fuel: 4,
            depth: 100,
            out: b"",
            end: Wanted::OutOfFuel,
        },
    )?;
    // @par
    // for i in range(10):
    //     if i == 3:
    //         raise RuntimeError('three')
    //     if i == 4:
    //         while True:
    //             pass
    expect(
        &t,
        t.module([Item::Stmt(t.par(
            t.one("i"),
            t.call("range", [t.int(10)]),
            [
                t.choose(
                    [t.when(
                        t.compare(t.name("i"), [than(Comparator::Equal, t.int(3))]),
                        [t.raise("RuntimeError", Some(t.text("three")))],
                    )],
                    [],
                ),
                t.choose(
                    [t.when(
                        t.compare(t.name("i"), [than(Comparator::Equal, t.int(4))]),
                        [t.repeat(t.truth(true), [Stmt::Pass(NODE)])],
                    )],
                    [],
                ),
            ],
        ))]),
        Case {
            fuel: 10000,
            depth: 100,
            out: b"",
            end: fault(FaultKind::Runtime, b"three"),
        },
    )?;
    Ok(())
}
