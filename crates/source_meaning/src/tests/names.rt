use super::build::*;
use super::{Case, Wanted, expect, fault};
use codon_base::FaultKind;
use source_trees::*;
use std::process::Abort;
use std::test::Fail;

#[test]
fn an_assigned_name_is_local_from_the_start(rt: HostRuntime) -> Result<(), Fail> {
    let t = Trees {
        rt: &rt,
        alloc: rt.alloc(),
    };
    // x = 1
    // def f():
    //     print(x)
    //     x = 2
    // f()
    expect(
        &t,
        t.module([
            Item::Stmt(t.set(t.to_name("x"), t.int(1))),
            t.function(
                "f",
                [],
                [t.print([t.name("x")]), t.set(t.to_name("x"), t.int(2))],
            ),
            Item::Stmt(Stmt::Evaluate(NODE, t.call("f", []))),
        ]),
        Case {
            fuel: 1000000,
            depth: 100,
            out: b"",
            end: fault(FaultKind::Runtime, b"name is not set"),
        },
    )?;
    // x = 1
    // def f():
    //     print(x)
    // f()
    expect(
        &t,
        t.module([
            Item::Stmt(t.set(t.to_name("x"), t.int(1))),
            t.function("f", [], [t.print([t.name("x")])]),
            Item::Stmt(Stmt::Evaluate(NODE, t.call("f", []))),
        ]),
        Case {
            fuel: 1000000,
            depth: 100,
            out: b"1\n",
            end: Wanted::Done,
        },
    )?;
    Ok(())
}

#[test]
fn an_annotation_without_a_value_makes_no_name_local(rt: HostRuntime) -> Result<(), Fail> {
    let t = Trees {
        rt: &rt,
        alloc: rt.alloc(),
    };
    // x = 1
    // def f():
    //     x: int
    //     print(x)
    // f()
    expect(
        &t,
        t.module([
            Item::Stmt(t.set(t.to_name("x"), t.int(1))),
            t.function(
                "f",
                [],
                [
                    Stmt::Annotated(NODE, t.named("x"), Annotation::Int(NODE), None),
                    t.print([t.name("x")]),
                ],
            ),
            Item::Stmt(Stmt::Evaluate(NODE, t.call("f", []))),
        ]),
        Case {
            fuel: 1000000,
            depth: 100,
            out: b"1\n",
            end: Wanted::Done,
        },
    )?;
    Ok(())
}

#[test]
fn functions_are_known_throughout_the_module(rt: HostRuntime) -> Result<(), Fail> {
    let t = Trees {
        rt: &rt,
        alloc: rt.alloc(),
    };
    // print(f())
    // def f():
    //     return 4
    expect(
        &t,
        t.module([
            Item::Stmt(t.print([t.call("f", [])])),
            t.function("f", [], [Stmt::Return(NODE, Some(t.int(4)))]),
        ]),
        Case {
            fuel: 1000000,
            depth: 100,
            out: b"4\n",
            end: Wanted::Done,
        },
    )?;
    Ok(())
}

#[test]
fn a_comprehension_has_names_of_its_own(rt: HostRuntime) -> Result<(), Fail> {
    let t = Trees {
        rt: &rt,
        alloc: rt.alloc(),
    };
    // x = 5
    // ys = [x * 2 for x in range(3) if x != 1]
    // print(x, ys)
    expect(
        &t,
        t.module([
            Item::Stmt(t.set(t.to_name("x"), t.int(5))),
            Item::Stmt(t.set(
                t.to_name("ys"),
                t.each_if(
                    t.binary(BinaryOp::Multiply, t.name("x"), t.int(2)),
                    t.one("x"),
                    t.call("range", [t.int(3)]),
                    t.compare(t.name("x"), [than(Comparator::NotEqual, t.int(1))]),
                ),
            )),
            Item::Stmt(t.print([t.name("x"), t.name("ys")])),
        ]),
        Case {
            fuel: 1000000,
            depth: 100,
            out: b"5 [0, 4]\n",
            end: Wanted::Done,
        },
    )?;
    // x = [1, 2]
    // print([x for x in x])
    expect(
        &t,
        t.module([
            Item::Stmt(t.set(t.to_name("x"), t.list([t.int(1), t.int(2)]))),
            Item::Stmt(t.print([t.each(t.name("x"), t.one("x"), t.name("x"))])),
        ]),
        Case {
            fuel: 1000000,
            depth: 100,
            out: b"[1, 2]\n",
            end: Wanted::Done,
        },
    )?;
    Ok(())
}

#[test]
fn names_are_after_a_comprehension_what_they_were_before(rt: HostRuntime) -> Result<(), Fail> {
    let t = Trees {
        rt: &rt,
        alloc: rt.alloc(),
    };
    // def f(a, b, c):
    //     ys = [a + b + c for a, b in [(1, 2), (3, 4)]]
    //     zs = [([a for a in range(a)], a) for a in range(3)]
    //     print(a, b, ys, zs)
    // f(7, 8, 9)
    let pairs = t.list([t.tuple([t.int(1), t.int(2)]), t.tuple([t.int(3), t.int(4)])]);
    let sum = t.binary(
        BinaryOp::Add,
        t.binary(BinaryOp::Add, t.name("a"), t.name("b")),
        t.name("c"),
    );
    let inner = t.each(t.name("a"), t.one("a"), t.call("range", [t.name("a")]));
    expect(
        &t,
        t.module([
            t.function(
                "f",
                [t.param("a"), t.param("b"), t.param("c")],
                [
                    t.set(
                        t.to_name("ys"),
                        t.each(sum, t.several([t.named("a"), t.named("b")]), pairs),
                    ),
                    t.set(
                        t.to_name("zs"),
                        t.each(
                            t.tuple([inner, t.name("a")]),
                            t.one("a"),
                            t.call("range", [t.int(3)]),
                        ),
                    ),
                    t.print([t.name("a"), t.name("b"), t.name("ys"), t.name("zs")]),
                ],
            ),
            Item::Stmt(Stmt::Evaluate(NODE, t.call("f", [t.int(7), t.int(8), t.int(9)]))),
        ]),
        Case {
            fuel: 1000000,
            depth: 100,
            out: b"7 8 [12, 16] [([], 0), ([0], 1), ([0, 1], 2)]\n",
            end: Wanted::Done,
        },
    )?;
    Ok(())
}

#[test]
fn the_prelude_is_resolved_by_itself(rt: HostRuntime) -> Result<(), Fail> {
    let t = Trees {
        rt: &rt,
        alloc: rt.alloc(),
    };
    // def len(x):
    //     return 0
    // for a, b in zip([1], [2]):
    //     print(a, b)
    expect(
        &t,
        t.module([
            t.function("len", [t.param("x")], [Stmt::Return(NODE, Some(t.int(0)))]),
            Item::Stmt(t.over(
                t.several([t.named("a"), t.named("b")]),
                t.call("zip", [t.list([t.int(1)]), t.list([t.int(2)])]),
                [t.print([t.name("a"), t.name("b")])],
            )),
        ]),
        Case {
            fuel: 1000000,
            depth: 100,
            out: b"1 2\n",
            end: Wanted::Done,
        },
    )?;
    // def sum(xs):
    //     return 9
    // print(sum([1]))
    expect(
        &t,
        t.module([
            t.function("sum", [t.param("xs")], [Stmt::Return(NODE, Some(t.int(9)))]),
            Item::Stmt(t.print([t.call("sum", [t.list([t.int(1)])])])),
        ]),
        Case {
            fuel: 1000000,
            depth: 100,
            out: b"9\n",
            end: Wanted::Done,
        },
    )?;
    Ok(())
}

#[test]
fn a_name_without_a_value_is_a_fault(rt: HostRuntime) -> Result<(), Fail> {
    let t = Trees {
        rt: &rt,
        alloc: rt.alloc(),
    };
    // print(1)
    // print(y)
    // y = 1
    expect(
        &t,
        t.module([
            Item::Stmt(t.print([t.int(1)])),
            Item::Stmt(t.print([t.name("y")])),
            Item::Stmt(t.set(t.to_name("y"), t.int(1))),
        ]),
        Case {
            fuel: 1000000,
            depth: 100,
            out: b"1\n",
            end: fault(FaultKind::Runtime, b"name is not set"),
        },
    )?;
    // for i in range(3):
    //     pass
    // print(i)
    expect(
        &t,
        t.module([
            Item::Stmt(t.over(t.one("i"), t.call("range", [t.int(3)]), [Stmt::Pass(NODE)])),
            Item::Stmt(t.print([t.name("i")])),
        ]),
        Case {
            fuel: 1000000,
            depth: 100,
            out: b"2\n",
            end: Wanted::Done,
        },
    )?;
    Ok(())
}
