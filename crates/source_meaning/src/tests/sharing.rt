use super::build::*;
use super::{Case, Wanted, expect, fault};
use codon_base::FaultKind;
use source_trees::*;
use std::process::Abort;
use std::test::Fail;

#[test]
fn a_lent_list_is_judged_by_its_place(rt: HostRuntime) -> Result<(), Fail> {
    let t = Trees {
        rt: &rt,
        alloc: rt.alloc(),
    };
    // xs = [1, 2, 3, 4]
    // ys = xs
    // @par
    // for i in range(4):
    //     xs[i] = ys[(i + 1) % 4]
    // print(xs)
    expect(
        &t,
        t.module([
            Item::Stmt(t.set(
                t.to_name("xs"),
                t.list([t.int(1), t.int(2), t.int(3), t.int(4)]),
            )),
            Item::Stmt(t.set(t.to_name("ys"), t.name("xs"))),
            Item::Stmt(t.par(
                t.one("i"),
                t.call("range", [t.int(4)]),
                [t.set(
                    t.to_index(t.name("xs"), t.name("i")),
                    t.index(
                        t.name("ys"),
                        t.binary(
                            BinaryOp::Modulo,
                            t.binary(BinaryOp::Add, t.name("i"), t.int(1)),
                            t.int(4),
                        ),
                    ),
                )],
            )),
            Item::Stmt(t.print([t.name("xs")])),
        ]),
        Case {
            fuel: 1000000,
            depth: 100,
            out: b"",
            end: fault(FaultKind::ParallelConflict, b"place of another iteration"),
        },
    )?;
    // xs = [1, 2, 3, 4]
    // ys = xs.copy()
    // @par
    // for i in range(4):
    //     xs[i] = ys[(i + 1) % 4]
    // print(xs)
    expect(
        &t,
        t.module([
            Item::Stmt(t.set(
                t.to_name("xs"),
                t.list([t.int(1), t.int(2), t.int(3), t.int(4)]),
            )),
            Item::Stmt(t.set(t.to_name("ys"), t.method(t.name("xs"), "copy", []))),
            Item::Stmt(t.par(
                t.one("i"),
                t.call("range", [t.int(4)]),
                [t.set(
                    t.to_index(t.name("xs"), t.name("i")),
                    t.index(
                        t.name("ys"),
                        t.binary(
                            BinaryOp::Modulo,
                            t.binary(BinaryOp::Add, t.name("i"), t.int(1)),
                            t.int(4),
                        ),
                    ),
                )],
            )),
            Item::Stmt(t.print([t.name("xs")])),
        ]),
        Case {
            fuel: 1000000,
            depth: 100,
            out: b"[2, 3, 4, 1]\n",
            end: Wanted::Done,
        },
    )?;
    // xs = [1, 2, 3]
    // @par
    // for i in range(3):
    //     xs[i] = len(xs) + i
    // print(xs)
    expect(
        &t,
        t.module([
            Item::Stmt(t.set(t.to_name("xs"), t.list([t.int(1), t.int(2), t.int(3)]))),
            Item::Stmt(t.par(
                t.one("i"),
                t.call("range", [t.int(3)]),
                [t.set(
                    t.to_index(t.name("xs"), t.name("i")),
                    t.binary(BinaryOp::Add, t.call("len", [t.name("xs")]), t.name("i")),
                )],
            )),
            Item::Stmt(t.print([t.name("xs")])),
        ]),
        Case {
            fuel: 1000000,
            depth: 100,
            out: b"[3, 4, 5]\n",
            end: Wanted::Done,
        },
    )?;
    // xs = [1, 2, 3]
    // @par
    // for i in range(3):
    //     xs[i] = xs[-1]
    expect(
        &t,
        t.module([
            Item::Stmt(t.set(t.to_name("xs"), t.list([t.int(1), t.int(2), t.int(3)]))),
            Item::Stmt(t.par(
                t.one("i"),
                t.call("range", [t.int(3)]),
                [t.set(
                    t.to_index(t.name("xs"), t.name("i")),
                    t.index(t.name("xs"), t.unary(UnaryOp::Minus, t.int(1))),
                )],
            )),
        ]),
        Case {
            fuel: 1000000,
            depth: 100,
            out: b"",
            end: fault(FaultKind::Index, b"index out of range"),
        },
    )?;
    // xs = [1, 2, 3]
    // @par
    // for i in range(4):
    //     xs[i] = i
    expect(
        &t,
        t.module([
            Item::Stmt(t.set(t.to_name("xs"), t.list([t.int(1), t.int(2), t.int(3)]))),
            Item::Stmt(t.par(
                t.one("i"),
                t.call("range", [t.int(4)]),
                [t.set(t.to_index(t.name("xs"), t.name("i")), t.name("i"))],
            )),
        ]),
        Case {
            fuel: 1000000,
            depth: 100,
            out: b"",
            end: fault(FaultKind::Index, b"index out of range"),
        },
    )?;
    // xs = [1, 2, 3]
    // @par
    // for i in range(3):
    //     xs[i] = len(xs[0:1])
    expect(
        &t,
        t.module([
            Item::Stmt(t.set(t.to_name("xs"), t.list([t.int(1), t.int(2), t.int(3)]))),
            Item::Stmt(t.par(
                t.one("i"),
                t.call("range", [t.int(3)]),
                [t.set(
                    t.to_index(t.name("xs"), t.name("i")),
                    t.call(
                        "len",
                        [t.slice(t.name("xs"), Some(t.int(0)), Some(t.int(1)))],
                    ),
                )],
            )),
        ]),
        Case {
            fuel: 1000000,
            depth: 100,
            out: b"",
            end: fault(FaultKind::ParallelConflict, b"place of another iteration"),
        },
    )?;
    Ok(())
}

#[test]
fn fields_are_reduced_in_captured_instances_alone(rt: HostRuntime) -> Result<(), Fail> {
    let t = Trees {
        rt: &rt,
        alloc: rt.alloc(),
    };
    // class Total:
    //     total: int
    // def dup(x):
    //     yield x
    //     yield x
    // def add(x, t):
    //     t.total += x
    // t = Total(0)
    // range(1000) |> iter ||> add(t)
    // print(t.total)
    // t = Total(0)
    // range(3) |> iter ||> dup ||> add(t)
    // print(t.total)
    expect(
        &t,
        t.module([
            t.class("Total", [t.int_field("total")]),
            t.function(
                "dup",
                [t.param("x")],
                [
                    Stmt::Yield(NODE, t.name("x")),
                    Stmt::Yield(NODE, t.name("x")),
                ],
            ),
            t.function(
                "add",
                [t.param("x"), t.param("t")],
                [t.update(t.to_field(t.name("t"), "total"), BinaryOp::Add, t.name("x"))],
            ),
            Item::Stmt(t.set(t.to_name("t"), t.call("Total", [t.int(0)]))),
            Item::Stmt(t.pipeline(
                t.call("range", [t.int(1000)]),
                [
                    iter(Joint::InTurn),
                    t.stage(Joint::InParallel, "add", [], [t.name("t")]),
                ],
            )),
            Item::Stmt(t.print([t.field(t.name("t"), "total")])),
            Item::Stmt(t.set(t.to_name("t"), t.call("Total", [t.int(0)]))),
            Item::Stmt(t.pipeline(
                t.call("range", [t.int(3)]),
                [
                    iter(Joint::InTurn),
                    t.stage(Joint::InParallel, "dup", [], []),
                    t.stage(Joint::InParallel, "add", [], [t.name("t")]),
                ],
            )),
            Item::Stmt(t.print([t.field(t.name("t"), "total")])),
        ]),
        Case {
            fuel: 1000000,
            depth: 100,
            out: b"499500\n6\n",
            end: Wanted::Done,
        },
    )?;
    // class T:
    //     n: int
    // def put(i, ts):
    //     ts[0].n += i
    // ts = [T(0)]
    // @par
    // for i in range(2):
    //     put(i, ts)
    expect(
        &t,
        t.module([
            t.class("T", [t.int_field("n")]),
            t.function(
                "put",
                [t.param("i"), t.param("ts")],
                [t.update(
                    t.to_field(t.index(t.name("ts"), t.int(0)), "n"),
                    BinaryOp::Add,
                    t.name("i"),
                )],
            ),
            Item::Stmt(t.set(t.to_name("ts"), t.list([t.call("T", [t.int(0)])]))),
            Item::Stmt(t.par(
                t.one("i"),
                t.call("range", [t.int(2)]),
                [Stmt::Evaluate(NODE, t.call("put", [t.name("i"), t.name("ts")]))],
            )),
        ]),
        Case {
            fuel: 1000000,
            depth: 100,
            out: b"",
            end: fault(FaultKind::ParallelConflict, b"object is not captured"),
        },
    )?;
    Ok(())
}
