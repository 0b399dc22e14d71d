use super::build::*;
use super::{Case, Wanted, expect, fault};
use codon_base::FaultKind;
use source_trees::*;
use std::process::Abort;
use std::test::Fail;

#[test]
fn private_names_are_fresh_in_each_iteration(rt: HostRuntime) -> Result<(), Fail> {
    let t = Trees {
        rt: &rt,
        alloc: rt.alloc(),
    };
    // @par
    // for i in range(3):
    //     if i == 0:
    //         x = 5
    //     print(x)
    expect(
        &t,
        t.module([Item::Stmt(t.par(
            t.one("i"),
            t.call("range", [t.int(3)]),
            [
                t.choose(
                    [t.when(
                        t.compare(t.name("i"), [than(Comparator::Equal, t.int(0))]),
                        [t.set(t.to_name("x"), t.int(5))],
                    )],
                    [],
                ),
                t.print([t.name("x")]),
            ],
        ))]),
        Case {
            fuel: 1000000,
            depth: 100,
            out: b"5\n",
            end: fault(FaultKind::Runtime, b"name is not set"),
        },
    )?;
    Ok(())
}

#[test]
fn a_region_means_its_loop_in_order(rt: HostRuntime) -> Result<(), Fail> {
    let t = Trees {
        rt: &rt,
        alloc: rt.alloc(),
    };
    // total = 0
    // @par
    // for i in range(100):
    //     total += i * i
    // print(total)
    expect(
        &t,
        t.module([
            Item::Stmt(t.set(t.to_name("total"), t.int(0))),
            Item::Stmt(t.par(
                t.one("i"),
                t.call("range", [t.int(100)]),
                [t.update(
                    t.to_name("total"),
                    BinaryOp::Add,
                    t.binary(BinaryOp::Multiply, t.name("i"), t.name("i")),
                )],
            )),
            Item::Stmt(t.print([t.name("total")])),
        ]),
        Case {
            fuel: 1000000,
            depth: 100,
            out: b"328350\n",
            end: Wanted::Done,
        },
    )?;
    // p = 1
    // @par
    // for i in range(40):
    //     p *= 3
    // print(p)
    expect(
        &t,
        t.module([
            Item::Stmt(t.set(t.to_name("p"), t.int(1))),
            Item::Stmt(t.par(
                t.one("i"),
                t.call("range", [t.int(40)]),
                [t.update(t.to_name("p"), BinaryOp::Multiply, t.int(3))],
            )),
            Item::Stmt(t.print([t.name("p")])),
        ]),
        Case {
            fuel: 1000000,
            depth: 100,
            out: b"-6289078614652622815\n",
            end: Wanted::Done,
        },
    )?;
    // m = 5
    // @par
    // for i in range(0):
    //     m = min(m, i)
    // print(m)
    // @par
    // for i in [3, 1, 2]:
    //     m = min(m, i)
    // print(m)
    expect(
        &t,
        t.module([
            Item::Stmt(t.set(t.to_name("m"), t.int(5))),
            Item::Stmt(t.par(
                t.one("i"),
                t.call("range", [t.int(0)]),
                [t.set(t.to_name("m"), t.call("min", [t.name("m"), t.name("i")]))],
            )),
            Item::Stmt(t.print([t.name("m")])),
            Item::Stmt(t.par(
                t.one("i"),
                t.list([t.int(3), t.int(1), t.int(2)]),
                [t.set(t.to_name("m"), t.call("min", [t.name("m"), t.name("i")]))],
            )),
            Item::Stmt(t.print([t.name("m")])),
        ]),
        Case {
            fuel: 1000000,
            depth: 100,
            out: b"5\n1\n",
            end: Wanted::Done,
        },
    )?;
    // t = 0
    // @par
    // for i in range(3):
    //     @par
    //     for j in range(2):
    //         t += 1
    // print(t)
    expect(
        &t,
        t.module([
            Item::Stmt(t.set(t.to_name("t"), t.int(0))),
            Item::Stmt(t.par(
                t.one("i"),
                t.call("range", [t.int(3)]),
                [t.par(
                    t.one("j"),
                    t.call("range", [t.int(2)]),
                    [t.update(t.to_name("t"), BinaryOp::Add, t.int(1))],
                )],
            )),
            Item::Stmt(t.print([t.name("t")])),
        ]),
        Case {
            fuel: 1000000,
            depth: 100,
            out: b"6\n",
            end: Wanted::Done,
        },
    )?;
    Ok(())
}

#[test]
fn the_first_iteration_that_faults_ends_the_loop(rt: HostRuntime) -> Result<(), Fail> {
    let t = Trees {
        rt: &rt,
        alloc: rt.alloc(),
    };
    // print('start')
    // @par
    // for i in range(100):
    //     if i == 30:
    //         x = 1 // 0
    //     if i == 70:
    //         raise ValueError('late')
    expect(
        &t,
        t.module([
            Item::Stmt(t.print([t.text("start")])),
            Item::Stmt(t.par(
                t.one("i"),
                t.call("range", [t.int(100)]),
                [
                    t.choose(
                        [t.when(
                            t.compare(t.name("i"), [than(Comparator::Equal, t.int(30))]),
                            [t.set(
                                t.to_name("x"),
                                t.binary(BinaryOp::FloorDivide, t.int(1), t.int(0)),
                            )],
                        )],
                        [],
                    ),
                    t.choose(
                        [t.when(
                            t.compare(t.name("i"), [than(Comparator::Equal, t.int(70))]),
                            [t.raise("ValueError", Some(t.text("late")))],
                        )],
                        [],
                    ),
                ],
            )),
        ]),
        Case {
            fuel: 1000000,
            depth: 100,
            out: b"start\n",
            end: fault(FaultKind::ZeroDivision, b"division by zero"),
        },
    )?;
    Ok(())
}

#[test]
fn captured_names_are_read_first(rt: HostRuntime) -> Result<(), Fail> {
    let t = Trees {
        rt: &rt,
        alloc: rt.alloc(),
    };
    // @par
    // for i in range(0):
    //     t += i
    // t = 0
    expect(
        &t,
        t.module([
            Item::Stmt(t.par(
                t.one("i"),
                t.call("range", [t.int(0)]),
                [t.update(t.to_name("t"), BinaryOp::Add, t.name("i"))],
            )),
            Item::Stmt(t.set(t.to_name("t"), t.int(0))),
        ]),
        Case {
            fuel: 1000000,
            depth: 100,
            out: b"",
            end: fault(FaultKind::Runtime, b"name is not set"),
        },
    )?;
    Ok(())
}

#[test]
fn what_an_iteration_makes_is_its_own(rt: HostRuntime) -> Result<(), Fail> {
    let t = Trees {
        rt: &rt,
        alloc: rt.alloc(),
    };
    // @par
    // for i in range(3):
    //     own = [i]
    //     own.append(i)
    // print(1)
    expect(
        &t,
        t.module([
            Item::Stmt(t.par(
                t.one("i"),
                t.call("range", [t.int(3)]),
                [
                    t.set(t.to_name("own"), t.list([t.name("i")])),
                    Stmt::Evaluate(NODE, t.method(t.name("own"), "append", [t.name("i")])),
                ],
            )),
            Item::Stmt(t.print([t.int(1)])),
        ]),
        Case {
            fuel: 1000000,
            depth: 100,
            out: b"1\n",
            end: Wanted::Done,
        },
    )?;
    // def steps(n):
    //     c = 0
    //     while n != 1:
    //         n = n // 2 if n % 2 == 0 else 3 * n + 1
    //         c += 1
    //     return c
    // best = 0
    // @par
    // for i in range(1, 30):
    //     best = max(best, steps(i))
    // print(best)
    expect(
        &t,
        t.module([
            t.function(
                "steps",
                [t.param("n")],
                [
                    t.set(t.to_name("c"), t.int(0)),
                    t.repeat(
                        t.compare(t.name("n"), [than(Comparator::NotEqual, t.int(1))]),
                        [
                            t.set(
                                t.to_name("n"),
                                t.conditional(
                                    t.binary(BinaryOp::FloorDivide, t.name("n"), t.int(2)),
                                    t.compare(
                                        t.binary(BinaryOp::Modulo, t.name("n"), t.int(2)),
                                        [than(Comparator::Equal, t.int(0))],
                                    ),
                                    t.binary(
                                        BinaryOp::Add,
                                        t.binary(BinaryOp::Multiply, t.int(3), t.name("n")),
                                        t.int(1),
                                    ),
                                ),
                            ),
                            t.update(t.to_name("c"), BinaryOp::Add, t.int(1)),
                        ],
                    ),
                    Stmt::Return(NODE, Some(t.name("c"))),
                ],
            ),
            Item::Stmt(t.set(t.to_name("best"), t.int(0))),
            Item::Stmt(t.par(
                t.one("i"),
                t.call("range", [t.int(1), t.int(30)]),
                [t.set(
                    t.to_name("best"),
                    t.call("max", [t.name("best"), t.call("steps", [t.name("i")])]),
                )],
            )),
            Item::Stmt(t.print([t.name("best")])),
        ]),
        Case {
            fuel: 1000000,
            depth: 100,
            out: b"111\n",
            end: Wanted::Done,
        },
    )?;
    Ok(())
}
