use super::build::*;
use super::{Case, Wanted, expect, fault};
use codon_base::FaultKind;
use source_trees::*;
use std::process::Abort;
use std::test::Fail;

#[test]
fn names_share_a_list(rt: HostRuntime) -> Result<(), Fail> {
    let t = Trees {
        rt: &rt,
        alloc: rt.alloc(),
    };
    // xs = [1]
    // ys = xs
    // ys += [2]
    // ys.append(3)
    // zs = ys + [4]
    // ys = ys.copy()
    // ys.clear()
    // print(xs, ys, zs, xs.pop(), xs)
    expect(
        &t,
        t.module([
            Item::Stmt(t.set(t.to_name("xs"), t.list([t.int(1)]))),
            Item::Stmt(t.set(t.to_name("ys"), t.name("xs"))),
            Item::Stmt(t.update(t.to_name("ys"), BinaryOp::Add, t.list([t.int(2)]))),
            Item::Stmt(Stmt::Evaluate(NODE, t.method(t.name("ys"), "append", [t.int(3)]))),
            Item::Stmt(t.set(
                t.to_name("zs"),
                t.binary(BinaryOp::Add, t.name("ys"), t.list([t.int(4)])),
            )),
            Item::Stmt(t.set(t.to_name("ys"), t.method(t.name("ys"), "copy", []))),
            Item::Stmt(Stmt::Evaluate(NODE, t.method(t.name("ys"), "clear", []))),
            Item::Stmt(t.print([
                t.name("xs"),
                t.name("ys"),
                t.name("zs"),
                t.method(t.name("xs"), "pop", []),
                t.name("xs"),
            ])),
        ]),
        Case {
            fuel: 1000000,
            depth: 100,
            out: b"[1, 2] [] [1, 2, 3, 4] 3 [1, 2]\n",
            end: Wanted::Done,
        },
    )?;
    // xs = [1]
    // ys = xs
    // ys *= 2
    // print(xs, ys)
    expect(
        &t,
        t.module([
            Item::Stmt(t.set(t.to_name("xs"), t.list([t.int(1)]))),
            Item::Stmt(t.set(t.to_name("ys"), t.name("xs"))),
            Item::Stmt(t.update(t.to_name("ys"), BinaryOp::Multiply, t.int(2))),
            Item::Stmt(t.print([t.name("xs"), t.name("ys")])),
        ]),
        Case {
            fuel: 1000000,
            depth: 100,
            out: b"[1] [1, 1]\n",
            end: Wanted::Done,
        },
    )?;
    // xs = [1]
    // xs.extend(xs)
    // print(xs)
    expect(
        &t,
        t.module([
            Item::Stmt(t.set(t.to_name("xs"), t.list([t.int(1)]))),
            Item::Stmt(Stmt::Evaluate(NODE, t.method(t.name("xs"), "extend", [t.name("xs")]))),
            Item::Stmt(t.print([t.name("xs")])),
        ]),
        Case {
            fuel: 1000000,
            depth: 100,
            out: b"[1, 1]\n",
            end: Wanted::Done,
        },
    )?;
    // xs = []
    // xs.pop()
    expect(
        &t,
        t.module([
            Item::Stmt(t.set(t.to_name("xs"), t.list([]))),
            Item::Stmt(Stmt::Evaluate(NODE, t.method(t.name("xs"), "pop", []))),
        ]),
        Case {
            fuel: 1000000,
            depth: 100,
            out: b"",
            end: fault(FaultKind::Index, b"index out of range"),
        },
    )?;
    Ok(())
}

#[test]
fn an_augmented_assignment_evaluates_its_target_once(rt: HostRuntime) -> Result<(), Fail> {
    let t = Trees {
        rt: &rt,
        alloc: rt.alloc(),
    };
    // def at():
    //     print('at')
    //     return 0
    // xs = [1]
    // xs[at()] += 5
    // print(xs)
    expect(
        &t,
        t.module([
            t.function(
                "at",
                [],
                [t.print([t.text("at")]), Stmt::Return(NODE, Some(t.int(0)))],
            ),
            Item::Stmt(t.set(t.to_name("xs"), t.list([t.int(1)]))),
            Item::Stmt(t.update(
                t.to_index(t.name("xs"), t.call("at", [])),
                BinaryOp::Add,
                t.int(5),
            )),
            Item::Stmt(t.print([t.name("xs")])),
        ]),
        Case {
            fuel: 1000000,
            depth: 100,
            out: b"at\n[6]\n",
            end: Wanted::Done,
        },
    )?;
    Ok(())
}

#[test]
fn the_right_side_comes_first_then_the_targets(rt: HostRuntime) -> Result<(), Fail> {
    let t = Trees {
        rt: &rt,
        alloc: rt.alloc(),
    };
    // def say(x):
    //     print(x)
    //     return x
    // xs = [0, 0]
    // xs[say(1)], xs[say(0)] = say(7), say(8)
    // print(xs)
    expect(
        &t,
        t.module([
            t.function(
                "say",
                [t.param("x")],
                [
                    t.print([t.name("x")]),
                    Stmt::Return(NODE, Some(t.name("x"))),
                ],
            ),
            Item::Stmt(t.set(t.to_name("xs"), t.list([t.int(0), t.int(0)]))),
            Item::Stmt(t.unpack(
                [
                    t.to_index(t.name("xs"), t.call("say", [t.int(1)])),
                    t.to_index(t.name("xs"), t.call("say", [t.int(0)])),
                ],
                t.tuple([t.call("say", [t.int(7)]), t.call("say", [t.int(8)])]),
            )),
            Item::Stmt(t.print([t.name("xs")])),
        ]),
        Case {
            fuel: 1000000,
            depth: 100,
            out: b"7\n8\n1\n0\n[8, 7]\n",
            end: Wanted::Done,
        },
    )?;
    // a, b = 1, 2
    // a, b = b, a
    // print(a, b)
    expect(
        &t,
        t.module([
            Item::Stmt(t.unpack(
                [t.to_name("a"), t.to_name("b")],
                t.tuple([t.int(1), t.int(2)]),
            )),
            Item::Stmt(t.unpack(
                [t.to_name("a"), t.to_name("b")],
                t.tuple([t.name("b"), t.name("a")]),
            )),
            Item::Stmt(t.print([t.name("a"), t.name("b")])),
        ]),
        Case {
            fuel: 1000000,
            depth: 100,
            out: b"2 1\n",
            end: Wanted::Done,
        },
    )?;
    Ok(())
}

#[test]
fn a_loop_reads_a_list_by_place(rt: HostRuntime) -> Result<(), Fail> {
    let t = Trees {
        rt: &rt,
        alloc: rt.alloc(),
    };
    // xs = [1]
    // for x in xs:
    //     if x < 3:
    //         xs.append(x + 1)
    // print(xs)
    expect(
        &t,
        t.module([
            Item::Stmt(t.set(t.to_name("xs"), t.list([t.int(1)]))),
            Item::Stmt(t.over(
                t.one("x"),
                t.name("xs"),
                [t.choose(
                    [t.when(
                        t.compare(t.name("x"), [than(Comparator::Less, t.int(3))]),
                        [Stmt::Evaluate(
                            NODE,
                            t.method(
                                t.name("xs"),
                                "append",
                                [t.binary(BinaryOp::Add, t.name("x"), t.int(1))],
                            ),
                        )],
                    )],
                    [],
                )],
            )),
            Item::Stmt(t.print([t.name("xs")])),
        ]),
        Case {
            fuel: 1000000,
            depth: 100,
            out: b"[1, 2, 3]\n",
            end: Wanted::Done,
        },
    )?;
    // for c in 'ab':
    //     print(c)
    expect(
        &t,
        t.module([Item::Stmt(t.over(t.one("c"), t.text("ab"), [t.print([t.name("c")])]))]),
        Case {
            fuel: 1000000,
            depth: 100,
            out: b"a\nb\n",
            end: Wanted::Done,
        },
    )?;
    Ok(())
}
