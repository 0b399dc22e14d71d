use super::build::*;
use super::{Case, Wanted, expect, fault};
use codon_base::FaultKind;
use source_trees::*;
use std::process::Abort;
use std::test::Fail;

#[test]
fn loops_break_and_continue(rt: HostRuntime) -> Result<(), Fail> {
    let t = Trees {
        rt: &rt,
        alloc: rt.alloc(),
    };
    // for i in range(5):
    //     if i == 1:
    //         continue
    //     elif i == 3:
    //         break
    //     else:
    //         print(i)
    expect(
        &t,
        t.module([Item::Stmt(t.over(
            t.one("i"),
            t.call("range", [t.int(5)]),
            [t.choose(
                [
                    t.when(
                        t.compare(t.name("i"), [than(Comparator::Equal, t.int(1))]),
                        [Stmt::Continue(NODE)],
                    ),
                    t.when(
                        t.compare(t.name("i"), [than(Comparator::Equal, t.int(3))]),
                        [Stmt::Break(NODE)],
                    ),
                ],
                [t.print([t.name("i")])],
            )],
        ))]),
        Case {
            fuel: 1000000,
            depth: 100,
            out: b"0\n2\n",
            end: Wanted::Done,
        },
    )?;
    // i = 0
    // while True:
    //     i += 1
    //     if i > 3:
    //         break
    // print(i)
    expect(
        &t,
        t.module([
            Item::Stmt(t.set(t.to_name("i"), t.int(0))),
            Item::Stmt(t.repeat(
                t.truth(true),
                [
                    t.update(t.to_name("i"), BinaryOp::Add, t.int(1)),
                    t.choose(
                        [t.when(
                            t.compare(t.name("i"), [than(Comparator::Greater, t.int(3))]),
                            [Stmt::Break(NODE)],
                        )],
                        [],
                    ),
                ],
            )),
            Item::Stmt(t.print([t.name("i")])),
        ]),
        Case {
            fuel: 1000000,
            depth: 100,
            out: b"4\n",
            end: Wanted::Done,
        },
    )?;
    Ok(())
}

#[test]
fn a_range_does_not_wrap(rt: HostRuntime) -> Result<(), Fail> {
    let t = Trees {
        rt: &rt,
        alloc: rt.alloc(),
    };
    // for i in range(9223372036854775806, 9223372036854775807, 5):
    //     print(i)
    // for i in range(2, -1, -2):
    //     print(i)
    expect(
        &t,
        t.module([
            Item::Stmt(t.over(
                t.one("i"),
                t.call(
                    "range",
                    [
                        t.int(9223372036854775806),
                        t.int(9223372036854775807),
                        t.int(5),
                    ],
                ),
                [t.print([t.name("i")])],
            )),
            Item::Stmt(t.over(
                t.one("i"),
                t.call(
                    "range",
                    [
                        t.int(2),
                        t.unary(UnaryOp::Minus, t.int(1)),
                        t.unary(UnaryOp::Minus, t.int(2)),
                    ],
                ),
                [t.print([t.name("i")])],
            )),
        ]),
        Case {
            fuel: 1000000,
            depth: 100,
            out: b"9223372036854775806\n2\n0\n",
            end: Wanted::Done,
        },
    )?;
    // for i in range(0, 3, 0):
    //     print(i)
    expect(
        &t,
        t.module([Item::Stmt(t.over(
            t.one("i"),
            t.call("range", [t.int(0), t.int(3), t.int(0)]),
            [t.print([t.name("i")])],
        ))]),
        Case {
            fuel: 1000000,
            depth: 100,
            out: b"",
            end: fault(FaultKind::Value, b"range step is zero"),
        },
    )?;
    Ok(())
}

#[test]
fn faults_that_a_source_raises(rt: HostRuntime) -> Result<(), Fail> {
    let t = Trees {
        rt: &rt,
        alloc: rt.alloc(),
    };
    // raise ValueError('a')
    expect(
        &t,
        t.module([Item::Stmt(t.raise("ValueError", Some(t.text("a"))))]),
        Case {
            fuel: 1000000,
            depth: 100,
            out: b"",
            end: fault(FaultKind::Value, b"a"),
        },
    )?;
    // raise IndexError()
    expect(
        &t,
        t.module([Item::Stmt(t.raise("IndexError", None))]),
        Case {
            fuel: 1000000,
            depth: 100,
            out: b"",
            end: fault(FaultKind::Index, b""),
        },
    )?;
    // raise RuntimeError
    expect(
        &t,
        t.module([Item::Stmt(t.raise("RuntimeError", None))]),
        Case {
            fuel: 1000000,
            depth: 100,
            out: b"",
            end: fault(FaultKind::Runtime, b""),
        },
    )?;
    // assert 1 == 1
    // assert [], 'empty'
    expect(
        &t,
        t.module([
            Item::Stmt(Stmt::Assert(
                NODE,
                t.compare(t.int(1), [than(Comparator::Equal, t.int(1))]),
                None,
            )),
            Item::Stmt(Stmt::Assert(NODE, t.list([]), Some(t.text("empty")))),
        ]),
        Case {
            fuel: 1000000,
            depth: 100,
            out: b"",
            end: fault(FaultKind::Assertion, b"empty"),
        },
    )?;
    // assert 0
    expect(
        &t,
        t.module([Item::Stmt(Stmt::Assert(NODE, t.int(0), None))]),
        Case {
            fuel: 1000000,
            depth: 100,
            out: b"",
            end: fault(FaultKind::Assertion, b""),
        },
    )?;
    Ok(())
}

#[test]
fn a_jump_without_its_loop_ends_the_body(rt: HostRuntime) -> Result<(), Fail> {
    let t = Trees {
        rt: &rt,
        alloc: rt.alloc(),
    };
    // def f():
    //     print(1)
    //     break
    //     print(2)
    // f()
    // print(3)
    expect(
        &t,
        t.module([
            t.function(
                "f",
                [],
                [t.print([t.int(1)]), Stmt::Break(NODE), t.print([t.int(2)])],
            ),
            Item::Stmt(Stmt::Evaluate(NODE, t.call("f", []))),
            Item::Stmt(t.print([t.int(3)])),
        ]),
        Case {
            fuel: 1000000,
            depth: 100,
            out: b"1\n3\n",
            end: Wanted::Done,
        },
    )?;
    // print(1)
    // return
    // print(2)
    expect(
        &t,
        t.module([
            Item::Stmt(t.print([t.int(1)])),
            Item::Stmt(Stmt::Return(NODE, None)),
            Item::Stmt(t.print([t.int(2)])),
        ]),
        Case {
            fuel: 1000000,
            depth: 100,
            out: b"1\n",
            end: Wanted::Done,
        },
    )?;
    // print(1)
    // continue
    // print(2)
    expect(
        &t,
        t.module([
            Item::Stmt(t.print([t.int(1)])),
            Item::Stmt(Stmt::Continue(NODE)),
            Item::Stmt(t.print([t.int(2)])),
        ]),
        Case {
            fuel: 1000000,
            depth: 100,
            out: b"1\n",
            end: Wanted::Done,
        },
    )?;
    Ok(())
}
