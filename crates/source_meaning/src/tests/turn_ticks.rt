use super::build::*;
use super::{Case, Wanted, expect};
use source_trees::*;
use std::process::Abort;
use std::test::Fail;

#[test]
fn a_turn_takes_one_after_its_condition(rt: HostRuntime) -> Result<(), Fail> {
    let t = Trees {
        rt: &rt,
        alloc: rt.alloc(),
    };
    // i = 0
    // while i < 3:
    //     print(i)
    //     i += 1
    expect(
        &t,
        t.module([
            Item::Stmt(t.set(t.to_name("i"), t.int(0))),
            Item::Stmt(t.repeat(
                t.compare(t.name("i"), [than(Comparator::Less, t.int(3))]),
                [
                    t.print([t.name("i")]),
                    t.update(t.to_name("i"), BinaryOp::Add, t.int(1)),
                ],
            )),
        ]),
        Case {
            fuel: 3,
            depth: 100,
            out: b"0\n1\n2\n",
            end: Wanted::Done,
        },
    )?;
    // i = 0
    // while i < 3:
    //     print(i)
    //     i += 1
    expect(
        &t,
        t.module([
            Item::Stmt(t.set(t.to_name("i"), t.int(0))),
            Item::Stmt(t.repeat(
                t.compare(t.name("i"), [than(Comparator::Less, t.int(3))]),
                [
                    t.print([t.name("i")]),
                    t.update(t.to_name("i"), BinaryOp::Add, t.int(1)),
                ],
            )),
        ]),
        Case {
            fuel: 2,
            depth: 100,
            out: b"0\n1\n",
            end: Wanted::OutOfFuel,
        },
    )?;
    // for i in range(2):
    //     pass
    expect(
        &t,
        t.module([Item::Stmt(t.over(t.one("i"), t.call("range", [t.int(2)]), [Stmt::Pass(NODE)]))]),
        Case {
            fuel: 2,
            depth: 100,
            out: b"",
            end: Wanted::Done,
        },
    )?;
    // for i in range(2):
    //     pass
    expect(
        &t,
        t.module([Item::Stmt(t.over(t.one("i"), t.call("range", [t.int(2)]), [Stmt::Pass(NODE)]))]),
        Case {
            fuel: 1,
            depth: 100,
            out: b"",
            end: Wanted::OutOfFuel,
        },
    )?;
    // for i in range(0):
    //     pass
    // while False:
    //     pass
    expect(
        &t,
        t.module([
            Item::Stmt(t.over(t.one("i"), t.call("range", [t.int(0)]), [Stmt::Pass(NODE)])),
            Item::Stmt(t.repeat(t.truth(false), [Stmt::Pass(NODE)])),
        ]),
        Case {
            fuel: 0,
            depth: 100,
            out: b"",
            end: Wanted::Done,
        },
    )?;
    Ok(())
}

#[test]
fn comprehensions_and_lists_take_one_a_turn(rt: HostRuntime) -> Result<(), Fail> {
    let t = Trees {
        rt: &rt,
        alloc: rt.alloc(),
    };
    // print([x for x in range(3) if x == 1])
    expect(
        &t,
        t.module([Item::Stmt(t.print([t.each_if(
            t.name("x"),
            t.one("x"),
            t.call("range", [t.int(3)]),
            t.compare(t.name("x"), [than(Comparator::Equal, t.int(1))]),
        )]))]),
        Case {
            fuel: 3,
            depth: 100,
            out: b"[1]\n",
            end: Wanted::Done,
        },
    )?;
    // print([x for x in range(3) if x == 1])
    expect(
        &t,
        t.module([Item::Stmt(t.print([t.each_if(
            t.name("x"),
            t.one("x"),
            t.call("range", [t.int(3)]),
            t.compare(t.name("x"), [than(Comparator::Equal, t.int(1))]),
        )]))]),
        Case {
            fuel: 2,
            depth: 100,
            out: b"",
            end: Wanted::OutOfFuel,
        },
    )?;
    // print(list('abc'))
    expect(
        &t,
        t.module([Item::Stmt(t.print([t.call("list", [t.text("abc")])]))]),
        Case {
            fuel: 3,
            depth: 100,
            out: b"['a', 'b', 'c']\n",
            end: Wanted::Done,
        },
    )?;
    // print(list('abc'))
    expect(
        &t,
        t.module([Item::Stmt(t.print([t.call("list", [t.text("abc")])]))]),
        Case {
            fuel: 2,
            depth: 100,
            out: b"",
            end: Wanted::OutOfFuel,
        },
    )?;
    Ok(())
}

#[test]
fn a_generator_takes_its_entry_and_the_turns_of_its_loop(rt: HostRuntime) -> Result<(), Fail> {
    let t = Trees {
        rt: &rt,
        alloc: rt.alloc(),
    };
    // def g():
    //     yield 1
    //     yield 2
    // for x in g():
    //     print(x)
    expect(
        &t,
        t.module([
            t.function(
                "g",
                [],
                [Stmt::Yield(NODE, t.int(1)), Stmt::Yield(NODE, t.int(2))],
            ),
            Item::Stmt(t.over(t.one("x"), t.call("g", []), [t.print([t.name("x")])])),
        ]),
        Case {
            fuel: 3,
            depth: 100,
            out: b"1\n2\n",
            end: Wanted::Done,
        },
    )?;
    // def g():
    //     yield 1
    //     yield 2
    // for x in g():
    //     print(x)
    expect(
        &t,
        t.module([
            t.function(
                "g",
                [],
                [Stmt::Yield(NODE, t.int(1)), Stmt::Yield(NODE, t.int(2))],
            ),
            Item::Stmt(t.over(t.one("x"), t.call("g", []), [t.print([t.name("x")])])),
        ]),
        Case {
            fuel: 2,
            depth: 100,
            out: b"1\n",
            end: Wanted::OutOfFuel,
        },
    )?;
    // def g(x):
    //     yield x
    // 1 |> g |> print
    expect(
        &t,
        t.module([
            t.function("g", [t.param("x")], [Stmt::Yield(NODE, t.name("x"))]),
            Item::Stmt(t.pipeline(
                t.int(1),
                [
                    t.stage(Joint::InTurn, "g", [], []),
                    print_stage(Joint::InTurn, t.printed([], PrintOptions::Neither)),
                ],
            )),
        ]),
        Case {
            fuel: 2,
            depth: 100,
            out: b"1\n",
            end: Wanted::Done,
        },
    )?;
    // [1, 2] |> iter |> print
    expect(
        &t,
        t.module([Item::Stmt(t.pipeline(
            t.list([t.int(1), t.int(2)]),
            [
                iter(Joint::InTurn),
                print_stage(Joint::InTurn, t.printed([], PrintOptions::Neither)),
            ],
        ))]),
        Case {
            fuel: 2,
            depth: 100,
            out: b"1\n2\n",
            end: Wanted::Done,
        },
    )?;
    // [1, 2] |> iter |> print
    expect(
        &t,
        t.module([Item::Stmt(t.pipeline(
            t.list([t.int(1), t.int(2)]),
            [
                iter(Joint::InTurn),
                print_stage(Joint::InTurn, t.printed([], PrintOptions::Neither)),
            ],
        ))]),
        Case {
            fuel: 1,
            depth: 100,
            out: b"1\n",
            end: Wanted::OutOfFuel,
        },
    )?;
    Ok(())
}
