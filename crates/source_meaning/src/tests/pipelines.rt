use super::build::*;
use super::{Case, Wanted, expect, fault};
use codon_base::FaultKind;
use source_trees::*;
use std::process::Abort;
use std::test::Fail;

#[test]
fn the_piped_value_comes_first_or_at_the_dots(rt: HostRuntime) -> Result<(), Fail> {
    let t = Trees {
        rt: &rt,
        alloc: rt.alloc(),
    };
    // def calc(x, y):
    //     return x + y ** 2
    // 2 |> calc(3) |> print
    // 2 |> calc(..., 3) |> print
    // 2 |> calc(3, ...) |> print
    expect(
        &t,
        t.module([
            t.function(
                "calc",
                [t.param("x"), t.param("y")],
                [Stmt::Return(
                    NODE,
                    Some(t.binary(
                        BinaryOp::Add,
                        t.name("x"),
                        t.binary(BinaryOp::Power, t.name("y"), t.int(2)),
                    )),
                )],
            ),
            Item::Stmt(t.pipeline(
                t.int(2),
                [
                    t.stage(Joint::InTurn, "calc", [], [t.int(3)]),
                    print_stage(Joint::InTurn, t.printed([], PrintOptions::Neither)),
                ],
            )),
            Item::Stmt(t.pipeline(
                t.int(2),
                [
                    t.stage(Joint::InTurn, "calc", [], [t.int(3)]),
                    print_stage(Joint::InTurn, t.printed([], PrintOptions::Neither)),
                ],
            )),
            Item::Stmt(t.pipeline(
                t.int(2),
                [
                    t.stage(Joint::InTurn, "calc", [t.int(3)], []),
                    print_stage(Joint::InTurn, t.printed([], PrintOptions::Neither)),
                ],
            )),
        ]),
        Case {
            fuel: 1000000,
            depth: 100,
            out: b"11\n11\n7\n",
            end: Wanted::Done,
        },
    )?;
    Ok(())
}

#[test]
fn stages(rt: HostRuntime) -> Result<(), Fail> {
    let t = Trees {
        rt: &rt,
        alloc: rt.alloc(),
    };
    // def gen(n):
    //     for i in range(n):
    //         yield i
    // range(1, 4) |> iter |> gen |> print(end=' ')
    // 5 |> gen |> print
    expect(
        &t,
        t.module([
            t.function(
                "gen",
                [t.param("n")],
                [t.over(
                    t.one("i"),
                    t.call("range", [t.name("n")]),
                    [Stmt::Yield(NODE, t.name("i"))],
                )],
            ),
            Item::Stmt(t.pipeline(
                t.call("range", [t.int(1), t.int(4)]),
                [
                    iter(Joint::InTurn),
                    t.stage(Joint::InTurn, "gen", [], []),
                    print_stage(Joint::InTurn, t.printed([], PrintOptions::End(t.text(" ")))),
                ],
            )),
            Item::Stmt(t.pipeline(
                t.int(5),
                [
                    t.stage(Joint::InTurn, "gen", [], []),
                    print_stage(Joint::InTurn, t.printed([], PrintOptions::Neither)),
                ],
            )),
        ]),
        Case {
            fuel: 1000000,
            depth: 100,
            out: b"0 0 1 0 1 2 0\n1\n2\n3\n4\n",
            end: Wanted::Done,
        },
    )?;
    // [1, 2, 3] |> print
    // 'ab' |> iter |> print('x', sep='-') |> print
    expect(
        &t,
        t.module([
            Item::Stmt(t.pipeline(
                t.list([t.int(1), t.int(2), t.int(3)]),
                [print_stage(Joint::InTurn, t.printed([], PrintOptions::Neither))],
            )),
            Item::Stmt(t.pipeline(
                t.text("ab"),
                [
                    iter(Joint::InTurn),
                    print_stage(
                        Joint::InTurn,
                        t.printed([t.text("x")], PrintOptions::Sep(t.text("-"))),
                    ),
                    print_stage(Joint::InTurn, t.printed([], PrintOptions::Neither)),
                ],
            )),
        ]),
        Case {
            fuel: 1000000,
            depth: 100,
            out: b"[1, 2, 3]\na-x\nNone\nb-x\nNone\n",
            end: Wanted::Done,
        },
    )?;
    Ok(())
}
