use super::build::*;
use source_trees::*;
use std::process::Abort;
use std::test::Fail;

/// Compares the height of a statement, and that of its copy.
fn expect_stmt<R: Abort>(t: &Trees<'_, R>, stmt: Stmt, height: u32) -> Result<(), Fail> {
    let rt = t.rt;
    assert_eq!(rt; stmt.height(), height);
    let copy = stmt.try_clone(t.alloc)?;
    assert_eq!(rt; copy.height(), height);
    Ok(())
}

#[test]
fn simple_statements(rt: HostRuntime) -> Result<(), Fail> {
    let t = Trees {
        rt: &rt,
        alloc: rt.alloc(),
    };
    // pass
    expect_stmt(&t, Stmt::Pass(NODE), 1)?;
    // break
    expect_stmt(&t, Stmt::Break(NODE), 1)?;
    // continue
    expect_stmt(&t, Stmt::Continue(NODE), 1)?;
    // return
    expect_stmt(&t, Stmt::Return(NODE, None), 1)?;
    // return x
    expect_stmt(&t, Stmt::Return(NODE, Some(t.name("x"))), 2)?;
    // yield x
    expect_stmt(&t, Stmt::Yield(NODE, t.name("x")), 2)?;
    // x
    expect_stmt(&t, Stmt::Evaluate(NODE, t.name("x")), 2)?;
    Ok(())
}

#[test]
fn raise_and_assert(rt: HostRuntime) -> Result<(), Fail> {
    let t = Trees {
        rt: &rt,
        alloc: rt.alloc(),
    };
    // raise ValueError
    expect_stmt(&t, t.raise("ValueError", None), 2)?;
    // raise ValueError((x))
    expect_stmt(&t, t.raise("ValueError", Some(t.in_brackets(1))), 3)?;
    // assert ((x))
    expect_stmt(&t, Stmt::Assert(NODE, t.in_brackets(2), None), 4)?;
    // assert x, (x)
    expect_stmt(
        &t,
        Stmt::Assert(NODE, t.name("x"), Some(t.in_brackets(1))),
        3,
    )?;
    Ok(())
}

#[test]
fn assignments(rt: HostRuntime) -> Result<(), Fail> {
    let t = Trees {
        rt: &rt,
        alloc: rt.alloc(),
    };
    // x = x
    expect_stmt(&t, t.set(t.to_name("x"), t.name("x")), 2)?;
    // x[x], x = x
    expect_stmt(
        &t,
        t.unpack(
            [t.to_index(t.name("x"), t.name("x")), t.to_name("x")],
            t.name("x"),
        ),
        4,
    )?;
    // x, x = (((x)))
    expect_stmt(
        &t,
        t.unpack([t.to_name("x"), t.to_name("x")], t.in_brackets(3)),
        5,
    )?;
    // x[(x)] = x
    expect_stmt(
        &t,
        t.set(t.to_index(t.name("x"), t.in_brackets(1)), t.name("x")),
        4,
    )?;
    // x.f += x
    expect_stmt(
        &t,
        t.update(t.to_field(t.name("x"), "f"), BinaryOp::Add, t.name("x")),
        3,
    )?;
    // x *= ((x))
    expect_stmt(
        &t,
        t.update(t.to_name("x"), BinaryOp::Multiply, t.in_brackets(2)),
        4,
    )?;
    Ok(())
}

#[test]
fn annotated_names(rt: HostRuntime) -> Result<(), Fail> {
    let t = Trees {
        rt: &rt,
        alloc: rt.alloc(),
    };
    // x: list[int]
    expect_stmt(
        &t,
        Stmt::Annotated(NODE, t.named("x"), t.list_type(Annotation::Int(NODE)), None),
        3,
    )?;
    // x: int
    expect_stmt(
        &t,
        Stmt::Annotated(NODE, t.named("x"), Annotation::Int(NODE), None),
        2,
    )?;
    // x: int = ((x))
    expect_stmt(
        &t,
        Stmt::Annotated(
            NODE,
            t.named("x"),
            Annotation::Int(NODE),
            Some(t.in_brackets(2)),
        ),
        4,
    )?;
    Ok(())
}

#[test]
fn the_options_of_print_count(rt: HostRuntime) -> Result<(), Fail> {
    let t = Trees {
        rt: &rt,
        alloc: rt.alloc(),
    };
    // print()
    expect_stmt(&t, t.print([]), 1)?;
    // print(x, (x))
    expect_stmt(&t, t.print([t.name("x"), t.in_brackets(1)]), 3)?;
    // print(x, sep=(x))
    expect_stmt(
        &t,
        t.print_with([t.name("x")], PrintOptions::Sep(t.in_brackets(1))),
        3,
    )?;
    // print(x, end=((x)))
    expect_stmt(
        &t,
        t.print_with([t.name("x")], PrintOptions::End(t.in_brackets(2))),
        4,
    )?;
    // print(x, sep=x, end=(x))
    expect_stmt(
        &t,
        t.print_with(
            [t.name("x")],
            PrintOptions::SepEnd(t.name("x"), t.in_brackets(1)),
        ),
        3,
    )?;
    // print(end=((x)), sep=x)
    expect_stmt(
        &t,
        t.print_with([], PrintOptions::EndSep(t.in_brackets(2), t.name("x"))),
        4,
    )?;
    Ok(())
}

#[test]
fn a_stage_counts_once(rt: HostRuntime) -> Result<(), Fail> {
    let t = Trees {
        rt: &rt,
        alloc: rt.alloc(),
    };
    // x ||> iter |> f(x, ..., (x))
    expect_stmt(
        &t,
        t.pipeline(
            t.name("x"),
            [
                iter(Joint::InParallel),
                t.stage(Joint::InTurn, "f", [t.name("x")], [t.in_brackets(1)]),
            ],
        ),
        4,
    )?;
    // x |> f(((x)), ...)
    expect_stmt(
        &t,
        t.pipeline(
            t.name("x"),
            [t.stage(Joint::InTurn, "f", [t.in_brackets(2)], [])],
        ),
        5,
    )?;
    // x |> print((x), end=x)
    expect_stmt(
        &t,
        t.pipeline(
            t.name("x"),
            [print_stage(
                Joint::InTurn,
                t.printed([t.in_brackets(1)], PrintOptions::End(t.name("x"))),
            )],
        ),
        4,
    )?;
    // ((x)) |> iter
    expect_stmt(&t, t.pipeline(t.in_brackets(2), [iter(Joint::InTurn)]), 4)?;
    Ok(())
}

#[test]
fn an_arm_is_no_node(rt: HostRuntime) -> Result<(), Fail> {
    let t = Trees {
        rt: &rt,
        alloc: rt.alloc(),
    };
    // if x:
    //     pass
    expect_stmt(
        &t,
        t.choose([t.when(t.name("x"), [Stmt::Pass(NODE)])], []),
        2,
    )?;
    // if ((x)):
    //     pass
    expect_stmt(
        &t,
        t.choose([t.when(t.in_brackets(2), [Stmt::Pass(NODE)])], []),
        4,
    )?;
    Ok(())
}

#[test]
fn the_highest_arm_counts(rt: HostRuntime) -> Result<(), Fail> {
    let t = Trees {
        rt: &rt,
        alloc: rt.alloc(),
    };
    // if x:
    //     return x
    // elif x:
    //     return ((x))
    // else:
    //     pass
    expect_stmt(
        &t,
        t.choose(
            [
                t.when(t.name("x"), [Stmt::Return(NODE, Some(t.name("x")))]),
                t.when(t.name("x"), [Stmt::Return(NODE, Some(t.in_brackets(2)))]),
            ],
            [Stmt::Pass(NODE)],
        ),
        5,
    )?;
    // if x:
    //     pass
    // else:
    //     pass
    //     return (x)
    expect_stmt(
        &t,
        t.choose(
            [t.when(t.name("x"), [Stmt::Pass(NODE)])],
            [Stmt::Pass(NODE), Stmt::Return(NODE, Some(t.in_brackets(1)))],
        ),
        4,
    )?;
    Ok(())
}

#[test]
fn loops_with_a_condition(rt: HostRuntime) -> Result<(), Fail> {
    let t = Trees {
        rt: &rt,
        alloc: rt.alloc(),
    };
    // while x:
    //     yield x
    expect_stmt(
        &t,
        t.repeat(t.name("x"), [Stmt::Yield(NODE, t.name("x"))]),
        3,
    )?;
    // while ((x)):
    //     pass
    expect_stmt(&t, t.repeat(t.in_brackets(2), [Stmt::Pass(NODE)]), 4)?;
    Ok(())
}

#[test]
fn loops_over_items(rt: HostRuntime) -> Result<(), Fail> {
    let t = Trees {
        rt: &rt,
        alloc: rt.alloc(),
    };
    // for x in x:
    //     pass
    expect_stmt(&t, t.over(t.one("x"), t.name("x"), [Stmt::Pass(NODE)]), 2)?;
    // for a, b in ((x)):
    //     pass
    expect_stmt(
        &t,
        t.over(
            t.several([t.named("a"), t.named("b")]),
            t.in_brackets(2),
            [Stmt::Pass(NODE)],
        ),
        4,
    )?;
    // for x in x:
    //     pass
    //     return (x)
    expect_stmt(
        &t,
        t.over(
            t.one("x"),
            t.name("x"),
            [Stmt::Pass(NODE), Stmt::Return(NODE, Some(t.in_brackets(1)))],
        ),
        4,
    )?;
    Ok(())
}

#[test]
fn parallel_loops(rt: HostRuntime) -> Result<(), Fail> {
    let t = Trees {
        rt: &rt,
        alloc: rt.alloc(),
    };
    let options = ParOptions {
        num_threads: None,
        chunk_size: Some(10),
        schedule: Some(Schedule::Static),
    };
    // @par(chunk_size=10, schedule='static')
    // for a, b in x:
    //     pass
    let names = t.several([t.named("a"), t.named("b")]);
    expect_stmt(
        &t,
        t.par_with(options, names, t.name("x"), [Stmt::Pass(NODE)]),
        3,
    )?;
    // @par
    // for x in x:
    //     return x
    expect_stmt(
        &t,
        t.par(
            t.one("x"),
            t.name("x"),
            [Stmt::Return(NODE, Some(t.name("x")))],
        ),
        4,
    )?;
    Ok(())
}
