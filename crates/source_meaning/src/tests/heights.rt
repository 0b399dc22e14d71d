use super::build::*;
use source_trees::*;
use std::process::Abort;
use std::test::Fail;

/// Compares the height of an expression, and that of its copy.
fn expect_expr<R: Abort>(t: &Trees<'_, R>, expr: Expr, height: u32) -> Result<(), Fail> {
    let rt = t.rt;
    assert_eq!(rt; expr.height(), height);
    let copy = expr.try_clone(t.alloc)?;
    assert_eq!(rt; copy.height(), height);
    Ok(())
}

#[test]
fn each_bracket_pair_counts(rt: HostRuntime) -> Result<(), Fail> {
    let t = Trees {
        rt: &rt,
        alloc: rt.alloc(),
    };
    expect_expr(&t, t.in_brackets(0), 1)?;
    expect_expr(&t, t.in_brackets(1), 2)?;
    expect_expr(&t, t.in_brackets(2), 3)?;
    expect_expr(&t, t.in_brackets(98), 99)?;
    expect_expr(&t, t.in_brackets(99), 100)?;
    expect_expr(&t, t.in_brackets(100), 101)?;
    Ok(())
}

#[test]
fn leaves_have_height_one(rt: HostRuntime) -> Result<(), Fail> {
    let t = Trees {
        rt: &rt,
        alloc: rt.alloc(),
    };
    // x
    expect_expr(&t, t.name("x"), 1)?;
    // 7
    expect_expr(&t, t.int(7), 1)?;
    // ''
    expect_expr(&t, t.text(""), 1)?;
    // True
    expect_expr(&t, t.truth(true), 1)?;
    // False
    expect_expr(&t, t.truth(false), 1)?;
    // None
    expect_expr(&t, t.none(), 1)?;
    // []
    expect_expr(&t, t.list([]), 1)?;
    Ok(())
}

#[test]
fn operators_count_once(rt: HostRuntime) -> Result<(), Fail> {
    let t = Trees {
        rt: &rt,
        alloc: rt.alloc(),
    };
    // +x
    expect_expr(&t, t.unary(UnaryOp::Plus, t.name("x")), 2)?;
    // not x
    expect_expr(&t, t.not(t.name("x")), 2)?;
    // x ** (((x)))
    expect_expr(
        &t,
        t.binary(BinaryOp::Power, t.name("x"), t.in_brackets(3)),
        5,
    )?;
    // (((x))) - x
    expect_expr(
        &t,
        t.binary(BinaryOp::Subtract, t.in_brackets(3), t.name("x")),
        5,
    )?;
    Ok(())
}

#[test]
fn a_chain_is_flat(rt: HostRuntime) -> Result<(), Fail> {
    let t = Trees {
        rt: &rt,
        alloc: rt.alloc(),
    };
    // x and (x)
    expect_expr(&t, t.all_of([t.name("x"), t.in_brackets(1)]), 3)?;
    // ((x)) or x
    expect_expr(&t, t.any_of([t.in_brackets(2), t.name("x")]), 4)?;
    // x < x in ((x))
    expect_expr(
        &t,
        t.compare(
            t.name("x"),
            [
                than(Comparator::Less, t.name("x")),
                than(Comparator::In, t.in_brackets(2)),
            ],
        ),
        4,
    )?;
    // (x) != x
    expect_expr(
        &t,
        t.compare(t.in_brackets(1), [than(Comparator::NotEqual, t.name("x"))]),
        3,
    )?;
    Ok(())
}

#[test]
fn the_highest_part_of_a_conditional_counts(rt: HostRuntime) -> Result<(), Fail> {
    let t = Trees {
        rt: &rt,
        alloc: rt.alloc(),
    };
    // x if (x) else ((x))
    expect_expr(
        &t,
        t.conditional(t.name("x"), t.in_brackets(1), t.in_brackets(2)),
        4,
    )?;
    // x if ((x)) else (x)
    expect_expr(
        &t,
        t.conditional(t.name("x"), t.in_brackets(2), t.in_brackets(1)),
        4,
    )?;
    // ((x)) if x else (x)
    expect_expr(
        &t,
        t.conditional(t.in_brackets(2), t.name("x"), t.in_brackets(1)),
        4,
    )?;
    Ok(())
}

#[test]
fn a_list_or_a_tuple_counts_once(rt: HostRuntime) -> Result<(), Fail> {
    let t = Trees {
        rt: &rt,
        alloc: rt.alloc(),
    };
    // (x, (x))
    expect_expr(&t, t.tuple([t.name("x"), t.in_brackets(1)]), 3)?;
    // x, (x)
    expect_expr(
        &t,
        Expr::Tuple(
            NODE,
            Commas::Bare,
            t.list_of([t.name("x"), t.in_brackets(1)]),
        ),
        3,
    )?;
    // [((x)), x]
    expect_expr(&t, t.list([t.in_brackets(2), t.name("x")]), 4)?;
    Ok(())
}

#[test]
fn a_callee_counts(rt: HostRuntime) -> Result<(), Fail> {
    let t = Trees {
        rt: &rt,
        alloc: rt.alloc(),
    };
    // f()
    expect_expr(&t, t.call("f", []), 2)?;
    // f(x, ((x)))
    expect_expr(&t, t.call("f", [t.name("x"), t.in_brackets(2)]), 4)?;
    // x.m(x)
    expect_expr(&t, t.method(t.name("x"), "m", [t.name("x")]), 3)?;
    // (x).m()
    expect_expr(&t, t.method(t.in_brackets(1), "m", []), 4)?;
    // x.m(((x)))
    expect_expr(&t, t.method(t.name("x"), "m", [t.in_brackets(2)]), 4)?;
    Ok(())
}

#[test]
fn parts_of_objects(rt: HostRuntime) -> Result<(), Fail> {
    let t = Trees {
        rt: &rt,
        alloc: rt.alloc(),
    };
    // x[(x)]
    expect_expr(&t, t.index(t.name("x"), t.in_brackets(1)), 3)?;
    // ((x))[x]
    expect_expr(&t, t.index(t.in_brackets(2), t.name("x")), 4)?;
    // x[:((x))]
    expect_expr(&t, t.slice(t.name("x"), None, Some(t.in_brackets(2))), 4)?;
    // x[(x):]
    expect_expr(&t, t.slice(t.name("x"), Some(t.in_brackets(1)), None), 3)?;
    // x[:]
    expect_expr(&t, t.slice(t.name("x"), None, None), 2)?;
    // x.f
    expect_expr(&t, t.field(t.name("x"), "f"), 2)?;
    Ok(())
}

#[test]
fn comprehensions(rt: HostRuntime) -> Result<(), Fail> {
    let t = Trees {
        rt: &rt,
        alloc: rt.alloc(),
    };
    // [x for x in x if (x)]
    expect_expr(
        &t,
        t.each_if(t.name("x"), t.one("x"), t.name("x"), t.in_brackets(1)),
        3,
    )?;
    // [x for x in ((x))]
    expect_expr(&t, t.each(t.name("x"), t.one("x"), t.in_brackets(2)), 4)?;
    // [(x) for a, b in x]
    expect_expr(
        &t,
        t.each(
            t.in_brackets(1),
            t.several([t.named("a"), t.named("b")]),
            t.name("x"),
        ),
        3,
    )?;
    Ok(())
}
