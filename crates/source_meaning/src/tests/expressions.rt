use super::build::*;
use super::{Case, Wanted, expect, fault};
use codon_base::FaultKind;
use source_trees::*;
use std::process::Abort;
use std::test::Fail;

#[test]
fn what_is_skipped_is_not_evaluated(rt: HostRuntime) -> Result<(), Fail> {
    let t = Trees {
        rt: &rt,
        alloc: rt.alloc(),
    };
    // print(1 // 0 if False else 2)
    expect(
        &t,
        t.module([Item::Stmt(t.print([t.conditional(
            t.binary(BinaryOp::FloorDivide, t.int(1), t.int(0)),
            t.truth(false),
            t.int(2),
        )]))]),
        Case {
            fuel: 1000000,
            depth: 100,
            out: b"2\n",
            end: Wanted::Done,
        },
    )?;
    // print(False and 1 // 0, True or 1 // 0)
    expect(
        &t,
        t.module([Item::Stmt(t.print([
            t.all_of([
                t.truth(false),
                t.binary(BinaryOp::FloorDivide, t.int(1), t.int(0)),
            ]),
            t.any_of([
                t.truth(true),
                t.binary(BinaryOp::FloorDivide, t.int(1), t.int(0)),
            ]),
        ]))]),
        Case {
            fuel: 1000000,
            depth: 100,
            out: b"False True\n",
            end: Wanted::Done,
        },
    )?;
    // print(3 < 2 < 1 // 0)
    expect(
        &t,
        t.module([Item::Stmt(t.print([t.compare(
            t.int(3),
            [
                than(Comparator::Less, t.int(2)),
                than(
                    Comparator::Less,
                    t.binary(BinaryOp::FloorDivide, t.int(1), t.int(0)),
                ),
            ],
        )]))]),
        Case {
            fuel: 1000000,
            depth: 100,
            out: b"False\n",
            end: Wanted::Done,
        },
    )?;
    // print(1 // 0)
    expect(
        &t,
        t.module([Item::Stmt(t.print([t.binary(BinaryOp::FloorDivide, t.int(1), t.int(0))]))]),
        Case {
            fuel: 1000000,
            depth: 100,
            out: b"",
            end: fault(FaultKind::ZeroDivision, b"division by zero"),
        },
    )?;
    Ok(())
}

#[test]
fn and_and_or_give_a_bool(rt: HostRuntime) -> Result<(), Fail> {
    let t = Trees {
        rt: &rt,
        alloc: rt.alloc(),
    };
    // print(3 and 4, 0 or '', [0] and 'a', not [])
    expect(
        &t,
        t.module([Item::Stmt(t.print([
            t.all_of([t.int(3), t.int(4)]),
            t.any_of([t.int(0), t.text("")]),
            t.all_of([t.list([t.int(0)]), t.text("a")]),
            t.not(t.list([])),
        ]))]),
        Case {
            fuel: 1000000,
            depth: 100,
            out: b"True False True True\n",
            end: Wanted::Done,
        },
    )?;
    Ok(())
}

#[test]
fn operands_are_evaluated_once_from_left_to_right(rt: HostRuntime) -> Result<(), Fail> {
    let t = Trees {
        rt: &rt,
        alloc: rt.alloc(),
    };
    // def say(x):
    //     print(x)
    //     return x
    // print(say(1) < say(3) < say(2) < say(4))
    // print(say(5) - say(2) * say(2))
    expect(
        &t,
        t.module([
            t.function(
                "say",
                [t.param("x")],
                [
                    t.print([t.name("x")]),
                    Stmt::Return(NODE, Some(t.name("x"))),
                ],
            ),
            Item::Stmt(t.print([t.compare(
                t.call("say", [t.int(1)]),
                [
                    than(Comparator::Less, t.call("say", [t.int(3)])),
                    than(Comparator::Less, t.call("say", [t.int(2)])),
                    than(Comparator::Less, t.call("say", [t.int(4)])),
                ],
            )])),
            Item::Stmt(t.print([t.binary(
                BinaryOp::Subtract,
                t.call("say", [t.int(5)]),
                t.binary(
                    BinaryOp::Multiply,
                    t.call("say", [t.int(2)]),
                    t.call("say", [t.int(2)]),
                ),
            )])),
        ]),
        Case {
            fuel: 1000000,
            depth: 100,
            out: b"1\n3\n2\nFalse\n5\n2\n2\n1\n",
            end: Wanted::Done,
        },
    )?;
    Ok(())
}

#[test]
fn numbers_wrap(rt: HostRuntime) -> Result<(), Fail> {
    let t = Trees {
        rt: &rt,
        alloc: rt.alloc(),
    };
    // print(9223372036854775807 + 1, (-9223372036854775807 - 1) // -1)
    expect(
        &t,
        t.module([Item::Stmt(t.print([
            t.binary(BinaryOp::Add, t.int(9223372036854775807), t.int(1)),
            t.binary(
                BinaryOp::FloorDivide,
                t.binary(
                    BinaryOp::Subtract,
                    t.unary(UnaryOp::Minus, t.int(9223372036854775807)),
                    t.int(1),
                ),
                t.unary(UnaryOp::Minus, t.int(1)),
            ),
        ]))]),
        Case {
            fuel: 1000000,
            depth: 100,
            out: b"-9223372036854775808 -9223372036854775808\n",
            end: Wanted::Done,
        },
    )?;
    // print(-7 // 2, -7 % 2, 7 % -2, 2 ** 10, 1 << 3, -9 >> 1, 6 & 3, 6 | 3, 6 ^ 3, ~5, +5)
    expect(
        &t,
        t.module([Item::Stmt(t.print([
            t.binary(
                BinaryOp::FloorDivide,
                t.unary(UnaryOp::Minus, t.int(7)),
                t.int(2),
            ),
            t.binary(
                BinaryOp::Modulo,
                t.unary(UnaryOp::Minus, t.int(7)),
                t.int(2),
            ),
            t.binary(
                BinaryOp::Modulo,
                t.int(7),
                t.unary(UnaryOp::Minus, t.int(2)),
            ),
            t.binary(BinaryOp::Power, t.int(2), t.int(10)),
            t.binary(BinaryOp::ShiftLeft, t.int(1), t.int(3)),
            t.binary(
                BinaryOp::ShiftRight,
                t.unary(UnaryOp::Minus, t.int(9)),
                t.int(1),
            ),
            t.binary(BinaryOp::And, t.int(6), t.int(3)),
            t.binary(BinaryOp::Or, t.int(6), t.int(3)),
            t.binary(BinaryOp::Xor, t.int(6), t.int(3)),
            t.unary(UnaryOp::Invert, t.int(5)),
            t.unary(UnaryOp::Plus, t.int(5)),
        ]))]),
        Case {
            fuel: 1000000,
            depth: 100,
            out: b"-4 1 -1 1024 8 -5 2 7 5 -6 5\n",
            end: Wanted::Done,
        },
    )?;
    // print(2 ** -1)
    expect(
        &t,
        t.module([Item::Stmt(t.print([t.binary(
            BinaryOp::Power,
            t.int(2),
            t.unary(UnaryOp::Minus, t.int(1)),
        )]))]),
        Case {
            fuel: 1000000,
            depth: 100,
            out: b"",
            end: fault(FaultKind::Value, b"negative exponent"),
        },
    )?;
    Ok(())
}

#[test]
fn indices_count_from_the_end_and_slices_clamp(rt: HostRuntime) -> Result<(), Fail> {
    let t = Trees {
        rt: &rt,
        alloc: rt.alloc(),
    };
    // print('hello'[-3:], [1, 2, 3][1:10], [1][5:2], 'abc'[-1], [1, 2][:-1], (4, 5)[1])
    expect(
        &t,
        t.module([Item::Stmt(t.print([
            t.slice(
                t.text("hello"),
                Some(t.unary(UnaryOp::Minus, t.int(3))),
                None,
            ),
            t.slice(
                t.list([t.int(1), t.int(2), t.int(3)]),
                Some(t.int(1)),
                Some(t.int(10)),
            ),
            t.slice(t.list([t.int(1)]), Some(t.int(5)), Some(t.int(2))),
            t.index(t.text("abc"), t.unary(UnaryOp::Minus, t.int(1))),
            t.slice(
                t.list([t.int(1), t.int(2)]),
                None,
                Some(t.unary(UnaryOp::Minus, t.int(1))),
            ),
            t.index(t.tuple([t.int(4), t.int(5)]), t.int(1)),
        ]))]),
        Case {
            fuel: 1000000,
            depth: 100,
            out: b"llo [2, 3] [] c [1] 5\n",
            end: Wanted::Done,
        },
    )?;
    // print([1][1])
    expect(
        &t,
        t.module([Item::Stmt(t.print([t.index(t.list([t.int(1)]), t.int(1))]))]),
        Case {
            fuel: 1000000,
            depth: 100,
            out: b"",
            end: fault(FaultKind::Index, b"index out of range"),
        },
    )?;
    Ok(())
}

#[test]
fn values_print_as_in_python(rt: HostRuntime) -> Result<(), Fail> {
    let t = Trees {
        rt: &rt,
        alloc: rt.alloc(),
    };
    // print([1], (3,), 'a', ['a', "it's"], True, None)
    expect(
        &t,
        t.module([Item::Stmt(t.print([
            t.list([t.int(1)]),
            t.tuple([t.int(3)]),
            t.text("a"),
            t.list([t.text("a"), t.text("it's")]),
            t.truth(true),
            t.none(),
        ]))]),
        Case {
            fuel: 1000000,
            depth: 100,
            out: b"[1] (3,) a ['a', \"it's\"] True None\n",
            end: Wanted::Done,
        },
    )?;
    // print(1, 2, sep='-', end='!')
    expect(
        &t,
        t.module([Item::Stmt(t.print_with(
            [t.int(1), t.int(2)],
            PrintOptions::SepEnd(t.text("-"), t.text("!")),
        ))]),
        Case {
            fuel: 1000000,
            depth: 100,
            out: b"1-2!",
            end: Wanted::Done,
        },
    )?;
    // print()
    expect(
        &t,
        t.module([Item::Stmt(t.print([]))]),
        Case {
            fuel: 1000000,
            depth: 100,
            out: b"\n",
            end: Wanted::Done,
        },
    )?;
    Ok(())
}

#[test]
fn builtins(rt: HostRuntime) -> Result<(), Fail> {
    let t = Trees {
        rt: &rt,
        alloc: rt.alloc(),
    };
    // print(len('ab'), len([1]), min(2, 1), max([3, 5]), str(7) + 'x', int('-12'), ord('a'), chr(98), bool([]), abs(-3), sum([1, 2]))
    expect(
        &t,
        t.module([Item::Stmt(t.print([
            t.call("len", [t.text("ab")]),
            t.call("len", [t.list([t.int(1)])]),
            t.call("min", [t.int(2), t.int(1)]),
            t.call("max", [t.list([t.int(3), t.int(5)])]),
            t.binary(BinaryOp::Add, t.call("str", [t.int(7)]), t.text("x")),
            t.call("int", [t.text("-12")]),
            t.call("ord", [t.text("a")]),
            t.call("chr", [t.int(98)]),
            t.call("bool", [t.list([])]),
            t.call("abs", [t.unary(UnaryOp::Minus, t.int(3))]),
            t.call("sum", [t.list([t.int(1), t.int(2)])]),
        ]))]),
        Case {
            fuel: 1000000,
            depth: 100,
            out: b"2 1 1 5 7x -12 97 b False 3 3\n",
            end: Wanted::Done,
        },
    )?;
    // print('b' in 'abc', 2 in [1], 2 not in [1], 'ab' < 'b', [1, [2]] == [1, [2]], list('ab'), any([0, 1]), all([0, 1]))
    expect(
        &t,
        t.module([Item::Stmt(t.print([
            t.compare(t.text("b"), [than(Comparator::In, t.text("abc"))]),
            t.compare(t.int(2), [than(Comparator::In, t.list([t.int(1)]))]),
            t.compare(t.int(2), [than(Comparator::NotIn, t.list([t.int(1)]))]),
            t.compare(t.text("ab"), [than(Comparator::Less, t.text("b"))]),
            t.compare(
                t.list([t.int(1), t.list([t.int(2)])]),
                [than(Comparator::Equal, t.list([t.int(1), t.list([t.int(2)])]))],
            ),
            t.call("list", [t.text("ab")]),
            t.call("any", [t.list([t.int(0), t.int(1)])]),
            t.call("all", [t.list([t.int(0), t.int(1)])]),
        ]))]),
        Case {
            fuel: 1000000,
            depth: 100,
            out: b"True False True True True ['a', 'b'] True False\n",
            end: Wanted::Done,
        },
    )?;
    // print(min([1]), int('x'))
    expect(
        &t,
        t.module([Item::Stmt(t.print([
            t.call("min", [t.list([t.int(1)])]),
            t.call("int", [t.text("x")]),
        ]))]),
        Case {
            fuel: 1000000,
            depth: 100,
            out: b"",
            end: fault(FaultKind::Value, b"not a number"),
        },
    )?;
    Ok(())
}
