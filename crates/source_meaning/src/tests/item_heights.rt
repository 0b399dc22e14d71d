use super::build::*;
use source_trees::*;
use std::process::Abort;
use std::test::Fail;

/// Compares the height of a type, and that of its copy.
fn expect_type<R: Abort>(t: &Trees<'_, R>, written: Annotation, height: u32) -> Result<(), Fail> {
    let rt = t.rt;
    assert_eq!(rt; written.height(), height);
    let copy = written.try_clone(t.alloc)?;
    assert_eq!(rt; copy.height(), height);
    Ok(())
}

/// Compares the height of a parameter, and that of its copy.
fn expect_param<R: Abort>(t: &Trees<'_, R>, param: Param, height: u32) -> Result<(), Fail> {
    let rt = t.rt;
    assert_eq!(rt; param.height(), height);
    let copy = param.try_clone(t.alloc)?;
    assert_eq!(rt; copy.height(), height);
    Ok(())
}

/// Compares the height of a function, and that of its copy.
fn expect_function<R: Abort>(
    t: &Trees<'_, R>,
    function: Function,
    height: u32,
) -> Result<(), Fail> {
    let rt = t.rt;
    assert_eq!(rt; function.height(), height);
    let copy = function.try_clone(t.alloc)?;
    assert_eq!(rt; copy.height(), height);
    Ok(())
}

/// Compares the height of what stands in a class, and that of its copy.
fn expect_member<R: Abort>(t: &Trees<'_, R>, member: Member, height: u32) -> Result<(), Fail> {
    let rt = t.rt;
    assert_eq!(rt; member.height(), height);
    let copy = member.try_clone(t.alloc)?;
    assert_eq!(rt; copy.height(), height);
    Ok(())
}

/// Compares the height of what stands at the top of a source, and that of its copy.
fn expect_item<R: Abort>(t: &Trees<'_, R>, item: Item, height: u32) -> Result<(), Fail> {
    let rt = t.rt;
    assert_eq!(rt; item.height(), height);
    let copy = item.try_clone(t.alloc)?;
    assert_eq!(rt; copy.height(), height);
    Ok(())
}

/// Compares the height of a source, and that of its copy.
fn expect_module<R: Abort>(t: &Trees<'_, R>, module: Module, height: u32) -> Result<(), Fail> {
    let rt = t.rt;
    assert_eq!(rt; module.height(), height);
    let copy = module.try_clone(t.alloc)?;
    assert_eq!(rt; copy.height(), height);
    Ok(())
}

#[test]
fn types(rt: HostRuntime) -> Result<(), Fail> {
    let t = Trees {
        rt: &rt,
        alloc: rt.alloc(),
    };
    // int
    expect_type(&t, Annotation::Int(NODE), 1)?;
    // bool
    expect_type(&t, Annotation::Bool(NODE), 1)?;
    // str
    expect_type(&t, Annotation::Str(NODE), 1)?;
    // None
    expect_type(&t, Annotation::None(NODE), 1)?;
    // C
    expect_type(&t, t.class_type("C"), 1)?;
    Ok(())
}

#[test]
fn types_of_types(rt: HostRuntime) -> Result<(), Fail> {
    let t = Trees {
        rt: &rt,
        alloc: rt.alloc(),
    };
    // list[int]
    expect_type(&t, t.list_type(Annotation::Int(NODE)), 2)?;
    // tuple[bool, C]
    expect_type(
        &t,
        t.tuple_type([Annotation::Bool(NODE), t.class_type("C")]),
        2,
    )?;
    // tuple[int, list[str]]
    expect_type(
        &t,
        t.tuple_type([Annotation::Int(NODE), t.list_type(Annotation::Str(NODE))]),
        3,
    )?;
    // list[tuple[int]]
    expect_type(&t, t.list_type(t.tuple_type([Annotation::Int(NODE)])), 3)?;
    Ok(())
}

#[test]
fn parameters_count_once(rt: HostRuntime) -> Result<(), Fail> {
    let t = Trees {
        rt: &rt,
        alloc: rt.alloc(),
    };
    // self
    expect_param(&t, t.param("self"), 1)?;
    // x: list[int]
    expect_param(
        &t,
        t.param_with("x", Some(t.list_type(Annotation::Int(NODE))), None),
        3,
    )?;
    // x=((x))
    expect_param(&t, t.param_or("x", t.in_brackets(2)), 4)?;
    // x: int = (x)
    expect_param(
        &t,
        t.param_with("x", Some(Annotation::Int(NODE)), Some(t.in_brackets(1))),
        3,
    )?;
    Ok(())
}

#[test]
fn functions(rt: HostRuntime) -> Result<(), Fail> {
    let t = Trees {
        rt: &rt,
        alloc: rt.alloc(),
    };
    // def f():
    //     pass
    expect_function(&t, t.function_of("f", [], None, [Stmt::Pass(NODE)]), 2)?;
    // def f(x, y=(x)):
    //     pass
    expect_function(
        &t,
        t.function_of(
            "f",
            [t.param("x"), t.param_or("y", t.in_brackets(1))],
            None,
            [Stmt::Pass(NODE)],
        ),
        4,
    )?;
    // def f() -> list[int]:
    //     pass
    expect_function(
        &t,
        t.function_of(
            "f",
            [],
            Some(t.list_type(Annotation::Int(NODE))),
            [Stmt::Pass(NODE)],
        ),
        3,
    )?;
    // def m(self) -> int:
    //     return ((x))
    expect_function(
        &t,
        t.function_of(
            "m",
            [t.param("self")],
            Some(Annotation::Int(NODE)),
            [Stmt::Return(NODE, Some(t.in_brackets(2)))],
        ),
        5,
    )?;
    Ok(())
}

#[test]
fn members(rt: HostRuntime) -> Result<(), Fail> {
    let t = Trees {
        rt: &rt,
        alloc: rt.alloc(),
    };
    // pass
    expect_member(&t, Member::Pass(NODE), 1)?;
    // ''
    expect_member(&t, t.text_member(""), 1)?;
    // f: int
    expect_member(&t, t.int_field("f"), 2)?;
    // f: list[int]
    expect_member(
        &t,
        Member::Field(NODE, t.named("f"), t.list_type(Annotation::Int(NODE))),
        3,
    )?;
    // def m(self) -> int:
    //     return (x)
    expect_member(
        &t,
        Member::Method(t.function_of(
            "m",
            [t.param("self")],
            Some(Annotation::Int(NODE)),
            [Stmt::Return(NODE, Some(t.in_brackets(1)))],
        )),
        4,
    )?;
    Ok(())
}

#[test]
fn classes(rt: HostRuntime) -> Result<(), Fail> {
    let t = Trees {
        rt: &rt,
        alloc: rt.alloc(),
    };
    // class C:
    //     pass
    expect_item(&t, t.class("C", [Member::Pass(NODE)]), 2)?;
    // class C:
    //     f: list[int]
    //     def m(self) -> int:
    //         return ((x))
    expect_item(
        &t,
        t.class(
            "C",
            [
                Member::Field(NODE, t.named("f"), t.list_type(Annotation::Int(NODE))),
                Member::Method(t.function_of(
                    "m",
                    [t.param("self")],
                    Some(Annotation::Int(NODE)),
                    [Stmt::Return(NODE, Some(t.in_brackets(2)))],
                )),
            ],
        ),
        6,
    )?;
    // class C:
    //     ''
    //     f: int
    expect_item(&t, t.class("C", [t.text_member(""), t.int_field("f")]), 3)?;
    Ok(())
}

#[test]
fn items(rt: HostRuntime) -> Result<(), Fail> {
    let t = Trees {
        rt: &rt,
        alloc: rt.alloc(),
    };
    // x
    expect_item(&t, Item::Stmt(Stmt::Evaluate(NODE, t.name("x"))), 2)?;
    // def f(x):
    //     return x
    expect_item(
        &t,
        t.function("f", [t.param("x")], [Stmt::Return(NODE, Some(t.name("x")))]),
        3,
    )?;
    Ok(())
}

#[test]
fn modules(rt: HostRuntime) -> Result<(), Fail> {
    let t = Trees {
        rt: &rt,
        alloc: rt.alloc(),
    };
    // an empty source
    expect_module(&t, t.module([]), 0)?;
    // def f():
    //     pass
    // class C:
    //     f: list[int]
    // x
    expect_module(
        &t,
        t.module([
            t.function("f", [], [Stmt::Pass(NODE)]),
            t.class(
                "C",
                [Member::Field(NODE, t.named("f"), t.list_type(Annotation::Int(NODE)))],
            ),
            Item::Stmt(Stmt::Evaluate(NODE, t.name("x"))),
        ]),
        4,
    )?;
    Ok(())
}

/// The name and the height of a function of the prelude.
fn expected(place: u32) -> (&'static [u8], u32) {
    match place {
        0 => (b"abs", 5),
        1 => (b"sum", 4),
        2 => (b"any", 5),
        3 => (b"all", 5),
        4 => (b"enumerate", 5),
        5 => (b"zip", 6),
        6 => (b"reversed", 5),
        _ => (b"", 0),
    }
}

fn expect_prelude_function(rt: &impl Abort, item: &Item, place: u32) -> Result<(), Fail> {
    let Item::Function(function) = item else {
        return Err("no function".into());
    };
    let (name, height) = expected(place);
    assert_eq!(rt; function.name.spelling.as_slice(), name);
    assert_eq!(rt; function.height(), height);
    Ok(())
}

fn expect_prelude(rt: &impl Abort, source: &Module) -> Result<(), Fail> {
    let mut place = 0u32;
    'items: for item in source.items.as_slice() {
        expect_prelude_function(rt, item, place)?;
        place = place.saturating_add(1);
    }
    assert_eq!(rt; place, 7);
    assert_eq!(rt; source.height(), 6);
    Ok(())
}

#[test]
fn the_prelude_has_its_functions(rt: HostRuntime) -> Result<(), Fail> {
    let source = prelude(rt.alloc())?;
    expect_prelude(&rt, &source)?;
    let copy = source.try_clone(rt.alloc())?;
    expect_prelude(&rt, &copy)
}
