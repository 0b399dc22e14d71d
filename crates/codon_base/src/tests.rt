use crate::*;
use sqlite_items::Items;
use std::alloc::Global;
use std::cmp::Ordering;
use std::process::Abort;
use std::test::Fail;

#[test]
fn sums_and_products_wrap(rt: HostRuntime) {
    for (a, b, sum) in [
        (1, 2, 3),
        (i64::MAX, 1, i64::MIN),
        (i64::MIN, -1, i64::MAX),
        (-5, 3, -2),
    ] {
        assert_eq!(rt; wrap_add(a, b), sum);
    }
    for (a, b, difference) in [
        (1, 2, -1),
        (i64::MIN, 1, i64::MAX),
        (i64::MAX, -1, i64::MIN),
        (0, i64::MIN, i64::MIN),
    ] {
        assert_eq!(rt; wrap_sub(a, b), difference);
    }
    for (a, b, product) in [
        (6, -7, -42),
        (3037000500, 3037000500, -9223372036709301616),
        (i64::MIN, -1, i64::MIN),
        (4294967296, 4294967296, 0),
    ] {
        assert_eq!(rt; wrap_mul(a, b), product);
    }
}

#[test]
fn signs_turn(rt: HostRuntime) {
    for (a, negated) in [(5, -5), (0, 0), (i64::MIN, i64::MIN), (i64::MAX, -i64::MAX)] {
        assert_eq!(rt; wrap_neg(a), negated);
    }
}

#[test]
fn powers_wrap(rt: HostRuntime) {
    for (a, b, power) in [
        (0, 0, Some(1)),
        (3, 40, Some(-6289078614652622815)),
        (-2, 63, Some(i64::MIN)),
        (2, 64, Some(0)),
        (7, 4294967297, Some(-5799782102597631993)),
        (-3, i64::MAX, Some(6148914691236517205)),
        (2, -1, None),
    ] {
        assert_eq!(rt; wrap_pow(a, b), power);
    }
}

#[test]
fn quotients_round_down(rt: HostRuntime) {
    for (a, b, quotient) in [
        (-7, 2, Some(-4)),
        (7, -2, Some(-4)),
        (-7, -2, Some(3)),
        (6, -3, Some(-2)),
        (i64::MIN, -1, Some(i64::MIN)),
        (i64::MIN, i64::MIN, Some(1)),
        (5, 0, None),
    ] {
        assert_eq!(rt; floor_div(a, b), quotient);
    }
    for (a, b, rest) in [
        (-7, 2, Some(1)),
        (7, -2, Some(-1)),
        (-7, -2, Some(-1)),
        (6, -3, Some(0)),
        (i64::MIN, -1, Some(0)),
        (i64::MAX, i64::MIN, Some(-1)),
        (5, 0, None),
    ] {
        assert_eq!(rt; floor_mod(a, b), rest);
    }
}

#[test]
fn shifts_take_any_count(rt: HostRuntime) {
    for (a, b, shifted) in [
        (1, 3, Some(8)),
        (3, 63, Some(i64::MIN)),
        (-1, 63, Some(i64::MIN)),
        (5, 64, Some(0)),
        (5, i64::MAX, Some(0)),
        (1, -1, None),
    ] {
        assert_eq!(rt; shift_left(a, b), shifted);
    }
    for (a, b, shifted) in [
        (-9, 2, Some(-3)),
        (9, 2, Some(2)),
        (i64::MIN, 63, Some(-1)),
        (-1, 64, Some(-1)),
        (i64::MAX, 64, Some(0)),
        (1, -1, None),
    ] {
        assert_eq!(rt; shift_right(a, b), shifted);
    }
}

#[test]
fn parts_combine(rt: HostRuntime) {
    for (op, a, b, combined) in [
        (CellOp::Sum, i64::MAX, 1, i64::MIN),
        (CellOp::Product, -3, 5, -15),
        (CellOp::And, -4, 7, 4),
        (CellOp::Or, -4, 7, -1),
        (CellOp::Xor, -4, 7, -5),
        (CellOp::Least, -4, 7, -4),
        (CellOp::Greatest, -4, 7, 7),
    ] {
        assert_eq!(rt; combine(op, a, b), combined);
        assert_eq!(rt; combine(op, neutral(op), a), a);
        combine_laws(op, a, b, combined);
    }
}

fn text(alloc: Global, bytes: &[u8]) -> Result<Text, Fail> {
    let mut text = Text::new(alloc)?;
    for byte in bytes {
        if *byte < 128 {
            text.push(*byte)?;
        }
    }
    Ok(text)
}

fn pair(alloc: Global, first: Value, second: Value) -> Result<Values, Fail> {
    let mut values = Items::new(alloc);
    values.push(first)?;
    values.push(second)?;
    Ok(values)
}

fn one(alloc: Global, value: Value) -> Result<Values, Fail> {
    let mut values = Items::new(alloc);
    values.push(value)?;
    Ok(values)
}

fn list(heap: &mut Heap, values: Values) -> Result<Value, Fail> {
    let Ok(at) = heap.add(Object::List(values)) else {
        return Err("no memory".into());
    };
    Ok(Value::Ref(at))
}

fn check_shown(
    rt: &impl Abort,
    alloc: Global,
    heap: &Heap,
    value: &Value,
    inside: bool,
    bytes: &[u8],
) -> Result<(), Fail> {
    let shown = show_value(alloc, heap, value, inside)?;
    assert_eq!(rt; shown.as_slice(), bytes);
    Ok(())
}

#[test]
fn texts_are_quoted_inside(rt: HostRuntime) -> Result<(), Fail> {
    let heap = Heap::new(rt.alloc())?;
    for (bytes, quoted) in [
        (b"a".as_slice(), b"'a'".as_slice()),
        (b"", b"''"),
        (b"it's", b"\"it's\""),
        (b"say \"hi\"", b"'say \"hi\"'"),
        (b"'\"", b"'\\'\"'"),
        (b"a\\b\n\r\t", b"'a\\\\b\\n\\r\\t'"),
        (b"\x00\x1f\x7f~", b"'\\x00\\x1f\\x7f~'"),
    ] {
        let value = Value::Text(text(rt.alloc(), bytes)?);
        check_shown(&rt, rt.alloc(), &heap, &value, true, quoted)?;
        check_shown(&rt, rt.alloc(), &heap, &value, false, bytes)?;
    }
    Ok(())
}

/// A list of these values, and its text.
fn check_list(
    rt: &impl Abort,
    alloc: Global,
    heap: &mut Heap,
    values: Values,
    bytes: &[u8],
) -> Result<Value, Fail> {
    let value = list(heap, values)?;
    check_shown(rt, alloc, heap, &value, false, bytes)?;
    Ok(value)
}

#[test]
fn lists_are_shown(rt: HostRuntime) -> Result<(), Fail> {
    let alloc = rt.alloc();
    let mut heap = Heap::new(alloc)?;
    let _ = check_list(&rt, alloc, &mut heap, Items::new(alloc), b"[]")?;
    let number = check_list(&rt, alloc, &mut heap, one(alloc, Value::Int(1))?, b"[1]")?;
    let _ = check_list(&rt, alloc, &mut heap, one(alloc, number)?, b"[[1]]")?;
    Ok(())
}

#[test]
fn texts_in_lists_are_shown(rt: HostRuntime) -> Result<(), Fail> {
    let alloc = rt.alloc();
    let mut heap = Heap::new(alloc)?;
    let words = pair(
        alloc,
        Value::Text(text(alloc, b"a")?),
        Value::Text(text(alloc, b"it's")?),
    )?;
    let _ = check_list(&rt, alloc, &mut heap, words, b"['a', \"it's\"]")?;
    Ok(())
}

#[test]
fn tuples_are_shown(rt: HostRuntime) -> Result<(), Fail> {
    let alloc = rt.alloc();
    let heap = Heap::new(alloc)?;
    let single = Value::Tuple(one(alloc, Value::Int(-3))?);
    check_shown(&rt, alloc, &heap, &single, false, b"(-3,)")?;
    let both = Value::Tuple(pair(alloc, single, Value::Bool(true))?);
    check_shown(&rt, alloc, &heap, &both, true, b"((-3,), True)")?;
    check_shown(
        &rt,
        alloc,
        &heap,
        &both.try_clone(alloc)?,
        false,
        b"((-3,), True)",
    )
}

#[test]
fn single_values_are_shown(rt: HostRuntime) -> Result<(), Fail> {
    let alloc = rt.alloc();
    let heap = Heap::new(alloc)?;
    check_shown(
        &rt,
        alloc,
        &heap,
        &Value::Tuple(Items::new(alloc)),
        false,
        b"()",
    )?;
    check_shown(&rt, alloc, &heap, &Value::Bool(false), false, b"False")?;
    check_shown(&rt, alloc, &heap, &Value::Unit, true, b"None")
}

fn nested(alloc: Global, depth: u64) -> Result<Value, Fail> {
    let mut value = Value::Unit;
    for _ in 0..depth {
        value = Value::Tuple(one(alloc, value)?);
    }
    Ok(value)
}

fn refusal(alloc: Global, heap: &Heap, value: &Value) -> Option<ShowRefusal> {
    show_value(alloc, heap, value, false).err()
}

#[test]
fn nesting_has_a_limit(rt: HostRuntime) -> Result<(), Fail> {
    let alloc = rt.alloc();
    let heap = Heap::new(alloc)?;
    assert_eq!(rt; refusal(alloc, &heap, &nested(alloc, 1000)?), None);
    assert_eq!(rt;
        refusal(alloc, &heap, &nested(alloc, 1001)?),
        Some(ShowRefusal::TooLarge)
    );
    Ok(())
}

#[test]
fn some_values_have_no_text(rt: HostRuntime) -> Result<(), Fail> {
    let alloc = rt.alloc();
    let mut heap = Heap::new(alloc)?;
    let unset = Value::Tuple(pair(alloc, Value::Int(1), Value::Unset)?);
    assert_eq!(rt; refusal(alloc, &heap, &unset), Some(ShowRefusal::NotShown));
    let at = Ref { level: 0, place: 0 };
    assert_eq!(rt;
        refusal(alloc, &heap, &Value::Ref(at)),
        Some(ShowRefusal::NotShown)
    );
    let instance = Object::Instance {
        class: 0,
        fields: Items::new(alloc),
    };
    assert!(rt; heap.add(instance).is_ok());
    assert_eq!(rt;
        refusal(alloc, &heap, &Value::Ref(at)),
        Some(ShowRefusal::NotShown)
    );
    Ok(())
}

#[test]
fn levels_open_and_close(rt: HostRuntime) -> Result<(), Fail> {
    let alloc = rt.alloc();
    let mut heap = Heap::new(alloc)?;
    let below = list(&mut heap, Items::new(alloc))?;
    heap.enter(alloc)?;
    let above = list(&mut heap, one(alloc, below)?)?;
    check_shown(&rt, alloc, &heap, &above, false, b"[[]]")?;
    let at = Ref { level: 1, place: 0 };
    assert!(rt; heap.get(at).is_some());
    assert!(rt; heap.get(Ref { level: 0, place: 1 }).is_none());
    if let Some(object) = heap.get(at) {
        assert!(rt; matches!(&object.try_clone(alloc)?, Object::List(_)));
    }
    heap.leave();
    assert!(rt; heap.get(at).is_none());
    Ok(())
}

#[test]
fn texts_grow_and_compare(rt: HostRuntime) -> Result<(), Fail> {
    let alloc = rt.alloc();
    let mut word = text(alloc, b"ab")?;
    let other = text(alloc, b"abc")?;
    assert_eq!(rt; word.compare(&other), Ordering::Less);
    assert!(rt; !word.equals(&other));
    word.append(&other)?;
    word.append_bytes(b"!")?;
    assert_eq!(rt; word.as_bytes(), b"ababc!".as_slice());
    let mut copy = word.try_clone()?;
    assert!(rt; copy.equals(&word));
    copy.push(b'?')?;
    copy.push(b'?')?;
    assert_eq!(rt; copy.as_bytes(), b"ababc!??".as_slice());
    assert_eq!(rt; word.as_bytes(), b"ababc!".as_slice());
    let shared = word.try_clone()?;
    assert_eq!(rt; word.into_bytes()?.as_slice(), b"ababc!".as_slice());
    assert_eq!(rt; shared.into_bytes()?.as_slice(), b"ababc!".as_slice());
    Ok(())
}

#[test]
fn texts_are_ascii(rt: HostRuntime) -> Result<(), Fail> {
    let alloc = rt.alloc();
    assert!(rt; Text::from_bytes(alloc, b"\x80")?.is_none());
    assert!(rt; Text::from_bytes(alloc, b"\x7f")?.is_some());
    Ok(())
}

#[test]
fn texts_are_sliced(rt: HostRuntime) -> Result<(), Fail> {
    let alloc = rt.alloc();
    let word = text(alloc, b"abcde")?;
    for (from, to, part) in [
        (1, 3, b"bc".as_slice()),
        (0, 5, b"abcde"),
        (3, 9, b"de"),
        (4, 2, b""),
        (7, 9, b""),
    ] {
        assert_eq!(rt; word.slice(alloc, from, to)?.as_bytes(), part);
    }
    Ok(())
}

#[test]
fn faults_and_endings_are_cloned(rt: HostRuntime) -> Result<(), Fail> {
    let alloc = rt.alloc();
    let fault = Fault {
        kind: FaultKind::Index,
        text: text(alloc, b"index out of range")?,
    };
    let Ending::Fault(copy) = Ending::Fault(fault.try_clone()?).try_clone()? else {
        return Err("no fault".into());
    };
    assert_eq!(rt; copy.kind, FaultKind::Index);
    assert!(rt; copy.text.equals(&fault.text));
    assert!(rt; matches!(&Ending::OutOfFuel.try_clone()?, Ending::OutOfFuel));
    Ok(())
}

#[test]
fn objects_change_in_place(rt: HostRuntime) -> Result<(), Fail> {
    let alloc = rt.alloc();
    let mut heap = Heap::new(alloc)?;
    let below = list(&mut heap, one(alloc, Value::Int(1))?)?;
    let _ = list(&mut heap, Items::new(alloc))?;
    heap.enter(alloc)?;
    match heap.object_mut(Ref { level: 0, place: 0 }) {
        Some(Object::List(values)) => values.push(Value::Int(2))?,
        _ => return Err("no list".into()),
    }
    assert!(rt; heap.object_mut(Ref { level: 0, place: 2 }).is_none());
    assert!(rt; heap.object_mut(Ref { level: 2, place: 0 }).is_none());
    let place = Unlent { heap: &heap };
    let shown = show_whole(alloc, &place, &below, false)?;
    assert_eq!(rt; shown.as_bytes(), b"[1, 2]".as_slice());
    let bytes = shown.into_bytes()?;
    assert_eq!(rt; bytes.as_slice(), b"[1, 2]".as_slice());
    Ok(())
}
