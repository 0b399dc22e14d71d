use crate::*;
use codon_base::{Heap, Holder, Object, Ref, Sighted, Text, Unlent, Value, Values};
use sqlite_items::Items;
use std::alloc::Global;
use std::process::Abort;
use std::test::Fail;

/// A heap of which each list is lent.
#[derive(Drop)]
struct Lending<'a> {
    heap: &'a Heap,
}

impl Sighted for Lending<'_> {
    ghost use Rattle.std.specs.Prelude.{true};

    ghost sight = { λ place. record { levels = place.heap.now; lent = λ at. true } };

    fn object(&self, at: Ref) -> Option<&Object> {
        self.heap.get(at)
    }

    fn is_lent(&self, _at: Ref) -> bool {
        true
    }
}

fn text(alloc: Global, bytes: &[u8]) -> Result<Value, Fail> {
    match Text::from_bytes(alloc, bytes)? {
        Some(text) => Ok(Value::Text(text)),
        None => Err("not ASCII".into()),
    }
}

fn ints(alloc: Global, numbers: &[i64]) -> Result<Values, Fail> {
    let mut values = Items::new(alloc);
    for number in numbers {
        values.push(Value::Int(*number))?;
    }
    Ok(values)
}

fn list(heap: &mut Heap, values: Values) -> Result<Value, Fail> {
    match heap.add(Object::List(values)) {
        Ok(at) => Ok(Value::Ref(at)),
        Err(_) => Err("no memory".into()),
    }
}

/// The text that was made, or that of the fault.
fn text_made(made: Made) -> Result<Text, Fail> {
    match made {
        Made::Value(Value::Text(text)) => Ok(text),
        Made::Fault(fault) => Ok(fault.text),
        _ => Err("no text".into()),
    }
}

/// What was made, as it is printed: a value, a new list, or the text of a fault.
fn printed(alloc: Global, heap: &mut Heap, made: Made) -> Result<Text, Fail> {
    let value = match made {
        Made::Fault(fault) => return Ok(fault.text),
        Made::Value(value) => value,
        Made::List(values) => list(heap, values)?,
    };
    let place = Unlent { heap: &*heap };
    text_made(text_from(alloc, &place, &value)?)
}

fn check(
    rt: &impl Abort,
    alloc: Global,
    heap: &mut Heap,
    made: Made,
    expected: &[u8],
) -> Result<(), Fail> {
    let text = printed(alloc, heap, made)?;
    assert_eq!(rt; text.as_bytes(), expected);
    Ok(())
}

/// The same of what needs no heap.
fn check_made(rt: &(impl Abort + AllocGlobal), made: Made, expected: &[u8]) -> Result<(), Fail> {
    let mut heap = Heap::new(rt.alloc())?;
    check(rt, rt.alloc(), &mut heap, made, expected)
}

fn check_sums(
    rt: &(impl Abort + AllocGlobal),
    a: i64,
    b: i64,
    expected: [&[u8]; 5],
) -> Result<(), Fail> {
    let alloc = rt.alloc();
    let (v, w) = (Value::Int(a), Value::Int(b));
    check_made(rt, minus(alloc, &v, &w)?, expected[0])?;
    check_made(rt, floor_divided(alloc, &v, &w)?, expected[1])?;
    check_made(rt, modulo(alloc, &v, &w)?, expected[2])?;
    check_made(rt, to_the_power(alloc, &v, &w)?, expected[3])?;
    check_made(rt, shifted_left(alloc, &v, &w)?, expected[4])
}

fn check_bits(
    rt: &(impl Abort + AllocGlobal),
    a: i64,
    b: i64,
    expected: [&[u8]; 4],
) -> Result<(), Fail> {
    let alloc = rt.alloc();
    let (v, w) = (Value::Int(a), Value::Int(b));
    check_made(rt, shifted_right(alloc, &v, &w)?, expected[0])?;
    check_made(rt, bits_and(alloc, &v, &w)?, expected[1])?;
    check_made(rt, bits_or(alloc, &v, &w)?, expected[2])?;
    check_made(rt, bits_xor(alloc, &v, &w)?, expected[3])
}

#[test]
fn numbers_are_computed(rt: HostRuntime) -> Result<(), Fail> {
    check_sums(
        &rt,
        7,
        -2,
        [
            b"9".as_slice(),
            b"-4",
            b"-1",
            b"negative exponent",
            b"negative shift",
        ],
    )?;
    check_bits(
        &rt,
        7,
        -2,
        [b"negative shift".as_slice(), b"6", b"-1", b"-7"],
    )?;
    check_sums(&rt, -7, 2, [b"-9".as_slice(), b"-4", b"1", b"49", b"-28"])?;
    check_bits(&rt, -7, 2, [b"-2".as_slice(), b"0", b"-5", b"-5"])?;
    check_sums(
        &rt,
        i64::MIN,
        -1,
        [
            b"-9223372036854775807".as_slice(),
            b"-9223372036854775808",
            b"0",
            b"negative exponent",
            b"negative shift",
        ],
    )?;
    check_bits(
        &rt,
        i64::MIN,
        -1,
        [
            b"negative shift".as_slice(),
            b"-9223372036854775808",
            b"-1",
            b"9223372036854775807",
        ],
    )?;
    check_sums(
        &rt,
        5,
        0,
        [
            b"5".as_slice(),
            b"division by zero",
            b"division by zero",
            b"1",
            b"5",
        ],
    )?;
    check_bits(&rt, 5, 0, [b"5".as_slice(), b"0", b"5", b"5"])?;
    check_sums(
        &rt,
        3,
        70,
        [b"-67".as_slice(), b"0", b"3", b"2293070008301402073", b"0"],
    )?;
    check_bits(&rt, 3, 70, [b"0".as_slice(), b"2", b"71", b"69"])?;
    Ok(())
}

#[test]
fn signs_and_truth(rt: HostRuntime) -> Result<(), Fail> {
    let alloc = rt.alloc();
    let heap = Heap::new(alloc)?;
    let place = Unlent { heap: &heap };
    for (number, negated_text, complement, truth_text, not) in [
        (
            5,
            b"-5".as_slice(),
            b"-6".as_slice(),
            b"True".as_slice(),
            b"False".as_slice(),
        ),
        (0, b"0", b"-1", b"False", b"True"),
        (
            i64::MIN,
            b"-9223372036854775808",
            b"9223372036854775807",
            b"True",
            b"False",
        ),
    ] {
        let v = Value::Int(number);
        check_made(&rt, negated(alloc, &v)?, negated_text)?;
        check_made(&rt, complemented(alloc, &v)?, complement)?;
        check_made(&rt, truth(alloc, &place, &v)?, truth_text)?;
        check_made(&rt, negation(alloc, &place, &v)?, not)?;
        check_made(
            &rt,
            unchanged(alloc, &v)?,
            text_made(text_from(alloc, &place, &v)?)?.as_bytes(),
        )?;
    }
    check_made(&rt, negated(alloc, &Value::Bool(true))?, b"wrong kind")?;
    assert_eq!(rt; truth_of(&place, &Value::Unit), None);
    Ok(())
}

#[test]
fn texts_are_read(rt: HostRuntime) -> Result<(), Fail> {
    let alloc = rt.alloc();
    for (bytes, number, code) in [
        (
            b"-9223372036854775808".as_slice(),
            b"-9223372036854775808".as_slice(),
            b"ord needs one character".as_slice(),
        ),
        (
            b"9223372036854775808",
            b"not a number",
            b"ord needs one character",
        ),
        (b"+0042", b"42", b"ord needs one character"),
        (
            b"99999999999999999999999",
            b"not a number",
            b"ord needs one character",
        ),
        (b"7", b"7", b"55"),
        (b"-", b"not a number", b"45"),
        (b"", b"not a number", b"ord needs one character"),
    ] {
        let v = text(alloc, bytes)?;
        check_made(&rt, int_from(alloc, &v)?, number)?;
        check_made(&rt, code_of(alloc, &v)?, code)?;
    }
    check_made(&rt, int_from(alloc, &Value::Bool(true))?, b"1")?;
    check_made(&rt, character_from(alloc, &Value::Int(65))?, b"A")?;
    check_made(
        &rt,
        character_from(alloc, &Value::Int(128))?,
        b"character code out of range",
    )
}

fn check_texts(
    rt: &(impl Abort + AllocGlobal),
    left: &[u8],
    right: &[u8],
    expected: [&[u8]; 5],
) -> Result<(), Fail> {
    let alloc = rt.alloc();
    let heap = Heap::new(alloc)?;
    let place = Unlent { heap: &heap };
    let (v, w) = (text(alloc, left)?, text(alloc, right)?);
    check_made(rt, plus(alloc, &place, &v, &w)?, expected[0])?;
    check_made(rt, less(alloc, &v, &w)?, expected[1])?;
    check_made(rt, greater_equal(alloc, &v, &w)?, expected[2])?;
    check_made(rt, is_in(alloc, &place, &v, &w)?, expected[3])?;
    check_made(rt, greatest(alloc, &v, &w)?, expected[4])
}

#[test]
fn texts_are_compared(rt: HostRuntime) -> Result<(), Fail> {
    check_texts(
        &rt,
        b"ab",
        b"cabd",
        [b"abcabd".as_slice(), b"True", b"False", b"True", b"cabd"],
    )?;
    check_texts(
        &rt,
        b"b",
        b"abc",
        [b"babc".as_slice(), b"False", b"True", b"True", b"b"],
    )?;
    check_texts(
        &rt,
        b"",
        b"",
        [b"".as_slice(), b"False", b"True", b"True", b""],
    )?;
    check_texts(
        &rt,
        b"aab",
        b"aaab",
        [b"aabaaab".as_slice(), b"False", b"True", b"True", b"aab"],
    )?;
    check_texts(
        &rt,
        b"ba",
        b"abba!",
        [b"baabba!".as_slice(), b"False", b"True", b"True", b"ba"],
    )?;
    check_texts(
        &rt,
        b"abc",
        b"ab",
        [b"abcab".as_slice(), b"False", b"True", b"False", b"abc"],
    )
}

#[test]
fn ints_are_ordered(rt: HostRuntime) -> Result<(), Fail> {
    let alloc = rt.alloc();
    let (v, w) = (Value::Int(-3), Value::Int(2));
    check_made(&rt, less_equal(alloc, &v, &w)?, b"True")?;
    check_made(&rt, greater(alloc, &v, &w)?, b"False")?;
    check_made(&rt, least(alloc, &v, &w)?, b"-3")?;
    check_made(&rt, less(alloc, &v, &Value::Bool(true))?, b"wrong kind")
}

fn check_slice(
    rt: &(impl Abort + AllocGlobal),
    from: &Value,
    to: &Value,
    of_text: &[u8],
    of_list: &[u8],
) -> Result<(), Fail> {
    let alloc = rt.alloc();
    let mut heap = Heap::new(alloc)?;
    let word = text(alloc, b"abcde")?;
    let numbers = list(&mut heap, ints(alloc, &[1, 2, 3, 4, 5])?)?;
    let made = sliced(alloc, &Unlent { heap: &heap }, &word, from, to)?;
    check(rt, alloc, &mut heap, made, of_text)?;
    let made = sliced(alloc, &Unlent { heap: &heap }, &numbers, from, to)?;
    check(rt, alloc, &mut heap, made, of_list)
}

#[test]
fn slices_are_clamped(rt: HostRuntime) -> Result<(), Fail> {
    let end = Value::Unit;
    check_slice(&rt, &Value::Int(1), &Value::Int(3), b"bc", b"[2, 3]")?;
    check_slice(
        &rt,
        &Value::Int(-9),
        &Value::Int(99),
        b"abcde",
        b"[1, 2, 3, 4, 5]",
    )?;
    check_slice(&rt, &Value::Int(-2), &end, b"de", b"[4, 5]")?;
    check_slice(&rt, &end, &Value::Int(-4), b"a", b"[1]")?;
    check_slice(&rt, &Value::Int(4), &Value::Int(1), b"", b"[]")?;
    check_slice(&rt, &Value::Bool(true), &end, b"wrong kind", b"wrong kind")
}

fn check_index(
    rt: &(impl Abort + AllocGlobal),
    index: i64,
    of_text: &[u8],
    of_list: &[u8],
) -> Result<(), Fail> {
    let alloc = rt.alloc();
    let mut heap = Heap::new(alloc)?;
    let word = text(alloc, b"abc")?;
    let numbers = list(&mut heap, ints(alloc, &[1, 2, 3])?)?;
    let made = indexed(alloc, &Unlent { heap: &heap }, &word, &Value::Int(index))?;
    check(rt, alloc, &mut heap, made, of_text)?;
    let made = indexed(alloc, &Unlent { heap: &heap }, &numbers, &Value::Int(index))?;
    check(rt, alloc, &mut heap, made, of_list)
}

#[test]
fn items_are_indexed(rt: HostRuntime) -> Result<(), Fail> {
    check_index(&rt, 0, b"a", b"1")?;
    check_index(&rt, -1, b"c", b"3")?;
    check_index(&rt, -3, b"a", b"1")?;
    check_index(&rt, 3, b"index out of range", b"index out of range")?;
    check_index(&rt, -4, b"index out of range", b"index out of range")?;
    let pair = Value::Tuple(ints(rt.alloc(), &[8, 9])?);
    check_made(&rt, tuple_item(rt.alloc(), &pair, 1)?, b"9")
}

fn check_times(
    rt: &(impl Abort + AllocGlobal),
    word: &[u8],
    numbers: &[i64],
    count: i64,
    expected: [&[u8]; 2],
) -> Result<(), Fail> {
    let alloc = rt.alloc();
    let mut heap = Heap::new(alloc)?;
    let word = text(alloc, word)?;
    let numbers = list(&mut heap, ints(alloc, numbers)?)?;
    let made = times(alloc, &Unlent { heap: &heap }, &word, &Value::Int(count))?;
    check(rt, alloc, &mut heap, made, expected[0])?;
    let made = times(alloc, &Unlent { heap: &heap }, &numbers, &Value::Int(count))?;
    check(rt, alloc, &mut heap, made, expected[1])
}

#[test]
fn sizes_are_limited(rt: HostRuntime) -> Result<(), Fail> {
    let large = b"size limit reached".as_slice();
    check_times(
        &rt,
        b"ab",
        &[1, 2],
        2,
        [b"abab".as_slice(), b"[1, 2, 1, 2]"],
    )?;
    check_times(&rt, b"ab", &[1, 2], 8_388_609, [large, large])?;
    check_times(&rt, b"", &[], i64::MAX, [b"".as_slice(), b"[]"])?;
    check_times(&rt, b"ab", &[1, 2], i64::MAX, [large, large])?;
    check_times(&rt, b"ab", &[1, 2], -1, [b"".as_slice(), b"[]"])
}

/// The lists [[1], [2]] and [[1], [3]] on a heap.
fn nested_lists(alloc: Global, heap: &mut Heap) -> Result<(Value, Value), Fail> {
    let mut left = Items::new(alloc);
    left.push(list(heap, ints(alloc, &[1])?)?)?;
    left.push(list(heap, ints(alloc, &[2])?)?)?;
    let mut right = Items::new(alloc);
    right.push(list(heap, ints(alloc, &[1])?)?)?;
    right.push(list(heap, ints(alloc, &[3])?)?)?;
    let left = list(heap, left)?;
    Ok((left, list(heap, right)?))
}

fn check_lists<S: Sighted>(
    rt: &(impl Abort + AllocGlobal),
    place: &S,
    v: &Value,
    w: &Value,
    expected: [&[u8]; 4],
) -> Result<(), Fail> {
    let alloc = rt.alloc();
    check_made(rt, is_equal(alloc, place, v, w)?, expected[0])?;
    check_made(rt, is_unequal(alloc, place, v, w)?, expected[1])?;
    check_made(rt, is_in(alloc, place, v, w)?, expected[2])?;
    check_made(rt, is_not_in(alloc, place, v, w)?, expected[3])
}

#[test]
fn lists_are_compared(rt: HostRuntime) -> Result<(), Fail> {
    let alloc = rt.alloc();
    let mut heap = Heap::new(alloc)?;
    let (left, right) = nested_lists(alloc, &mut heap)?;
    let two = list(&mut heap, ints(alloc, &[2])?)?;
    let longer = list(&mut heap, ints(alloc, &[1, 2])?)?;
    let place = Unlent { heap: &heap };
    let no = b"wrong kind".as_slice();
    check_lists(
        &rt,
        &place,
        &left,
        &right,
        [b"False".as_slice(), b"True", b"False", b"True"],
    )?;
    check_lists(
        &rt,
        &place,
        &two,
        &left,
        [b"False".as_slice(), b"True", b"True", b"False"],
    )?;
    check_lists(
        &rt,
        &place,
        &two,
        &right,
        [b"False".as_slice(), b"True", b"False", b"True"],
    )?;
    check_lists(
        &rt,
        &place,
        &two,
        &longer,
        [b"False".as_slice(), b"True", no, no],
    )
}

#[test]
fn lent_lists_are_conflicts(rt: HostRuntime) -> Result<(), Fail> {
    let alloc = rt.alloc();
    let mut heap = Heap::new(alloc)?;
    let numbers = list(&mut heap, ints(alloc, &[4, 2, 9])?)?;
    let open = Unlent { heap: &heap };
    check_made(&rt, least_item(alloc, &open, &numbers)?, b"2")?;
    check_made(&rt, greatest_item(alloc, &open, &numbers)?, b"9")?;
    let lent = Lending { heap: &heap };
    let conflict = b"place of another iteration".as_slice();
    check_made(&rt, length_of(alloc, &lent, &numbers)?, b"3")?;
    check_made(&rt, least_item(alloc, &lent, &numbers)?, conflict)?;
    check_made(&rt, plus(alloc, &lent, &numbers, &numbers)?, conflict)?;
    check_made(&rt, text_from(alloc, &lent, &numbers)?, conflict)
}

/// How a list is printed.
fn check_list(
    rt: &(impl Abort + AllocGlobal),
    heap: &Heap,
    at: Ref,
    expected: &[u8],
) -> Result<(), Fail> {
    let shown = text_made(text_from(rt.alloc(), &Unlent { heap }, &Value::Ref(at))?)?;
    assert_eq!(rt; shown.as_bytes(), expected);
    Ok(())
}

fn changes(change: Result<(), ChangeRefusal>) -> Result<(), Fail> {
    match change {
        Ok(()) => Ok(()),
        Err(_) => Err("not changed".into()),
    }
}

#[test]
fn lists_change_in_place(rt: HostRuntime) -> Result<(), Fail> {
    let alloc = rt.alloc();
    let mut heap = Heap::new(alloc)?;
    let _ = list(&mut heap, ints(alloc, &[1, 2])?)?;
    let at = Ref { level: 0, place: 0 };
    changes(item_pushed(&mut heap, at, Value::Int(3)))?;
    changes(item_set(&mut heap, at, 0, Value::Int(7)))?;
    check_list(&rt, &heap, at, b"[7, 2, 3]")?;
    let more = ints(alloc, &[5, 6])?;
    changes(extended(&mut heap, alloc, at, more.as_slice()))?;
    assert!(rt; matches!(item_popped(&mut heap, at), Some(Value::Int(6))));
    check_list(&rt, &heap, at, b"[7, 2, 3, 5]")?;
    assert_eq!(rt;
        item_set(&mut heap, at, 4, Value::Unit),
        Err(ChangeRefusal::NotThere)
    );
    changes(cleared(&mut heap, alloc, at))?;
    assert!(rt; item_popped(&mut heap, at).is_none());
    check_list(&rt, &heap, at, b"[]")
}

#[test]
fn fields_are_set(rt: HostRuntime) -> Result<(), Fail> {
    let alloc = rt.alloc();
    let mut heap = Heap::new(alloc)?;
    let fields = ints(alloc, &[1, 2])?;
    assert!(rt; heap.add(Object::Instance { class: 3, fields }).is_ok());
    let at = Ref { level: 0, place: 0 };
    changes(field_set(&mut heap, at, 1, Value::Int(9)))?;
    assert_eq!(rt;
        item_pushed(&mut heap, at, Value::Unit),
        Err(ChangeRefusal::NotThere)
    );
    match heap.get(at) {
        Some(Object::Instance { class, fields }) => {
            assert_eq!(rt; *class, 3);
            assert!(rt; matches!(fields.get(1), Some(Value::Int(9))));
            Ok(())
        }
        _ => Err("no instance".into()),
    }
}
