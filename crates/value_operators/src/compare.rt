ghost use Rattle.std.specs.Prelude.{◌≡◌, length};
ghost use Rattle.codon_base.specs.declared.value.Value.{out-Value};
ghost use Rattle.codon_base.specs.Compared.{equal, member, equal_met, all_equal, tuples_equal, lists_equal, both_found};
ghost use Rattle.codon_base.specs.Operators.{whole, is_equal, is_unequal};
ghost use Rattle.value_operators.specs.Answers.{Judges, Makes};
ghost use Rattle.value_operators.specs.Comparing.{items_equal};

use crate::Made;
use crate::made::{bool_made, walk_fault};
use codon_base::{Memory, NESTING_LIMIT, Ref, Sighted, VALUE_LIMIT, Value, WalkEnd, whole_items};
use std::alloc::Global;

/// `v == w` (Python reference, 6.10.1): by value, lists and tuples item by item.
pub fn is_equal<S: Sighted>(alloc: Global, sight: &S, v: &Value, w: &Value) -> Result<Made, Memory>
    ensures { Makes result (is_equal (S.sight sight.now) v.now w.now) }
{
    let mut met = 0;
    match equal_one(sight, v, w, NESTING_LIMIT, &mut met) {
        Ok(same) => Ok(bool_made(same)),
        Err(end) => walk_fault(alloc, end),
    }
}

/// `v != w` (6.10.1).
pub fn is_unequal<S: Sighted>(
    alloc: Global,
    sight: &S,
    v: &Value,
    w: &Value,
) -> Result<Made, Memory>
    ensures { Makes result (is_unequal (S.sight sight.now) v.now w.now) }
{
    let mut met = 0;
    match equal_one(sight, v, w, NESTING_LIMIT, &mut met) {
        Ok(same) => Ok(bool_made(!same)),
        Err(end) => walk_fault(alloc, end),
    }
}

/// Whether a value is equal to some item. The list of the items is neither counted nor entered.
pub(crate) fn is_member<S: Sighted>(
    sight: &S,
    v: &Value,
    items: &[Value],
    met: &mut u32,
) -> Result<bool, WalkEnd>
    ensures { Judges result (member (whole (S.sight sight.now)) v.now items.now met.old) met.new }
{
    'member: for item in items {
        if equal_one(sight, v, item, NESTING_LIMIT, met)? {
            return Ok(true);
        }
    }
    Ok(false)
}

/// Walks a pair of values, where `room` more lists and tuples may be entered one inside the other.
#[cycle(compare)]
fn equal_one<S: Sighted>(
    sight: &S,
    v: &Value,
    w: &Value,
    room: u32,
    met: &mut u32,
) -> Result<bool, WalkEnd>
    ensures { Judges result (equal (whole (S.sight sight.now)) room v.now w.now met.old) met.new }
{
    if *met >= VALUE_LIMIT {
        return Err(WalkEnd::TooLarge);
    }
    *met += 1;
    equal_met(sight, v, w, room, met)
}

/// Goes on with a pair that was met.
#[cycle(compare)]
fn equal_met<S: Sighted>(
    sight: &S,
    v: &Value,
    w: &Value,
    room: u32,
    met: &mut u32,
) -> Result<bool, WalkEnd>
    ensures { let look = whole (S.sight sight.now) in
        Judges result (equal_met (items_equal look room) look (out-Value v.now) (out-Value w.now) met.old) met.new }
{
    match (v, w) {
        (Value::Int(a), Value::Int(b)) => Ok(*a == *b),
        (Value::Bool(a), Value::Bool(b)) => Ok(*a == *b),
        (Value::Text(t), Value::Text(u)) => Ok(t.equals(u)),
        (Value::Unit, Value::Unit) => Ok(true),
        (Value::Tuple(vs), Value::Tuple(ws)) => {
            equal_tuples(sight, vs.as_slice(), ws.as_slice(), room, met)
        }
        (Value::Ref(a), Value::Ref(b)) => equal_lists(sight, *a, *b, room, met),
        _ => Err(WalkEnd::WrongKind),
    }
}

/// Tuples of different length are not of one type.
#[cycle(compare)]
fn equal_tuples<S: Sighted>(
    sight: &S,
    vs: &[Value],
    ws: &[Value],
    room: u32,
    met: &mut u32,
) -> Result<bool, WalkEnd>
    ensures { Judges result (tuples_equal (items_equal (whole (S.sight sight.now)) room) vs.now ws.now met.old) met.new }
{
    if vs.len() != ws.len() {
        return Err(WalkEnd::WrongKind);
    }
    equal_items(sight, vs, ws, room, met)
}

#[cycle(compare)]
fn equal_lists<S: Sighted>(
    sight: &S,
    a: Ref,
    b: Ref,
    room: u32,
    met: &mut u32,
) -> Result<bool, WalkEnd>
    ensures { let look = whole (S.sight sight.now) in
        Judges result (both_found (look a) (look b) (lists_equal (items_equal look room)) met.old) met.new }
{
    match (whole_items(sight, a), whole_items(sight, b)) {
        (Ok(vs), Ok(ws)) => equal_found(sight, vs, ws, room, met),
        (Err(WalkEnd::WrongKind), _) => Err(WalkEnd::WrongKind),
        (_, Err(WalkEnd::WrongKind)) => Err(WalkEnd::WrongKind),
        (Err(end), _) => Err(end),
        (Ok(_), Err(end)) => Err(end),
    }
}

/// Lists of different length are different before they are entered.
#[cycle(compare)]
fn equal_found<S: Sighted>(
    sight: &S,
    vs: &[Value],
    ws: &[Value],
    room: u32,
    met: &mut u32,
) -> Result<bool, WalkEnd>
    ensures { Judges result (lists_equal (items_equal (whole (S.sight sight.now)) room) vs.now ws.now met.old) met.new }
{
    if vs.len() != ws.len() {
        return Ok(false);
    }
    equal_items(sight, vs, ws, room, met)
}

/// Walks the items of two lists or tuples of one length, where they may be entered.
#[cycle(compare)]
fn equal_items<S: Sighted>(
    sight: &S,
    vs: &[Value],
    ws: &[Value],
    room: u32,
    met: &mut u32,
) -> Result<bool, WalkEnd>
    requires { length vs.now ≡ length ws.now }
    ensures { Judges result (items_equal (whole (S.sight sight.now)) room vs.now ws.now met.old) met.new }
{
    if room == 0 {
        return Err(WalkEnd::TooLarge);
    }
    equal_all(sight, vs, ws, room - 1, met)
}

/// Walks the pairs of two lists of items, in order, up to the first that differs.
#[cycle(compare)]
fn equal_all<S: Sighted>(
    sight: &S,
    vs: &[Value],
    ws: &[Value],
    room: u32,
    met: &mut u32,
) -> Result<bool, WalkEnd>
    requires { length vs.now ≡ length ws.now }
    ensures { Judges result (all_equal (equal (whole (S.sight sight.now)) room) vs.now ws.now met.old) met.new }
{
    'items: for (place, v) in vs.iter().enumerate() {
        if !equal_one(sight, v, &ws[place], room, met)? {
            return Ok(false);
        }
    }
    Ok(true)
}
