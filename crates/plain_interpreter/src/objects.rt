#![tactic(auto, unfolding(meaning_rules::specs::Outcome::bind, meaning_rules::specs::Outcome::pure, meaning_rules::specs::Outcome::stop))]

ghost use Rattle.std.specs.Prelude.{◌<◌, ◌^◌, IfOk, OnSome};
ghost use Rattle.codon_base.specs.declared.value.Value.{Value-F, out-Value};
ghost use Rattle.meaning_rules.specs.Objects as spec;
ghost use Rattle.meaning_rules.specs.Iterations.{in_place};
ghost use Rattle.plain_interpreter.specs.Seen.{seen, Tells, TellsAt};
ghost use Rattle.plain_interpreter.specs.Tasks.{program_of};
ghost use Rattle.value_operators.specs.Answers.{made_of};

use crate::changes::{SIZE_LIMIT, push_at, put_at, set_field_at};
use crate::fields::{allow_field, field_place, instance_at, set_value};
use crate::lists::{
    allow_whole, bounded, copied, found_in_list, index_fault, item_of_list, list_at, part,
    size_fault, used_place,
};
use crate::prepared::Prepared;
use crate::state::{State, Stop};
use crate::variables::wrong;
use codon_base::{Object, Ref, Spelling, Text, Value};
use std::alloc::Global;
use value_operators::{Made, place_of};

/// A new object on the last level of the heap.
#[tactic(auto, unfolding(meaning_rules::specs::Outcome::bind, meaning_rules::specs::Outcome::pure, meaning_rules::specs::Outcome::stop, meaning_rules::specs::Outcome::look, meaning_rules::specs::Outcome::change_levels, crate::specs::Seen::seen))]
#[inline(never)]
pub(crate) fn allocate(state: &mut State, object: Object) -> Result<Value, Stop>
    ensures { Tells (spec.allocate object (seen state.old)) result state.new }
{
    match state.store.heap.add(object) {
        Ok(at) => Ok(Value::Ref(at)),
        Err(_) => Err(Stop::Memory),
    }
}

/// What comes of what an operator made: a value, a new list or a fault.
pub(crate) fn settled(state: &mut State, made: Made) -> Result<Value, Stop>
    ensures { Tells (spec.settled (made_of made) (seen state.old)) result state.new }
{
    match made {
        Made::Value(v) => Ok(v),
        Made::List(items) => allocate(state, Object::List(items)),
        Made::Fault(fault) => Err(Stop::Faulted(fault)),
    }
}

/// `container[index]`.
#[inline(never)]
pub(crate) fn item_at(
    alloc: Global,
    state: &State,
    container: &Value,
    index: &Value,
) -> Result<Value, Stop>
    ensures { Tells (spec.item_at in_place container.now index.now (seen state.now)) result state.now }
{
    let index = int_in(alloc, state, index)?;
    match container {
        Value::Ref(at) => item_of_list(alloc, state, *at, index),
        Value::Text(text) => {
            let v = character_at(alloc, text, index)?;
            Ok(v)
        }
        Value::Tuple(items) => tuple_item(alloc, state, items.as_slice(), index),
        _ => Err(wrong(alloc)),
    }
}

/// The text of the character that an index names.
fn character_at(alloc: Global, text: &Text, index: i64) -> Result<Value, Stop>
    ensures { (s : _) → TellsAt (spec.indexed_by in_place (Value-F.Text text.now) index s) result s }
{
    match place_of(text.len(), index) {
        Some(place) => Ok(Value::Text(text.slice(alloc, place, place + 1)?)),
        None => Err(index_fault(alloc)),
    }
}

/// The item of a tuple that an index names.
fn tuple_item(alloc: Global, state: &State, items: &[Value], index: i64) -> Result<Value, Stop>
    ensures { Tells (spec.indexed_by in_place (Value-F.Tuple items.now) index (seen state.now)) result state.now }
{
    let Some(place) = place_of(items.len(), index) else {
        return Err(index_fault(alloc));
    };
    match items.get(place) {
        Some(item) => Ok(item.try_clone(alloc)?),
        None => Err(index_fault(alloc)),
    }
}

/// `container[index] = v`.
pub(crate) fn put(
    alloc: Global,
    state: &mut State,
    container: &Value,
    index: &Value,
    v: Value,
) -> Result<(), Stop>
    ensures { Tells (spec.put in_place container.now index.now v (seen state.old)) result state.new }
{
    let at = ref_in(alloc, state, container)?;
    let size = list_at(alloc, state, at)?.len();
    let index = int_in(alloc, state, index)?;
    let place = used_place(alloc, state, at, size, index)?;
    put_at(alloc, state, at, place, v)
}

/// The item that a loop over a list or a text finds at a place, where there is one.
pub(crate) fn found_at(
    alloc: Global,
    state: &State,
    container: &Value,
    place: u64,
) -> Result<Option<Value>, Stop>
    ensures found { Tells (spec.found_at in_place container.now place (seen state.now)) result state.now }
    ensures within { IfOk result (λ found. OnSome found (place < 2 ^ 63)) }
{
    match container {
        Value::Ref(at) => found_in_list(alloc, state, *at, place),
        Value::Text(text) => found_in_text(alloc, state, text, place),
        _ => Err(wrong(alloc)),
    }
}

/// The text of the character at a place, where there is one.
fn found_in_text(
    alloc: Global,
    state: &State,
    text: &Text,
    place: u64,
) -> Result<Option<Value>, Stop>
    ensures found { Tells (spec.found_by in_place place (Value-F.Text text.now) (seen state.now)) result state.now }
    ensures within { IfOk result (λ found. OnSome found (place < 2 ^ 63)) }
{
    if place >= text.as_bytes().len() as u64 {
        return Ok(None);
    }
    let place = place as usize;
    let character = text.slice(alloc, place, place + 1)?;
    Ok(Some(Value::Text(character)))
}

/// `v[from:to]`.
#[inline(never)]
pub(crate) fn slice(
    alloc: Global,
    state: &mut State,
    v: &Value,
    from: &Value,
    to: &Value,
) -> Result<Value, Stop>
    ensures { Tells (spec.slice in_place (out-Value v.now) from.now to.now (seen state.old)) result state.new }
{
    match v {
        Value::Text(text) => {
            let v = text_part(alloc, text, from, to)?;
            Ok(v)
        }
        Value::Ref(at) => list_part(alloc, state, *at, from, to),
        _ => Err(wrong(alloc)),
    }
}

/// A part of a text.
fn text_part(alloc: Global, text: &Text, from: &Value, to: &Value) -> Result<Value, Stop>
    ensures { (s : _) → TellsAt (spec.slice in_place (Value-F.Text text.now) from.now to.now s) result s }
{
    let start = bounded(alloc, 0, text.len(), from)?;
    let stop = bounded(alloc, text.len(), text.len(), to)?;
    Ok(Value::Text(text.slice(alloc, start, stop)?))
}

/// A part of a list.
fn list_part(
    alloc: Global,
    state: &mut State,
    at: Ref,
    from: &Value,
    to: &Value,
) -> Result<Value, Stop>
    ensures { Tells (spec.slice in_place (Value-F.Ref at) from.now to.now (seen state.old)) result state.new }
{
    let items = list_at(alloc, state, at)?;
    let start = bounded(alloc, 0, items.len(), from)?;
    let stop = bounded(alloc, items.len(), items.len(), to)?;
    allow_whole(alloc, state, at)?;
    let items = copied(alloc, part(items, start, stop))?;
    allocate(state, Object::List(items))
}

/// Puts an item at the end of a list.
#[inline(never)]
pub(crate) fn append(alloc: Global, state: &mut State, at: Ref, v: Value) -> Result<(), Stop>
    ensures { Tells (spec.append at v (seen state.old)) result state.new }
{
    let size = list_at(alloc, state, at)?.len();
    if size >= SIZE_LIMIT {
        return Err(size_fault(alloc));
    }
    push_at(alloc, state, at, v)
}

/// `v.name`.
#[inline(never)]
pub(crate) fn field(
    alloc: Global,
    state: &State,
    program: &Prepared<'_>,
    v: &Value,
    name: &Spelling,
) -> Result<Value, Stop>
    ensures { Tells (spec.field (program_of program.now) v.now name.now (seen state.now)) result state.now }
{
    let at = ref_in(alloc, state, v)?;
    let instance = instance_at(alloc, state, at)?;
    let place = field_place(alloc, program, instance.class, name)?;
    let v = set_value(alloc, instance.fields, place)?;
    Ok(v)
}

/// `v.name = new`.
pub(crate) fn set_field(
    alloc: Global,
    state: &mut State,
    program: &Prepared<'_>,
    v: &Value,
    name: &Spelling,
    new: Value,
) -> Result<(), Stop>
    ensures { Tells (spec.set_field (program_of program.now) in_place v.now name.now new (seen state.old)) result state.new }
{
    let at = ref_in(alloc, state, v)?;
    let instance = instance_at(alloc, state, at)?;
    let place = field_place(alloc, program, instance.class, name)?;
    let Some(_) = instance.fields.get(place) else {
        return Err(wrong(alloc));
    };
    allow_field(alloc, state, at, place)?;
    set_field_at(alloc, state, at, place, new)
}

/// The address in a value.
#[inline(never)]
pub(crate) fn ref_in(alloc: Global, state: &State, v: &Value) -> Result<Ref, Stop>
    ensures { Tells (spec.ref_in (out-Value v.now) (seen state.now)) result state.now }
{
    match v {
        Value::Ref(at) => Ok(*at),
        _ => Err(wrong(alloc)),
    }
}

/// The number in a value.
pub(crate) fn int_in(alloc: Global, state: &State, v: &Value) -> Result<i64, Stop>
    ensures { Tells (spec.int_in (out-Value v.now) (seen state.now)) result state.now }
{
    match v {
        Value::Int(number) => Ok(*number),
        _ => Err(wrong(alloc)),
    }
}
