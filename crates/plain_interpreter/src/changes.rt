#![tactic(auto, unfolding(meaning_rules::specs::Outcome::bind, meaning_rules::specs::Outcome::pure, meaning_rules::specs::Outcome::stop))]

ghost use Rattle.std.specs.Prelude.{◌≡◌, ◌++◌, ◌<◌, ◌∷◌, [], ℕ, List, length, slice_set, Some};
ghost use Rattle.codon_base.specs.declared.object.Object.TheVariants.{List as Listed, Instance};
ghost use Rattle.codon_base.specs.declared.value.Value.{Value};
ghost use Rattle.codon_base.specs.Levels.{object_at, replaced};
ghost use Rattle.meaning_rules.specs.Objects as spec;
ghost use Rattle.meaning_rules.specs.Iterations.{in_place};
ghost use Rattle.plain_interpreter.specs.Seen.{seen, Tells};
ghost use Rattle.plain_interpreter.specs.Sights.{IsMade, Came};

use crate::lists::{allow_whole, copied, index_fault, list_at, size_fault};
use crate::objects::{allocate, ref_in};
use crate::state::{State, Stop};
use crate::variables::wrong;
use codon_base::{Heap, Object, Ref, Value, Values};
use std::alloc::Global;
use value_operators::{ChangeRefusal, cleared, field_set, item_popped, item_pushed, item_set};

/// How many items a list may have.
pub(crate) const SIZE_LIMIT: usize = 16_777_216;

/// What comes of a change of an object.
fn after_change(alloc: Global, change: Result<(), ChangeRefusal>) -> Result<(), Stop>
    ensures { Came change result }
{
    match change {
        Ok(()) => Ok(()),
        Err(ChangeRefusal::NotThere) => Err(wrong(alloc)),
        Err(ChangeRefusal::Memory) => Err(Stop::Memory),
    }
}

/// Puts a value in the place of an item of a list.
pub(crate) fn put_at(
    alloc: Global,
    state: &mut State,
    at: Ref,
    place: usize,
    v: Value,
) -> Result<(), Stop>
    ensures { (items : List Value) → object_at (seen state.old).shared.levels at ≡ Some (Listed items) → place < length items
        → Tells (spec.replace at (Listed (slice_set items place v)) (seen state.old)) result state.new }
{
    let change = item_set(&mut state.store.heap, at, place, v);
    after_change(alloc, change)
}

/// Gives a field of an instance a value.
pub(crate) fn set_field_at(
    alloc: Global,
    state: &mut State,
    at: Ref,
    place: usize,
    v: Value,
) -> Result<(), Stop>
    ensures { (class : ℕ) (fields : List Value) → object_at (seen state.old).shared.levels at ≡ Some (Instance class fields) → place < length fields
        → Tells (spec.replace at (Instance class (slice_set fields place v)) (seen state.old)) result state.new }
{
    let change = field_set(&mut state.store.heap, at, place, v);
    after_change(alloc, change)
}

/// Puts an item at the end of a list.
pub(crate) fn push_at(alloc: Global, state: &mut State, at: Ref, v: Value) -> Result<(), Stop>
    ensures { (items : List Value) → object_at (seen state.old).shared.levels at ≡ Some (Listed items)
        → Tells (spec.replace at (Listed (items ++ v ∷ [])) (seen state.old)) result state.new }
{
    let change = item_pushed(&mut state.store.heap, at, v);
    after_change(alloc, change)
}

/// Puts items at the end of a list.
fn append_at(alloc: Global, state: &mut State, at: Ref, more: Values) -> Result<(), Stop>
    ensures { (items : List Value) → object_at (seen state.old).shared.levels at ≡ Some (Listed items)
        → Tells (spec.replace at (Listed (items ++ more)) (seen state.old)) result state.new }
{
    let change = appended(&mut state.store.heap, at, more);
    after_change(alloc, change)
}

fn appended(heap: &mut Heap, at: Ref, more: Values) -> Result<(), ChangeRefusal>
    ensures { (items : List Value) → object_at heap.old at ≡ Some (Listed items) → IsMade result (replaced heap.old at (Listed (items ++ more))) heap.new }
{
    match heap.object_mut(at) {
        Some(object) => append_items(object, more),
        None => Err(ChangeRefusal::NotThere),
    }
}

fn append_items(object: &mut Object, more: Values) -> Result<(), ChangeRefusal>
    ensures { (items : List Value) → object.old ≡ Listed items → IsMade result (Listed (items ++ more)) object.new }
{
    match object {
        Object::List(values) => match values.append(more) {
            Ok(()) => Ok(()),
            Err(_) => Err(ChangeRefusal::Memory),
        },
        Object::Instance { .. } => Err(ChangeRefusal::NotThere),
    }
}

/// Takes all items out of a list.
fn clear_at(alloc: Global, state: &mut State, at: Ref) -> Result<(), Stop>
    ensures { (items : List Value) → object_at (seen state.old).shared.levels at ≡ Some (Listed items)
        → Tells (spec.replace at (Listed []) (seen state.old)) result state.new }
{
    let change = cleared(&mut state.store.heap, alloc, at);
    after_change(alloc, change)
}

/// The items of another list go to the end of a list.
pub(crate) fn extend(alloc: Global, state: &mut State, at: Ref, other: &Value) -> Result<(), Stop>
    ensures { Tells (spec.extend in_place at other.now (seen state.old)) result state.new }
{
    let size = list_at(alloc, state, at)?.len();
    let from = ref_in(alloc, state, other)?;
    let more = list_at(alloc, state, from)?;
    allow_whole(alloc, state, from)?;
    if size.saturating_add(more.len()) > SIZE_LIMIT {
        return Err(size_fault(alloc));
    }
    let more = copied(alloc, more)?;
    append_at(alloc, state, at, more)
}

/// Takes the last item out of a list.
pub(crate) fn pop(alloc: Global, state: &mut State, at: Ref) -> Result<Value, Stop>
    ensures { Tells (spec.pop at (seen state.old)) result state.new }
{
    let _ = list_at(alloc, state, at)?;
    match item_popped(&mut state.store.heap, at) {
        Some(v) => Ok(v),
        None => Err(index_fault(alloc)),
    }
}

/// A new list of the items of a list.
pub(crate) fn copy(alloc: Global, state: &mut State, at: Ref) -> Result<Value, Stop>
    ensures { Tells (spec.copy in_place at (seen state.old)) result state.new }
{
    let items = list_at(alloc, state, at)?;
    allow_whole(alloc, state, at)?;
    let items = copied(alloc, items)?;
    allocate(state, Object::List(items))
}

/// Takes all items out of a list, where there is one.
pub(crate) fn clear(alloc: Global, state: &mut State, at: Ref) -> Result<(), Stop>
    ensures { Tells (spec.clear at (seen state.old)) result state.new }
{
    let _ = list_at(alloc, state, at)?;
    clear_at(alloc, state, at)
}
