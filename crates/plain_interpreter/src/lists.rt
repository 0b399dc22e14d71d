#![tactic(auto, unfolding(meaning_rules::specs::Outcome::bind, meaning_rules::specs::Outcome::pure, meaning_rules::specs::Outcome::stop))]

ghost use Rattle.std.specs.Prelude.{◌≡◌, ◌<◌, ◌^◌, IfOk, IfSome, OnSome, Some, codes};
ghost use Rattle.codon_base.specs.declared.fault.FaultKind.TheVariants as kind;
ghost use Rattle.codon_base.specs.declared.object.Object.TheVariants.{List as Listed};
ghost use Rattle.codon_base.specs.declared.value.Value.{Value-F, out-Value};
ghost use Rattle.codon_base.specs.Levels.{object_at};
ghost use Rattle.codon_base.specs.Sequences.{sliced};
ghost use Rattle.meaning_rules.specs.Objects as spec;
ghost use Rattle.meaning_rules.specs.Iterations.{in_place};
ghost use Rattle.plain_interpreter.specs.Seen.{seen, Tells, TellsAt, TellsBy, IsFault};
ghost use Rattle.plain_interpreter.specs.Sights.{list_in, named_place};
ghost use Rattle.meaning_rules.specs.Task.{Whole};

use crate::sight::{is_lent, is_own_place};
use crate::state::{State, Stop};
use crate::variables::{fault, wrong};
use codon_base::{FaultKind, Memory, Ref, Value, Values, items_at};
use sqlite_items::Items;
use std::alloc::Global;
use value_operators::{bound_of, place_of};

/// The items of the list at an address.
#[tactic(auto, unfolding(meaning_rules::specs::Outcome::bind, meaning_rules::specs::Outcome::pure, meaning_rules::specs::Outcome::stop, meaning_rules::specs::Outcome::look, crate::specs::Seen::seen))]
pub(crate) fn list_at<'s>(alloc: Global, state: &'s State, at: Ref) -> Result<&'s [Value], Stop>
    ensures items { TellsBy list_in (spec.list_at at (seen state.now)) result state.now }
    ensures found { IfOk result (λ items. object_at (seen state.now).shared.levels at ≡ Some (Listed items.now)) }
{
    match items_at(&state.store, at) {
        Some(items) => Ok(items),
        None => Err(wrong(alloc)),
    }
}

/// The place of a list that an index names, where the iterations that run may use it.
#[tactic(auto, unfolding(meaning_rules::specs::Outcome::bind, meaning_rules::specs::Outcome::pure, meaning_rules::specs::Outcome::stop, meaning_rules::specs::Outcome::look, crate::specs::Seen::seen))]
pub(crate) fn used_place(
    alloc: Global,
    state: &State,
    at: Ref,
    size: usize,
    index: i64,
) -> Result<usize, Stop>
    ensures place { Tells (spec.used_place in_place at size index (seen state.now)) result state.now }
    ensures within { IfOk result (λ place. place < size) }
{
    let place = named_place(alloc, state, at, size, index)?;
    if !is_own_place(state.store.iterations.as_slice(), at, place) {
        return Err(other_place(alloc));
    }
    Ok(place)
}

/// The place that an index names.
#[tactic(auto, unfolding(meaning_rules::specs::Outcome::bind, meaning_rules::specs::Outcome::pure, meaning_rules::specs::Outcome::stop, meaning_rules::specs::Outcome::look, crate::specs::Seen::seen))]
fn named_place(
    alloc: Global,
    state: &State,
    at: Ref,
    size: usize,
    index: i64,
) -> Result<usize, Stop>
    ensures place { Tells (named_place at size index (seen state.now)) result state.now }
    ensures within { IfOk result (λ place. place < size) }
{
    match place_in(is_lent(state.store.iterations.as_slice(), at), size, index) {
        Some(place) => Ok(place),
        None => Err(index_fault(alloc)),
    }
}

/// The place that an index names in a list of that size. No index counts from the end of one that is lent.
fn place_in(lent: bool, size: usize, index: i64) -> Option<usize>
    ensures place { result ≡ spec.place_in lent size index }
    ensures within { IfSome result (λ place. place < size) }
{
    if lent && index < 0 {
        return None;
    }
    place_of(size, index)
}

/// Whether a list may be used as a whole.
#[tactic(auto, unfolding(meaning_rules::specs::Outcome::bind, meaning_rules::specs::Outcome::pure, meaning_rules::specs::Outcome::stop, meaning_rules::specs::Outcome::look, crate::specs::Seen::seen))]
pub(crate) fn allow_whole(alloc: Global, state: &State, at: Ref) -> Result<(), Stop>
    ensures { Tells (spec.allow in_place (Whole at) (seen state.now)) result state.now }
{
    if is_lent(state.store.iterations.as_slice(), at) {
        return Err(other_place(alloc));
    }
    Ok(())
}

/// The item of the list at an address that an index names.
pub(crate) fn item_of_list(alloc: Global, state: &State, at: Ref, index: i64) -> Result<Value, Stop>
    ensures { Tells (spec.item_of_list in_place at index (seen state.now)) result state.now }
{
    let items = list_at(alloc, state, at)?;
    let place = used_place(alloc, state, at, items.len(), index)?;
    match items.get(place) {
        Some(item) => Ok(item.try_clone(alloc)?),
        None => Err(index_fault(alloc)),
    }
}

/// The item that a loop over a list finds at a place, where there is one.
pub(crate) fn found_in_list(
    alloc: Global,
    state: &State,
    at: Ref,
    place: u64,
) -> Result<Option<Value>, Stop>
    ensures found { Tells (spec.found_by in_place place (Value-F.Ref at) (seen state.now)) result state.now }
    ensures within { IfOk result (λ found. OnSome found (place < 2 ^ 63)) }
{
    let items = list_at(alloc, state, at)?;
    if place >= items.len() as u64 {
        return Ok(None);
    }
    let v = item_of_list(alloc, state, at, place as i64)?;
    Ok(Some(v))
}

/// The place of a bound of a slice, or another where it is not written.
pub(crate) fn bounded(
    alloc: Global,
    missing: usize,
    size: usize,
    bound: &Value,
) -> Result<usize, Stop>
    ensures { (s : _) → TellsAt (spec.bounded missing size (out-Value bound.now) s) result s }
{
    match bound {
        Value::Unit => Ok(missing),
        Value::Int(index) => Ok(bound_of(size, *index)),
        _ => Err(wrong(alloc)),
    }
}

/// The items from one place to before another, as far as there are any.
pub(crate) fn part(items: &[Value], from: usize, to: usize) -> &[Value]
    ensures { result.now ≡ sliced items.now from to }
{
    let end = to.min(items.len());
    if from < end { &items[from..end] } else { &[] }
}

/// Equal values in the same order.
pub(crate) fn copied(alloc: Global, items: &[Value]) -> Result<Values, Memory>
    ensures { IfOk result (λ copy. copy ≡ items.now) }
{
    let mut copy = Items::new(alloc);
    'items: for item in items {
        copy.push(item.try_clone(alloc)?)?;
    }
    Ok(copy)
}

/// The stop where an index names no place.
pub(crate) fn index_fault(alloc: Global) -> Stop
    ensures { IsFault result kind.Index (codes "index out of range") }
{
    fault(alloc, FaultKind::Index, b"index out of range")
}

/// The stop where a list would be too large.
pub(crate) fn size_fault(alloc: Global) -> Stop
    ensures { IsFault result kind.Size (codes "size limit reached") }
{
    fault(alloc, FaultKind::Size, b"size limit reached")
}

/// The stop where an iteration uses what another one may use.
pub(crate) fn other_place(alloc: Global) -> Stop
    ensures { IsFault result kind.ParallelConflict (codes "place of another iteration") }
{
    fault(
        alloc,
        FaultKind::ParallelConflict,
        b"place of another iteration",
    )
}
