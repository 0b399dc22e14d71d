ghost use Rattle.std.specs.Prelude.{◌≡◌, ◌<◌, ◌∷◌, [], option_map, IfSome};
ghost use Rattle.std.specs.Option.{option_copied};
ghost use Rattle.codon_base.specs.declared.value.Value.{Value-F, out-Value};
ghost use Rattle.codon_base.specs.declared.value.Value.TheVariants as value;
ghost use Rattle.codon_base.specs.Sequences.{place_of};
ghost use Rattle.codon_base.specs.Parts.{item_at, item_made, indexed, tuple_item};
ghost use Rattle.value_operators.specs.Answers.{Makes};

use crate::Made;
use crate::made::{fault, wrong};
use codon_base::{FaultKind, Memory, Ref, Sighted, Text, Value, items_at};
use std::alloc::Global;

/// The place that an index names in a sequence of that length, or `None` where it is out of range. A negative index counts from the end.
pub fn place_of(size: usize, index: i64) -> Option<usize>
    ensures value { result ≡ place_of size index }
    ensures within { IfSome result (λ place. place < size) }
{
    if index >= 0 {
        let place = index as u64;
        if place < size as u64 {
            Some(place as usize)
        } else {
            None
        }
    } else {
        let back = index.unsigned_abs();
        if back <= size as u64 {
            Some(size - back as usize)
        } else {
            None
        }
    }
}

/// `v[w]` of a text or a list (Python reference, 6.3.2), also of a list that is lent.
pub fn indexed<S: Sighted>(alloc: Global, sight: &S, v: &Value, w: &Value) -> Result<Made, Memory>
    ensures { Makes result (indexed (S.sight sight.now) (out-Value v.now) (out-Value w.now)) }
{
    match (v, w) {
        (Value::Text(text), Value::Int(index)) => text_item(alloc, text, *index),
        (Value::Ref(at), Value::Int(index)) => list_item(alloc, sight, *at, *index),
        _ => wrong(alloc),
    }
}

fn list_item<S: Sighted>(alloc: Global, sight: &S, at: Ref, index: i64) -> Result<Made, Memory>
    ensures { Makes result (indexed (S.sight sight.now) (Value-F.Ref at) (Value-F.Int index)) }
{
    match items_at(sight, at) {
        Some(values) => found_item(alloc, item_at(values, index)),
        None => wrong(alloc),
    }
}

/// The item that an index names.
fn item_at<T>(items: &[T], index: i64) -> Option<&T>
    ensures { option_copied result ≡ item_at items.now index }
{
    match place_of(items.len(), index) {
        Some(place) => items.get(place),
        None => None,
    }
}

/// An equal value, or the fault where an index named none.
fn found_item(alloc: Global, item: Option<&Value>) -> Result<Made, Memory>
    ensures { Makes result (item_made (option_copied item.entry)) }
{
    match item {
        Some(value) => Ok(Made::Value(value.try_clone(alloc)?)),
        None => fault(alloc, FaultKind::Index, b"index out of range"),
    }
}

/// The text of the character that an index names.
fn text_item(alloc: Global, text: &Text, index: i64) -> Result<Made, Memory>
    ensures { Makes result (item_made (option_map (λ b. value.Text (b ∷ [])) (item_at text.now index))) }
{
    match place_of(text.len(), index) {
        Some(place) => {
            let character = text.slice(alloc, place, place + 1)?;
            Ok(Made::Value(Value::Text(character)))
        }
        None => fault(alloc, FaultKind::Index, b"index out of range"),
    }
}

/// The item of a tuple at a place, counted from 0.
pub fn tuple_item(alloc: Global, v: &Value, place: usize) -> Result<Made, Memory>
    ensures { Makes result (tuple_item (out-Value v.now) place) }
{
    let Value::Tuple(values) = v else {
        return wrong(alloc);
    };
    match values.get(place) {
        Some(value) => Ok(Made::Value(value.try_clone(alloc)?)),
        None => wrong(alloc),
    }
}
