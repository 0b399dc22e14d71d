ghost use Rattle.std.specs.Prelude.{◌≡◌, Some, option_map};
ghost use Rattle.std.specs.Int.{int_min, int_max};
ghost use Rattle.codon_base.specs.declared.value.Value.{Value-F, out-Value};
ghost use Rattle.codon_base.specs.Operators.{least_item, greatest_item, chosen_from, chosen_with, ints_in};
ghost use Rattle.value_operators.specs.Answers.{Makes};

use crate::Made;
use crate::made::{int_or, walk_fault, wrong};
use codon_base::{FaultKind, Memory, Ref, Sighted, Value, WalkEnd, items_at};
use std::alloc::Global;

/// `min(v)` of a list of ints. An empty list is a fault.
pub fn least_item<S: Sighted>(alloc: Global, sight: &S, v: &Value) -> Result<Made, Memory>
    ensures { Makes result (least_item (S.sight sight.now) (out-Value v.now)) }
{
    match v {
        Value::Ref(at) => least_in(alloc, sight, *at),
        _ => wrong(alloc),
    }
}

/// `max(v)` of a list of ints. An empty list is a fault.
pub fn greatest_item<S: Sighted>(alloc: Global, sight: &S, v: &Value) -> Result<Made, Memory>
    ensures { Makes result (greatest_item (S.sight sight.now) (out-Value v.now)) }
{
    match v {
        Value::Ref(at) => greatest_in(alloc, sight, *at),
        _ => wrong(alloc),
    }
}

fn least_in<S: Sighted>(alloc: Global, sight: &S, at: Ref) -> Result<Made, Memory>
    ensures { Makes result (least_item (S.sight sight.now) (Value-F.Ref at)) }
{
    let Some(values) = items_at(sight, at) else {
        return wrong(alloc);
    };
    if sight.is_lent(at) {
        return walk_fault(alloc, WalkEnd::LentList);
    }
    match least_of(values) {
        Some(least) => int_or(alloc, FaultKind::Value, b"empty list", least),
        None => wrong(alloc),
    }
}

fn greatest_in<S: Sighted>(alloc: Global, sight: &S, at: Ref) -> Result<Made, Memory>
    ensures { Makes result (greatest_item (S.sight sight.now) (Value-F.Ref at)) }
{
    let Some(values) = items_at(sight, at) else {
        return wrong(alloc);
    };
    if sight.is_lent(at) {
        return walk_fault(alloc, WalkEnd::LentList);
    }
    match greatest_of(values) {
        Some(greatest) => int_or(alloc, FaultKind::Value, b"empty list", greatest),
        None => wrong(alloc),
    }
}

/// The least of ints, where there is one, or `None` where some value is no int.
fn least_of(values: &[Value]) -> Option<Option<i64>>
    ensures { result ≡ option_map (chosen_from int_min) (ints_in values.now) }
{
    let mut best: Option<i64> = None;
    'least: for value in values {
        let Value::Int(number) = value else {
            return None;
        };
        best = Some(lesser(best, *number));
    }
    Some(best)
}

/// The greatest of ints, where there is one, or `None` where some value is no int.
fn greatest_of(values: &[Value]) -> Option<Option<i64>>
    ensures { result ≡ option_map (chosen_from int_max) (ints_in values.now) }
{
    let mut best: Option<i64> = None;
    'greatest: for value in values {
        let Value::Int(number) = value else {
            return None;
        };
        best = Some(greater(best, *number));
    }
    Some(best)
}

fn lesser(best: Option<i64>, number: i64) -> i64
    ensures { Some result ≡ chosen_with int_min number best }
{
    match best {
        Some(best) => number.min(best),
        None => number,
    }
}

fn greater(best: Option<i64>, number: i64) -> i64
    ensures { Some result ≡ chosen_with int_max number best }
{
    match best {
        Some(best) => number.max(best),
        None => number,
    }
}
