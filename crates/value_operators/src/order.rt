ghost use Rattle.std.specs.Prelude.{◌≡◌, if◌then◌else◌};
ghost use Rattle.codon_base.specs.declared.value.Value.{out-Value};
ghost use Rattle.codon_base.specs.Operators.{made, less_test, less, less_equal, greater, greater_equal, least, greatest};
ghost use Rattle.value_operators.specs.Answers.{Makes};

use crate::Made;
use crate::made::{bool_made, wrong};
use codon_base::{Memory, Value};
use std::alloc::Global;

/// `v < w` of two ints, by number, or of two texts, by bytes (Python reference, 6.10.1).
pub fn less(alloc: Global, v: &Value, w: &Value) -> Result<Made, Memory>
    ensures { Makes result (less (out-Value v.now) (out-Value w.now)) }
{
    match is_less(v, w) {
        Some(is_less) => Ok(bool_made(is_less)),
        None => wrong(alloc),
    }
}

/// `v <= w` (6.10.1).
pub fn less_equal(alloc: Global, v: &Value, w: &Value) -> Result<Made, Memory>
    ensures { Makes result (less_equal (out-Value v.now) (out-Value w.now)) }
{
    match is_less(w, v) {
        Some(is_greater) => Ok(bool_made(!is_greater)),
        None => wrong(alloc),
    }
}

/// `v > w` (6.10.1).
pub fn greater(alloc: Global, v: &Value, w: &Value) -> Result<Made, Memory>
    ensures { Makes result (greater (out-Value v.now) (out-Value w.now)) }
{
    less(alloc, w, v)
}

/// `v >= w` (6.10.1).
pub fn greater_equal(alloc: Global, v: &Value, w: &Value) -> Result<Made, Memory>
    ensures { Makes result (greater_equal (out-Value v.now) (out-Value w.now)) }
{
    less_equal(alloc, w, v)
}

/// `min(v, w)` of two ints or two texts: the second where it is less.
pub fn least(alloc: Global, v: &Value, w: &Value) -> Result<Made, Memory>
    ensures { Makes result (least v.now w.now) }
{
    match is_less(w, v) {
        Some(second) => one_of(alloc, second, w, v),
        None => wrong(alloc),
    }
}

/// `max(v, w)` of two ints or two texts: the second where it is greater.
pub fn greatest(alloc: Global, v: &Value, w: &Value) -> Result<Made, Memory>
    ensures { Makes result (greatest v.now w.now) }
{
    match is_less(v, w) {
        Some(second) => one_of(alloc, second, w, v),
        None => wrong(alloc),
    }
}

/// The first of two values, or else the second.
fn one_of(alloc: Global, first: bool, v: &Value, w: &Value) -> Result<Made, Memory>
    ensures { Makes result (made (if first then v.now else w.now)) }
{
    if first {
        Ok(Made::Value(v.try_clone(alloc)?))
    } else {
        Ok(Made::Value(w.try_clone(alloc)?))
    }
}

/// Whether `v < w`, or `None` where they are neither two ints nor two texts.
fn is_less(v: &Value, w: &Value) -> Option<bool>
    ensures { result ≡ less_test (out-Value v.now) (out-Value w.now) }
{
    match (v, w) {
        (Value::Int(a), Value::Int(b)) => Some(*a < *b),
        (Value::Text(t), Value::Text(u)) => Some(t.compare(u).is_lt()),
        _ => None,
    }
}
