ghost use Rattle.std.specs.Prelude.{◌≡◌};
ghost use Rattle.codon_base.specs.declared.value.Value.{out-Value};
ghost use Rattle.codon_base.specs.Operators.{is_nonzero, filled_list, truth_of, truth, negation};
ghost use Rattle.codon_base.specs.Walks.{seen_in};
ghost use Rattle.value_operators.specs.Answers.{Makes};

use crate::Made;
use crate::made::{bool_made, wrong};
use codon_base::{Memory, Ref, Sighted, Value, items_at};
use std::alloc::Global;

/// The truth of a bool, an int, a text or a list, also of a list that is lent (Python reference, 4.1 of the library): false are False, 0 and what is empty. `None` for other values.
pub fn truth_of<S: Sighted>(sight: &S, v: &Value) -> Option<bool>
    ensures { result ≡ truth_of (S.sight sight.now) (out-Value v.now) }
{
    match v {
        Value::Bool(truth) => Some(*truth),
        Value::Int(number) => Some(is_nonzero(*number)),
        Value::Text(text) => Some(!text.is_empty()),
        Value::Ref(at) => list_truth(sight, *at),
        _ => None,
    }
}

/// `bool(v)`.
pub fn truth<S: Sighted>(alloc: Global, sight: &S, v: &Value) -> Result<Made, Memory>
    ensures { Makes result (truth (S.sight sight.now) (out-Value v.now)) }
{
    match truth_of(sight, v) {
        Some(truth) => Ok(bool_made(truth)),
        None => wrong(alloc),
    }
}

/// `not v` (6.11).
pub fn negation<S: Sighted>(alloc: Global, sight: &S, v: &Value) -> Result<Made, Memory>
    ensures { Makes result (negation (S.sight sight.now) (out-Value v.now)) }
{
    match truth_of(sight, v) {
        Some(truth) => Ok(bool_made(!truth)),
        None => wrong(alloc),
    }
}

fn is_nonzero(number: i64) -> bool
    ensures { result ≡ is_nonzero number }
{
    number != 0
}

/// Whether a list has items.
fn list_truth<S: Sighted>(sight: &S, at: Ref) -> Option<bool>
    ensures { result ≡ filled_list (seen_in (S.sight sight.now).levels at) }
{
    match items_at(sight, at) {
        Some(values) => Some(!values.is_empty()),
        None => None,
    }
}
