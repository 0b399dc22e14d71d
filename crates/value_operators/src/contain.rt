ghost use Rattle.codon_base.specs.declared.value.Value.{Value-F, out-Value};
ghost use Rattle.codon_base.specs.Operators.{contains, is_in, is_not_in};
ghost use Rattle.value_operators.specs.Answers.{Makes, IsTested};

use crate::Made;
use crate::compare::is_member;
use crate::made::{bool_made, walk_fault};
use crate::text_search::occurs;
use codon_base::{Memory, Ref, Sighted, Value, WalkEnd, items_at};
use std::alloc::Global;

/// `v in w` (Python reference, 6.10.2): some item of a list is equal, or a text stands in a text.
pub fn is_in<S: Sighted>(alloc: Global, sight: &S, v: &Value, w: &Value) -> Result<Made, Memory>
    ensures { Makes result (is_in (S.sight sight.now) v.now w.now) }
{
    match contains(sight, v, w) {
        Ok(found) => Ok(bool_made(found)),
        Err(end) => walk_fault(alloc, end),
    }
}

/// `v not in w` (6.10.2).
pub fn is_not_in<S: Sighted>(alloc: Global, sight: &S, v: &Value, w: &Value) -> Result<Made, Memory>
    ensures { Makes result (is_not_in (S.sight sight.now) v.now w.now) }
{
    match contains(sight, v, w) {
        Ok(found) => Ok(bool_made(!found)),
        Err(end) => walk_fault(alloc, end),
    }
}

/// Whether a value is in a list or a text, or why that is not told.
fn contains<S: Sighted>(sight: &S, v: &Value, w: &Value) -> Result<bool, WalkEnd>
    ensures { IsTested result (λ make. contains (S.sight sight.now) make v.now (out-Value v.now) (out-Value w.now)) }
{
    match (v, w) {
        (Value::Text(t), Value::Text(u)) => Ok(occurs(t.as_bytes(), u.as_bytes())),
        (_, Value::Ref(at)) => list_contains(sight, v, *at),
        _ => Err(WalkEnd::WrongKind),
    }
}

fn list_contains<S: Sighted>(sight: &S, v: &Value, at: Ref) -> Result<bool, WalkEnd>
    ensures { IsTested result (λ make. contains (S.sight sight.now) make v.now (out-Value v.now) (Value-F.Ref at)) }
{
    let Some(items) = items_at(sight, at) else {
        return Err(WalkEnd::WrongKind);
    };
    if sight.is_lent(at) {
        return Err(WalkEnd::LentList);
    }
    let mut met = 0;
    is_member(sight, v, items, &mut met)
}
