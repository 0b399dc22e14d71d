ghost use Rattle.std.specs.Prelude.{◌++◌};
ghost use Rattle.codon_base.specs.declared.value.Value.{Value-F, out-Value};
ghost use Rattle.codon_base.specs.Operators.{plus, text_made, list_made};
ghost use Rattle.value_operators.specs.Answers.{Makes};

use crate::Made;
use crate::made::{SIZE_LIMIT, int_made, push_all, size_fault, walk_fault, wrong};
use codon_base::{Memory, Ref, Sighted, Text, Value, WalkEnd, items_at, wrap_add};
use sqlite_items::Items;
use std::alloc::Global;

/// `v + w` (Python reference, 6.7): the sum of two ints modulo 2^64, or two texts or lists one after the other.
pub fn plus<S: Sighted>(alloc: Global, sight: &S, v: &Value, w: &Value) -> Result<Made, Memory>
    ensures { Makes result (plus (S.sight sight.now) (out-Value v.now) (out-Value w.now)) }
{
    match (v, w) {
        (Value::Int(a), Value::Int(b)) => Ok(int_made(wrap_add(*a, *b))),
        (Value::Text(t), Value::Text(u)) => joined_texts(alloc, t, u),
        (Value::Ref(a), Value::Ref(b)) => plus_lists(alloc, sight, *a, *b),
        _ => wrong(alloc),
    }
}

fn joined_texts(alloc: Global, t: &Text, u: &Text) -> Result<Made, Memory>
    ensures { Makes result (text_made (t.now ++ u.now)) }
{
    if t.len().saturating_add(u.len()) > SIZE_LIMIT {
        return size_fault(alloc);
    }
    let mut text = t.try_clone()?;
    text.append(u)?;
    Ok(Made::Value(Value::Text(text)))
}

fn plus_lists<S: Sighted>(alloc: Global, sight: &S, a: Ref, b: Ref) -> Result<Made, Memory>
    ensures { Makes result (plus (S.sight sight.now) (Value-F.Ref a) (Value-F.Ref b)) }
{
    match (items_at(sight, a), items_at(sight, b)) {
        (Some(vs), Some(ws)) => {
            if sight.is_lent(a) || sight.is_lent(b) {
                walk_fault(alloc, WalkEnd::LentList)
            } else {
                joined_lists(alloc, vs, ws)
            }
        }
        _ => wrong(alloc),
    }
}

fn joined_lists(alloc: Global, vs: &[Value], ws: &[Value]) -> Result<Made, Memory>
    ensures { Makes result (list_made (vs.now ++ ws.now)) }
{
    if vs.len().saturating_add(ws.len()) > SIZE_LIMIT {
        return size_fault(alloc);
    }
    let mut values = Items::new(alloc);
    push_all(alloc, &mut values, vs)?;
    push_all(alloc, &mut values, ws)?;
    Ok(Made::List(values))
}
