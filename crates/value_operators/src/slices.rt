ghost use Rattle.std.specs.Prelude.{◌≡◌, ◌≤◌, length, IfSome};
ghost use Rattle.codon_base.specs.declared.value.Value.{Value-F, out-Value};
ghost use Rattle.codon_base.specs.Sequences.{bound_of, sliced};
ghost use Rattle.codon_base.specs.Operators.{text_made, list_made};
ghost use Rattle.codon_base.specs.Parts.{bound_in, bounds_in, slice_made};
ghost use Rattle.value_operators.specs.Answers.{Makes};

use crate::Made;
use crate::made::{SIZE_LIMIT, push_all, size_fault, text_made, walk_fault, wrong};
use codon_base::{Memory, Ref, Sighted, Text, Value, WalkEnd, items_at};
use sqlite_items::Items;
use std::alloc::Global;

/// The place that a bound of a slice names in a sequence of that length. It is clamped.
pub fn bound_of(size: usize, index: i64) -> usize
    ensures value { result ≡ bound_of size index }
    ensures within { result ≤ size }
{
    if index >= 0 {
        (index as usize).min(size)
    } else {
        size.saturating_sub(index.unsigned_abs() as usize)
    }
}

/// `v[from:to]` of a text or a list (Python reference, 6.3.3). `Value::Unit` stands for a bound that is left out.
pub fn sliced<S: Sighted>(
    alloc: Global,
    sight: &S,
    v: &Value,
    from: &Value,
    to: &Value,
) -> Result<Made, Memory>
    ensures { Makes result (slice_made (S.sight sight.now) (out-Value v.now) (out-Value from.now) (out-Value to.now)) }
{
    match v {
        Value::Text(text) => sliced_text(alloc, text, from, to),
        Value::Ref(at) => sliced_list(alloc, sight, *at, from, to),
        _ => wrong(alloc),
    }
}

fn sliced_text(alloc: Global, text: &Text, from: &Value, to: &Value) -> Result<Made, Memory>
    ensures { Makes result (bounds_in (length text.now) (out-Value from.now) (out-Value to.now) (λ a b. text_made (sliced text.now a b))) }
{
    let size = text.len();
    match (bound_in(size, 0, from), bound_in(size, size, to)) {
        (Some(start), Some(end)) => text_part(alloc, text, start, end),
        _ => wrong(alloc),
    }
}

fn text_part(alloc: Global, text: &Text, start: usize, end: usize) -> Result<Made, Memory>
    ensures { Makes result (text_made (sliced text.now start end)) }
{
    text_made(alloc, text.slice(alloc, start, end)?)
}

fn sliced_list<S: Sighted>(
    alloc: Global,
    sight: &S,
    at: Ref,
    from: &Value,
    to: &Value,
) -> Result<Made, Memory>
    ensures { Makes result (slice_made (S.sight sight.now) (Value-F.Ref at) (out-Value from.now) (out-Value to.now)) }
{
    let Some(values) = items_at(sight, at) else {
        return wrong(alloc);
    };
    let size = values.len();
    match (bound_in(size, 0, from), bound_in(size, size, to)) {
        (Some(start), Some(end)) => {
            if sight.is_lent(at) {
                walk_fault(alloc, WalkEnd::LentList)
            } else {
                list_part(alloc, part(values, start, end))
            }
        }
        _ => wrong(alloc),
    }
}

/// A new list of equal values.
fn list_part(alloc: Global, items: &[Value]) -> Result<Made, Memory>
    ensures { Makes result (list_made items.now) }
{
    if items.len() > SIZE_LIMIT {
        return size_fault(alloc);
    }
    let mut values = Items::new(alloc);
    push_all(alloc, &mut values, items)?;
    Ok(Made::List(values))
}

/// The items from one place to before another.
fn part(items: &[Value], start: usize, end: usize) -> &[Value]
    requires { end ≤ length items.now }
    ensures { result.now ≡ sliced items.now start end }
{
    if start < end {
        &items[start..end]
    } else {
        &items[..0]
    }
}

/// The place of a bound, or `None` where it is of a wrong kind.
fn bound_in(size: usize, missing: usize, bound: &Value) -> Option<usize>
    requires { missing ≤ size }
    ensures value { result ≡ bound_in size missing (out-Value bound.now) }
    ensures within { IfSome result (λ place. place ≤ size) }
{
    match bound {
        Value::Int(index) => Some(bound_of(size, *index)),
        Value::Unit => Some(missing),
        _ => None,
    }
}
