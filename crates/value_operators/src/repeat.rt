ghost use Rattle.std.specs.Prelude.{◌≡◌, ◌*◌, nat_le, IfOk};
ghost use Rattle.codon_base.specs.declared.value.Value.{Value-F, out-Value};
ghost use Rattle.codon_base.specs.Sequences.{repeated, count_of};
ghost use Rattle.codon_base.specs.Operators.{times, text_made, list_made, size_limit};
ghost use Rattle.value_operators.specs.Answers.{Makes};

use crate::Made;
use crate::made::{SIZE_LIMIT, int_made, push_all, size_fault, walk_fault, wrong};
use codon_base::{Memory, Ref, Sighted, Text, Value, Values, WalkEnd, items_at, wrap_mul};
use sqlite_items::Items;
use std::alloc::Global;

/// `v * w` (Python reference, 6.7): the product of two ints modulo 2^64, or a text or a list that many times. A count below 1 leaves nothing.
pub fn times<S: Sighted>(alloc: Global, sight: &S, v: &Value, w: &Value) -> Result<Made, Memory>
    ensures { Makes result (times (S.sight sight.now) (out-Value v.now) (out-Value w.now)) }
{
    match (v, w) {
        (Value::Int(a), Value::Int(b)) => Ok(int_made(wrap_mul(*a, *b))),
        (Value::Text(text), Value::Int(count)) => repeated_text(alloc, text, count_of(*count)),
        (Value::Ref(at), Value::Int(count)) => times_list(alloc, sight, *at, *count),
        _ => wrong(alloc),
    }
}

fn times_list<S: Sighted>(alloc: Global, sight: &S, at: Ref, count: i64) -> Result<Made, Memory>
    ensures { Makes result (times (S.sight sight.now) (Value-F.Ref at) (Value-F.Int count)) }
{
    let Some(values) = items_at(sight, at) else {
        return wrong(alloc);
    };
    if sight.is_lent(at) {
        return walk_fault(alloc, WalkEnd::LentList);
    }
    repeated_list(alloc, values, count_of(count))
}

/// How often a sequence is repeated.
fn count_of(count: i64) -> u64
    ensures { result ≡ count_of count }
{
    if count > 0 { count as u64 } else { 0 }
}

/// Whether that many sequences of that length are within the limit together.
fn fits(count: u64, size: usize) -> bool
    ensures { result ≡ nat_le (count * size) size_limit }
{
    match count.checked_mul(size as u64) {
        Some(total) => total <= SIZE_LIMIT as u64,
        None => false,
    }
}

fn repeated_text(alloc: Global, text: &Text, count: u64) -> Result<Made, Memory>
    ensures { Makes result (text_made (repeated count text.now)) }
{
    if !fits(count, text.len()) {
        return size_fault(alloc);
    }
    let made = text_copies(alloc, text, count)?;
    Ok(Made::Value(Value::Text(made)))
}

fn text_copies(alloc: Global, text: &Text, count: u64) -> Result<Text, Memory>
    ensures { IfOk result (λ made. made ≡ repeated count text.now) }
{
    let mut made = Text::new(alloc)?;
    if text.is_empty() {
        return Ok(made);
    }
    'repeat: for _turn in 0..count {
        made.append(text)?;
    }
    Ok(made)
}

fn repeated_list(alloc: Global, items: &[Value], count: u64) -> Result<Made, Memory>
    ensures { Makes result (list_made (repeated count items.now)) }
{
    if !fits(count, items.len()) {
        return size_fault(alloc);
    }
    let made = list_copies(alloc, items, count)?;
    Ok(Made::List(made))
}

fn list_copies(alloc: Global, items: &[Value], count: u64) -> Result<Values, Memory>
    ensures { IfOk result (λ made. made ≡ repeated count items.now) }
{
    let mut made = Items::new(alloc);
    if items.is_empty() {
        return Ok(made);
    }
    'repeat: for _turn in 0..count {
        push_all(alloc, &mut made, items)?;
    }
    Ok(made)
}
