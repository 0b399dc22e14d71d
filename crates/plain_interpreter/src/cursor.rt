#![tactic(auto, unfolding(meaning_rules::specs::Outcome::bind, meaning_rules::specs::Outcome::pure, meaning_rules::specs::Outcome::stop))]

ghost use Rattle.std.specs.Prelude.{◌≡◌};
ghost use Rattle.meaning_rules.specs.Loops as spec;
ghost use Rattle.meaning_rules.specs.Iterations.{in_place};
ghost use Rattle.plain_interpreter.specs.Cursors.{next_by, advanced, begun};
ghost use Rattle.plain_interpreter.specs.Entered.{TellsAdvanced};
ghost use Rattle.plain_interpreter.specs.declared.iterable.Cursor.TheVariants as cursors;
ghost use Rattle.plain_interpreter.specs.Seen.{seen, Tells};

use crate::iterable::Cursor;
use crate::objects::{found_at, int_in};
use crate::state::{State, Stop};
use crate::variables::{fault, tick};
use codon_base::{FaultKind, Value};
use std::alloc::Global;
use std::mem;

/// Whether a range goes on at a number.
fn is_before(step: i64, stop: i64, at: i64) -> bool
    ensures { result ≡ spec.is_before step stop at }
{
    if step >= 0 { at < stop } else { stop < at }
}

fn advanced(at: i64, stop: i64, step: i64) -> Cursor
    ensures { result ≡ advanced at stop step }
{
    match at.checked_add(step) {
        Some(next) => Cursor::Number(next, stop, step),
        None => Cursor::Ended,
    }
}

fn number_next(
    state: &mut State,
    limit: u64,
    at: i64,
    stop: i64,
    step: i64,
) -> Result<Option<(Value, Cursor)>, Stop>
    ensures { Tells (next_by in_place limit (cursors.Number at stop step) (seen state.old)) result state.new }
{
    if !is_before(step, stop, at) {
        return Ok(None);
    }
    tick(state, limit)?;
    Ok(Some((Value::Int(at), advanced(at, stop, step))))
}

fn item_next(
    alloc: Global,
    state: &mut State,
    limit: u64,
    container: Value,
    place: u64,
) -> Result<Option<(Value, Cursor)>, Stop>
    ensures { Tells (next_by in_place limit (cursors.Item container place) (seen state.old)) result state.new }
{
    let Some(v) = found_at(alloc, state, &container, place)? else {
        return Ok(None);
    };
    tick(state, limit)?;
    Ok(Some((v, Cursor::Item(container, place + 1))))
}

/// The item of a turn, for which a tick is taken, and what comes after it, or the end.
#[inline(never)]
pub(crate) fn next(
    alloc: Global,
    state: &mut State,
    limit: u64,
    cursor: Cursor,
) -> Result<Option<(Value, Cursor)>, Stop>
    ensures { Tells (next_by in_place limit cursor (seen state.old)) result state.new }
{
    match cursor {
        Cursor::Ended => Ok(None),
        Cursor::Number(at, stop, step) => number_next(state, limit, at, stop, step),
        Cursor::Item(container, place) => item_next(alloc, state, limit, container, place),
    }
}

/// The item of a turn, for which a tick is taken, where there is one. The cursor moves behind it.
#[inline(never)]
pub(crate) fn advance(
    alloc: Global,
    state: &mut State,
    limit: u64,
    cursor: &mut Cursor,
) -> Result<Option<Value>, Stop>
    ensures { TellsAdvanced (next_by in_place limit cursor.old (seen state.old)) result cursor.new state.new }
{
    let from = mem::replace(cursor, Cursor::Ended);
    let Some(item) = next(alloc, state, limit, from)? else {
        return Ok(None);
    };
    *cursor = item.1;
    Ok(Some(item.0))
}

/// Where a range begins, whose step is not 0.
#[inline(never)]
pub(crate) fn begun(
    alloc: Global,
    state: &State,
    start: &Value,
    stop: &Value,
    step: &Value,
) -> Result<Cursor, Stop>
    ensures { Tells (begun start.now stop.now step.now (seen state.now)) result state.now }
{
    let at = int_in(alloc, state, start)?;
    let stop = int_in(alloc, state, stop)?;
    let step = int_in(alloc, state, step)?;
    if step == 0 {
        return Err(fault(alloc, FaultKind::Value, b"range step is zero"));
    }
    Ok(Cursor::Number(at, stop, step))
}
