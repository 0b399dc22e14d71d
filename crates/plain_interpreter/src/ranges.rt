#![tactic(auto, unfolding(meaning_rules::specs::Outcome::pure, meaning_rules::specs::Outcome::stop))]

ghost use Rattle.std.specs.Prelude.{◌≡◌, IfOk};
ghost use Rattle.meaning_rules.specs.Expressions as spec;
ghost use Rattle.meaning_rules.specs.Loops as loops;
ghost use Rattle.plain_interpreter.specs.Seen.{TellsAtBy};
ghost use Rattle.plain_interpreter.specs.Steps.{iterable_of};

use crate::iterable::{Iterable, Numbers};
use crate::state::Stop;
use crate::variables::wrong;
use codon_base::{Memory, Value, Values};
use std::alloc::Global;

/// The numbers of a range.
fn numbers<'m>(
    alloc: Global,
    start: Value,
    stop: Value,
    step: Value,
) -> Result<Iterable<'m>, Memory>
    ensures { IfOk result (λ goes_over. iterable_of goes_over ≡ loops.Numbers start stop step) }
{
    let numbers = Box::new(alloc, Numbers { start, stop, step })?;
    Ok(Iterable::Numbers(numbers))
}

/// The start, stop and step of a range.
#[inline(never)]
pub(crate) fn range_of<'m>(alloc: Global, given: Values) -> Result<Iterable<'m>, Stop>
    ensures { (s : _) → TellsAtBy iterable_of (spec.range_of given s) result s }
{
    match given.as_slice() {
        [stop] => {
            let stop = stop.try_clone(alloc)?;
            let goes_over = numbers(alloc, Value::Int(0), stop, Value::Int(1))?;
            Ok(goes_over)
        }
        [start, stop] => {
            let start = start.try_clone(alloc)?;
            let stop = stop.try_clone(alloc)?;
            let goes_over = numbers(alloc, start, stop, Value::Int(1))?;
            Ok(goes_over)
        }
        [start, stop, step] => {
            let start = start.try_clone(alloc)?;
            let stop = stop.try_clone(alloc)?;
            let step = step.try_clone(alloc)?;
            let goes_over = numbers(alloc, start, stop, step)?;
            Ok(goes_over)
        }
        _ => Err(wrong(alloc)),
    }
}
