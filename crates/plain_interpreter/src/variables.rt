ghost use Rattle.meaning_rules.specs.Variables as spec;
ghost use Rattle.std.specs.Prelude.{◌≡◌, ◌-◌, IsTrue, nat_lt, codes, map};
ghost use Rattle.std.specs.List.{list_all};
ghost use Rattle.meaning_rules.specs.Outcome.{tick};
ghost use Rattle.plain_interpreter.specs.Seen.{seen, Tells, TellsAt, IsFault};
ghost use Rattle.codon_base.specs.declared.fault.FaultKind.TheVariants as kind;
ghost use Rattle.plain_interpreter.specs.Scopes.{scope_of};
ghost use Rattle.plain_interpreter.specs.Lists.{named};

use crate::scope::Scope;
use crate::state::{State, Stop};
use codon_base::{Fault, FaultKind, Spelling, Text, Value, Values};
use source_trees::{LoopNames, Name};
use std::alloc::Global;

/// Takes a tick, where one is left.
#[tactic(auto, unfolding(meaning_rules::specs::Outcome::tick, crate::specs::Seen::seen))]
pub(crate) fn tick(state: &mut State, limit: u64) -> Result<(), Stop>
    ensures { Tells (tick limit (seen state.old)) result state.new }
{
    if state.used >= limit {
        return Err(Stop::OutOfFuel);
    }
    state.used += 1;
    Ok(())
}

#[tactic(auto, unfolding(meaning_rules::specs::Outcome::look, crate::specs::Seen::seen))]
pub(crate) fn held_by(
    alloc: Global,
    state: &mut State,
    scope: &Scope<'_>,
    name: &Spelling,
) -> Result<Value, Stop>
    ensures { Tells (spec.held_by (scope_of scope.now) name.now (seen state.old)) result state.new }
{
    if scope.has(name) {
        Ok(state.names.get(alloc, name)?)
    } else {
        Ok(state.globals.get(alloc, name)?)
    }
}

#[tactic(auto, unfolding(meaning_rules::specs::Outcome::change_names, meaning_rules::specs::Outcome::change_globals, crate::specs::Seen::seen))]
pub(crate) fn set_name(
    alloc: Global,
    state: &mut State,
    scope: &Scope<'_>,
    name: &Spelling,
    value: Value,
) -> Result<(), Stop>
    ensures { Tells (spec.set_name (scope_of scope.now) name.now value (seen state.old)) result state.new }
{
    if scope.has(name) {
        state.names.assign(alloc, name, value)?;
    } else {
        state.globals.assign(alloc, name, value)?;
    }
    Ok(())
}

/// The value of a name, which is a fault where it has none.
#[tactic(auto, unfolding(meaning_rules::specs::Outcome::bind, meaning_rules::specs::Outcome::pure, meaning_rules::specs::Outcome::stop))]
#[inline(never)]
pub(crate) fn read_name(
    alloc: Global,
    state: &mut State,
    scope: &Scope<'_>,
    name: &Spelling,
) -> Result<Value, Stop>
    ensures { Tells (named (scope_of scope.now) name.now (seen state.old)) result state.new }
{
    match held_by(alloc, state, scope, name)? {
        Value::Unset => Err(fault(alloc, FaultKind::Runtime, b"name is not set")),
        v => Ok(v),
    }
}

/// The stop by a fault, or for want of memory.
#[inline(never)]
pub(crate) fn fault(alloc: Global, kind: FaultKind, text: &[u8]) -> Stop
    requires { IsTrue (list_all (λ b. nat_lt b 128) text.now) }
    ensures { IsFault result kind text.now }
{
    match Text::from_slice(alloc, text) {
        Ok(text) => Stop::Faulted(Fault { kind, text }),
        Err(_) => Stop::Memory,
    }
}

/// The stop where the rules of the language give no value.
#[inline(never)]
pub(crate) fn wrong(alloc: Global) -> Stop
    ensures { IsFault result kind.Runtime (codes "wrong kind") }
{
    fault(alloc, FaultKind::Runtime, b"wrong kind")
}

/// The names of a loop or a comprehension take an item.
#[tactic(auto, unfolding(meaning_rules::specs::Outcome::bind, meaning_rules::specs::Outcome::pure, meaning_rules::specs::Outcome::stop))]
#[inline(never)]
pub(crate) fn set_loop_names(
    alloc: Global,
    state: &mut State,
    scope: &Scope<'_>,
    names: &LoopNames,
    v: Value,
) -> Result<(), Stop>
    ensures { Tells (spec.set_loop_names (scope_of scope.now) names.now v (seen state.old)) result state.new }
{
    match names {
        LoopNames::One(name) => set_name(alloc, state, scope, &name.spelling, v),
        LoopNames::Several(all) => {
            let items = unpacked(alloc, all.len(), v)?;
            set_each(alloc, state, scope, all.as_slice(), items.as_slice())
        }
    }
}

/// The items of a tuple of that many.
#[tactic(auto, unfolding(meaning_rules::specs::Outcome::bind, meaning_rules::specs::Outcome::pure, meaning_rules::specs::Outcome::stop))]
pub(crate) fn unpacked(alloc: Global, count: usize, v: Value) -> Result<Values, Stop>
    ensures { (s : _) → TellsAt (spec.unpacked count v s) result s }
{
    match v {
        Value::Tuple(items) => {
            if items.len() == count {
                Ok(items)
            } else {
                Err(wrong(alloc))
            }
        }
        _ => Err(wrong(alloc)),
    }
}

/// Names take items, in order.
#[tactic(auto, unfolding(meaning_rules::specs::Outcome::bind, meaning_rules::specs::Outcome::pure, meaning_rules::specs::Outcome::stop))]
fn set_each(
    alloc: Global,
    state: &mut State,
    scope: &Scope<'_>,
    names: &[Name],
    items: &[Value],
) -> Result<(), Stop>
    ensures { Tells (spec.set_each (scope_of scope.now) (map (λ name. name.spelling) names.now) items.now (seen state.old)) result state.new }
{
    let mut rest = items;
    'names: for name in names {
        let [item, more @ ..] = rest else {
            return Ok(());
        };
        set_name(alloc, state, scope, &name.spelling, item.try_clone(alloc)?)?;
        rest = more;
    }
    Ok(())
}

/// How many ticks are left.
#[tactic(auto, unfolding(crate::specs::Seen::seen))]
pub(crate) fn left(state: &State, limit: u64) -> u64
    ensures { result ≡ limit - (seen state.now).shared.used }
{
    limit.saturating_sub(state.used)
}
