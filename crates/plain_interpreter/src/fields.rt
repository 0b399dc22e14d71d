#![tactic(auto, unfolding(meaning_rules::specs::Outcome::bind, meaning_rules::specs::Outcome::pure, meaning_rules::specs::Outcome::stop))]

ghost use Rattle.std.specs.Prelude.{◌≡◌, IfOk, Some, codes, slice_get};
ghost use Rattle.codon_base.specs.declared.object.Object.TheVariants.{Instance};
ghost use Rattle.codon_base.specs.Levels.{object_at};
ghost use Rattle.meaning_rules.specs.Outcome.{bind};
ghost use Rattle.meaning_rules.specs.Objects as spec;
ghost use Rattle.meaning_rules.specs.Program.{place_named};
ghost use Rattle.meaning_rules.specs.State.{same};
ghost use Rattle.std.specs.List.{position};
ghost use Rattle.meaning_rules.specs.Iterations.{in_place};
ghost use Rattle.plain_interpreter.specs.Seen.{seen, Tells, TellsAt, TellsBy};
ghost use Rattle.plain_interpreter.specs.Sights.{instanced_of};
ghost use Rattle.meaning_rules.specs.Task.{Field};
ghost use Rattle.plain_interpreter.specs.Tasks.{program_of};

use crate::names::same;
use crate::prepared::Prepared;
use crate::sight::is_target;
use crate::state::{State, Stop};
use crate::variables::{fault, wrong};
use codon_base::{FaultKind, Holder, Object, Ref, Spelling, Value};
use std::alloc::Global;

/// An instance by the number of its class and its fields.
#[derive(Clone, Copy)]
pub(crate) struct Instanced<'s> {
    pub(crate) class: u32,
    pub(crate) fields: &'s [Value],
}

/// The instance at an address.
#[tactic(auto, unfolding(meaning_rules::specs::Outcome::bind, meaning_rules::specs::Outcome::pure, meaning_rules::specs::Outcome::stop, meaning_rules::specs::Outcome::look, crate::specs::Seen::seen))]
pub(crate) fn instance_at<'s>(
    alloc: Global,
    state: &'s State,
    at: Ref,
) -> Result<Instanced<'s>, Stop>
    ensures instance { TellsBy instanced_of (spec.instance_at at (seen state.now)) result state.now }
    ensures found { IfOk result (λ instance. object_at (seen state.now).shared.levels at ≡ Some (Instance instance.class instance.fields.now)) }
{
    match state.store.heap.get(at) {
        Some(Object::Instance { class, fields }) => Ok(Instanced {
            class: *class,
            fields: fields.as_slice(),
        }),
        _ => Err(wrong(alloc)),
    }
}

/// The place of a name among others.
#[tactic(auto, using(crate::proofs::Places::place_named_is))]
fn place_named(name: &Spelling, names: &[Spelling]) -> Option<usize>
    ensures { result ≡ place_named name.now names.now }
{
    first_named(name, names)
}

/// The place of the first name that is spelled so.
fn first_named(name: &Spelling, names: &[Spelling]) -> Option<usize>
    ensures { result ≡ position (same name.now) names.now }
{
    names.iter().position(|other| same(name, other))
}

/// The place of a field in the instances of a class.
#[tactic(auto, unfolding(meaning_rules::specs::Outcome::bind, meaning_rules::specs::Outcome::pure, meaning_rules::specs::Outcome::stop, crate::specs::Tasks::program_of))]
pub(crate) fn field_place(
    alloc: Global,
    program: &Prepared<'_>,
    number: u32,
    name: &Spelling,
) -> Result<usize, Stop>
    ensures { (s : _) → TellsAt (spec.field_place (program_of program.now) number name.now s) result s }
{
    let Some(class) = program.classes.get(number as usize) else {
        return Err(wrong(alloc));
    };
    match place_named(name, class.fields.as_slice()) {
        Some(place) => Ok(place),
        None => Err(wrong(alloc)),
    }
}

/// The field at a place, which is a fault where it was never set.
pub(crate) fn set_value(alloc: Global, fields: &[Value], place: usize) -> Result<Value, Stop>
    ensures { (s : _) → TellsAt (bind (spec.one_of (slice_get fields.now place)) (spec.if_set (codes "field is not set")) s) result s }
{
    match fields.get(place) {
        None => Err(wrong(alloc)),
        Some(Value::Unset) => Err(fault(alloc, FaultKind::Runtime, b"field is not set")),
        Some(v) => Ok(v.try_clone(alloc)?),
    }
}

/// Whether the iterations that run may write a field of an instance.
#[tactic(auto, unfolding(meaning_rules::specs::Outcome::bind, meaning_rules::specs::Outcome::pure, meaning_rules::specs::Outcome::stop, meaning_rules::specs::Outcome::look, crate::specs::Seen::seen))]
pub(crate) fn allow_field(alloc: Global, state: &State, at: Ref, place: usize) -> Result<(), Stop>
    ensures { Tells (spec.allow in_place (Field at place) (seen state.now)) result state.now }
{
    if is_target(state.store.iterations.as_slice(), at) {
        Ok(())
    } else {
        Err(fault(
            alloc,
            FaultKind::ParallelConflict,
            b"object is not captured",
        ))
    }
}
