#![tactic(auto, unfolding(meaning_rules::specs::Outcome::bind, meaning_rules::specs::Outcome::pure, meaning_rules::specs::Outcome::stop))]

ghost use Rattle.codon_base.specs.declared.value.Value.{out-Value};
ghost use Rattle.meaning_rules.specs.Objects as objects;
ghost use Rattle.meaning_rules.specs.Operations as spec;
ghost use Rattle.meaning_rules.specs.Printing as printing;
ghost use Rattle.meaning_rules.specs.Statements as statements;
ghost use Rattle.plain_interpreter.specs.Callees.{builtin_of};
ghost use Rattle.meaning_rules.specs.Iterations.{in_place};
ghost use Rattle.plain_interpreter.specs.Seen.{seen, Tells};
ghost use Rattle.codon_base.specs.Operators.{wrong};
ghost use Rattle.plain_interpreter.specs.Sights.{sight_of, IsEnd};
ghost use Rattle.value_operators.specs.Answers.{Makes};

use crate::callee::Builtin;
use crate::changes::{clear, copy, extend, pop};
use crate::lists::{other_place, size_fault};
use crate::objects::{append, settled};
use crate::state::{State, Stop, Store};
use crate::variables::wrong;
use codon_base::{
    Fault, FaultKind, Memory, Or, Ref, Spelling, Text, Value, Values, WalkEnd, show_whole,
};
use source_trees::{BinaryOp, Comparator, UnaryOp};
use std::alloc::Global;
use value_operators as operators;
use value_operators::Made;

/// `v op w`.
#[inline(never)]
pub(crate) fn binary(
    alloc: Global,
    state: &mut State,
    by: BinaryOp,
    v: &Value,
    w: &Value,
) -> Result<Value, Stop>
    ensures { Tells (spec.binary in_place by v.now w.now (seen state.old)) result state.new }
{
    let made = binary_made(alloc, &state.store, by, v, w)?;
    settled(state, made)
}

fn binary_made(
    alloc: Global,
    store: &Store,
    by: BinaryOp,
    v: &Value,
    w: &Value,
) -> Result<Made, Memory>
    ensures { Makes result (spec.binary_made by (out-Value v.now) (out-Value w.now) (sight_of store.now)) }
{
    match by {
        BinaryOp::Add => operators::plus(alloc, store, v, w),
        BinaryOp::Subtract => operators::minus(alloc, v, w),
        BinaryOp::Multiply => operators::times(alloc, store, v, w),
        BinaryOp::FloorDivide => operators::floor_divided(alloc, v, w),
        BinaryOp::Modulo => operators::modulo(alloc, v, w),
        BinaryOp::Power => operators::to_the_power(alloc, v, w),
        BinaryOp::ShiftLeft => operators::shifted_left(alloc, v, w),
        BinaryOp::ShiftRight => operators::shifted_right(alloc, v, w),
        BinaryOp::And => operators::bits_and(alloc, v, w),
        BinaryOp::Or => operators::bits_or(alloc, v, w),
        BinaryOp::Xor => operators::bits_xor(alloc, v, w),
    }
}

/// `op v`.
#[inline(never)]
pub(crate) fn unary(alloc: Global, state: &mut State, by: UnaryOp, v: &Value) -> Result<Value, Stop>
    ensures { Tells (objects.operate in_place (λ sight. spec.unary_made by (out-Value v.now)) (seen state.old)) result state.new }
{
    let made = unary_made(alloc, by, v)?;
    settled(state, made)
}

fn unary_made(alloc: Global, by: UnaryOp, v: &Value) -> Result<Made, Memory>
    ensures { Makes result (spec.unary_made by (out-Value v.now)) }
{
    match by {
        UnaryOp::Plus => operators::unchanged(alloc, v),
        UnaryOp::Minus => operators::negated(alloc, v),
        UnaryOp::Invert => operators::complemented(alloc, v),
    }
}

/// `v op w` for a comparison.
#[inline(never)]
pub(crate) fn compared(
    alloc: Global,
    state: &mut State,
    by: Comparator,
    v: &Value,
    w: &Value,
) -> Result<Value, Stop>
    ensures { Tells (objects.operate in_place (spec.compared_made by v.now w.now) (seen state.old)) result state.new }
{
    let made = compared_made(alloc, &state.store, by, v, w)?;
    settled(state, made)
}

fn compared_made(
    alloc: Global,
    store: &Store,
    by: Comparator,
    v: &Value,
    w: &Value,
) -> Result<Made, Memory>
    ensures { Makes result (spec.compared_made by v.now w.now (sight_of store.now)) }
{
    match by {
        Comparator::Equal => operators::is_equal(alloc, store, v, w),
        Comparator::NotEqual => operators::is_unequal(alloc, store, v, w),
        Comparator::Less => operators::less(alloc, v, w),
        Comparator::LessEqual => operators::less_equal(alloc, v, w),
        Comparator::Greater => operators::greater(alloc, v, w),
        Comparator::GreaterEqual => operators::greater_equal(alloc, v, w),
        Comparator::In => operators::is_in(alloc, store, v, w),
        Comparator::NotIn => operators::is_not_in(alloc, store, v, w),
    }
}

/// The truth of a value, as conditions take it.
#[inline(never)]
pub(crate) fn truth(alloc: Global, state: &State, v: &Value) -> Result<bool, Stop>
    ensures { Tells (objects.truth in_place v.now (seen state.now)) result state.now }
{
    match operators::truth_of(&state.store, v) {
        Some(truth) => Ok(truth),
        None => Err(wrong(alloc)),
    }
}

/// A builtin on its arguments.
#[inline(never)]
pub(crate) fn builtin(
    alloc: Global,
    state: &mut State,
    which: Builtin,
    given: &[Value],
) -> Result<Value, Stop>
    ensures { Tells (spec.builtin in_place (builtin_of which) given.now (seen state.old)) result state.new }
{
    match given {
        [v] => builtin_on_one(alloc, state, which, v),
        [v, w] => builtin_on_two(alloc, state, which, v, w),
        _ => Err(wrong(alloc)),
    }
}

fn builtin_on_one(
    alloc: Global,
    state: &mut State,
    which: Builtin,
    v: &Value,
) -> Result<Value, Stop>
    ensures { Tells (objects.operate in_place (spec.on_one (builtin_of which) v.now) (seen state.old)) result state.new }
{
    let made = made_of_one(alloc, &state.store, which, v)?;
    settled(state, made)
}

fn builtin_on_two(
    alloc: Global,
    state: &mut State,
    which: Builtin,
    v: &Value,
    w: &Value,
) -> Result<Value, Stop>
    ensures { Tells (objects.operate in_place (λ sight. spec.on_two (builtin_of which) v.now w.now) (seen state.old)) result state.new }
{
    let made = made_of_two(alloc, which, v, w)?;
    settled(state, made)
}

fn made_of_one(alloc: Global, store: &Store, which: Builtin, v: &Value) -> Result<Made, Memory>
    ensures { Makes result (spec.on_one (builtin_of which) v.now (sight_of store.now)) }
{
    match which {
        Builtin::Length => operators::length_of(alloc, store, v),
        Builtin::Least => operators::least_item(alloc, store, v),
        Builtin::Greatest => operators::greatest_item(alloc, store, v),
        Builtin::ToText => operators::text_from(alloc, store, v),
        Builtin::ToInt => operators::int_from(alloc, v),
        Builtin::ToBool => operators::truth(alloc, store, v),
        Builtin::Code => operators::code_of(alloc, v),
        Builtin::Character => operators::character_from(alloc, v),
        Builtin::ToList | Builtin::Range => wrong_made(alloc),
    }
}

fn made_of_two(alloc: Global, which: Builtin, v: &Value, w: &Value) -> Result<Made, Memory>
    ensures { Makes result (spec.on_two (builtin_of which) v.now w.now) }
{
    match which {
        Builtin::Least => operators::least(alloc, v, w),
        Builtin::Greatest => operators::greatest(alloc, v, w),
        _ => wrong_made(alloc),
    }
}

/// The fault where a builtin has no rule for its arguments.
fn wrong_made(alloc: Global) -> Result<Made, Memory>
    ensures { Makes result wrong }
{
    let text = Text::from_slice(alloc, b"wrong kind")?;
    Ok(Made::Fault(Fault {
        kind: FaultKind::Runtime,
        text,
    }))
}

/// A method of a list.
#[inline(never)]
pub(crate) fn list_method(
    alloc: Global,
    state: &mut State,
    name: &Spelling,
    at: Ref,
    given: Values,
) -> Result<Value, Stop>
    ensures { Tells (spec.list_method in_place name.now at given (seen state.old)) result state.new }
{
    let mut given = given;
    match given.len() {
        0 => method_without(alloc, state, name, at),
        1 => match given.pop() {
            Some(v) => method_with(alloc, state, name, at, v),
            None => Err(wrong(alloc)),
        },
        _ => Err(wrong(alloc)),
    }
}

/// A method of a list without an argument.
fn method_without(alloc: Global, state: &mut State, name: &Spelling, at: Ref) -> Result<Value, Stop>
    ensures { Tells (spec.method_without in_place name.now at (seen state.old)) result state.new }
{
    let name = name.as_slice();
    if name == b"pop".as_slice() {
        pop(alloc, state, at)
    } else if name == b"copy".as_slice() {
        copy(alloc, state, at)
    } else if name == b"clear".as_slice() {
        clear(alloc, state, at)?;
        Ok(Value::Unit)
    } else {
        Err(wrong(alloc))
    }
}

/// A method of a list with an argument.
fn method_with(
    alloc: Global,
    state: &mut State,
    name: &Spelling,
    at: Ref,
    v: Value,
) -> Result<Value, Stop>
    ensures { Tells (spec.method_with in_place name.now at v (seen state.old)) result state.new }
{
    let name = name.as_slice();
    if name == b"append".as_slice() {
        append(alloc, state, at, v)?;
        Ok(Value::Unit)
    } else if name == b"extend".as_slice() {
        extend(alloc, state, at, &v)?;
        Ok(Value::Unit)
    } else {
        Err(wrong(alloc))
    }
}

/// The text of a value, as `print` writes it.
pub(crate) fn text_of_value(alloc: Global, state: &mut State, v: &Value) -> Result<Text, Stop>
    ensures { Tells (printing.text_of_value in_place v.now (seen state.old)) result state.new }
{
    match show_whole(alloc, &state.store, v, false) {
        Ok(text) => Ok(text),
        Err(Or::No(end)) => Err(walk_fault(alloc, end)),
        Err(Or::Memory) => Err(Stop::Memory),
    }
}

/// The stop of a walk that ended before its answer was known.
fn walk_fault(alloc: Global, end: WalkEnd) -> Stop
    ensures { IsEnd end result }
{
    match end {
        WalkEnd::WrongKind => wrong(alloc),
        WalkEnd::LentList => other_place(alloc),
        WalkEnd::TooLarge => size_fault(alloc),
    }
}

/// What an augmented assignment makes of what stood there.
pub(crate) fn updated(
    alloc: Global,
    state: &mut State,
    by: BinaryOp,
    old: Value,
    v: &Value,
) -> Result<Value, Stop>
    ensures { Tells (statements.updated in_place by old v.now (seen state.old)) result state.new }
{
    match (by, &old) {
        (BinaryOp::Add, Value::Ref(at)) => {
            extend(alloc, state, *at, v)?;
            Ok(old)
        }
        _ => binary(alloc, state, by, &old, v),
    }
}
