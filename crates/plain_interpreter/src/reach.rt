//! Which functions and methods a text reaches, by the names that are called in it and in them.

#![tactic(auto, using(crate::proofs::BodyEquations::list_rules))]

ghost use Rattle.std.specs.Prelude.{◌≡◌, ◌++◌, length, map, OnOk, IfOk};
ghost use Rattle.std.specs.List.{flat_map, list_any};
ghost use Rattle.meaning_rules.specs.Captures as spec;
ghost use Rattle.plain_interpreter.specs.Noted.{note_of, noted};
ghost use Rattle.plain_interpreter.specs.Tasks.{callable_of};
ghost use Rattle.plain_interpreter.specs.Reaching.{flagged, one_if, picked, flags_of, flags_within};

use crate::mentions::{Note, note_body, push_others};
use crate::names::same;
use crate::prepare::push_locals;
use crate::prepared::Callable;
use codon_base::{Memory, Spelling};
use sqlite_items::Items;
use std::alloc::Global;

/// Whether a note calls a function or a method.
fn is_called_by(callable: &Callable<'_>, note: Note<'_>) -> bool
    ensures { result ≡ spec.is_called_by (callable_of callable.now) (note_of note.entry) }
{
    let name = &callable.function.name.spelling;
    match callable.class_name {
        None => calls_name(name, note),
        Some(class) => {
            calls_method(name, note)
                || (name.as_slice() == b"__init__".as_slice() && calls_name(class, note))
        }
    }
}

fn calls_name(name: &Spelling, note: Note<'_>) -> bool
    ensures { result ≡ spec.calls_name name.now (note_of note.entry) }
{
    match note {
        Note::Calls(other) => same(name, other),
        Note::Mentions(_) => false,
        Note::CallsMethod(_) => false,
        Note::WritesPlace(_) => false,
    }
}

fn calls_method(name: &Spelling, note: Note<'_>) -> bool
    ensures { result ≡ spec.calls_method name.now (note_of note.entry) }
{
    match note {
        Note::CallsMethod(other) => same(name, other),
        Note::Mentions(_) => false,
        Note::Calls(_) => false,
        Note::WritesPlace(_) => false,
    }
}

fn is_called(callable: &Callable<'_>, notes: &[Note<'_>]) -> bool
    ensures { result ≡ list_any (spec.is_called_by (callable_of callable.now)) (noted notes.now) }
{
    'notes: for note in notes {
        if is_called_by(callable, *note) {
            return true;
        }
    }
    false
}

/// Which functions and methods notes call.
fn called_flags(
    alloc: Global,
    callables: &[Callable<'_>],
    notes: &[Note<'_>],
) -> Result<Vec<bool>, Memory>
    ensures { IfOk result (λ flags. flags.items ≡ flags_of (noted notes.now) (map callable_of callables.now)) }
{
    let mut flags = Vec::new(alloc);
    'callables: for callable in callables {
        flags.push(is_called(callable, notes))?;
    }
    Ok(flags)
}

/// Whether the function or method at a place is flagged.
fn is_flagged(flags: &[bool], place: usize) -> bool
    ensures { result ≡ flagged flags.now place }
{
    match flags.get(place) {
        Some(flag) => *flag,
        None => false,
    }
}

fn push_flagged<'m>(
    callable: &Callable<'m>,
    flags: &[bool],
    place: usize,
    ones: &mut Vec<Callable<'m>>,
) -> Result<(), Memory>
    ensures { OnOk result (map callable_of ones.new.items ≡ map callable_of ones.old.items ++ one_if (flagged flags.now place) (callable_of callable.now)) }
{
    if is_flagged(flags, place) {
        ones.push(*callable)?;
    }
    Ok(())
}

/// The flagged functions and methods.
pub(crate) fn flagged_ones<'m>(
    alloc: Global,
    callables: &[Callable<'m>],
    flags: &[bool],
) -> Result<Vec<Callable<'m>>, Memory>
    ensures { IfOk result (λ ones. map callable_of ones.items ≡ picked (map callable_of callables.now) flags.now) }
{
    let mut ones = Vec::new(alloc);
    let mut place = 0;
    'callables: for callable in callables {
        push_flagged(callable, flags, place, &mut ones)?;
        place += 1;
    }
    Ok(ones)
}

/// Puts the notes of functions and methods at the end.
fn push_reached<'m>(
    alloc: Global,
    ones: &[Callable<'m>],
    notes: &mut Vec<Note<'m>>,
) -> Result<(), Memory>
    ensures { OnOk result (noted notes.new.items ≡ noted notes.old.items ++ spec.notes_of_reached (map callable_of ones.now)) }
{
    'ones: for callable in ones {
        note_body(alloc, callable.function.body.as_slice(), notes)?;
    }
    Ok(())
}

/// Puts the notes of functions and methods at the end, but for their own names.
pub(crate) fn push_outside<'m>(
    alloc: Global,
    ones: &[Callable<'m>],
    notes: &mut Vec<Note<'m>>,
) -> Result<(), Memory>
    ensures { OnOk result (noted notes.new.items ≡ noted notes.old.items ++ flat_map spec.notes_outside (map callable_of ones.now)) }
{
    'ones: for callable in ones {
        push_outside_of(alloc, callable, notes)?;
    }
    Ok(())
}

fn push_outside_of<'m>(
    alloc: Global,
    callable: &Callable<'m>,
    notes: &mut Vec<Note<'m>>,
) -> Result<(), Memory>
    ensures { OnOk result (noted notes.new.items ≡ noted notes.old.items ++ spec.notes_outside (callable_of callable.now)) }
{
    let mut inner = Vec::new(alloc);
    note_body(alloc, callable.function.body.as_slice(), &mut inner)?;
    let mut locals = Items::new(alloc);
    push_locals(alloc, callable.function, true, &mut locals)?;
    push_others(locals.as_slice(), &inner, notes)
}

/// The next round of the reach: what notes call, and what is called there.
fn next_flags<'m>(
    alloc: Global,
    callables: &[Callable<'m>],
    notes: &[Note<'m>],
    flags: &[bool],
) -> Result<Vec<bool>, Memory>
    ensures { IfOk result (λ next. next.items ≡ flags_of (noted notes.now ++ spec.notes_of_reached (picked (map callable_of callables.now) flags.now)) (map callable_of callables.now)) }
{
    let mut all = Vec::from_slice(alloc, notes)?;
    let ones = flagged_ones(alloc, callables, flags)?;
    push_reached(alloc, &ones, &mut all)?;
    called_flags(alloc, callables, &all)
}

/// Which functions and methods notes call, directly or through others. Once a round adds none, no later one does.
#[tactic(auto, unfolding(crate::specs::Reaching::flags_within))]
pub(crate) fn reached_flags<'m>(
    alloc: Global,
    callables: &[Callable<'m>],
    notes: &[Note<'m>],
) -> Result<Vec<bool>, Memory>
    ensures { IfOk result (λ flags. flags.items ≡ flags_within (map callable_of callables.now) (noted notes.now) (length callables.now)) }
{
    let mut flags = called_flags(alloc, callables, notes)?;
    'rounds: for round in 0..callables.len() {
        let next = next_flags(alloc, callables, notes, &flags)?;
        if next.as_slice() == flags.as_slice() {
            return Ok(flags);
        }
        flags = next;
    }
    Ok(flags)
}
