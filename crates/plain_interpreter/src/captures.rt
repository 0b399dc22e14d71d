//! What a region is made of when it begins.

#![tactic(auto, unfolding(meaning_rules::specs::Outcome::bind, meaning_rules::specs::Outcome::pure, meaning_rules::specs::Outcome::look))]

ghost use Rattle.std.specs.Prelude.{◌≡◌, ◌++◌, ◌∷◌, [], ◌&&◌, not, length, map, drop, true, false, if◌then◌else◌, OnOk, IfOk, take};
ghost use Rattle.std.specs.List.{flat_map, filter, list_any};
ghost use Rattle.codon_base.specs.Levels.{object_at};
ghost use Rattle.codon_base.specs.declared.value.Value.{out-Value};
ghost use Rattle.meaning_rules.specs.State.{is_among};
ghost use Rattle.meaning_rules.specs.Captures as spec;
ghost use Rattle.meaning_rules.specs.Mentions as mentions;
ghost use Rattle.plain_interpreter.specs.Noted.{note_of, noted};
ghost use Rattle.meaning_rules.specs.Program.{is_variable};
ghost use Rattle.plain_interpreter.specs.Scopes.{scope_of};
ghost use Rattle.plain_interpreter.specs.Seen.{seen, TellsBy};
ghost use Rattle.plain_interpreter.specs.Tasks.{program_of, callable_of, region_of};
ghost use Rattle.plain_interpreter.specs.Reaching.{captured_of};

use crate::bodies::{assigned_body, push_loop_names, push_name};
use crate::mentions::{Note, note_body, note_stages};
use crate::names::is_among;
use crate::prepared::Prepared;
use crate::reach::{flagged_ones, push_outside, reached_flags};
use crate::scope::Scope;
use crate::state::{State, Stop};
use crate::task::Region;
use crate::variables::read_name;
use codon_base::{Heap, Holder, Memory, Object, Ref, Spelling, Value};
use source_trees::{LoopNames, Stage, Stmt};
use sqlite_items::Items;
use std::alloc::Global;

// ---- private names

/// The private names of a parallel loop.
fn private_names(
    alloc: Global,
    scope: &Scope<'_>,
    names: &LoopNames,
    body: &[Stmt],
) -> Result<Items<Spelling>, Memory>
    ensures { IfOk result (λ own. own ≡ spec.private_names (scope_of scope.now) names.now body.now) }
{
    let mut assigned = Items::new(alloc);
    assigned_body(alloc, body, true, &mut assigned)?;
    let mut own = Items::new(alloc);
    push_loop_names(alloc, names, &mut own)?;
    push_not_fixed(alloc, scope, assigned.as_slice(), &mut own)?;
    Ok(own)
}

fn push_not_fixed(
    alloc: Global,
    scope: &Scope<'_>,
    assigned: &[Spelling],
    own: &mut Items<Spelling>,
) -> Result<(), Memory>
    ensures { OnOk result (own.new ≡ own.old ++ filter (λ name. not (is_among name (scope_of scope.now).fixed)) assigned.now) }
{
    'assigned: for name in assigned {
        if !is_among(name, scope.fixed) {
            push_name(alloc, name, own)?;
        }
    }
    Ok(())
}

/// The names that no region in the body of a parallel loop has as private ones.
#[inline(never)]
pub(crate) fn fixed_of(
    alloc: Global,
    scope: &Scope<'_>,
    names: &LoopNames,
    body: &[Stmt],
) -> Result<Items<Spelling>, Memory>
    ensures { IfOk result (λ fixed. fixed ≡ (spec.body_scope (scope_of scope.now) names.now body.now).fixed) }
{
    let mut fixed = Items::new(alloc);
    push_names(alloc, scope.fixed, &mut fixed)?;
    push_loop_names(alloc, names, &mut fixed)?;
    assigned_body(alloc, body, false, &mut fixed)?;
    Ok(fixed)
}

fn push_names(alloc: Global, more: &[Spelling], names: &mut Items<Spelling>) -> Result<(), Memory>
    ensures { OnOk result (names.new ≡ names.old ++ more.now) }
{
    'more: for name in more {
        push_name(alloc, name, names)?;
    }
    Ok(())
}

/// The private names that are variables of the text, or those that are the module's.
fn own_of(
    alloc: Global,
    scope: &Scope<'_>,
    own: &[Spelling],
    local: bool,
) -> Result<Items<Spelling>, Memory>
    ensures { IfOk result (λ names. names ≡ spec.own_of local (scope_of scope.now) own.now) }
{
    let mut names = Items::new(alloc);
    'own: for name in own {
        if scope.has(name) == local {
            push_name(alloc, name, &mut names)?;
        }
    }
    Ok(names)
}

// ---- captured names

/// Puts a name at the end, where it is not among the names yet.
fn push_new(alloc: Global, name: &Spelling, names: &mut Items<Spelling>) -> Result<(), Memory>
    ensures { OnOk result (names.new ≡ (if is_among name.now names.old then names.old else names.old ++ name.now ∷ [])) }
{
    if is_among(name, names.as_slice()) {
        Ok(())
    } else {
        push_name(alloc, name, names)
    }
}

/// Puts the variables round a text at the end that its notes mention, each once, but for names of its own.
fn push_outer_names(
    alloc: Global,
    program: &Prepared<'_>,
    scope: &Scope<'_>,
    own: &[Spelling],
    notes: &[Note<'_>],
    names: &mut Items<Spelling>,
) -> Result<(), Memory>
    ensures { OnOk result (names.new ≡ names.old ++ spec.each_new names.old (filter (λ name. is_variable (program_of program.now) (scope_of scope.now) name && not (is_among name own.now)) (mentions.mentioned (noted notes.now)))) }
{
    'notes: for note in notes {
        match note {
            Note::Mentions(name) => {
                if is_outer(program, scope, own, name) {
                    push_new(alloc, name, names)?;
                }
            }
            Note::Calls(_) => {}
            Note::CallsMethod(_) => {}
            Note::WritesPlace(_) => {}
        }
    }
    Ok(())
}

#[tactic(auto, unfolding(crate::specs::Tasks::program_of))]
fn is_outer(program: &Prepared<'_>, scope: &Scope<'_>, own: &[Spelling], name: &Spelling) -> bool
    ensures { result ≡ (is_variable (program_of program.now) (scope_of scope.now) name.now && not (is_among name.now own.now)) }
{
    (scope.has(name) || is_among(name, program.variables.as_slice())) && !is_among(name, own)
}

/// Puts the module's variables at the end that notes mention, each once, without those that were read already.
fn push_module_names(
    alloc: Global,
    program: &Prepared<'_>,
    scope: &Scope<'_>,
    outer: &[Spelling],
    notes: &[Note<'_>],
    names: &mut Items<Spelling>,
) -> Result<(), Memory>
    ensures { OnOk result (names.new ≡ names.old ++ spec.each_new names.old (filter (λ name. is_among name (program_of program.now).variables && not (is_among name outer.now && not (is_among name (scope_of scope.now).locals))) (mentions.mentioned (noted notes.now)))) }
{
    'notes: for note in notes {
        match note {
            Note::Mentions(name) => {
                if is_unread(program, scope, outer, name) {
                    push_new(alloc, name, names)?;
                }
            }
            Note::Calls(_) => {}
            Note::CallsMethod(_) => {}
            Note::WritesPlace(_) => {}
        }
    }
    Ok(())
}

#[tactic(auto, unfolding(crate::specs::Tasks::program_of))]
fn is_unread(program: &Prepared<'_>, scope: &Scope<'_>, outer: &[Spelling], name: &Spelling) -> bool
    ensures { result ≡ (is_among name.now (program_of program.now).variables && not (is_among name.now outer.now && not (is_among name.now (scope_of scope.now).locals))) }
{
    is_among(name, program.variables.as_slice()) && !(is_among(name, outer) && !scope.has(name))
}

/// The names through which notes write places.
fn written_places(alloc: Global, notes: &[Note<'_>]) -> Result<Items<Spelling>, Memory>
    ensures { IfOk result (λ names. names ≡ mentions.written_places (noted notes.now)) }
{
    let mut names = Items::new(alloc);
    'notes: for note in notes {
        match note {
            Note::WritesPlace(name) => push_name(alloc, name, &mut names)?,
            Note::Mentions(_) => {}
            Note::Calls(_) => {}
            Note::CallsMethod(_) => {}
        }
    }
    Ok(names)
}

// ---- the beginning of a region

/// A captured name with what it held when the region began.
#[derive(Drop)]
pub(crate) struct Captured<'a> {
    pub(crate) name: &'a Spelling,
    pub(crate) value: Value,
}

fn capture<'a>(
    alloc: Global,
    state: &mut State,
    program: &Prepared<'_>,
    scope: &Scope<'_>,
    names: &'a [Spelling],
) -> Result<Vec<Captured<'a>>, Stop>
    ensures { TellsBy (λ (captured : _). map captured_of captured.items) (spec.capture (program_of program.now) (scope_of scope.now) names.now (seen state.old)) result state.new }
{
    let mut captured = Vec::new(alloc);
    'names: for name in names {
        let value = read_name(alloc, state, scope, name)?;
        captured.push(Captured { name, value })?;
    }
    Ok(captured)
}

/// Puts the addresses at the end of the lists that names hold which are lent.
fn push_lists(
    heap: &Heap,
    captured: &[Captured<'_>],
    lent: &[Spelling],
    refs: &mut Items<Ref>,
) -> Result<(), Memory>
    ensures { OnOk result (refs.new ≡ refs.old ++ spec.held spec.is_list heap.now (filter (λ each. is_among each.name lent.now) (map captured_of captured.now))) }
{
    'captured: for each in captured {
        if is_among(each.name, lent) {
            push_list(heap, &each.value, refs)?;
        }
    }
    Ok(())
}

fn push_list(heap: &Heap, value: &Value, refs: &mut Items<Ref>) -> Result<(), Memory>
    ensures { OnOk result (refs.new ≡ refs.old ++ filter (λ at. spec.is_list (object_at heap.now at)) (spec.address_in (out-Value value.now))) }
{
    match value {
        Value::Ref(at) => {
            if is_list(heap, *at) {
                refs.push(*at)?;
            }
            Ok(())
        }
        Value::Int(_) => Ok(()),
        Value::Bool(_) => Ok(()),
        Value::Text(_) => Ok(()),
        Value::Tuple(_) => Ok(()),
        Value::Unit => Ok(()),
        Value::Unset => Ok(()),
    }
}

fn is_list(heap: &Heap, at: Ref) -> bool
    ensures { result ≡ spec.is_list (object_at heap.now at) }
{
    match heap.get(at) {
        Some(Object::List(_)) => true,
        Some(
            Object::Instance {
                class: _,
                fields: _,
            },
        ) => false,
        None => false,
    }
}

/// Puts the addresses at the end of the instances that names hold.
fn push_instances(
    heap: &Heap,
    captured: &[Captured<'_>],
    refs: &mut Items<Ref>,
) -> Result<(), Memory>
    ensures { OnOk result (refs.new ≡ refs.old ++ spec.held spec.is_instance heap.now (map captured_of captured.now)) }
{
    'captured: for each in captured {
        push_instance(heap, &each.value, refs)?;
    }
    Ok(())
}

fn push_instance(heap: &Heap, value: &Value, refs: &mut Items<Ref>) -> Result<(), Memory>
    ensures { OnOk result (refs.new ≡ refs.old ++ filter (λ at. spec.is_instance (object_at heap.now at)) (spec.address_in (out-Value value.now))) }
{
    match value {
        Value::Ref(at) => {
            if is_instance(heap, *at) {
                refs.push(*at)?;
            }
            Ok(())
        }
        Value::Int(_) => Ok(()),
        Value::Bool(_) => Ok(()),
        Value::Text(_) => Ok(()),
        Value::Tuple(_) => Ok(()),
        Value::Unit => Ok(()),
        Value::Unset => Ok(()),
    }
}

fn is_instance(heap: &Heap, at: Ref) -> bool
    ensures { result ≡ spec.is_instance (object_at heap.now at) }
{
    match heap.get(at) {
        Some(
            Object::Instance {
                class: _,
                fields: _,
            },
        ) => true,
        Some(Object::List(_)) => false,
        None => false,
    }
}

#[tactic(auto, unfolding(crate::specs::Seen::seen))]
fn region_of(
    alloc: Global,
    heap: &Heap,
    scope: &Scope<'_>,
    own: &[Spelling],
    lent: &[Spelling],
    outer: &[Captured<'_>],
    others: &[Captured<'_>],
) -> Result<Region, Memory>
    ensures { IfOk result (λ region. region_of region ≡ spec.region_of (scope_of scope.now) own.now lent.now heap.now (map captured_of outer.now) (map captured_of others.now)) }
{
    let mut lists = Items::new(alloc);
    push_lists(heap, outer, lent, &mut lists)?;
    let mut targets = Items::new(alloc);
    push_instances(heap, outer, &mut targets)?;
    push_instances(heap, others, &mut targets)?;
    let local = own_of(alloc, scope, own, true)?;
    let own_globals = own_of(alloc, scope, own, false)?;
    Ok(Region {
        lent: lists,
        targets,
        own: local,
        own_globals,
    })
}

/// The notes of the functions and methods that a text reaches, but for their own names.
fn reached_notes<'m>(
    alloc: Global,
    program: &Prepared<'m>,
    notes: &[Note<'m>],
) -> Result<Vec<Note<'m>>, Memory>
    ensures { IfOk result (λ outside. noted outside.items ≡ flat_map spec.notes_outside (spec.reached (program_of program.now) (noted notes.now))) }
{
    let flags = reached_flags(alloc, &program.callables, notes)?;
    let mut outside = Vec::new(alloc);
    let ones = flagged_ones(alloc, &program.callables, &flags)?;
    push_outside(alloc, &ones, &mut outside)?;
    Ok(outside)
}

/// The module's variables that the functions mention that a text reaches, without those that were read already.
fn module_names(
    alloc: Global,
    program: &Prepared<'_>,
    scope: &Scope<'_>,
    outer: &[Spelling],
    notes: &[Note<'_>],
) -> Result<Items<Spelling>, Memory>
    ensures { IfOk result (λ names. names ≡ spec.module_names (program_of program.now) (scope_of scope.now) outer.now (noted notes.now)) }
{
    let outside = reached_notes(alloc, program, notes)?;
    let mut names = Items::new(alloc);
    push_module_names(alloc, program, scope, outer, &outside, &mut names)?;
    Ok(names)
}

/// A region with these private names and these notes of its text, which lends the lists of these names.
fn begin(
    alloc: Global,
    state: &mut State,
    program: &Prepared<'_>,
    scope: &Scope<'_>,
    own: &[Spelling],
    notes: &[Note<'_>],
    lent: &[Spelling],
) -> Result<Region, Stop>
    ensures { TellsBy region_of (spec.begin (program_of program.now) (scope_of scope.now) own.now (noted notes.now) lent.now (seen state.old)) result state.new }
{
    let mut names = Items::new(alloc);
    push_outer_names(alloc, program, scope, own, notes, &mut names)?;
    let outer = capture(alloc, state, program, scope, names.as_slice())?;
    let outside = Scope {
        inner: &[],
        locals: &[],
        fixed: scope.fixed,
        in_prelude: scope.in_prelude,
    };
    let others = module_names(alloc, program, scope, names.as_slice(), notes)?;
    let others = capture(alloc, state, program, &outside, others.as_slice())?;
    Ok(region_of(alloc, &state.store.heap, scope, own, lent, &outer, &others)?)
}

/// What a parallel loop is when it begins. It lends lists where it goes over a range.
#[inline(never)]
pub(crate) fn begin_loop(
    alloc: Global,
    state: &mut State,
    program: &Prepared<'_>,
    scope: &Scope<'_>,
    names: &LoopNames,
    over_range: bool,
    body: &Items<Stmt>,
) -> Result<Region, Stop>
    ensures { TellsBy region_of (spec.begin_loop (program_of program.now) (scope_of scope.now) names.now over_range body.now (seen state.old)) result state.new }
{
    let mut notes = Vec::new(alloc);
    note_body(alloc, body.as_slice(), &mut notes)?;
    let own = private_names(alloc, scope, names, body.as_slice())?;
    let lent = lent_names(alloc, over_range, &notes)?;
    begin(
        alloc,
        state,
        program,
        scope,
        own.as_slice(),
        &notes,
        lent.as_slice(),
    )
}

fn lent_names(
    alloc: Global,
    over_range: bool,
    notes: &[Note<'_>],
) -> Result<Items<Spelling>, Memory>
    ensures { IfOk result (λ names. names ≡ (if over_range then mentions.written_places (noted notes.now) else [])) }
{
    if over_range {
        written_places(alloc, notes)
    } else {
        Ok(Items::new(alloc))
    }
}

/// What the region is when it begins whose first stage is at this place.
pub(crate) fn begin_stages(
    alloc: Global,
    state: &mut State,
    program: &Prepared<'_>,
    scope: &Scope<'_>,
    stages: &Items<Stage>,
    from: usize,
) -> Result<Region, Stop>
    ensures { TellsBy region_of (spec.begin (program_of program.now) (scope_of scope.now) [] (mentions.notes_of_stages (drop from stages.now)) [] (seen state.old)) result state.new }
{
    let mut notes = Vec::new(alloc);
    note_stages(alloc, after(stages.as_slice(), from), &mut notes)?;
    begin(alloc, state, program, scope, &[], &notes, &[])
}

/// The stages from a place on.
fn after(stages: &[Stage], from: usize) -> &[Stage]
    ensures { result.now ≡ drop from stages.now }
{
    match stages.get(from..) {
        Some(rest) => rest,
        None => &[],
    }
}
