//! What the text of a body speaks of: the variables that it mentions, what it calls, and the lists whose places it assigns by name, in the order of the text.

#![tactic(auto, using(crate::proofs::NoteEquations::note_rules))]

ghost use Rattle.std.specs.Prelude.{◌≡◌, ◌++◌, ◌∷◌, [], not, OnOk};
ghost use Rattle.std.specs.List.{flat_map, filter};
ghost use Rattle.source_trees.specs.declared.expression.Expr.{out-Expr};
ghost use Rattle.source_trees.specs.Names.{loop_names};
ghost use Rattle.meaning_rules.specs.Mentions as spec;
ghost use Rattle.plain_interpreter.specs.Noted.{note_of, noted, notes_of_comparison, notes_of_arm, notes_of_for, notes_in_parallel};

use crate::bodies::push_loop_names;
use crate::names::is_among;
use codon_base::{Memory, Spelling};
use source_trees::{
    Arm, Comparison, Expr, For, LoopNames, Name, PrintOptions, Printed, Stage, StageForm, Stmt,
    Target, Targets,
};
use sqlite_items::{Boxed, Items};
use std::alloc::Global;

/// A variable, a call or a stage by name, a call of a method, an assignment to a place of what a name holds.
#[derive(Clone, Copy)]
pub(crate) enum Note<'a> {
    Mentions(&'a Spelling),
    Calls(&'a Spelling),
    CallsMethod(&'a Spelling),
    WritesPlace(&'a Spelling),
}

fn push<'a>(note: Note<'a>, notes: &mut Vec<Note<'a>>) -> Result<(), Memory>
    ensures { OnOk result (noted notes.new.items ≡ noted notes.old.items ++ note_of note.entry ∷ []) }
{
    notes.push(note)?;
    Ok(())
}

/// Whether a note speaks of one of these variables.
fn speaks_of(own: &[Spelling], note: Note<'_>) -> bool
    ensures { result ≡ spec.speaks_of own.now (note_of note.entry) }
{
    match note {
        Note::Mentions(name) => is_among(name, own),
        Note::WritesPlace(name) => is_among(name, own),
        Note::Calls(_) => false,
        Note::CallsMethod(_) => false,
    }
}

/// Puts the notes at the end that do not speak of these variables.
pub(crate) fn push_others<'a>(
    own: &[Spelling],
    inner: &[Note<'a>],
    notes: &mut Vec<Note<'a>>,
) -> Result<(), Memory>
    ensures { OnOk result (noted notes.new.items ≡ noted notes.old.items ++ spec.but_of own.now (noted inner.now)) }
{
    'inner: for note in inner {
        if !speaks_of(own, *note) {
            push(*note, notes)?;
        }
    }
    Ok(())
}

/// Puts the notes at the end that do not speak of the names of a loop or a comprehension.
fn push_but_of<'a>(
    alloc: Global,
    own: &LoopNames,
    inner: &[Note<'a>],
    notes: &mut Vec<Note<'a>>,
) -> Result<(), Memory>
    ensures { OnOk result (noted notes.new.items ≡ noted notes.old.items ++ spec.but_of (loop_names own.now) (noted inner.now)) }
{
    let mut names = Items::new(alloc);
    push_loop_names(alloc, own, &mut names)?;
    push_others(names.as_slice(), inner, notes)
}

// ---- expressions

/// Puts the notes of an expression at the end.
#[cycle(expression)]
pub(crate) fn note_expr<'a>(
    alloc: Global,
    e: &'a Expr,
    notes: &mut Vec<Note<'a>>,
) -> Result<(), Memory>
    ensures { OnOk result (noted notes.new.items ≡ noted notes.old.items ++ spec.notes_of_expr e.now) }
{
    match e {
        Expr::Name(_, name) => push(Note::Mentions(name), notes),
        Expr::Number(_, _) => Ok(()),
        Expr::Text(_, _) => Ok(()),
        Expr::True(_) => Ok(()),
        Expr::False(_) => Ok(()),
        Expr::None(_) => Ok(()),
        Expr::Bracketed(_, inner) => note_expr(alloc, inner.get(), notes),
        Expr::Tuple(_, _, items) => note_exprs(alloc, items.as_slice(), notes),
        Expr::List(_, items) => note_exprs(alloc, items.as_slice(), notes),
        Expr::Comprehension(_, item, names, iterable, condition) => {
            note_own(alloc, names, item.get(), notes)?;
            note_expr(alloc, iterable.get(), notes)?;
            note_condition(alloc, names, condition, notes)?;
            Ok(())
        }
        Expr::Conditional(_, value, condition, other) => {
            note_expr(alloc, value.get(), notes)?;
            note_expr(alloc, condition.get(), notes)?;
            note_expr(alloc, other.get(), notes)
        }
        Expr::Or(_, operands) => note_exprs(alloc, operands.as_slice(), notes),
        Expr::And(_, operands) => note_exprs(alloc, operands.as_slice(), notes),
        Expr::Not(_, operand) => note_expr(alloc, operand.get(), notes),
        Expr::Compare(_, first, others) => {
            note_expr(alloc, first.get(), notes)?;
            note_comparisons(alloc, others.as_slice(), notes)
        }
        Expr::Unary(_, _, operand) => note_expr(alloc, operand.get(), notes),
        Expr::Binary(_, _, left, right) => {
            note_expr(alloc, left.get(), notes)?;
            note_expr(alloc, right.get(), notes)
        }
        Expr::Call(_, name, arguments) => {
            push(Note::Calls(&name.spelling), notes)?;
            note_exprs(alloc, arguments.as_slice(), notes)
        }
        Expr::MethodCall(_, _, object, name, arguments) => {
            push(Note::CallsMethod(name), notes)?;
            note_expr(alloc, object.get(), notes)?;
            note_exprs(alloc, arguments.as_slice(), notes)
        }
        Expr::Index(_, object, index) => {
            note_expr(alloc, object.get(), notes)?;
            note_expr(alloc, index.get(), notes)
        }
        Expr::Slice(_, object, from, to) => {
            note_expr(alloc, object.get(), notes)?;
            note_bound(alloc, from, notes)?;
            note_bound(alloc, to, notes)?;
            Ok(())
        }
        Expr::Field(_, object, _) => note_expr(alloc, object.get(), notes),
    }
}

/// The notes of an expression in which names are its own.
#[cycle(expression)]
fn note_own<'a>(
    alloc: Global,
    own: &LoopNames,
    e: &'a Expr,
    notes: &mut Vec<Note<'a>>,
) -> Result<(), Memory>
    ensures { OnOk result (noted notes.new.items ≡ noted notes.old.items ++ spec.but_of (loop_names own.now) (spec.notes_of_expr e.now)) }
{
    let mut inner = Vec::new(alloc);
    note_expr(alloc, e, &mut inner)?;
    push_but_of(alloc, own, &inner, notes)
}

#[cycle(expression)]
fn note_condition<'a>(
    alloc: Global,
    own: &LoopNames,
    condition: &'a Option<Boxed<Expr>>,
    notes: &mut Vec<Note<'a>>,
) -> Result<(), Memory>
    ensures { OnOk result (noted notes.new.items ≡ noted notes.old.items ++ spec.but_of (loop_names own.now) (spec.notes_of_optional condition.now)) }
{
    match condition {
        Some(e) => note_own(alloc, own, e.get(), notes),
        None => Ok(()),
    }
}

#[cycle(expression)]
fn note_bound<'a>(
    alloc: Global,
    bound: &'a Option<Boxed<Expr>>,
    notes: &mut Vec<Note<'a>>,
) -> Result<(), Memory>
    ensures { OnOk result (noted notes.new.items ≡ noted notes.old.items ++ spec.notes_of_optional bound.now) }
{
    match bound {
        Some(e) => note_expr(alloc, e.get(), notes),
        None => Ok(()),
    }
}

#[cycle(expression)]
fn note_exprs<'a>(alloc: Global, items: &'a [Expr], notes: &mut Vec<Note<'a>>) -> Result<(), Memory>
    ensures { OnOk result (noted notes.new.items ≡ noted notes.old.items ++ spec.notes_of_exprs items.now) }
{
    'items: for e in items {
        note_expr(alloc, e, notes)?;
    }
    Ok(())
}

#[cycle(expression)]
fn note_comparisons<'a>(
    alloc: Global,
    others: &'a [Comparison],
    notes: &mut Vec<Note<'a>>,
) -> Result<(), Memory>
    ensures { OnOk result (noted notes.new.items ≡ noted notes.old.items ++ flat_map notes_of_comparison others.now) }
{
    'others: for other in others {
        note_expr(alloc, &other.right, notes)?;
    }
    Ok(())
}

fn note_optional<'a>(
    alloc: Global,
    value: &'a Option<Expr>,
    notes: &mut Vec<Note<'a>>,
) -> Result<(), Memory>
    ensures { OnOk result (noted notes.new.items ≡ noted notes.old.items ++ spec.notes_of_optional value.now) }
{
    match value {
        Some(e) => note_expr(alloc, e, notes),
        None => Ok(()),
    }
}

// ---- targets and names

fn note_place<'a>(object: &'a Expr, notes: &mut Vec<Note<'a>>) -> Result<(), Memory>
    ensures { OnOk result (noted notes.new.items ≡ noted notes.old.items ++ spec.name_in (out-Expr object.now)) }
{
    match object {
        Expr::Name(_, name) => push(Note::WritesPlace(name), notes),
        _ => Ok(()),
    }
}

fn note_target<'a>(
    alloc: Global,
    target: &'a Target,
    notes: &mut Vec<Note<'a>>,
) -> Result<(), Memory>
    ensures { OnOk result (noted notes.new.items ≡ noted notes.old.items ++ spec.notes_of_target target.now) }
{
    match target {
        Target::Name(_, name) => push(Note::Mentions(name), notes),
        Target::Index(_, object, index) => {
            note_place(object, notes)?;
            note_expr(alloc, object, notes)?;
            note_expr(alloc, index, notes)
        }
        Target::Field(_, object, _) => note_expr(alloc, object, notes),
    }
}

fn note_each_target<'a>(
    alloc: Global,
    all: &'a [Target],
    notes: &mut Vec<Note<'a>>,
) -> Result<(), Memory>
    ensures { OnOk result (noted notes.new.items ≡ noted notes.old.items ++ flat_map spec.notes_of_target all.now) }
{
    'all: for target in all {
        note_target(alloc, target, notes)?;
    }
    Ok(())
}

fn note_targets<'a>(
    alloc: Global,
    targets: &'a Targets,
    notes: &mut Vec<Note<'a>>,
) -> Result<(), Memory>
    ensures { OnOk result (noted notes.new.items ≡ noted notes.old.items ++ spec.notes_of_targets targets.now) }
{
    match targets {
        Targets::One(only) => note_target(alloc, only, notes),
        Targets::Several(_, all) => note_each_target(alloc, all.as_slice(), notes),
    }
}

fn note_each_name<'a>(all: &'a [Name], notes: &mut Vec<Note<'a>>) -> Result<(), Memory>
    ensures { OnOk result (noted notes.new.items ≡ noted notes.old.items ++ flat_map spec.mention_name all.now) }
{
    'all: for name in all {
        push(Note::Mentions(&name.spelling), notes)?;
    }
    Ok(())
}

fn note_loop_names<'a>(names: &'a LoopNames, notes: &mut Vec<Note<'a>>) -> Result<(), Memory>
    ensures { OnOk result (noted notes.new.items ≡ noted notes.old.items ++ spec.notes_of_loop_names names.now) }
{
    match names {
        LoopNames::One(only) => push(Note::Mentions(&only.spelling), notes),
        LoopNames::Several(all) => note_each_name(all.as_slice(), notes),
    }
}

// ---- print and stages

fn note_options<'a>(
    alloc: Global,
    options: &'a PrintOptions,
    notes: &mut Vec<Note<'a>>,
) -> Result<(), Memory>
    ensures { OnOk result (noted notes.new.items ≡ noted notes.old.items ++ spec.notes_of_options options.now) }
{
    match options {
        PrintOptions::Neither => Ok(()),
        PrintOptions::Sep(sep) => note_expr(alloc, sep, notes),
        PrintOptions::End(last) => note_expr(alloc, last, notes),
        PrintOptions::SepEnd(sep, last) => {
            note_expr(alloc, sep, notes)?;
            note_expr(alloc, last, notes)
        }
        PrintOptions::EndSep(last, sep) => {
            note_expr(alloc, last, notes)?;
            note_expr(alloc, sep, notes)
        }
    }
}

fn note_printed<'a>(
    alloc: Global,
    printed: &'a Printed,
    notes: &mut Vec<Note<'a>>,
) -> Result<(), Memory>
    ensures { OnOk result (noted notes.new.items ≡ noted notes.old.items ++ spec.notes_of_printed printed.now) }
{
    note_exprs(alloc, printed.values.as_slice(), notes)?;
    note_options(alloc, &printed.options, notes)
}

fn note_form<'a>(
    alloc: Global,
    form: &'a StageForm,
    notes: &mut Vec<Note<'a>>,
) -> Result<(), Memory>
    ensures { OnOk result (noted notes.new.items ≡ noted notes.old.items ++ spec.notes_of_form form.now) }
{
    match form {
        StageForm::Iter => Ok(()),
        StageForm::Call(name, before, behind) => {
            push(Note::Calls(name), notes)?;
            note_exprs(alloc, before.as_slice(), notes)?;
            note_exprs(alloc, behind.as_slice(), notes)
        }
        StageForm::Print(printed) => note_printed(alloc, printed, notes),
    }
}

/// Puts the notes of stages at the end.
pub(crate) fn note_stages<'a>(
    alloc: Global,
    stages: &'a [Stage],
    notes: &mut Vec<Note<'a>>,
) -> Result<(), Memory>
    ensures { OnOk result (noted notes.new.items ≡ noted notes.old.items ++ spec.notes_of_stages stages.now) }
{
    'stages: for stage in stages {
        note_form(alloc, &stage.form, notes)?;
    }
    Ok(())
}

// ---- statements

#[cycle(statement)]
fn note_stmt<'a>(alloc: Global, s: &'a Stmt, notes: &mut Vec<Note<'a>>) -> Result<(), Memory>
    ensures { OnOk result (noted notes.new.items ≡ noted notes.old.items ++ spec.notes_of_stmt s.now) }
{
    match s {
        Stmt::Pass(_) => Ok(()),
        Stmt::Break(_) => Ok(()),
        Stmt::Continue(_) => Ok(()),
        Stmt::Return(_, value) => note_optional(alloc, value, notes),
        Stmt::Yield(_, value) => note_expr(alloc, value, notes),
        Stmt::Raise(_, _, text) => note_optional(alloc, text, notes),
        Stmt::Assert(_, condition, text) => {
            note_expr(alloc, condition, notes)?;
            note_optional(alloc, text, notes)
        }
        Stmt::Annotated(_, name, _, value) => {
            push(Note::Mentions(&name.spelling), notes)?;
            note_optional(alloc, value, notes)
        }
        Stmt::Assign(_, targets, value) => {
            note_targets(alloc, targets, notes)?;
            note_expr(alloc, value, notes)
        }
        Stmt::Update(_, target, _, value) => {
            note_target(alloc, target, notes)?;
            note_expr(alloc, value, notes)
        }
        Stmt::Evaluate(_, value) => note_expr(alloc, value, notes),
        Stmt::Print(_, printed) => note_printed(alloc, printed, notes),
        Stmt::Pipeline(_, head, stages) => {
            note_expr(alloc, head, notes)?;
            note_stages(alloc, stages.as_slice(), notes)
        }
        Stmt::If(_, arms, otherwise) => {
            note_arms(alloc, arms.as_slice(), notes)?;
            note_body(alloc, otherwise.as_slice(), notes)
        }
        Stmt::While(_, condition, body) => {
            note_expr(alloc, condition, notes)?;
            note_body(alloc, body.as_slice(), notes)
        }
        Stmt::For(l) => note_for(alloc, l, notes),
        Stmt::Par(_, _, l) => note_parallel(alloc, l, notes),
    }
}

#[cycle(statement)]
fn note_arms<'a>(alloc: Global, arms: &'a [Arm], notes: &mut Vec<Note<'a>>) -> Result<(), Memory>
    ensures { OnOk result (noted notes.new.items ≡ noted notes.old.items ++ flat_map notes_of_arm arms.now) }
{
    'arms: for arm in arms {
        note_expr(alloc, &arm.condition, notes)?;
        note_body(alloc, arm.body.as_slice(), notes)?;
    }
    Ok(())
}

#[cycle(statement)]
fn note_for<'a>(alloc: Global, l: &'a For, notes: &mut Vec<Note<'a>>) -> Result<(), Memory>
    ensures { OnOk result (noted notes.new.items ≡ noted notes.old.items ++ notes_of_for l.now) }
{
    note_loop_names(&l.names, notes)?;
    note_expr(alloc, &l.iterable, notes)?;
    note_body(alloc, l.body.as_slice(), notes)
}

#[cycle(statement)]
fn note_parallel<'a>(alloc: Global, l: &'a For, notes: &mut Vec<Note<'a>>) -> Result<(), Memory>
    ensures { OnOk result (noted notes.new.items ≡ noted notes.old.items ++ notes_in_parallel l.now) }
{
    note_expr(alloc, &l.iterable, notes)?;
    let mut inner = Vec::new(alloc);
    note_body(alloc, l.body.as_slice(), &mut inner)?;
    push_but_of(alloc, &l.names, &inner, notes)
}

/// Puts the notes of a body at the end.
#[cycle(statement)]
pub(crate) fn note_body<'a>(
    alloc: Global,
    body: &'a [Stmt],
    notes: &mut Vec<Note<'a>>,
) -> Result<(), Memory>
    ensures { OnOk result (noted notes.new.items ≡ noted notes.old.items ++ spec.notes_of_body body.now) }
{
    'body: for s in body {
        note_stmt(alloc, s, notes)?;
    }
    Ok(())
}
