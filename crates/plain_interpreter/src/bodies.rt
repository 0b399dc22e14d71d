//! Walks over the statements of a body: the names that they assign, and whether one of them yields or gives a value.

#![tactic(auto, using(crate::proofs::BodyEquations::body_rules))]

ghost use Rattle.std.specs.Prelude.{◌≡◌, ◌++◌, ◌∷◌, [], map, OnOk};
ghost use Rattle.std.specs.List.{flat_map, list_any};
ghost use Rattle.meaning_rules.specs.Bodies.{annotated_name, assigned_by, has_some, yields, gives_value};
ghost use Rattle.source_trees.specs.Names.{loop_names, target_names, targets_names};
ghost use Rattle.plain_interpreter.specs.Walked.{kept_if, assigned_arm, assigned_for, test_of, some_arm, some_for};

use codon_base::{Memory, Spelling};
use source_trees::{Arm, Expr, For, LoopNames, Name, Stmt, Target, Targets};
use sqlite_items::Items;
use std::alloc::Global;

/// The statements that a walk looks for.
#[derive(Clone, Copy, Debug, PartialEq, Eq)]
pub(crate) enum Sought {
    Yield,
    ReturnOfValue,
}

/// Puts an equal name at the end.
pub(crate) fn push_name(
    alloc: Global,
    name: &Spelling,
    names: &mut Items<Spelling>,
) -> Result<(), Memory>
    ensures { OnOk result (names.new ≡ names.old ++ name.now ∷ []) }
{
    names.push(Spelling::from_slice(alloc, name.as_slice())?)?;
    Ok(())
}

/// Puts the names of a loop at the end.
pub(crate) fn push_loop_names(
    alloc: Global,
    set: &LoopNames,
    names: &mut Items<Spelling>,
) -> Result<(), Memory>
    ensures { OnOk result (names.new ≡ names.old ++ loop_names set.now) }
{
    match set {
        LoopNames::One(only) => push_name(alloc, &only.spelling, names),
        LoopNames::Several(all) => push_all(alloc, all.as_slice(), names),
    }
}

fn push_all(alloc: Global, all: &[Name], names: &mut Items<Spelling>) -> Result<(), Memory>
    ensures { OnOk result (names.new ≡ names.old ++ map (λ name. name.spelling) all.now) }
{
    'all: for name in all {
        push_name(alloc, &name.spelling, names)?;
    }
    Ok(())
}

fn push_target(alloc: Global, target: &Target, names: &mut Items<Spelling>) -> Result<(), Memory>
    ensures { OnOk result (names.new ≡ names.old ++ target_names target.now) }
{
    match target {
        Target::Name(_, name) => push_name(alloc, name, names),
        Target::Index(_, _, _) => Ok(()),
        Target::Field(_, _, _) => Ok(()),
    }
}

fn push_targets(alloc: Global, targets: &Targets, names: &mut Items<Spelling>) -> Result<(), Memory>
    ensures { OnOk result (names.new ≡ names.old ++ targets_names targets.now) }
{
    match targets {
        Targets::One(only) => push_target(alloc, only, names),
        Targets::Several(_, all) => push_each(alloc, all.as_slice(), names),
    }
}

fn push_each(alloc: Global, all: &[Target], names: &mut Items<Spelling>) -> Result<(), Memory>
    ensures { OnOk result (names.new ≡ names.old ++ flat_map target_names all.now) }
{
    'all: for target in all {
        push_target(alloc, target, names)?;
    }
    Ok(())
}

fn push_annotated(
    alloc: Global,
    name: &Name,
    value: &Option<Expr>,
    names: &mut Items<Spelling>,
) -> Result<(), Memory>
    ensures { OnOk result (names.new ≡ names.old ++ annotated_name name.now value.now) }
{
    match value {
        Some(_) => push_name(alloc, &name.spelling, names),
        None => Ok(()),
    }
}

/// Puts the names at the end that a statement assigns, those of parallel loops only where they are asked for.
#[cycle(assigned)]
pub(crate) fn assigned_stmt(
    alloc: Global,
    s: &Stmt,
    all: bool,
    names: &mut Items<Spelling>,
) -> Result<(), Memory>
    ensures { OnOk result (names.new ≡ names.old ++ assigned_by (kept_if all) s.now) }
{
    match s {
        Stmt::Annotated(_, name, _, value) => push_annotated(alloc, name, value, names),
        Stmt::Assign(_, targets, _) => push_targets(alloc, targets, names),
        Stmt::Update(_, target, _, _) => push_target(alloc, target, names),
        Stmt::If(_, arms, otherwise) => {
            assigned_arms(alloc, arms.as_slice(), all, names)?;
            assigned_body(alloc, otherwise.as_slice(), all, names)
        }
        Stmt::While(_, _, body) => assigned_body(alloc, body.as_slice(), all, names),
        Stmt::For(l) => assigned_loop(alloc, l, all, names),
        Stmt::Par(_, _, l) => {
            if all {
                assigned_loop(alloc, l, all, names)
            } else {
                Ok(())
            }
        }
        Stmt::Pass(_) => Ok(()),
        Stmt::Break(_) => Ok(()),
        Stmt::Continue(_) => Ok(()),
        Stmt::Return(_, _) => Ok(()),
        Stmt::Yield(_, _) => Ok(()),
        Stmt::Raise(_, _, _) => Ok(()),
        Stmt::Assert(_, _, _) => Ok(()),
        Stmt::Evaluate(_, _) => Ok(()),
        Stmt::Print(_, _) => Ok(()),
        Stmt::Pipeline(_, _, _) => Ok(()),
    }
}

#[cycle(assigned)]
fn assigned_arms(
    alloc: Global,
    arms: &[Arm],
    all: bool,
    names: &mut Items<Spelling>,
) -> Result<(), Memory>
    ensures { OnOk result (names.new ≡ names.old ++ flat_map (assigned_arm (kept_if all)) arms.now) }
{
    'arms: for arm in arms {
        assigned_body(alloc, arm.body.as_slice(), all, names)?;
    }
    Ok(())
}

#[cycle(assigned)]
fn assigned_loop(
    alloc: Global,
    l: &For,
    all: bool,
    names: &mut Items<Spelling>,
) -> Result<(), Memory>
    ensures { OnOk result (names.new ≡ names.old ++ assigned_for (kept_if all) l.now) }
{
    push_loop_names(alloc, &l.names, names)?;
    assigned_body(alloc, l.body.as_slice(), all, names)
}

/// Puts the names at the end that the statements of a body assign: all of them, or those that are assigned outside of the parallel loops in it.
#[cycle(assigned)]
pub(crate) fn assigned_body(
    alloc: Global,
    body: &[Stmt],
    all: bool,
    names: &mut Items<Spelling>,
) -> Result<(), Memory>
    ensures { OnOk result (names.new ≡ names.old ++ flat_map (assigned_by (kept_if all)) body.now) }
{
    'body: for s in body {
        assigned_stmt(alloc, s, all, names)?;
    }
    Ok(())
}

/// Whether a statement is such, or one in it.
#[cycle(sought)]
fn has_some(s: &Stmt, sought: Sought) -> bool
    ensures { result ≡ has_some (test_of sought) s.now }
{
    match s {
        Stmt::Yield(_, _) => sought == Sought::Yield,
        Stmt::Return(_, value) => sought == Sought::ReturnOfValue && value.is_some(),
        Stmt::If(_, arms, otherwise) => {
            some_in_arms(arms.as_slice(), sought) || some_in_body(otherwise.as_slice(), sought)
        }
        Stmt::While(_, _, body) => some_in_body(body.as_slice(), sought),
        Stmt::For(l) => some_in_loop(l, sought),
        Stmt::Par(_, _, l) => some_in_loop(l, sought),
        Stmt::Pass(_) => false,
        Stmt::Break(_) => false,
        Stmt::Continue(_) => false,
        Stmt::Raise(_, _, _) => false,
        Stmt::Assert(_, _, _) => false,
        Stmt::Annotated(_, _, _, _) => false,
        Stmt::Assign(_, _, _) => false,
        Stmt::Update(_, _, _, _) => false,
        Stmt::Evaluate(_, _) => false,
        Stmt::Print(_, _) => false,
        Stmt::Pipeline(_, _, _) => false,
    }
}

#[cycle(sought)]
fn some_in_arms(arms: &[Arm], sought: Sought) -> bool
    ensures { result ≡ list_any (some_arm (test_of sought)) arms.now }
{
    'arms: for arm in arms {
        if some_in_body(arm.body.as_slice(), sought) {
            return true;
        }
    }
    false
}

#[cycle(sought)]
fn some_in_loop(l: &For, sought: Sought) -> bool
    ensures { result ≡ some_for (test_of sought) l.now }
{
    some_in_body(l.body.as_slice(), sought)
}

#[cycle(sought)]
fn some_in_body(body: &[Stmt], sought: Sought) -> bool
    ensures { result ≡ list_any (has_some (test_of sought)) body.now }
{
    'body: for s in body {
        if has_some(s, sought) {
            return true;
        }
    }
    false
}

/// Whether a function with this body is a generator.
pub(crate) fn yields(body: &[Stmt]) -> bool
    ensures { result ≡ yields body.now }
{
    some_in_body(body, Sought::Yield)
}

/// Whether a function with this body has a `return` with a value.
pub(crate) fn gives_value(body: &[Stmt]) -> bool
    ensures { result ≡ gives_value body.now }
{
    some_in_body(body, Sought::ReturnOfValue)
}
