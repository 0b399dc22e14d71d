//! Finds once what the run of a module needs to know of its functions and classes.

#![tactic(auto, using(crate::proofs::BodyEquations::list_rules))]

ghost use Rattle.std.specs.Prelude.{◌≡◌, ◌++◌, map, Some, OnOk, IfOk};
ghost use Rattle.std.specs.List.{flat_map};
ghost use Rattle.source_trees.specs.Prelude as trees;
ghost use Rattle.meaning_rules.specs.Bodies.{assigned_by};
ghost use Rattle.plain_interpreter.specs.Walked.{kept_if};
ghost use Rattle.meaning_rules.specs.Program as spec;
ghost use Rattle.plain_interpreter.specs.Tasks.{program_of, callable_of};

use crate::bodies::{assigned_body, assigned_stmt, gives_value, push_name, yields};
use crate::prepared::{Callable, Known, KnownClass, Prepared};
use codon_base::{Memory, Spelling};
use source_trees::{Class, Function, Item, Member, Module, Param};
use sqlite_items::Items;
use std::alloc::Global;

/// Puts the names at the end that are variables of a function, or those of them that no region in it has as private ones.
pub(crate) fn push_locals(
    alloc: Global,
    f: &Function,
    all: bool,
    names: &mut Items<Spelling>,
) -> Result<(), Memory>
    ensures { OnOk result (names.new ≡ names.old ++ spec.param_names f.now.params ++ flat_map (assigned_by (kept_if all)) f.now.body) }
{
    push_params(alloc, f.params.as_slice(), names)?;
    assigned_body(alloc, f.body.as_slice(), all, names)
}

fn push_params(alloc: Global, params: &[Param], names: &mut Items<Spelling>) -> Result<(), Memory>
    ensures { OnOk result (names.new ≡ names.old ++ spec.param_names params.now) }
{
    'params: for param in params {
        push_name(alloc, &param.name, names)?;
    }
    Ok(())
}

/// A function with what its calls need to know.
fn know_function<'m>(alloc: Global, function: &'m Function) -> Result<Known<'m>, Memory>
    ensures { IfOk result (λ k. k.function.now ≡ function.now) }
{
    let mut locals = Items::new(alloc);
    push_locals(alloc, function, true, &mut locals)?;
    let mut fixed = Items::new(alloc);
    push_locals(alloc, function, false, &mut fixed)?;
    let yields = yields(function.body.as_slice());
    let gives_value = gives_value(function.body.as_slice());
    Ok(Known {
        function,
        locals,
        fixed,
        yields,
        gives_value,
    })
}

fn known_methods<'m>(alloc: Global, members: &'m [Member]) -> Result<Vec<Known<'m>>, Memory>
    ensures { IfOk result (λ methods. map (λ k. k.function.now) methods.items ≡ flat_map spec.method_in members.now) }
{
    let mut methods = Vec::new(alloc);
    'members: for member in members {
        if let Member::Method(f) = member {
            methods.push(know_function(alloc, f)?)?;
        }
    }
    Ok(methods)
}

fn field_names(alloc: Global, members: &[Member]) -> Result<Items<Spelling>, Memory>
    ensures { IfOk result (λ names. names ≡ flat_map spec.field_in members.now) }
{
    let mut names = Items::new(alloc);
    'members: for member in members {
        if let Member::Field(_, name, _) = member {
            push_name(alloc, &name.spelling, &mut names)?;
        }
    }
    Ok(names)
}

fn know_class<'m>(alloc: Global, class: &'m Class) -> Result<KnownClass<'m>, Memory>
    ensures { IfOk result (λ c. c.class.now ≡ class.now) }
{
    let methods = known_methods(alloc, class.members.as_slice())?;
    let fields = field_names(alloc, class.members.as_slice())?;
    Ok(KnownClass {
        class,
        methods,
        fields,
    })
}

fn known_functions<'m>(alloc: Global, items: &'m [Item]) -> Result<Vec<Known<'m>>, Memory>
    ensures { IfOk result (λ functions. map (λ k. k.function.now) functions.items ≡ flat_map spec.function_in items.now) }
{
    let mut functions = Vec::new(alloc);
    'items: for item in items {
        if let Item::Function(f) = item {
            functions.push(know_function(alloc, f)?)?;
        }
    }
    Ok(functions)
}

fn known_classes<'m>(alloc: Global, items: &'m [Item]) -> Result<Vec<KnownClass<'m>>, Memory>
    ensures { IfOk result (λ classes. map (λ c. c.class.now) classes.items ≡ flat_map spec.class_in items.now) }
{
    let mut classes = Vec::new(alloc);
    'items: for item in items {
        if let Item::Class(c) = item {
            classes.push(know_class(alloc, c)?)?;
        }
    }
    Ok(classes)
}

fn push_methods<'m>(
    class_name: &'m Spelling,
    members: &'m [Member],
    callables: &mut Vec<Callable<'m>>,
) -> Result<(), Memory>
    ensures { OnOk result (map callable_of callables.new.items ≡ map callable_of callables.old.items ++ map (λ f. record { function = f; class_name = Some class_name.now }) (flat_map spec.method_in members.now)) }
{
    'members: for member in members {
        if let Member::Method(function) = member {
            callables.push(Callable {
                function,
                class_name: Some(class_name),
            })?;
        }
    }
    Ok(())
}

fn push_callables<'m>(item: &'m Item, callables: &mut Vec<Callable<'m>>) -> Result<(), Memory>
    ensures { OnOk result (map callable_of callables.new.items ≡ map callable_of callables.old.items ++ spec.callables_in item.now) }
{
    match item {
        Item::Function(function) => {
            callables.push(Callable {
                function,
                class_name: None,
            })?;
            Ok(())
        }
        Item::Class(c) => push_methods(&c.name.spelling, c.members.as_slice(), callables),
        Item::Stmt(_) => Ok(()),
    }
}

fn callables_in<'m>(alloc: Global, items: &'m [Item]) -> Result<Vec<Callable<'m>>, Memory>
    ensures { IfOk result (λ callables. map callable_of callables.items ≡ flat_map spec.callables_in items.now) }
{
    let mut callables = Vec::new(alloc);
    'items: for item in items {
        push_callables(item, &mut callables)?;
    }
    Ok(callables)
}

/// Puts the variables of a module at the end, or those of them that no region in it has as private ones.
pub(crate) fn push_variables(
    alloc: Global,
    items: &[Item],
    all: bool,
    names: &mut Items<Spelling>,
) -> Result<(), Memory>
    ensures { OnOk result (names.new ≡ names.old ++ flat_map (assigned_by (kept_if all)) (flat_map spec.statement_in items.now)) }
{
    'items: for item in items {
        if let Item::Stmt(s) = item {
            assigned_stmt(alloc, s, all, names)?;
        }
    }
    Ok(())
}

/// A module with what its run needs to know, after the prelude.
#[tactic(auto, unfolding(crate::specs::Tasks::program_of))]
pub(crate) fn prepare<'m>(
    alloc: Global,
    source: &'m Module,
    prelude: &'m Module,
) -> Result<Prepared<'m>, Memory>
    requires { prelude.now ≡ trees.prelude }
    ensures { IfOk result (λ p. program_of p ≡ spec.program_of source.now) }
{
    let functions = known_functions(alloc, source.items.as_slice())?;
    let classes = known_classes(alloc, source.items.as_slice())?;
    if classes.len() > u32::MAX as usize {
        return Err(Memory);
    }
    let callables = callables_in(alloc, source.items.as_slice())?;
    let mut variables = Items::new(alloc);
    push_variables(alloc, source.items.as_slice(), true, &mut variables)?;
    let prelude = known_functions(alloc, prelude.items.as_slice())?;
    Ok(Prepared {
        functions,
        classes,
        callables,
        variables,
        prelude,
    })
}
