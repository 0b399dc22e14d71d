ghost use Rattle.std.specs.Prelude.{◌≡◌, map, option_map};
ghost use Rattle.std.specs.Prelude.{false};
ghost use Rattle.meaning_rules.specs.Program as spec;
ghost use Rattle.plain_interpreter.specs.Scopes.{scope_of};
ghost use Rattle.plain_interpreter.specs.Tasks.{program_of};
ghost use Rattle.plain_interpreter.specs.Callees.{callee_of, class_or, functions_in, classes_in, found_function};

use crate::names::{is_among, same};
use crate::prepared::{Called, Known, KnownClass, Prepared};
use crate::scope::Scope;
use crate::words::builtin_named;
use codon_base::Spelling;

/// The functions that a source has from the start.
#[derive(Clone, Copy, Debug, PartialEq, Eq)]
pub(crate) enum Builtin {
    Length,
    Least,
    Greatest,
    ToText,
    ToInt,
    ToBool,
    Code,
    Character,
    ToList,
    Range,
}

/// A class with its number.
#[derive(Clone, Copy)]
pub(crate) struct Numbered<'m> {
    pub(crate) number: u32,
    pub(crate) class: &'m KnownClass<'m>,
}

/// What a name that is called means.
#[derive(Clone, Copy)]
pub(crate) enum Callee<'m> {
    Defined(Called<'m>),
    Constructor(Numbered<'m>),
    Standard(Builtin),
    Variable,
    Unknown,
}

/// The first function of that name.
pub(crate) fn function_named<'m>(
    name: &Spelling,
    functions: &'m [Known<'m>],
) -> Option<&'m Known<'m>>
    ensures { found_function result ≡ spec.function_named name.now (functions_in functions.now) }
{
    'functions: for known in functions {
        if same(name, &known.function.name.spelling) {
            return Some(known);
        }
    }
    None
}

/// The first class of that name.
fn class_named<'m>(name: &Spelling, program: &'m Prepared<'m>) -> Option<Numbered<'m>>
    ensures { (other : _) → spec.class_named name.now 0 (classes_in program.now.classes.items) other ≡ class_or result other }
{
    let mut number = 0;
    'classes: for class in &program.classes {
        if same(name, &class.class.name.spelling) {
            return Some(Numbered { number, class });
        }
        number += 1;
    }
    None
}

#[tactic(auto, unfolding(crate::specs::Tasks::program_of))]
fn in_prelude_or_builtin<'m>(program: &'m Prepared<'m>, name: &Spelling) -> Callee<'m>
    ensures { callee_of result ≡ spec.in_prelude_or_builtin (program_of program.now) name.now }
{
    match function_named(name, &program.prelude) {
        Some(known) => Callee::Defined(Called {
            known,
            in_prelude: true,
        }),
        None => builtin_named(name),
    }
}

#[tactic(auto, unfolding(crate::specs::Tasks::program_of))]
fn defined_in_module<'m>(program: &'m Prepared<'m>, name: &Spelling) -> Callee<'m>
    ensures { callee_of result ≡ spec.defined_or false (spec.function_named name.now (functions_in program.now.functions.items)) (spec.class_named name.now 0 (classes_in program.now.classes.items) (spec.in_prelude_or_builtin (program_of program.now) name.now)) }
{
    if let Some(known) = function_named(name, &program.functions) {
        return Callee::Defined(Called {
            known,
            in_prelude: false,
        });
    }
    match class_named(name, program) {
        Some(numbered) => Callee::Constructor(numbered),
        None => in_prelude_or_builtin(program, name),
    }
}

/// What a name that is called means in a text.
#[tactic(auto, unfolding(crate::specs::Tasks::program_of))]
#[inline(never)]
pub(crate) fn resolve<'m>(
    program: &'m Prepared<'m>,
    scope: &Scope<'_>,
    name: &Spelling,
) -> Callee<'m>
    ensures { callee_of result ≡ spec.callee (program_of program.now) (scope_of scope.now) name.now }
{
    if scope.in_prelude {
        return in_prelude_or_builtin(program, name);
    }
    if scope.has(name) || is_among(name, program.variables.as_slice()) {
        return Callee::Variable;
    }
    defined_in_module(program, name)
}
