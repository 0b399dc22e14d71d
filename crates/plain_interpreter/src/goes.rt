ghost use Rattle.plain_interpreter.specs.Callees.{callee_of};
ghost use Rattle.plain_interpreter.specs.Goings.{Goes};
ghost use Rattle.meaning_rules.specs.Program as spec;
ghost use Rattle.plain_interpreter.specs.Scopes.{scope_of};
ghost use Rattle.plain_interpreter.specs.Tasks.{program_of};

use crate::callee::{Builtin, Callee, resolve};
use crate::prepared::{Called, Prepared};
use crate::scope::Scope;
use codon_base::Spelling;

/// What a loop goes over that a call by name gives: the items of its value, the numbers of a range, or the items of a generator.
#[derive(Clone, Copy)]
pub(crate) enum Going<'m> {
    Value,
    Range,
    Generator(Called<'m>),
}

fn goes_by(callee: Callee<'_>) -> Going<'_>
    ensures { Goes (callee_of callee.entry) result }
{
    match callee {
        Callee::Defined(called) => {
            if called.known.yields {
                return Going::Generator(called);
            }
            Going::Value
        }
        Callee::Standard(Builtin::Range) => Going::Range,
        _ => Going::Value,
    }
}

/// What a loop goes over that a call of this name gives.
#[inline(never)]
pub(crate) fn goes_as<'m>(
    program: &'m Prepared<'m>,
    scope: &Scope<'_>,
    name: &Spelling,
) -> Going<'m>
    ensures { Goes (spec.callee (program_of program.now) (scope_of scope.now) name.now) result }
{
    goes_by(resolve(program, scope, name))
}
