ghost use Rattle.std.specs.Prelude.{◌≡◌};
ghost use Rattle.meaning_rules.specs.Program as spec;
ghost use Rattle.plain_interpreter.specs.Callees.{callee_of};

use crate::callee::{Builtin, Callee};
use codon_base::Spelling;

/// The builtin of that name.
pub(crate) fn builtin_named<'m>(name: &Spelling) -> Callee<'m>
    ensures { callee_of result ≡ spec.builtin_named name.now }
{
    let name = name.as_slice();
    if name == b"len".as_slice() {
        Callee::Standard(Builtin::Length)
    } else if name == b"min".as_slice() {
        Callee::Standard(Builtin::Least)
    } else if name == b"max".as_slice() {
        Callee::Standard(Builtin::Greatest)
    } else if name == b"str".as_slice() {
        Callee::Standard(Builtin::ToText)
    } else if name == b"int".as_slice() {
        Callee::Standard(Builtin::ToInt)
    } else if name == b"bool".as_slice() {
        Callee::Standard(Builtin::ToBool)
    } else if name == b"ord".as_slice() {
        Callee::Standard(Builtin::Code)
    } else if name == b"chr".as_slice() {
        Callee::Standard(Builtin::Character)
    } else if name == b"list".as_slice() {
        Callee::Standard(Builtin::ToList)
    } else if name == b"range".as_slice() {
        Callee::Standard(Builtin::Range)
    } else {
        Callee::Unknown
    }
}
