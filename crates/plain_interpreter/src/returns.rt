ghost use Rattle.std.specs.Prelude.{◌≡◌, ◌∷◌, IfOk, map};
ghost use Rattle.codon_base.specs.declared.value.Value.TheVariants as value;
ghost use Rattle.meaning_rules.specs.Calls as spec;
ghost use Rattle.meaning_rules.specs.Program.{function_scope};
ghost use Rattle.plain_interpreter.specs.Scopes.{scope_of};
ghost use Rattle.plain_interpreter.specs.Seen.{flow_of, ended_by, TellsAt};

use crate::flow::{End, Flow};
use crate::prepared::{Called, Known};
use crate::scope::Scope;
use crate::state::Stop;
use crate::variables::fault;
use codon_base::{FaultKind, Memory, Spelling, Value, Values};
use sqlite_items::Items;
use std::alloc::Global;

/// What a function gives whose body ended so.
#[inline(never)]
pub(crate) fn result_of(alloc: Global, known: &Known<'_>, flow: Flow) -> Result<Value, Stop>
    ensures { (s : _) → TellsAt (spec.result known.now.function.now (flow_of flow) s) result s }
{
    result_at(alloc, known, flow.end)
}

/// The same by how the body ended, whatever it left.
#[tactic(auto, unfolding(meaning_rules::specs::Outcome::pure, meaning_rules::specs::Outcome::stop))]
fn result_at(alloc: Global, known: &Known<'_>, end: End) -> Result<Value, Stop>
    ensures { (s : _) → TellsAt (spec.result known.now.function.now (ended_by end) s) result s }
{
    match end {
        End::Return(v) => Ok(v),
        End::Next | End::Break | End::Continue => {
            if known.gives_value {
                Err(fault(alloc, FaultKind::Runtime, b"no value returned"))
            } else {
                Ok(Value::Unit)
            }
        }
    }
}

impl<'m> Called<'m> {
    /// Where the body of a function stands.
    pub(crate) fn scope(&self) -> Scope<'m>
        ensures { scope_of result ≡ function_scope self.now.in_prelude self.now.known.now.function.now }
    {
        Scope {
            inner: &[],
            locals: self.known.locals.as_slice(),
            fixed: self.known.fixed.as_slice(),
            in_prelude: self.in_prelude,
        }
    }
}

/// As many values as there are fields, none of which is set.
#[inline(never)]
pub(crate) fn unset_fields(alloc: Global, fields: &[Spelling]) -> Result<Values, Memory>
    ensures { IfOk result (λ vs. vs ≡ map (λ name. value.Unset) fields.now) }
{
    let mut unset = Items::new(alloc);
    'fields: for _ in fields {
        unset.push(Value::Unset)?;
    }
    Ok(unset)
}

/// The values with one more before them.
#[inline(never)]
pub(crate) fn with_first(alloc: Global, first: Value, rest: Values) -> Result<Values, Memory>
    ensures { IfOk result (λ all. all ≡ first ∷ rest) }
{
    let mut all = Items::new(alloc);
    all.push(first)?;
    all.append(rest)?;
    Ok(all)
}
