ghost use Rattle.std.specs.Prelude.{◌≡◌, map, drop};
ghost use Rattle.std.specs.List.{list_all};
ghost use Rattle.codon_base.specs.declared.value.Value.{out-Value};
ghost use Rattle.meaning_rules.specs.Iterations.{same_ref, is_in, is_lent, is_number, lenders};
ghost use Rattle.plain_interpreter.specs.Seen.{iteration_of};

use crate::state::{Iteration, Store};
use codon_base::{Holder, Object, Ref, Sighted, Value};

impl Sighted for Store {
    ghost use Rattle.plain_interpreter.specs.Sights.{sight_of};

    ghost sight = { sight_of };

    fn object(&self, at: Ref) -> Option<&Object> {
        self.heap.get(at)
    }

    fn is_lent(&self, at: Ref) -> bool {
        is_lent(self.iterations.as_slice(), at)
    }
}

fn same_ref(a: Ref, b: Ref) -> bool
    ensures { result ≡ same_ref a b }
{
    a.level == b.level && a.place == b.place
}

fn is_in(at: Ref, list: &[Ref]) -> bool
    ensures { result ≡ is_in at list.now }
{
    list.iter().any(|other| same_ref(at, *other))
}

/// Whether some iteration's region lends a list.
pub(crate) fn is_lent(iterations: &[Iteration], at: Ref) -> bool
    ensures { result ≡ is_lent (map iteration_of iterations.now) at }
{
    'lent: for iteration in iterations {
        if is_in(at, iteration.lent.as_slice()) {
            return true;
        }
    }
    false
}

/// Whether each iteration whose region lends the list has that place as its item.
pub(crate) fn is_own_place(iterations: &[Iteration], at: Ref, place: usize) -> bool
    ensures { result ≡ list_all (λ iteration. is_number place (out-Value iteration.item)) (lenders at (map iteration_of iterations.now)) }
{
    'own: for iteration in iterations {
        if is_in(at, iteration.lent.as_slice()) && !is_number(place, &iteration.item) {
            return false;
        }
    }
    true
}

fn is_number(place: usize, item: &Value) -> bool
    ensures { result ≡ is_number place (out-Value item.now) }
{
    match item {
        Value::Int(number) => *number >= 0 && *number as u64 == place as u64,
        _ => false,
    }
}

/// Whether each iteration above the instance's level has it as a target.
pub(crate) fn is_target(iterations: &[Iteration], at: Ref) -> bool
    ensures { result ≡ list_all (λ iteration. is_in at iteration.targets) (drop at.level (map iteration_of iterations.now)) }
{
    let rest = above(iterations, at.level as usize);
    'above: for iteration in rest {
        if !is_in(at, iteration.targets.as_slice()) {
            return false;
        }
    }
    true
}

/// The iterations from a place on.
fn above(iterations: &[Iteration], from: usize) -> &[Iteration]
    ensures { result.now ≡ drop from iterations.now }
{
    if from < iterations.len() {
        &iterations[from..]
    } else {
        &[]
    }
}
