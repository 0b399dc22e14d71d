ghost use Rattle.std.specs.Prelude.{◌≡◌};
ghost use Rattle.std.specs.Option.{option_copied};
ghost use Rattle.codon_base.specs.Levels.{object_at};

use crate::{Holder, Object, Ref};

/// A place of a run at which operators look at objects: it knows the heap, and which lists are lent to the iterations of parallel loops.
pub trait Sighted {
    ghost use Rattle.codon_base.specs.Operators.{Sight};

    ghost sight: { Self → Sight };

    /// The object at an address, where there is one.
    fn object(&self, at: Ref) -> Option<&Object>
        ensures { option_copied result ≡ object_at (sight self.now).levels at };

    /// Whether a list at that address is lent to parallel iterations.
    fn is_lent(&self, at: Ref) -> bool
        ensures { result ≡ (sight self.now).lent at };
}

/// A heap of which no list is lent.
#[derive(Drop)]
pub struct Unlent<'a, H> {
    pub heap: &'a H,
}

impl<H: Holder> Sighted for Unlent<'_, H> {
    ghost use Rattle.std.specs.Prelude.{false};

    ghost sight = { λ place. record { levels = H.levels place.heap.now; lent = λ at. false } };

    fn object(&self, at: Ref) -> Option<&Object> {
        self.heap.get(at)
    }

    fn is_lent(&self, _at: Ref) -> bool {
        false
    }
}
