#![tactic(auto, unfolding(meaning_rules::specs::Outcome::bind, meaning_rules::specs::Outcome::pure, meaning_rules::specs::Outcome::stop))]

ghost use Rattle.plain_interpreter.specs.Forms.{IsCompare};
ghost use Rattle.meaning_rules.specs.Iterations.{in_place};
ghost use Rattle.plain_interpreter.specs.Lists as lists;
ghost use Rattle.plain_interpreter.specs.Lists.{chained, compares, follows};
ghost use Rattle.plain_interpreter.specs.Scopes.{scope_of};
ghost use Rattle.plain_interpreter.specs.Seen.{seen, Tells};
ghost use Rattle.plain_interpreter.specs.Tasks.{Nests, here};

use crate::flow::Flow;
use crate::operations::{compared, truth};
use crate::prepared::Prepared;
use crate::runner::Runner;
use crate::scope::Scope;
use crate::state::{State, Stop};
use crate::task::{Consumer, Task};
use codon_base::Value;
use source_trees::{Comparator, Comparison, Expr};
use sqlite_items::{Boxed, Items};
use std::alloc::Global;

/// The right operand of a comparison of two values, where it holds.
#[inline(never)]
fn follows(
    alloc: Global,
    state: &mut State,
    by: Comparator,
    v: &Value,
    w: Value,
) -> Result<Option<Value>, Stop>
    ensures { Tells (follows in_place by v.now w (seen state.old)) result state.new }
{
    let made = compared(alloc, state, by, v, &w)?;
    if truth(alloc, state, &made)? {
        Ok(Some(w))
    } else {
        Ok(None)
    }
}

impl<
    'm,
    F: Fn(
        Global,
        &Prepared<'_>,
        u64,
        u32,
        &mut State,
        &[Consumer<'_>],
        Task<'_>,
    ) -> Result<Flow, Stop>,
> Runner<'m, F> {
    /// A chain of comparisons.
    #[cycle(expression)]
    #[inline(never)]
    pub(crate) fn comparison(
        &self,
        state: &mut State,
        scope: &Scope<'_>,
        e: &Expr,
        first: &Boxed<Expr>,
        others: &Items<Comparison>,
    ) -> Result<Value, Stop>
        requires nests { Nests self.now.program.now self.now.limit self.now.depth (F.pre self.now.low) (F.post self.now.low) }
        requires form { IsCompare e.now first.now others.now }
        ensures { Tells (lists.comparison (here self.now.program.now self.now.limit self.now.depth) (scope_of scope.now) first.now others.now (seen state.old)) result state.new }
    {
        let v = self.expr(state, scope, first.get())?;
        self.chain(state, scope, others.as_slice(), v)
    }

    /// The rest of a chain of comparisons, by its left operand.
    #[cycle(expression)]
    #[inline(never)]
    #[tactic(auto, unfolding(meaning_rules::specs::Outcome::bind, meaning_rules::specs::Outcome::pure, meaning_rules::specs::Outcome::stop), using(crate::proofs::Parts::chain_rules))]
    fn chain(
        &self,
        state: &mut State,
        scope: &Scope<'_>,
        others: &[Comparison],
        first: Value,
    ) -> Result<Value, Stop>
        requires { Nests self.now.program.now self.now.limit self.now.depth (F.pre self.now.low) (F.post self.now.low) }
        ensures { Tells (chained (here self.now.program.now self.now.limit self.now.depth) (scope_of scope.now) others.now first (seen state.old)) result state.new }
    {
        let mut v = first;
        'chain: for each in others {
            let Some(w) = self.compare(state, scope, each, v)? else {
                return Ok(Value::Bool(false));
            };
            v = w;
        }
        Ok(Value::Bool(true))
    }

    /// The right operand of a comparison, where it holds.
    #[cycle(expression)]
    #[inline(never)]
    fn compare(
        &self,
        state: &mut State,
        scope: &Scope<'_>,
        each: &Comparison,
        v: Value,
    ) -> Result<Option<Value>, Stop>
        requires { Nests self.now.program.now self.now.limit self.now.depth (F.pre self.now.low) (F.post self.now.low) }
        ensures { Tells (compares (here self.now.program.now self.now.limit self.now.depth) (scope_of scope.now) each.now v (seen state.old)) result state.new }
    {
        let w = self.expr(state, scope, &each.right)?;
        follows(self.alloc, state, each.comparator, &v, w)
    }
}
