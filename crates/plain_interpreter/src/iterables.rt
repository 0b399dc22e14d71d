#![tactic(auto, unfolding(meaning_rules::specs::Outcome::bind, meaning_rules::specs::Outcome::pure, meaning_rules::specs::Outcome::stop))]

ghost use Rattle.meaning_rules.specs.Expressions as spec;
ghost use Rattle.plain_interpreter.specs.Forms.{IsMethodCall};
ghost use Rattle.plain_interpreter.specs.Lists as lists;
ghost use Rattle.meaning_rules.specs.Outcome.{bind};
ghost use Rattle.plain_interpreter.specs.Scopes.{scope_of};
ghost use Rattle.plain_interpreter.specs.Seen.{seen, TellsBy};
ghost use Rattle.plain_interpreter.specs.Steps.{iterable_of};
ghost use Rattle.plain_interpreter.specs.Tasks.{Nests, here, known_of};

use crate::flow::Flow;
use crate::goes::{Going, goes_as};
use crate::iterable::Iterable;
use crate::prepared::{Called, Prepared};
use crate::ranges::range_of;
use crate::runner::Runner;
use crate::scope::Scope;
use crate::state::{State, Stop};
use crate::task::{Consumer, Task};
use codon_base::Spelling;
use source_trees::Expr;
use sqlite_items::{Boxed, Items};
use std::alloc::Global;

impl<
    'm,
    F: Fn(
        Global,
        &Prepared<'_>,
        u64,
        u32,
        &mut State,
        &[Consumer<'_>],
        Task<'_>,
    ) -> Result<Flow, Stop>,
> Runner<'m, F> {
    /// What a loop goes over.
    #[cycle(expression)]
    #[inline(never)]
    pub(crate) fn iterable(
        &self,
        state: &mut State,
        scope: &Scope<'_>,
        e: &Expr,
    ) -> Result<Iterable<'m>, Stop>
        requires { Nests self.now.program.now self.now.limit self.now.depth (F.pre self.now.low) (F.post self.now.low) }
        ensures { TellsBy iterable_of (spec.iterable (here self.now.program.now self.now.limit self.now.depth) (scope_of scope.now) e.now (seen state.old)) result state.new }
    {
        match e {
            Expr::Call(_, name, parts) => match goes_as(self.program, scope, &name.spelling) {
                Going::Range => self.range(state, scope, parts.as_slice()),
                Going::Generator(called) => {
                    self.generated(state, scope, called, parts.as_slice())
                }
                Going::Value => self.value_iterable(state, scope, e),
            },
            Expr::MethodCall(_, _, object, name, parts) => self.method_iterable(
                state, scope, e, object, name, parts,
            ),
            _ => self.value_iterable(state, scope, e),
        }
    }

    /// What a loop goes over that a call of a method gives.
    #[cycle(expression)]
    #[inline(never)]
    fn method_iterable(
        &self,
        state: &mut State,
        scope: &Scope<'_>,
        e: &Expr,
        object: &Boxed<Expr>,
        name: &Spelling,
        parts: &Items<Expr>,
    ) -> Result<Iterable<'m>, Stop>
        requires nests { Nests self.now.program.now self.now.limit self.now.depth (F.pre self.now.low) (F.post self.now.low) }
        requires form { IsMethodCall e.now object.now name.now parts.now }
        ensures { TellsBy iterable_of (lists.method_iterable (here self.now.program.now self.now.limit self.now.depth) (scope_of scope.now) object.now name.now parts.now (seen state.old)) result state.new }
    {
        let v = self.expr(state, scope, object.get())?;
        let given = self.exprs(state, scope, parts.as_slice())?;
        self.iterable_method(state, v, name, given)
    }

    /// The items of a value.
    #[cycle(expression)]
    #[inline(never)]
    fn value_iterable(
        &self,
        state: &mut State,
        scope: &Scope<'_>,
        e: &Expr,
    ) -> Result<Iterable<'m>, Stop>
        requires { Nests self.now.program.now self.now.limit self.now.depth (F.pre self.now.low) (F.post self.now.low) }
        ensures { TellsBy iterable_of (spec.items_of (spec.expr (here self.now.program.now self.now.limit self.now.depth) (scope_of scope.now) e.now) (seen state.old)) result state.new }
    {
        match self.expr(state, scope, e) {
            Ok(v) => Ok(Iterable::Items(v)),
            Err(why) => Err(why),
        }
    }

    /// The items that a generator gives on what is written there.
    #[cycle(expression)]
    #[inline(never)]
    fn generated(
        &self,
        state: &mut State,
        scope: &Scope<'_>,
        called: Called<'m>,
        parts: &[Expr],
    ) -> Result<Iterable<'m>, Stop>
        requires { Nests self.now.program.now self.now.limit self.now.depth (F.pre self.now.low) (F.post self.now.low) }
        ensures { TellsBy iterable_of (lists.generated (here self.now.program.now self.now.limit self.now.depth) (scope_of scope.now) (known_of called.entry) parts.now (seen state.old)) result state.new }
    {
        let given = self.exprs(state, scope, parts)?;
        Ok(Iterable::Generated(called, given))
    }

    /// `range(..)`.
    #[cycle(expression)]
    #[inline(never)]
    fn range(
        &self,
        state: &mut State,
        scope: &Scope<'_>,
        parts: &[Expr],
    ) -> Result<Iterable<'m>, Stop>
        requires { Nests self.now.program.now self.now.limit self.now.depth (F.pre self.now.low) (F.post self.now.low) }
        ensures { TellsBy iterable_of (bind (spec.exprs (here self.now.program.now self.now.limit self.now.depth) (scope_of scope.now) parts.now) spec.range_of (seen state.old)) result state.new }
    {
        let given = self.exprs(state, scope, parts)?;
        let goes_over = range_of(self.alloc, given)?;
        Ok(goes_over)
    }
}
