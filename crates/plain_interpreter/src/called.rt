#![tactic(auto, unfolding(meaning_rules::specs::Outcome::bind, meaning_rules::specs::Outcome::pure, meaning_rules::specs::Outcome::stop))]

ghost use Rattle.plain_interpreter.specs.Callees.{builtin_of};
ghost use Rattle.meaning_rules.specs.Calls as calls;
ghost use Rattle.meaning_rules.specs.Expressions as spec;
ghost use Rattle.meaning_rules.specs.Iterations.{in_place};
ghost use Rattle.plain_interpreter.specs.Lists.{called, standard};
ghost use Rattle.meaning_rules.specs.Operations as operations;
ghost use Rattle.meaning_rules.specs.Outcome.{and_then, bind, wrong};
ghost use Rattle.meaning_rules.specs.Program.{ToList};
ghost use Rattle.plain_interpreter.specs.Scopes.{scope_of};
ghost use Rattle.plain_interpreter.specs.Seen.{seen, Tells, TellsBy};
ghost use Rattle.plain_interpreter.specs.Steps.{iterable_of};
ghost use Rattle.plain_interpreter.specs.Tasks.{Nests, here, known_of, program_of};
ghost use Rattle.meaning_rules.specs.Variables.{read_name};

use crate::callee::{Builtin, Callee, Numbered, resolve};
use crate::flow::Flow;
use crate::iterable::Iterable;
use crate::operations::builtin;
use crate::prepared::{Called, Prepared};
use crate::runner::Runner;
use crate::scope::Scope;
use crate::state::{State, Stop};
use crate::task::{Consumer, Task};
use crate::variables::{fault, read_name, wrong};
use codon_base::{FaultKind, Spelling, Value};
use source_trees::Expr;
use sqlite_items::Items;
use std::alloc::Global;

impl<
    'm,
    F: Fn(
        Global,
        &Prepared<'_>,
        u64,
        u32,
        &mut State,
        &[Consumer<'_>],
        Task<'_>,
    ) -> Result<Flow, Stop>,
> Runner<'m, F> {
    /// A call by name.
    #[cycle(expression)]
    #[inline(never)]
    pub(crate) fn called(
        &self,
        state: &mut State,
        scope: &Scope<'_>,
        name: &Spelling,
        parts: &Items<Expr>,
    ) -> Result<Value, Stop>
        requires { Nests self.now.program.now self.now.limit self.now.depth (F.pre self.now.low) (F.post self.now.low) }
        ensures { Tells (called (here self.now.program.now self.now.limit self.now.depth) (scope_of scope.now) name.now parts.now (seen state.old)) result state.new }
    {
        match resolve(self.program, scope, name) {
            Callee::Variable => self.called_variable(state, scope, name),
            Callee::Unknown => Err(fault(self.alloc, FaultKind::Runtime, b"name is not set")),
            Callee::Defined(called) => self.called_function(state, scope, called, parts.as_slice()),
            Callee::Constructor(c) => self.called_class(state, scope, c, parts.as_slice()),
            Callee::Standard(Builtin::ToList) => self.listed(state, scope, parts.as_slice()),
            Callee::Standard(which) => self.computed(state, scope, which, parts.as_slice()),
        }
    }

    /// A call of a variable, which is no function.
    #[inline(never)]
    pub(crate) fn called_variable<T>(
        &self,
        state: &mut State,
        scope: &Scope<'_>,
        name: &Spelling,
    ) -> Result<T, Stop>
        ensures { Tells (bind (read_name (program_of self.now.program.now) (scope_of scope.now) name.now) (λ _. wrong) (seen state.old)) result state.new }
    {
        let _ = read_name(self.alloc, state, scope, name)?;
        Err(wrong(self.alloc))
    }

    /// A function that is no generator, on what is written there.
    #[cycle(expression)]
    #[inline(never)]
    pub(crate) fn called_function(
        &self,
        state: &mut State,
        scope: &Scope<'_>,
        called: Called<'_>,
        parts: &[Expr],
    ) -> Result<Value, Stop>
        requires { Nests self.now.program.now self.now.limit self.now.depth (F.pre self.now.low) (F.post self.now.low) }
        ensures { Tells (bind (spec.exprs (here self.now.program.now self.now.limit self.now.depth) (scope_of scope.now) parts.now) (calls.call (here self.now.program.now self.now.limit self.now.depth) (known_of called.entry)) (seen state.old)) result state.new }
    {
        let given = self.exprs(state, scope, parts)?;
        self.call(state, called, given)
    }

    /// A new instance of a class, by what is written there.
    #[cycle(expression)]
    #[inline(never)]
    pub(crate) fn called_class(
        &self,
        state: &mut State,
        scope: &Scope<'_>,
        c: Numbered<'_>,
        parts: &[Expr],
    ) -> Result<Value, Stop>
        requires { Nests self.now.program.now self.now.limit self.now.depth (F.pre self.now.low) (F.post self.now.low) }
        ensures { Tells (bind (spec.exprs (here self.now.program.now self.now.limit self.now.depth) (scope_of scope.now) parts.now) (calls.construct (here self.now.program.now self.now.limit self.now.depth) c.entry.number c.entry.class.now.class.now) (seen state.old)) result state.new }
    {
        let given = self.exprs(state, scope, parts)?;
        self.construct(state, c, given)
    }

    /// A builtin on the values of what is written there.
    #[cycle(expression)]
    #[inline(never)]
    fn computed(
        &self,
        state: &mut State,
        scope: &Scope<'_>,
        which: Builtin,
        parts: &[Expr],
    ) -> Result<Value, Stop>
        requires { Nests self.now.program.now self.now.limit self.now.depth (F.pre self.now.low) (F.post self.now.low) }
        ensures { Tells (bind (spec.exprs (here self.now.program.now self.now.limit self.now.depth) (scope_of scope.now) parts.now) (operations.builtin in_place (builtin_of which)) (seen state.old)) result state.new }
    {
        let given = self.exprs(state, scope, parts)?;
        builtin(self.alloc, state, which, given.as_slice())
    }

    /// `list(..)` of what is written there.
    #[cycle(expression)]
    #[inline(never)]
    fn listed(&self, state: &mut State, scope: &Scope<'_>, parts: &[Expr]) -> Result<Value, Stop>
        requires { Nests self.now.program.now self.now.limit self.now.depth (F.pre self.now.low) (F.post self.now.low) }
        ensures { Tells (standard (here self.now.program.now self.now.limit self.now.depth) (scope_of scope.now) ToList parts.now (seen state.old)) result state.new }
    {
        let [part] = parts else {
            return self.computed(state, scope, Builtin::ToList, parts);
        };
        self.gathered_found(self.iterable(state, scope, part), state)
    }

    /// A list of the items of which this was found.
    #[inline(never)]
    fn gathered_found(
        &self,
        found: Result<Iterable<'m>, Stop>,
        state: &mut State,
    ) -> Result<Value, Stop>
        requires { Nests self.now.program.now self.now.limit self.now.depth (F.pre self.now.low) (F.post self.now.low) }
        ensures { (o : _) → TellsBy iterable_of o found.entry state.old → Tells (and_then o (spec.gathered (here self.now.program.now self.now.limit self.now.depth))) result state.new }
    {
        match found {
            Ok(goes_over) => self.gathered(state, goes_over),
            Err(why) => Err(why),
        }
    }
}
