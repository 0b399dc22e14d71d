#![tactic(auto, unfolding(meaning_rules::specs::Outcome::bind, meaning_rules::specs::Outcome::pure, meaning_rules::specs::Outcome::stop))]

ghost use Rattle.std.specs.Prelude.{drop, []};
ghost use Rattle.plain_interpreter.specs.Callees.{builtin_of};
ghost use Rattle.meaning_rules.specs.Expressions.{call_builtin};
ghost use Rattle.meaning_rules.specs.Program.{callee, ToList};
ghost use Rattle.plain_interpreter.specs.Scopes.{scope_of};
ghost use Rattle.plain_interpreter.specs.Passed.{passed_of};
ghost use Rattle.plain_interpreter.specs.Seen.{seen, Tells, TellsBy};
ghost use Rattle.plain_interpreter.specs.Stages.{given_to, called_stage, printed_stage};
ghost use Rattle.plain_interpreter.specs.Tasks.{Nests, here, consumers_of, region_at, program_of};

use crate::callee::{Builtin, Callee, resolve};
use crate::flow::Flow;
use crate::iterable::Iterable;
use crate::operations::builtin;
use crate::pipelines::Passed;
use crate::prepared::Prepared;
use crate::runner::Runner;
use crate::scope::Scope;
use crate::state::{State, Stop};
use crate::task::{Consumer, Region, Task};
use crate::variables::{fault, read_name, wrong};
use codon_base::{FaultKind, Spelling, Value, Values};
use source_trees::{Expr, Printed, Stage};
use sqlite_items::Items;
use std::alloc::Global;

impl<
    'm,
    F: Fn(
        Global,
        &Prepared<'_>,
        u64,
        u32,
        &mut State,
        &[Consumer<'_>],
        Task<'_>,
    ) -> Result<Flow, Stop>,
> Runner<'m, F> {
    /// The arguments of a stage, with the piped value among them.
    #[inline(never)]
    pub(crate) fn given_to(
        &self,
        state: &mut State,
        scope: &Scope<'_>,
        before: &[Expr],
        v: Value,
        behind: &[Expr],
    ) -> Result<Values, Stop>
        requires { Nests self.now.program.now self.now.limit self.now.depth (F.pre self.now.low) (F.post self.now.low) }
        ensures { Tells (given_to (here self.now.program.now self.now.limit self.now.depth) [] (scope_of scope.now) before.now v behind.now (seen state.old)) result state.new }
    {
        let mut given = self.exprs(state, scope, before)?;
        let more = self.exprs(state, scope, behind)?;
        given.push(v)?;
        given.append(more)?;
        Ok(given)
    }

    #[inline(never)]
    pub(crate) fn print_stage(
        &self,
        state: &mut State,
        scope: &Scope<'_>,
        printed: &Printed,
        v: Value,
    ) -> Result<Passed, Stop>
        requires { Nests self.now.program.now self.now.limit self.now.depth (F.pre self.now.low) (F.post self.now.low) }
        ensures { TellsBy passed_of (printed_stage (here self.now.program.now self.now.limit self.now.depth) [] (scope_of scope.now) printed.now v (seen state.old)) result state.new }
    {
        let mut piped = Items::new(self.alloc);
        piped.push(v)?;
        self.print_after(state, scope, piped, printed)?;
        Ok(Passed::On(Value::Unit))
    }

    /// A stage by name on its arguments. A loop is made whole, with the stages from a place on.
    #[cycle(pipeline)]
    #[inline(never)]
    pub(crate) fn call_stage(
        &self,
        state: &mut State,
        consumers: &[Consumer<'_>],
        scope: &Scope<'_>,
        name: &Spelling,
        given: Values,
        region: Option<&Region>,
        stages: &Items<Stage>,
        from: usize,
    ) -> Result<Passed, Stop>
        requires { Nests self.now.program.now self.now.limit self.now.depth (F.pre self.now.low) (F.post self.now.low) }
        ensures { TellsBy passed_of (called_stage (here self.now.program.now self.now.limit self.now.depth) (consumers_of consumers.now) (scope_of scope.now) (callee (program_of self.now.program.now) (scope_of scope.now) name.now) name.now given (region_at region.entry) (drop from stages.now) (seen state.old)) result state.new }
    {
        match resolve(self.program, scope, name) {
            Callee::Defined(called) => {
                if called.known.yields {
                    return self.stage_loop(
                        state,
                        consumers,
                        scope,
                        Iterable::Generated(called, given),
                        region,
                        stages,
                        from,
                    );
                }
                let v = self.call(state, called, given)?;
                Ok(Passed::On(v))
            }
            Callee::Constructor(c) => {
                let v = self.construct(state, c, given)?;
                Ok(Passed::On(v))
            }
            Callee::Standard(which) => {
                let v = self.call_builtin(state, which, given)?;
                Ok(Passed::On(v))
            }
            Callee::Variable => {
                let _ = read_name(self.alloc, state, scope, name)?;
                Err(wrong(self.alloc))
            }
            Callee::Unknown => Err(fault(self.alloc, FaultKind::Runtime, b"name is not set")),
        }
    }

    /// A builtin on values.
    #[inline(never)]
    fn call_builtin(&self, state: &mut State, which: Builtin, given: Values) -> Result<Value, Stop>
        requires { Nests self.now.program.now self.now.limit self.now.depth (F.pre self.now.low) (F.post self.now.low) }
        ensures { Tells (call_builtin (here self.now.program.now self.now.limit self.now.depth) (builtin_of which) given (seen state.old)) result state.new }
    {
        match which {
            Builtin::ToList => self.list_of(state, given),
            other => builtin(self.alloc, state, other, given.as_slice()),
        }
    }

    /// `list` of values, of which there is to be one.
    #[inline(never)]
    fn list_of(&self, state: &mut State, given: Values) -> Result<Value, Stop>
        requires { Nests self.now.program.now self.now.limit self.now.depth (F.pre self.now.low) (F.post self.now.low) }
        ensures { Tells (call_builtin (here self.now.program.now self.now.limit self.now.depth) ToList given (seen state.old)) result state.new }
    {
        let [only] = given.as_slice() else {
            return builtin(self.alloc, state, Builtin::ToList, given.as_slice());
        };
        let v = only.try_clone(self.alloc)?;
        self.gathered(state, Iterable::Items(v))
    }
}
