#![tactic(auto, unfolding(meaning_rules::specs::Outcome::bind, meaning_rules::specs::Outcome::pure, meaning_rules::specs::Outcome::stop))]

ghost use Rattle.std.specs.Prelude.{drop};
ghost use Rattle.meaning_rules.specs.Pipelines as spec;
ghost use Rattle.plain_interpreter.specs.Scopes.{scope_of};
ghost use Rattle.plain_interpreter.specs.Passed.{passed_of};
ghost use Rattle.plain_interpreter.specs.Seen.{seen, TellsBy, TellsFlow};
ghost use Rattle.plain_interpreter.specs.Stages.{staged, passed};
ghost use Rattle.plain_interpreter.specs.Tasks.{Nests, here, consumers_of, region_at};

use crate::flow::{End, Flow, ended};
use crate::iterable::Iterable;
use crate::prepared::Prepared;
use crate::runner::Runner;
use crate::scope::Scope;
use crate::state::{State, Stop};
use crate::task::{Consumer, Region, Task};
use codon_base::Value;
use source_trees::{Joint, Stage, StageForm};
use sqlite_items::Items;
use std::alloc::Global;

/// What comes of a stage: a value that it passes on, or the end of a loop that it made with all that comes after it.
#[derive(Drop)]
pub(crate) enum Passed {
    On(Value),
    Left(Flow),
}

impl<
    'm,
    F: Fn(
        Global,
        &Prepared<'_>,
        u64,
        u32,
        &mut State,
        &[Consumer<'_>],
        Task<'_>,
    ) -> Result<Flow, Stop>,
> Runner<'m, F> {
    /// The stages from a place on, on a value.
    #[cycle(pipeline)]
    #[inline(never)]
    pub(crate) fn through(
        &self,
        state: &mut State,
        consumers: &[Consumer<'_>],
        scope: &Scope<'_>,
        region: Option<&Region>,
        stages: &Items<Stage>,
        place: usize,
        v: Value,
    ) -> Result<Flow, Stop>
        requires { Nests self.now.program.now self.now.limit self.now.depth (F.pre self.now.low) (F.post self.now.low) }
        ensures { TellsFlow (spec.through (here self.now.program.now self.now.limit self.now.depth) (consumers_of consumers.now) (scope_of scope.now) (region_at region.entry) (drop place stages.now) v (seen state.old)) result state.new }
    {
        let mut at = place;
        let mut passed = v;
        'stages: while at < stages.len() {
            let Some(stage) = stages.get(at) else {
                return Ok(ended(End::Next));
            };
            at += 1;
            match stage.joint {
                Joint::InParallel => {
                    return self.joined(state, consumers, scope, region, stage, stages, at, passed);
                }
                Joint::InTurn => {
                    match self.pass(
                        state,
                        consumers,
                        scope,
                        &stage.form,
                        region,
                        stages,
                        at,
                        passed,
                    ) {
                        Ok(came) => match came {
                            Passed::On(v) => passed = v,
                            Passed::Left(flow) => return Ok(flow),
                        },
                        Err(why) => return Err(why),
                    }
                }
            }
        }
        Ok(ended(End::Next))
    }

    /// What a stage does with a value, and the stages from a place on with what it passes on.
    #[cycle(pipeline)]
    #[inline(never)]
    pub(crate) fn perform(
        &self,
        state: &mut State,
        consumers: &[Consumer<'_>],
        scope: &Scope<'_>,
        form: &StageForm,
        region: Option<&Region>,
        stages: &Items<Stage>,
        from: usize,
        v: Value,
    ) -> Result<Flow, Stop>
        requires { Nests self.now.program.now self.now.limit self.now.depth (F.pre self.now.low) (F.post self.now.low) }
        ensures { TellsFlow (staged (here self.now.program.now self.now.limit self.now.depth) (consumers_of consumers.now) (scope_of scope.now) form.now (region_at region.entry) (drop from stages.now) v (seen state.old)) result state.new }
    {
        match self.pass(state, consumers, scope, form, region, stages, from, v) {
            Ok(came) => match came {
                Passed::On(v) => self.through(state, consumers, scope, region, stages, from, v),
                Passed::Left(flow) => Ok(flow),
            },
            Err(why) => Err(why),
        }
    }

    /// What a stage does with a value. A loop is made whole, with the stages from a place on.
    #[cycle(pipeline)]
    #[inline(never)]
    fn pass(
        &self,
        state: &mut State,
        consumers: &[Consumer<'_>],
        scope: &Scope<'_>,
        form: &StageForm,
        region: Option<&Region>,
        stages: &Items<Stage>,
        from: usize,
        v: Value,
    ) -> Result<Passed, Stop>
        requires { Nests self.now.program.now self.now.limit self.now.depth (F.pre self.now.low) (F.post self.now.low) }
        ensures { TellsBy passed_of (passed (here self.now.program.now self.now.limit self.now.depth) (consumers_of consumers.now) (scope_of scope.now) form.now (region_at region.entry) (drop from stages.now) v (seen state.old)) result state.new }
    {
        match form {
            StageForm::Iter => self.stage_loop(
                state,
                consumers,
                scope,
                Iterable::Items(v),
                region,
                stages,
                from,
            ),
            StageForm::Call(name, before, behind) => {
                let given = self.given_to(state, scope, before.as_slice(), v, behind.as_slice())?;
                self.call_stage(state, consumers, scope, name, given, region, stages, from)
            }
            StageForm::Print(printed) => self.print_stage(state, scope, printed, v),
        }
    }
}
