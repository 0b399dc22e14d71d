#![tactic(auto, unfolding(meaning_rules::specs::Outcome::bind, meaning_rules::specs::Outcome::pure, meaning_rules::specs::Outcome::stop))]

ghost use Rattle.std.specs.Prelude.{drop};
ghost use Rattle.meaning_rules.specs.Pipelines as spec;
ghost use Rattle.plain_interpreter.specs.Scopes.{scope_of};
ghost use Rattle.plain_interpreter.specs.Seen.{seen, TellsFlow};
ghost use Rattle.plain_interpreter.specs.Regions.{headed_inside};
ghost use Rattle.plain_interpreter.specs.Stages.{stage_loop, headed_by};
ghost use Rattle.plain_interpreter.specs.Steps.{iterable_of};
ghost use Rattle.plain_interpreter.specs.Tasks.{Nests, here, consumers_of, region_at, region_of};

use crate::captures::begin_stages;
use crate::flow::{Flow, after_loop};
use crate::iterable::Iterable;
use crate::iterations::{finish_region, start_region};
use crate::prepared::Prepared;
use crate::runner::Runner;
use crate::scope::Scope;
use crate::stages::parallel_place;
use crate::state::{State, Stop};
use crate::task::{Consumer, Region, Task};
use source_trees::{Expr, Joint, Stage, StageForm};
use sqlite_items::Items;
use std::alloc::Global;

impl<
    'm,
    F: Fn(
        Global,
        &Prepared<'_>,
        u64,
        u32,
        &mut State,
        &[Consumer<'_>],
        Task<'_>,
    ) -> Result<Flow, Stop>,
> Runner<'m, F> {
    /// A pipeline statement.
    #[inline(never)]
    pub(crate) fn pipeline(
        &self,
        state: &mut State,
        consumers: &[Consumer<'_>],
        scope: &Scope<'_>,
        head: &Expr,
        stages: &Items<Stage>,
    ) -> Result<Flow, Stop>
        requires { Nests self.now.program.now self.now.limit self.now.depth (F.pre self.now.low) (F.post self.now.low) }
        ensures { TellsFlow (spec.pipeline (here self.now.program.now self.now.limit self.now.depth) (consumers_of consumers.now) (scope_of scope.now) head.now stages.now (seen state.old)) result state.new }
    {
        match parallel_place(stages.as_slice(), 0) {
            Some(place) => {
                match begin_stages(self.alloc, state, self.program, scope, stages, place) {
                    Ok(region) => self.pipeline_inside(
                        state, consumers, scope, head, stages, &region,
                    ),
                    Err(why) => Err(why),
                }
            }
            None => self.from_head(state, consumers, scope, head, stages, None),
        }
    }

    /// A pipeline in a region that begins.
    #[inline(never)]
    fn pipeline_inside(
        &self,
        state: &mut State,
        consumers: &[Consumer<'_>],
        scope: &Scope<'_>,
        head: &Expr,
        stages: &Items<Stage>,
        region: &Region,
    ) -> Result<Flow, Stop>
        requires { Nests self.now.program.now self.now.limit self.now.depth (F.pre self.now.low) (F.post self.now.low) }
        ensures { TellsFlow (headed_inside (here self.now.program.now self.now.limit self.now.depth) (consumers_of consumers.now) (scope_of scope.now) head.now stages.now (region_of region.now) (seen state.old)) result state.new }
    {
        let begun = start_region(state);
        let flow = self.from_head(state, consumers, scope, head, stages, Some(region))?;
        finish_region(state, begun, &flow)?;
        Ok(flow)
    }

    /// The head of a pipeline with its stages.
    #[inline(never)]
    fn from_head(
        &self,
        state: &mut State,
        consumers: &[Consumer<'_>],
        scope: &Scope<'_>,
        head: &Expr,
        stages: &Items<Stage>,
        region: Option<&Region>,
    ) -> Result<Flow, Stop>
        requires { Nests self.now.program.now self.now.limit self.now.depth (F.pre self.now.low) (F.post self.now.low) }
        ensures { TellsFlow (spec.from_head (here self.now.program.now self.now.limit self.now.depth) (consumers_of consumers.now) (scope_of scope.now) head.now stages.now (region_at region.entry) (seen state.old)) result state.new }
    {
        match stages.get(0) {
            Some(stage) => self.from_first(state, consumers, scope, head, stage, stages, region),
            None => self.from_value(state, consumers, scope, head, stages, region),
        }
    }

    /// The head of a pipeline with its stages, of which this is the first.
    #[inline(never)]
    fn from_first(
        &self,
        state: &mut State,
        consumers: &[Consumer<'_>],
        scope: &Scope<'_>,
        head: &Expr,
        first: &Stage,
        stages: &Items<Stage>,
        region: Option<&Region>,
    ) -> Result<Flow, Stop>
        requires { Nests self.now.program.now self.now.limit self.now.depth (F.pre self.now.low) (F.post self.now.low) }
        ensures { TellsFlow (spec.first_stage (here self.now.program.now self.now.limit self.now.depth) (consumers_of consumers.now) (scope_of scope.now) head.now first.now.joint first.now.form (region_at region.entry) (drop 1 stages.now) stages.now (seen state.old)) result state.new }
    {
        match first.joint {
            Joint::InParallel => self.from_value(state, consumers, scope, head, stages, region),
            Joint::InTurn => match &first.form {
                StageForm::Iter => {
                    let goes_over = self.iterable(state, scope, head)?;
                    self.head_loop(state, consumers, scope, goes_over, region, stages)
                }
                StageForm::Call(_, _, _) => self.from_value(
                    state, consumers, scope, head, stages, region,
                ),
                StageForm::Print(_) => self.from_value(
                    state, consumers, scope, head, stages, region,
                ),
            },
        }
    }

    /// The value of the head of a pipeline, on which its stages are.
    #[inline(never)]
    fn from_value(
        &self,
        state: &mut State,
        consumers: &[Consumer<'_>],
        scope: &Scope<'_>,
        head: &Expr,
        stages: &Items<Stage>,
        region: Option<&Region>,
    ) -> Result<Flow, Stop>
        requires { Nests self.now.program.now self.now.limit self.now.depth (F.pre self.now.low) (F.post self.now.low) }
        ensures { TellsFlow (headed_by (here self.now.program.now self.now.limit self.now.depth) (consumers_of consumers.now) (scope_of scope.now) head.now (region_at region.entry) stages.now (seen state.old)) result state.new }
    {
        let v = self.expr(state, scope, head)?;
        self.through(state, consumers, scope, region, stages, 0, v)
    }

    /// A loop over the head, with the stages after the first that take its items.
    #[inline(never)]
    fn head_loop(
        &self,
        state: &mut State,
        consumers: &[Consumer<'_>],
        scope: &Scope<'_>,
        goes_over: Iterable<'m>,
        region: Option<&Region>,
        stages: &Items<Stage>,
    ) -> Result<Flow, Stop>
        requires { Nests self.now.program.now self.now.limit self.now.depth (F.pre self.now.low) (F.post self.now.low) }
        ensures { TellsFlow (stage_loop (here self.now.program.now self.now.limit self.now.depth) (consumers_of consumers.now) (scope_of scope.now) (iterable_of goes_over.entry) (region_at region.entry) (drop 1 stages.now) (seen state.old)) result state.new }
    {
        let flow = self.looped_stages(state, consumers, scope, goes_over, region, stages, 1)?;
        Ok(after_loop(flow))
    }
}
