#![tactic(auto, unfolding(meaning_rules::specs::Outcome::bind, meaning_rules::specs::Outcome::pure, meaning_rules::specs::Outcome::stop))]

ghost use Rattle.std.specs.Prelude.{drop};
ghost use Rattle.plain_interpreter.specs.Scopes.{scope_of};
ghost use Rattle.plain_interpreter.specs.Seen.{seen, TellsFlow};
ghost use Rattle.plain_interpreter.specs.Regions.{staged_apart, staged_inside};
ghost use Rattle.plain_interpreter.specs.Stages.{staged_ahead, reached_stage};
ghost use Rattle.plain_interpreter.specs.Tasks.{Nests, here, consumers_of, region_at, region_of};

use crate::captures::begin_stages;
use crate::flow::Flow;
use crate::iterations::{enter_iteration, finish_region, leave_iteration, start_region};
use crate::prepared::Prepared;
use crate::runner::Runner;
use crate::scope::Scope;
use crate::stages::parallel_place;
use crate::state::{State, Stop};
use crate::task::{Consumer, Region, Task};
use crate::variables::{tick, wrong};
use codon_base::Value;
use source_trees::{Stage, StageForm};
use sqlite_items::Items;
use std::alloc::Global;

impl<
    'm,
    F: Fn(
        Global,
        &Prepared<'_>,
        u64,
        u32,
        &mut State,
        &[Consumer<'_>],
        Task<'_>,
    ) -> Result<Flow, Stop>,
> Runner<'m, F> {
    /// A value that reaches a stage of a region, with the stages from a place on after it.
    #[cycle(pipeline)]
    #[inline(never)]
    pub(crate) fn joined(
        &self,
        state: &mut State,
        consumers: &[Consumer<'_>],
        scope: &Scope<'_>,
        region: Option<&Region>,
        stage: &Stage,
        stages: &Items<Stage>,
        from: usize,
        v: Value,
    ) -> Result<Flow, Stop>
        requires { Nests self.now.program.now self.now.limit self.now.depth (F.pre self.now.low) (F.post self.now.low) }
        ensures { TellsFlow (reached_stage (here self.now.program.now self.now.limit self.now.depth) (consumers_of consumers.now) (scope_of scope.now) stage.now.form (region_at region.entry) (drop from stages.now) v (seen state.old)) result state.new }
    {
        let Some(region) = region else {
            return Err(wrong(self.alloc));
        };
        tick(state, self.limit)?;
        self.parallel_stage(state, consumers, scope, region, stage, stages, from, v)
    }

    /// The iteration of a value that reaches a stage of a region, with the stages from a place on after it.
    #[cycle(pipeline)]
    #[inline(never)]
    fn parallel_stage(
        &self,
        state: &mut State,
        consumers: &[Consumer<'_>],
        scope: &Scope<'_>,
        region: &Region,
        stage: &Stage,
        stages: &Items<Stage>,
        from: usize,
        v: Value,
    ) -> Result<Flow, Stop>
        requires { Nests self.now.program.now self.now.limit self.now.depth (F.pre self.now.low) (F.post self.now.low) }
        ensures { TellsFlow (staged_apart (here self.now.program.now self.now.limit self.now.depth) (consumers_of consumers.now) (scope_of scope.now) (region_of region.now) stage.now (drop from stages.now) v (seen state.old)) result state.new }
    {
        let saved = enter_iteration(self.alloc, state, region, &v)?;
        let flow = self.perform_ahead(state, consumers, scope, &stage.form, stages, from, v)?;
        leave_iteration(self.alloc, state, region, saved)?;
        Ok(flow)
    }

    /// What a stage does with a value, and the stages from a place on, among which a region may begin.
    #[cycle(pipeline)]
    #[inline(never)]
    fn perform_ahead(
        &self,
        state: &mut State,
        consumers: &[Consumer<'_>],
        scope: &Scope<'_>,
        form: &StageForm,
        stages: &Items<Stage>,
        from: usize,
        v: Value,
    ) -> Result<Flow, Stop>
        requires { Nests self.now.program.now self.now.limit self.now.depth (F.pre self.now.low) (F.post self.now.low) }
        ensures { TellsFlow (staged_ahead (here self.now.program.now self.now.limit self.now.depth) (consumers_of consumers.now) (scope_of scope.now) form.now (drop from stages.now) v (seen state.old)) result state.new }
    {
        match parallel_place(stages.as_slice(), from) {
            Some(place) => {
                match begin_stages(self.alloc, state, self.program, scope, stages, place) {
                    Ok(region) => self.perform_inside(
                        state, consumers, scope, form, &region, stages, from, v,
                    ),
                    Err(why) => Err(why),
                }
            }
            None => self.perform(state, consumers, scope, form, None, stages, from, v),
        }
    }

    /// What a stage does with a value, and the stages from a place on, in a region that begins.
    #[cycle(pipeline)]
    #[inline(never)]
    fn perform_inside(
        &self,
        state: &mut State,
        consumers: &[Consumer<'_>],
        scope: &Scope<'_>,
        form: &StageForm,
        region: &Region,
        stages: &Items<Stage>,
        from: usize,
        v: Value,
    ) -> Result<Flow, Stop>
        requires { Nests self.now.program.now self.now.limit self.now.depth (F.pre self.now.low) (F.post self.now.low) }
        ensures { TellsFlow (staged_inside (here self.now.program.now self.now.limit self.now.depth) (consumers_of consumers.now) (scope_of scope.now) form.now (region_of region.now) (drop from stages.now) v (seen state.old)) result state.new }
    {
        let begun = start_region(state);
        let flow = self.perform(state, consumers, scope, form, Some(region), stages, from, v)?;
        finish_region(state, begun, &flow)?;
        Ok(flow)
    }
}
