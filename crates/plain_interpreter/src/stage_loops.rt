#![tactic(auto, unfolding(meaning_rules::specs::Outcome::bind, meaning_rules::specs::Outcome::pure, meaning_rules::specs::Outcome::stop))]

ghost use Rattle.std.specs.Prelude.{◌≡◌, drop};
ghost use Rattle.meaning_rules.specs.Meaning.{turn_of};
ghost use Rattle.plain_interpreter.specs.Scopes.{scope_of};
ghost use Rattle.plain_interpreter.specs.Passed.{passed_of};
ghost use Rattle.plain_interpreter.specs.Seen.{seen, TellsBy, TellsFlow};
ghost use Rattle.plain_interpreter.specs.Stages.{whole_loop};
ghost use Rattle.plain_interpreter.specs.Steps.{iterable_of, looped, turns_from};
ghost use Rattle.meaning_rules.specs.Task.{Stages};
ghost use Rattle.plain_interpreter.specs.Tasks.{Nests, here, consumers_of, region_at};

use crate::cursor::next;
use crate::flow::{End, Flow, after_loop, ended, goes_on};
use crate::iterable::{Cursor, Iterable};
use crate::pipelines::Passed;
use crate::prepared::Prepared;
use crate::runner::Runner;
use crate::scope::Scope;
use crate::state::{State, Stop};
use crate::task::{Consumer, Region, Task};
use crate::variables::left;
use codon_base::Memory;
use source_trees::Stage;
use sqlite_items::Items;
use std::alloc::Global;

/// How many loops of stages may be made in place one inside the other. The native stack bounds them.
const MOST_NESTED: u32 = 256;

/// A loop of stages begins inside of those that run.
#[tactic(auto, unfolding(crate::specs::Seen::seen))]
fn nest(state: &mut State) -> Result<(), Memory>
    ensures { seen state.new ≡ seen state.old }
{
    if state.nested >= MOST_NESTED {
        return Err(Memory);
    }
    state.nested += 1;
    Ok(())
}

/// The innermost loop of stages ends.
#[tactic(auto, unfolding(crate::specs::Seen::seen))]
fn unnest(state: &mut State)
    ensures { seen state.new ≡ seen state.old }
{
    state.nested = state.nested.saturating_sub(1);
}

impl<
    'm,
    F: Fn(
        Global,
        &Prepared<'_>,
        u64,
        u32,
        &mut State,
        &[Consumer<'_>],
        Task<'_>,
    ) -> Result<Flow, Stop>,
> Runner<'m, F> {
    /// A loop over something, with the stages from a place on that take its items.
    #[cycle(pipeline)]
    #[inline(never)]
    pub(crate) fn stage_loop(
        &self,
        state: &mut State,
        consumers: &[Consumer<'_>],
        scope: &Scope<'_>,
        goes_over: Iterable<'m>,
        region: Option<&Region>,
        stages: &Items<Stage>,
        from: usize,
    ) -> Result<Passed, Stop>
        requires { Nests self.now.program.now self.now.limit self.now.depth (F.pre self.now.low) (F.post self.now.low) }
        ensures { TellsBy passed_of (whole_loop (here self.now.program.now self.now.limit self.now.depth) (consumers_of consumers.now) (scope_of scope.now) (iterable_of goes_over.entry) (region_at region.entry) (drop from stages.now) (seen state.old)) result state.new }
    {
        let flow = self.looped_stages(state, consumers, scope, goes_over, region, stages, from)?;
        Ok(Passed::Left(after_loop(flow)))
    }

    #[cycle(pipeline)]
    #[inline(never)]
    pub(crate) fn looped_stages(
        &self,
        state: &mut State,
        consumers: &[Consumer<'_>],
        scope: &Scope<'_>,
        goes_over: Iterable<'m>,
        region: Option<&Region>,
        stages: &Items<Stage>,
        from: usize,
    ) -> Result<Flow, Stop>
        requires { Nests self.now.program.now self.now.limit self.now.depth (F.pre self.now.low) (F.post self.now.low) }
        ensures { TellsFlow (looped (here self.now.program.now self.now.limit self.now.depth) (consumers_of consumers.now) (iterable_of goes_over.entry) (Stages (scope_of scope.now) (region_at region.entry) (drop from stages.now)) (seen state.old)) result state.new }
    {
        let mut cursor = Cursor::Ended;
        match self.enter_loop(
            state,
            consumers,
            Consumer::Stages(*scope, region, stages, from),
            goes_over,
            &mut cursor,
        ) {
            Ok(entered) => match entered {
                Some(flow) => Ok(flow),
                None => self.turns_within(state, consumers, scope, cursor, region, stages, from),
            },
            Err(why) => Err(why),
        }
    }

    /// The turns of a loop in place, inside of those that run.
    #[cycle(pipeline)]
    #[inline(never)]
    fn turns_within(
        &self,
        state: &mut State,
        consumers: &[Consumer<'_>],
        scope: &Scope<'_>,
        begins: Cursor,
        region: Option<&Region>,
        stages: &Items<Stage>,
        from: usize,
    ) -> Result<Flow, Stop>
        requires { Nests self.now.program.now self.now.limit self.now.depth (F.pre self.now.low) (F.post self.now.low) }
        ensures { TellsFlow (turns_from (here self.now.program.now self.now.limit self.now.depth) (turn_of (here self.now.program.now self.now.limit self.now.depth) (consumers_of consumers.now) (Stages (scope_of scope.now) (region_at region.entry) (drop from stages.now))) begins (seen state.old)) result state.new }
    {
        nest(state)?;
        let flow = self.turns_through(state, consumers, scope, begins, region, stages, from)?;
        unnest(state);
        Ok(flow)
    }

    /// The turns of a loop in place.
    #[cycle(pipeline)]
    #[inline(never)]
    fn turns_through(
        &self,
        state: &mut State,
        consumers: &[Consumer<'_>],
        scope: &Scope<'_>,
        begins: Cursor,
        region: Option<&Region>,
        stages: &Items<Stage>,
        from: usize,
    ) -> Result<Flow, Stop>
        requires { Nests self.now.program.now self.now.limit self.now.depth (F.pre self.now.low) (F.post self.now.low) }
        ensures { TellsFlow (turns_from (here self.now.program.now self.now.limit self.now.depth) (turn_of (here self.now.program.now self.now.limit self.now.depth) (consumers_of consumers.now) (Stages (scope_of scope.now) (region_at region.entry) (drop from stages.now))) begins (seen state.old)) result state.new }
    {
        let mut left = left(state, self.limit);
        let mut cursor = begins;
        'turns: loop {
            let Some(item) = next(self.alloc, state, self.limit, cursor)? else {
                return Ok(ended(End::Next));
            };
            let flow = self.through(state, consumers, scope, region, stages, from, item.0)?;
            if !goes_on(&flow) {
                return Ok(flow);
            }
            if left == 0 {
                return Err(Stop::OutOfFuel);
            }
            left -= 1;
            cursor = item.1;
        }
    }
}
