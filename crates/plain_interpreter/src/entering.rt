#![tactic(auto, unfolding(meaning_rules::specs::Outcome::bind, meaning_rules::specs::Outcome::pure, meaning_rules::specs::Outcome::stop))]

ghost use Rattle.plain_interpreter.specs.Entered.{TellsEntered, TellsStep, stepped};
ghost use Rattle.meaning_rules.specs.Iterations.{in_place};
ghost use Rattle.meaning_rules.specs.Meaning.{turn_of};
ghost use Rattle.plain_interpreter.specs.Scopes.{scope_of};
ghost use Rattle.plain_interpreter.specs.Seen.{seen};
ghost use Rattle.plain_interpreter.specs.Steps.{iterable_of, looped, turns_from};
ghost use Rattle.plain_interpreter.specs.Tasks.{Nests, here, consumer_of, consumers_of};

use crate::cursor::{begun, next};
use crate::flow::Flow;
use crate::iterable::{Cursor, Iterable};
use crate::loops::is_within;
use crate::prepared::Prepared;
use crate::runner::Runner;
use crate::scope::Scope;
use crate::state::{State, Stop};
use crate::task::{Consumer, Task};
use crate::variables::set_loop_names;
use source_trees::LoopNames;
use std::alloc::Global;
use std::mem;

impl<
    'm,
    F: Fn(
        Global,
        &Prepared<'_>,
        u64,
        u32,
        &mut State,
        &[Consumer<'_>],
        Task<'_>,
    ) -> Result<Flow, Stop>,
> Runner<'m, F> {
    /// Begins a loop. One over a call of a generator is made whole, and tells how it was left; the turns of every other are to be made from the cursor on.
    #[inline(never)]
    pub(crate) fn enter_loop(
        &self,
        state: &mut State,
        consumers: &[Consumer<'_>],
        consumer: Consumer<'_>,
        goes_over: Iterable<'m>,
        cursor: &mut Cursor,
    ) -> Result<Option<Flow>, Stop>
        requires { Nests self.now.program.now self.now.limit self.now.depth (F.pre self.now.low) (F.post self.now.low) }
        ensures { TellsEntered (looped (here self.now.program.now self.now.limit self.now.depth) (consumers_of consumers.now) (iterable_of goes_over.entry) (consumer_of consumer.entry) (seen state.old)) (turns_from (here self.now.program.now self.now.limit self.now.depth) (turn_of (here self.now.program.now self.now.limit self.now.depth) (consumers_of consumers.now) (consumer_of consumer.entry))) result cursor.new state.new }
    {
        match goes_over {
            Iterable::Generated(called, given) => {
                let flow = self.generate(state, consumers, consumer, called, given)?;
                Ok(Some(flow))
            }
            Iterable::Items(container) => {
                *cursor = Cursor::Item(container, 0);
                Ok(None)
            }
            Iterable::Numbers(numbers) => {
                match begun(
                    self.alloc,
                    state,
                    &numbers.start,
                    &numbers.stop,
                    &numbers.step,
                ) {
                    Ok(from) => {
                        is_within(&from);
                        *cursor = from;
                        Ok(None)
                    }
                    Err(why) => Err(why),
                }
            }
        }
    }
}

/// Gives the item of the next turn to the names of a loop, for which a tick is taken, and moves the cursor behind it. The answer is whether there was one.
#[inline(never)]
pub(crate) fn step(
    alloc: Global,
    state: &mut State,
    limit: u64,
    scope: &Scope<'_>,
    names: &LoopNames,
    cursor: &mut Cursor,
) -> Result<bool, Stop>
    ensures { TellsStep (stepped (scope_of scope.now) names.now in_place limit cursor.old (seen state.old)) result cursor.new state.new }
{
    let from = mem::replace(cursor, Cursor::Ended);
    let Some(item) = next(alloc, state, limit, from)? else {
        return Ok(false);
    };
    set_loop_names(alloc, state, scope, names, item.0)?;
    *cursor = item.1;
    Ok(true)
}
