#![tactic(auto, unfolding(meaning_rules::specs::Outcome::bind, meaning_rules::specs::Outcome::pure, meaning_rules::specs::Outcome::stop, meaning_rules::specs::Outcome::generating, meaning_rules::specs::Outcome::suspended, crate::specs::Frames::taken))]

ghost use Rattle.std.specs.Prelude.{◌≡◌, ◌∷◌, IfOk};
ghost use Rattle.meaning_rules.specs.Loops as spec;
ghost use Rattle.plain_interpreter.specs.Cursors.{IsWithin};
ghost use Rattle.plain_interpreter.specs.Steps.{generated};
ghost use Rattle.plain_interpreter.specs.Seen.{seen, TellsFlow};
ghost use Rattle.plain_interpreter.specs.Tasks.{Nests, here, known_of, consumer_of, consumers_of};

use crate::arguments::{arguments, parameters};
use crate::flow::{Flow, closed, yielded};
use crate::frames::{wait, wake};
use crate::iterable::Cursor;
use crate::prepared::{Called, Prepared};
use crate::runner::Runner;
use crate::state::{State, Stop};
use crate::task::{Consumer, Task};
use crate::variables::{tick, wrong};
use codon_base::{Memory, Value, Values};
use std::alloc::Global;

/// The numbers of a cursor are those of its type.
pub(crate) fn is_within(cursor: &Cursor)
    ensures { IsWithin cursor.now }
{
    if let Cursor::Number(at, stop, _) = cursor {
        let _at = *at;
        let _stop = *stop;
    }
}

/// The consumers, with one more inside.
#[inline(never)]
fn inside<'a>(
    alloc: Global,
    top: Consumer<'a>,
    consumers: &[Consumer<'a>],
) -> Result<Vec<Consumer<'a>>, Memory>
    ensures { IfOk result (λ all. all.items ≡ top.entry ∷ consumers.now) }
{
    let mut all = Vec::new(alloc);
    all.push(top)?;
    'consumers: for each in consumers {
        all.push(*each)?;
    }
    Ok(all)
}

impl<
    'm,
    F: Fn(
        Global,
        &Prepared<'_>,
        u64,
        u32,
        &mut State,
        &[Consumer<'_>],
        Task<'_>,
    ) -> Result<Flow, Stop>,
> Runner<'m, F> {
    /// A loop over a call of a generator, whose body gives its items to a consumer.
    #[inline(never)]
    pub(crate) fn generate(
        &self,
        state: &mut State,
        consumers: &[Consumer<'_>],
        consumer: Consumer<'_>,
        called: Called<'_>,
        given: Values,
    ) -> Result<Flow, Stop>
        requires { Nests self.now.program.now self.now.limit self.now.depth (F.pre self.now.low) (F.post self.now.low) }
        ensures { TellsFlow (generated (here self.now.program.now self.now.limit self.now.depth) (consumers_of consumers.now) (consumer_of consumer.entry) (known_of called.entry) given (seen state.old)) result state.new }
    {
        let Some(given) = arguments(called.known.function.params.as_slice(), given)? else {
            return Err(wrong(self.alloc));
        };
        self.generate_by(state, consumers, consumer, called, given.as_slice())
    }

    #[inline(never)]
    fn generate_by(
        &self,
        state: &mut State,
        consumers: &[Consumer<'_>],
        consumer: Consumer<'_>,
        called: Called<'_>,
        given: &[Value],
    ) -> Result<Flow, Stop>
        requires { Nests self.now.program.now self.now.limit self.now.depth (F.pre self.now.low) (F.post self.now.low) }
        ensures { TellsFlow (spec.generate (here self.now.program.now self.now.limit self.now.depth) (consumers_of consumers.now) (consumer_of consumer.entry) (known_of called.entry) given.now (seen state.old)) result state.new }
    {
        tick(state, self.limit)?;
        let names = parameters(self.alloc, called.known.function.params.as_slice(), given)?;
        let all = inside(self.alloc, consumer, consumers)?;
        wait(state, names)?;
        let flow = self.deeper(
            state,
            &all,
            Task::Enter(called.scope(), &called.known.function.body),
        )?;
        let _ = wake(self.alloc, state)?;
        Ok(closed(flow))
    }

    /// Gives an item to the consumer round the body of a generator.
    #[inline(never)]
    pub(crate) fn give(
        &self,
        state: &mut State,
        consumers: &[Consumer<'_>],
        v: Value,
    ) -> Result<Flow, Stop>
        requires { Nests self.now.program.now self.now.limit self.now.depth (F.pre self.now.low) (F.post self.now.low) }
        ensures { TellsFlow (spec.yield (here self.now.program.now self.now.limit self.now.depth) (consumers_of consumers.now) v (seen state.old)) result state.new }
    {
        let [consumer, below @ ..] = consumers else {
            return Err(wrong(self.alloc));
        };
        let own = wake(self.alloc, state)?;
        tick(state, self.limit)?;
        let flow = self.deeper(state, below, Task::Turn(*consumer, v))?;
        wait(state, own)?;
        Ok(yielded(flow)?)
    }
}
