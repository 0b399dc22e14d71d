ghost use Rattle.plain_interpreter.specs.Seen.{seen, TellsFlow};
ghost use Rattle.plain_interpreter.specs.Tasks.{Nests, lower, consumers_of, task_of};

use crate::flow::Flow;
use crate::prepared::Prepared;
use crate::state::{State, Stop};
use crate::task::{Consumer, Task};
use std::alloc::Global;

/// What a text is run with: its module, the number of ticks, how many more bodies may be entered, and what runs a task one level deeper.
#[derive(Clone, Copy)]
pub(crate) struct Runner<'m, F> {
    pub(crate) alloc: Global,
    pub(crate) program: &'m Prepared<'m>,
    pub(crate) limit: u64,
    pub(crate) depth: u32,
    pub(crate) low: F,
}

impl<
    'm,
    F: Fn(
        Global,
        &Prepared<'_>,
        u64,
        u32,
        &mut State,
        &[Consumer<'_>],
        Task<'_>,
    ) -> Result<Flow, Stop>,
> Runner<'m, F> {
    /// Runs a task one level deeper.
    #[inline(never)]
    pub(crate) fn deeper(
        &self,
        state: &mut State,
        consumers: &[Consumer<'_>],
        task: Task<'_>,
    ) -> Result<Flow, Stop>
        requires { Nests self.now.program.now self.now.limit self.now.depth (F.pre self.now.low) (F.post self.now.low) }
        ensures { TellsFlow (lower self.now.program.now self.now.limit self.now.depth (consumers_of consumers.now) (task_of task.entry) (seen state.old)) result state.new }
    {
        (self.low)(
            self.alloc,
            self.program,
            self.limit,
            self.depth,
            state,
            consumers,
            task,
        )
    }
}
