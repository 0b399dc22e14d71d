#![tactic(auto, unfolding(meaning_rules::specs::Outcome::bind, meaning_rules::specs::Outcome::pure, meaning_rules::specs::Outcome::stop))]

ghost use Rattle.std.specs.Prelude.{◌≡◌, [], IfOk};
ghost use Rattle.std.specs.List.{flat_map};
ghost use Rattle.meaning_rules.specs.Meaning as runs;
ghost use Rattle.meaning_rules.specs.Meaning.{turn_of, outcome, meaning, start};
ghost use Rattle.plain_interpreter.specs.Plain.{item_of, IsRun, IsEnd, IsMeant};
ghost use Rattle.meaning_rules.specs.Program as spec;
ghost use Rattle.meaning_rules.specs.Program.{module_scope, statement_in};
ghost use Rattle.plain_interpreter.specs.Scopes.{scope_of};
ghost use Rattle.plain_interpreter.specs.Seen.{seen, TellsFlow};
ghost use Rattle.meaning_rules.specs.State.{TooDeep};
ghost use Rattle.meaning_rules.specs.Statements.{statements};
ghost use Rattle.plain_interpreter.specs.Tasks.{Nests, here, lower, consumer_of, consumers_of, task_of, program_of};

use crate::flow::{End, Flow, ended, is_next};
use crate::prepare::{prepare, push_variables};
use crate::prepared::Prepared;
use crate::runner::Runner;
use crate::scope::Scope;
use crate::state::{Names, State, Stop, Store};
use crate::task::{Consumer, Task};
use codon_base::{Bytes, Ending, Heap, Memory, Spelling, Value};
use source_trees::{Item, Module, prelude};
use sqlite_items::Items;
use std::alloc::Global;

/// How a run ends that may enter only so many bodies.
#[derive(Drop)]
pub enum PlainEnd {
    Ended(Ending),
    /// More bodies of functions, generators and loops over generators would have been entered and not left.
    TooDeep,
}

/// What a run printed, and how it ended.
#[derive(Drop)]
pub struct Plain {
    pub out: Bytes,
    pub end: PlainEnd,
}

impl<
    'm,
    F: Fn(
        Global,
        &Prepared<'_>,
        u64,
        u32,
        &mut State,
        &[Consumer<'_>],
        Task<'_>,
    ) -> Result<Flow, Stop>,
> Runner<'m, F> {
    /// A body that is entered, or a turn.
    #[inline(never)]
    fn task(
        &self,
        state: &mut State,
        consumers: &[Consumer<'_>],
        task: Task<'_>,
    ) -> Result<Flow, Stop>
        requires { Nests self.now.program.now self.now.limit self.now.depth (F.pre self.now.low) (F.post self.now.low) }
        ensures { TellsFlow (runs.task (here self.now.program.now self.now.limit self.now.depth) (consumers_of consumers.now) (task_of task.entry) (seen state.old)) result state.new }
    {
        match task {
            Task::Enter(scope, body) => self.block(state, consumers, &scope, body),
            Task::Turn(consumer, v) => self.consume(state, consumers, consumer, v),
        }
    }

    /// What a consumer does with an item.
    #[inline(never)]
    fn consume(
        &self,
        state: &mut State,
        consumers: &[Consumer<'_>],
        consumer: Consumer<'_>,
        v: Value,
    ) -> Result<Flow, Stop>
        requires { Nests self.now.program.now self.now.limit self.now.depth (F.pre self.now.low) (F.post self.now.low) }
        ensures { TellsFlow (turn_of (here self.now.program.now self.now.limit self.now.depth) (consumers_of consumers.now) (consumer_of consumer.entry) v (seen state.old)) result state.new }
    {
        match consumer {
            Consumer::Body(scope, names, body) => self.body_turn(
                state, consumers, &scope, names, body, v,
            ),
            Consumer::Parallel(region, scope, names, body) => self.parallel_turn(
                state, consumers, region, &scope, names, body, v,
            ),
            Consumer::Gathered(list) => self.append_to(state, list, v),
            Consumer::Comprehension(scope, names, condition, item, list) => self.gather_one(
                state, &scope, names, item, condition, list, v,
            ),
            Consumer::Stages(scope, region, stages, place) => self.through(
                state, consumers, &scope, region, stages, place, v,
            ),
        }
    }

    /// What an item of a module does when the module runs.
    fn item(&self, state: &mut State, scope: &Scope<'_>, item: &Item) -> Result<Flow, Stop>
        requires { Nests self.now.program.now self.now.limit self.now.depth (F.pre self.now.low) (F.post self.now.low) }
        ensures { TellsFlow (item_of (here self.now.program.now self.now.limit self.now.depth) (scope_of scope.now) item.now (seen state.old)) result state.new }
    {
        match item {
            Item::Stmt(s) => self.statement(state, &[], scope, s),
            Item::Function(_) => Ok(ended(End::Next)),
            Item::Class(_) => Ok(ended(End::Next)),
        }
    }

    /// The statements of a module, in order.
    #[tactic(auto, using(crate::proofs::Tops::top_rules))]
    fn top(&self, state: &mut State, scope: &Scope<'_>, items: &[Item]) -> Result<Flow, Stop>
        requires { Nests self.now.program.now self.now.limit self.now.depth (F.pre self.now.low) (F.post self.now.low) }
        ensures { TellsFlow (statements (here self.now.program.now self.now.limit self.now.depth) [] (scope_of scope.now) (flat_map statement_in items.now) (seen state.old)) result state.new }
    {
        'items: for item in items {
            let flow = self.item(state, scope, item)?;
            if !is_next(&flow) {
                return Ok(flow);
            }
        }
        Ok(ended(End::Next))
    }
}

/// Runs a task in which at most `depth` tasks are run one inside the other.
#[inline(never)]
fn run_to(
    alloc: Global,
    program: &Prepared<'_>,
    limit: u64,
    depth: u32,
    state: &mut State,
    consumers: &[Consumer<'_>],
    task: Task<'_>,
) -> Result<Flow, Stop>
    ensures { TellsFlow (lower program.now limit depth (consumers_of consumers.now) (task_of task.entry) (seen state.old)) result state.new }
{
    if depth == 0 {
        return Err(Stop::TooDeep);
    }
    let runner = Runner {
        alloc,
        program: &*program,
        limit,
        depth: depth - 1,
        low: run_to,
    };
    runner.task(state, consumers, task)
}

/// Nothing has run.
#[tactic(auto, unfolding(crate::specs::Seen::seen))]
fn new_state(alloc: Global) -> Result<State, Memory>
    ensures { IfOk result (λ state. seen state ≡ start) }
{
    let heap = Heap::new(alloc)?;
    Ok(State {
        names: Names::new(alloc),
        waiting: Items::new(alloc),
        used: 0,
        out: Items::new(alloc),
        store: Store {
            heap,
            iterations: Items::new(alloc),
        },
        globals: Names::new(alloc),
        reached: 0,
        regions: 0,
        items: 0,
        nested: 0,
    })
}

/// The module's variables that no region has as private ones.
fn fixed_names(alloc: Global, module: &Module) -> Result<Items<Spelling>, Memory>
    ensures { IfOk result (λ names. names ≡ (module_scope «module».now).fixed) }
{
    let mut fixed = Items::new(alloc);
    push_variables(alloc, module.items.as_slice(), false, &mut fixed)?;
    Ok(fixed)
}

/// Runs the statements of a module.
fn run_module(
    alloc: Global,
    program: &Prepared<'_>,
    module: &Module,
    fuel: u64,
    depth: u32,
    state: &mut State,
) -> Result<Flow, Stop>
    requires program { program_of program.now ≡ spec.program_of «module».now }
    requires begins { seen state.old ≡ start }
    ensures { TellsFlow (outcome «module».now fuel depth TooDeep) result state.new }
{
    let fixed = fixed_names(alloc, module)?;
    let scope = Scope {
        inner: &[],
        locals: &[],
        fixed: fixed.as_slice(),
        in_prelude: false,
    };
    let runner = Runner {
        alloc,
        program,
        limit: fuel,
        depth,
        low: run_to,
    };
    runner.top(state, &scope, module.items.as_slice())
}

/// What came of a run.
fn told(flow: Result<Flow, Stop>, out: Bytes) -> Result<Plain, Memory>
    ensures { IfOk result (λ plain. (plain.out ≡ out) × IsEnd flow plain.end) }
{
    match flow {
        Ok(_) => Ok(Plain {
            out,
            end: PlainEnd::Ended(Ending::Done),
        }),
        Err(Stop::Faulted(fault)) => Ok(Plain {
            out,
            end: PlainEnd::Ended(Ending::Fault(fault)),
        }),
        Err(Stop::OutOfFuel) => Ok(Plain {
            out,
            end: PlainEnd::Ended(Ending::OutOfFuel),
        }),
        Err(Stop::TooDeep) => Ok(Plain {
            out,
            end: PlainEnd::TooDeep,
        }),
        Err(Stop::Memory) => Err(Memory),
    }
}

/// What a module prints and how it ends on so much fuel, where at most `depth` bodies of functions, generators and loops over generators are entered and not left.
pub fn run_plain(alloc: Global, module: &Module, fuel: u64, depth: u32) -> Result<Plain, Memory>
    ensures run { IfOk result (λ plain. IsRun (outcome «module».now fuel depth TooDeep) plain.out plain.end) }
    ensures meant { IfOk result (λ plain. IsMeant (meaning «module».now fuel) plain.out plain.end) }
{
    let first = prelude(alloc)?;
    let program = prepare(alloc, module, &first)?;
    let mut state = new_state(alloc)?;
    let flow = run_module(alloc, &program, module, fuel, depth, &mut state);
    let State { out, .. } = state;
    told(flow, out)
}
