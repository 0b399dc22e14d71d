#![tactic(auto, unfolding(meaning_rules::specs::Outcome::bind, meaning_rules::specs::Outcome::pure, meaning_rules::specs::Outcome::stop))]

ghost use Rattle.std.specs.Prelude.{◌≡◌, ◌<◌, OnOk, length};
ghost use Rattle.source_trees.specs.declared.expression.Expr.{out-Expr};
ghost use Rattle.plain_interpreter.specs.Callees.{callee_of};
ghost use Rattle.plain_interpreter.specs.Entered.{TellsEntered, TellsOpened, TellsUnclosed, TellsClosed, TellsTurned, opened_consumer};
ghost use Rattle.plain_interpreter.specs.Inside.{saved_of};
ghost use Rattle.meaning_rules.specs.Meaning.{turn_of};
ghost use Rattle.plain_interpreter.specs.Scopes.{scope_of};
ghost use Rattle.plain_interpreter.specs.Seen.{seen, TellsFlow};
ghost use Rattle.meaning_rules.specs.Statements as statements;
ghost use Rattle.plain_interpreter.specs.Steps.{iterable_of, looped, parallel_of, parallel_left, turns_from};
ghost use Rattle.meaning_rules.specs.Task.{Parallel};
ghost use Rattle.plain_interpreter.specs.Tasks.{Nests, here, consumers_of, program_of, region_of};

use crate::callee::{Builtin, Callee, resolve};
use crate::captures::{begin_loop, fixed_of};
use crate::cursor::advance;
use crate::flow::{End, Flow, after_loop, ended, goes_on};
use crate::iterable::{Cursor, Iterable};
use crate::iterations::{
    Begun, Saved, enter_iteration, finish_region, leave_iteration, start_region,
};
use crate::prepared::Prepared;
use crate::runner::Runner;
use crate::scope::Scope;
use crate::state::{State, Stop};
use crate::task::{Consumer, Region, Task};
use crate::variables::left;
use codon_base::{Spelling, Value};
use source_trees::{Expr, For, LoopNames, Stmt};
use sqlite_items::Items;
use std::alloc::Global;

/// Whether a loop goes over a call of `range`.
fn goes_over_range(program: &Prepared<'_>, scope: &Scope<'_>, e: &Expr) -> bool
    ensures { result ≡ statements.goes_over_range (program_of program.now) (scope_of scope.now) (out-Expr e.now) }
{
    match e {
        Expr::Call(_, name, _) => is_range(resolve(program, scope, &name.spelling)),
        _ => false,
    }
}

fn is_range(callee: Callee<'_>) -> bool
    ensures { result ≡ statements.is_range (callee_of callee.entry) }
{
    match callee {
        Callee::Standard(Builtin::Range) => true,
        _ => false,
    }
}

/// A region whose loop begins: the names that its body has fixed, and how it began.
#[derive(Drop)]
struct Opened {
    region: Region,
    fixed: Items<Spelling>,
    begun: Begun,
}

/// A region to be opened.
#[inline(never)]
fn unopened(alloc: Global) -> Opened {
    Opened {
        region: Region {
            lent: Items::new(alloc),
            targets: Items::new(alloc),
            own: Items::new(alloc),
            own_globals: Items::new(alloc),
        },
        fixed: Items::new(alloc),
        begun: Begun {
            outside: false,
            reached: 0,
        },
    }
}

/// Ends a region whose loop was left so. One that stopped stays as it is.
#[inline(never)]
fn close_region(state: &mut State, begun: Begun, left: Result<Flow, Stop>) -> Result<Flow, Stop>
    ensures { TellsClosed left begun (seen state.old) result state.new }
{
    let flow = left?;
    finish_region(state, begun, &flow)?;
    Ok(after_loop(flow))
}

/// Ends an iteration whose turn was left so. One that stopped stays as it is.
#[inline(never)]
fn close_turn(
    alloc: Global,
    state: &mut State,
    region: &Region,
    saved: Saved,
    left: Result<Flow, Stop>,
) -> Result<Flow, Stop>
    requires { OnOk left (1 < length (seen state.old).shared.levels) }
    ensures { TellsTurned left (region_of region.now) (saved_of saved) (seen state.old) result state.new }
{
    let flow = left?;
    leave_iteration(alloc, state, region, saved)?;
    Ok(flow)
}

impl<
    'm,
    F: Fn(
        Global,
        &Prepared<'_>,
        u64,
        u32,
        &mut State,
        &[Consumer<'_>],
        Task<'_>,
    ) -> Result<Flow, Stop>,
> Runner<'m, F> {
    /// A `@par` loop.
    #[cycle(statement)]
    #[inline(never)]
    pub(crate) fn parallel_loop(
        &self,
        state: &mut State,
        consumers: &[Consumer<'_>],
        scope: &Scope<'_>,
        l: &For,
    ) -> Result<Flow, Stop>
        requires { Nests self.now.program.now self.now.limit self.now.depth (F.pre self.now.low) (F.post self.now.low) }
        ensures { TellsFlow (parallel_of (here self.now.program.now self.now.limit self.now.depth) (consumers_of consumers.now) (scope_of scope.now) l.now (seen state.old)) result state.new }
    {
        let mut opened = unopened(self.alloc);
        let mut cursor = Cursor::Ended;
        let left = self.parallel_turns(state, consumers, scope, l, &mut opened, &mut cursor);
        close_region(state, opened.begun, left)
    }

    /// A `@par` loop up to the end of its region. The region and the cursor stand outside: what owns a value holds more of the native stack.
    #[cycle(statement)]
    #[inline(never)]
    fn parallel_turns(
        &self,
        state: &mut State,
        consumers: &[Consumer<'_>],
        scope: &Scope<'_>,
        l: &For,
        opened: &mut Opened,
        cursor: &mut Cursor,
    ) -> Result<Flow, Stop>
        requires { Nests self.now.program.now self.now.limit self.now.depth (F.pre self.now.low) (F.post self.now.low) }
        ensures { TellsUnclosed (parallel_of (here self.now.program.now self.now.limit self.now.depth) (consumers_of consumers.now) (scope_of scope.now) l.now (seen state.old)) result opened.new.begun state.new }
    {
        let entered = self.open_region(state, consumers, scope, l, opened, cursor)?;
        match entered {
            Some(flow) => return Ok(flow),
            None => {}
        }
        let region = &opened.region;
        let inner = Scope {
            inner: scope.inner,
            locals: scope.locals,
            fixed: opened.fixed.as_slice(),
            in_prelude: scope.in_prelude,
        };
        let mut left = left(state, self.limit);
        'turns: loop {
            let Some(v) = advance(self.alloc, state, self.limit, cursor)? else {
                return Ok(ended(End::Next));
            };
            let flow = self.parallel_turn(state, consumers, region, &inner, &l.names, &l.body, v)?;
            if !goes_on(&flow) {
                return Ok(flow);
            }
            if left == 0 {
                return Err(Stop::OutOfFuel);
            }
            left -= 1;
        }
    }

    /// Opens the region of a `@par` loop. Where a generator gives the items, all turns are made, and the answer is how the loop was left.
    #[inline(never)]
    fn open_region(
        &self,
        state: &mut State,
        consumers: &[Consumer<'_>],
        scope: &Scope<'_>,
        l: &For,
        opened: &mut Opened,
        cursor: &mut Cursor,
    ) -> Result<Option<Flow>, Stop>
        requires { Nests self.now.program.now self.now.limit self.now.depth (F.pre self.now.low) (F.post self.now.low) }
        ensures { TellsOpened (parallel_of (here self.now.program.now self.now.limit self.now.depth) (consumers_of consumers.now) (scope_of scope.now) l.now (seen state.old)) (turns_from (here self.now.program.now self.now.limit self.now.depth) (turn_of (here self.now.program.now self.now.limit self.now.depth) (consumers_of consumers.now) (opened_consumer (scope_of scope.now) l.now opened.new))) result opened.new.begun cursor.new state.new }
    {
        let goes_over = self.iterable(state, scope, &l.iterable)?;
        let over_range = goes_over_range(self.program, scope, &l.iterable);
        let region = begin_loop(
            self.alloc,
            state,
            self.program,
            scope,
            &l.names,
            over_range,
            &l.body,
        )?;
        self.enter_region(
            state, consumers, scope, region, l, goes_over, opened, cursor,
        )
    }

    /// Begins the loop of a region that is opened.
    #[inline(never)]
    fn enter_region(
        &self,
        state: &mut State,
        consumers: &[Consumer<'_>],
        scope: &Scope<'_>,
        region: Region,
        l: &For,
        goes_over: Iterable<'m>,
        opened: &mut Opened,
        cursor: &mut Cursor,
    ) -> Result<Option<Flow>, Stop>
        requires { Nests self.now.program.now self.now.limit self.now.depth (F.pre self.now.low) (F.post self.now.low) }
        ensures { TellsOpened (parallel_left (here self.now.program.now self.now.limit self.now.depth) (consumers_of consumers.now) (scope_of scope.now) l.now (iterable_of goes_over.entry) (region_of region) (seen state.old)) (turns_from (here self.now.program.now self.now.limit self.now.depth) (turn_of (here self.now.program.now self.now.limit self.now.depth) (consumers_of consumers.now) (opened_consumer (scope_of scope.now) l.now opened.new))) result opened.new.begun cursor.new state.new }
    {
        let fixed = fixed_of(self.alloc, scope, &l.names, l.body.as_slice())?;
        let begun = start_region(state);
        let inner = Scope {
            inner: scope.inner,
            locals: scope.locals,
            fixed: fixed.as_slice(),
            in_prelude: scope.in_prelude,
        };
        let entered = self.enter_parallel(state, consumers, &region, &inner, l, goes_over, cursor);
        opened.region = region;
        opened.fixed = fixed;
        opened.begun = begun;
        entered
    }

    /// Begins a parallel loop in a region.
    #[inline(never)]
    fn enter_parallel(
        &self,
        state: &mut State,
        consumers: &[Consumer<'_>],
        region: &Region,
        scope: &Scope<'_>,
        l: &For,
        goes_over: Iterable<'m>,
        cursor: &mut Cursor,
    ) -> Result<Option<Flow>, Stop>
        requires { Nests self.now.program.now self.now.limit self.now.depth (F.pre self.now.low) (F.post self.now.low) }
        ensures { TellsEntered (looped (here self.now.program.now self.now.limit self.now.depth) (consumers_of consumers.now) (iterable_of goes_over.entry) (Parallel (region_of region.now) (scope_of scope.now) l.now.names l.now.body) (seen state.old)) (turns_from (here self.now.program.now self.now.limit self.now.depth) (turn_of (here self.now.program.now self.now.limit self.now.depth) (consumers_of consumers.now) (Parallel (region_of region.now) (scope_of scope.now) l.now.names l.now.body))) result cursor.new state.new }
    {
        self.enter_loop(
            state,
            consumers,
            Consumer::Parallel(region, *scope, &l.names, &l.body),
            goes_over,
            cursor,
        )
    }

    /// A turn of a parallel loop.
    #[cycle(statement)]
    #[inline(never)]
    pub(crate) fn parallel_turn(
        &self,
        state: &mut State,
        consumers: &[Consumer<'_>],
        region: &Region,
        scope: &Scope<'_>,
        names: &LoopNames,
        body: &Items<Stmt>,
        v: Value,
    ) -> Result<Flow, Stop>
        requires { Nests self.now.program.now self.now.limit self.now.depth (F.pre self.now.low) (F.post self.now.low) }
        ensures { TellsFlow (turn_of (here self.now.program.now self.now.limit self.now.depth) (consumers_of consumers.now) (Parallel (region_of region.now) (scope_of scope.now) names.now body.now) v (seen state.old)) result state.new }
    {
        let saved = enter_iteration(self.alloc, state, region, &v)?;
        let left = self.body_turn(state, consumers, scope, names, body, v);
        close_turn(self.alloc, state, region, saved, left)
    }
}
