#![tactic(auto, unfolding(meaning_rules::specs::Outcome::bind, meaning_rules::specs::Outcome::pure, meaning_rules::specs::Outcome::stop))]

ghost use Rattle.meaning_rules.specs.Loops as spec;
ghost use Rattle.plain_interpreter.specs.Entered.{TellsEntered};
ghost use Rattle.plain_interpreter.specs.Forms.{IsIf};
ghost use Rattle.meaning_rules.specs.Meaning.{turn_of};
ghost use Rattle.meaning_rules.specs.Outcome.{bind, pure};
ghost use Rattle.plain_interpreter.specs.Scopes.{scope_of};
ghost use Rattle.plain_interpreter.specs.Seen.{seen, TellsFlow};
ghost use Rattle.meaning_rules.specs.Statements.{stmt, statements};
ghost use Rattle.plain_interpreter.specs.Steps.{turns_from, begun_for, chosen, while_of, for_of};
ghost use Rattle.meaning_rules.specs.Task.{Body};
ghost use Rattle.plain_interpreter.specs.Tasks.{Nests, here, consumers_of};

use crate::entering::step;
use crate::flow::{End, Flow, after_loop, ended, goes_on, is_next};
use crate::iterable::Cursor;
use crate::prepared::Prepared;
use crate::runner::Runner;
use crate::scope::Scope;
use crate::simple::fault_named;
use crate::state::{State, Stop};
use crate::task::{Consumer, Task};
use crate::variables::{left, set_loop_names};
use codon_base::Value;
use source_trees::{Arm, Expr, For, LoopNames, Stmt};
use sqlite_items::Items;
use std::alloc::Global;

impl<
    'm,
    F: Fn(
        Global,
        &Prepared<'_>,
        u64,
        u32,
        &mut State,
        &[Consumer<'_>],
        Task<'_>,
    ) -> Result<Flow, Stop>,
> Runner<'m, F> {
    #[cycle(statement)]
    #[inline(never)]
    pub(crate) fn block(
        &self,
        state: &mut State,
        consumers: &[Consumer<'_>],
        scope: &Scope<'_>,
        body: &Items<Stmt>,
    ) -> Result<Flow, Stop>
        requires { Nests self.now.program.now self.now.limit self.now.depth (F.pre self.now.low) (F.post self.now.low) }
        ensures { TellsFlow (statements (here self.now.program.now self.now.limit self.now.depth) (consumers_of consumers.now) (scope_of scope.now) body.now (seen state.old)) result state.new }
    {
        'statements: for each in body.as_slice() {
            let flow = self.statement(state, consumers, scope, each)?;
            if !is_next(&flow) {
                return Ok(flow);
            }
        }
        Ok(ended(End::Next))
    }

    #[cycle(statement)]
    #[inline(always)]
    pub(crate) fn statement(
        &self,
        state: &mut State,
        consumers: &[Consumer<'_>],
        scope: &Scope<'_>,
        s: &Stmt,
    ) -> Result<Flow, Stop>
        requires { Nests self.now.program.now self.now.limit self.now.depth (F.pre self.now.low) (F.post self.now.low) }
        ensures { TellsFlow (stmt (here self.now.program.now self.now.limit self.now.depth) (consumers_of consumers.now) s.now (scope_of scope.now) (seen state.old)) result state.new }
    {
        match s {
            Stmt::Pass(_) => Ok(ended(End::Next)),
            Stmt::Break(_) => Ok(ended(End::Break)),
            Stmt::Continue(_) => Ok(ended(End::Continue)),
            Stmt::Return(_, e) => self.returned(state, scope, e),
            Stmt::Yield(_, e) => self.give_item(state, consumers, scope, e),
            Stmt::Raise(_, name, text) => self.raise(
                state,
                scope,
                fault_named(&name.spelling),
                text,
            ),
            Stmt::Assert(_, e, text) => self.asserted(state, scope, e, text),
            Stmt::Annotated(_, name, _, e) => self.annotation(state, scope, name, e),
            Stmt::Assign(_, written, e) => self.assignment(state, scope, written, e),
            Stmt::Update(_, written, by, e) => self.augmented(state, scope, written, *by, e),
            Stmt::Evaluate(_, e) => self.evaluated(state, scope, e),
            Stmt::Print(_, printed) => self.print_statement(state, scope, printed),
            Stmt::Pipeline(_, head, stages) => self.pipeline(state, consumers, scope, head, stages),
            Stmt::If(_, arms, otherwise) => self.choose(
                state, consumers, scope, s, arms, otherwise,
            ),
            Stmt::While(_, e, body) => self.while_loop(state, consumers, scope, body, e),
            Stmt::For(l) => self.for_loop(state, consumers, scope, l),
            Stmt::Par(_, _, l) => self.parallel_loop(state, consumers, scope, l),
        }
    }

    #[cycle(statement)]
    #[inline(never)]
    fn choose(
        &self,
        state: &mut State,
        consumers: &[Consumer<'_>],
        scope: &Scope<'_>,
        s: &Stmt,
        arms: &Items<Arm>,
        otherwise: &Items<Stmt>,
    ) -> Result<Flow, Stop>
        requires nests { Nests self.now.program.now self.now.limit self.now.depth (F.pre self.now.low) (F.post self.now.low) }
        requires form { IsIf s.now arms.now otherwise.now }
        ensures { TellsFlow (chosen (here self.now.program.now self.now.limit self.now.depth) (consumers_of consumers.now) (scope_of scope.now) arms.now otherwise.now (seen state.old)) result state.new }
    {
        'arms: for arm in arms.as_slice() {
            if self.condition(state, scope, &arm.condition)? {
                return self.block(state, consumers, scope, &arm.body);
            }
        }
        self.block(state, consumers, scope, otherwise)
    }

    #[cycle(statement)]
    #[inline(never)]
    fn while_loop(
        &self,
        state: &mut State,
        consumers: &[Consumer<'_>],
        scope: &Scope<'_>,
        body: &Items<Stmt>,
        e: &Expr,
    ) -> Result<Flow, Stop>
        requires { Nests self.now.program.now self.now.limit self.now.depth (F.pre self.now.low) (F.post self.now.low) }
        ensures { TellsFlow (bind (while_of (here self.now.program.now self.now.limit self.now.depth) (consumers_of consumers.now) (scope_of scope.now) e.now body.now) (λ flow. pure (spec.after_loop flow)) (seen state.old)) result state.new }
    {
        let mut left = left(state, self.limit);
        'turns: loop {
            let Some(_) = self.while_next(state, scope, e)? else {
                return Ok(ended(End::Next));
            };
            let flow = self.block(state, consumers, scope, body)?;
            if !goes_on(&flow) {
                return Ok(after_loop(flow));
            }
            if left == 0 {
                return Err(Stop::OutOfFuel);
            }
            left -= 1;
        }
    }

    /// A loop in turn.
    #[cycle(statement)]
    #[inline(never)]
    fn for_loop(
        &self,
        state: &mut State,
        consumers: &[Consumer<'_>],
        scope: &Scope<'_>,
        l: &For,
    ) -> Result<Flow, Stop>
        requires { Nests self.now.program.now self.now.limit self.now.depth (F.pre self.now.low) (F.post self.now.low) }
        ensures { TellsFlow (for_of (here self.now.program.now self.now.limit self.now.depth) (consumers_of consumers.now) (scope_of scope.now) l.now (seen state.old)) result state.new }
    {
        let mut cursor = Cursor::Ended;
        let flow = self.for_turns(state, consumers, scope, l, &mut cursor)?;
        Ok(flow)
    }

    /// A loop in turn from its beginning on, whose cursor stands outside: what owns a value holds more of the native stack.
    #[cycle(statement)]
    #[inline(never)]
    fn for_turns(
        &self,
        state: &mut State,
        consumers: &[Consumer<'_>],
        scope: &Scope<'_>,
        l: &For,
        cursor: &mut Cursor,
    ) -> Result<Flow, Stop>
        requires { Nests self.now.program.now self.now.limit self.now.depth (F.pre self.now.low) (F.post self.now.low) }
        ensures { TellsFlow (for_of (here self.now.program.now self.now.limit self.now.depth) (consumers_of consumers.now) (scope_of scope.now) l.now (seen state.old)) result state.new }
    {
        let entered = self.enter_for(state, consumers, scope, l, cursor)?;
        match entered {
            Some(flow) => return Ok(after_loop(flow)),
            None => {}
        }
        let mut left = left(state, self.limit);
        'turns: loop {
            let is_there = step(self.alloc, state, self.limit, scope, &l.names, cursor)?;
            if !is_there {
                return Ok(ended(End::Next));
            }
            let flow = self.block(state, consumers, scope, &l.body)?;
            if !goes_on(&flow) {
                return Ok(after_loop(flow));
            }
            if left == 0 {
                return Err(Stop::OutOfFuel);
            }
            left -= 1;
        }
    }

    /// The beginning of a loop in turn. Where a generator gives the items, all turns are made.
    #[inline(never)]
    fn enter_for(
        &self,
        state: &mut State,
        consumers: &[Consumer<'_>],
        scope: &Scope<'_>,
        l: &For,
        cursor: &mut Cursor,
    ) -> Result<Option<Flow>, Stop>
        requires { Nests self.now.program.now self.now.limit self.now.depth (F.pre self.now.low) (F.post self.now.low) }
        ensures { TellsEntered (begun_for (here self.now.program.now self.now.limit self.now.depth) (consumers_of consumers.now) (scope_of scope.now) l.now (seen state.old)) (turns_from (here self.now.program.now self.now.limit self.now.depth) (turn_of (here self.now.program.now self.now.limit self.now.depth) (consumers_of consumers.now) (Body (scope_of scope.now) l.now.names l.now.body))) result cursor.new state.new }
    {
        let goes_over = self.iterable(state, scope, &l.iterable)?;
        self.enter_loop(
            state,
            consumers,
            Consumer::Body(*scope, &l.names, &l.body),
            goes_over,
            cursor,
        )
    }

    /// A turn of a loop.
    #[cycle(statement)]
    #[inline(always)]
    pub(crate) fn body_turn(
        &self,
        state: &mut State,
        consumers: &[Consumer<'_>],
        scope: &Scope<'_>,
        names: &LoopNames,
        body: &Items<Stmt>,
        v: Value,
    ) -> Result<Flow, Stop>
        requires { Nests self.now.program.now self.now.limit self.now.depth (F.pre self.now.low) (F.post self.now.low) }
        ensures { TellsFlow (turn_of (here self.now.program.now self.now.limit self.now.depth) (consumers_of consumers.now) (Body (scope_of scope.now) names.now body.now) v (seen state.old)) result state.new }
    {
        set_loop_names(self.alloc, state, scope, names, v)?;
        self.block(state, consumers, scope, body)
    }
}
