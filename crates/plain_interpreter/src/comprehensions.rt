#![tactic(auto, unfolding(meaning_rules::specs::Outcome::bind, meaning_rules::specs::Outcome::pure, meaning_rules::specs::Outcome::stop, meaning_rules::specs::Outcome::framed, meaning_rules::specs::Outcome::look))]

ghost use Rattle.std.specs.Prelude.{◌≡◌, [], IfOk, OnOk, map};
ghost use Rattle.meaning_rules.specs.Expressions as spec;
ghost use Rattle.plain_interpreter.specs.Forms.{Comprehends, Gathers};
ghost use Rattle.plain_interpreter.specs.Gathered.{HasNames, IsSame, TellsGathering, ended, filling, turns_of};
ghost use Rattle.meaning_rules.specs.Iterations.{in_place};
ghost use Rattle.plain_interpreter.specs.Lists as lists;
ghost use Rattle.meaning_rules.specs.Meaning.{condition_of, turn_of};
ghost use Rattle.meaning_rules.specs.Objects as objects;
ghost use Rattle.meaning_rules.specs.Outcome.{and_then};
ghost use Rattle.plain_interpreter.specs.Scopes.{scope_of};
ghost use Rattle.plain_interpreter.specs.Seen.{seen, Tells, TellsBy, TellsFlow};
ghost use Rattle.plain_interpreter.specs.Frames.{with_names, put_back};
ghost use Rattle.source_trees.specs.Names.{loop_names};
ghost use Rattle.meaning_rules.specs.State.{Next};
ghost use Rattle.plain_interpreter.specs.Steps.{iterable_of};
ghost use Rattle.meaning_rules.specs.Task.{Comprehension};
ghost use Rattle.plain_interpreter.specs.Tasks.{Nests, here};

use crate::entering::step;
use crate::flow::{End, Flow, ended};
use crate::iterable::{Cursor, Iterable};
use crate::objects::allocate;
use crate::operations::truth;
use crate::prepared::Prepared;
use crate::runner::Runner;
use crate::scope::{Inner, Scope, within};
use crate::state::{State, Stop};
use crate::task::{Consumer, Task};
use crate::variables::{left, set_loop_names};
use codon_base::{Memory, Object, Value};
use source_trees::{Expr, LoopNames};
use sqlite_items::{Boxed, Items};
use std::alloc::Global;

/// What the names of a comprehension hold before it.
#[tactic(auto, unfolding(crate::specs::Seen::seen))]
fn held_now(alloc: Global, state: &State, names: &LoopNames) -> Result<Vec<Value>, Memory>
    ensures { IfOk result (λ held. held.items ≡ map (seen state.now).names (loop_names names.now)) }
{
    state.names.held(alloc, names)
}

/// Gives the names of a comprehension what they held before it.
#[tactic(auto, unfolding(crate::specs::Seen::seen))]
fn give_back(
    alloc: Global,
    state: &mut State,
    names: &LoopNames,
    before: Vec<Value>,
) -> Result<(), Memory>
    ensures { OnOk result (seen state.new ≡ with_names (put_back (loop_names names.now) before.items (seen state.old).names) (seen state.old)) }
{
    state.names.put_back(alloc, names, before)
}

/// A comprehension that has begun: its names and those of the comprehensions round it, its list, what its names held before it, where its loop stands, and whether a generator has given all its items.
#[derive(Drop)]
pub(crate) struct Gathering<'a> {
    all: Vec<Inner<'a>>,
    list: Value,
    before: Vec<Value>,
    cursor: Cursor,
    is_whole: bool,
}

/// The list of a comprehension that was filled; its names get back what they held before it.
#[inline(never)]
fn finish(
    filled: Result<(), Stop>,
    alloc: Global,
    state: &mut State,
    names: &LoopNames,
    begun: Box<Gathering<'_>>,
) -> Result<Value, Stop>
    ensures { (o : _) → TellsBy (λ _. Next) o filled state.old → Tells (ended names.now begun.entry.value o) result state.new }
{
    match filled {
        Ok(()) => {
            let begun = Box::into_inner(begun);
            give_back(alloc, state, names, begun.before)?;
            Ok(begun.list)
        }
        Err(why) => Err(why),
    }
}

/// Whether a condition holds, of which this was found.
#[inline(never)]
fn holds(found: Result<Value, Stop>, alloc: Global, state: &State) -> Result<bool, Stop>
    ensures { (o : _) → Tells o found state.now → Tells (and_then o (objects.truth in_place)) result state.now }
{
    match found {
        Ok(v) => truth(alloc, state, &v),
        Err(why) => Err(why),
    }
}

impl<
    'm,
    F: Fn(
        Global,
        &Prepared<'_>,
        u64,
        u32,
        &mut State,
        &[Consumer<'_>],
        Task<'_>,
    ) -> Result<Flow, Stop>,
> Runner<'m, F> {
    /// `[item for names in iterable if condition]`.
    #[cycle(expression)]
    #[inline(never)]
    pub(crate) fn comprehended(
        &self,
        state: &mut State,
        scope: &Scope<'_>,
        e: &Expr,
        iterable: &Boxed<Expr>,
        names: &LoopNames,
        item: &Boxed<Expr>,
        condition: &Option<Boxed<Expr>>,
    ) -> Result<Value, Stop>
        requires nests { Nests self.now.program.now self.now.limit self.now.depth (F.pre self.now.low) (F.post self.now.low) }
        requires form { Comprehends e.now names.now iterable.now condition.now item.now }
        ensures { Tells (lists.comprehension (here self.now.program.now self.now.limit self.now.depth) (scope_of scope.now) names.now iterable.now condition.now item.now (seen state.old)) result state.new }
    {
        let mut begun = self.gathering_over(
            self.iterable(state, scope, iterable.get()),
            state,
            &*scope,
            &*names,
            &*item,
            &*condition,
        )?;
        finish(
            self.fill(state, scope, e, names, item, condition, &mut begun),
            self.alloc,
            state,
            names,
            begun,
        )
    }

    /// The beginning of a comprehension over what was found.
    #[inline(never)]
    fn gathering_over<'a>(
        &self,
        found: Result<Iterable<'m>, Stop>,
        state: &mut State,
        scope: &Scope<'a>,
        names: &'a LoopNames,
        item: &'a Boxed<Expr>,
        condition: &'a Option<Boxed<Expr>>,
    ) -> Result<Box<Gathering<'a>>, Stop>
        requires { Nests self.now.program.now self.now.limit self.now.depth (F.pre self.now.low) (F.post self.now.low) }
        ensures inside { IfOk result (λ begun. HasNames begun.value.all.items names.now scope.now) }
        ensures begun { (o : _) → TellsBy iterable_of o found.entry state.old → TellsGathering names.now (λ begun. begun.value) (and_then o (λ goes_over. lists.comprehended_of (here self.now.program.now self.now.limit self.now.depth) (scope_of scope.now) names.now goes_over condition.now item.now)) (turns_of (here self.now.program.now self.now.limit self.now.depth) (scope_of scope.now) names.now condition.now item.now) result state.new }
    {
        match found {
            Ok(goes_over) => self.gathering(state, scope, goes_over, names, item, condition),
            Err(why) => Err(why),
        }
    }

    /// The beginning of a comprehension over what it goes over.
    #[inline(never)]
    fn gathering<'a>(
        &self,
        state: &mut State,
        scope: &Scope<'a>,
        goes_over: Iterable<'m>,
        names: &'a LoopNames,
        item: &'a Boxed<Expr>,
        condition: &'a Option<Boxed<Expr>>,
    ) -> Result<Box<Gathering<'a>>, Stop>
        requires { Nests self.now.program.now self.now.limit self.now.depth (F.pre self.now.low) (F.post self.now.low) }
        ensures inside { IfOk result (λ begun. HasNames begun.value.all.items names.now scope.now) }
        ensures begun { TellsGathering names.now (λ begun. begun.value) (lists.comprehended_of (here self.now.program.now self.now.limit self.now.depth) (scope_of scope.now) names.now (iterable_of goes_over.entry) condition.now item.now (seen state.old)) (turns_of (here self.now.program.now self.now.limit self.now.depth) (scope_of scope.now) names.now condition.now item.now) result state.new }
    {
        let all = within(self.alloc, Inner { names }, scope.inner)?;
        let inner = Scope {
            inner: &all,
            locals: scope.locals,
            fixed: scope.fixed,
            in_prelude: scope.in_prelude,
        };
        let list = allocate(state, Object::List(Items::new(self.alloc)))?;
        let before = held_now(self.alloc, state, names)?;
        let mut cursor = Cursor::Ended;
        let consumer = Consumer::Comprehension(inner, names, condition, item, &list);
        let flow = self.enter_loop(state, &[], consumer, goes_over, &mut cursor)?;
        let is_whole = flow.is_some();
        let begun = Box::new(
            self.alloc,
            Gathering {
                all,
                list,
                before,
                cursor,
                is_whole,
            },
        )?;
        Ok(begun)
    }

    /// Makes the turns of a comprehension that has begun.
    #[cycle(expression)]
    #[inline(never)]
    fn fill(
        &self,
        state: &mut State,
        scope: &Scope<'_>,
        e: &Expr,
        names: &LoopNames,
        item: &Boxed<Expr>,
        condition: &Option<Boxed<Expr>>,
        begun: &mut Gathering<'_>,
    ) -> Result<(), Stop>
        requires nests { Nests self.now.program.now self.now.limit self.now.depth (F.pre self.now.low) (F.post self.now.low) }
        requires form { Gathers e.now condition.now item.now }
        requires inside { HasNames begun.old.all.items names.now scope.now }
        ensures same { IsSame begun.old begun.new }
        ensures filled { TellsBy (λ _. Next) (filling (turns_of (here self.now.program.now self.now.limit self.now.depth) (scope_of scope.now) names.now condition.now item.now) begun.old (seen state.old)) result state.new }
    {
        if begun.is_whole {
            return Ok(());
        }
        let inner = Scope {
            inner: &begun.all,
            locals: scope.locals,
            fixed: scope.fixed,
            in_prelude: scope.in_prelude,
        };
        let mut left = left(state, self.limit);
        'turns: loop {
            if !step(
                self.alloc,
                state,
                self.limit,
                &inner,
                names,
                &mut begun.cursor,
            )? {
                return Ok(());
            }
            let is_kept = match condition {
                Some(condition) => {
                    holds(self.expr(state, &inner, condition.get()), self.alloc, state)?
                }
                None => true,
            };
            if is_kept {
                self.append_found(self.expr(state, &inner, item.get()), state, &begun.list)?;
            }
            if left == 0 {
                return Err(Stop::OutOfFuel);
            }
            left -= 1;
        }
    }

    /// Puts the item of which this was found at the end of a list that is gathered.
    #[inline(never)]
    fn append_found(
        &self,
        found: Result<Value, Stop>,
        state: &mut State,
        list: &Value,
    ) -> Result<(), Stop>
        ensures { (o : _) → Tells o found state.old → TellsBy (λ _. Next) (and_then o (spec.append_to (here self.now.program.now self.now.limit self.now.depth) list.now)) result state.new }
    {
        match found {
            Ok(v) => {
                self.append_value(state, list, v)?;
                Ok(())
            }
            Err(why) => Err(why),
        }
    }

    /// The condition of a comprehension, which holds where it is not written.
    #[inline(never)]
    fn kept(
        &self,
        state: &mut State,
        scope: &Scope<'_>,
        e: &Option<Boxed<Expr>>,
    ) -> Result<bool, Stop>
        requires { Nests self.now.program.now self.now.limit self.now.depth (F.pre self.now.low) (F.post self.now.low) }
        ensures { Tells (condition_of (here self.now.program.now self.now.limit self.now.depth) (scope_of scope.now) e.now (seen state.old)) result state.new }
    {
        match e {
            Some(e) => { holds(self.expr(state, scope, e.get()), self.alloc, state) }
            None => Ok(true),
        }
    }

    /// A turn of a comprehension whose items a generator gives.
    #[inline(never)]
    pub(crate) fn gather_one(
        &self,
        state: &mut State,
        inner: &Scope<'_>,
        names: &LoopNames,
        item: &Boxed<Expr>,
        condition: &Option<Boxed<Expr>>,
        list: &Value,
        v: Value,
    ) -> Result<Flow, Stop>
        requires { Nests self.now.program.now self.now.limit self.now.depth (F.pre self.now.low) (F.post self.now.low) }
        ensures { TellsFlow (turn_of (here self.now.program.now self.now.limit self.now.depth) [] (Comprehension (scope_of inner.now) names.now condition.now item.now list.now) v (seen state.old)) result state.new }
    {
        set_loop_names(self.alloc, state, inner, names, v)?;
        if !self.kept(state, inner, condition)? {
            return Ok(ended(End::Next));
        }
        let v = self.expr(state, inner, item.get())?;
        self.append_to(state, list, v)
    }
}
