#![tactic(auto, unfolding(meaning_rules::specs::Outcome::bind, meaning_rules::specs::Outcome::pure, meaning_rules::specs::Outcome::stop))]

ghost use Rattle.std.specs.Prelude.{◌≡◌, [], slice_get};
ghost use Rattle.std.specs.Option.{option_copied};
ghost use Rattle.meaning_rules.specs.Calls as calls;
ghost use Rattle.meaning_rules.specs.Expressions as spec;
ghost use Rattle.meaning_rules.specs.Meaning.{turn_of};
ghost use Rattle.codon_base.specs.Levels.{object_at};
ghost use Rattle.plain_interpreter.specs.Kinds.{kind_of, found_method, told, called_on, goes_over_on};
ghost use Rattle.meaning_rules.specs.Iterations.{in_place};
ghost use Rattle.meaning_rules.specs.Operations as operations;
ghost use Rattle.plain_interpreter.specs.Callees.{functions_in};
ghost use Rattle.meaning_rules.specs.Program.{function_named};
ghost use Rattle.plain_interpreter.specs.Seen.{seen, Tells, TellsBy, TellsAtBy, TellsFlow};
ghost use Rattle.meaning_rules.specs.State.{Next};
ghost use Rattle.plain_interpreter.specs.Steps.{iterable_of, looped, turns_from};
ghost use Rattle.meaning_rules.specs.Task.{Gathered};
ghost use Rattle.plain_interpreter.specs.Tasks.{Nests, here, known_of, program_of};

use crate::callee::function_named;
use crate::cursor::next;
use crate::flow::{End, Flow, ended, goes_on};
use crate::iterable::{Cursor, Iterable};
use crate::objects::{allocate, append, ref_in};
use crate::operations::list_method;
use crate::prepared::{Called, KnownClass, Prepared};
use crate::returns::with_first;
use crate::runner::Runner;
use crate::state::{State, Stop};
use crate::task::{Consumer, Task};
use crate::variables::{left, wrong};
use codon_base::{Holder, Object, Ref, Spelling, Value, Values};
use sqlite_items::Items;
use std::alloc::Global;

/// What stands at an address.
enum Kind {
    List,
    Instance(u32),
    Nothing,
}

#[tactic(auto, unfolding(crate::specs::Seen::seen))]
fn kind_at(state: &State, at: Ref) -> Kind
    ensures { result ≡ kind_of (object_at (seen state.now).shared.levels at) }
{
    match state.store.heap.get(at) {
        Some(Object::List(_)) => Kind::List,
        Some(Object::Instance { class, .. }) => Kind::Instance(*class),
        None => Kind::Nothing,
    }
}

/// The class of that number.
fn class_at<'m>(program: &'m Prepared<'m>, class: u32) -> Option<&'m KnownClass<'m>>
    ensures { option_copied result ≡ slice_get program.now.classes.items class }
{
    program.classes.get(class as usize)
}

/// The method of that name among those of a class.
fn method_of<'m>(
    alloc: Global,
    class: &'m KnownClass<'m>,
    name: &Spelling,
) -> Result<Called<'m>, Stop>
    ensures { (s : _) → TellsAtBy known_of (told (function_named name.now (functions_in class.now.methods.items)) s) result s }
{
    match function_named(name, &class.methods) {
        Some(known) => Ok(Called {
            known,
            in_prelude: false,
        }),
        None => Err(wrong(alloc)),
    }
}

/// The method of an instance of that class.
#[inline(never)]
fn method_in<'m>(
    alloc: Global,
    program: &'m Prepared<'m>,
    class: u32,
    name: &Spelling,
) -> Result<Called<'m>, Stop>
    ensures { (s : _) → TellsAtBy known_of (found_method (program_of program.now) class name.now s) result s }
{
    match class_at(program, class) {
        Some(c) => method_of(alloc, c, name),
        None => Err(wrong(alloc)),
    }
}

/// What a loop goes over that a method of a list gives.
#[inline(never)]
fn list_items<'m>(
    alloc: Global,
    state: &mut State,
    name: &Spelling,
    at: Ref,
    given: Values,
) -> Result<Iterable<'m>, Stop>
    ensures { TellsBy iterable_of (spec.items_of (operations.list_method in_place name.now at given) (seen state.old)) result state.new }
{
    let items = list_method(alloc, state, name, at, given)?;
    Ok(Iterable::Items(items))
}

impl<
    'm,
    F: Fn(
        Global,
        &Prepared<'_>,
        u64,
        u32,
        &mut State,
        &[Consumer<'_>],
        Task<'_>,
    ) -> Result<Flow, Stop>,
> Runner<'m, F> {
    /// `v.name(given)`.
    #[inline(never)]
    pub(crate) fn call_method(
        &self,
        state: &mut State,
        v: Value,
        name: &Spelling,
        given: Values,
    ) -> Result<Value, Stop>
        requires { Nests self.now.program.now self.now.limit self.now.depth (F.pre self.now.low) (F.post self.now.low) }
        ensures { Tells (spec.call_method (here self.now.program.now self.now.limit self.now.depth) v name.now given (seen state.old)) result state.new }
    {
        let at = ref_in(self.alloc, state, &v)?;
        match kind_at(state, at) {
            Kind::List => list_method(self.alloc, state, name, at, given),
            Kind::Instance(class) => self.call_on(state, v, class, name, given),
            Kind::Nothing => Err(wrong(self.alloc)),
        }
    }

    /// `v.name(given)` of an instance of that class.
    #[inline(never)]
    fn call_on(
        &self,
        state: &mut State,
        v: Value,
        class: u32,
        name: &Spelling,
        given: Values,
    ) -> Result<Value, Stop>
        requires { Nests self.now.program.now self.now.limit self.now.depth (F.pre self.now.low) (F.post self.now.low) }
        ensures { Tells (called_on (here self.now.program.now self.now.limit self.now.depth) v class name.now given (seen state.old)) result state.new }
    {
        let called = method_in(self.alloc, self.program, class, name)?;
        let given = with_first(self.alloc, v, given)?;
        let made = self.call(state, called, given)?;
        Ok(made)
    }

    /// What a loop goes over that `v.name(given)` gives.
    #[inline(never)]
    pub(crate) fn iterable_method(
        &self,
        state: &mut State,
        v: Value,
        name: &Spelling,
        given: Values,
    ) -> Result<Iterable<'m>, Stop>
        requires { Nests self.now.program.now self.now.limit self.now.depth (F.pre self.now.low) (F.post self.now.low) }
        ensures { TellsBy iterable_of (spec.iterable_method (here self.now.program.now self.now.limit self.now.depth) v name.now given (seen state.old)) result state.new }
    {
        let at = ref_in(self.alloc, state, &v)?;
        match kind_at(state, at) {
            Kind::List => list_items(self.alloc, state, name, at, given),
            Kind::Instance(class) => self.goes_over_on(state, v, class, name, given),
            Kind::Nothing => Err(wrong(self.alloc)),
        }
    }

    /// What a loop goes over that `v.name(given)` of an instance of that class gives.
    #[inline(never)]
    fn goes_over_on(
        &self,
        state: &mut State,
        v: Value,
        class: u32,
        name: &Spelling,
        given: Values,
    ) -> Result<Iterable<'m>, Stop>
        requires { Nests self.now.program.now self.now.limit self.now.depth (F.pre self.now.low) (F.post self.now.low) }
        ensures { TellsBy iterable_of (goes_over_on (here self.now.program.now self.now.limit self.now.depth) v class name.now given (seen state.old)) result state.new }
    {
        let called = method_in(self.alloc, self.program, class, name)?;
        let given = with_first(self.alloc, v, given)?;
        if called.known.yields {
            return Ok(Iterable::Generated(called, given));
        }
        let items = self.call(state, called, given)?;
        Ok(Iterable::Items(items))
    }

    /// Puts an item at the end of a list that is gathered.
    #[inline(never)]
    pub(crate) fn append_value(&self, state: &mut State, list: &Value, v: Value) -> Result<(), Stop>
        ensures { TellsBy (λ _. Next) (spec.append_to (here self.now.program.now self.now.limit self.now.depth) list.now v (seen state.old)) result state.new }
    {
        let at = ref_in(self.alloc, state, list)?;
        append(self.alloc, state, at, v)?;
        Ok(())
    }

    /// The same, as a turn that goes on.
    #[inline(never)]
    pub(crate) fn append_to(&self, state: &mut State, list: &Value, v: Value) -> Result<Flow, Stop>
        ensures { TellsFlow (spec.append_to (here self.now.program.now self.now.limit self.now.depth) list.now v (seen state.old)) result state.new }
    {
        self.append_value(state, list, v)?;
        Ok(ended(End::Next))
    }

    /// A list of all that a loop goes over.
    #[inline(never)]
    pub(crate) fn gathered(&self, state: &mut State, goes_over: Iterable<'m>) -> Result<Value, Stop>
        requires { Nests self.now.program.now self.now.limit self.now.depth (F.pre self.now.low) (F.post self.now.low) }
        ensures { Tells (spec.gathered (here self.now.program.now self.now.limit self.now.depth) (iterable_of goes_over.entry) (seen state.old)) result state.new }
    {
        let list = allocate(state, Object::List(Items::new(self.alloc)))?;
        let _ = self.gather_into(state, &list, goes_over)?;
        Ok(list)
    }

    #[inline(never)]
    fn gather_into(
        &self,
        state: &mut State,
        list: &Value,
        goes_over: Iterable<'m>,
    ) -> Result<Flow, Stop>
        requires { Nests self.now.program.now self.now.limit self.now.depth (F.pre self.now.low) (F.post self.now.low) }
        ensures { TellsFlow (looped (here self.now.program.now self.now.limit self.now.depth) [] (iterable_of goes_over.entry) (Gathered list.now) (seen state.old)) result state.new }
    {
        let mut cursor = Cursor::Ended;
        match self.enter_loop(state, &[], Consumer::Gathered(list), goes_over, &mut cursor)? {
            Some(flow) => Ok(flow),
            None => self.append_turns(state, list, cursor),
        }
    }

    #[inline(never)]
    fn append_turns(&self, state: &mut State, list: &Value, from: Cursor) -> Result<Flow, Stop>
        ensures { TellsFlow (turns_from (here self.now.program.now self.now.limit self.now.depth) (turn_of (here self.now.program.now self.now.limit self.now.depth) [] (Gathered list.now)) from (seen state.old)) result state.new }
    {
        let mut left = left(state, self.limit);
        let mut cursor = from;
        'turns: loop {
            let Some(item) = next(self.alloc, state, self.limit, cursor)? else {
                return Ok(ended(End::Next));
            };
            let flow = self.append_to(state, list, item.0)?;
            if !goes_on(&flow) {
                return Ok(flow);
            }
            if left == 0 {
                return Err(Stop::OutOfFuel);
            }
            left -= 1;
            cursor = item.1;
        }
    }
}
