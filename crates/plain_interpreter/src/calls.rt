#![tactic(auto, unfolding(meaning_rules::specs::Outcome::bind, meaning_rules::specs::Outcome::pure, meaning_rules::specs::Outcome::stop, meaning_rules::specs::Outcome::framed))]

ghost use Rattle.std.specs.Prelude.{Some};
ghost use Rattle.meaning_rules.specs.Calls as spec;
ghost use Rattle.plain_interpreter.specs.Seen.{seen, Tells};
ghost use Rattle.plain_interpreter.specs.Tasks.{Nests, here, known_of};

use crate::arguments::{arguments, parameters};
use crate::callee::{Numbered, function_named};
use crate::flow::Flow;
use crate::frames::swap_names;
use crate::objects::allocate;
use crate::prepared::{Called, Known, Prepared};
use crate::returns::{result_of, unset_fields, with_first};
use crate::runner::Runner;
use crate::state::{State, Stop};
use crate::task::{Consumer, Task};
use crate::variables::{tick, wrong};
use codon_base::{Object, Spelling, Value, Values};
use std::alloc::Global;

impl<
    'm,
    F: Fn(
        Global,
        &Prepared<'_>,
        u64,
        u32,
        &mut State,
        &[Consumer<'_>],
        Task<'_>,
    ) -> Result<Flow, Stop>,
> Runner<'m, F> {
    /// Runs the body of a function on its arguments.
    #[inline(never)]
    fn enter(&self, state: &mut State, called: Called<'_>, given: &[Value]) -> Result<Value, Stop>
        requires { Nests self.now.program.now self.now.limit self.now.depth (F.pre self.now.low) (F.post self.now.low) }
        ensures { Tells (spec.enter (here self.now.program.now self.now.limit self.now.depth) (known_of called.entry) given.now (seen state.old)) result state.new }
    {
        tick(state, self.limit)?;
        let names = parameters(self.alloc, called.known.function.params.as_slice(), given)?;
        let outer = swap_names(state, names);
        let flow = self.deeper(
            state,
            &[],
            Task::Enter(called.scope(), &called.known.function.body),
        )?;
        let _ = swap_names(state, outer);
        let v = result_of(self.alloc, called.known, flow)?;
        Ok(v)
    }

    /// A call of a function that is no generator.
    #[inline(never)]
    pub(crate) fn call(
        &self,
        state: &mut State,
        called: Called<'_>,
        given: Values,
    ) -> Result<Value, Stop>
        requires { Nests self.now.program.now self.now.limit self.now.depth (F.pre self.now.low) (F.post self.now.low) }
        ensures { Tells (spec.call (here self.now.program.now self.now.limit self.now.depth) (known_of called.entry) given (seen state.old)) result state.new }
    {
        if called.known.yields {
            return Err(wrong(self.alloc));
        }
        match arguments(called.known.function.params.as_slice(), given)? {
            Some(given) => self.enter(state, called, given.as_slice()),
            None => Err(wrong(self.alloc)),
        }
    }

    /// A new instance, whose fields its `__init__` sets, or which takes the arguments as its fields where there is none.
    #[inline(never)]
    pub(crate) fn construct(
        &self,
        state: &mut State,
        c: Numbered<'_>,
        given: Values,
    ) -> Result<Value, Stop>
        requires { Nests self.now.program.now self.now.limit self.now.depth (F.pre self.now.low) (F.post self.now.low) }
        ensures { Tells (spec.construct (here self.now.program.now self.now.limit self.now.depth) c.entry.number c.entry.class.now.class.now given (seen state.old)) result state.new }
    {
        let name = Spelling::from_slice(self.alloc, b"__init__")?;
        match function_named(&name, &c.class.methods) {
            Some(known) => self.construct_by(state, c, known, given),
            None => {
                if given.len() != c.class.fields.len() {
                    return Err(wrong(self.alloc));
                }
                allocate(
                    state,
                    Object::Instance {
                        class: c.number,
                        fields: given,
                    },
                )
            }
        }
    }

    #[inline(never)]
    fn construct_by(
        &self,
        state: &mut State,
        c: Numbered<'_>,
        known: &Known<'_>,
        given: Values,
    ) -> Result<Value, Stop>
        requires { Nests self.now.program.now self.now.limit self.now.depth (F.pre self.now.low) (F.post self.now.low) }
        ensures { Tells (spec.construct_by (here self.now.program.now self.now.limit self.now.depth) c.entry.number c.entry.class.now.class.now (Some known.now.function.now) given (seen state.old)) result state.new }
    {
        let fields = unset_fields(self.alloc, c.class.fields.as_slice())?;
        let new = allocate(
            state,
            Object::Instance {
                class: c.number,
                fields,
            },
        )?;
        self.initialize(state, known, given, new)
    }

    /// Runs the `__init__` of a new instance.
    #[inline(never)]
    fn initialize(
        &self,
        state: &mut State,
        known: &Known<'_>,
        given: Values,
        new: Value,
    ) -> Result<Value, Stop>
        requires { Nests self.now.program.now self.now.limit self.now.depth (F.pre self.now.low) (F.post self.now.low) }
        ensures { Tells (spec.initialize (here self.now.program.now self.now.limit self.now.depth) known.now.function.now given new (seen state.old)) result state.new }
    {
        let first = new.try_clone(self.alloc)?;
        let given = with_first(self.alloc, first, given)?;
        let _ = self.call(
            state,
            Called {
                known,
                in_prelude: false,
            },
            given,
        )?;
        Ok(new)
    }
}
