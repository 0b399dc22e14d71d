#![tactic(auto, unfolding(meaning_rules::specs::Outcome::bind, meaning_rules::specs::Outcome::pure, meaning_rules::specs::Outcome::stop))]

ghost use Rattle.std.specs.Prelude.{◌≡◌, [], Some, if◌then◌else◌};
ghost use Rattle.codon_base.specs.declared.fault.FaultKind.TheVariants as kind;
ghost use Rattle.meaning_rules.specs.Statements as spec;
ghost use Rattle.plain_interpreter.specs.Targets as updates;
ghost use Rattle.meaning_rules.specs.Expressions.{expr, condition};
ghost use Rattle.meaning_rules.specs.Loops.{yield, while_next};
ghost use Rattle.plain_interpreter.specs.Seen.{seen, Tells, TellsFlow};
ghost use Rattle.meaning_rules.specs.Outcome.{bind, pure};
ghost use Rattle.meaning_rules.specs.Printing.{print_after};
ghost use Rattle.meaning_rules.specs.State.{Next};
ghost use Rattle.plain_interpreter.specs.Scopes.{scope_of};
ghost use Rattle.plain_interpreter.specs.Tasks.{Nests, here, consumers_of};

use crate::flow::{End, Flow, ended};
use crate::objects::{field, item_at, put, set_field};
use crate::operations::updated;
use crate::prepared::Prepared;
use crate::runner::Runner;
use crate::scope::Scope;
use crate::state::{State, Stop};
use crate::task::{Consumer, Task};
use crate::variables::{fault, read_name, set_name, tick, unpacked, wrong};
use codon_base::{Fault, FaultKind, Spelling, Text, Value};
use source_trees::{BinaryOp, Expr, Name, Printed, Target, Targets};
use sqlite_items::Items;
use std::alloc::Global;

/// The kind of fault of that name.
#[inline(never)]
pub(crate) fn fault_named(name: &Spelling) -> Option<FaultKind>
    ensures { result ≡ spec.fault_named name.now }
{
    let name = name.as_slice();
    if name == b"ValueError".as_slice() {
        Some(FaultKind::Value)
    } else if name == b"IndexError".as_slice() {
        Some(FaultKind::Index)
    } else if name == b"ZeroDivisionError".as_slice() {
        Some(FaultKind::ZeroDivision)
    } else if name == b"AssertionError".as_slice() {
        Some(FaultKind::Assertion)
    } else if name == b"RuntimeError".as_slice() {
        Some(FaultKind::Runtime)
    } else {
        None
    }
}

impl<
    'm,
    F: Fn(
        Global,
        &Prepared<'_>,
        u64,
        u32,
        &mut State,
        &[Consumer<'_>],
        Task<'_>,
    ) -> Result<Flow, Stop>,
> Runner<'m, F> {
    fn assign(
        &self,
        state: &mut State,
        scope: &Scope<'_>,
        written: &Target,
        v: Value,
    ) -> Result<(), Stop>
        requires { Nests self.now.program.now self.now.limit self.now.depth (F.pre self.now.low) (F.post self.now.low) }
        ensures { Tells (spec.assign (here self.now.program.now self.now.limit self.now.depth) (scope_of scope.now) written.now v (seen state.old)) result state.new }
    {
        match written {
            Target::Name(_, name) => set_name(self.alloc, state, scope, name, v),
            Target::Index(_, container, index) => {
                let c = self.expr(state, scope, container)?;
                let i = self.expr(state, scope, index)?;
                put(self.alloc, state, &c, &i, v)
            }
            Target::Field(_, object, name) => {
                let o = self.expr(state, scope, object)?;
                set_field(self.alloc, state, self.program, &o, name, v)
            }
        }
    }

    fn assign_each(
        &self,
        state: &mut State,
        scope: &Scope<'_>,
        all: &[Target],
        items: &[Value],
    ) -> Result<(), Stop>
        requires { Nests self.now.program.now self.now.limit self.now.depth (F.pre self.now.low) (F.post self.now.low) }
        ensures { Tells (spec.assign_each (here self.now.program.now self.now.limit self.now.depth) (scope_of scope.now) all.now items.now (seen state.old)) result state.new }
    {
        let mut rest = items;
        'targets: for written in all {
            let [item, more @ ..] = rest else {
                return Ok(());
            };
            self.assign(state, scope, written, item.try_clone(self.alloc)?)?;
            rest = more;
        }
        Ok(())
    }

    /// Targets take a value.
    fn assign_all(
        &self,
        state: &mut State,
        scope: &Scope<'_>,
        written: &Targets,
        v: Value,
    ) -> Result<(), Stop>
        requires { Nests self.now.program.now self.now.limit self.now.depth (F.pre self.now.low) (F.post self.now.low) }
        ensures { Tells (spec.assign_all (here self.now.program.now self.now.limit self.now.depth) (scope_of scope.now) written.now v (seen state.old)) result state.new }
    {
        match written {
            Targets::One(only) => self.assign(state, scope, only, v),
            Targets::Several(_, all) => {
                let items = unpacked(self.alloc, all.len(), v)?;
                self.assign_each(state, scope, all.as_slice(), items.as_slice())
            }
        }
    }

    fn update_name(
        &self,
        state: &mut State,
        scope: &Scope<'_>,
        name: &Spelling,
        by: BinaryOp,
        e: &Expr,
    ) -> Result<(), Stop>
        requires { Nests self.now.program.now self.now.limit self.now.depth (F.pre self.now.low) (F.post self.now.low) }
        ensures { Tells (updates.update_name (here self.now.program.now self.now.limit self.now.depth) (scope_of scope.now) name.now by e.now (seen state.old)) result state.new }
    {
        let old = read_name(self.alloc, state, scope, name)?;
        let v = self.expr(state, scope, e)?;
        let new = updated(self.alloc, state, by, old, &v)?;
        set_name(self.alloc, state, scope, name, new)
    }

    fn update_place(
        &self,
        state: &mut State,
        scope: &Scope<'_>,
        container: &Expr,
        index: &Expr,
        by: BinaryOp,
        e: &Expr,
    ) -> Result<(), Stop>
        requires { Nests self.now.program.now self.now.limit self.now.depth (F.pre self.now.low) (F.post self.now.low) }
        ensures { Tells (updates.update_place (here self.now.program.now self.now.limit self.now.depth) (scope_of scope.now) container.now index.now by e.now (seen state.old)) result state.new }
    {
        let c = self.expr(state, scope, container)?;
        let i = self.expr(state, scope, index)?;
        let old = item_at(self.alloc, state, &c, &i)?;
        let v = self.expr(state, scope, e)?;
        let new = updated(self.alloc, state, by, old, &v)?;
        put(self.alloc, state, &c, &i, new)
    }

    fn update_field(
        &self,
        state: &mut State,
        scope: &Scope<'_>,
        object: &Expr,
        name: &Spelling,
        by: BinaryOp,
        e: &Expr,
    ) -> Result<(), Stop>
        requires { Nests self.now.program.now self.now.limit self.now.depth (F.pre self.now.low) (F.post self.now.low) }
        ensures { Tells (updates.update_field (here self.now.program.now self.now.limit self.now.depth) (scope_of scope.now) object.now name.now by e.now (seen state.old)) result state.new }
    {
        let o = self.expr(state, scope, object)?;
        let old = field(self.alloc, state, self.program, &o, name)?;
        let v = self.expr(state, scope, e)?;
        let new = updated(self.alloc, state, by, old, &v)?;
        set_field(self.alloc, state, self.program, &o, name, new)
    }

    /// What `target op= e` writes.
    fn update(
        &self,
        state: &mut State,
        scope: &Scope<'_>,
        written: &Target,
        by: BinaryOp,
        e: &Expr,
    ) -> Result<(), Stop>
        requires { Nests self.now.program.now self.now.limit self.now.depth (F.pre self.now.low) (F.post self.now.low) }
        ensures { Tells (spec.update (here self.now.program.now self.now.limit self.now.depth) (scope_of scope.now) written.now by e.now (seen state.old)) result state.new }
    {
        match written {
            Target::Name(_, name) => self.update_name(state, scope, name, by, e),
            Target::Index(_, container, index) => self.update_place(
                state, scope, container, index, by, e,
            ),
            Target::Field(_, object, name) => self.update_field(state, scope, object, name, by, e),
        }
    }

    /// An annotation, which assigns where it has a value.
    fn annotated(
        &self,
        state: &mut State,
        scope: &Scope<'_>,
        name: &Name,
        e: &Option<Expr>,
    ) -> Result<(), Stop>
        requires { Nests self.now.program.now self.now.limit self.now.depth (F.pre self.now.low) (F.post self.now.low) }
        ensures { Tells (spec.annotated (here self.now.program.now self.now.limit self.now.depth) (scope_of scope.now) name.now e.now (seen state.old)) result state.new }
    {
        match e {
            Some(e) => {
                let v = self.expr(state, scope, e)?;
                set_name(self.alloc, state, scope, &name.spelling, v)
            }
            None => Ok(()),
        }
    }

    /// The text of a fault.
    fn message(&self, state: &mut State, scope: &Scope<'_>, e: &Option<Expr>) -> Result<Text, Stop>
        requires { Nests self.now.program.now self.now.limit self.now.depth (F.pre self.now.low) (F.post self.now.low) }
        ensures { Tells (spec.message (here self.now.program.now self.now.limit self.now.depth) (scope_of scope.now) e.now (seen state.old)) result state.new }
    {
        match e {
            Some(e) => match self.expr(state, scope, e)? {
                Value::Text(text) => Ok(text),
                _ => Err(wrong(self.alloc)),
            },
            None => Ok(Text::new(self.alloc)?),
        }
    }

    /// Ends the run by a fault of that kind.
    #[inline(never)]
    pub(crate) fn raise(
        &self,
        state: &mut State,
        scope: &Scope<'_>,
        kind: Option<FaultKind>,
        text: &Option<Expr>,
    ) -> Result<Flow, Stop>
        requires { Nests self.now.program.now self.now.limit self.now.depth (F.pre self.now.low) (F.post self.now.low) }
        ensures { TellsFlow (spec.raise (here self.now.program.now self.now.limit self.now.depth) (scope_of scope.now) kind text.now (seen state.old)) result state.new }
    {
        match kind {
            Some(kind) => {
                let text = self.message(state, scope, text)?;
                Err(Stop::Faulted(Fault { kind, text }))
            }
            None => Err(fault(self.alloc, FaultKind::Runtime, b"name is not set")),
        }
    }

    /// `return e`.
    #[inline(never)]
    pub(crate) fn returned(
        &self,
        state: &mut State,
        scope: &Scope<'_>,
        e: &Option<Expr>,
    ) -> Result<Flow, Stop>
        requires { Nests self.now.program.now self.now.limit self.now.depth (F.pre self.now.low) (F.post self.now.low) }
        ensures { TellsFlow (spec.returned (here self.now.program.now self.now.limit self.now.depth) (scope_of scope.now) e.now (seen state.old)) result state.new }
    {
        match e {
            Some(e) => {
                let v = self.expr(state, scope, e)?;
                Ok(ended(End::Return(v)))
            }
            None => Ok(ended(End::Return(Value::Unit))),
        }
    }

    /// Whether a turn of `while` is made, for which a tick is taken.
    #[inline(never)]
    pub(crate) fn while_next(
        &self,
        state: &mut State,
        scope: &Scope<'_>,
        e: &Expr,
    ) -> Result<Option<(Value, ())>, Stop>
        requires { Nests self.now.program.now self.now.limit self.now.depth (F.pre self.now.low) (F.post self.now.low) }
        ensures { Tells (while_next self.now.limit (condition (here self.now.program.now self.now.limit self.now.depth) (scope_of scope.now) e.now) tt (seen state.old)) result state.new }
    {
        if !self.condition(state, scope, e)? {
            return Ok(None);
        }
        tick(state, self.limit)?;
        Ok(Some((Value::Unit, ())))
    }

    /// `yield e`.
    #[inline(never)]
    pub(crate) fn give_item(
        &self,
        state: &mut State,
        consumers: &[Consumer<'_>],
        scope: &Scope<'_>,
        e: &Expr,
    ) -> Result<Flow, Stop>
        requires { Nests self.now.program.now self.now.limit self.now.depth (F.pre self.now.low) (F.post self.now.low) }
        ensures { TellsFlow (bind (expr (here self.now.program.now self.now.limit self.now.depth) (scope_of scope.now) e.now) (yield (here self.now.program.now self.now.limit self.now.depth) (consumers_of consumers.now)) (seen state.old)) result state.new }
    {
        let v = self.expr(state, scope, e)?;
        self.give(state, consumers, v)
    }

    /// `assert e, text`.
    #[inline(never)]
    pub(crate) fn asserted(
        &self,
        state: &mut State,
        scope: &Scope<'_>,
        e: &Expr,
        text: &Option<Expr>,
    ) -> Result<Flow, Stop>
        requires { Nests self.now.program.now self.now.limit self.now.depth (F.pre self.now.low) (F.post self.now.low) }
        ensures { TellsFlow (bind (condition (here self.now.program.now self.now.limit self.now.depth) (scope_of scope.now) e.now) (λ t. if t then pure Next else spec.raise (here self.now.program.now self.now.limit self.now.depth) (scope_of scope.now) (Some kind.Assertion) text.now) (seen state.old)) result state.new }
    {
        if self.condition(state, scope, e)? {
            Ok(ended(End::Next))
        } else {
            self.raise(state, scope, Some(FaultKind::Assertion), text)
        }
    }

    /// `name: annotation = e`.
    #[inline(never)]
    pub(crate) fn annotation(
        &self,
        state: &mut State,
        scope: &Scope<'_>,
        name: &Name,
        e: &Option<Expr>,
    ) -> Result<Flow, Stop>
        requires { Nests self.now.program.now self.now.limit self.now.depth (F.pre self.now.low) (F.post self.now.low) }
        ensures { TellsFlow (spec.done (here self.now.program.now self.now.limit self.now.depth) (spec.annotated (here self.now.program.now self.now.limit self.now.depth) (scope_of scope.now) name.now e.now) (seen state.old)) result state.new }
    {
        self.annotated(state, scope, name, e)?;
        Ok(ended(End::Next))
    }

    /// `targets = e`.
    #[inline(never)]
    pub(crate) fn assignment(
        &self,
        state: &mut State,
        scope: &Scope<'_>,
        written: &Targets,
        e: &Expr,
    ) -> Result<Flow, Stop>
        requires { Nests self.now.program.now self.now.limit self.now.depth (F.pre self.now.low) (F.post self.now.low) }
        ensures { TellsFlow (spec.done (here self.now.program.now self.now.limit self.now.depth) (bind (expr (here self.now.program.now self.now.limit self.now.depth) (scope_of scope.now) e.now) (spec.assign_all (here self.now.program.now self.now.limit self.now.depth) (scope_of scope.now) written.now)) (seen state.old)) result state.new }
    {
        let v = self.expr(state, scope, e)?;
        self.assign_all(state, scope, written, v)?;
        Ok(ended(End::Next))
    }

    /// `target op= e`.
    #[inline(never)]
    pub(crate) fn augmented(
        &self,
        state: &mut State,
        scope: &Scope<'_>,
        written: &Target,
        by: BinaryOp,
        e: &Expr,
    ) -> Result<Flow, Stop>
        requires { Nests self.now.program.now self.now.limit self.now.depth (F.pre self.now.low) (F.post self.now.low) }
        ensures { TellsFlow (spec.done (here self.now.program.now self.now.limit self.now.depth) (spec.update (here self.now.program.now self.now.limit self.now.depth) (scope_of scope.now) written.now by e.now) (seen state.old)) result state.new }
    {
        self.update(state, scope, written, by, e)?;
        Ok(ended(End::Next))
    }

    /// An expression whose value is dropped.
    #[inline(never)]
    pub(crate) fn evaluated(
        &self,
        state: &mut State,
        scope: &Scope<'_>,
        e: &Expr,
    ) -> Result<Flow, Stop>
        requires { Nests self.now.program.now self.now.limit self.now.depth (F.pre self.now.low) (F.post self.now.low) }
        ensures { TellsFlow (bind (expr (here self.now.program.now self.now.limit self.now.depth) (scope_of scope.now) e.now) (λ _. pure Next) (seen state.old)) result state.new }
    {
        let _ = self.expr(state, scope, e)?;
        Ok(ended(End::Next))
    }

    /// `print(..)`.
    #[inline(never)]
    pub(crate) fn print_statement(
        &self,
        state: &mut State,
        scope: &Scope<'_>,
        printed: &Printed,
    ) -> Result<Flow, Stop>
        requires { Nests self.now.program.now self.now.limit self.now.depth (F.pre self.now.low) (F.post self.now.low) }
        ensures { TellsFlow (spec.done (here self.now.program.now self.now.limit self.now.depth) (print_after (here self.now.program.now self.now.limit self.now.depth) (scope_of scope.now) [] printed.now) (seen state.old)) result state.new }
    {
        self.print_after(state, scope, Items::new(self.alloc), printed)?;
        Ok(ended(End::Next))
    }
}
