#![tactic(auto, unfolding(meaning_rules::specs::Outcome::bind, meaning_rules::specs::Outcome::pure, meaning_rules::specs::Outcome::stop))]

ghost use Rattle.codon_base.specs.declared.value.Value.TheVariants as value;
ghost use Rattle.meaning_rules.specs.Expressions as spec;
ghost use Rattle.plain_interpreter.specs.Forms.{IsConditional, IsBinary, IsIndex, IsMethodCall, IsSlice};
ghost use Rattle.plain_interpreter.specs.Lists as lists;
ghost use Rattle.plain_interpreter.specs.Lists.{some_true, all_true, bound};
ghost use Rattle.meaning_rules.specs.Outcome.{pure};
ghost use Rattle.plain_interpreter.specs.Scopes.{scope_of};
ghost use Rattle.plain_interpreter.specs.Seen.{seen, Tells};
ghost use Rattle.plain_interpreter.specs.Tasks.{Nests, here};

use crate::flow::Flow;
use crate::objects::{allocate, field, item_at, slice};
use crate::operations::{binary, truth, unary};
use crate::prepared::Prepared;
use crate::runner::Runner;
use crate::scope::Scope;
use crate::state::{State, Stop};
use crate::task::{Consumer, Task};
use crate::variables::read_name;
use codon_base::{Object, Spelling, Text, Value, Values};
use source_trees::{BinaryOp, Expr, UnaryOp};
use sqlite_items::{Boxed, Items};
use std::alloc::Global;

#[inline(never)]
fn number_value(state: &State, number: &i64) -> Result<Value, Stop>
    ensures { Tells (pure (value.Int number.now) (seen state.now)) result state.now }
{
    Ok(Value::Int(*number))
}

#[inline(never)]
fn text_value(state: &State, text: &Text) -> Result<Value, Stop>
    ensures { Tells (pure (value.Text text.now) (seen state.now)) result state.now }
{
    let text = text.try_clone()?;
    Ok(Value::Text(text))
}

impl<
    'm,
    F: Fn(
        Global,
        &Prepared<'_>,
        u64,
        u32,
        &mut State,
        &[Consumer<'_>],
        Task<'_>,
    ) -> Result<Flow, Stop>,
> Runner<'m, F> {
    /// What an expression gives.
    #[cycle(expression)]
    #[inline(never)]
    pub(crate) fn expr(&self, state: &mut State, scope: &Scope<'_>, e: &Expr) -> Result<Value, Stop>
        requires { Nests self.now.program.now self.now.limit self.now.depth (F.pre self.now.low) (F.post self.now.low) }
        ensures { Tells (spec.expr (here self.now.program.now self.now.limit self.now.depth) (scope_of scope.now) e.now (seen state.old)) result state.new }
    {
        match e {
            Expr::Name(_, name) => read_name(self.alloc, state, scope, name),
            Expr::Number(_, number) => number_value(state, number),
            Expr::Text(_, text) => text_value(state, text),
            Expr::True(_) => Ok(Value::Bool(true)),
            Expr::False(_) => Ok(Value::Bool(false)),
            Expr::None(_) => Ok(Value::Unit),
            Expr::Bracketed(_, inner) => self.expr(state, scope, inner.get()),
            Expr::Tuple(_, _, items) => self.tuple(state, scope, items),
            Expr::List(_, items) => self.list(state, scope, items),
            Expr::Conditional(_, first, condition, other) => self.conditional(
                state, scope, e, first, condition, other,
            ),
            Expr::Or(_, operands) => self.some_true(state, scope, operands.as_slice()),
            Expr::And(_, operands) => self.all_true(state, scope, operands.as_slice()),
            Expr::Not(_, operand) => self.negated(state, scope, operand),
            Expr::Unary(_, by, operand) => self.unary(state, scope, *by, operand),
            Expr::Binary(_, by, left, right) => self.binary(state, scope, e, *by, left, right),
            Expr::Index(_, container, index) => self.index(state, scope, e, container, index),
            Expr::Field(_, object, name) => self.field(state, scope, object, name),
            Expr::Comprehension(_, item, names, iterable, condition) => self.comprehended(
                state, scope, e, iterable, names, item, condition,
            ),
            Expr::Compare(_, first, others) => self.comparison(state, scope, e, first, others),
            Expr::Call(_, name, parts) => self.called(state, scope, &name.spelling, parts),
            Expr::MethodCall(_, _, object, name, parts) => self.method_called(
                state, scope, e, object, name, parts,
            ),
            Expr::Slice(_, part, from, to) => self.sliced(state, scope, e, part, from, to),
        }
    }

    /// `(a, b)`.
    #[cycle(expression)]
    #[inline(never)]
    fn tuple(
        &self,
        state: &mut State,
        scope: &Scope<'_>,
        items: &Items<Expr>,
    ) -> Result<Value, Stop>
        requires { Nests self.now.program.now self.now.limit self.now.depth (F.pre self.now.low) (F.post self.now.low) }
        ensures { Tells (lists.tuple (here self.now.program.now self.now.limit self.now.depth) (scope_of scope.now) items.now (seen state.old)) result state.new }
    {
        let items = self.exprs(state, scope, items.as_slice())?;
        Ok(Value::Tuple(items))
    }

    /// `[a, b]`.
    #[cycle(expression)]
    #[inline(never)]
    fn list(&self, state: &mut State, scope: &Scope<'_>, items: &Items<Expr>) -> Result<Value, Stop>
        requires { Nests self.now.program.now self.now.limit self.now.depth (F.pre self.now.low) (F.post self.now.low) }
        ensures { Tells (lists.list (here self.now.program.now self.now.limit self.now.depth) (scope_of scope.now) items.now (seen state.old)) result state.new }
    {
        let items = self.exprs(state, scope, items.as_slice())?;
        allocate(state, Object::List(items))
    }

    /// `first if condition else other`.
    #[cycle(expression)]
    #[inline(never)]
    fn conditional(
        &self,
        state: &mut State,
        scope: &Scope<'_>,
        e: &Expr,
        first: &Boxed<Expr>,
        condition: &Boxed<Expr>,
        other: &Boxed<Expr>,
    ) -> Result<Value, Stop>
        requires nests { Nests self.now.program.now self.now.limit self.now.depth (F.pre self.now.low) (F.post self.now.low) }
        requires form { IsConditional e.now first.now condition.now other.now }
        ensures { Tells (lists.conditional (here self.now.program.now self.now.limit self.now.depth) (scope_of scope.now) first.now condition.now other.now (seen state.old)) result state.new }
    {
        if self.condition(state, scope, condition.get())? {
            self.expr(state, scope, first.get())
        } else {
            self.expr(state, scope, other.get())
        }
    }

    /// `not operand`.
    #[cycle(expression)]
    #[inline(never)]
    fn negated(
        &self,
        state: &mut State,
        scope: &Scope<'_>,
        operand: &Boxed<Expr>,
    ) -> Result<Value, Stop>
        requires { Nests self.now.program.now self.now.limit self.now.depth (F.pre self.now.low) (F.post self.now.low) }
        ensures { Tells (lists.negated (here self.now.program.now self.now.limit self.now.depth) (scope_of scope.now) operand.now (seen state.old)) result state.new }
    {
        let truth = self.condition(state, scope, operand.get())?;
        Ok(Value::Bool(!truth))
    }

    /// `by operand`.
    #[cycle(expression)]
    #[inline(never)]
    fn unary(
        &self,
        state: &mut State,
        scope: &Scope<'_>,
        by: UnaryOp,
        operand: &Boxed<Expr>,
    ) -> Result<Value, Stop>
        requires { Nests self.now.program.now self.now.limit self.now.depth (F.pre self.now.low) (F.post self.now.low) }
        ensures { Tells (lists.unary (here self.now.program.now self.now.limit self.now.depth) (scope_of scope.now) by operand.now (seen state.old)) result state.new }
    {
        let v = self.expr(state, scope, operand.get())?;
        unary(self.alloc, state, by, &v)
    }

    /// `left by right`.
    #[cycle(expression)]
    #[inline(never)]
    fn binary(
        &self,
        state: &mut State,
        scope: &Scope<'_>,
        e: &Expr,
        by: BinaryOp,
        left: &Boxed<Expr>,
        right: &Boxed<Expr>,
    ) -> Result<Value, Stop>
        requires nests { Nests self.now.program.now self.now.limit self.now.depth (F.pre self.now.low) (F.post self.now.low) }
        requires form { IsBinary e.now by left.now right.now }
        ensures { Tells (lists.binary_of (here self.now.program.now self.now.limit self.now.depth) (scope_of scope.now) by left.now right.now (seen state.old)) result state.new }
    {
        let v = self.expr(state, scope, left.get())?;
        let w = self.expr(state, scope, right.get())?;
        binary(self.alloc, state, by, &v, &w)
    }

    /// `container[index]`.
    #[cycle(expression)]
    #[inline(never)]
    fn index(
        &self,
        state: &mut State,
        scope: &Scope<'_>,
        e: &Expr,
        container: &Boxed<Expr>,
        index: &Boxed<Expr>,
    ) -> Result<Value, Stop>
        requires nests { Nests self.now.program.now self.now.limit self.now.depth (F.pre self.now.low) (F.post self.now.low) }
        requires form { IsIndex e.now container.now index.now }
        ensures { Tells (lists.index (here self.now.program.now self.now.limit self.now.depth) (scope_of scope.now) container.now index.now (seen state.old)) result state.new }
    {
        let v = self.expr(state, scope, container.get())?;
        let w = self.expr(state, scope, index.get())?;
        item_at(self.alloc, state, &v, &w)
    }

    /// `object.name`.
    #[cycle(expression)]
    #[inline(never)]
    fn field(
        &self,
        state: &mut State,
        scope: &Scope<'_>,
        object: &Boxed<Expr>,
        name: &Spelling,
    ) -> Result<Value, Stop>
        requires { Nests self.now.program.now self.now.limit self.now.depth (F.pre self.now.low) (F.post self.now.low) }
        ensures { Tells (lists.field_of (here self.now.program.now self.now.limit self.now.depth) (scope_of scope.now) object.now name.now (seen state.old)) result state.new }
    {
        let v = self.expr(state, scope, object.get())?;
        field(self.alloc, state, self.program, &v, name)
    }

    /// `object.name(parts)`.
    #[cycle(expression)]
    #[inline(never)]
    fn method_called(
        &self,
        state: &mut State,
        scope: &Scope<'_>,
        e: &Expr,
        object: &Boxed<Expr>,
        name: &Spelling,
        parts: &Items<Expr>,
    ) -> Result<Value, Stop>
        requires nests { Nests self.now.program.now self.now.limit self.now.depth (F.pre self.now.low) (F.post self.now.low) }
        requires form { IsMethodCall e.now object.now name.now parts.now }
        ensures { Tells (lists.method_called (here self.now.program.now self.now.limit self.now.depth) (scope_of scope.now) object.now name.now parts.now (seen state.old)) result state.new }
    {
        let v = self.expr(state, scope, object.get())?;
        let given = self.exprs(state, scope, parts.as_slice())?;
        self.call_method(state, v, name, given)
    }

    /// `part[from:to]`.
    #[cycle(expression)]
    #[inline(never)]
    fn sliced(
        &self,
        state: &mut State,
        scope: &Scope<'_>,
        e: &Expr,
        part: &Boxed<Expr>,
        from: &Option<Boxed<Expr>>,
        to: &Option<Boxed<Expr>>,
    ) -> Result<Value, Stop>
        requires nests { Nests self.now.program.now self.now.limit self.now.depth (F.pre self.now.low) (F.post self.now.low) }
        requires form { IsSlice e.now part.now from.now to.now }
        ensures { Tells (lists.sliced (here self.now.program.now self.now.limit self.now.depth) (scope_of scope.now) part.now from.now to.now (seen state.old)) result state.new }
    {
        let v = self.expr(state, scope, part.get())?;
        let start = self.bound(state, scope, from)?;
        let stop = self.bound(state, scope, to)?;
        slice(self.alloc, state, &v, &start, &stop)
    }

    /// A bound of a slice, which is None where it is not written.
    #[cycle(expression)]
    #[inline(never)]
    fn bound(
        &self,
        state: &mut State,
        scope: &Scope<'_>,
        e: &Option<Boxed<Expr>>,
    ) -> Result<Value, Stop>
        requires { Nests self.now.program.now self.now.limit self.now.depth (F.pre self.now.low) (F.post self.now.low) }
        ensures { Tells (bound (here self.now.program.now self.now.limit self.now.depth) (scope_of scope.now) e.now (seen state.old)) result state.new }
    {
        match e {
            Some(e) => self.expr(state, scope, e.get()),
            None => Ok(Value::Unit),
        }
    }

    /// What expressions give, in order.
    #[cycle(expression)]
    #[inline(never)]
    pub(crate) fn exprs(
        &self,
        state: &mut State,
        scope: &Scope<'_>,
        items: &[Expr],
    ) -> Result<Values, Stop>
        requires { Nests self.now.program.now self.now.limit self.now.depth (F.pre self.now.low) (F.post self.now.low) }
        ensures { Tells (spec.exprs (here self.now.program.now self.now.limit self.now.depth) (scope_of scope.now) items.now (seen state.old)) result state.new }
    {
        let mut done = Items::new(self.alloc);
        'items: for e in items {
            done.push(self.expr(state, scope, e)?)?;
        }
        Ok(done)
    }

    /// Whether a condition holds.
    #[cycle(expression)]
    #[inline(never)]
    pub(crate) fn condition(
        &self,
        state: &mut State,
        scope: &Scope<'_>,
        e: &Expr,
    ) -> Result<bool, Stop>
        requires { Nests self.now.program.now self.now.limit self.now.depth (F.pre self.now.low) (F.post self.now.low) }
        ensures { Tells (spec.condition (here self.now.program.now self.now.limit self.now.depth) (scope_of scope.now) e.now (seen state.old)) result state.new }
    {
        let v = self.expr(state, scope, e)?;
        truth(self.alloc, state, &v)
    }

    #[cycle(expression)]
    #[inline(never)]
    fn some_true(
        &self,
        state: &mut State,
        scope: &Scope<'_>,
        operands: &[Expr],
    ) -> Result<Value, Stop>
        requires { Nests self.now.program.now self.now.limit self.now.depth (F.pre self.now.low) (F.post self.now.low) }
        ensures { Tells (some_true (here self.now.program.now self.now.limit self.now.depth) (scope_of scope.now) operands.now (seen state.old)) result state.new }
    {
        'operands: for e in operands {
            if self.condition(state, scope, e)? {
                return Ok(Value::Bool(true));
            }
        }
        Ok(Value::Bool(false))
    }

    #[cycle(expression)]
    #[inline(never)]
    fn all_true(
        &self,
        state: &mut State,
        scope: &Scope<'_>,
        operands: &[Expr],
    ) -> Result<Value, Stop>
        requires { Nests self.now.program.now self.now.limit self.now.depth (F.pre self.now.low) (F.post self.now.low) }
        ensures { Tells (all_true (here self.now.program.now self.now.limit self.now.depth) (scope_of scope.now) operands.now (seen state.old)) result state.new }
    {
        'operands: for e in operands {
            if !self.condition(state, scope, e)? {
                return Ok(Value::Bool(false));
            }
        }
        Ok(Value::Bool(true))
    }
}
