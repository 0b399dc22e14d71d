#![tactic(auto, unfolding(meaning_rules::specs::Outcome::bind, meaning_rules::specs::Outcome::pure, meaning_rules::specs::Outcome::stop))]

ghost use Rattle.std.specs.Prelude.{◌≡◌, ◌<◌, ◌++◌, ◌∷◌, [], IfOk, OnOk};
ghost use Rattle.codon_base.specs.declared.value.Value.{out-Value};
ghost use Rattle.codon_base.specs.declared.value.Value.TheVariants as value;
ghost use Rattle.meaning_rules.specs.Objects as objects;
ghost use Rattle.meaning_rules.specs.Iterations.{in_place};
ghost use Rattle.plain_interpreter.specs.Pieces.{ends_of, joined, separated_texts, followed};
ghost use Rattle.meaning_rules.specs.Printing as spec;
ghost use Rattle.plain_interpreter.specs.Seen.{seen, Tells, TellsBy, TellsAt};
ghost use Rattle.plain_interpreter.specs.Scopes.{scope_of};
ghost use Rattle.plain_interpreter.specs.Tasks.{Nests, here};

use crate::flow::Flow;
use crate::operations::text_of_value;
use crate::prepared::Prepared;
use crate::runner::Runner;
use crate::scope::Scope;
use crate::state::{State, Stop};
use crate::task::{Consumer, Task};
use crate::variables::wrong;
use codon_base::{Bytes, Memory, Text, Value, Values};
use source_trees::{PrintOptions, Printed};
use std::alloc::Global;

/// What stands between printed values, and after them.
#[derive(Drop)]
pub(crate) struct Ends {
    pub(crate) between: Value,
    pub(crate) last: Value,
}

/// A text of one byte.
fn one_byte(alloc: Global, byte: u8) -> Result<Value, Memory>
    requires { byte < 128 }
    ensures { IfOk result (λ v. v ≡ value.Text (byte ∷ [])) }
{
    let mut text = Text::new(alloc)?;
    text.push(byte)?;
    Ok(Value::Text(text))
}

fn space(alloc: Global) -> Result<Value, Memory>
    ensures { IfOk result (λ v. v ≡ spec.space) }
{
    one_byte(alloc, 32)
}

fn line_end(alloc: Global) -> Result<Value, Memory>
    ensures { IfOk result (λ v. v ≡ spec.line_end) }
{
    one_byte(alloc, 10)
}

/// The text in a value.
fn text_in(alloc: Global, v: Value) -> Result<Text, Stop>
    ensures { (s : _) → TellsAt (objects.text_in (out-Value v) s) result s }
{
    match v {
        Value::Text(text) => Ok(text),
        _ => Err(wrong(alloc)),
    }
}

/// Puts bytes at the end of others.
fn push_bytes(out: &mut Bytes, bytes: &[u8]) -> Result<(), Memory>
    ensures { OnOk result (out.new ≡ out.old ++ bytes.now) }
{
    'bytes: for byte in bytes {
        out.push(*byte)?;
    }
    Ok(())
}

/// The texts of values with one text between them, and another after them.
#[tactic(auto, unfolding(meaning_rules::specs::Outcome::pure), using(crate::proofs::Pieces::joined_last))]
fn joined(
    alloc: Global,
    state: &mut State,
    vs: &[Value],
    between: &Text,
    last: &Text,
) -> Result<Text, Stop>
    ensures { Tells (joined in_place vs.now between.now last.now (seen state.old)) result state.new }
{
    let mut piece = separated(alloc, state, vs, between)?;
    piece.append(last)?;
    Ok(piece)
}

/// The texts of values with one text between them.
fn separated(alloc: Global, state: &mut State, vs: &[Value], between: &Text) -> Result<Text, Stop>
    ensures { Tells (separated_texts in_place vs.now between.now (seen state.old)) result state.new }
{
    let [first, more @ ..] = vs else {
        return Ok(Text::new(alloc)?);
    };
    let text = text_of_value(alloc, state, first)?;
    followed(alloc, state, more, between, text)
}

/// A text with the texts of more values after it, each with one text before it.
fn followed(
    alloc: Global,
    state: &mut State,
    vs: &[Value],
    between: &Text,
    text: Text,
) -> Result<Text, Stop>
    ensures { Tells (followed in_place vs.now between.now text (seen state.old)) result state.new }
{
    let mut piece = text;
    'values: for v in vs {
        let next = text_of_value(alloc, state, v)?;
        piece.append(between)?;
        piece.append(&next)?;
    }
    Ok(piece)
}

#[inline(never)]
fn print(alloc: Global, state: &mut State, vs: &[Value], ends: Ends) -> Result<(), Stop>
    ensures { Tells (spec.print in_place vs.now (ends_of ends) (seen state.old)) result state.new }
{
    let between = text_in(alloc, ends.between)?;
    let last = text_in(alloc, ends.last)?;
    let piece = joined(alloc, state, vs, &between, &last)?;
    push_bytes(&mut state.out, piece.as_bytes())?;
    Ok(())
}

impl<
    'm,
    F: Fn(
        Global,
        &Prepared<'_>,
        u64,
        u32,
        &mut State,
        &[Consumer<'_>],
        Task<'_>,
    ) -> Result<Flow, Stop>,
> Runner<'m, F> {
    #[inline(never)]
    fn ends(
        &self,
        state: &mut State,
        scope: &Scope<'_>,
        options: &PrintOptions,
    ) -> Result<Ends, Stop>
        requires { Nests self.now.program.now self.now.limit self.now.depth (F.pre self.now.low) (F.post self.now.low) }
        ensures { TellsBy ends_of (spec.ends (here self.now.program.now self.now.limit self.now.depth) (scope_of scope.now) options.now (seen state.old)) result state.new }
    {
        match options {
            PrintOptions::Neither => Ok(Ends {
                between: space(self.alloc)?,
                last: line_end(self.alloc)?,
            }),
            PrintOptions::Sep(sep) => {
                let between = self.expr(state, scope, sep)?;
                Ok(Ends {
                    between,
                    last: line_end(self.alloc)?,
                })
            }
            PrintOptions::End(last) => {
                let last = self.expr(state, scope, last)?;
                Ok(Ends {
                    between: space(self.alloc)?,
                    last,
                })
            }
            PrintOptions::SepEnd(sep, last) => {
                let between = self.expr(state, scope, sep)?;
                let last = self.expr(state, scope, last)?;
                Ok(Ends { between, last })
            }
            PrintOptions::EndSep(last, sep) => {
                let last = self.expr(state, scope, last)?;
                let between = self.expr(state, scope, sep)?;
                Ok(Ends { between, last })
            }
        }
    }

    /// `print(..)` after the values that were piped into it.
    #[inline(never)]
    pub(crate) fn print_after(
        &self,
        state: &mut State,
        scope: &Scope<'_>,
        piped: Values,
        printed: &Printed,
    ) -> Result<(), Stop>
        requires { Nests self.now.program.now self.now.limit self.now.depth (F.pre self.now.low) (F.post self.now.low) }
        ensures { Tells (spec.print_after (here self.now.program.now self.now.limit self.now.depth) (scope_of scope.now) piped printed.now (seen state.old)) result state.new }
    {
        let more = self.exprs(state, scope, printed.values.as_slice())?;
        let ends = self.ends(state, scope, &printed.options)?;
        let mut all = piped;
        all.append(more)?;
        print(self.alloc, state, all.as_slice(), ends)
    }
}
