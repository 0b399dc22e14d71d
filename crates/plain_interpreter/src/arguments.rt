ghost use Rattle.std.specs.Prelude.{◌≡◌, ◌≤◌, length, drop, IfOk};
ghost use Rattle.source_trees.specs.declared.expression.Expr.{out-Expr};
ghost use Rattle.meaning_rules.specs.Calls as spec;
ghost use Rattle.plain_interpreter.specs.Seen.{names_of};

use crate::state::{Entry, Names};
use codon_base::{Memory, Spelling, Value, Values, wrap_sub};
use source_trees::{Expr, Param, UnaryOp};
use std::alloc::Global;

fn negative_number(by: UnaryOp, operand: &Expr) -> Option<Value>
    ensures { result ≡ spec.negative_number by (out-Expr operand.now) }
{
    match (by, operand) {
        (UnaryOp::Minus, Expr::Number(_, number)) => Some(Value::Int(wrap_sub(0, *number))),
        _ => None,
    }
}

/// The value of a default.
fn constant(e: &Expr) -> Result<Option<Value>, Memory>
    ensures { IfOk result (λ v. v ≡ spec.constant (out-Expr e.now)) }
{
    Ok(match e {
        Expr::Number(_, number) => Some(Value::Int(*number)),
        Expr::Unary(_, by, operand) => negative_number(*by, operand.get()),
        Expr::Text(_, text) => Some(Value::Text(text.try_clone()?)),
        Expr::True(_) => Some(Value::Bool(true)),
        Expr::False(_) => Some(Value::Bool(false)),
        Expr::None(_) => Some(Value::Unit),
        _ => None,
    })
}

fn default_of(param: &Param) -> Result<Option<Value>, Memory>
    ensures { IfOk result (λ v. v ≡ spec.default_of param.now param.now.default) }
{
    match &param.default {
        Some(e) => constant(e),
        None => Ok(None),
    }
}

/// The parameters after that many.
fn after(params: &[Param], count: usize) -> &[Param]
    requires { count ≤ length params.now }
    ensures { result.now ≡ drop count params.now }
{
    &params[count..]
}

/// The values of the parameters: those that are given, and then defaults. There are none where too many are given, or a value is missing.
#[inline(never)]
pub(crate) fn arguments(params: &[Param], given: Values) -> Result<Option<Values>, Memory>
    ensures { IfOk result (λ all. all ≡ spec.arguments params.now given) }
{
    if given.len() > params.len() {
        return Ok(None);
    }
    let rest = after(params, given.len());
    let mut all = given;
    'params: for param in rest {
        match default_of(param)? {
            Some(v) => all.push(v)?,
            None => return Ok(None),
        }
    }
    Ok(Some(all))
}

/// A parameter with an equal value.
fn entry_of(alloc: Global, param: &Param, value: &Value) -> Result<Entry, Memory>
    ensures { IfOk result (λ entry. entry ≡ record { name = param.now.name; value = value.now }) }
{
    let name = Spelling::from_slice(alloc, param.name.as_slice())?;
    let value = value.try_clone(alloc)?;
    Ok(Entry { name, value })
}

/// The names of a body that begins.
#[inline(never)]
pub(crate) fn parameters(alloc: Global, params: &[Param], given: &[Value]) -> Result<Names, Memory>
    ensures { IfOk result (λ names. names_of names ≡ spec.parameters params.now given.now) }
{
    let mut entries = Vec::new(alloc);
    let mut rest = given;
    'params: for param in params {
        let [value, more @ ..] = rest else {
            return Ok(Names { entries });
        };
        entries.push(entry_of(alloc, param, value)?)?;
        rest = more;
    }
    Ok(Names { entries })
}
