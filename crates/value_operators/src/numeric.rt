ghost use Rattle.codon_base.specs.declared.value.Value.{out-Value};
ghost use Rattle.codon_base.specs.Operators.{minus, to_the_power, floor_divided, modulo, shifted_left, shifted_right, bits_and, bits_or, bits_xor, negated, unchanged, complemented};
ghost use Rattle.value_operators.specs.Answers.{Makes};

use crate::Made;
use crate::made::{int_made, int_or, wrong};
use codon_base::{
    FaultKind, Memory, Value, floor_div, floor_mod, shift_left, shift_right, wrap_neg, wrap_pow,
    wrap_sub,
};
use std::alloc::Global;

/// `v - w` of two ints, modulo 2^64 (Python reference, 6.7, but for the wrapping).
pub fn minus(alloc: Global, v: &Value, w: &Value) -> Result<Made, Memory>
    ensures { Makes result (minus (out-Value v.now) (out-Value w.now)) }
{
    match (v, w) {
        (Value::Int(a), Value::Int(b)) => Ok(int_made(wrap_sub(*a, *b))),
        _ => wrong(alloc),
    }
}

/// `v ** w` of two ints, modulo 2^64 (6.5). A negative exponent is a fault.
pub fn to_the_power(alloc: Global, v: &Value, w: &Value) -> Result<Made, Memory>
    ensures { Makes result (to_the_power (out-Value v.now) (out-Value w.now)) }
{
    match (v, w) {
        (Value::Int(a), Value::Int(b)) => {
            let power = wrap_pow(*a, *b);
            int_or(alloc, FaultKind::Value, b"negative exponent", power)
        }
        _ => wrong(alloc),
    }
}

/// `v // w` of two ints, rounded down (6.7). Division by 0 is a fault.
pub fn floor_divided(alloc: Global, v: &Value, w: &Value) -> Result<Made, Memory>
    ensures { Makes result (floor_divided (out-Value v.now) (out-Value w.now)) }
{
    match (v, w) {
        (Value::Int(a), Value::Int(b)) => {
            let quotient = floor_div(*a, *b);
            int_or(
                alloc,
                FaultKind::ZeroDivision,
                b"division by zero",
                quotient,
            )
        }
        _ => wrong(alloc),
    }
}

/// `v % w` of two ints, with the sign of w (6.7). Division by 0 is a fault.
pub fn modulo(alloc: Global, v: &Value, w: &Value) -> Result<Made, Memory>
    ensures { Makes result (modulo (out-Value v.now) (out-Value w.now)) }
{
    match (v, w) {
        (Value::Int(a), Value::Int(b)) => {
            let rest = floor_mod(*a, *b);
            int_or(alloc, FaultKind::ZeroDivision, b"division by zero", rest)
        }
        _ => wrong(alloc),
    }
}

/// `v << w` of two ints, modulo 2^64 (6.8). A negative count is a fault.
pub fn shifted_left(alloc: Global, v: &Value, w: &Value) -> Result<Made, Memory>
    ensures { Makes result (shifted_left (out-Value v.now) (out-Value w.now)) }
{
    match (v, w) {
        (Value::Int(a), Value::Int(b)) => {
            let shifted = shift_left(*a, *b);
            int_or(alloc, FaultKind::Value, b"negative shift", shifted)
        }
        _ => wrong(alloc),
    }
}

/// `v >> w` of two ints, rounded down (6.8). A negative count is a fault.
pub fn shifted_right(alloc: Global, v: &Value, w: &Value) -> Result<Made, Memory>
    ensures { Makes result (shifted_right (out-Value v.now) (out-Value w.now)) }
{
    match (v, w) {
        (Value::Int(a), Value::Int(b)) => {
            let shifted = shift_right(*a, *b);
            int_or(alloc, FaultKind::Value, b"negative shift", shifted)
        }
        _ => wrong(alloc),
    }
}

/// `v & w` of two ints, on the two's complement (6.9).
pub fn bits_and(alloc: Global, v: &Value, w: &Value) -> Result<Made, Memory>
    ensures { Makes result (bits_and (out-Value v.now) (out-Value w.now)) }
{
    match (v, w) {
        (Value::Int(a), Value::Int(b)) => Ok(int_made(*a & *b)),
        _ => wrong(alloc),
    }
}

/// `v | w` of two ints, on the two's complement (6.9).
pub fn bits_or(alloc: Global, v: &Value, w: &Value) -> Result<Made, Memory>
    ensures { Makes result (bits_or (out-Value v.now) (out-Value w.now)) }
{
    match (v, w) {
        (Value::Int(a), Value::Int(b)) => Ok(int_made(*a | *b)),
        _ => wrong(alloc),
    }
}

/// `v ^ w` of two ints, on the two's complement (6.9).
pub fn bits_xor(alloc: Global, v: &Value, w: &Value) -> Result<Made, Memory>
    ensures { Makes result (bits_xor (out-Value v.now) (out-Value w.now)) }
{
    match (v, w) {
        (Value::Int(a), Value::Int(b)) => Ok(int_made(*a ^ *b)),
        _ => wrong(alloc),
    }
}

/// `-v` of an int, modulo 2^64 (6.6).
pub fn negated(alloc: Global, v: &Value) -> Result<Made, Memory>
    ensures { Makes result (negated (out-Value v.now)) }
{
    match v {
        Value::Int(a) => Ok(int_made(wrap_neg(*a))),
        _ => wrong(alloc),
    }
}

/// `+v` of an int (6.6).
pub fn unchanged(alloc: Global, v: &Value) -> Result<Made, Memory>
    ensures { Makes result (unchanged (out-Value v.now)) }
{
    match v {
        Value::Int(a) => Ok(int_made(*a)),
        _ => wrong(alloc),
    }
}

/// `~v` of an int, which is -v - 1 (6.6).
pub fn complemented(alloc: Global, v: &Value) -> Result<Made, Memory>
    ensures { Makes result (complemented (out-Value v.now)) }
{
    match v {
        Value::Int(a) => Ok(int_made(!*a)),
        _ => wrong(alloc),
    }
}
