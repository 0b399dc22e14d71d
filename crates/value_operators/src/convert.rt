ghost use Rattle.std.specs.Prelude.{◌≡◌, Some};
ghost use Rattle.codon_base.specs.declared.value.Value.{Value-F, out-Value};
ghost use Rattle.codon_base.specs.Operators.{text_from, int_from, code_of, only_code, character_from, character_of, length_of};
ghost use Rattle.value_operators.specs.Answers.{Makes};

use crate::Made;
use crate::made::{fault, int_made, int_or, text_made, walk_fault, wrong};
use crate::numeral::number_in;
use codon_base::{FaultKind, Memory, Or, Ref, Sighted, Text, Value, items_at, show_whole};
use std::alloc::Global;

/// `str(v)`: as printed, not inside of a list.
pub fn text_from<S: Sighted>(alloc: Global, sight: &S, v: &Value) -> Result<Made, Memory>
    ensures { Makes result (text_from (S.sight sight.now) v.now) }
{
    match show_whole(alloc, sight, v, false) {
        Ok(text) => text_made(alloc, text),
        Err(Or::No(end)) => walk_fault(alloc, end),
        Err(Or::Memory) => Err(Memory),
    }
}

/// `int(v)` of an int, a bool or a text. A text is a sign or none and digits, in range.
pub fn int_from(alloc: Global, v: &Value) -> Result<Made, Memory>
    ensures { Makes result (int_from (out-Value v.now)) }
{
    match v {
        Value::Int(number) => Ok(int_made(*number)),
        Value::Bool(truth) => Ok(int_made(if *truth { 1 } else { 0 })),
        Value::Text(text) => {
            let number = number_in(text.as_bytes());
            int_or(alloc, FaultKind::Value, b"not a number", number)
        }
        _ => wrong(alloc),
    }
}

/// `ord(v)` of a text of one character.
pub fn code_of(alloc: Global, v: &Value) -> Result<Made, Memory>
    ensures { Makes result (code_of (out-Value v.now)) }
{
    match v {
        Value::Text(text) => {
            let code = only_code(text.as_bytes());
            int_or(alloc, FaultKind::Value, b"ord needs one character", code)
        }
        _ => wrong(alloc),
    }
}

fn only_code(text: &[u8]) -> Option<i64>
    ensures { result ≡ only_code text.now }
{
    match text {
        [byte] => Some(i64::from(*byte)),
        _ => None,
    }
}

/// `chr(v)` of an int from 0 to 127.
pub fn character_from(alloc: Global, v: &Value) -> Result<Made, Memory>
    ensures { Makes result (character_from (out-Value v.now)) }
{
    match v {
        Value::Int(code) => character_of(alloc, *code),
        _ => wrong(alloc),
    }
}

fn character_of(alloc: Global, code: i64) -> Result<Made, Memory>
    ensures { Makes result (character_of code) }
{
    if code < 0 || code >= 128 {
        return fault(alloc, FaultKind::Value, b"character code out of range");
    }
    let mut text = Text::new(alloc)?;
    text.push(code as u8)?;
    Ok(Made::Value(Value::Text(text)))
}

/// `len(v)` of a text or a list, also of a list that is lent.
pub fn length_of<S: Sighted>(alloc: Global, sight: &S, v: &Value) -> Result<Made, Memory>
    ensures { Makes result (length_of (S.sight sight.now) (out-Value v.now)) }
{
    match v {
        Value::Text(text) => Ok(int_made(text.as_bytes().len() as i64)),
        Value::Ref(at) => list_length(alloc, sight, *at),
        _ => wrong(alloc),
    }
}

fn list_length<S: Sighted>(alloc: Global, sight: &S, at: Ref) -> Result<Made, Memory>
    ensures { Makes result (length_of (S.sight sight.now) (Value-F.Ref at)) }
{
    match items_at(sight, at) {
        Some(values) => Ok(int_made(values.len() as i64)),
        None => wrong(alloc),
    }
}
