ghost use Rattle.std.specs.Prelude.{◌≡◌, ◌++◌, OnOk, OnErr, take, length, IsTrue, nat_lt};
ghost use Rattle.std.specs.List.{list_all};
ghost use Rattle.codon_base.specs.Operators.{fault, fault_of, wrong, size_fault, bool_made, int_made, int_or, text_made};
ghost use Rattle.codon_base.specs.Ends.{end_of};
ghost use Rattle.value_operators.specs.Answers.{made_of, Makes};

use codon_base::{Fault, FaultKind, Memory, Text, Value, Values, WalkEnd};
use std::alloc::Global;

/// What an operator makes of its operands.
#[derive(Drop)]
pub enum Made {
    Value(Value),
    /// The items of a new list, which has no place on the heap yet.
    List(Values),
    Fault(Fault),
}

/// How many bytes a text and how many items a list may have.
pub(crate) const SIZE_LIMIT: usize = 16_777_216;

/// A fault with an ASCII text.
pub(crate) fn fault(alloc: Global, kind: FaultKind, text: &[u8]) -> Result<Made, Memory>
    requires { IsTrue (list_all (λ b. nat_lt b 128) text.now) }
    ensures { Makes result (fault kind text.now) }
{
    let text = Text::from_slice(alloc, text)?;
    Ok(Made::Fault(Fault { kind, text }))
}

/// The fault where an operator has no rule for a value.
pub(crate) fn wrong(alloc: Global) -> Result<Made, Memory>
    ensures { Makes result wrong }
{
    fault(alloc, FaultKind::Runtime, b"wrong kind")
}

/// The fault where a text, a list or a walk would be too large.
pub(crate) fn size_fault(alloc: Global) -> Result<Made, Memory>
    ensures { Makes result size_fault }
{
    fault(alloc, FaultKind::Size, b"size limit reached")
}

/// The fault of a walk that ended before its answer was known.
pub(crate) fn walk_fault(alloc: Global, end: WalkEnd) -> Result<Made, Memory>
    ensures { Makes result (fault_of (end_of end)) }
{
    match end {
        WalkEnd::WrongKind => wrong(alloc),
        WalkEnd::LentList => fault(
            alloc,
            FaultKind::ParallelConflict,
            b"place of another iteration",
        ),
        WalkEnd::TooLarge => size_fault(alloc),
    }
}

pub(crate) fn bool_made(truth: bool) -> Made
    ensures { made_of result ≡ bool_made truth }
{
    Made::Value(Value::Bool(truth))
}

pub(crate) fn int_made(number: i64) -> Made
    ensures { made_of result ≡ int_made number }
{
    Made::Value(Value::Int(number))
}

/// A text, as far as it is not too large.
pub(crate) fn text_made(alloc: Global, text: Text) -> Result<Made, Memory>
    ensures { Makes result (text_made text) }
{
    if text.len() > SIZE_LIMIT {
        return size_fault(alloc);
    }
    Ok(Made::Value(Value::Text(text)))
}

/// A number, or the fault that stands where there is none.
pub(crate) fn int_or(
    alloc: Global,
    kind: FaultKind,
    text: &[u8],
    number: Option<i64>,
) -> Result<Made, Memory>
    requires { IsTrue (list_all (λ b. nat_lt b 128) text.now) }
    ensures { Makes result (int_or (fault kind text.now) number) }
{
    match number {
        Some(number) => Ok(int_made(number)),
        None => fault(alloc, kind, text),
    }
}

/// Puts equal values at the end of a list.
pub(crate) fn push_all(alloc: Global, list: &mut Values, items: &[Value]) -> Result<(), Memory>
    ensures ok { OnOk result (list.new ≡ list.old ++ items.now) }
    ensures err { OnErr result (take (length list.old) list.new ≡ list.old) }
{
    for item in items {
        list.push(item.try_clone(alloc)?)?;
    }
    Ok(())
}
