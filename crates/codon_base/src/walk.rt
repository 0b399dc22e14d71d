ghost use Rattle.std.specs.Option.{option_copied};
ghost use Rattle.codon_base.specs.Operators.{whole};
ghost use Rattle.codon_base.specs.Walks.{seen_in};
ghost use Rattle.codon_base.specs.Ends.{IsFound, IsSeen};

use crate::{Object, Ref, Sighted, Value};

/// Why a walk over values ends before its answer is known.
#[derive(Clone, Copy, Debug, PartialEq, Eq)]
pub enum WalkEnd {
    /// At an instance, at an address that the heap does not have, at a value that is not set, or at a pair of values of two kinds.
    WrongKind,
    /// At a list that is lent to parallel iterations.
    LentList,
    /// Past one of its limits.
    TooLarge,
}

/// How many values, or pairs of them, one walk may meet.
pub const VALUE_LIMIT: u32 = 33_554_432;

/// How many lists and tuples one walk may enter one inside the other.
pub const NESTING_LIMIT: u32 = 1_000;

/// The items of a list, also of one that is lent, or `None` where the address holds no list.
pub fn items_at<S: Sighted>(sight: &S, at: Ref) -> Option<&[Value]>
    ensures { IsFound (option_copied result) (seen_in (S.sight sight.now).levels at) }
{
    match sight.object(at) {
        Some(Object::List(values)) => Some(values.as_slice()),
        Some(Object::Instance { .. }) | None => None,
    }
}

/// The items of a list that is not lent, or the end of a walk that meets its address.
pub fn whole_items<S: Sighted>(sight: &S, at: Ref) -> Result<&[Value], WalkEnd>
    ensures { IsSeen result (whole (S.sight sight.now) at) }
{
    if sight.is_lent(at) {
        return Err(WalkEnd::LentList);
    }
    match items_at(sight, at) {
        Some(values) => Ok(values),
        None => Err(WalkEnd::WrongKind),
    }
}
