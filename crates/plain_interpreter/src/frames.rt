#![tactic(auto, unfolding(crate::specs::Seen::seen, crate::specs::Frames::taken, meaning_rules::specs::Outcome::stop))]

ghost use Rattle.std.specs.Prelude.{◌≡◌, OnOk};
ghost use Rattle.plain_interpreter.specs.Frames.{with_names, waited, taken};
ghost use Rattle.plain_interpreter.specs.Seen.{seen, names_of, TellsNames};

use crate::state::{Names, State, Stop};
use crate::variables::wrong;
use codon_base::Memory;
use std::alloc::Global;
use std::mem;

/// Runs with other names, and hands out those that ran.
#[inline(never)]
pub(crate) fn swap_names(state: &mut State, names: Names) -> Names
    ensures new { seen state.new ≡ with_names (names_of names) (seen state.old) }
    ensures old { names_of result ≡ (seen state.old).names }
{
    mem::replace(&mut state.names, names)
}

/// Lets the names that run wait, and runs with others.
#[inline(never)]
pub(crate) fn wait(state: &mut State, names: Names) -> Result<(), Memory>
    ensures { OnOk result (seen state.new ≡ waited (names_of names) (seen state.old)) }
{
    let outer = mem::replace(&mut state.names, names);
    state.waiting.push(outer)?;
    Ok(())
}

/// Runs with the names that wait innermost, and hands out those that ran.
#[inline(never)]
pub(crate) fn wake(alloc: Global, state: &mut State) -> Result<Names, Stop>
    ensures { TellsNames (taken (seen state.old)) result state.new }
{
    match state.waiting.pop() {
        Some(names) => Ok(mem::replace(&mut state.names, names)),
        None => Err(wrong(alloc)),
    }
}
