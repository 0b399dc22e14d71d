use codon_base::{Bytes, Fault, Heap, Memory, Ref, Spelling, Value};
use sqlite_items::Items;
use std::alloc::{AllocError, AllocFailed};

/// A name with what it holds.
#[derive(Drop)]
pub(crate) struct Entry {
    pub(crate) name: Spelling,
    pub(crate) value: Value,
}

/// The names of a body that have been assigned, each once.
#[derive(Drop)]
pub(crate) struct Names {
    pub(crate) entries: Vec<Entry>,
}

/// A parallel iteration that runs: its item, the lists that its region lends, and the instances that its captured names hold.
#[derive(Drop)]
pub(crate) struct Iteration {
    pub(crate) item: Value,
    pub(crate) lent: Items<Ref>,
    pub(crate) targets: Items<Ref>,
}

/// The objects of a run, and the parallel iterations that judge their uses, the outermost first.
#[derive(Drop)]
pub(crate) struct Store {
    pub(crate) heap: Heap,
    pub(crate) iterations: Items<Iteration>,
}

/// What a run holds at a moment.
#[derive(Drop)]
pub(crate) struct State {
    pub(crate) names: Names,
    /// The names of the loops over generators that wait, the innermost last.
    pub(crate) waiting: Items<Names>,
    /// The ticks that were taken.
    pub(crate) used: u64,
    pub(crate) out: Bytes,
    pub(crate) store: Store,
    pub(crate) globals: Names,
    /// The items that have come to the region that runs.
    pub(crate) reached: u64,
    pub(crate) regions: u64,
    pub(crate) items: u64,
    /// The loops of stages that are made in place one inside the other.
    pub(crate) nested: u32,
}

/// Why a run stops early.
#[derive(Drop)]
pub(crate) enum Stop {
    Faulted(Fault),
    OutOfFuel,
    TooDeep,
    Memory,
}

impl From<AllocError> for Stop {
    ghost use Rattle.std.specs.Prelude.{◌≡◌};
    ghost use Rattle.plain_interpreter.specs.declared.state.Stop.TheVariants.{Memory};

    ghost from_gives = { λ _ e. e ≡ Memory };

    fn from(_: AllocError) -> Stop {
        Stop::Memory
    }
}

impl<T: Drop> From<AllocFailed<T>> for Stop {
    ghost use Rattle.std.specs.Prelude.{◌≡◌};
    ghost use Rattle.plain_interpreter.specs.declared.state.Stop.TheVariants.{Memory};

    ghost from_gives = { λ _ e. e ≡ Memory };

    fn from(_: AllocFailed<T>) -> Stop {
        Stop::Memory
    }
}

impl From<Memory> for Stop {
    ghost use Rattle.std.specs.Prelude.{◌≡◌};
    ghost use Rattle.plain_interpreter.specs.declared.state.Stop.TheVariants as stop;

    ghost from_gives = { λ _ e. e ≡ stop.Memory };

    fn from(_: Memory) -> Stop {
        Stop::Memory
    }
}
