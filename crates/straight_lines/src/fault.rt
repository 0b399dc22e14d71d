use codon_base::{Memory, Span};
use std::alloc::{AllocError, AllocFailed};

/// Why a module is not compiled.
#[derive(Clone, Copy, Debug, PartialEq, Eq)]
pub enum NotCompiled {
    /// The place of the first node, in preorder, whose form is not compiled yet.
    NotBuilt(Span),
    Memory,
}

impl From<Memory> for NotCompiled {
    ghost use Rattle.std.specs.Prelude.{◌≡◌};
    ghost use Rattle.straight_lines.specs.declared.fault.NotCompiled.TheVariants as fault;

    ghost from_gives = { λ _ e. e ≡ fault.Memory };

    fn from(_: Memory) -> NotCompiled {
        NotCompiled::Memory
    }
}

impl From<AllocError> for NotCompiled {
    ghost use Rattle.std.specs.Prelude.{◌≡◌};
    ghost use Rattle.straight_lines.specs.declared.fault.NotCompiled.TheVariants as fault;

    ghost from_gives = { λ _ e. e ≡ fault.Memory };

    fn from(_: AllocError) -> NotCompiled {
        NotCompiled::Memory
    }
}

impl<T: Drop> From<AllocFailed<T>> for NotCompiled {
    ghost use Rattle.std.specs.Prelude.{◌≡◌};
    ghost use Rattle.straight_lines.specs.declared.fault.NotCompiled.TheVariants as fault;

    ghost from_gives = { λ _ e. e ≡ fault.Memory };

    fn from(_: AllocFailed<T>) -> NotCompiled {
        NotCompiled::Memory
    }
}
