ghost use Rattle.std.specs.Prelude.{◌≡◌, IfOk};

use crate::{Memory, Text};

/// The kind of a fault, which is printed as the name of an exception.
#[derive(Clone, Copy, Debug, PartialEq, Eq)]
pub enum FaultKind {
    /// `ValueError`.
    Value,
    /// `IndexError`.
    Index,
    /// `ZeroDivisionError`.
    ZeroDivision,
    /// `AssertionError`.
    Assertion,
    /// `RuntimeError`.
    Runtime,
    /// `ParallelConflictError`: an iteration touched what another one may use.
    ParallelConflict,
    /// `SizeError`: a text, a list or a walk was too large.
    Size,
}

/// A fault of a program, with the text after its kind's name.
#[derive(Drop)]
pub struct Fault {
    pub kind: FaultKind,
    pub text: Text,
}

impl Fault {
    /// An equal fault.
    pub fn try_clone(&self) -> Result<Fault, Memory>
        ensures { IfOk result (λ fault. fault ≡ self.now) }
    {
        Ok(Fault {
            kind: self.kind,
            text: self.text.try_clone()?,
        })
    }
}

/// How a run of a program ended.
#[derive(Drop)]
pub enum Ending {
    Done,
    Fault(Fault),
    /// A tick found no fuel left.
    OutOfFuel,
}

impl Ending {
    /// An equal ending.
    pub fn try_clone(&self) -> Result<Ending, Memory>
        ensures { IfOk result (λ ending. ending ≡ self.now) }
    {
        Ok(match self {
            Ending::Done => Ending::Done,
            Ending::Fault(fault) => Ending::Fault(fault.try_clone()?),
            Ending::OutOfFuel => Ending::OutOfFuel,
        })
    }
}
