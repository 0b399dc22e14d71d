ghost use Rattle.std.specs.Prelude.{◌≡◌, ◌≤◌, OnOk, IfErr};
ghost use Rattle.codon_front.specs.Due.{IsPlainDue};
ghost use Rattle.codon_front.specs.Plain.{IsQuietEnd, IsEndStopOf};
ghost use Rattle.codon_front.specs.Stop.{Finishes, StopsBy};

use crate::fault::fault_line;
use crate::put::put;
use crate::report::Stop;
use codon_base::Ending;
use outer_world::Sink;
use source_meaning::{Plain, PlainEnd, run_plain};
use source_trees::Module;
use std::alloc::Global;

/// How many bodies of functions, generators and loops over generators may be entered and not left.
const MOST_DEPTH: u32 = 100;

/// Runs a tree by the interpreter of trees on so many ticks, and writes what it prints.
pub fn run_by_plain<O: Sink>(
    alloc: Global,
    module: &Module,
    fuel: u64,
    out: &mut O,
) -> Result<(), Stop>
    ensures done { OnOk result (Finishes (IsPlainDue «module».now fuel) (O.written out.old) (O.written out.new)) }
    ensures stopped { IfErr result (StopsBy (IsPlainDue «module».now fuel) (O.written out.old) (O.written out.new) (O.faults out.old) (O.faults out.new)) }
    ensures later { O.faults out.old ≤ O.faults out.new }
{
    let Ok(plain) = run_plain(alloc, module, fuel, MOST_DEPTH) else {
        return Err(Stop::Memory);
    };
    if let Err(stop) = put(plain.out.as_slice(), out) {
        return Err(stop);
    }
    match told(alloc, &plain.end) {
        Ok(()) => Ok(()),
        Err(stop) => Err(stop),
    }
}

/// What is to be told of how a run ended.
fn told(alloc: Global, end: &PlainEnd) -> Result<(), Stop>
    ensures done { OnOk result (IsQuietEnd «end».now) }
    ensures stopped { IfErr result (IsEndStopOf «end».now) }
{
    match end {
        PlainEnd::Ended(Ending::Done) => Ok(()),
        PlainEnd::Ended(Ending::Fault(fault)) => match fault_line(alloc, fault) {
            Ok(line) => Err(Stop::Fault(line)),
            Err(_) => Err(Stop::Memory),
        },
        PlainEnd::Ended(Ending::OutOfFuel) => Err(Stop::OutOfFuel),
        PlainEnd::TooDeep => Err(Stop::Deep),
    }
}
