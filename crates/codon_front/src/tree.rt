ghost use Rattle.std.specs.Prelude.{◌≡◌, ◌≤◌, OnOk, IfErr};
ghost use Rattle.codon_front.specs.Due.{IsDueOfTree, accepted};
ghost use Rattle.codon_front.specs.Stop.{Finishes, StopsBy};

use crate::command::Action;
use crate::plain::run_by_plain;
use crate::put::put;
use crate::report::Stop;
use crate::run::run_compiled;
use outer_world::Sink;
use source_trees::Module;
use std::alloc::Global;

/// What `check` writes for a source that is accepted.
const ACCEPTED: &[u8] = b"accepted\n";

/// Does with a tree what a command asks, and writes to out what is due there.
pub fn run_tree<O: Sink>(
    alloc: Global,
    action: Action,
    module: &Module,
    out: &mut O,
) -> Result<(), Stop>
    ensures done { OnOk result (Finishes (IsDueOfTree «module».now action) (O.written out.old) (O.written out.new)) }
    ensures stopped { IfErr result (StopsBy (IsDueOfTree «module».now action) (O.written out.old) (O.written out.new) (O.faults out.old) (O.faults out.new)) }
    ensures later { O.faults out.old ≤ O.faults out.new }
{
    match action {
        Action::Run(_) => match run_compiled(alloc, module, out) {
            Ok(()) => Ok(()),
            Err(stop) => Err(stop),
        },
        Action::Plain(fuel) => match run_by_plain(alloc, module, fuel, out) {
            Ok(()) => Ok(()),
            Err(stop) => Err(stop),
        },
        Action::Check => match put(ACCEPTED, out) {
            Ok(()) => Ok(()),
            Err(stop) => Err(stop),
        },
    }
}
