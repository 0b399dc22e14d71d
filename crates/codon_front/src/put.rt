ghost use Rattle.std.specs.Prelude.{◌≡◌, ◌≤◌, OnOk, IfErr};
ghost use Rattle.outer_world.specs.Sink.{gained};
ghost use Rattle.codon_front.specs.Stop.{IsPutStopOf};

use crate::report::Stop;
use outer_world::{Sink, SinkFault};

/// Writes all bytes that are due on out.
pub fn put<O: Sink>(bytes: &[u8], out: &mut O) -> Result<(), Stop>
    ensures done { OnOk result (O.written out.new ≡ gained (O.written out.old) bytes.now) }
    ensures stopped { IfErr result (IsPutStopOf (O.written out.old) (O.written out.new) (O.faults out.old) (O.faults out.new) bytes.now) }
    ensures later { O.faults out.old ≤ O.faults out.new }
{
    match out.put(bytes) {
        Ok(()) => Ok(()),
        Err(SinkFault::Failed) => Err(Stop::Sink),
        Err(SinkFault::Memory) => Err(Stop::Memory),
    }
}
