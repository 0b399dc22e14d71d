mod build;
mod depths;
mod entry_ticks;
mod expressions;
mod functions;
mod generators;
mod heights;
mod item_heights;
mod lists;
mod names;
mod pipelines;
mod regions;
mod sharing;
mod stack;
mod statement_heights;
mod statements;
mod turn_ticks;

use crate::{PlainEnd, run_plain};
use build::Trees;
use codon_base::{Ending, FaultKind};
use source_trees::Module;
use std::process::Abort;
use std::test::Fail;

/// How a run is to end.
#[derive(Clone, Copy)]
pub enum Wanted<'a> {
    Done,
    OutOfFuel,
    TooDeep,
    Fault(FaultKind, &'a [u8]),
}

/// What a module is run with, and what is to come of it.
#[derive(Clone, Copy)]
pub struct Case<'a> {
    pub fuel: u64,
    pub depth: u32,
    pub out: &'a [u8],
    pub end: Wanted<'a>,
}

pub fn fault<'a>(kind: FaultKind, text: &'a [u8]) -> Wanted<'a> {
    Wanted::Fault(kind, text)
}

/// Runs a module, and compares what came of it.
fn expect<R: Abort>(t: &Trees<'_, R>, module: Module, case: Case<'_>) -> Result<(), Fail> {
    let rt = t.rt;
    let plain = run_plain(t.alloc, &module, case.fuel, case.depth)?;
    assert_eq!(rt; plain.out.as_slice(), case.out);
    match (&plain.end, case.end) {
        (PlainEnd::Ended(Ending::Done), Wanted::Done) => Ok(()),
        (PlainEnd::Ended(Ending::OutOfFuel), Wanted::OutOfFuel) => Ok(()),
        (PlainEnd::TooDeep, Wanted::TooDeep) => Ok(()),
        (PlainEnd::Ended(Ending::Fault(fault)), Wanted::Fault(kind, text)) => {
            assert!(rt; fault.kind == kind);
            assert_eq!(rt; fault.text.as_bytes(), text);
            Ok(())
        }
        _ => Err("another end".into()),
    }
}
