ghost use Rattle.std.specs.Prelude.{◌≡◌, ◌≤◌, ◌++◌, replicate, IfOk, OnOk, OnErr, IfErr, Option, Some, slice_get};
ghost use Rattle.std.specs.Option.{option_map};
ghost use Rattle.outer_world.specs.Sink.{gained, GainsPrefix};
ghost use Rattle.code_module.specs.Machine.{run_of, entry_code, out_of, row, pushed, line_of, separated, combined, printed, stored, fetched, returned, result_of};
ghost use Rattle.codon_base.specs.Shown.{AppendsShown};
ghost use Rattle.codon_base.specs.declared.value.Value.TheVariants.{Unset, Text};
ghost use Rattle.codon_front.specs.Run.{LeadsBy, IsDone, IsRunStopOf};

use crate::machine::stack::Stack;
use code_module::{BinaryOp, Instr, Module, Texts};
use codon_base::{Memory, Value, Values, push_shown, wrap_add, wrap_mul, wrap_sub};
use outer_world::{Sink, SinkFault};
use sqlite_items::Items;
use std::alloc::Global;

/// Why a run did not come to its end.
#[derive(Clone, Copy, Debug, PartialEq, Eq)]
pub enum RunStop {
    /// No rule of the machine fits.
    Stuck,
    Sink,
    Memory,
}

/// What an instruction leads to.
#[derive(Drop)]
enum Flow {
    Goes,
    Prints(Vec<u8>),
    Ended,
    Stuck,
}

/// The stack and the globals of a run.
#[derive(Drop)]
struct Machine {
    stack: Stack,
    globals: Values,
}

/// Runs a module, and writes what it prints, a piece for each print.
pub fn run<O: Sink>(alloc: Global, program: &Module, out: &mut O) -> Result<(), RunStop>
    ensures done { OnOk result (IsDone (run_of program.now)) }
    ensures written { OnOk result (O.written out.new ≡ gained (O.written out.old) (out_of (run_of program.now))) }
    ensures partly { OnErr result (GainsPrefix (O.written out.old) (O.written out.new) (out_of (run_of program.now))) }
    ensures cause { IfErr result (IsRunStopOf (run_of program.now) (O.faults out.old) (O.faults out.new)) }
    ensures later { O.faults out.old ≤ O.faults out.new }
{
    let Ok(globals) = unset_globals(alloc, program.globals) else {
        return Err(RunStop::Memory);
    };
    let mut machine = Machine {
        stack: Stack::new(alloc),
        globals,
    };
    for instr in entry_code(program) {
        let Ok(flow) = step(alloc, &program.texts, *instr, &mut machine) else {
            return Err(RunStop::Memory);
        };
        match flow {
            Flow::Goes => {}
            Flow::Ended => return Ok(()),
            Flow::Stuck => return Err(RunStop::Stuck),
            Flow::Prints(piece) => match out.put(piece.as_slice()) {
                Ok(()) => {}
                Err(SinkFault::Failed) => return Err(RunStop::Sink),
                Err(SinkFault::Memory) => return Err(RunStop::Memory),
            },
        }
    }
    Err(RunStop::Stuck)
}

/// The instructions of function 0.
fn entry_code(program: &Module) -> &[Instr]
    ensures { result.now ≡ entry_code program.now.functions }
{
    match program.functions.as_slice() {
        [] => &[],
        [entry, ..] => entry.code.as_slice(),
    }
}

fn unset_globals(alloc: Global, count: u32) -> Result<Values, Memory>
    ensures { IfOk result (λ globals. globals ≡ replicate count Unset) }
{
    let mut globals = Items::new(alloc);
    for i in 0..count {
        let _place = i;
        globals.push(Value::Unset)?;
    }
    Ok(globals)
}

/// One instruction.
fn step(alloc: Global, texts: &Texts, instr: Instr, machine: &mut Machine) -> Result<Flow, Memory>
    ensures { IfOk result (LeadsBy (row texts.now instr) machine.old machine.new) }
{
    match instr {
        Instr::Int(number) => {
            machine.stack.push(Value::Int(number))?;
            Ok(Flow::Goes)
        }
        Instr::Text(index) => push_text(alloc, texts, index, machine),
        Instr::Const(constant) => {
            machine.stack.push(constant.value())?;
            Ok(Flow::Goes)
        }
        Instr::GetG(index) => fetch(alloc, machine, index),
        Instr::SetG(index) => Ok(store(machine, index)),
        Instr::Binary(op) => combine(machine, op),
        Instr::Print(count) => print(alloc, machine, count),
        Instr::Return => Ok(end(machine)),
    }
}

fn push_text(
    alloc: Global,
    texts: &Texts,
    index: u32,
    machine: &mut Machine,
) -> Result<Flow, Memory>
    ensures { IfOk result (LeadsBy (λ s. pushed s (option_map Text (slice_get texts.now index))) machine.old machine.new) }
{
    match texts.get(index as usize) {
        None => Ok(Flow::Stuck),
        Some(text) => {
            machine.stack.push(Value::Text(text.try_clone()?))?;
            Ok(Flow::Goes)
        }
    }
}

/// Pushes a global that has a value.
fn fetch(alloc: Global, machine: &mut Machine, index: u32) -> Result<Flow, Memory>
    ensures { IfOk result (LeadsBy (λ s. fetched s (slice_get s.globals index)) machine.old machine.new) }
{
    match machine.globals.get(index as usize) {
        None | Some(Value::Unset) => Ok(Flow::Stuck),
        Some(value) => {
            let copy = value.try_clone(alloc)?;
            machine.stack.push(copy)?;
            Ok(Flow::Goes)
        }
    }
}

/// Ends the run by the topmost value.
fn end(machine: &mut Machine) -> Flow
    ensures { LeadsBy returned machine.old machine.new result }
{
    match machine.stack.pop() {
        None => Flow::Stuck,
        Some(_) => Flow::Ended,
    }
}

/// An operation on the two topmost numbers.
fn combine(machine: &mut Machine, op: BinaryOp) -> Result<Flow, Memory>
    ensures { IfOk result (LeadsBy (combined op) machine.old machine.new) }
{
    let Some(b) = machine.stack.pop_int() else {
        return Ok(Flow::Stuck);
    };
    let Some(a) = machine.stack.pop_int() else {
        return Ok(Flow::Stuck);
    };
    machine.stack.push(Value::Int(result_of(op, a, b)))?;
    Ok(Flow::Goes)
}

fn result_of(op: BinaryOp, a: i64, b: i64) -> i64
    ensures { result ≡ result_of op a b }
{
    match op {
        BinaryOp::Add => wrap_add(a, b),
        BinaryOp::Sub => wrap_sub(a, b),
        BinaryOp::Mul => wrap_mul(a, b),
    }
}

/// Prints so many values, which stand below the separator and the end.
fn print(alloc: Global, machine: &mut Machine, count: u32) -> Result<Flow, Memory>
    ensures { IfOk result (LeadsBy (printed count) machine.old machine.new) }
{
    let Some(end) = machine.stack.pop_text() else {
        return Ok(Flow::Stuck);
    };
    let Some(separator) = machine.stack.pop_text() else {
        return Ok(Flow::Stuck);
    };
    let Some(values) = machine.stack.pop_values(alloc, count)? else {
        return Ok(Flow::Stuck);
    };
    let mut piece = Vec::new(alloc);
    if !push_line(&mut piece, separator.as_bytes(), values.as_slice())? {
        return Ok(Flow::Stuck);
    }
    piece.extend_from_slice(end.as_bytes())?;
    Ok(Flow::Prints(piece))
}

/// Appends the texts of values with a separator between them, and tells whether each has one.
fn push_line(piece: &mut Vec<u8>, separator: &[u8], values: &[Value]) -> Result<bool, Memory>
    ensures { IfOk result (AppendsShown piece.old.items piece.new.items (line_of separator.now values.now)) }
{
    match values {
        [] => Ok(true),
        [first, rest @ ..] => {
            if !push_shown(piece, first)? {
                return Ok(false);
            }
            push_separated(piece, separator, rest)
        }
    }
}

/// Appends the texts of values with a separator before each, and tells whether each has one.
fn push_separated(piece: &mut Vec<u8>, separator: &[u8], values: &[Value]) -> Result<bool, Memory>
    ensures { IfOk result (AppendsShown piece.old.items piece.new.items (separated separator.now values.now)) }
{
    for value in values {
        piece.extend_from_slice(separator)?;
        if !push_shown(piece, value)? {
            return Ok(false);
        }
    }
    Ok(true)
}

/// Gives a global the topmost value.
fn store(machine: &mut Machine, index: u32) -> Flow
    ensures { LeadsBy (stored index) machine.old machine.new result }
{
    let at = index as usize;
    if at >= machine.globals.len() {
        return Flow::Stuck;
    }
    match machine.stack.pop() {
        None => Flow::Stuck,
        Some(value) => {
            machine.globals.set(at, value);
            Flow::Goes
        }
    }
}
