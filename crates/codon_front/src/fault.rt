ghost use Rattle.std.specs.Prelude.{◌≡◌, ◌++◌, codes, IfOk};
ghost use Rattle.std.specs.String.{string_bytes};
ghost use Rattle.codon_front.specs.Due.{fault_line, kind_name, after_kind};

use codon_base::{Fault, FaultKind, Memory};
use std::alloc::Global;

/// The line on err that tells of a fault: the name of its exception, and its text where it has one.
pub fn fault_line(alloc: Global, fault: &Fault) -> Result<Vec<u8>, Memory>
    ensures { IfOk result (λ line. line.items ≡ fault_line fault.now) }
{
    let mut line = kind_name(fault.kind).as_bytes().to_vec(alloc)?;
    push_text(&mut line, fault.text.as_bytes())?;
    line.push(b'\n')?;
    Ok(line)
}

/// Appends what stands after the name of a fault's kind.
fn push_text(line: &mut Vec<u8>, text: &[u8]) -> Result<(), Memory>
    ensures { IfOk result (λ _. line.new.items ≡ line.old.items ++ after_kind text.now) }
{
    if text.is_empty() {
        return Ok(());
    }
    line.extend_from_slice(b": ")?;
    line.extend_from_slice(text)?;
    Ok(())
}

/// How the kind of a fault is spelled.
fn kind_name(kind: FaultKind) -> &'static str
    ensures { result.now ≡ kind_name kind }
{
    match kind {
        FaultKind::Value => "ValueError",
        FaultKind::Index => "IndexError",
        FaultKind::ZeroDivision => "ZeroDivisionError",
        FaultKind::Assertion => "AssertionError",
        FaultKind::Runtime => "RuntimeError",
        FaultKind::ParallelConflict => "ParallelConflictError",
        FaultKind::Size => "SizeError",
    }
}
