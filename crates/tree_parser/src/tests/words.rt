//! How operators, numbers and texts are written in trees that are printed.

use source_trees::{BinaryOp, Comparator, Schedule, UnaryOp};
use std::alloc::AllocError;

pub(super) type Out = Vec<u8>;

pub(super) fn word(out: &mut Out, text: &str) -> Result<(), AllocError> {
    out.extend_from_slice(text.as_bytes())
}

pub(super) fn number(out: &mut Out, value: i64) -> Result<(), AllocError> {
    let alloc = *out.allocator();
    let digits = format!(in alloc; "{value}")?;
    word(out, digits.as_str())
}

pub(super) fn count(out: &mut Out, value: u64) -> Result<(), AllocError> {
    let alloc = *out.allocator();
    let digits = format!(in alloc; "{value}")?;
    word(out, digits.as_str())
}

fn hex_digit(value: u8) -> u8 {
    match value {
        0..=9 => b'0' + value,
        10..=15 => b'a' + (value - 10),
        _ => b'?',
    }
}

fn text_byte(out: &mut Out, byte: u8) -> Result<(), AllocError> {
    match byte {
        b'\'' => word(out, "\\'"),
        b'\\' => word(out, "\\\\"),
        b'\n' => word(out, "\\n"),
        0x20..=0x7e => Ok(out.push(byte)?),
        _ => {
            word(out, "\\x")?;
            out.push(hex_digit(byte / 16))?;
            out.push(hex_digit(byte % 16))?;
            Ok(())
        }
    }
}

/// A text in single quotes.
pub(super) fn quoted(out: &mut Out, bytes: &[u8]) -> Result<(), AllocError> {
    word(out, "'")?;
    'bytes: for byte in bytes {
        text_byte(out, *byte)?;
    }
    word(out, "'")
}

pub(super) fn binary_word(op: BinaryOp) -> &'static str {
    match op {
        BinaryOp::Add => "+",
        BinaryOp::Subtract => "-",
        BinaryOp::Multiply => "*",
        BinaryOp::FloorDivide => "//",
        BinaryOp::Modulo => "%",
        BinaryOp::Power => "**",
        BinaryOp::ShiftLeft => "<<",
        BinaryOp::ShiftRight => ">>",
        BinaryOp::And => "&",
        BinaryOp::Or => "|",
        BinaryOp::Xor => "^",
    }
}

pub(super) fn unary_word(op: UnaryOp) -> &'static str {
    match op {
        UnaryOp::Plus => "+",
        UnaryOp::Minus => "-",
        UnaryOp::Invert => "~",
    }
}

pub(super) fn comparator_word(comparator: Comparator) -> &'static str {
    match comparator {
        Comparator::Equal => "==",
        Comparator::NotEqual => "!=",
        Comparator::Less => "<",
        Comparator::LessEqual => "<=",
        Comparator::Greater => ">",
        Comparator::GreaterEqual => ">=",
        Comparator::In => "in",
        Comparator::NotIn => "not in",
    }
}

pub(super) fn schedule_word(schedule: Schedule) -> &'static str {
    match schedule {
        Schedule::Static => "'static'",
        Schedule::Dynamic => "'dynamic'",
        Schedule::Guided => "'guided'",
    }
}
