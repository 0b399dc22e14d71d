ghost use Rattle.std.specs.Prelude.{◌≡◌, ◌<◌, ◌-◌};
ghost use Rattle.source_trees.specs.declared.expression.Expr.{Expr};
ghost use Rattle.parse_laws.specs.Parser.{sees, has, within};
ghost use Rattle.parse_expressions.specs.Reading.{plain_at, slice_from, dotted};
ghost use Rattle.parse_expressions.specs.Reading as reading;
ghost use Rattle.parse_expressions.specs.TargetReading as spec;
ghost use Rattle.parse_expressions.specs.Code.{IsStop, Reads};

use crate::cursor::is_word;
use crate::measured::{Measured, height_of};
use crate::read::read;
use crate::reader::Expressions;
use crate::{Cursor, Form, ParseError};
use indent_lexer::TokenKind;
use parse_laws::Cause;
use std::alloc::Global;

impl<'a> Cursor<'a> {
    /// Whether the next token is a name that is no `print`.
    fn sees_plain_name(&self) -> bool
        ensures { result ≡ sees (has plain_at) self.now }
    {
        match self.first() {
            None => false,
            Some(first) => {
                matches!(first.kind, TokenKind::Name(_)) && !is_word(first, b"print".as_slice())
            }
        }
    }

    /// Refuses the next token: as too deep where it begins a form of this tightness.
    fn too_deep(&self, opening: u8) -> ParseError
        ensures { IsStop {A = Expr} (spec.too_deep opening self.now) result self.now }
    {
        if self.begins(opening) {
            ParseError::Refused(Cause::TooDeep)
        } else {
            ParseError::Refused(Cause::Unexpected)
        }
    }
}

/// What a target begins with, where it may have no parts: a name.
#[tactic(auto, unfolding(crate::specs::TargetReading::target_atom))]
fn bare_atom(alloc: Global, cursor: &mut Cursor<'_>) -> Result<Measured, ParseError>
    ensures { Reads (spec.target_atom 0 cursor.old) result cursor.new }
{
    if !cursor.sees_plain_name() {
        return Err(cursor.too_deep(1));
    }
    let name = cursor.take_plain_name(alloc)?;
    Expressions {
        alloc,
        room: 0,
        sub: read,
    }
    .named_rest(cursor, name)
}

/// What a target begins with.
#[tactic(auto, using(crate::proofs::Rooms::atom_none, crate::proofs::Rooms::atom_some))]
fn target_atom(alloc: Global, cursor: &mut Cursor<'_>, room: u32) -> Result<Measured, ParseError>
    ensures { Reads (spec.target_atom room cursor.old) result cursor.new }
{
    if room == 0 {
        return bare_atom(alloc, cursor);
    }
    Expressions {
        alloc,
        room: room - 1,
        sub: read,
    }
    .atom(cursor)
}

/// Whether a slice of this object from this bound is a part that fits.
fn slice_fits(low: u32, object: &Measured, from: &Option<Measured>) -> bool
    ensures { result ≡ spec.slice_fits low object.now from.now }
{
    object.height() <= low as usize && height_of(from) <= low as usize
}

/// A slice, if it fits.
fn target_slice(
    alloc: Global,
    cursor: &mut Cursor<'_>,
    low: u32,
    object: Measured,
    from: Option<Measured>,
) -> Result<Measured, ParseError>
    ensures { Reads (within (spec.slice_fits low object from) (slice_from low (reading.read low) object from) cursor.old) result cursor.new }
{
    if !slice_fits(low, &object, &from) {
        return Err(ParseError::Refused(Cause::TooDeep));
    }
    Expressions {
        alloc,
        room: low,
        sub: read,
    }
    .slice_from(cursor, object, from)
}

/// What follows the bound in square brackets, if there is one: a slice, or an index, whose place may be as high as a part.
#[tactic(auto, unfolding(crate::specs::TargetReading::target_bound))]
fn target_bound(
    alloc: Global,
    cursor: &mut Cursor<'_>,
    room: u32,
    object: Measured,
    bound: Option<Measured>,
) -> Result<Measured, ParseError>
    requires { 0 < room }
    ensures { Reads (spec.target_bound (room - 1) object bound cursor.old) result cursor.new }
{
    if cursor.sees_op(b":".as_slice()) {
        return target_slice(alloc, cursor, room - 1, object, bound);
    }
    Expressions {
        alloc,
        room,
        sub: read,
    }
    .index_at(cursor, object, bound)
}

/// An index or a slice.
#[tactic(auto, unfolding(crate::specs::TargetReading::target_indexed))]
fn target_indexed(
    alloc: Global,
    cursor: &mut Cursor<'_>,
    room: u32,
    object: Measured,
) -> Result<Measured, ParseError>
    requires { 0 < room }
    ensures { Reads (spec.target_indexed (room - 1) object cursor.old) result cursor.new }
{
    cursor.expect_op(b"[".as_slice())?;
    if !cursor.begins(3) {
        return target_bound(alloc, cursor, room, object, None);
    }
    let place = read(alloc, cursor, room, Form::Whole)?;
    target_bound(alloc, cursor, room, object, Some(place))
}

/// A field or a method's call, which is a part.
fn target_dotted(
    alloc: Global,
    cursor: &mut Cursor<'_>,
    low: u32,
    object: Measured,
) -> Result<Measured, ParseError>
    ensures { Reads (dotted low (reading.read low) object cursor.old) result cursor.new }
{
    Expressions {
        alloc,
        room: low,
        sub: read,
    }
    .dotted(cursor, object)
}

/// A field, a method's call, an index or a slice.
#[tactic(auto, unfolding(crate::specs::TargetReading::target_trailer), using(crate::proofs::Rooms::after_none, crate::proofs::Rooms::after_some))]
fn target_trailer(
    alloc: Global,
    cursor: &mut Cursor<'_>,
    room: u32,
    object: Measured,
) -> Result<Measured, ParseError>
    ensures { Reads (spec.target_trailer room object cursor.old) result cursor.new }
{
    if object.height() > room as usize {
        return Err(ParseError::Refused(Cause::TooDeep));
    }
    if room == 0 {
        return Err(ParseError::Refused(Cause::Unexpected));
    }
    if cursor.sees_op(b".".as_slice()) {
        target_dotted(alloc, cursor, room - 1, object)
    } else {
        target_indexed(alloc, cursor, room, object)
    }
}

/// The trailers of what a target begins with.
fn target_trailers(
    alloc: Global,
    cursor: &mut Cursor<'_>,
    room: u32,
    first: Measured,
) -> Result<Measured, ParseError>
    ensures { Reads (spec.target_trailers room first cursor.old) result cursor.new }
{
    let mut tree = first;
    'turn: for _turn in 0..cursor.left() {
        if !cursor.sees_trailer() {
            return Ok(tree);
        }
        tree = target_trailer(alloc, cursor, room, tree)?;
    }
    Ok(tree)
}

/// The tree, if it is a target, and else the next token is refused.
fn pointed(cursor: &Cursor<'_>, tree: Measured) -> Result<Measured, ParseError>
    ensures { Reads (spec.pointed tree cursor.now) result cursor.now }
{
    if tree.is_target() {
        Ok(tree)
    } else {
        Err(ParseError::Refused(Cause::Unexpected))
    }
}

/// A name, an index or a field that is at most `room` high. The cursor stands after it, or at the token that is refused.
#[tactic(auto, using(crate::proofs::Rooms::target_none, crate::proofs::Rooms::target_some))]
pub fn read_target(
    alloc: Global,
    cursor: &mut Cursor<'_>,
    room: u32,
) -> Result<Measured, ParseError>
    ensures { Reads (spec.read_target room cursor.old) result cursor.new }
{
    if room == 0 {
        return Err(cursor.too_deep(1));
    }
    let first = target_atom(alloc, cursor, room - 1)?;
    let tree = target_trailers(alloc, cursor, room - 1, first)?;
    pointed(cursor, tree)
}
