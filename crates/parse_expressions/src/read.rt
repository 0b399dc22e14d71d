ghost use Rattle.std.specs.Prelude.{◌≡◌};
ghost use Rattle.parse_expressions.specs.declared.form.Form.TheVariants.{Whole};
ghost use Rattle.parse_expressions.specs.Forms.{opening};
ghost use Rattle.parse_expressions.specs.Reading as spec;
ghost use Rattle.parse_expressions.specs.Code.{Reads};

use crate::measured::Measured;
use crate::reader::Expressions;
use crate::{Cursor, Form, ParseError};
use parse_laws::Cause;
use std::alloc::Global;

/// How loose a form is that may begin with any token that begins it: 1 for an atom, 2 with signs, 3 with `not`.
pub fn opening(form: Form) -> u8
    ensures { result ≡ opening form }
{
    match form {
        Form::Whole | Form::Joined(_) | Form::Joint(_) | Form::Negation => 3,
        Form::Compared | Form::Ranked(_) | Form::Operand(_) | Form::Factor => 2,
        Form::Postfix => 1,
    }
}

/// An expression of a form that is at most `room` high. Where there is no room at all, what begins one is too deep.
#[tactic(auto, using(crate::proofs::Rooms::read_none, crate::proofs::Rooms::read_some))]
pub fn read(
    alloc: Global,
    cursor: &mut Cursor<'_>,
    room: u32,
    form: Form,
) -> Result<Measured, ParseError>
    ensures { Reads (spec.read room form cursor.old) result cursor.new }
{
    if room == 0 {
        if cursor.begins(opening(form)) {
            return Err(ParseError::Refused(Cause::TooDeep));
        }
        return Err(ParseError::Refused(Cause::Unexpected));
    }
    let reader = Expressions {
        alloc,
        room: room - 1,
        sub: read,
    };
    reader.at_form(cursor, form)
}

/// An expression that is at most `room` high. The cursor stands after it, or at the token that is refused.
pub fn read_expression(
    alloc: Global,
    cursor: &mut Cursor<'_>,
    room: u32,
) -> Result<Measured, ParseError>
    ensures { Reads (spec.read room Whole cursor.old) result cursor.new }
{
    read(alloc, cursor, room, Form::Whole)
}
