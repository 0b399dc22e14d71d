ghost use Rattle.std.specs.Prelude.{◌≡◌, IfOk};
ghost use Rattle.parse_laws.specs.Parser.{sees, choose, and_then, take_by};
ghost use Rattle.grammar_rules.specs.Words.{name_of};
ghost use Rattle.parse_expressions.specs.Forms.{begins};
ghost use Rattle.parse_expressions.specs.Reading as spec;
ghost use Rattle.parse_expressions.specs.Code.{Reads, Subs};

use crate::measured::{self, Measured};
use crate::reader::Expressions;
use crate::{Cursor, Form, ParseError};
use codon_base::Spelling;
use parse_laws::Cause;
use std::alloc::Global;

impl<F: Fn(Global, &mut Cursor<'_>, u32, Form) -> Result<Measured, ParseError>> Expressions<F> {
    /// An expression, if one begins here.
    #[tactic(auto, unfolding(crate::specs::Reading::optional))]
    pub fn optional(&self, cursor: &mut Cursor<'_>) -> Result<Option<Measured>, ParseError>
        requires { Subs self.now.room (F.pre self.now.sub) (F.post self.now.sub) }
        ensures { Reads (spec.optional self.now.room (spec.read self.now.room) cursor.old) result cursor.new }
    {
        if !cursor.begins(3) {
            return Ok(None);
        }
        let tree = self.sub(cursor, Form::Whole)?;
        Ok(Some(tree))
    }

    /// What follows the first bound of a slice.
    #[tactic(auto, unfolding(crate::specs::Reading::slice_from))]
    pub fn slice_from(
        &self,
        cursor: &mut Cursor<'_>,
        object: Measured,
        from: Option<Measured>,
    ) -> Result<Measured, ParseError>
        requires { Subs self.now.room (F.pre self.now.sub) (F.post self.now.sub) }
        ensures { Reads (spec.slice_from self.now.room (spec.read self.now.room) object from cursor.old) result cursor.new }
    {
        cursor.expect_op(b":".as_slice())?;
        let to = self.optional(cursor)?;
        cursor.expect_op(b"]".as_slice())?;
        let node = object.node();
        let tree = measured::slice(self.alloc, node, object, from, to)?;
        Ok(tree)
    }

    /// What follows an index.
    #[tactic(auto, unfolding(crate::specs::Reading::index_at))]
    pub fn index_at(
        &self,
        cursor: &mut Cursor<'_>,
        object: Measured,
        place: Option<Measured>,
    ) -> Result<Measured, ParseError>
        ensures { Reads (spec.index_at self.now.room (spec.read self.now.room) object place cursor.old) result cursor.new }
    {
        let Some(place) = place else {
            return Err(ParseError::Refused(Cause::Unexpected));
        };
        cursor.expect_op(b"]".as_slice())?;
        let node = object.node();
        let tree = measured::index(self.alloc, node, object, place)?;
        Ok(tree)
    }

    /// An index or a slice.
    #[tactic(auto, unfolding(crate::specs::Reading::indexed))]
    fn indexed(&self, cursor: &mut Cursor<'_>, object: Measured) -> Result<Measured, ParseError>
        requires { Subs self.now.room (F.pre self.now.sub) (F.post self.now.sub) }
        ensures { Reads (spec.indexed self.now.room (spec.read self.now.room) object cursor.old) result cursor.new }
    {
        cursor.expect_op(b"[".as_slice())?;
        let place = self.optional(cursor)?;
        if cursor.sees_op(b":".as_slice()) {
            self.slice_from(cursor, object, place)
        } else {
            self.index_at(cursor, object, place)
        }
    }

    /// A field, or a call of a method.
    #[tactic(auto, unfolding(crate::specs::Reading::field_rest))]
    fn field_rest(
        &self,
        cursor: &mut Cursor<'_>,
        object: Measured,
        name: Spelling,
    ) -> Result<Measured, ParseError>
        requires { Subs self.now.room (F.pre self.now.sub) (F.post self.now.sub) }
        ensures { Reads (spec.field_rest self.now.room (spec.read self.now.room) object name cursor.old) result cursor.new }
    {
        let node = object.node();
        if !cursor.sees_op(b"(".as_slice()) {
            let tree = measured::field(self.alloc, node, object, name)?;
            return Ok(tree);
        }
        if object.height() >= self.room as usize {
            return Err(ParseError::Refused(Cause::TooDeep));
        }
        let row = self.arguments(cursor)?;
        let tree = measured::method(self.alloc, node, object, name, row)?;
        Ok(tree)
    }

    /// A dot and what follows it.
    #[tactic(auto, unfolding(crate::specs::Reading::dotted))]
    pub fn dotted(&self, cursor: &mut Cursor<'_>, object: Measured) -> Result<Measured, ParseError>
        requires { Subs self.now.room (F.pre self.now.sub) (F.post self.now.sub) }
        ensures { Reads (spec.dotted self.now.room (spec.read self.now.room) object cursor.old) result cursor.new }
    {
        cursor.expect_op(b".".as_slice())?;
        let name = cursor.take_spelling(self.alloc)?;
        self.field_rest(cursor, object, name)
    }

    /// An index, a slice, a field or a call of a method, if there is room.
    #[tactic(auto, unfolding(crate::specs::Reading::trailer))]
    fn trailer(&self, cursor: &mut Cursor<'_>, object: Measured) -> Result<Measured, ParseError>
        requires { Subs self.now.room (F.pre self.now.sub) (F.post self.now.sub) }
        ensures { Reads (spec.trailer self.now.room (spec.read self.now.room) object cursor.old) result cursor.new }
    {
        if object.height() > self.room as usize {
            return Err(ParseError::Refused(Cause::TooDeep));
        }
        if cursor.sees_op(b".".as_slice()) {
            self.dotted(cursor, object)
        } else {
            self.indexed(cursor, object)
        }
    }

    /// The trailers of an atom.
    fn trailers(&self, cursor: &mut Cursor<'_>, first: Measured) -> Result<Measured, ParseError>
        requires { Subs self.now.room (F.pre self.now.sub) (F.post self.now.sub) }
        ensures { Reads (spec.trailers self.now.room (spec.read self.now.room) first cursor.old) result cursor.new }
    {
        let mut tree = first;
        'turn: for _turn in 0..cursor.left() {
            if !cursor.sees_trailer() {
                return Ok(tree);
            }
            tree = self.trailer(cursor, tree)?;
        }
        Ok(tree)
    }

    /// An atom with its trailers.
    #[tactic(auto, unfolding(crate::specs::Reading::postfix))]
    pub fn postfix(&self, cursor: &mut Cursor<'_>) -> Result<Measured, ParseError>
        requires { Subs self.now.room (F.pre self.now.sub) (F.post self.now.sub) }
        ensures { Reads (spec.postfix self.now.room (spec.read self.now.room) cursor.old) result cursor.new }
    {
        let first = self.atom(cursor)?;
        self.trailers(cursor, first)
    }
}
