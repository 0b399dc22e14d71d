ghost use Rattle.std.specs.Prelude.{◌≡◌, ◌∷◌, ◌++◌, ◌&&◌, cond, []};
ghost use Rattle.parse_laws.specs.Parser.{sees};
ghost use Rattle.parse_laws.specs.Parser.{row_turn};
ghost use Rattle.parse_laws.specs.Loops.{row_test, starts_in, rest_of, is_several};
ghost use Rattle.grammar_rules.specs.Words.{is_comma};
ghost use Rattle.parse_expressions.specs.declared.form.Form.TheVariants.{Whole};
ghost use Rattle.parse_expressions.specs.Forms.{begins};
ghost use Rattle.parse_expressions.specs.Reading as spec;
ghost use Rattle.parse_expressions.specs.Code.{Reads, Subs};

use crate::cursor::is_op;
use crate::leaf::begins;
use crate::measured::{Measured, Row};
use crate::{Cursor, Form, ParseError};
use std::alloc::Global;

/// How many items a tuple or a call may have.
pub const MOST_ITEMS: usize = 255;

/// What reads expressions: the memory, how high the parts of a tree may be, and what reads the parts.
#[derive(Clone, Copy)]
pub struct Expressions<F> {
    pub alloc: Global,
    /// The greatest height of a part. The tree may be one higher.
    pub room: u32,
    pub sub: F,
}

/// Whether one more item may follow these.
fn may_follow(items: &Row, limited: bool) -> bool
    ensures { result ≡ spec.limit_of limited items.now }
{
    if limited {
        items.len() < MOST_ITEMS
    } else {
        true
    }
}

/// Whether the next token is a comma, or begins an item where one may follow.
fn goes_on(cursor: &Cursor<'_>, is_open: bool, has_space: bool) -> bool
    ensures { result ≡ sees (λ t. cond is_open (has_space && begins 3 t) (is_comma t)) cursor.now }
{
    match cursor.first() {
        None => false,
        Some(first) => {
            if is_open {
                has_space && begins(first, 3)
            } else {
                is_op(first, b",".as_slice())
            }
        }
    }
}

/// Whether a row goes on with the next token.
fn row_goes_on(cursor: &Cursor<'_>, row: &OpenRow, limited: bool) -> bool
    ensures { result ≡ sees (row_test is_comma (starts_in (spec.limit_of limited) (begins 3)) row.now) cursor.now }
{
    let has_space = may_follow(&row.0, limited);
    goes_on(cursor, row.1, has_space)
}

/// Whether a row has two items or more.
#[tactic(auto, using(crate::proofs::Counting::several_is))]
fn is_several(row: &Row) -> bool
    ensures { result ≡ is_several row.now }
{
    row.len() > 1
}

/// Items of a row and whether one may follow without a comma.
pub type OpenRow = (Row, bool);

impl<F: Fn(Global, &mut Cursor<'_>, u32, Form) -> Result<Measured, ParseError>> Expressions<F> {
    /// A part of the tree.
    pub fn sub(&self, cursor: &mut Cursor<'_>, form: Form) -> Result<Measured, ParseError>
        requires { Subs self.now.room (F.pre self.now.sub) (F.post self.now.sub) }
        ensures { Reads (spec.read self.now.room form cursor.old) result cursor.new }
    {
        (self.sub)(self.alloc, cursor, self.room, form)
    }

    /// An item where one may follow, and else a comma.
    fn row_turn(&self, cursor: &mut Cursor<'_>, row: OpenRow) -> Result<OpenRow, ParseError>
        requires { Subs self.now.room (F.pre self.now.sub) (F.post self.now.sub) }
        ensures { Reads (row_turn is_comma (λ _. spec.read self.now.room Whole) (λ v y. v ++ y ∷ []) row cursor.old) result cursor.new }
    {
        let (items, is_open) = row;
        if !is_open {
            cursor.expect_op(b",".as_slice())?;
            return Ok((items, true));
        }
        let item = self.sub(cursor, Form::Whole)?;
        Ok((items.push(item)?, false))
    }

    /// The items after those that stand.
    pub fn rest(
        &self,
        cursor: &mut Cursor<'_>,
        first: Row,
        limited: bool,
    ) -> Result<OpenRow, ParseError>
        requires { Subs self.now.room (F.pre self.now.sub) (F.post self.now.sub) }
        ensures { Reads (rest_of is_comma (begins 3) (spec.limit_of limited) (spec.read self.now.room Whole) first cursor.old) result cursor.new }
    {
        let mut row = (first, false);
        'turn: for _turn in 0..cursor.left() {
            if !row_goes_on(cursor, &row, limited) {
                return Ok(row);
            }
            row = self.row_turn(cursor, row)?;
        }
        Ok(row)
    }

    /// Items with commas between and perhaps one after the last, and whether a comma stands at all.
    #[tactic(auto, unfolding(crate::specs::Reading::row, parse_laws::specs::Loops::listed))]
    pub fn row(&self, cursor: &mut Cursor<'_>, limited: bool) -> Result<(Row, bool), ParseError>
        requires { Subs self.now.room (F.pre self.now.sub) (F.post self.now.sub) }
        ensures { Reads (spec.row self.now.room (spec.read self.now.room) (spec.limit_of limited) cursor.old) result cursor.new }
    {
        let item = self.sub(cursor, Form::Whole)?;
        let first = Row::new(self.alloc).push(item)?;
        let (row, is_open) = self.rest(cursor, first, limited)?;
        let has_comma = is_open || is_several(&row);
        Ok((row, has_comma))
    }

    /// Arguments in round brackets.
    #[tactic(auto, unfolding(crate::specs::Reading::arguments))]
    pub fn arguments(&self, cursor: &mut Cursor<'_>) -> Result<Row, ParseError>
        requires { Subs self.now.room (F.pre self.now.sub) (F.post self.now.sub) }
        ensures { Reads (spec.arguments self.now.room (spec.read self.now.room) cursor.old) result cursor.new }
    {
        cursor.expect_op(b"(".as_slice())?;
        if cursor.sees_op(b")".as_slice()) {
            cursor.expect_op(b")".as_slice())?;
            return Ok(Row::new(self.alloc));
        }
        let (row, _has_comma) = self.row(cursor, true)?;
        cursor.expect_op(b")".as_slice())?;
        Ok(row)
    }
}
