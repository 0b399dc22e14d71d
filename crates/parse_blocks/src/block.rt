ghost use Rattle.std.specs.Prelude.{◌≡◌, ◌-◌, ◌∷◌, ◌++◌, [], IfOk, nat_le};
ghost use Rattle.parse_laws.specs.Parser.{sees, and_then, pure, within};
ghost use Rattle.grammar_rules.specs.Words.{node_at};
ghost use Rattle.parse_expressions.specs.Code.{Reads};
ghost use Rattle.parse_statements.specs.Code.{readers};
ghost use Rattle.parse_statements.specs.Many.{many};
ghost use Rattle.parse_blocks.specs.Gather.{gather};
ghost use Rattle.parse_blocks.specs.Blocks as spec;
ghost use Rattle.parse_blocks.specs.Code.{Subs, below, loop_rest};

use crate::mark::{expect_dedent, expect_indent};
use indent_lexer::Token;
use parse_expressions::{Cursor, ParseError, node_at, read_expression};
use parse_laws::Cause;
use parse_statements::{
    expect_newline, expect_word, read_items, read_line, read_options, sees_newline, starts_simple,
};
use source_trees::{Arm, Expr, For, LoopNames, Stmt};
use sqlite_items::Items;
use std::alloc::{AllocError, Global};

/// What reads statements with blocks: the memory, how high such a statement may be, and what reads the statements in its blocks.
#[derive(Clone, Copy)]
pub struct Blocks<F> {
    pub alloc: Global,
    /// The greatest height of the statement. Those in its blocks are one lower.
    pub room: u32,
    pub sub: F,
}

/// Whether a statement begins with the next token.
pub fn starts_statement(cursor: &Cursor<'_>) -> bool
    ensures { result ≡ sees spec.starts_stmt cursor.now }
{
    cursor.sees_keyword(b"if".as_slice())
        || cursor.sees_keyword(b"while".as_slice())
        || cursor.sees_keyword(b"for".as_slice())
        || cursor.sees_op(b"@".as_slice())
        || starts_simple(cursor)
}

/// A list of one statement.
fn one(alloc: Global, statement: Stmt) -> Result<Items<Stmt>, AllocError>
    ensures { IfOk result (λ ss. ss ≡ statement ∷ []) }
{
    let mut statements = Items::new(alloc);
    statements.push(statement)?;
    Ok(statements)
}

/// The statement `if` of these arms and what is executed where none holds.
fn choice(
    alloc: Global,
    token: &Token,
    first: Arm,
    more: Items<Arm>,
    other: Items<Stmt>,
) -> Result<Items<Stmt>, AllocError>
    ensures { IfOk result (λ ss. ss ≡ Stmt.If (node_at token.now) (first ∷ more) other ∷ []) }
{
    let mut arms = Items::new(alloc);
    arms.push(first)?;
    arms.append(more)?;
    one(alloc, Stmt::If(node_at(token), arms, other))
}

impl<F: Fn(Global, &mut Cursor<'_>, u32) -> Result<Items<Stmt>, ParseError>> Blocks<F> {
    /// The greatest height of a statement in a block.
    fn low(&self) -> u32
        ensures { result ≡ self.now.room - 1 }
    {
        self.room.saturating_sub(1)
    }

    /// A statement in a block.
    fn sub(&self, cursor: &mut Cursor<'_>) -> Result<Items<Stmt>, ParseError>
        requires { Subs self.now.room (F.pre self.now.sub) (F.post self.now.sub) }
        ensures { Reads (spec.statement readers (self.now.room - 1) cursor.old) result cursor.new }
    {
        (self.sub)(self.alloc, cursor, self.low())
    }

    /// One more statement behind those that stand.
    fn turn(&self, cursor: &mut Cursor<'_>, body: Items<Stmt>) -> Result<Items<Stmt>, ParseError>
        requires { Subs self.now.room (F.pre self.now.sub) (F.post self.now.sub) }
        ensures { Reads (and_then (spec.statement readers (self.now.room - 1) cursor.old) (λ ys. pure (body ++ ys))) result cursor.new }
    {
        let more = self.sub(cursor)?;
        let mut body = body;
        body.append(more)?;
        Ok(body)
    }

    /// The statements behind those that stand.
    fn rest(&self, cursor: &mut Cursor<'_>, first: Items<Stmt>) -> Result<Items<Stmt>, ParseError>
        requires { Subs self.now.room (F.pre self.now.sub) (F.post self.now.sub) }
        ensures { Reads (gather spec.starts_stmt (spec.statement readers (self.now.room - 1)) first cursor.old) result cursor.new }
    {
        let mut body = first;
        'turn: for _turn in 0..cursor.left() {
            if !starts_statement(cursor) {
                return Ok(body);
            }
            body = self.turn(cursor, body)?;
        }
        Ok(body)
    }

    /// The lines of a block.
    #[tactic(auto, unfolding(crate::specs::Blocks::indented, crate::specs::Blocks::stmts_by))]
    fn indented(&self, cursor: &mut Cursor<'_>) -> Result<Items<Stmt>, ParseError>
        requires { Subs self.now.room (F.pre self.now.sub) (F.post self.now.sub) }
        ensures { Reads (spec.indented (spec.statement readers (self.now.room - 1)) cursor.old) result cursor.new }
    {
        expect_newline(cursor)?;
        expect_indent(cursor)?;
        let first = self.sub(cursor)?;
        let body = self.rest(cursor, first)?;
        expect_dedent(cursor)?;
        Ok(body)
    }

    /// A colon, and a line or an indented block.
    #[tactic(auto, unfolding(crate::specs::Blocks::block, crate::specs::Blocks::block_by))]
    pub fn block(&self, cursor: &mut Cursor<'_>) -> Result<Items<Stmt>, ParseError>
        requires { Subs self.now.room (F.pre self.now.sub) (F.post self.now.sub) }
        ensures { Reads (spec.block readers (self.now.room - 1) cursor.old) result cursor.new }
    {
        cursor.expect_op(b":".as_slice())?;
        if sees_newline(cursor) {
            self.indented(cursor)
        } else {
            read_line(self.alloc, cursor, self.low())
        }
    }

    /// An arm of `elif`.
    #[tactic(auto, unfolding(crate::specs::Blocks::elif_arm, crate::specs::Blocks::block))]
    fn elif_arm(&self, cursor: &mut Cursor<'_>) -> Result<Arm, ParseError>
        requires { Subs self.now.room (F.pre self.now.sub) (F.post self.now.sub) }
        ensures { Reads (spec.elif_arm readers self.now.room (spec.statement readers (self.now.room - 1)) cursor.old) result cursor.new }
    {
        cursor.expect_keyword(b"elif".as_slice())?;
        let condition = read_expression(self.alloc, cursor, self.low())?.into_tree();
        let body = self.block(cursor)?;
        Ok(Arm { condition, body })
    }

    /// One more arm behind those that stand.
    fn arm_turn(&self, cursor: &mut Cursor<'_>, arms: Items<Arm>) -> Result<Items<Arm>, ParseError>
        requires { Subs self.now.room (F.pre self.now.sub) (F.post self.now.sub) }
        ensures { Reads (and_then (spec.elif_arm readers self.now.room (spec.statement readers (self.now.room - 1)) cursor.old) (λ y. pure (arms ++ y ∷ []))) result cursor.new }
    {
        let arm = self.elif_arm(cursor)?;
        let mut arms = arms;
        arms.push(arm)?;
        Ok(arms)
    }

    /// The arms of `elif`.
    fn more_arms(&self, cursor: &mut Cursor<'_>) -> Result<Items<Arm>, ParseError>
        requires { Subs self.now.room (F.pre self.now.sub) (F.post self.now.sub) }
        ensures { Reads (many spec.is_elif (spec.elif_arm readers self.now.room (spec.statement readers (self.now.room - 1))) cursor.old) result cursor.new }
    {
        let mut arms = Items::new(self.alloc);
        'turn: for _turn in 0..cursor.left() {
            if !cursor.sees_keyword(b"elif".as_slice()) {
                return Ok(arms);
            }
            arms = self.arm_turn(cursor, arms)?;
        }
        Ok(arms)
    }

    /// The block of `else`, or no statement.
    #[tactic(auto, unfolding(crate::specs::Blocks::otherwise, crate::specs::Blocks::block))]
    fn otherwise(&self, cursor: &mut Cursor<'_>) -> Result<Items<Stmt>, ParseError>
        requires { Subs self.now.room (F.pre self.now.sub) (F.post self.now.sub) }
        ensures { Reads (spec.otherwise readers self.now.room (spec.statement readers (self.now.room - 1)) cursor.old) result cursor.new }
    {
        if !cursor.sees_keyword(b"else".as_slice()) {
            return Ok(Items::new(self.alloc));
        }
        cursor.expect_keyword(b"else".as_slice())?;
        self.block(cursor)
    }

    /// What follows the first block of `if`.
    #[tactic(auto, unfolding(crate::specs::Blocks::branch_rest))]
    fn branch_rest(
        &self,
        cursor: &mut Cursor<'_>,
        token: &Token,
        condition: Expr,
        body: Items<Stmt>,
    ) -> Result<Items<Stmt>, ParseError>
        requires { Subs self.now.room (F.pre self.now.sub) (F.post self.now.sub) }
        ensures { Reads (spec.branch_rest readers self.now.room (spec.statement readers (self.now.room - 1)) token.now condition body cursor.old) result cursor.new }
    {
        let more = self.more_arms(cursor)?;
        let other = self.otherwise(cursor)?;
        let first = Arm { condition, body };
        let statements = choice(self.alloc, token, first, more, other)?;
        Ok(statements)
    }

    /// The statement `if`, if there is room.
    #[tactic(auto, unfolding(crate::specs::Blocks::branch, crate::specs::Blocks::block))]
    fn branch(&self, cursor: &mut Cursor<'_>) -> Result<Items<Stmt>, ParseError>
        requires { Subs self.now.room (F.pre self.now.sub) (F.post self.now.sub) }
        ensures { Reads (within (nat_le 2 self.now.room) (spec.branch readers self.now.room (spec.statement readers (self.now.room - 1))) cursor.old) result cursor.new }
    {
        if self.room < 2 {
            return Err(ParseError::Refused(Cause::TooDeep));
        }
        let token = cursor.expect_keyword(b"if".as_slice())?;
        let condition = read_expression(self.alloc, cursor, self.low())?.into_tree();
        let body = self.block(cursor)?;
        self.branch_rest(cursor, token, condition, body)
    }

    /// The statement `while`, if there is room.
    #[tactic(auto, unfolding(crate::specs::Blocks::repetition, crate::specs::Blocks::block))]
    fn repetition(&self, cursor: &mut Cursor<'_>) -> Result<Items<Stmt>, ParseError>
        requires { Subs self.now.room (F.pre self.now.sub) (F.post self.now.sub) }
        ensures { Reads (within (nat_le 2 self.now.room) (spec.repetition readers self.now.room (spec.statement readers (self.now.room - 1))) cursor.old) result cursor.new }
    {
        if self.room < 2 {
            return Err(ParseError::Refused(Cause::TooDeep));
        }
        let token = cursor.expect_keyword(b"while".as_slice())?;
        let condition = read_expression(self.alloc, cursor, self.low())?.into_tree();
        let body = self.block(cursor)?;
        let statements = one(self.alloc, Stmt::While(node_at(token), condition, body))?;
        Ok(statements)
    }

    /// What follows the names of a loop.
    #[tactic(auto, unfolding(crate::specs::Code::loop_rest))]
    fn loop_rest(
        &self,
        cursor: &mut Cursor<'_>,
        token: &Token,
        names: LoopNames,
    ) -> Result<For, ParseError>
        requires { Subs self.now.room (F.pre self.now.sub) (F.post self.now.sub) }
        ensures { Reads (loop_rest self.now.room token.now names cursor.old) result cursor.new }
    {
        cursor.expect_keyword(b"in".as_slice())?;
        let iterable = read_items(self.alloc, cursor, self.low())?;
        let body = self.block(cursor)?;
        Ok(For {
            node: node_at(token),
            names,
            iterable,
            body,
        })
    }

    /// A loop.
    #[tactic(auto, unfolding(crate::specs::Blocks::for_loop, crate::specs::Code::loop_rest, crate::specs::Blocks::block))]
    fn for_loop(&self, cursor: &mut Cursor<'_>) -> Result<For, ParseError>
        requires { Subs self.now.room (F.pre self.now.sub) (F.post self.now.sub) }
        ensures { Reads (spec.for_loop readers self.now.room (spec.statement readers (self.now.room - 1)) cursor.old) result cursor.new }
    {
        let token = cursor.expect_keyword(b"for".as_slice())?;
        let names = cursor.names(self.alloc)?;
        self.loop_rest(cursor, token, names)
    }

    /// A loop as a statement, if there is room.
    fn for_statement(&self, cursor: &mut Cursor<'_>) -> Result<Items<Stmt>, ParseError>
        requires { Subs self.now.room (F.pre self.now.sub) (F.post self.now.sub) }
        ensures { Reads (within (nat_le 2 self.now.room) (λ ts. and_then (spec.for_loop readers self.now.room (spec.statement readers (self.now.room - 1)) ts) (λ f. pure (Stmt.For f ∷ []))) cursor.old) result cursor.new }
    {
        if self.room < 2 {
            return Err(ParseError::Refused(Cause::TooDeep));
        }
        let each = self.for_loop(cursor)?;
        let statements = one(self.alloc, Stmt::For(each))?;
        Ok(statements)
    }

    /// The loop under `@par`, which is one lower than this statement may be.
    #[tactic(auto, using(crate::proofs::Lower::lower))]
    fn lower_loop(self, cursor: &mut Cursor<'_>) -> Result<For, ParseError>
        requires { Subs self.room (F.pre self.sub) (F.post self.sub) }
        ensures { Reads (spec.for_loop readers (self.room - 1) (spec.statement readers (self.room - 1 - 1)) cursor.old) result cursor.new }
    {
        let lower = Blocks {
            alloc: self.alloc,
            room: self.low(),
            sub: self.sub,
        };
        lower.for_loop(cursor)
    }

    /// `@par` and its loop, if there is room.
    #[tactic(auto, unfolding(crate::specs::Blocks::parallel))]
    fn parallel(self, cursor: &mut Cursor<'_>) -> Result<Items<Stmt>, ParseError>
        requires { Subs self.room (F.pre self.sub) (F.post self.sub) }
        ensures { Reads (within (nat_le 3 self.room) (spec.parallel (spec.for_loop readers (self.room - 1) (spec.statement readers (self.room - 1 - 1)))) cursor.old) result cursor.new }
    {
        if self.room < 3 {
            return Err(ParseError::Refused(Cause::TooDeep));
        }
        let alloc = self.alloc;
        let token = cursor.expect_op(b"@".as_slice())?;
        expect_word(cursor, b"par".as_slice())?;
        let options = read_options(cursor)?;
        expect_newline(cursor)?;
        let each = self.lower_loop(cursor)?;
        let statements = one(alloc, Stmt::Par(node_at(token), options, each))?;
        Ok(statements)
    }

    /// A statement by its first token.
    #[tactic(auto, unfolding(crate::specs::Blocks::statement_by))]
    fn statement(self, cursor: &mut Cursor<'_>) -> Result<Items<Stmt>, ParseError>
        requires { Subs self.room (F.pre self.sub) (F.post self.sub) }
        ensures { Reads (spec.statement_by readers self.room (below self.room) cursor.old) result cursor.new }
    {
        if cursor.sees_keyword(b"if".as_slice()) {
            self.branch(cursor)
        } else if cursor.sees_keyword(b"while".as_slice()) {
            self.repetition(cursor)
        } else if cursor.sees_keyword(b"for".as_slice()) {
            self.for_statement(cursor)
        } else if cursor.sees_op(b"@".as_slice()) {
            self.parallel(cursor)
        } else {
            read_line(self.alloc, cursor, self.room)
        }
    }
}

/// The simple statements of a line or one statement with blocks, each at most `room` high. The cursor stands after it, or at the token that is refused.
#[tactic(auto, using(crate::proofs::Levels::statement_none, crate::proofs::Levels::statement_some))]
pub fn read_statement(
    alloc: Global,
    cursor: &mut Cursor<'_>,
    room: u32,
) -> Result<Items<Stmt>, ParseError>
    ensures { Reads (spec.statement readers room cursor.old) result cursor.new }
{
    if room == 0 {
        return Err(ParseError::Refused(Cause::Unexpected));
    }
    let blocks = Blocks {
        alloc,
        room,
        sub: read_statement,
    };
    blocks.statement(cursor)
}
