ghost use Rattle.std.specs.Prelude.{◌≡◌, ◌≤◌, ◌+◌, ◌++◌, ◌∷◌, [], OnOk, IfErr, length, replicate};
ghost use Rattle.indent_lexer.specs.Tokens.{HeadGives, IsHeadFaultOf, marks, head, at_column, last_newline};
ghost use Rattle.indent_lexer.specs.Indentation.{indentation};

use crate::columns::{Columns, leave};
use crate::fault::Fault;
use crate::line::Line;
use crate::token::{LexKind, LexRefusal, Token, TokenKind, Tokens};
use codon_base::{Memory, Span};

/// A token without a spelling.
pub fn push_mark(tokens: &mut Tokens, kind: TokenKind, at: Span) -> Result<(), Memory>
    ensures { OnOk result (tokens.new ≡ tokens.old ++ record { kind = kind; span = at; len = 0 } ∷ []) }
{
    tokens.push(Token {
        kind,
        span: at,
        len: 0,
    })?;
    Ok(())
}

/// What stands before the first token of a line.
pub fn start_line(
    columns: &mut Columns,
    line: Line,
    at: Span,
    tokens: &mut Tokens,
) -> Result<(), Fault>
    requires { length columns.old ≤ 1_048_576 }
    ensures ok { OnOk result (HeadGives (head line columns.old at) at columns.new tokens.old tokens.new) }
    ensures grows { OnOk result (length columns.new ≤ length columns.old + 1) }
    ensures refused { IfErr result (IsHeadFaultOf (head line columns.old at)) }
{
    match line {
        Line::Within => Ok(()),
        Line::Lead(spaces, tab) => match tab {
            Some(at) => Err(Fault::Refused(LexRefusal {
                kind: LexKind::Tab,
                at,
            })),
            None => indent(columns, spaces, at, tokens),
        },
    }
}

/// Compares the column of a line with those of the blocks.
fn indent(columns: &mut Columns, spaces: u32, at: Span, tokens: &mut Tokens) -> Result<(), Fault>
    requires { length columns.old ≤ 1_048_576 }
    ensures ok { OnOk result (HeadGives (at_column (indentation spaces columns.old) at) at columns.new tokens.old tokens.new) }
    ensures grows { OnOk result (length columns.new ≤ length columns.old + 1) }
    ensures refused { IfErr result (IsHeadFaultOf (at_column (indentation spaces columns.old) at)) }
{
    if columns.innermost() < spaces {
        columns.push(spaces)?;
        push_mark(tokens, TokenKind::Indent, at)?;
        return Ok(());
    }
    let count = leave(columns, spaces);
    if columns.innermost() != spaces {
        return Err(Fault::Refused(LexRefusal {
            kind: LexKind::BadDedent,
            at,
        }));
    }
    push_dedents(tokens, at, count)?;
    Ok(())
}

fn push_dedents(tokens: &mut Tokens, at: Span, count: usize) -> Result<(), Memory>
    ensures { OnOk result (tokens.new ≡ tokens.old ++ marks at (replicate count TokenKind.Dedent)) }
{
    'dedents: for n in 0..count {
        push_mark(tokens, TokenKind::Dedent, at)?;
    }
    Ok(())
}

/// The last tokens of a text.
pub fn push_last(line: Line, at: Span, blocks: usize, tokens: &mut Tokens) -> Result<(), Memory>
    ensures { OnOk result (tokens.new ≡ tokens.old ++ marks at (last_newline line ++ (replicate blocks TokenKind.Dedent ++ TokenKind.End ∷ []))) }
{
    push_last_newline(line, at, tokens)?;
    push_dedents(tokens, at, blocks)?;
    push_mark(tokens, TokenKind::End, at)
}

fn push_last_newline(line: Line, at: Span, tokens: &mut Tokens) -> Result<(), Memory>
    ensures { OnOk result (tokens.new ≡ tokens.old ++ marks at (last_newline line)) }
{
    match line {
        Line::Lead(_, _) => Ok(()),
        Line::Within => push_mark(tokens, TokenKind::Newline, at),
    }
}
