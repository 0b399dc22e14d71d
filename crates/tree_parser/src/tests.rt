mod edited;
mod limits;
mod once;
mod prelude_text;
mod print;
mod refusals;
mod round;
mod shape;
mod sources;
mod table;
mod trees;
mod words;

use super::*;
use codon_base::Or;
use indent_lexer::lex;
use source_trees::Module;
use std::alloc::{AllocError, Global};
use std::process::Abort;

/// How many tokens a list may have that is parsed here.
const FEW: usize = 1 << 30;

/// What `parse` answers for a text, none where the text has no tokens.
#[tactic(auto, using(crate::proofs::Parsed::lexed_hold_end))]
fn parsed(alloc: Global, text: &str) -> Option<Result<Module, Or<ParseRefusal>>> {
    let Ok(tokens) = lex(alloc, text.as_bytes()) else {
        return None;
    };
    if tokens.len() >= FEW {
        return None;
    }
    Some(parse(alloc, &tokens))
}

/// The tree of a text.
fn tree_of(rt: &impl Abort, alloc: Global, text: &str) -> Module {
    let answer = parsed(alloc, text).expect(rt, "tokens");
    answer.ok().expect(rt, "a tree")
}

fn kind_name(kind: ParseKind) -> &'static str {
    match kind {
        ParseKind::Unexpected => "P1",
        ParseKind::TooDeep => "P2",
        ParseKind::NotInProfile => "P3",
    }
}

/// A refusal as `KIND LINE:COLUMN`.
fn places(alloc: Global, kind: &str, line: u32, column: u32) -> Result<String, AllocError> {
    format!(in alloc; "{kind} {line}:{column}")
}

/// An answer as `ok`, or as `KIND LINE:COLUMN`.
fn shown(alloc: Global, text: &str) -> Result<String, AllocError> {
    match parsed(alloc, text) {
        None => format!(in alloc; "no tokens"),
        Some(Ok(_)) => format!(in alloc; "ok"),
        Some(Err(Or::No(refusal))) => {
            let at = refusal.at;
            places(alloc, kind_name(refusal.kind), at.line, at.column)
        }
        Some(Err(Or::Memory)) => format!(in alloc; "memory"),
    }
}

/// What is told of a text with another answer than the one that is wanted, nothing else.
fn told(alloc: Global, text: &str, want: &str) -> Result<String, AllocError> {
    let found = shown(alloc, text)?;
    if found.as_str() == want {
        return format!(in alloc; "");
    }
    format!(in alloc; "{text}gives {found}, not {want}\n")
}

/// Wrong answers, one after the other.
#[derive(Drop)]
struct Wrong {
    alloc: Global,
    told: String,
}

impl Wrong {
    fn new(alloc: Global) -> Wrong {
        Wrong {
            alloc,
            told: String::new(alloc),
        }
    }

    /// The text is to have this answer.
    fn row(&mut self, text: &str, want: &str) -> Result<(), AllocError> {
        let line = told(self.alloc, text, want)?;
        self.told.push_str(line.as_str())
    }

    fn add(&mut self, line: &str) -> Result<(), AllocError> {
        self.told.push_str(line)
    }

    fn end(&self, rt: &impl Abort) {
        assert_eq!(rt; self.told.as_str(), "");
    }
}
