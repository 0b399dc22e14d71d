use super::{FEW, Wrong, tree_of};
use crate::{ParseKind, ParseRefusal, parse};
use codon_base::Or;
use indent_lexer::lex;
use source_trees::Module;
use std::alloc::Global;
use std::process::Abort;
use std::test::Fail;

#[test]
fn one_call_of_each_kind(rt: HostRuntime) -> Result<(), Fail> {
    let alloc = rt.alloc();
    let module = tree_of(&rt, alloc, "x = 1\nprint(x + 1)\n");
    assert_eq!(rt; module.items.len(), 2);
    assert_eq!(rt; module.height(), 3);
    let mut wrong = Wrong::new(alloc);
    wrong.row("", "ok")?;
    wrong.row("x =\n", "P1 1:4")?;
    wrong.row("import x\n", "P3 1:1")?;
    // No line end after the colon: the refused token is the end.
    wrong.row("if x:", "P1 1:6")?;
    wrong.end(&rt);
    Ok(())
}

/// What `parse` answers for the tokens of a text with those of another after them.
fn parsed_with_more(
    alloc: Global,
    text: &str,
    more: &str,
) -> Option<Result<Module, Or<ParseRefusal>>> {
    let Ok(mut tokens) = lex(alloc, text.as_bytes()) else {
        return None;
    };
    let Ok(more) = lex(alloc, more.as_bytes()) else {
        return None;
    };
    match tokens.append(more) {
        Err(_) => None,
        Ok(()) => {
            if tokens.len() >= FEW {
                return None;
            }
            Some(parse(alloc, &tokens))
        }
    }
}

fn expect_refusal(rt: &impl Abort, alloc: Global, text: &str, token: u32, line: u32) {
    match parsed_with_more(alloc, text, "if y: z\n").expect(rt, "tokens") {
        Err(Or::No(refusal)) => {
            assert_eq!(rt; refusal.token, token);
            assert_eq!(rt; refusal.at.line, line);
            assert!(rt; refusal.kind == ParseKind::Unexpected);
        }
        _ => assert!(rt; false),
    }
}

/// A list may go on after the end of its text: the token after it is refused, and only where none before it is.
#[test]
fn tokens_after_the_end(rt: HostRuntime) {
    let alloc = rt.alloc();
    expect_refusal(&rt, alloc, "\nx\n", 3, 1);
    expect_refusal(&rt, alloc, "", 1, 1);
    expect_refusal(&rt, alloc, "\n\nx =\n", 2, 3);
}
