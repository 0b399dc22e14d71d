use super::build::*;
use super::{Case, Wanted, expect};
use source_trees::*;
use std::process::Abort;
use std::test::Fail;

/// A form of expressions that stand one inside the other.
#[derive(Clone, Copy)]
enum Nested {
    Bracket,
    Negation,
    Choice,
    Sum,
    Listed,
    Argument,
    Item,
    Iterable,
    Condition,
    Gathered,
    Both,
    Place,
    Bound,
    Method,
    Given,
    Chain,
}

/// A form of statements that stand one inside the other.
#[derive(Clone, Copy)]
enum Block {
    If,
    While,
    For,
    Par,
}

impl<'a, R: Abort> Trees<'a, R> {
    fn inside(&self, form: Nested, e: Expr) -> Expr {
        match form {
            Nested::Bracket => self.bracketed(e),
            Nested::Negation => self.not(e),
            Nested::Choice => self.conditional(e, self.truth(true), self.int(0)),
            Nested::Sum => self.binary(BinaryOp::Add, self.int(1), e),
            Nested::Listed => self.list([e]),
            Nested::Argument => self.call("len", [e]),
            Nested::Item => self.each(e, self.one("x"), self.call("range", [self.int(1)])),
            Nested::Iterable => self.each(self.int(1), self.one("x"), e),
            Nested::Condition => self.each_if(
                self.int(1),
                self.one("x"),
                self.call("range", [self.int(1)]),
                e,
            ),
            Nested::Gathered => self.call("list", [e]),
            Nested::Both => self.all_of([self.truth(true), e]),
            Nested::Place => self.index(self.list([self.int(1)]), e),
            Nested::Bound => self.slice(self.list([self.int(1)]), Some(e), None),
            Nested::Method => self.method(self.list([]), "append", [e]),
            Nested::Given => self.call("g", [e]),
            Nested::Chain => {
                let part = self.bracketed(e);
                self.compare(self.int(0), [than(Comparator::Less, part)])
            }
        }
    }

    fn within(&self, form: Block, s: Stmt) -> Stmt {
        match form {
            Block::If => self.choose([self.when(self.truth(true), [s])], []),
            Block::While => self.repeat(self.truth(true), [s]),
            Block::For => self.over(self.one("x"), self.call("range", [self.int(1)]), [s]),
            Block::Par => self.par(self.one("x"), self.call("range", [self.int(1)]), [s]),
        }
    }

    /// An expression below others, which make it 96 higher.
    fn below(&self, form: Nested, e: Expr) -> Expr {
        let levels = match form {
            Nested::Chain => 48,
            _ => 96,
        };
        let mut e = e;
        'levels: for _ in 0..levels {
            e = self.inside(form, e);
        }
        e
    }

    /// A statement below others, which make it so much higher, or one less where a level counts for two.
    fn deep(&self, form: Block, s: Stmt, height: u32) -> Stmt {
        let levels = match form {
            Block::Par => height / 2,
            _ => height,
        };
        let mut s = s;
        'levels: for _ in 0..levels {
            s = self.within(form, s);
        }
        s
    }

    /// `return f()`.
    fn again(&self) -> Stmt {
        Stmt::Return(NODE, Some(self.call("f", [])))
    }

    /// A module that calls f.
    fn calls(&self, items: [Item; 2]) -> Module {
        let [first, second] = items;
        self.module([
            first,
            second,
            Item::Stmt(Stmt::Evaluate(NODE, self.call("f", []))),
        ])
    }

    /// A function that does nothing.
    fn idle(&self) -> Item {
        self.function("g", [self.param("x")], [Stmt::Pass(NODE)])
    }
}

/// 100 bodies stand one inside the other, and one more would be entered.
const DEEPEST: Case<'static> = Case {
    fuel: 1_000_000,
    depth: 100,
    out: b"",
    end: Wanted::TooDeep,
};

/// Runs a module that is as high as a source may be.
fn expect_deepest<R: Abort>(t: &Trees<'_, R>, module: Module) -> Result<(), Fail> {
    let rt = t.rt;
    assert_eq!(rt; module.height(), 100);
    expect(t, module, DEEPEST)
}

#[test]
fn nested_expressions_stay_within_the_native_stack(rt: HostRuntime) -> Result<(), Fail> {
    let t = Trees {
        rt: &rt,
        alloc: rt.alloc(),
    };
    for form in [
        Nested::Bracket,
        Nested::Negation,
        Nested::Choice,
        Nested::Sum,
        Nested::Listed,
        Nested::Argument,
        Nested::Item,
        Nested::Iterable,
        Nested::Condition,
        Nested::Gathered,
        Nested::Both,
        Nested::Place,
        Nested::Bound,
        Nested::Method,
        Nested::Given,
        Nested::Chain,
    ] {
        let e = t.below(form, t.call("f", []));
        let f = t.function("f", [], [Stmt::Return(NODE, Some(e))]);
        expect_deepest(&t, t.calls([t.idle(), f]))?;
    }
    Ok(())
}

#[test]
fn nested_statements_stay_within_the_native_stack(rt: HostRuntime) -> Result<(), Fail> {
    let t = Trees {
        rt: &rt,
        alloc: rt.alloc(),
    };
    for form in [Block::If, Block::While, Block::For, Block::Par] {
        let f = t.function("f", [], [t.deep(form, t.again(), 96)]);
        expect_deepest(&t, t.calls([t.idle(), f]))?;
    }
    Ok(())
}

#[test]
fn loops_over_nested_expressions_stay_within_the_native_stack(rt: HostRuntime) -> Result<(), Fail> {
    let t = Trees {
        rt: &rt,
        alloc: rt.alloc(),
    };
    for form in [
        Nested::Listed,
        Nested::Item,
        Nested::Iterable,
        Nested::Gathered,
    ] {
        let e = t.below(form, t.call("f", []));
        let f = t.function("f", [], [t.over(t.one("x"), e, [Stmt::Pass(NODE)])]);
        expect_deepest(&t, t.calls([t.idle(), f]))?;
    }
    Ok(())
}

#[test]
fn generators_stay_within_the_native_stack(rt: HostRuntime) -> Result<(), Fail> {
    let t = Trees {
        rt: &rt,
        alloc: rt.alloc(),
    };
    for form in [Block::If, Block::For, Block::Par] {
        let item = t.deep(Block::For, Stmt::Yield(NODE, t.int(1)), 97);
        let g = t.function("g", [], [item]);
        let turn = t.deep(form, t.again(), 95);
        let f = t.function("f", [], [t.over(t.one("x"), t.call("g", []), [turn])]);
        expect_deepest(&t, t.calls([g, f]))?;
    }
    Ok(())
}
