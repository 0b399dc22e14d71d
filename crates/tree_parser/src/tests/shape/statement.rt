use super::super::words::{binary_word, count, schedule_word, word};
use super::Shape;
use source_trees::{
    Arm, Expr, For, Joint, ParOptions, PrintOptions, Printed, Stage, StageForm, Stmt, Target,
    Targets,
};
use sqlite_items::Items;
use std::alloc::AllocError;

impl Shape {
    fn target(&mut self, written: &Target) -> Result<(), AllocError> {
        match written {
            Target::Name(node, spelling) => {
                self.spelled(spelling.as_slice())?;
                self.number(*node)
            }
            Target::Index(node, object, index) => {
                self.open("index", *node)?;
                self.expr(object)?;
                self.expr(index)?;
                self.close()
            }
            Target::Field(node, object, spelling) => {
                self.open("field", *node)?;
                self.expr(object)?;
                self.spelled(spelling.as_slice())?;
                self.close()
            }
        }
    }

    fn targets(&mut self, written: &Targets) -> Result<(), AllocError> {
        match written {
            Targets::One(one) => self.target(one),
            Targets::Several(node, several) => {
                self.open("tuple", *node)?;
                'targets: for each in several.as_slice() {
                    self.target(each)?;
                }
                self.close()
            }
        }
    }

    fn option(&mut self, text: &str, value: &Expr) -> Result<(), AllocError> {
        self.group(text)?;
        self.expr(value)?;
        self.close()
    }

    fn printed(&mut self, written: &Printed) -> Result<(), AllocError> {
        self.row(&written.values)?;
        match &written.options {
            PrintOptions::Neither => Ok(()),
            PrintOptions::Sep(sep) => self.option("sep", sep),
            PrintOptions::End(end) => self.option("end", end),
            PrintOptions::SepEnd(sep, end) => {
                self.option("sep", sep)?;
                self.option("end", end)
            }
            PrintOptions::EndSep(end, sep) => {
                self.option("end", end)?;
                self.option("sep", sep)
            }
        }
    }

    fn stage(&mut self, stage: &Stage) -> Result<(), AllocError> {
        self.leaf(match stage.joint {
            Joint::InTurn => "|>",
            Joint::InParallel => "||>",
        })?;
        match &stage.form {
            StageForm::Iter => self.open("iter", stage.node)?,
            StageForm::Print(values) => {
                self.open("print", stage.node)?;
                self.printed(values)?;
            }
            StageForm::Call(spelling, before, after) => {
                self.open("call", stage.node)?;
                self.spelled(spelling.as_slice())?;
                self.row(before)?;
                self.leaf("...")?;
                self.row(after)?;
            }
        }
        self.close()
    }

    fn stages(&mut self, several: &Items<Stage>) -> Result<(), AllocError> {
        'stages: for each in several.as_slice() {
            self.stage(each)?;
        }
        Ok(())
    }

    fn par_options(&mut self, written: &ParOptions) -> Result<(), AllocError> {
        if let Some(threads) = written.num_threads {
            word(&mut self.out, " num_threads=")?;
            count(&mut self.out, threads)?;
        }
        if let Some(size) = written.chunk_size {
            word(&mut self.out, " chunk_size=")?;
            count(&mut self.out, u64::from(size))?;
        }
        if let Some(schedule) = written.schedule {
            word(&mut self.out, " schedule=")?;
            word(&mut self.out, schedule_word(schedule))?;
        }
        Ok(())
    }

    fn optional(&mut self, value: &Option<Expr>) -> Result<(), AllocError> {
        match value {
            Some(value) => self.expr(value),
            None => Ok(()),
        }
    }

    /// The closing bracket of a choice, and those of the arms that stand in an `else`.
    fn close_branches(&mut self, opened: u32) -> Result<(), AllocError> {
        if !self.whole {
            'opened: for _ in 0..opened {
                self.close()?;
                self.close()?;
            }
        }
        self.close()
    }

    /// A statement without blocks, up to its closing bracket.
    fn simple_statement(&mut self, stmt: &Stmt) -> Result<(), AllocError> {
        match stmt {
            Stmt::Pass(node) => self.open("pass", *node),
            Stmt::Break(node) => self.open("break", *node),
            Stmt::Continue(node) => self.open("continue", *node),
            Stmt::Return(node, value) => {
                self.open("return", *node)?;
                self.optional(value)
            }
            Stmt::Yield(node, value) => {
                self.open("yield", *node)?;
                self.expr(value)
            }
            Stmt::Raise(node, kind, text) => {
                self.open("raise", *node)?;
                self.name(kind)?;
                self.optional(text)
            }
            Stmt::Assert(node, condition, text) => {
                self.open("assert", *node)?;
                self.expr(condition)?;
                self.optional(text)
            }
            Stmt::Annotated(node, variable, written, value) => {
                self.open("annotate", *node)?;
                self.name(variable)?;
                self.annotation(written)?;
                self.optional(value)
            }
            Stmt::Assign(node, written, value) => {
                self.open("assign", *node)?;
                self.targets(written)?;
                self.expr(value)
            }
            Stmt::Update(node, written, op, value) => {
                self.open("update", *node)?;
                self.target(written)?;
                self.leaf(binary_word(*op))?;
                self.expr(value)
            }
            Stmt::Evaluate(node, value) => {
                self.open("evaluate", *node)?;
                self.expr(value)
            }
            Stmt::Print(node, values) => {
                self.open("print", *node)?;
                self.printed(values)
            }
            Stmt::Pipeline(node, head, several) => {
                self.open("pipe", *node)?;
                self.expr(head)?;
                self.stages(several)
            }
            _ => Ok(()),
        }
    }

    #[cycle(shape_statement)]
    pub(super) fn statement(&mut self, stmt: &Stmt) -> Result<(), AllocError> {
        match stmt {
            Stmt::If(node, arms, otherwise) => {
                self.group("branch")?;
                self.number(*node)?;
                let opened = self.arms(arms)?;
                if !otherwise.is_empty() {
                    self.body("else", otherwise)?;
                }
                self.close_branches(opened)
            }
            Stmt::While(node, condition, body) => {
                self.open("while", *node)?;
                self.expr(condition)?;
                self.body("do", body)?;
                self.close()
            }
            Stmt::For(each) => self.for_loop(each),
            Stmt::Par(node, options, each) => {
                self.open("par", *node)?;
                self.par_options(options)?;
                self.for_loop(each)?;
                self.close()
            }
            _ => {
                self.simple_statement(stmt)?;
                self.close()
            }
        }
    }

    #[cycle(shape_statement)]
    pub(super) fn body(&mut self, text: &str, stmts: &Items<Stmt>) -> Result<(), AllocError> {
        self.group(text)?;
        'stmts: for stmt in stmts.as_slice() {
            self.statement(stmt)?;
        }
        self.close()
    }

    /// The arms. In the short form each after the first stands in an `else`, which is left open; how many are is the answer.
    #[cycle(shape_statement)]
    fn arms(&mut self, arms: &Items<Arm>) -> Result<u32, AllocError> {
        let mut opened = 0u32;
        let mut first = true;
        'arms: for arm in arms.as_slice() {
            if !first {
                self.group(if self.whole { "elif" } else { "else (branch" })?;
                opened = opened.saturating_add(1);
            }
            first = false;
            self.arm(arm)?;
            if self.whole && opened > 0 {
                self.close()?;
            }
        }
        Ok(opened)
    }

    #[cycle(shape_statement)]
    fn arm(&mut self, arm: &Arm) -> Result<(), AllocError> {
        self.expr(&arm.condition)?;
        self.body("do", &arm.body)
    }

    #[cycle(shape_statement)]
    fn for_loop(&mut self, each: &For) -> Result<(), AllocError> {
        self.open("for", each.node)?;
        self.names(&each.names)?;
        self.expr(&each.iterable)?;
        self.body("do", &each.body)?;
        self.close()
    }
}
