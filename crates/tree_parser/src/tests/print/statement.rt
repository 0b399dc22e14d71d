use super::super::words::{Out, binary_word, count, schedule_word, word};
use super::expression::{annotation, expr, loop_names, name, row};
use source_trees::{
    Arm, For, Joint, ParOptions, PrintOptions, Printed, Stage, StageForm, Stmt, Target, Targets,
};
use sqlite_items::Items;
use std::alloc::AllocError;

/// The start of a line so many blocks further in.
pub(super) fn indent(out: &mut Out, depth: u32) -> Result<(), AllocError> {
    'blocks: for _ in 0..depth {
        word(out, "    ")?;
    }
    Ok(())
}

fn target(out: &mut Out, written: &Target) -> Result<(), AllocError> {
    match written {
        Target::Name(_, spelling) => out.extend_from_slice(spelling.as_slice()),
        Target::Index(_, object, index) => {
            expr(out, object)?;
            word(out, "[")?;
            expr(out, index)?;
            word(out, "]")
        }
        Target::Field(_, object, spelling) => {
            expr(out, object)?;
            word(out, " .")?;
            out.extend_from_slice(spelling.as_slice())
        }
    }
}

fn targets(out: &mut Out, written: &Targets) -> Result<(), AllocError> {
    match written {
        Targets::One(one) => target(out, one),
        Targets::Several(_, several) => {
            'targets: for each in several.as_slice() {
                target(out, each)?;
                word(out, ",")?;
            }
            Ok(())
        }
    }
}

fn options(out: &mut Out, written: &PrintOptions) -> Result<(), AllocError> {
    match written {
        PrintOptions::Neither => Ok(()),
        PrintOptions::Sep(sep) => {
            word(out, "sep=")?;
            expr(out, sep)
        }
        PrintOptions::End(end) => {
            word(out, "end=")?;
            expr(out, end)
        }
        PrintOptions::SepEnd(sep, end) => {
            word(out, "sep=")?;
            expr(out, sep)?;
            word(out, ", end=")?;
            expr(out, end)
        }
        PrintOptions::EndSep(end, sep) => {
            word(out, "end=")?;
            expr(out, end)?;
            word(out, ", sep=")?;
            expr(out, sep)
        }
    }
}

fn printed(out: &mut Out, written: &Printed) -> Result<(), AllocError> {
    word(out, "print(")?;
    row(out, &written.values)?;
    let neither = matches!(&written.options, PrintOptions::Neither);
    if !neither && !written.values.is_empty() {
        word(out, ", ")?;
    }
    options(out, &written.options)?;
    word(out, ")")
}

fn stage_form(out: &mut Out, form: &StageForm) -> Result<(), AllocError> {
    match form {
        StageForm::Iter => word(out, "iter"),
        StageForm::Print(values) => printed(out, values),
        StageForm::Call(spelling, before, after) => {
            out.extend_from_slice(spelling.as_slice())?;
            word(out, "(")?;
            row(out, before)?;
            if !before.is_empty() {
                word(out, ", ")?;
            }
            word(out, "..., ")?;
            row(out, after)?;
            word(out, ")")
        }
    }
}

fn stages(out: &mut Out, several: &Items<Stage>) -> Result<(), AllocError> {
    'stages: for stage in several.as_slice() {
        match stage.joint {
            Joint::InTurn => word(out, " |> ")?,
            Joint::InParallel => word(out, " ||> ")?,
        }
        stage_form(out, &stage.form)?;
    }
    Ok(())
}

fn par_options(out: &mut Out, written: &ParOptions) -> Result<(), AllocError> {
    let mut between = "(";
    if let Some(threads) = written.num_threads {
        word(out, between)?;
        word(out, "num_threads=")?;
        count(out, threads)?;
        between = ", ";
    }
    if let Some(size) = written.chunk_size {
        word(out, between)?;
        word(out, "chunk_size=")?;
        count(out, u64::from(size))?;
        between = ", ";
    }
    if let Some(schedule) = written.schedule {
        word(out, between)?;
        word(out, "schedule=")?;
        word(out, schedule_word(schedule))?;
        between = ", ";
    }
    if between == ", " {
        word(out, ")")?;
    }
    Ok(())
}

/// A statement without blocks, whose words come first where it has some.
fn simple(out: &mut Out, stmt: &Stmt) -> Result<(), AllocError> {
    match stmt {
        Stmt::Pass(_) => word(out, "pass"),
        Stmt::Break(_) => word(out, "break"),
        Stmt::Continue(_) => word(out, "continue"),
        Stmt::Return(_, None) => word(out, "return"),
        Stmt::Return(_, Some(value)) => {
            word(out, "return ")?;
            expr(out, value)
        }
        Stmt::Yield(_, value) => {
            word(out, "yield ")?;
            expr(out, value)
        }
        Stmt::Raise(_, kind, None) => {
            word(out, "raise ")?;
            name(out, kind)
        }
        Stmt::Raise(_, kind, Some(text)) => {
            word(out, "raise ")?;
            name(out, kind)?;
            word(out, "(")?;
            expr(out, text)?;
            word(out, ")")
        }
        Stmt::Assert(_, condition, None) => {
            word(out, "assert ")?;
            expr(out, condition)
        }
        Stmt::Assert(_, condition, Some(text)) => {
            word(out, "assert ")?;
            expr(out, condition)?;
            word(out, ", ")?;
            expr(out, text)
        }
        Stmt::Annotated(_, variable, written, None) => {
            name(out, variable)?;
            word(out, ": ")?;
            annotation(out, written)
        }
        Stmt::Annotated(_, variable, written, Some(value)) => {
            name(out, variable)?;
            word(out, ": ")?;
            annotation(out, written)?;
            word(out, " = ")?;
            expr(out, value)
        }
        Stmt::Assign(_, written, value) => {
            targets(out, written)?;
            word(out, " = ")?;
            expr(out, value)
        }
        Stmt::Update(_, written, op, value) => {
            target(out, written)?;
            word(out, " ")?;
            word(out, binary_word(*op))?;
            word(out, "= ")?;
            expr(out, value)
        }
        Stmt::Evaluate(_, value) => expr(out, value),
        Stmt::Print(_, values) => printed(out, values),
        Stmt::Pipeline(_, head, several) => {
            expr(out, head)?;
            stages(out, several)
        }
        _ => Ok(()),
    }
}

#[cycle(print_statement)]
pub(super) fn statement(out: &mut Out, depth: u32, stmt: &Stmt) -> Result<(), AllocError> {
    match stmt {
        Stmt::If(_, several, otherwise) => {
            arms(out, depth, several)?;
            if otherwise.is_empty() {
                return Ok(());
            }
            indent(out, depth)?;
            word(out, "else:\n")?;
            body(out, depth, otherwise)
        }
        Stmt::While(_, condition, inner) => {
            indent(out, depth)?;
            word(out, "while ")?;
            expr(out, condition)?;
            word(out, ":\n")?;
            body(out, depth, inner)
        }
        Stmt::For(each) => for_loop(out, depth, each),
        Stmt::Par(_, written, each) => {
            indent(out, depth)?;
            word(out, "@par")?;
            par_options(out, written)?;
            word(out, "\n")?;
            for_loop(out, depth, each)
        }
        _ => {
            indent(out, depth)?;
            simple(out, stmt)?;
            word(out, "\n")
        }
    }
}

/// The statements of a block of the statement so many blocks further in.
#[cycle(print_statement)]
pub(super) fn body(out: &mut Out, depth: u32, stmts: &Items<Stmt>) -> Result<(), AllocError> {
    let inner = depth.saturating_add(1);
    'stmts: for stmt in stmts.as_slice() {
        statement(out, inner, stmt)?;
    }
    Ok(())
}

#[cycle(print_statement)]
fn arms(out: &mut Out, depth: u32, several: &Items<Arm>) -> Result<(), AllocError> {
    let mut is_first = true;
    'arms: for each in several.as_slice() {
        indent(out, depth)?;
        word(out, if is_first { "if " } else { "elif " })?;
        arm(out, depth, each)?;
        is_first = false;
    }
    Ok(())
}

#[cycle(print_statement)]
fn arm(out: &mut Out, depth: u32, each: &Arm) -> Result<(), AllocError> {
    expr(out, &each.condition)?;
    word(out, ":\n")?;
    body(out, depth, &each.body)
}

#[cycle(print_statement)]
fn for_loop(out: &mut Out, depth: u32, each: &For) -> Result<(), AllocError> {
    indent(out, depth)?;
    word(out, "for ")?;
    loop_names(out, &each.names)?;
    word(out, " in ")?;
    expr(out, &each.iterable)?;
    word(out, ":\n")?;
    body(out, depth, &each.body)
}
