ghost use Rattle.std.specs.Prelude.{IfOk};
ghost use Rattle.number_nodes.specs.Numbers.{NumbersPrinted, NumbersPrintOptions, NumbersStage, NumbersStageForm, NumbersStages};

use crate::both::both;
use crate::expression::{number_expr, number_exprs};
use crate::node::number_node;
use crate::turned::turned;
use codon_base::Memory;
use source_trees::{Expr, PrintOptions, Printed, Stage, StageForm};
use sqlite_items::Items;
use std::alloc::Global;

/// `sep=..` and `end=..`
fn number_sep_end(
    alloc: Global,
    next: &mut u64,
    sep: Expr,
    end_text: Expr,
) -> Result<PrintOptions, Memory>
    ensures { IfOk result (λ numbered. NumbersPrintOptions next.old (PrintOptions.SepEnd sep end_text) numbered next.new) }
{
    let sep = number_expr(alloc, next, sep);
    let end_text = number_expr(alloc, next, end_text);
    let (sep, end_text) = both(sep, end_text)?;
    Ok(PrintOptions::SepEnd(sep, end_text))
}

/// `end=..` and `sep=..`
fn number_end_sep(
    alloc: Global,
    next: &mut u64,
    end_text: Expr,
    sep: Expr,
) -> Result<PrintOptions, Memory>
    ensures { IfOk result (λ numbered. NumbersPrintOptions next.old (PrintOptions.EndSep end_text sep) numbered next.new) }
{
    let end_text = number_expr(alloc, next, end_text);
    let sep = number_expr(alloc, next, sep);
    let (end_text, sep) = both(end_text, sep)?;
    Ok(PrintOptions::EndSep(end_text, sep))
}

fn number_print_options(
    alloc: Global,
    next: &mut u64,
    options: PrintOptions,
) -> Result<PrintOptions, Memory>
    ensures { IfOk result (λ numbered. NumbersPrintOptions next.old options numbered next.new) }
{
    match options {
        PrintOptions::Neither => Ok(PrintOptions::Neither),
        PrintOptions::Sep(sep) => Ok(PrintOptions::Sep(number_expr(alloc, next, sep)?)),
        PrintOptions::End(end) => Ok(PrintOptions::End(number_expr(alloc, next, end)?)),
        PrintOptions::SepEnd(sep, end) => number_sep_end(alloc, next, sep, end),
        PrintOptions::EndSep(end, sep) => number_end_sep(alloc, next, end, sep),
    }
}

pub(crate) fn number_printed(
    alloc: Global,
    next: &mut u64,
    printed: Printed,
) -> Result<Printed, Memory>
    ensures { IfOk result (λ numbered. NumbersPrinted next.old printed numbered next.new) }
{
    let Printed { values, options } = printed;
    let values = number_exprs(alloc, next, values);
    let options = number_print_options(alloc, next, options);
    let (values, options) = both(values, options)?;
    Ok(Printed { values, options })
}

fn number_stage_form(alloc: Global, next: &mut u64, form: StageForm) -> Result<StageForm, Memory>
    ensures { IfOk result (λ numbered. NumbersStageForm next.old form numbered next.new) }
{
    match form {
        StageForm::Iter => Ok(StageForm::Iter),
        StageForm::Call(name, before, after) => {
            let before = number_exprs(alloc, next, before)?;
            Ok(StageForm::Call(name, before, number_exprs(alloc, next, after)?))
        }
        StageForm::Print(printed) => Ok(StageForm::Print(number_printed(alloc, next, printed)?)),
    }
}

fn number_stage(alloc: Global, next: &mut u64, stage: Stage) -> Result<Stage, Memory>
    ensures { IfOk result (λ numbered. NumbersStage next.old stage numbered next.new) }
{
    let Stage { node, joint, form } = stage;
    let node = number_node(next, node);
    let form = number_stage_form(alloc, next, form);
    let (node, form) = both(node, form)?;
    Ok(Stage { node, joint, form })
}

pub(crate) fn number_stages(
    alloc: Global,
    next: &mut u64,
    stages: Items<Stage>,
) -> Result<Items<Stage>, Memory>
    ensures { IfOk result (λ numbered. NumbersStages next.old stages numbered next.new) }
{
    let mut rest = turned(alloc, stages)?;
    let mut numbered = Items::new(alloc);
    'stages: while let Some(stage) = rest.pop() {
        numbered.push(number_stage(alloc, next, stage)?)?;
    }
    Ok(numbered)
}
