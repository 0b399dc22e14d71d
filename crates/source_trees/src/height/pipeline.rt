ghost use Rattle.std.specs.Prelude.{◌≡◌, map};
ghost use Rattle.source_trees.specs.Parts.{of_print_options, of_stage_form};
ghost use Rattle.source_trees.specs.Heights.{capped, height_of_printed, height_of_stage, highest, over_parts};

use super::expression::highest_expr;
use super::part::above;
use crate::{PrintOptions, Printed, Stage, StageForm};
use sqlite_items::Items;

/// The greatest height of the options, 0 where there are none.
fn highest_option(options: &PrintOptions) -> u32
    ensures { result ≡ capped (highest (of_print_options over_parts options.now)) }
{
    match options {
        PrintOptions::Neither => 0,
        PrintOptions::Sep(sep) => sep.height(),
        PrintOptions::End(end) => end.height(),
        PrintOptions::SepEnd(sep, end) => {
            let sep = sep.height();
            sep.max(end.height())
        }
        PrintOptions::EndSep(end, sep) => {
            let end = end.height();
            end.max(sep.height())
        }
    }
}

/// The greatest height of what stands in the brackets of `print(..)`, 0 where that is nothing.
#[tactic(auto, using(crate::proofs::Highest::highest_rules))]
pub(crate) fn highest_printed(printed: &Printed) -> u32
    ensures { result ≡ capped (height_of_printed printed.now) }
{
    let values = highest_expr(&printed.values);
    values.max(highest_option(&printed.options))
}

#[tactic(auto, using(crate::proofs::Highest::highest_rules))]
fn highest_in_form(form: &StageForm) -> u32
    ensures { result ≡ capped (highest (of_stage_form over_parts form.now)) }
{
    match form {
        StageForm::Iter => 0,
        StageForm::Call(_, before, after) => {
            let before = highest_expr(before);
            before.max(highest_expr(after))
        }
        StageForm::Print(printed) => highest_printed(printed),
    }
}

impl Stage {
    /// The height of the tree, or 2^32 - 1 where it is more. A stage is one node with its name.
    pub fn height(&self) -> u32
        ensures { result ≡ capped (height_of_stage self.now) }
    {
        above(highest_in_form(&self.form))
    }
}

pub(crate) fn highest_stage(stages: &Items<Stage>) -> u32
    ensures { result ≡ capped (highest (map height_of_stage stages.now)) }
{
    let mut highest = 0u32;
    'stages: for stage in stages.as_slice() {
        highest = highest.max(stage.height());
    }
    highest
}
