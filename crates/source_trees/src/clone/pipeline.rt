ghost use Rattle.std.specs.Prelude.{◌≡◌, IfOk};

use super::expression::clone_exprs;
use super::node::clone_spelling;
use crate::{PrintOptions, Printed, Stage, StageForm};
use codon_base::Memory;
use sqlite_items::Items;
use std::alloc::Global;

impl PrintOptions {
    /// Equal options.
    pub fn try_clone(&self, alloc: Global) -> Result<PrintOptions, Memory>
        ensures { IfOk result (λ copy. copy ≡ self.now) }
    {
        match self {
            PrintOptions::Neither => Ok(PrintOptions::Neither),
            PrintOptions::Sep(sep) => Ok(PrintOptions::Sep(sep.try_clone(alloc)?)),
            PrintOptions::End(end) => Ok(PrintOptions::End(end.try_clone(alloc)?)),
            PrintOptions::SepEnd(sep, end) => {
                let sep = sep.try_clone(alloc)?;
                let end = end.try_clone(alloc)?;
                Ok(PrintOptions::SepEnd(sep, end))
            }
            PrintOptions::EndSep(end, sep) => {
                let end = end.try_clone(alloc)?;
                let sep = sep.try_clone(alloc)?;
                Ok(PrintOptions::EndSep(end, sep))
            }
        }
    }
}

impl Printed {
    /// Equal values and options.
    pub fn try_clone(&self, alloc: Global) -> Result<Printed, Memory>
        ensures { IfOk result (λ copy. copy ≡ self.now) }
    {
        Ok(Printed {
            values: clone_exprs(alloc, &self.values)?,
            options: self.options.try_clone(alloc)?,
        })
    }
}

impl StageForm {
    /// An equal form.
    pub fn try_clone(&self, alloc: Global) -> Result<StageForm, Memory>
        ensures { IfOk result (λ copy. copy ≡ self.now) }
    {
        match self {
            StageForm::Iter => Ok(StageForm::Iter),
            StageForm::Call(name, before, after) => {
                let name = clone_spelling(alloc, name)?;
                let before = clone_exprs(alloc, before)?;
                let after = clone_exprs(alloc, after)?;
                Ok(StageForm::Call(name, before, after))
            }
            StageForm::Print(printed) => Ok(StageForm::Print(printed.try_clone(alloc)?)),
        }
    }
}

impl Stage {
    /// An equal stage.
    pub fn try_clone(&self, alloc: Global) -> Result<Stage, Memory>
        ensures { IfOk result (λ copy. copy ≡ self.now) }
    {
        Ok(Stage {
            node: self.node,
            joint: self.joint,
            form: self.form.try_clone(alloc)?,
        })
    }
}

/// Equal stages in the same order.
pub(crate) fn clone_stages(alloc: Global, stages: &Items<Stage>) -> Result<Items<Stage>, Memory>
    ensures { IfOk result (λ copy. copy ≡ stages.now) }
{
    let mut copy = Items::new(alloc);
    'stages: for stage in stages.as_slice() {
        copy.push(stage.try_clone(alloc)?)?;
    }
    Ok(copy)
}
