ghost use Rattle.std.specs.Prelude.{◌≡◌, IfOk};

use crate::{LoopNames, Name};
use codon_base::{Memory, Spelling};
use sqlite_items::Items;
use std::alloc::Global;

/// An equal spelling.
pub(crate) fn clone_spelling(alloc: Global, spelling: &Spelling) -> Result<Spelling, Memory>
    ensures { IfOk result (λ copy. copy ≡ spelling.now) }
{
    Ok(Items::from_slice(alloc, spelling.as_slice())?)
}

impl Name {
    /// An equal name.
    pub fn try_clone(&self, alloc: Global) -> Result<Name, Memory>
        ensures { IfOk result (λ copy. copy ≡ self.now) }
    {
        Ok(Name {
            node: self.node,
            spelling: clone_spelling(alloc, &self.spelling)?,
        })
    }
}

/// Equal names in the same order.
fn clone_names(alloc: Global, names: &Items<Name>) -> Result<Items<Name>, Memory>
    ensures { IfOk result (λ copy. copy ≡ names.now) }
{
    let mut copy = Items::new(alloc);
    'names: for name in names.as_slice() {
        copy.push(name.try_clone(alloc)?)?;
    }
    Ok(copy)
}

impl LoopNames {
    /// Equal names.
    pub fn try_clone(&self, alloc: Global) -> Result<LoopNames, Memory>
        ensures { IfOk result (λ copy. copy ≡ self.now) }
    {
        match self {
            LoopNames::One(name) => Ok(LoopNames::One(name.try_clone(alloc)?)),
            LoopNames::Several(names) => Ok(LoopNames::Several(clone_names(alloc, names)?)),
        }
    }
}
