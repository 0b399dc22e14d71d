ghost use Rattle.std.specs.Prelude.{◌≡◌, IfOk};

use super::node::clone_spelling;
use crate::{Target, Targets};
use codon_base::Memory;
use sqlite_items::Items;
use std::alloc::Global;

impl Target {
    /// An equal target.
    pub fn try_clone(&self, alloc: Global) -> Result<Target, Memory>
        ensures { IfOk result (λ copy. copy ≡ self.now) }
    {
        match self {
            Target::Name(node, name) => Ok(Target::Name(*node, clone_spelling(alloc, name)?)),
            Target::Index(node, object, index) => {
                let object = object.try_clone(alloc)?;
                let index = index.try_clone(alloc)?;
                Ok(Target::Index(*node, object, index))
            }
            Target::Field(node, object, name) => {
                let object = object.try_clone(alloc)?;
                let name = clone_spelling(alloc, name)?;
                Ok(Target::Field(*node, object, name))
            }
        }
    }
}

fn clone_targets(alloc: Global, targets: &Items<Target>) -> Result<Items<Target>, Memory>
    ensures { IfOk result (λ copy. copy ≡ targets.now) }
{
    let mut copy = Items::new(alloc);
    'targets: for target in targets.as_slice() {
        copy.push(target.try_clone(alloc)?)?;
    }
    Ok(copy)
}

impl Targets {
    /// Equal targets.
    pub fn try_clone(&self, alloc: Global) -> Result<Targets, Memory>
        ensures { IfOk result (λ copy. copy ≡ self.now) }
    {
        match self {
            Targets::One(target) => Ok(Targets::One(target.try_clone(alloc)?)),
            Targets::Several(node, targets) => {
                Ok(Targets::Several(*node, clone_targets(alloc, targets)?))
            }
        }
    }
}
