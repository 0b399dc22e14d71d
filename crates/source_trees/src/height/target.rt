ghost use Rattle.std.specs.Prelude.{◌≡◌, map};
ghost use Rattle.source_trees.specs.Parts.{of_loop_names};
ghost use Rattle.source_trees.specs.Heights.{capped, height_of_target, height_of_targets, highest, over_parts};

use super::part::above;
use crate::{LoopNames, Target, Targets};
use sqlite_items::Items;

impl Target {
    /// The height of the tree, or 2^32 - 1 where it is more. A name has height 1.
    pub fn height(&self) -> u32
        ensures { result ≡ capped (height_of_target self.now) }
    {
        match self {
            Target::Name(..) => 1,
            Target::Index(_, object, index) => {
                let object = object.height();
                above(object.max(index.height()))
            }
            Target::Field(_, object, _) => above(object.height()),
        }
    }
}

fn highest_target(targets: &Items<Target>) -> u32
    ensures { result ≡ capped (highest (map height_of_target targets.now)) }
{
    let mut highest = 0u32;
    'targets: for target in targets.as_slice() {
        highest = highest.max(target.height());
    }
    highest
}

impl Targets {
    /// The height of the tree, or 2^32 - 1 where it is more. Targets with commas are one node above them.
    pub fn height(&self) -> u32
        ensures { result ≡ capped (height_of_targets self.now) }
    {
        match self {
            Targets::One(target) => target.height(),
            Targets::Several(_, targets) => above(highest_target(targets)),
        }
    }
}

/// 1, or 0 where there are no names.
pub(crate) fn highest_name(names: &LoopNames) -> u32
    ensures { result ≡ capped (highest (of_loop_names over_parts names.now)) }
{
    match names {
        LoopNames::One(_) => 1,
        LoopNames::Several(names) => { if names.is_empty() { 0 } else { 1 } }
    }
}
