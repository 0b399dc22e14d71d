ghost use Rattle.std.specs.Prelude.{◌≡◌, map};
ghost use Rattle.source_trees.specs.Parts.{of_optional_annotation};
ghost use Rattle.source_trees.specs.Heights.{capped, height_of_annotation, highest, over_parts};

use super::part::above;
use crate::Annotation;
use sqlite_items::Items;

impl Annotation {
    /// The height of the tree, or 2^32 - 1 where it is more. `int` has height 1, `list[int]` 2.
    #[cycle(annotation_height)]
    #[tactic(auto, using(crate::proofs::Equations::annotation_rules))]
    pub fn height(&self) -> u32
        ensures { result ≡ capped (height_of_annotation self.now) }
    {
        match self {
            Annotation::Int(_) => 1,
            Annotation::Bool(_) => 1,
            Annotation::Str(_) => 1,
            Annotation::None(_) => 1,
            Annotation::Class(..) => 1,
            Annotation::List(_, item) => above(item.get().height()),
            Annotation::Tuple(_, items) => above(highest_annotation(items)),
        }
    }
}

#[cycle(annotation_height)]
fn highest_annotation(annotations: &Items<Annotation>) -> u32
    ensures { result ≡ capped (highest (map height_of_annotation annotations.now)) }
{
    let mut highest = 0u32;
    'annotations: for annotation in annotations.as_slice() {
        highest = highest.max(annotation.height());
    }
    highest
}

/// The height of a type, 0 where there is none.
pub(crate) fn optional_annotation_height(annotation: &Option<Annotation>) -> u32
    ensures { result ≡ capped (highest (of_optional_annotation over_parts annotation.now)) }
{
    match annotation {
        Some(annotation) => annotation.height(),
        None => 0,
    }
}
