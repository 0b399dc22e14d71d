ghost use Rattle.std.specs.Prelude.{◌≡◌, IfOk};

use super::node::clone_spelling;
use crate::Annotation;
use codon_base::Memory;
use sqlite_items::{Boxed, Items};
use std::alloc::Global;

impl Annotation {
    /// An equal type.
    #[cycle(clone_annotation)]
    pub fn try_clone(&self, alloc: Global) -> Result<Annotation, Memory>
        ensures { IfOk result (λ copy. copy ≡ self.now) }
    {
        match self {
            Annotation::Int(node) => Ok(Annotation::Int(*node)),
            Annotation::Bool(node) => Ok(Annotation::Bool(*node)),
            Annotation::Str(node) => Ok(Annotation::Str(*node)),
            Annotation::None(node) => Ok(Annotation::None(*node)),
            Annotation::Class(node, name) => {
                Ok(Annotation::Class(*node, clone_spelling(alloc, name)?))
            }
            Annotation::List(node, item) => {
                let item = Boxed::new(alloc, item.get().try_clone(alloc)?)?;
                Ok(Annotation::List(*node, item))
            }
            Annotation::Tuple(node, items) => {
                Ok(Annotation::Tuple(*node, clone_annotations(alloc, items)?))
            }
        }
    }
}

#[cycle(clone_annotation)]
fn clone_annotations(
    alloc: Global,
    annotations: &Items<Annotation>,
) -> Result<Items<Annotation>, Memory>
    ensures { IfOk result (λ copy. copy ≡ annotations.now) }
{
    let mut copy = Items::new(alloc);
    'annotations: for annotation in annotations.as_slice() {
        copy.push(annotation.try_clone(alloc)?)?;
    }
    Ok(copy)
}

/// An equal type, where there is one.
pub(crate) fn clone_optional_annotation(
    alloc: Global,
    annotation: &Option<Annotation>,
) -> Result<Option<Annotation>, Memory>
    ensures { IfOk result (λ copy. copy ≡ annotation.now) }
{
    match annotation {
        Some(annotation) => Ok(Some(annotation.try_clone(alloc)?)),
        None => Ok(None),
    }
}
