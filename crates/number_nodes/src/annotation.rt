ghost use Rattle.std.specs.Prelude.{IfOk};
ghost use Rattle.number_nodes.specs.Numbers.{NumbersAnnotation, NumbersAnnotations, NumbersOptionalAnnotation};

use crate::node::number_node;
use crate::turned::turned;
use codon_base::Memory;
use source_trees::Annotation;
use sqlite_items::{Boxed, Items};
use std::alloc::Global;

#[cycle(number_annotation)]
pub(crate) fn number_annotation(
    alloc: Global,
    next: &mut u64,
    annotation: Annotation,
) -> Result<Annotation, Memory>
    ensures { IfOk result (λ numbered. NumbersAnnotation next.old annotation numbered next.new) }
{
    match annotation {
        Annotation::Int(node) => Ok(Annotation::Int(number_node(next, node)?)),
        Annotation::Bool(node) => Ok(Annotation::Bool(number_node(next, node)?)),
        Annotation::Str(node) => Ok(Annotation::Str(number_node(next, node)?)),
        Annotation::None(node) => Ok(Annotation::None(number_node(next, node)?)),
        Annotation::Class(node, name) => Ok(Annotation::Class(number_node(next, node)?, name)),
        Annotation::List(node, item) => {
            let node = number_node(next, node)?;
            let item = number_annotation(alloc, next, item.into_inner())?;
            Ok(Annotation::List(node, Boxed::new(alloc, item)?))
        }
        Annotation::Tuple(node, items) => {
            let node = number_node(next, node)?;
            Ok(Annotation::Tuple(node, number_annotations(alloc, next, items)?))
        }
    }
}

#[cycle(number_annotation)]
fn number_annotations(
    alloc: Global,
    next: &mut u64,
    annotations: Items<Annotation>,
) -> Result<Items<Annotation>, Memory>
    ensures { IfOk result (λ numbered. NumbersAnnotations next.old annotations numbered next.new) }
{
    let mut rest = turned(alloc, annotations)?;
    let mut numbered = Items::new(alloc);
    'annotations: while let Some(annotation) = rest.pop() {
        numbered.push(number_annotation(alloc, next, annotation)?)?;
    }
    Ok(numbered)
}

/// Where a type is written.
pub(crate) fn number_optional_annotation(
    alloc: Global,
    next: &mut u64,
    annotation: Option<Annotation>,
) -> Result<Option<Annotation>, Memory>
    ensures { IfOk result (λ numbered. NumbersOptionalAnnotation next.old annotation numbered next.new) }
{
    match annotation {
        Some(annotation) => Ok(Some(number_annotation(alloc, next, annotation)?)),
        None => Ok(None),
    }
}
