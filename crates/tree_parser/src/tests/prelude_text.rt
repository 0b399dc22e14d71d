//! The tree that stands for the prelude is the one that its text has, with its numbers and places.

use super::shape::Shape;
use super::tree_of;
use source_trees::prelude;
use std::test::Fail;

/// The functions that stand before each source.
const TEXT: &str = "\
def abs(x: int) -> int:
    return -x if x < 0 else x
def sum(xs: list[int]) -> int:
    t = 0
    for x in xs:
        t += x
    return t
def any(xs):
    for x in xs:
        if x:
            return True
    return False
def all(xs):
    for x in xs:
        if not x:
            return False
    return True
def enumerate(xs):
    i = 0
    for x in xs:
        yield i, x
        i += 1
def zip(xs, ys):
    i = 0
    while i < len(xs) and i < len(ys):
        yield xs[i], ys[i]
        i += 1
def reversed(xs):
    i = len(xs) - 1
    while i >= 0:
        yield xs[i]
        i -= 1
";

#[test]
fn the_prelude_is_the_tree_of_its_text(rt: HostRuntime) -> Result<(), Fail> {
    let alloc = rt.alloc();
    let module = tree_of(&rt, alloc, TEXT);
    let built = prelude(alloc)?;
    let shape = Shape::placed(alloc, &module)?;
    let wanted = Shape::placed(alloc, &built)?;
    assert!(rt; shape.as_bytes() == wanted.as_bytes());
    Ok(())
}
