ghost use Rattle.std.specs.Prelude.{◌≡◌, ◌+◌};
ghost use Rattle.source_trees.specs.Heights.{capped};

/// The height of a node by that of its highest part, 0 where it has none.
pub(crate) fn above(highest: u32) -> u32
    ensures { result ≡ capped (highest + 1) }
{
    highest.saturating_add(1)
}
