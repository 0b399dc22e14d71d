ghost use Rattle.std.specs.Prelude.{◌≡◌, IfOk, Ok};

use codon_base::Memory;

/// Both parts, where both have their numbers. What makes trees of parts takes them so, and drops no tree itself.
pub(crate) fn both<A: Drop, B: Drop>(
    first: Result<A, Memory>,
    second: Result<B, Memory>,
) -> Result<(A, B), Memory>
    ensures { IfOk result (λ pair. (first ≡ Ok pair.0) × (second ≡ Ok pair.1)) }
{
    let first = first?;
    let second = second?;
    Ok((first, second))
}
