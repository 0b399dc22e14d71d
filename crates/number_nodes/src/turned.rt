ghost use Rattle.std.specs.Prelude.{◌≡◌, IfOk, reverse};

use codon_base::Memory;
use sqlite_items::Items;
use std::alloc::Global;

/// The items from the last to the first, so that popping gives them in order.
pub(crate) fn turned<T: Drop>(alloc: Global, mut items: Items<T>) -> Result<Items<T>, Memory>
    ensures { IfOk result (λ turned. turned ≡ reverse items) }
{
    let mut turned = Items::new(alloc);
    'items: while let Some(last) = items.pop() {
        turned.push(last)?;
    }
    Ok(turned)
}
