ghost use Rattle.std.specs.Prelude.{◌≡◌};
ghost use Rattle.codon_base.specs.Sequences.{occurs};

use memchr::memmem;

/// Whether one text stands in another. The empty text stands in each.
pub(crate) fn occurs(part: &[u8], text: &[u8]) -> bool
    ensures { result ≡ occurs part.now text.now }
{
    memmem::find(text, part).is_some()
}
