ghost use Rattle.std.specs.Prelude.{◌≡◌};
ghost use Rattle.outer_world.specs.Count.{raised};

/// The count after one more, which stands still at the greatest `u64`.
pub fn raise(count: u64) -> u64
    ensures { result ≡ raised count }
{
    count.saturating_add(1)
}
