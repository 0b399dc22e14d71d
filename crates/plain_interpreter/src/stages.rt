ghost use Rattle.std.specs.Prelude.{◌≡◌, ◌<◌, [], drop, length, MatchOption};
ghost use Rattle.meaning_rules.specs.Pipelines as spec;

use source_trees::{Joint, Stage};

/// The place of the first `||>` from a place on.
pub(crate) fn parallel_place(stages: &[Stage], from: usize) -> Option<usize>
    ensures { MatchOption result (spec.parallel_part (drop from stages.now) ≡ []) (λ place. (place < length stages.now) × (spec.parallel_part (drop from stages.now) ≡ drop place stages.now)) }
{
    let mut place = from;
    'stages: while place < stages.len() {
        if let Some(stage) = stages.get(place) {
            if let Joint::InParallel = stage.joint {
                return Some(place);
            }
        }
        place += 1;
    }
    None
}
