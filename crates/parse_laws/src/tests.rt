use crate::{BadToken, Cause, Grammar, bad_token};

/// The language of the one list that has a 7.
struct Seven;

impl Grammar for Seven {
    ghost use Rattle.std.specs.Prelude.{◌≡◌, [], ◌∷◌};

    type Token = u8;

    type Tree = bool;

    ghost spells = { λ list _. list ≡ 7 ∷ [] };

    ghost spells_within = { λ list _. list ≡ 7 ∷ [] };
}

#[test]
fn a_refused_token_has_a_place(rt: HostRuntime) {
    let found = bad_token::<Seven>([1].as_slice(), 1, Cause::Unexpected);
    let wanted = BadToken {
        cause: Cause::Unexpected,
        place: 0,
    };
    assert_eq!(rt; found, wanted);
}
