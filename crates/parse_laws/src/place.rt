ghost use Rattle.std.specs.Prelude.{◌≡◌, ◌-◌, ◌<◌, ◌≤◌, List, [], length, drop};
ghost use Rattle.parse_laws.specs.Language.{Law, Viable};
ghost use Rattle.parse_laws.specs.Parser.{Stopped};
ghost use Rattle.parse_laws.specs.Forms.{any};
ghost use Rattle.parse_laws.specs.Place.{IsFirstBad};

use crate::Cause;

/// A language of whole lists of tokens, and the part of it that is within a limit.
pub trait Grammar {
    type Token;

    type Tree;

    /// The list spells the tree.
    ghost spells: { List Self.Token → Self.Tree → Type 0 };

    /// The list spells the tree, and the tree is within the limit.
    ghost spells_within: { List Self.Token → Self.Tree → Type 0 };
}

/// The first token that a list of tokens does not go on with.
#[derive(Clone, Copy, Debug, PartialEq, Eq)]
pub struct BadToken {
    pub cause: Cause,
    /// Its place in the list, from 0.
    pub place: usize,
}

/// The token that a parser of whole lists refused, from how many tokens were left with it. A parser that meets its law
/// refuses the first bad token: the tokens before it begin a text within the limit, and with it they begin none.
pub fn bad_token<G: Grammar>(tokens: &[G::Token], left: usize, cause: Cause) -> BadToken
    requires nonempty { Viable G.spells_within [] }
    requires some { 0 < left }
    requires fits { left ≤ length tokens.now }
    requires refused { Law G.spells G.spells_within any tokens.now (Stopped cause (drop (length tokens.now - left) tokens.now)) }
    ensures cause { result.cause ≡ cause }
    ensures place { result.place < length tokens.now }
    ensures first { IsFirstBad G.spells G.spells_within result.cause tokens.now result.place }
{
    BadToken {
        cause,
        place: tokens.len() - left,
    }
}
