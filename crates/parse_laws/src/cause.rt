/// Why a parser refuses a token.
#[derive(Clone, Copy, Debug, PartialEq, Eq)]
pub enum Cause {
    /// No text goes on with it.
    Unexpected,
    /// Texts go on with it, and all of them are higher than the limit.
    TooDeep,
}
