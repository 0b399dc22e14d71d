use codon_base::{NodeId, Span, Spelling};

/// The number of a node and the place of its first character.
#[derive(Clone, Copy, Debug, PartialEq, Eq)]
pub struct Node {
    pub id: NodeId,
    pub at: Span,
}

/// A name where it stands, as it is spelled in UTF-8. It is a node without parts.
#[derive(Drop)]
pub struct Name {
    pub node: Node,
    pub spelling: Spelling,
}
