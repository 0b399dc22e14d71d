/// Where something stands in a source text.
#[derive(Clone, Copy, Debug, PartialEq, Eq)]
pub struct Span {
    /// The number of bytes before it, from 0.
    pub start: u32,
    /// Its line, from 1.
    pub line: u32,
    /// Its column in the line, from 1, counted in characters.
    pub column: u32,
}

/// The number of a node of a tree. Nodes are numbered from 0 in preorder, parents before their parts and parts from left to right.
#[derive(Clone, Copy, Debug, PartialEq, Eq)]
pub struct NodeId(pub u32);

/// The number of a function of a program, from 0.
#[derive(Clone, Copy, Debug, PartialEq, Eq)]
pub struct FuncId(pub u32);
