use crate::Instrs;
use codon_base::Text;
use sqlite_items::Items;

/// Texts by their number.
pub type Texts = Items<Text>;

/// What a function is for.
#[derive(Clone, Copy, Debug, PartialEq, Eq)]
pub enum FunctionKind {
    /// The statements of the module, which is function 0.
    Module,
}

/// A function of the machine.
#[derive(Drop)]
pub struct Function {
    pub kind: FunctionKind,
    pub code: Instrs,
}

/// Functions by their number.
pub type Functions = Items<Function>;

/// A program of the machine: its table of texts, how many globals it has, and its functions. A run begins with function 0.
#[derive(Drop)]
pub struct Module {
    pub texts: Texts,
    pub globals: u32,
    pub functions: Functions,
}
