use crate::names::Names;
use code_module::Instr;

/// The code so far, and the numbers of the names that were assigned.
#[derive(Drop)]
pub(crate) struct Emitter<'t> {
    pub(crate) code: Vec<Instr>,
    pub(crate) names: Names<'t>,
}
