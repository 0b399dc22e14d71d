ghost use Rattle.std.specs.Prelude.{◌<◌, ◌^◌, length, IfOk, IfErr};
ghost use Rattle.grammar_rules.specs.Modules.{Tree};
ghost use Rattle.parse_blocks.specs.Answers.{HoldsEnd, IsPlaceOf};

use codon_base::Or;
use grammar_rules::ParseRefusal;
use indent_lexer::Tokens;
use number_nodes::number_nodes;
use parse_blocks::read_source;
use source_trees::Module;
use std::alloc::Global;

/// The tree of a list of tokens, by the full grammar specification of the Python reference as far as this language has it, and the pipelines and parallel loops of Codon. Its nodes have the numbers 0, 1, 2 and so on in preorder, and each stands at its first character. A statement, function or class at the top has a height of 100 at most.
///
/// Where there is no such tree, the answer is the first token that no source goes on with: `token` is its place in the list from 0, `at` that of its first character. A token after the first `End` is such a token. `Memory` comes only where memory is wanted.
pub fn parse(alloc: Global, tokens: &Tokens) -> Result<Module, Or<ParseRefusal>>
    requires holds_end { HoldsEnd tokens.now }
    requires few { length tokens.now < 2 ^ 30 }
    // The list derives the tree, which is within the limit of height and numbered.
    ensures tree { IfOk result (λ m. Tree tokens.now m) }
    // The token is the first bad one of the list, and the kind says why.
    ensures refusal { IfErr result (IsPlaceOf tokens.now) }
{
    let bare = match read_source(alloc, tokens.as_slice()) {
        Ok(bare) => bare,
        Err(Or::No(refusal)) => return Err(Or::No(refusal)),
        Err(Or::Memory) => return Err(Or::Memory),
    };
    match number_nodes(alloc, bare) {
        Ok(module) => Ok(module),
        Err(_) => Err(Or::Memory),
    }
}
