ghost use Rattle.std.specs.Prelude.{IfOk};
ghost use Rattle.number_nodes.specs.Numbers.{NumbersNode, NumbersName};

use codon_base::{Memory, NodeId};
use source_trees::{Name, Node};

/// The node with the next number. Numbers end at 2^32 - 1: after it none is left.
pub(crate) fn number_node(next: &mut u64, node: Node) -> Result<Node, Memory>
    ensures { IfOk result (λ numbered. NumbersNode next.old node numbered next.new) }
{
    let Ok(number) = u32::try_from(*next) else {
        return Err(Memory);
    };
    *next += 1;
    Ok(Node {
        id: NodeId(number),
        at: node.at,
    })
}

pub(crate) fn number_name(next: &mut u64, name: Name) -> Result<Name, Memory>
    ensures { IfOk result (λ numbered. NumbersName next.old name numbered next.new) }
{
    let Name { node, spelling } = name;
    Ok(Name {
        node: number_node(next, node)?,
        spelling,
    })
}
