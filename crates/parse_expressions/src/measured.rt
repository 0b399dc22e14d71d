//! Trees, rows of trees and comparisons with their heights, so that no tree is walked.
#![tactic(auto, using(crate::proofs::Heights::known_heights))]

ghost use Rattle.std.specs.Prelude.{◌≡◌, ◌++◌, [], ◌∷◌, ◌≢◌, IfOk, IfErr, IsTrue, ◌↔◌, map, length, min};
ghost use Rattle.source_trees.specs.Heights.{height_of_expr, highest, over_parts};
ghost use Rattle.source_trees.specs.Parts.{of_comparison};
ghost use Rattle.grammar_rules.specs.Expressions.{node_of};
ghost use Rattle.parse_expressions.specs.Targets.{is_pointed};

mod trees;

use source_trees::{Comparator, Comparison, Expr, Node};
use sqlite_items::{Boxed, Items};
use std::alloc::{AllocError, Global};
use std::marker::Model;
pub use trees::{
    binary, bracketed, call, compare, comprehension, conditional, falsity, field, height_of, index,
    inverse, joined, list, method, name_tree, nothing, number, slice, text, truth, tuple, unary,
};

/// A tree and its height, up to the greatest number of its type. Contracts see the tree. It is two words, so that what
/// reads expressions moves and drops little.
#[derive(Drop)]
pub struct Measured {
    tree: Boxed<Expr>,
    height: usize,
}

impl Model for Measured {
    ghost use Rattle.std.specs.Prelude.{◌≡◌, min};
    ghost use Rattle.source_trees.specs.declared.expression.Expr.{Expr};
    ghost use Rattle.source_trees.specs.Heights.{height_of_expr};
    ghost use Rattle.source_trees.specs.contracts.expression.Expr as e;
    ghost use Rattle.std.specs.Coded.{codes};
    ghost use Rattle.std.below.core.specs.declared.int.usize.TheConstants.{MAX};

    ghost Value = { Expr };

    ghost coded = { Prim.hlevel (codes, e.the_row.coded) };

    ghost view = { λ m. m.tree };

    ghost invariant = { λ m. m.height ≡ min (height_of_expr m.tree) MAX };
}

/// Trees side by side, and the greatest of their heights. Contracts see the list of the trees.
#[derive(Drop)]
pub struct Row {
    items: Items<Expr>,
    height: usize,
}

impl Model for Row {
    ghost use Rattle.std.specs.Prelude.{◌≡◌, List, map, min};
    ghost use Rattle.source_trees.specs.declared.expression.Expr.{Expr};
    ghost use Rattle.source_trees.specs.Heights.{highest, height_of_expr};
    ghost use Rattle.source_trees.specs.contracts.expression.Expr as e;
    ghost use Rattle.std.specs.Coded.{codes};
    ghost use Rattle.std.below.core.specs.declared.int.usize.TheConstants.{MAX};

    ghost Value = { List Expr };

    ghost coded = { Prim.hlevel (codes, e.the_row.coded) };

    ghost view = { λ r. r.items };

    ghost invariant = { λ r. r.height ≡ min (highest (map height_of_expr r.items)) MAX };
}

/// Comparisons side by side, and the greatest height of their right operands. Contracts see the list of the comparisons.
#[derive(Drop)]
pub struct Comparisons {
    items: Items<Comparison>,
    height: usize,
}

impl Model for Comparisons {
    ghost use Rattle.std.specs.Prelude.{◌≡◌, List, map, min};
    ghost use Rattle.source_trees.specs.declared.expression.Comparison.{Comparison};
    ghost use Rattle.source_trees.specs.Heights.{highest, over_parts};
    ghost use Rattle.source_trees.specs.Parts.{of_comparison};
    ghost use Rattle.source_trees.specs.contracts.expression.Expr as e;
    ghost use Rattle.std.specs.Coded.{codes};
    ghost use Rattle.std.below.core.specs.declared.int.usize.TheConstants.{MAX};

    ghost Value = { List Comparison };

    ghost coded = { Prim.hlevel (codes, e.the_row.coded) };

    ghost view = { λ r. r.items };

    ghost invariant = { λ r. r.height ≡ min (highest (map (of_comparison over_parts) r.items)) MAX };
}

impl Measured {
    /// The tree.
    pub fn into_tree(self) -> Expr
        ensures { result ≡ self }
    {
        let Measured { tree, height: _ } = self;
        tree.into_inner()
    }

    /// The tree as a part of another.
    fn into_part(self) -> Boxed<Expr>
        ensures { result ≡ self }
    {
        let Measured { tree, height: _ } = self;
        tree
    }

    /// The node that the tree begins with.
    #[tactic(auto, unfolding(grammar_rules::specs::Expressions::node_of))]
    pub fn node(&self) -> Node
        ensures { result ≡ node_of self.now }
    {
        match self.tree.get() {
            Expr::Name(node, _) => *node,
            Expr::Number(node, _) => *node,
            Expr::Text(node, _) => *node,
            Expr::True(node) => *node,
            Expr::False(node) => *node,
            Expr::None(node) => *node,
            Expr::Bracketed(node, _) => *node,
            Expr::Tuple(node, _, _) => *node,
            Expr::List(node, _) => *node,
            Expr::Comprehension(node, _, _, _, _) => *node,
            Expr::Conditional(node, _, _, _) => *node,
            Expr::Or(node, _) => *node,
            Expr::And(node, _) => *node,
            Expr::Not(node, _) => *node,
            Expr::Compare(node, _, _) => *node,
            Expr::Unary(node, _, _) => *node,
            Expr::Binary(node, _, _, _) => *node,
            Expr::Call(node, _, _) => *node,
            Expr::MethodCall(node, _, _, _, _) => *node,
            Expr::Index(node, _, _) => *node,
            Expr::Slice(node, _, _, _) => *node,
            Expr::Field(node, _, _) => *node,
        }
    }

    /// Whether it is a name, an index or a field, to which an assignment may write.
    #[tactic(auto, unfolding(crate::specs::Targets::target_of))]
    pub fn is_target(&self) -> bool
        ensures { result ≡ is_pointed self.now }
    {
        match self.tree.get() {
            Expr::Name(_, _) => true,
            Expr::Index(_, _, _) => true,
            Expr::Field(_, _, _) => true,
            _ => false,
        }
    }

    /// The height of the tree.
    pub fn height(&self) -> usize
        ensures { result ≡ min (height_of_expr self.now) usize.MAX }
    {
        self.height
    }
}

impl Row {
    /// A row of no trees.
    pub fn new(alloc: Global) -> Row
        ensures { result ≡ [] }
    {
        Row {
            items: Items::new(alloc),
            height: 0,
        }
    }

    /// How many trees there are.
    pub fn len(&self) -> usize
        ensures { result ≡ length self.now }
    {
        self.items.len()
    }

    /// The greatest height.
    pub fn height(&self) -> usize
        ensures { result ≡ min (highest (map height_of_expr self.now)) usize.MAX }
    {
        self.height
    }

    /// Puts the trees of another row at the end.
    #[tactic(auto, using(crate::proofs::Lows::highest_joined))]
    pub fn append(self, more: Row) -> Result<Row, AllocError>
        ensures { IfOk result (λ r. r ≡ self ++ more) }
    {
        let Row { mut items, height } = self;
        let height = height.max(more.height);
        items.append(more.items)?;
        Ok(Row { items, height })
    }

    /// Puts a tree at the end.
    #[tactic(auto, using(crate::proofs::Lows::highest_push))]
    pub fn push(self, item: Measured) -> Result<Row, AllocError>
        ensures { IfOk result (λ r. r ≡ self ++ item ∷ []) }
    {
        let Row { mut items, height } = self;
        let height = height.max(item.height());
        items.push(item.into_tree())?;
        Ok(Row { items, height })
    }
}

impl Row {
    /// The only tree of the row, or the row back where it is not of one tree.
    pub fn single(self, alloc: Global) -> Result<Result<Measured, Row>, AllocError>
        ensures one { IfOk result (λ r. IfOk r (λ x. self ≡ x ∷ [])) }
        ensures other { IfOk result (λ r. IfErr r (λ row. (row ≡ self) × (length self ≢ 1))) }
    {
        if self.items.len() != 1 {
            return Ok(Err(self));
        }
        let Row { mut items, height } = self;
        match items.pop() {
            Some(tree) => {
                let tree = Boxed::new(alloc, tree)?;
                Ok(Ok(Measured { tree, height }))
            }
            None => Ok(Err(Row { items, height })),
        }
    }
}

impl Comparisons {
    /// No comparisons yet.
    pub fn new(alloc: Global) -> Comparisons
        ensures { result ≡ [] }
    {
        Comparisons {
            items: Items::new(alloc),
            height: 0,
        }
    }

    /// The greatest height of a right operand.
    pub fn height(&self) -> usize
        ensures { result ≡ min (highest (map (of_comparison over_parts) self.now)) usize.MAX }
    {
        self.height
    }

    /// Whether there is none.
    pub fn is_empty(&self) -> bool
        ensures { IsTrue result ↔ (self.now ≡ []) }
    {
        self.items.is_empty()
    }

    /// Puts a comparison at the end.
    #[tactic(auto, using(crate::proofs::Lows::comparisons_push))]
    pub fn push(self, comparator: Comparator, right: Measured) -> Result<Comparisons, AllocError>
        ensures { IfOk result (λ r. r ≡ self ++ (record { comparator = comparator; right = right }) ∷ []) }
    {
        let Comparisons { mut items, height } = self;
        let height = height.max(right.height());
        items.push(Comparison {
            comparator,
            right: right.into_tree(),
        })?;
        Ok(Comparisons { items, height })
    }
}
