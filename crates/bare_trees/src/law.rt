ghost use Rattle.std.specs.Prelude.{◌≡◌, List};
ghost use Rattle.indent_lexer.specs.declared.token.Token.{Token};
ghost use Rattle.source_trees.specs.declared.item.Module.{Module as Tree};
ghost use Rattle.source_trees.specs.Bare.{bare_module};
ghost use Rattle.source_trees.specs.Heights.{height_of};
ghost use Rattle.source_trees.specs.Nodes.{IsNumbered};
ghost use Rattle.grammar_rules.specs.Modules.{Derives};
ghost use Rattle.bare_trees.specs.Numbering.{HasNumbered};

/// A tree that a list of tokens derives is bare.
pub fn law_of_derived_trees()
    ensures { (ts : List Token) (m : Tree) → Derives ts m → bare_module m ≡ m }
{}

/// Trees that are numbered and are the same but for their numbers are one.
pub fn law_of_numbered_trees()
    ensures { (one other : Tree) → bare_module one ≡ bare_module other → IsNumbered one → IsNumbered other → one ≡ other }
{}

/// A tree is as high as its bare tree.
pub fn law_of_bare_heights()
    ensures { (m : Tree) → height_of (bare_module m) ≡ height_of m }
{}

/// Each tree has a numbered one that is the same but for the numbers.
pub fn law_of_numbering()
    ensures { (m : Tree) → HasNumbered m }
{}
