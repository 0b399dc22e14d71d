ghost use Rattle.std.specs.Prelude.{◌≡◌, ℕ, ◌<◌, ◌^◌, List, length, ◌⊎◌};
ghost use Rattle.indent_lexer.specs.declared.token.Token.{Token};
ghost use Rattle.indent_lexer.specs.Tokens.{Tokens};
ghost use Rattle.source_trees.specs.declared.item.Module.{Module};
ghost use Rattle.grammar_rules.specs.declared.refusal.ParseRefusal.{ParseRefusal};
ghost use Rattle.grammar_rules.specs.Modules.{Tree as IsTree};
ghost use Rattle.grammar_rules.specs.Refusals.{IsParsePlace};
ghost use Rattle.parse_blocks.specs.Answers.{HoldsEnd, HasNumberedTree, HasPlace};

/// A list of tokens that holds the end of a text has either a tree or a first bad token, and just one of it. So `parse`, where memory is not wanted, answers a tree exactly where the list has one, and then that one; and else the one refusal that the list has.
pub fn law_of_parsing()
    ensures decided { (ts : List Token) → HoldsEnd ts → HasNumberedTree ts ⊎ HasPlace ts }
    ensures apart { (ts : List Token) (m : Module) (p : ParseRefusal) → IsTree ts m → IsParsePlace ts p → ⊥ }
    ensures one_tree { (ts : List Token) (m w : Module) → IsTree ts m → IsTree ts w → w ≡ m }
    ensures one_place { (ts : List Token) (p q : ParseRefusal) → IsParsePlace ts p → IsParsePlace ts q → p ≡ q }
{}

/// The tokens of a text hold its end and are fewer than 2^30, which is all that `parse` asks of them.
pub fn law_of_lexed_tokens()
    ensures holds_end { (b : List ℕ) (ts : List Token) → Tokens b ts → HoldsEnd ts }
    ensures few { (b : List ℕ) (ts : List Token) → Tokens b ts → length ts < 2 ^ 30 }
{}
