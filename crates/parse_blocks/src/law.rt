ghost use Rattle.std.specs.Prelude.{◌≡◌, ℕ, ◌≤◌, Bool, List, ◌⊎◌};
ghost use Rattle.indent_lexer.specs.declared.token.Token.{Token};
ghost use Rattle.indent_lexer.specs.Tokens.{Tokens};
ghost use Rattle.source_trees.specs.declared.item.Module.{Module};
ghost use Rattle.source_trees.specs.declared.expression.Expr.{Expr};
ghost use Rattle.parse_laws.specs.Forms.{any};
ghost use Rattle.parse_laws.specs.Language.{Law};
ghost use Rattle.parse_laws.specs.Limits.{Limited};
ghost use Rattle.parse_laws.specs.Parser.{Parser};
ghost use Rattle.grammar_rules.specs.declared.refusal.ParseRefusal.{ParseRefusal};
ghost use Rattle.grammar_rules.specs.Modules.{Derives, Source, Tree as IsTree};
ghost use Rattle.grammar_rules.specs.Refusals.{IsParsePlace};
ghost use Rattle.grammar_rules.specs.Statements.{IsStmt, IsStmts, IsBlock};
ghost use Rattle.parse_statements.specs.Readers.{Readers, Exact, LowStmts};
ghost use Rattle.parse_blocks.specs.Answers.{IsText, HoldsEnd, DerivesLow, HasTree, HasNumberedTree, HasPlace, HasSource};
ghost use Rattle.parse_blocks.specs.Blocks.{stmt_on, stmts_on, statement, stmts, block};
ghost use Rattle.parse_blocks.specs.Sources.{source};
ghost use Rattle.parse_blocks.specs.Whole.{readers_with, ReadsTargets};

/// The parser of statements is exact at every limit of height, with all the blocks that a statement holds: a list of tokens has at most one tree, which it finds; and where it refuses a token, the tokens before it begin a statement within the limit, and with it they begin none, or none within the limit.
pub fn law_of_statements()
    ensures statement { (r : Readers) → Exact r → (n : ℕ) → 1 ≤ n → (ts : List Token) → Law IsStmt (Limited IsStmt (LowStmts n)) stmt_on ts (statement r n ts) }
    ensures statements { (r : Readers) → Exact r → (n : ℕ) → 1 ≤ n → (ts : List Token) → Law IsStmts (Limited IsStmts (LowStmts n)) stmts_on ts (stmts r n ts) }
    ensures block { (r : Readers) → Exact r → (n : ℕ) → 1 ≤ n → (cont : Token → Bool) (ts : List Token) → Law IsBlock (Limited IsBlock (LowStmts n)) cont ts (block r n ts) }
{}

/// The parser of whole sources is exact: it finds the one tree that a list of tokens has within the limit of height, and else the first bad token.
pub fn law_of_sources()
    ensures exact { (r : Readers) → Exact r → (ts : List Token) → Law Derives DerivesLow any ts (source r ts) }
    ensures decided { (r : Readers) → Exact r → (ts : List Token) → HoldsEnd ts → HasTree ts ⊎ HasPlace ts }
    ensures apart { (ts : List Token) (m : Module) (p : ParseRefusal) → DerivesLow ts m → IsParsePlace ts p → ⊥ }
    ensures one_tree { (r : Readers) → Exact r → (ts : List Token) (m w : Module) → DerivesLow ts m → Derives ts w → w ≡ m }
{}

/// A list of tokens that holds the end of a text has a tree or the place of its first bad token, never both, and one of them at most.
pub fn law_of_trees()
    ensures decided { (r : Readers) → Exact r → (ts : List Token) → HoldsEnd ts → HasNumberedTree ts ⊎ HasPlace ts }
    ensures apart { (ts : List Token) (m : Module) (p : ParseRefusal) → IsTree ts m → IsParsePlace ts p → ⊥ }
    ensures one_tree { (r : Readers) → Exact r → (ts : List Token) (m w : Module) → IsTree ts m → IsTree ts w → w ≡ m }
    ensures one_place { (ts : List Token) (p q : ParseRefusal) → IsParsePlace ts p → IsParsePlace ts q → p ≡ q }
{}

/// The tokens of a source text end with its end, so that the text has a tree or the place of its first bad token; and it has at most one tree.
pub fn law_of_texts()
    ensures ended { (b : List ℕ) (ts : List Token) → Tokens b ts → IsText ts }
    ensures decided { (r : Readers) → Exact r → (b : List ℕ) (ts : List Token) → Tokens b ts → HasSource b ⊎ HasPlace ts }
    ensures one_tree { (r : Readers) → Exact r → (b : List ℕ) (m w : Module) → Source b m → Source b w → w ≡ m }
{}

/// The parsers of expressions and types are exact, so that all that the parser of statements is made of is exact where the parser of what may be assigned to is.
pub fn law_of_readers()
    ensures { (target : ℕ → Parser Token Expr) → ReadsTargets target → Exact (readers_with target) }
{}
