ghost use Rattle.std.specs.Prelude.{◌≡◌, ℕ, ◌≤◌, Bool, List};
ghost use Rattle.indent_lexer.specs.declared.token.Token.{Token};
ghost use Rattle.parse_laws.specs.Language.{Law};
ghost use Rattle.parse_laws.specs.Limits.{Limited};
ghost use Rattle.grammar_rules.specs.Simple.{IsSimple};
ghost use Rattle.grammar_rules.specs.Statements.{IsLine};
ghost use Rattle.parse_statements.specs.Readers.{Readers, Exact, LowStmt, LowStmts};
ghost use Rattle.parse_statements.specs.Heads.{simple_on};
ghost use Rattle.parse_statements.specs.Simple.{simple};
ghost use Rattle.parse_statements.specs.Lines.{line};

/// The parser of simple statements is exact at every limit of height: a list of tokens has at most one tree, which it finds; and where it refuses a token, the tokens before it begin a statement within the limit, and with it they begin none, or none within the limit.
pub fn law_of_simple_statements()
    ensures { (r : Readers) → Exact r → (n : ℕ) → 1 ≤ n → (ts : List Token) → Law IsSimple (Limited IsSimple (LowStmt n)) simple_on ts (simple r n ts) }
{}

/// So is the parser of lines, whatever may follow the end of the line.
pub fn law_of_lines()
    ensures { (r : Readers) → Exact r → (n : ℕ) → 1 ≤ n → (cont : Token → Bool) (ts : List Token) → Law IsLine (Limited IsLine (LowStmts n)) cont ts (line r n ts) }
{}
