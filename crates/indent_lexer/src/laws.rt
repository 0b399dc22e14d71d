ghost use Rattle.std.specs.Prelude.{◌≡◌, ℕ, List, length, ◌≤◌};
ghost use Rattle.codon_base.specs.declared.source.Span.{Span};
ghost use Rattle.indent_lexer.specs.declared.token.Token.{Token};
ghost use Rattle.indent_lexer.specs.declared.token.LexKind.{LexKind};
ghost use Rattle.indent_lexer.specs.declared.token.LexRefusal.{LexRefusal};
ghost use Rattle.indent_lexer.specs.Tokens.{Tokens, LexPlace};

/// A text has at most one list of tokens, and one that has a list has no refusal. Refusals are one too.
pub fn at_most_one_reading()
    ensures list { (b : List ℕ) (t u : List Token) → Tokens b t → Tokens b u → t ≡ u }
    ensures apart { (b : List ℕ) (t : List Token) (r : LexRefusal) → Tokens b t → LexPlace b r → ⊥ }
    ensures refusal { (b : List ℕ) (r s : LexRefusal) → LexPlace b r → LexPlace b s → r ≡ s }
{}
