ghost use Rattle.std.specs.Prelude.{◌≡◌, ℕ, List, [], ◌∷◌, ◌++◌, true};
ghost use Rattle.indent_lexer.specs.declared.token.Token.{Token};
ghost use Rattle.source_trees.specs.declared.expression.Expr.{Expr};
ghost use Rattle.source_trees.specs.declared.item.Annotation.{Annotation};
ghost use Rattle.parse_laws.specs.Language.{Law, Viable};
ghost use Rattle.parse_laws.specs.Limits.{Limited};
ghost use Rattle.parse_laws.specs.Parser.{sees};
ghost use Rattle.grammar_rules.specs.Types.{IsType};
ghost use Rattle.parse_expressions.specs.declared.form.Form.{Form};
ghost use Rattle.parse_expressions.specs.Forms.{Spells, Low, looseness, opening, begins, carries};
ghost use Rattle.parse_expressions.specs.Reading.{is_square, read};
ghost use Rattle.parse_expressions.specs.TypeReading.{LowType, type_begins, read_type};
ghost use Rattle.parse_expressions.specs.Targets.{IsPointed};
ghost use Rattle.parse_expressions.specs.TargetReading.{read_target};

/// The parser of each form of expression is exact at every height: what it reads is the one tree of its tokens, and the
/// token that it refuses is the first that no expression goes on with, within the height or at all.
pub fn law_of_expressions()
    ensures exact { (room : ℕ) (f : Form) (ts : List Token) → Law (Spells f) (Limited (Spells f) (Low room)) (carries (looseness f)) ts (read room f ts) }
    ensures opens { (f : Form) (a : List Token) (x : Expr) → Spells f a x → (s : List Token) → sees (begins (opening f)) (a ++ s) ≡ true }
    ensures viable { (f : Form) (t : Token) → begins (opening f) t ≡ true → Viable (Spells f) (t ∷ []) }
{}

/// The parser of types is exact at every height, in the same way.
pub fn law_of_types()
    ensures exact { (room : ℕ) (ts : List Token) → Law IsType (Limited IsType (LowType room)) is_square ts (read_type room ts) }
    ensures opens { (a : List Token) (x : Annotation) (s : List Token) → IsType a x → sees type_begins (a ++ s) ≡ true }
    ensures viable { (t : Token) → type_begins t ≡ true → Viable IsType (t ∷ []) }
{}

/// The parser of targets is exact at every height, in the same way.
pub fn law_of_targets()
    ensures exact { (room : ℕ) (ts : List Token) → Law IsPointed (Limited IsPointed (Low room)) (carries 1) ts (read_target room ts) }
    ensures opens { (a : List Token) (x : Expr) (s : List Token) → IsPointed a x → sees (begins 1) (a ++ s) ≡ true }
    ensures viable { (t : Token) → begins 1 t ≡ true → Viable IsPointed (t ∷ []) }
{}
