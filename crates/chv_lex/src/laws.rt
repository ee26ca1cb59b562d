// What holds of all texts, as laws on the definitions.
ghost use Rattle.std.specs.Prelude.{List, ℕ, Some, ◌≡◌, ◌↔◌};
ghost use Rattle.chv_ast.specs.Formed.{WellFormed};
ghost use Rattle.chv_ast.specs.GrammarStatements.{IsStatement};
ghost use Rattle.chv_ast.specs.declared.statement.Statement.{Statement};
ghost use Rattle.chv_lex.specs.Tokens.{Cut, tokens_of};
ghost use Rattle.chv_lex.specs.Writes.{Writes};
ghost use Rattle.chv_lex.specs.declared.token.Token.{Token};

/// A statement that a text writes is well formed.
pub fn law_written_is_formed()
    ensures { (text : List ℕ) (s : Statement) → Writes IsStatement s text → WellFormed s }
{}

/// The tokens that a piece is cut into are a function of it, which has none exactly where it is cut into none.
pub fn law_tokens_of()
    ensures { (piece : List ℕ) (tokens : List Token) → tokens_of piece ≡ Some tokens ↔ Cut 0 piece tokens }
{}
