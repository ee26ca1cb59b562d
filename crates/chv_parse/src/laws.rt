// What holds of all tokens and texts, as laws on the definitions.
ghost use Rattle.std.specs.Prelude.{◌≡◌, ◌↔◌, List, ℕ, Some};
ghost use Rattle.chv_ast.specs.GrammarStatements.{IsStatement};
ghost use Rattle.chv_ast.specs.Lexemes.{Lexeme};
ghost use Rattle.chv_ast.specs.declared.statement.Statement.{Statement};
ghost use Rattle.chv_lex.specs.Writes.{Writes};
ghost use Rattle.chv_parse.specs.StatementTexts.{statement_in};

/// Tokens write one statement at most.
pub fn law_one_tree()
    ensures { (tokens : List Lexeme) (s t : Statement) → IsStatement s tokens → IsStatement t tokens → s ≡ t }
{}

/// The statement of a text is the one that it writes, and it has none exactly where it writes none.
pub fn law_statement_in()
    ensures { (text : List ℕ) (s : Statement) → statement_in text ≡ Some s ↔ Writes IsStatement s text }
{}
